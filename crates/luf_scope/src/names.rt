// A number for each name of a local variable.
ghost use Rattle.std.specs.Prelude.{◌≡◌, ℕ, ◌<◌, List, Some, None, OnOk, IfOk, cond, length, bytes_eq};
ghost use Rattle.std.specs.Option.{option_or};
ghost use Rattle.luf_scope.specs.inner.Buckets.{number_among, number_in, bucket_from};

use crate::Memory;
use std::alloc::Global;
use std::collections::BTreeMap;

// How many buckets names are spread over, so that each has few.
const BUCKETS: usize = 1024;

// The numbers of the names of a bucket.
#[derive(Drop)]
pub struct Bucket<'a> {
    numbers: BTreeMap<&'a [u8], u32>,
}

impl<'a> Bucket<'a> {
    fn new(alloc: Global) -> Bucket<'a>
        ensures { (name : List ℕ) → number_among result.numbers name ≡ None }
    {
        Bucket {
            numbers: BTreeMap::new(alloc),
        }
    }

    fn find(&self, name: &'a [u8]) -> Option<u32>
        ensures { result ≡ number_among self.now.numbers name.entry.now }
    {
        self.numbers.get(&name).copied()
    }

    // The number of a name: this one, if it has none yet.
    fn number(&mut self, name: &'a [u8], number: u32) -> Result<u32, Memory>
        ensures number { IfOk result (λ n. Some n ≡ number_among self.new.numbers name.entry.now) }
        ensures names { OnOk result ((other : List ℕ) → number_among self.new.numbers other ≡ option_or (number_among self.old.numbers other) (cond (bytes_eq name.entry.now other) (Some number) None)) }
    {
        match self.find(name) {
            Some(found) => Ok(found),
            None => {
                self.numbers.insert(name, number)?;
                Ok(number)
            }
        }
    }
}

// The numbers of names.
#[derive(Drop)]
pub struct Names<'a> {
    buckets: Vec<Bucket<'a>>,
}

impl<'a> Names<'a> {
    pub fn new(alloc: Global) -> Result<Names<'a>, Memory>
        ensures none { IfOk result (λ names. (name : List ℕ) → number_in names.buckets.items name ≡ None) }
        ensures count { IfOk result (λ names. length names.buckets.items ≡ 1024) }
    {
        let mut buckets = Vec::with_capacity(alloc, BUCKETS)?;
        for _ in 0..BUCKETS {
            buckets.push(Bucket::new(alloc))?;
        }
        Ok(Names { buckets })
    }

    // The number of a name, if a local variable has it.
    pub fn find(&self, name: &'a [u8]) -> Option<u32>
        ensures { result ≡ number_in self.now.buckets.items name.entry.now }
    {
        match self.buckets.get(bucket_of(name)) {
            Some(bucket) => bucket.find(name),
            None => None,
        }
    }

    // The number of a name: this one, if it has none yet.
    pub fn number(&mut self, name: &'a [u8], number: u32) -> Result<u32, Memory>
        requires count { length self.old.buckets.items ≡ 1024 }
        ensures count { length self.new.buckets.items ≡ 1024 }
        ensures number { IfOk result (λ n. Some n ≡ number_in self.new.buckets.items name.entry.now) }
        ensures names { OnOk result ((other : List ℕ) → number_in self.new.buckets.items other ≡ option_or (number_in self.old.buckets.items other) (cond (bytes_eq name.entry.now other) (Some number) None)) }
    {
        self.buckets[bucket_of(name)].number(name, number)
    }
}

fn bucket_of(name: &[u8]) -> usize
    ensures value { result ≡ bucket_from 0 name.now }
    ensures within { result < 1024 }
{
    let mut bucket = 0;
    for b in name {
        bucket = (bucket * 31 + *b as usize) % BUCKETS;
    }
    bucket
}
