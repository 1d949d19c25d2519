// Texts in one buffer.
ghost use Rattle.std.specs.Prelude.{◌≡◌, ◌≤◌, ◌<◌, ◌+◌, ◌++◌, ℕ, [], ◌∷◌, get_or, length, IfOk, OnOk};

use luf_memory::Memory;
use std::alloc::Global;
use std::marker::Model;

/// The most bytes of all texts together: their ends are numbers of 32 bits.
const MOST_BYTES: usize = 4294967295;

/// Texts, one after another in one buffer of fewer than 2^32 bytes. Contracts see their list.
#[derive(Drop)]
pub(crate) struct Texts {
    bytes: Vec<u8>,
    /// Where each text ends. The first one begins at 0, and each other one where the one before it ends.
    ends: Vec<u32>,
}

impl Model for Texts {
    ghost use Rattle.std.specs.Prelude.{ℕ, List, length};
    ghost use Rattle.luf_style.specs.inner.Texts.{texts_from, AreEnds};

    ghost Value = { List (List ℕ) };

    ghost view = { λ t. texts_from 0 t.ends.items t.bytes.items };

    ghost invariant = { λ t. AreEnds 0 t.ends.items (length t.bytes.items) };
}

impl Texts {
    /// No texts, with room for so many.
    pub fn new(alloc: Global, count: usize) -> Result<Texts, Memory>
        ensures { IfOk result (λ texts. texts ≡ []) }
    {
        Ok(Texts {
            bytes: Vec::new(alloc),
            ends: Vec::with_capacity(alloc, count)?,
        })
    }

    /// How many there are.
    pub fn len(&self) -> usize
        ensures { result ≡ length self.now }
    {
        self.ends.len()
    }

    /// Makes this text `n`, with empty ones before it where there were not so many.
    pub fn put(&mut self, n: usize, text: &[u8]) -> Result<(), Memory>
        requires { length self.old ≤ n }
        ensures few { OnOk result (length self.new ≡ n + 1) }
        ensures same { OnOk result ((i : ℕ) → i < n → get_or self.new i [] ≡ get_or self.old i []) }
        ensures text { OnOk result (get_or self.new n [] ≡ text.now) }
    {
        while self.len() < n {
            self.push(b"")?;
        }
        self.push(text)
    }

    /// One text more.
    fn push(&mut self, text: &[u8]) -> Result<(), Memory>
        ensures { OnOk result (self.new ≡ self.old ++ text.now ∷ []) }
    {
        let len = self.bytes.len();
        if let Err(e) = self.bytes.extend_from_slice(text) {
            self.bytes.truncate(len);
            return Err(Memory::from(e));
        }
        let end = self.bytes.len();
        if end > MOST_BYTES {
            self.bytes.truncate(len);
            return Err(Memory);
        }
        if let Err(e) = self.ends.push(end as u32) {
            self.bytes.truncate(len);
            return Err(Memory::from(e));
        }
        Ok(())
    }

    /// Text `n`; none where there are not so many.
    pub fn get(&self, n: usize) -> &[u8]
        ensures { result.now ≡ get_or self.now n [] }
    {
        if n >= self.ends.len() {
            return b"";
        }
        if n == 0 {
            return &self.bytes[..self.ends[0] as usize];
        }
        &self.bytes[self.ends[n - 1] as usize..self.ends[n] as usize]
    }
}
