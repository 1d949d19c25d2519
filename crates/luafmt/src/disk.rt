//! The files of the system, by name.
ghost use Rattle.std.specs.Prelude.{◌≡◌, ◌≤◌, ◌++◌, ℕ, List, length, OnOk, OnErr};

use crate::streams::StreamSource;
use luf_io::{FileFault, Files, ReadErr, read_all};
use std::alloc::Global;
use std::fs::{File, OpenFile, OpenOptions, Permissions};
use std::io::{Error, ErrorKind, Result as IoResult, Write};
use std::rt::Files as System;

/// Files of the system. They tell nothing of what they hold, since others may change them.
#[derive(Drop)]
pub struct DiskFiles<'a, R> {
    system: &'a R,
    fetches: u64,
    replaces: u64,
}

impl<'a, R: System> DiskFiles<'a, R> {
    /// No call has failed yet.
    pub fn new(system: &'a R) -> DiskFiles<'a, R>
        ensures { (result.fetches ≡ 0) × (result.replaces ≡ 0) }
    {
        DiskFiles {
            system,
            fetches: 0,
            replaces: 0,
        }
    }
}

impl<'a, R: System> Files for DiskFiles<'a, R> {
    ghost use Rattle.std.specs.Prelude.{None};

    ghost fetch_faults = { λ f. f.fetches };

    ghost replace_faults = { λ f. f.replaces };

    ghost told = { λ _. None };

    /// Reads the file, and at most one byte more than `most`. A folder cannot be read.
    fn fetch(
        &mut self,
        alloc: Global,
        name: &str,
        most: usize,
        into: &mut Vec<u8>,
    ) -> Result<bool, FileFault> {
        match read_file(self.system, alloc, name, most, into) {
            Ok(()) => Ok(true),
            Err(ReadErr::TooLarge) => Ok(false),
            Err(ReadErr::Fault) => {
                self.fetches = self.fetches.saturating_add(1);
                Err(FileFault::Failed)
            }
            Err(ReadErr::Memory) => Err(FileFault::Memory),
        }
    }

    /// Writes a new file beside the old one and gives it the old one's name, so that a reader sees the one or the other
    /// whole. The file has to be there and to be writable. Its permissions stay, and where the name is that of a link, the
    /// file behind the link is replaced. Where a step fails, the new file goes again.
    fn replace(&mut self, alloc: Global, name: &str, bytes: &[u8]) -> Result<(), FileFault> {
        match replace_file(self.system, alloc, name, bytes) {
            Ok(()) => Ok(()),
            Err(e) if e.kind() == ErrorKind::OutOfMemory => Err(FileFault::Memory),
            Err(_) => {
                self.replaces = self.replaces.saturating_add(1);
                Err(FileFault::Failed)
            }
        }
    }
}

fn read_file<R: System>(
    system: &R,
    alloc: Global,
    name: &str,
    most: usize,
    into: &mut Vec<u8>,
) -> Result<(), ReadErr>
    ensures ok { OnOk result ((bytes : List ℕ) × (into.new.items ≡ into.old.items ++ bytes) × (length bytes ≤ most)) }
    ensures err { OnErr result (into.new.items ≡ into.old.items) }
{
    match File::open(system, name) {
        Ok(file) => read_all(alloc, &mut StreamSource::new(file), most, into),
        Err(e) if e.kind() == ErrorKind::OutOfMemory => Err(ReadErr::Memory),
        Err(_) => Err(ReadErr::Fault),
    }
}

fn replace_file<R: System>(system: &R, alloc: Global, name: &str, bytes: &[u8]) -> IoResult<()> {
    let target = system.canonicalize(alloc, name)?.into_string();
    let old = OpenOptions::new()
        .write(true)
        .open(system, target.as_str())?;
    let permissions = old.metadata()?.permissions();
    let (beside, file) = new_file(system, alloc, &target)?;
    let result = match fill(file, permissions, bytes) {
        Ok(()) => system.rename(&beside, &target),
        Err(e) => Err(e),
    };
    if result.is_err() {
        // Where even this fails, the first failure is the one to tell.
        let _ = system.remove_file(&beside);
    }
    result
}

// A new file beside another, with its name.
fn new_file<R: System>(system: &R, alloc: Global, target: &str) -> IoResult<(String, R::File)> {
    for number in 0..u32::MAX {
        let name = format!(in alloc; "{target}.luafmt{number}")?;
        match File::create_new(system, name.as_str()) {
            Ok(file) => return Ok((name, file)),
            Err(e) if e.kind() == ErrorKind::AlreadyExists => {}
            Err(e) => return Err(e),
        }
    }
    Err(Error::from(ErrorKind::AlreadyExists))
}

// Gives a new file these permissions and these bytes.
fn fill<O: OpenFile + Write + Drop>(
    mut file: O,
    permissions: Permissions,
    bytes: &[u8],
) -> IoResult<()> {
    file.set_permissions(permissions)?;
    file.write_all(bytes)
}
