//! Files in memory.
ghost use Rattle.std.specs.Prelude.{◌≡◌, ◌↔◌, ◌⊎◌, ◌≤◌, ◌<◌, ℕ, List, ◌++◌, Bool, true, false, length, Contains, Option, Some, None, option_map, IfOk, IfErr, OnOk, OnErr, IsErrOf, MatchBool};
ghost use Rattle.std.specs.Bool.{OnFalse};
ghost use Rattle.std.specs.FinMap.{get, insert};
ghost use Rattle.luf_io.specs.Count.{Rose, next_count};
ghost use Rattle.luf_io.specs.Files.{FileMap, AppendsFile, IsTooLong, CountsFetch, CountsReplace};
ghost use Rattle.luf_io.specs.MemFiles.{files_in};

use crate::{FileFault, Files};
use std::alloc::Global;
use std::collections::BTreeMap;
use std::marker::Model;

/// Files in memory, which fail at the calls that they are told.
///
/// Calls of `fetch` and of `replace` are counted together from 1. All three counts stand still at their last value.
#[derive(Debug, Drop)]
pub struct MemFiles {
    files: BTreeMap<String, Vec<u8>>,
    fails: Vec<u64>,
    calls: u64,
    fetches: u64,
    replaces: u64,
}

impl Model for MemFiles {
    ghost use Rattle.luf_io.specs.MemFiles.{FilesState, files_state_code, files_in};

    ghost Value = { FilesState };

    ghost coded = { files_state_code };

    ghost view = { λ s. record {
      files = files_in s.files.entries;
      fails = s.fails.items;
      calls = s.calls;
      fetches = s.fetches;
      replaces = s.replaces;
    } };
}

impl MemFiles {
    /// These files. The calls whose numbers are in `fails` fail.
    pub fn new(_alloc: Global, files: BTreeMap<String, Vec<u8>>, fails: Vec<u64>) -> MemFiles
        ensures { result
            ≡ record { files = files_in files.entries; fails = fails.items; calls = 0; fetches = 0; replaces = 0 } }
    {
        MemFiles {
            files,
            fails,
            calls: 0,
            fetches: 0,
            replaces: 0,
        }
    }

    /// The bytes of the file of this name.
    pub fn file(&self, name: &str) -> Option<&[u8]>
        ensures { option_map (λ bytes. bytes.now) result ≡ get self.now.files name.now }
    {
        match self.files.get(name) {
            Some(bytes) => Some(bytes.as_slice()),
            None => None,
        }
    }
}

impl Files for MemFiles {
    ghost use Rattle.std.specs.Prelude.{Some};

    ghost fetch_faults = { λ f. f.fetches };

    ghost replace_faults = { λ f. f.replaces };

    ghost told = { λ f. Some f.files };

    /// Fails exactly at the calls that were listed, and for a file that is not there. Of these two it counts the first alone.
    fn fetch(
        &mut self,
        _alloc: Global,
        name: &str,
        most: usize,
        into: &mut Vec<u8>,
    ) -> Result<bool, FileFault>
        ensures refused { IsErrOf result FileFault.Failed
            ↔ (Contains self.old.fails (next_count self.old.calls)
            ⊎ (get self.old.files name.now ≡ None)) }
        ensures whole { IfOk result (λ whole. MatchBool whole
            (AppendsFile (Some self.old.files) name.now most into.old.items into.new.items)
            (into.new.items ≡ into.old.items)) }
        ensures long { IfOk result
            (λ whole. OnFalse whole (IsTooLong (Some self.old.files) name.now most)) }
        ensures err { OnErr result (into.new.items ≡ into.old.items) }
        ensures counted { CountsFetch result
            (Some self.old.files) name.now self.old.fetches self.new.fetches }
        ensures after { self.new
            ≡ record self.old { calls = next_count self.old.calls; fetches = self.new.fetches } }
    {
        self.calls = self.calls.saturating_add(1);
        let Some(bytes) = self.files.get(name) else {
            return Err(FileFault::Failed);
        };
        if self.fails.contains(&self.calls) {
            self.fetches = self.fetches.saturating_add(1);
            return Err(FileFault::Failed);
        }
        if bytes.len() > most {
            return Ok(false);
        }
        match into.extend_from_slice(bytes.as_slice()) {
            Ok(()) => Ok(true),
            Err(_) => Err(FileFault::Memory),
        }
    }

    /// Fails exactly at the calls that were listed.
    fn replace(&mut self, alloc: Global, name: &str, bytes: &[u8]) -> Result<(), FileFault>
        ensures refused { IsErrOf result FileFault.Failed
            ↔ Contains self.old.fails (next_count self.old.calls) }
        ensures ok { OnOk result (self.new
            ≡ record self.old { files = insert self.old.files name.now bytes.now; calls = next_count self.old.calls }) }
        ensures err { OnErr result (self.new
            ≡ record self.old { calls = next_count self.old.calls; replaces = self.new.replaces }) }
        ensures counted { CountsReplace result self.old.replaces self.new.replaces }
    {
        self.calls = self.calls.saturating_add(1);
        if self.fails.contains(&self.calls) {
            self.replaces = self.replaces.saturating_add(1);
            return Err(FileFault::Failed);
        }
        let Ok(key) = String::from_str(alloc, name) else {
            return Err(FileFault::Memory);
        };
        let Ok(value) = Vec::from_slice(alloc, bytes) else {
            return Err(FileFault::Memory);
        };
        match self.files.insert(key, value) {
            Ok(_) => Ok(()),
            Err(_) => Err(FileFault::Memory),
        }
    }
}
