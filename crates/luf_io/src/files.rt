//! Files by name.
ghost use Rattle.std.specs.Prelude.{◌≡◌, ℕ, Option, option_map};
ghost use Rattle.std.specs.Prelude.{IfOk, OnOk, OnErr, MatchBool};
ghost use Rattle.std.specs.Bool.{OnFalse};
ghost use Rattle.std.specs.FinMap.{insert};
ghost use Rattle.luf_io.specs.Files.{FileMap, AppendsFile, IsTooLong, CountsFetch, CountsReplace};

use std::alloc::Global;

/// Why a call on files gave no answer.
#[derive(Clone, Copy, Debug, PartialEq, Eq)]
pub enum FileFault {
    /// The call failed, or the file is not there.
    Failed,
    /// No memory was found.
    Memory,
}

/// Files by name.
pub trait Files {
    /// How many calls of `fetch` have failed, other than of a file that told files do not have. It never falls.
    ghost fetch_faults: { Self → ℕ };

    /// How many calls of `replace` have failed. It never falls.
    ghost replace_faults: { Self → ℕ };

    /// The files, where they are told.
    ghost told: { Self → Option FileMap };

    /// Appends a whole file and answers true. The answer is false, with the buffer as before, for
    /// a file of more than `most` bytes.
    ///
    /// # Errors
    ///
    /// `Failed`, at any time, and where the file is missing; `Memory`. The buffer is as before.
    fn fetch(
        &mut self,
        alloc: Global,
        name: &str,
        most: usize,
        into: &mut Vec<u8>,
    ) -> Result<bool, FileFault>
        ensures whole { IfOk result (λ whole. MatchBool whole
            (AppendsFile (told self.old) name.now most into.old.items into.new.items)
            (into.new.items ≡ into.old.items)) }
        ensures long { IfOk result
            (λ whole. OnFalse whole (IsTooLong (told self.old) name.now most)) }
        ensures err { OnErr result (into.new.items ≡ into.old.items) }
        ensures counted { CountsFetch result
            (told self.old) name.now (fetch_faults self.old) (fetch_faults self.new) }
        ensures reads { told self.new ≡ told self.old }
        ensures other { replace_faults self.new ≡ replace_faults self.old };

    /// Sets one file's whole content.
    ///
    /// # Errors
    ///
    /// `Failed`, at any time; `Memory`. Every file is as before.
    fn replace(&mut self, alloc: Global, name: &str, bytes: &[u8]) -> Result<(), FileFault>
        ensures ok { OnOk result
            (told self.new ≡ option_map (λ files. insert files name.now bytes.now) (told self.old)) }
        ensures err { OnErr result (told self.new ≡ told self.old) }
        ensures counted { CountsReplace result (replace_faults self.old) (replace_faults self.new) }
        ensures other { fetch_faults self.new ≡ fetch_faults self.old };
}
