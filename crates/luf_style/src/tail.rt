// Bytes that are written behind others.
ghost use Rattle.std.specs.Prelude.{◌≡◌, ◌≤◌, [], ◌∷◌, ◌++◌, take, drop, length, OnOk};

use luf_memory::Memory;
use std::marker::Model;

/// A vector and how many bytes it held before. Contracts see those bytes, and what has been written behind them.
#[derive(Drop)]
pub(crate) struct Tail {
    bytes: Vec<u8>,
    start: usize,
}

impl Model for Tail {
    ghost use Rattle.std.specs.Prelude.{◌≤◌, take, drop, length};
    ghost use Rattle.luf_style.specs.inner.Parted.{Parted, parted_code};

    ghost Value = { Parted };

    ghost coded = { parted_code };

    ghost view = { λ t. record { before = take t.start t.bytes.items; behind = drop t.start t.bytes.items } };

    ghost invariant = { λ t. t.start ≤ length t.bytes.items };
}

impl Tail {
    /// Nothing is written behind the bytes.
    pub fn new(bytes: Vec<u8>) -> Tail
        ensures before { result.before ≡ bytes.items }
        ensures behind { result.behind ≡ [] }
    {
        let start = bytes.len();
        Tail { bytes, start }
    }

    pub fn push(&mut self, byte: u8) -> Result<(), Memory>
        ensures before { self.new.before ≡ self.old.before }
        ensures behind { OnOk result (self.new.behind ≡ self.old.behind ++ byte ∷ []) }
    {
        self.bytes.push(byte)?;
        Ok(())
    }

    pub fn extend_from_slice(&mut self, bytes: &[u8]) -> Result<(), Memory>
        ensures before { self.new.before ≡ self.old.before }
        ensures behind { OnOk result (self.new.behind ≡ self.old.behind ++ bytes.now) }
    {
        self.bytes.extend_from_slice(bytes)?;
        Ok(())
    }

    /// What was there before, and what has been written.
    pub fn into_vec(self) -> Vec<u8>
        ensures { result.items ≡ self.before ++ self.behind }
    {
        let Tail { bytes, start: _ } = self;
        bytes
    }

    /// What was there before.
    pub fn undone(self) -> Vec<u8>
        ensures { result.items ≡ self.before }
    {
        let Tail { mut bytes, start } = self;
        bytes.truncate(start);
        bytes
    }
}
