//! Where bytes go.
ghost use Rattle.std.specs.Prelude.{◌≡◌, ◌↔◌, ◌⊎◌, ℕ, ◌-◌, ◌<◌, ◌≤◌, min, List, [], ◌++◌, length, take};
ghost use Rattle.std.specs.Prelude.{Contains, Option, IfOk, IsErr, OnOk, OnErr};
ghost use Rattle.luf_io.specs.Count.{Rose, next_count};
ghost use Rattle.luf_io.specs.Sink.{Appends};

use crate::{Failed, Memory};
use std::alloc::Global;
use std::marker::Model;

/// Where bytes go, a piece at a time.
pub trait Sink {
    /// How many puts have failed. It never falls.
    ghost faults: { Self → ℕ };

    /// What was written so far, where the sink tells it.
    ghost written: { Self → Option (List ℕ) };

    /// Takes the first bytes of a piece and answers how many: at least one of a piece that is not
    /// empty.
    ///
    /// # Errors
    ///
    /// `Failed`, at any time. Nothing was taken then, and the count of faults rose.
    fn put(&mut self, piece: &[u8]) -> Result<usize, Failed>
        ensures count { IfOk result (λ n. n ≤ length piece.now) }
        ensures moves { IfOk result (λ n. 0 < length piece.now → 0 < n) }
        ensures taken { IfOk result
            (λ n. Appends (written self.old) (take n piece.now) (written self.new)) }
        ensures calm { OnOk result (faults self.new ≡ faults self.old) }
        ensures failed { OnErr result (Rose (faults self.old) (faults self.new)) }
        ensures kept { OnErr result (written self.new ≡ written self.old) };
}

/// A sink in memory, with room for so many bytes, which fails at the calls that it is told.
///
/// Its calls of `put` are counted from 1. Both of its counts stand still at their last value.
#[derive(Debug, Drop)]
pub struct MemSink {
    written: Vec<u8>,
    // How many more bytes there is room for.
    room: usize,
    step: usize,
    fails: Vec<u64>,
    calls: u64,
    faults: u64,
}

impl Model for MemSink {
    ghost use Rattle.std.specs.Prelude.{◌+◌, ◌<◌, ◌≤◌, vec_len, vec_capacity};
    ghost use Rattle.luf_io.specs.Sink.{SinkState};

    ghost Value = { SinkState };

    ghost view = { λ s. record {
      written = s.written.items;
      room = s.room;
      step = s.step;
      fails = s.fails.items;
      calls = s.calls;
      faults = s.faults;
    } };

    // The memory for the room that is left was found when the sink was made.
    ghost invariant = { λ s. (vec_len s.written + s.room ≤ vec_capacity s.written) × (0 < s.step) };
}

impl MemSink {
    /// A sink with room for `room` bytes, which it takes from the allocator now. One call takes at
    /// most `step` bytes, and the calls whose numbers are in `fails` fail.
    ///
    /// # Errors
    ///
    /// `Memory`.
    pub fn new(alloc: Global, room: usize, step: usize, fails: Vec<u64>) -> Result<MemSink, Memory>
        requires { 0 < step }
        ensures { IfOk result (λ sink. sink
            ≡ record {
              written = [];
              room = room;
              step = step;
              fails = fails.items;
              calls = 0;
              faults = 0;
            }) }
    {
        Ok(MemSink {
            written: Vec::with_capacity(alloc, room)?,
            room,
            step,
            fails,
            calls: 0,
            faults: 0,
        })
    }

    /// The bytes that were written so far.
    pub fn written(&self) -> &[u8]
        ensures { result.now ≡ self.now.written }
    {
        &self.written
    }
}

impl Sink for MemSink {
    ghost use Rattle.std.specs.Prelude.{Some};

    ghost faults = { λ s. s.faults };

    ghost written = { λ s. Some s.written };

    /// Fails exactly at the calls that were listed, and for a piece that is not empty where no room
    /// is left. Any other call takes as much as the step, the piece and the room allow.
    fn put(&mut self, piece: &[u8]) -> Result<usize, Failed>
        ensures refused { IsErr result
            ↔ (Contains self.old.fails (next_count self.old.calls)
            ⊎ ((self.old.room ≡ 0) × (0 < length piece.now))) }
        ensures takes { IfOk result
            (λ n. n ≡ min self.old.step (min (length piece.now) self.old.room)) }
        ensures moves { IfOk result (λ n. 0 < length piece.now → 0 < n) }
        ensures after { IfOk result (λ n. self.new
            ≡ record self.old {
              written = self.old.written ++ take n piece.now;
              room = self.old.room - n;
              calls = next_count self.old.calls;
            }) }
        ensures failed { OnErr result (self.new
            ≡ record self.old {
              calls = next_count self.old.calls;
              faults = next_count self.old.faults;
            }) }
        ensures rose { OnErr result (Rose self.old.faults self.new.faults) }
    {
        self.calls = self.calls.saturating_add(1);
        if self.fails.contains(&self.calls) || (self.room == 0 && !piece.is_empty()) {
            self.faults = self.faults.saturating_add(1);
            return Err(Failed);
        }
        let count = self.step.min(piece.len()).min(self.room);
        self.written.extend_from_slice(&piece[..count]).unwrap();
        self.room -= count;
        Ok(count)
    }
}
