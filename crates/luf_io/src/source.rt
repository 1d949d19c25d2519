//! Where bytes come from.
ghost use Rattle.std.specs.Prelude.{◌≡◌, ◌↔◌, ℕ, ◌<◌, ◌≤◌, min, List, [], ◌++◌, length, take, drop};
ghost use Rattle.std.specs.Prelude.{Contains, Option, IfOk, IsErr, OnOk, OnErr};
ghost use Rattle.luf_io.specs.Count.{Rose, next_count};
ghost use Rattle.luf_io.specs.Source.{Taken, IsAtEnd};

use crate::Failed;
use std::marker::Model;

/// Where bytes come from, a piece at a time.
pub trait Source {
    /// How many pulls have failed. It never falls.
    ghost faults: { Self → ℕ };

    /// The bytes that are left, where the source tells them.
    ghost left: { Self → Option (List ℕ) };

    /// Gives the next bytes into the front of a buffer and answers how many: 0 only at the end.
    ///
    /// # Errors
    ///
    /// `Failed`, at any time. Nothing was taken then, and the count of faults rose.
    fn pull(&mut self, into: &mut [u8]) -> Result<usize, Failed>
        requires { 0 < length into.old }
        ensures count { IfOk result (λ n. n ≤ length into.new) }
        ensures given { IfOk result (λ n. Taken (left self.old) (take n into.new) (left self.new)) }
        ensures end { IfOk result (λ n. n ≡ 0 → IsAtEnd (left self.old)) }
        ensures calm { OnOk result (faults self.new ≡ faults self.old) }
        ensures failed { OnErr result (Rose (faults self.old) (faults self.new)) }
        ensures kept { OnErr result (left self.new ≡ left self.old) };
}

/// A source over bytes in memory, which fails at the calls that it is told.
///
/// Its calls of `pull` are counted from 1. Both of its counts stand still at their last value.
#[derive(Debug, Drop)]
pub struct MemSource {
    bytes: Vec<u8>,
    // How many of the bytes were given.
    at: usize,
    step: usize,
    fails: Vec<u64>,
    calls: u64,
    faults: u64,
}

impl Model for MemSource {
    ghost use Rattle.std.specs.Prelude.{drop, ◌<◌, ◌≤◌, vec_len};
    ghost use Rattle.luf_io.specs.Source.{SourceState};

    ghost Value = { SourceState };

    ghost view = { λ s. record {
      left = drop s.at s.bytes.items;
      step = s.step;
      fails = s.fails.items;
      calls = s.calls;
      faults = s.faults;
    } };

    ghost invariant = { λ s. (s.at ≤ vec_len s.bytes) × (0 < s.step) };
}

impl MemSource {
    /// A source of these bytes. One call gives at most `step` of them, and the calls whose numbers
    /// are in `fails` fail.
    pub fn new(bytes: Vec<u8>, step: usize, fails: Vec<u64>) -> MemSource
        requires { 0 < step }
        ensures { result
            ≡ record { left = bytes.items; step = step; fails = fails.items; calls = 0; faults = 0 } }
    {
        MemSource {
            bytes,
            at: 0,
            step,
            fails,
            calls: 0,
            faults: 0,
        }
    }
}

impl Source for MemSource {
    ghost use Rattle.std.specs.Prelude.{Some};

    ghost faults = { λ s. s.faults };

    ghost left = { λ s. Some s.left };

    /// Fails exactly at the calls that were listed. Any other call gives as much as the step, the
    /// buffer and the bytes that are left allow.
    fn pull(&mut self, into: &mut [u8]) -> Result<usize, Failed>
        requires { 0 < length into.old }
        ensures listed { IsErr result ↔ Contains self.old.fails (next_count self.old.calls) }
        ensures gives { IfOk result
            (λ n. n ≡ min self.old.step (min (length into.new) (length self.old.left))) }
        ensures given { IfOk result (λ n. self.old.left ≡ take n into.new ++ self.new.left) }
        ensures end { IfOk result (λ n. n ≡ 0 → self.old.left ≡ []) }
        ensures after { IfOk result (λ n. self.new
            ≡ record self.old { left = drop n self.old.left; calls = next_count self.old.calls }) }
        ensures failed { OnErr result (self.new
            ≡ record self.old {
              calls = next_count self.old.calls;
              faults = next_count self.old.faults;
            }) }
        ensures rose { OnErr result (Rose self.old.faults self.new.faults) }
    {
        self.calls = self.calls.saturating_add(1);
        if self.fails.contains(&self.calls) {
            self.faults = self.faults.saturating_add(1);
            return Err(Failed);
        }
        let count = self.step.min(into.len()).min(self.bytes.len() - self.at);
        into[..count].copy_from_slice(&self.bytes[self.at..self.at + count]);
        self.at += count;
        Ok(count)
    }
}
