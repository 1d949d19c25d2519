// What stands at some tokens of a source, kept for these tokens alone.
ghost use Rattle.std.specs.Prelude.{◌≡◌, ℕ, ◌+◌, ◌*◌, ◌<◌, ◌≤◌, ◌++◌, ◌∷◌, [], All, Some, None, cond, nat_eq, length, OnOk, OnErr};
ghost use Rattle.luf_scope.specs.Marks.{mark_at, AreRising};
ghost use Rattle.luf_scope.specs.inner.Starts.{StandBefore};

use crate::Memory;
use std::alloc::Global;
use std::marker::Model;

/// What stands at some tokens. A contract sees it as the list of these tokens, each with what stands there.
#[derive(Debug, Drop)]
pub struct Marks<T> {
    marks: Vec<(u32, T)>,
    // For each 16 tokens in turn, how many marks stand before them: from there on a token is looked for.
    starts: Vec<usize>,
}

impl<T> Model for Marks<T> {
    ghost use Rattle.std.specs.Prelude.{ℕ, List};
    ghost use Rattle.luf_scope.specs.Marks.{AreRising};
    ghost use Rattle.luf_scope.specs.inner.Starts.{AreStarts};

    ghost Value = { List (ℕ × T) };

    ghost view = { λ m. m.marks.items };

    ghost invariant = { λ m. AreRising m.marks.items × AreStarts m.marks.items m.starts.items };
}

impl<T: Copy> Marks<T> {
    /// Nothing yet.
    pub fn new(alloc: Global) -> Marks<T>
        ensures { result ≡ [] }
    {
        Marks {
            marks: Vec::new(alloc),
            starts: Vec::new(alloc),
        }
    }

    /// Puts something at a token that stands behind all before.
    pub fn add(&mut self, token: u32, what: T) -> Result<(), Memory>
        requires { All (λ m. m.0 < token) self.old }
        ensures ok { OnOk result (self.new ≡ self.old ++ (token, what) ∷ []) }
        ensures err { OnErr result (self.new ≡ self.old) }
    {
        let block = block_of(token);
        while self.starts.len() <= block {
            self.starts.push(self.marks.len())?;
        }
        self.marks.push((token, what))?;
        Ok(())
    }

    /// What stands at a token.
    pub fn at(&self, token: u32) -> Option<T>
        ensures { result ≡ mark_at self.now token }
    {
        match self.starts.get(block_of(token)) {
            Some(start) => mark_from(self.marks.as_slice(), *start, token),
            None => None,
        }
    }
}

// What stands at a token, where it is looked for from this place on.
fn mark_from<T: Copy>(marks: &[(u32, T)], start: usize, token: u32) -> Option<T>
    requires rising { AreRising marks.now }
    requires within { start ≤ length marks.now }
    requires before { StandBefore marks.now start token }
    ensures { result ≡ mark_at marks.now token }
{
    for place in start..marks.len() {
        let mark = marks[place];
        if mark.0 >= token {
            return if_at(mark, token);
        }
    }
    None
}

fn if_at<T: Copy>(mark: (u32, T), token: u32) -> Option<T>
    ensures { result ≡ cond (nat_eq mark.0 token) (Some mark.1) None }
{
    if mark.0 == token { Some(mark.1) } else { None }
}

fn block_of(token: u32) -> usize
    ensures from { 16 * result ≤ token }
    ensures to { token < 16 * (result + 1) }
{
    token as usize / 16
}
