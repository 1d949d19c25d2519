// The cut of a source into pieces.
ghost use Rattle.std.specs.Prelude.{◌≡◌, ◌<◌, ◌≤◌, length, drop, false, IfOk, IfErr, OnOk};
ghost use Rattle.luf_byte.specs.Class as class;
ghost use Rattle.luf_byte.specs.Front.{begins};
ghost use Rattle.luf_lex.specs.Cut.{Cuts, IsCut, IsCause};
ghost use Rattle.luf_lex.specs.inner.Filled.{blank_between};
ghost use Rattle.luf_lex.specs.inner.Growing.{IsGrown, IsNext, IsPushed, IsFaultAt, IsFaultFrom};

use crate::first::marked;
use crate::growing::Growing;
use crate::head::push_head;
use crate::plain::{blank_run, word};
use crate::{Cut, LexErr};
use luf_byte::is_letter;
use std::alloc::Global;

/// Cuts a source of at most 16 MiB into its pieces.
///
/// # Errors
///
/// `Bad`, with the first place that has no piece, and why; `Memory`.
pub fn cut(alloc: Global, src: &[u8]) -> Result<Cut, LexErr>
    requires { length src.now ≤ 16777216 }
    ensures ok { IfOk result (λ cut. IsCut src.now cut) }
    ensures bad { IfErr result (IsCause src.now) }
{
    let mut growing = Growing::new(alloc);
    let mut at = push_head(src, &mut growing)?;
    while at < src.len() {
        at = push_next(src, at, &mut growing)?;
    }
    Ok(growing.finish(alloc, src.len())?)
}

/// Puts the next piece that is no blank behind the others, if what is left of a source from a place on has one, and
/// answers where it ends. Blanks are passed: they lie where no other piece does.
fn push_next(src: &[u8], at: usize, growing: &mut Growing) -> Result<usize, LexErr>
    requires inside { at < length src.now }
    requires short { length src.now ≤ 16777216 }
    requires few { length growing.old.pieces.items ≤ at }
    requires grown { IsGrown growing.old.tokens.items growing.old.comments.items growing.old.pieces.items }
    ensures next { IfOk result (λ end. IsNext src.now at end growing.old.pieces.items growing.new.pieces.items) }
    ensures grown { OnOk result (IsGrown growing.new.tokens.items growing.new.comments.items growing.new.pieces.items) }
    ensures bad { IfErr result (IsFaultFrom src.now at) }
{
    let from = behind_blanks(src, at);
    if from == src.len() {
        return Ok(from);
    }
    push_solid(src, from, growing)
}

/// Where the blanks end that a source has at a place.
fn behind_blanks(src: &[u8], at: usize) -> usize
    requires { at < length src.now }
    ensures behind { at ≤ result }
    ensures within { result ≤ length src.now }
    ensures cut { Cuts src.now at (blank_between at result) result }
    ensures stops { begins class.is_blank (drop result src.now) ≡ false }
{
    at + blank_run(&src[at..])
}

/// Puts the first piece of what is left of a source from a place on, where no blank is, behind the others, and answers
/// where it ends. What most pieces begin with is looked for first.
fn push_solid(src: &[u8], at: usize, growing: &mut Growing) -> Result<usize, LexErr>
    requires inside { at < length src.now }
    requires short { length src.now ≤ 16777216 }
    requires few { length growing.old.pieces.items ≤ at }
    requires blank { begins class.is_blank (drop at src.now) ≡ false }
    requires grown { IsGrown growing.old.tokens.items growing.old.comments.items growing.old.pieces.items }
    ensures pushed { IfOk result (λ end. IsPushed src.now at end growing.old.pieces.items growing.new.pieces.items) }
    ensures grown { OnOk result (IsGrown growing.new.tokens.items growing.new.comments.items growing.new.pieces.items) }
    ensures bad { IfErr result (IsFaultAt src.now at) }
{
    let text = &src[at..];
    if is_letter(text[0]) {
        let (tok, len) = word(text);
        growing.push_token(tok, at, at + len)?;
        return Ok(at + len);
    }
    match marked(text) {
        Ok((kind, len)) => {
            growing.push(kind, at, at + len)?;
            Ok(at + len)
        }
        Err(what) => Err(LexErr::Bad {
            at: at as u32,
            what,
        }),
    }
}
