// The comments before a token, as notes.
ghost use Rattle.std.specs.Prelude.{◌≡◌, ◌++◌, true, IfOk, OnOk};
ghost use Rattle.std.specs.List.{All};
ghost use Rattle.luf_gaps.specs.Gaps as gaps;
ghost use Rattle.luf_gaps.specs.inner.Within.{LiesIn};

use luf_byte::is_blank;
use luf_doc::Remark;
use luf_lex::Note;
use luf_memory::Memory;
use luf_str::opens_long;
use luf_text::Bytes;
use sqlite_items::Items;
use std::alloc::Global;

/// Gives an empty list room for so many notes and no more: most gaps with comments have one.
pub(crate) fn make_room(
    alloc: Global,
    count: usize,
    notes: &mut Items<Remark>,
) -> Result<(), Memory>
    ensures { OnOk result (notes.new ≡ notes.old) }
{
    if notes.is_empty() {
        *notes = Items::from_vec(Vec::with_capacity(alloc, count)?);
    }
    Ok(())
}

/// Adds the comments before one token; `blank` says whether an empty line stood before them.
pub(crate) fn add_remarks(
    alloc: Global,
    src: &[u8],
    blank: bool,
    notes: &[Note],
    into: &mut Items<Remark>,
) -> Result<(), Memory>
    requires { All (LiesIn src.now) notes.now }
    ensures { OnOk result (into.new ≡ into.old ++ gaps.remarks src.now blank notes.now) }
{
    let mut before = blank;
    for note in notes {
        into.push(remark_of(alloc, src, before, *note)?)?;
        before = false;
    }
    Ok(())
}

fn remark_of(alloc: Global, src: &[u8], blank: bool, note: Note) -> Result<Remark, Memory>
    requires { LiesIn src.now note }
    ensures { IfOk result (λ made. made ≡ gaps.remark src.now blank note) }
{
    let bytes = &src[note.span.from as usize..note.span.to as usize];
    let text = Bytes::copy(alloc, trimmed(bytes))?;
    Ok(Remark {
        text,
        own_line: note.own_line,
        ends_line: is_short(bytes) || note.line_after,
        blank: blank || note.blank_before,
    })
}

/// A text without the blanks at its end.
fn trimmed(bytes: &[u8]) -> &[u8]
    ensures { result.now ≡ gaps.trimmed bytes.now }
{
    let mut end = bytes.len();
    while end > 0 && is_blank(bytes[end - 1]) {
        end -= 1;
    }
    &bytes[..end]
}

/// Whether a comment ends with its line: no long bracket stands behind its two dashes.
fn is_short(bytes: &[u8]) -> bool
    ensures { result ≡ gaps.is_short bytes.now }
{
    match bytes {
        [_, _, rest @ ..] => !opens_long(rest),
        [_] | [] => true,
    }
}

/// Whether an empty line is still to be told of behind these.
pub(crate) fn is_untold(blank: bool, notes: &[Note]) -> bool
    ensures { result ≡ gaps.untold blank notes.now }
{
    match notes {
        [] => blank,
        [_, ..] => false,
    }
}

/// Lets the last note end its line.
pub(crate) fn end_last(notes: &mut Items<Remark>) -> Result<(), Memory>
    ensures { OnOk result (notes.new ≡ gaps.last_ends notes.old) }
{
    match notes.pop() {
        Some(last) => Ok(notes.push(ending(last))?),
        None => Ok(()),
    }
}

fn ending(note: Remark) -> Remark
    ensures { result ≡ record note { ends_line = true } }
{
    Remark {
        ends_line: true,
        ..note
    }
}
