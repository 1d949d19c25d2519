// What stands between two texts.
ghost use Rattle.std.specs.Prelude.{◌≡◌, ◌≤◌, ◌<◌, ◌+◌, ◌^◌, ℕ, ◌||◌, ◌&&◌, not, List, cond, false, OnOk};
ghost use Rattle.luf_doc.specs.Layout.{Piece, lay_gap, lay_notes};
ghost use Rattle.luf_style.specs.inner.Modes.{mode_as};
ghost use Rattle.luf_style.specs.inner.Shows.{Shows};

use crate::mode::{Mode, must_break};
use crate::sheet::Sheet;
use luf_doc::{Gap, Page, Remark};
use luf_memory::Memory;

/// Writes a gap of a level.
pub(crate) fn write_gap(
    page: &Page,
    gap: &Gap,
    mode: Mode,
    level: u32,
    sheet: &mut Sheet,
) -> Result<(), Memory>
    requires page { page.now.unit ≤ 16 }
    requires level { level + 1 < 2 ^ 32 }
    ensures shown { OnOk result ((done : List Piece) → Shows page.now sheet.old done → Shows page.now sheet.new (lay_gap gap.now (mode_as mode) level gap.now.notes done)) }
    ensures before { sheet.new.bytes.before ≡ sheet.old.bytes.before }
{
    let must = must_break(gap.chance, mode);
    if !gap.notes.is_empty() {
        write_notes(page, gap, must, level, sheet)
    } else if must {
        sheet.break_line(page, level, gap.blank)
    } else {
        sheet.join(gap.chance)
    }
}

/// Writes the notes of a gap that `must` break or need not.
fn write_notes(
    page: &Page,
    gap: &Gap,
    must: bool,
    level: u32,
    sheet: &mut Sheet,
) -> Result<(), Memory>
    requires page { page.now.unit ≤ 16 }
    requires level { level + 1 < 2 ^ 32 }
    ensures shown { OnOk result ((done : List Piece) → Shows page.now sheet.old done → Shows page.now sheet.new (lay_notes gap.now level must false false gap.now.notes done)) }
    ensures before { sheet.new.bytes.before ≡ sheet.old.bytes.before }
{
    let inner = level_of_notes(gap, level);
    let mut had = false;
    let mut ends = false;
    for note in gap.notes.as_slice() {
        let breaks = breaks_before(note, ends);
        sheet.set_apart(page, breaks, inner, note.blank)?;
        sheet.put(note.text.as_slice())?;
        had = either(had, breaks);
        ends = note.ends_line;
    }
    sheet.set_apart(page, breaks_behind(must, had, ends), level, gap.blank)
}

/// The level of the notes of a gap.
fn level_of_notes(gap: &Gap, level: u32) -> u32
    requires { level + 1 < 2 ^ 32 }
    ensures { result ≡ level + cond gap.now.deeper 1 0 }
{
    if gap.deeper { level + 1 } else { level }
}

/// Whether a break stands before a note, where `ends` says whether the note before it ends its line.
fn breaks_before(note: &Remark, ends: bool) -> bool
    ensures { result ≡ (note.now.own_line || ends) }
{
    note.own_line || ends
}

/// Whether a break stands behind the last note, which ends its line where `ends` is set, in a gap that `had` a break.
fn breaks_behind(must: bool, had: bool, ends: bool) -> bool
    ensures { result ≡ (ends || (must && not had)) }
{
    ends || must && !had
}

fn either(a: bool, b: bool) -> bool
    ensures { result ≡ (a || b) }
{
    a || b
}
