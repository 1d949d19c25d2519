// The layout of the document of a source, written without the document.
ghost use Rattle.std.specs.Prelude.{◌≡◌, ◌≤◌, ◌<◌, ◌+◌, ◌^◌, ◌++◌, ℕ, List, [], ◌∷◌, map, min, length, reverse, OnOk, OnErr};
ghost use Rattle.luf_conf.specs.Settings.{AreInRange};
ghost use Rattle.luf_doc.specs.Document.{Document};
ghost use Rattle.luf_doc.specs.Layout.{layout, joined, outside};
ghost use Rattle.luf_draft.specs.Draft.{Opening};
ghost use Rattle.luf_draft.specs.Flat.{Flat, flat_gap, flat_open, flat_close, shown};
ghost use Rattle.luf_lex.specs.Cut.{IsCut};
ghost use Rattle.luf_lex.specs.Tokens.{toks_of};
ghost use Rattle.luf_tree.specs.Grammar.{IsChunk};
ghost use Rattle.luf_style.specs.Styled.{IsStyled, choices_of};
ghost use Rattle.luf_style.specs.declared.straight.Lines.{Lines as Held};
ghost use Rattle.luf_style.specs.inner.Modes.{mode_as};
ghost use Rattle.luf_style.specs.inner.Straight.{AreWithin, Lays, mode_for, run};
ghost use Rattle.luf_style.specs.inner.Tape.{with_gaps};

use crate::gap::write_gap;
use crate::gap_list::GapList;
use crate::lay::{Setting, write_trail};
use crate::measuring::needs_of;
use crate::mode::Mode;
use crate::openings::filled_gaps;
use crate::sheet::Sheet;
use crate::styling::MOST_MARKS;
use crate::word::text_of;
use crate::writing::write_tokens;
use crate::written::Written;
use luf_conf::Options;
use luf_doc::Page;
use luf_draft::{Mark, Part};
use luf_gaps::GapReader;
use luf_lex::Cut;
use luf_memory::Memory;
use luf_tree::Chunk;
use std::alloc::Global;
use std::mem;

/// Appends the layout of the document of a source, as the options want both. What `lay_table` writes of what `style` makes,
/// without the document and its table: linear in the source and the layout.
///
/// # Errors
///
/// No memory was found: also where the document would have 2^32 marks or more, or the strings in it that are not written as
/// they are spelled 2^32 bytes or more. `into` is as it was.
pub fn write_styled(
    alloc: Global,
    src: &[u8],
    cut: &Cut,
    c: &Chunk,
    o: &Options,
    into: &mut Vec<u8>,
) -> Result<(), Memory>
    requires cut { IsCut src.now cut.now }
    requires tree { IsChunk (toks_of cut.now) c.now }
    requires range { AreInRange o.now }
    ensures ok { OnOk result ((d : Document) × IsStyled (choices_of o.now) src.now cut.now c.now d × (into.new.items ≡ into.old.items ++ layout (choices_of o.now).page d)) }
    ensures err { OnErr result (into.new.items ≡ into.old.items) }
{
    let written = write_tokens(alloc, src, cut, o.quotes)?;
    let found = luf_draft::marks(alloc, cut, c, o.calls)?;
    if found.len() > MOST_MARKS {
        return Err(Memory);
    }
    let notes = GapReader::new(alloc, src, cut, c)?;
    let marks = found.as_slice();
    let gaps = filled_gaps(alloc, &written, marks, notes)?;
    let needs = needs_of(alloc, &written, marks, &gaps)?;
    let page = Page {
        width: o.column_width,
        tabs: o.tabs,
        unit: o.indent_width,
    };
    let lines = Lines {
        page: &page,
        written: &written,
        gaps: &gaps,
    };
    lay_straight(alloc, &lines, marks, needs, into)
}

/// What is written, on which page.
#[derive(Drop)]
struct Lines<'a> {
    page: &'a Page,
    written: &'a Written<'a>,
    gaps: &'a GapList,
}

/// What has been laid.
#[derive(Drop)]
struct Laying {
    /// How many gaps.
    gaps: usize,
    /// What the groups need that are left, the next one last.
    needs: Vec<u32>,
    /// The places outside of the parts that are open, the innermost last.
    outer: Vec<Setting>,
    /// The place where the next mark stands.
    at: Setting,
    sheet: Sheet,
}

/// Appends the layout of marks, of whose groups these are the needs.
fn lay_straight(
    alloc: Global,
    lines: &Lines,
    marks: &[Mark],
    needs: Vec<u32>,
    into: &mut Vec<u8>,
) -> Result<(), Memory>
    requires width { lines.now.page.now.width ≤ 10000 }
    requires unit { lines.now.page.now.unit ≤ 16 }
    requires few { length marks.now < 2 ^ 32 }
    ensures ok { OnOk result (into.new.items ≡ into.old.items ++ joined lines.now.page.now (reverse (run lines.now.page.now (with_gaps (map (shown lines.now.written.now) marks.now) lines.now.gaps.now) (reverse needs.items) [] (record { mode = outside; level = 0 }) []))) }
    ensures err { OnErr result (into.new.items ≡ into.old.items) }
{
    let mut laying = Laying {
        gaps: 0,
        needs,
        outer: Vec::new(alloc),
        at: Setting {
            mode: Mode::Outside,
            level: 0,
        },
        sheet: Sheet::new(mem::replace(into, Vec::new(alloc))),
    };
    match laying.lay(lines, marks) {
        Ok(()) => {
            *into = laying.sheet.bytes.into_vec();
            Ok(())
        }
        Err(e) => {
            *into = laying.sheet.bytes.undone();
            Err(e)
        }
    }
}

impl Laying {
    /// Lays marks.
    fn lay(&mut self, lines: &Lines, marks: &[Mark]) -> Result<(), Memory>
        requires width { lines.now.page.now.width ≤ 10000 }
        requires unit { lines.now.page.now.unit ≤ 16 }
        requires few { length marks.now < 2 ^ 32 }
        requires within { AreWithin 0 self.now }
        ensures ok { OnOk result (Lays lines.now (map (shown lines.now.written.now) marks.now) [] self.old self.new) }
        ensures before { self.new.sheet.bytes.before ≡ self.old.sheet.bytes.before }
    {
        for mark in marks {
            self.step(lines, *mark)?;
        }
        Ok(())
    }

    /// Lays one mark.
    fn step(&mut self, lines: &Lines, mark: Mark) -> Result<(), Memory>
        requires width { lines.now.page.now.width ≤ 10000 }
        requires unit { lines.now.page.now.unit ≤ 16 }
        requires level { self.now.at.level + 1 < 2 ^ 32 }
        ensures ok { OnOk result ((rest : List Flat) → Lays lines.now (shown lines.now.written.now mark ∷ rest) rest self.old self.new) }
        ensures within { OnOk result ((n : ℕ) → AreWithin n self.old → AreWithin (n + 1) self.new) }
        ensures before { self.new.sheet.bytes.before ≡ self.old.sheet.bytes.before }
    {
        match mark {
            Mark::Token(_) | Mark::Word(_) | Mark::Sign(_) => {
                self.sheet.put(text_of(lines.written, mark))
            }
            Mark::Gap(_) => self.next_gap(lines),
            Mark::Trail => write_trail(self.at.mode, &mut self.sheet),
            Mark::Open(part) => self.open(lines, part),
            Mark::Close => {
                self.close();
                Ok(())
            }
        }
    }

    /// Lays the next gap, if one is left.
    fn next_gap(&mut self, lines: &Lines) -> Result<(), Memory>
        requires unit { lines.now.page.now.unit ≤ 16 }
        requires level { self.now.at.level + 1 < 2 ^ 32 }
        ensures ok { OnOk result ((opening : Opening) (rest : List Flat) → Lays lines.now (flat_gap opening ∷ rest) rest self.old self.new) }
        ensures within { OnOk result ((n : ℕ) → AreWithin n self.old → AreWithin (n + 1) self.new) }
        ensures before { self.new.sheet.bytes.before ≡ self.old.sheet.bytes.before }
    {
        if self.gaps >= lines.gaps.len() {
            return Ok(());
        }
        let gap = lines.gaps.get(self.gaps);
        self.gaps += 1;
        write_gap(
            lines.page,
            gap,
            self.at.mode,
            self.at.level,
            &mut self.sheet,
        )
    }

    /// Goes into a part.
    fn open(&mut self, lines: &Lines, part: Part) -> Result<(), Memory>
        requires width { lines.now.page.now.width ≤ 10000 }
        requires level { self.now.at.level + 1 < 2 ^ 32 }
        ensures ok { OnOk result ((rest : List Flat) → Lays lines.now (flat_open part ∷ rest) rest self.old self.new) }
        ensures within { OnOk result ((n : ℕ) → AreWithin n self.old → AreWithin (n + 1) self.new) }
        ensures before { self.new.sheet.bytes.before ≡ self.old.sheet.bytes.before }
    {
        self.outer.push(self.at)?;
        match part {
            Part::Nest => self.at.level += 1,
            Part::Group => {
                let need = self.needs.pop().unwrap_or(0);
                self.at.mode = mode_for(lines.page, self.at.mode, self.sheet.column, need);
            }
            Part::Sequence => {}
        }
        Ok(())
    }

    /// Goes out of the innermost part, if one is open.
    fn close(&mut self)
        ensures ok { (lines : Held) (rest : List Flat) → Lays lines (flat_close ∷ rest) rest self.old self.new }
        ensures within { (n : ℕ) → AreWithin n self.old → AreWithin n self.new }
        ensures before { self.new.sheet.bytes.before ≡ self.old.sheet.bytes.before }
    {
        if let Some(outer) = self.outer.pop() {
            self.at = outer;
        }
    }
}

/// How a group is laid that stands in a group of `mode` at a column, or the greatest number where it is more, and needs so
/// much of a line.
fn mode_for(page: &Page, mode: Mode, column: u32, need: u32) -> Mode
    requires { page.now.width ≤ 10000 }
    ensures { (c : ℕ) → column ≡ min c u32.MAX → mode_as result ≡ mode_for page.now (mode_as mode) c need }
{
    match mode {
        Mode::Flat => Mode::Flat,
        Mode::Outside | Mode::Broken => {
            if u64::from(column) + u64::from(need) > u64::from(page.width) {
                Mode::Broken
            } else {
                Mode::Flat
            }
        }
    }
}
