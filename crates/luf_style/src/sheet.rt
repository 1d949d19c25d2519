// What has been written of a layout.
ghost use Rattle.std.specs.Prelude.{◌≡◌, ◌≤◌, ◌++◌, [], ◌∷◌, ◌+◌, ◌*◌, ℕ, List, cond, min, drop, replicate, OnOk};
ghost use Rattle.luf_doc.specs.declared.page.Page.{Page};
ghost use Rattle.luf_doc.specs.Flat.{is_line_end};
ghost use Rattle.luf_doc.specs.Layout.{Piece, word, note, spaced, broken, unbroken, column_after, written_line_end, written_indentation};
ghost use Rattle.luf_style.specs.inner.Shows.{Shows};

use crate::tail::Tail;
use luf_doc::{Chance, Page};
use luf_memory::Memory;

/// The bytes of the pieces that have been written, behind what was there, the columns of their last line, or the greatest
/// number where they are more, and whether something has been written.
#[derive(Drop)]
pub(crate) struct Sheet {
    pub bytes: Tail,
    pub column: u32,
    pub begun: bool,
}

impl Sheet {
    /// Nothing is written behind the bytes.
    pub fn new(bytes: Vec<u8>) -> Sheet
        ensures shown { (page : Page) → Shows page result [] }
        ensures before { result.bytes.before ≡ bytes.items }
    {
        Sheet {
            bytes: Tail::new(bytes),
            column: 0,
            begun: false,
        }
    }

    /// Writes a text.
    pub fn put(&mut self, bytes: &[u8]) -> Result<(), Memory>
        ensures word { OnOk result ((page : Page) (done : List Piece) → Shows page self.old done → Shows page self.new (word bytes.now ∷ done)) }
        ensures note { OnOk result ((page : Page) (done : List Piece) → Shows page self.old done → Shows page self.new (note bytes.now ∷ done)) }
        ensures before { self.new.bytes.before ≡ self.old.bytes.before }
    {
        self.bytes.extend_from_slice(bytes)?;
        self.column = column_behind(bytes, self.column);
        self.begun = self.begun || !bytes.is_empty();
        Ok(())
    }

    /// Writes a break where `breaks` is set, else a space.
    pub fn set_apart(
        &mut self,
        page: &Page,
        breaks: bool,
        level: u32,
        blank: bool,
    ) -> Result<(), Memory>
        requires { page.now.unit ≤ 16 }
        ensures shown { OnOk result ((done : List Piece) → Shows page.now self.old done → Shows page.now self.new (cond breaks (broken level blank done) (spaced done))) }
        ensures before { self.new.bytes.before ≡ self.old.bytes.before }
    {
        if breaks {
            self.break_line(page, level, blank)
        } else {
            self.space()
        }
    }

    /// Writes what a gap without notes does that need not break.
    pub fn join(&mut self, chance: Chance) -> Result<(), Memory>
        ensures shown { OnOk result ((page : Page) (done : List Piece) → Shows page self.old done → Shows page self.new (unbroken chance done)) }
        ensures before { self.new.bytes.before ≡ self.old.bytes.before }
    {
        match chance {
            Chance::Tight | Chance::Soft | Chance::Hard => Ok(()),
            Chance::Space | Chance::Line => self.space(),
        }
    }

    fn space(&mut self) -> Result<(), Memory>
        ensures shown { OnOk result ((page : Page) (done : List Piece) → Shows page self.old done → Shows page self.new (spaced done)) }
        ensures before { self.new.bytes.before ≡ self.old.bytes.before }
    {
        if self.begun {
            self.bytes.push(b' ')?;
            self.column = self.column.saturating_add(1);
        }
        Ok(())
    }

    /// Writes a break, with an empty line where `blank` is set.
    pub fn break_line(&mut self, page: &Page, level: u32, blank: bool) -> Result<(), Memory>
        requires { page.now.unit ≤ 16 }
        ensures shown { OnOk result ((done : List Piece) → Shows page.now self.old done → Shows page.now self.new (broken level blank done)) }
        ensures before { self.new.bytes.before ≡ self.old.bytes.before }
    {
        if self.begun {
            write_line_ends(blank, &mut self.bytes)?;
            write_indentation(page, level, &mut self.bytes)?;
            self.column = page.unit.saturating_mul(level);
        }
        Ok(())
    }
}

/// The columns behind a text that begins at `column`, or the greatest number where they are more.
fn column_behind(bytes: &[u8], column: u32) -> u32
    ensures { (c : ℕ) → column ≡ min c u32.MAX → result ≡ min (column_after bytes.now c) u32.MAX }
{
    let mut reached = column;
    for b in bytes {
        reached = column_behind_byte(*b, reached);
    }
    reached
}

fn column_behind_byte(b: u8, column: u32) -> u32
    ensures { result ≡ cond (is_line_end b) 0 (min (column + 1) u32.MAX) }
{
    if b == b'\n' || b == b'\r' {
        0
    } else {
        column.saturating_add(1)
    }
}

/// Appends a line end.
fn write_line_end(into: &mut Tail) -> Result<(), Memory>
    ensures behind { OnOk result ((page : Page) → into.new.behind ≡ into.old.behind ++ written_line_end page) }
    ensures before { into.new.before ≡ into.old.before }
{
    into.push(b'\n')?;
    Ok(())
}

/// Appends a line end, and a second one where `blank` is set.
fn write_line_ends(blank: bool, into: &mut Tail) -> Result<(), Memory>
    ensures behind { OnOk result ((page : Page) → into.new.behind ≡ (into.old.behind ++ written_line_end page) ++ cond blank (written_line_end page) []) }
    ensures before { into.new.before ≡ into.old.before }
{
    write_line_end(into)?;
    if blank {
        return write_line_end(into);
    }
    Ok(())
}

/// Appends the indentation of a level.
fn write_indentation(page: &Page, level: u32, into: &mut Tail) -> Result<(), Memory>
    requires { page.now.unit ≤ 16 }
    ensures behind { OnOk result (into.new.behind ≡ into.old.behind ++ written_indentation page.now level) }
    ensures before { into.new.before ≡ into.old.before }
{
    if page.tabs {
        write_repeated(b'\t', u64::from(level), into)
    } else {
        write_repeated(b' ', u64::from(page.unit) * u64::from(level), into)
    }
}

/// Appends a byte `count` times.
fn write_repeated(byte: u8, count: u64, into: &mut Tail) -> Result<(), Memory>
    ensures behind { OnOk result (into.new.behind ≡ into.old.behind ++ replicate count byte) }
    ensures before { into.new.before ≡ into.old.before }
{
    for _i in 0..count {
        into.push(byte)?;
    }
    Ok(())
}
