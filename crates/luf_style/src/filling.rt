// The document of a draft: its marks in order, with the comments of their gaps.
ghost use Rattle.std.specs.Prelude.{◌≡◌, ℕ, ◌+◌, ◌<◌, true, List, [], map, reverse, length, drop, IfOk, OnOk};
ghost use Rattle.luf_doc.specs.Document.{document_of};
ghost use Rattle.luf_draft.specs.Draft.{Draft};
ghost use Rattle.luf_draft.specs.declared.mark.Mark.TheVariants as variants;
ghost use Rattle.luf_draft.specs.Flat.{Flat, flat, gap_of_kind, shown};
ghost use Rattle.luf_draft.specs.Openings.{openings};
ghost use Rattle.luf_gaps.specs.Gaps.{next_gap};
ghost use Rattle.luf_style.specs.Filled.{IsFilled, IsGap};
ghost use Rattle.luf_style.specs.inner.Running.{Steps, closed, first_flat, has_text, last_of, text_of};
ghost use Rattle.luf_style.specs.inner.Written.{AreTexts};

use crate::blanks::bordered;
use crate::chance::{chance_between, is_deeper};
use crate::word::text_of;
use crate::written::Written;
use luf_doc::{Doc, Gap};
use luf_draft::{GapKind, Mark, Part};
use luf_gaps::GapNotes;
use luf_memory::Memory;
use luf_text::Bytes;
use sqlite_items::{Boxed, Items};
use std::alloc::Global;
use std::mem;

/// A part of a document that is still open.
#[derive(Drop)]
struct Frame {
    part: Part,
    /// The documents before it in the part around it.
    before: Vec<Doc>,
}

/// What stands so far of a document.
#[derive(Drop)]
struct Filling {
    /// The gaps that are left, the next one last.
    gaps: Vec<GapNotes>,
    /// The mark of the last text, or one without a text where there is none.
    last: Mark,
    /// The parts that are open, the innermost last.
    frames: Vec<Frame>,
    /// The documents of the innermost.
    docs: Vec<Doc>,
    /// Lists of parts that are closed, whose room is used again.
    spare: Vec<Vec<Doc>>,
}

/// The document of marks with these gaps, where the tokens are written so: what fills the draft of which these are the
/// marks. Time is linear in the marks and the bytes, as between a tight gap of a draft and its next text parts only begin.
pub(crate) fn fill(
    alloc: Global,
    written: &Written,
    marks: &[Mark],
    gaps: Vec<GapNotes>,
) -> Result<Doc, Memory>
    requires { AreTexts written.now }
    ensures { IfOk result (λ d. (draft : Draft) → map (shown written.now) marks.now ≡ flat draft → length gaps.items ≡ openings draft → IsFilled [] [] draft gaps.items [] (document_of d)) }
{
    let mut filling = Filling::new(alloc, gaps);
    for (n, mark) in marks.iter().enumerate() {
        filling.step(alloc, written, *mark, behind(marks, n))?;
    }
    Ok(last_of(&mut filling.docs))
}

/// The marks behind mark `n`.
pub(crate) fn behind(marks: &[Mark], n: usize) -> &[Mark]
    requires { n < length marks.now }
    ensures { result.now ≡ drop (n + 1) marks.now }
{
    &marks[n + 1..]
}

/// The last of documents that are one; a `,` where there is none.
fn last_of(docs: &mut Vec<Doc>) -> Doc
    ensures { document_of result ≡ last_of (map document_of docs.old.items) }
{
    match docs.pop() {
        Some(doc) => doc,
        None => Doc::Trail,
    }
}

/// A part with these documents inside.
fn closed(alloc: Global, part: Part, docs: &mut Vec<Doc>) -> Result<Doc, Memory>
    ensures { IfOk result (λ d. document_of d ≡ closed part (map document_of docs.old.items)) }
{
    match part {
        Part::Nest => Ok(Doc::Nest(Boxed::new(alloc, last_of(docs))?)),
        Part::Group => Ok(Doc::Group(Boxed::new(alloc, last_of(docs))?)),
        Part::Sequence => Ok(Doc::Seq(exact(alloc, docs)?)),
    }
}

/// Documents in just the room that they take.
fn exact(alloc: Global, docs: &mut Vec<Doc>) -> Result<Items<Doc>, Memory>
    ensures { IfOk result (λ made. made ≡ docs.old.items) }
{
    let mut made = Vec::with_capacity(alloc, docs.len())?;
    made.append(docs)?;
    Ok(Items::from_vec(made))
}

/// An empty list, in the room of a spare one if there is one.
fn emptied(alloc: Global, spare: Option<Vec<Doc>>) -> Vec<Doc>
    ensures { result.items ≡ [] }
{
    match spare {
        Some(mut docs) => {
            docs.clear();
            docs
        }
        None => Vec::new(alloc),
    }
}

impl Filling {
    /// Nothing so far.
    fn new(alloc: Global, gaps: Vec<GapNotes>) -> Filling
        ensures gaps { reverse result.gaps.items ≡ gaps.items }
        ensures last { result.last ≡ variants.Trail }
        ensures frames { result.frames.items ≡ [] }
        ensures docs { result.docs.items ≡ [] }
    {
        let mut gaps = gaps;
        gaps.reverse();
        Filling {
            gaps,
            last: Mark::Trail,
            frames: Vec::new(alloc),
            docs: Vec::new(alloc),
            spare: Vec::new(alloc),
        }
    }

    /// One mark more, before the marks `rest`.
    fn step(
        &mut self,
        alloc: Global,
        written: &Written,
        mark: Mark,
        rest: &[Mark],
    ) -> Result<(), Memory>
        requires { AreTexts written.now }
        ensures { OnOk result (Steps written.now mark (map (shown written.now) rest.now) self.old self.new) }
    {
        match mark {
            Mark::Token(_) | Mark::Word(_) | Mark::Sign(_) => self.add_text(alloc, written, mark),
            Mark::Gap(kind) => self.add_gap(alloc, written, kind, rest),
            Mark::Trail => self.add_trail(),
            Mark::Open(part) => self.open(alloc, part),
            Mark::Close => self.close(alloc),
        }
    }

    /// Adds a text, and keeps its mark.
    fn add_text(&mut self, alloc: Global, written: &Written, mark: Mark) -> Result<(), Memory>
        requires { has_text mark ≡ true }
        ensures { OnOk result ((rest : List Flat) → Steps written.now mark rest self.old self.new) }
    {
        let text = Bytes::copy(alloc, text_of(written, mark))?;
        self.docs.push(Doc::Text(text))?;
        self.last = mark;
        Ok(())
    }

    /// Adds a gap with the notes that stand in it.
    fn add_gap(
        &mut self,
        alloc: Global,
        written: &Written,
        kind: GapKind,
        rest: &[Mark],
    ) -> Result<(), Memory>
        requires { AreTexts written.now }
        ensures { OnOk result (Steps written.now (variants.Gap kind) (map (shown written.now) rest.now) self.old self.new) }
    {
        let notes = self.next_gap(alloc);
        let gap = filled_gap(alloc, written, self.last, kind, notes, rest)?;
        self.docs.push(Doc::Gap(gap))?;
        Ok(())
    }

    /// Takes the next gap; one without notes where none is left.
    fn next_gap(&mut self, alloc: Global) -> GapNotes
        ensures gap { result ≡ next_gap (reverse self.old.gaps.items) }
        ensures left { reverse self.new.gaps.items ≡ drop 1 (reverse self.old.gaps.items) }
        ensures last { self.new.last ≡ self.old.last }
        ensures frames { self.new.frames.items ≡ self.old.frames.items }
        ensures docs { self.new.docs.items ≡ self.old.docs.items }
    {
        match self.gaps.pop() {
            Some(gap) => gap,
            None => GapNotes {
                notes: Items::new(alloc),
                blank: false,
            },
        }
    }

    /// Adds a `,` of a broken group.
    fn add_trail(&mut self) -> Result<(), Memory>
        ensures { OnOk result ((written : List (List ℕ)) (rest : List Flat) → Steps written variants.Trail rest self.old self.new) }
    {
        self.docs.push(Doc::Trail)?;
        Ok(())
    }

    /// Opens a part, with nothing inside.
    fn open(&mut self, alloc: Global, part: Part) -> Result<(), Memory>
        ensures { OnOk result ((written : List (List ℕ)) (rest : List Flat) → Steps written (variants.Open part) rest self.old self.new) }
    {
        let room = emptied(alloc, self.spare.pop());
        let before = mem::replace(&mut self.docs, room);
        self.frames.push(Frame { part, before })?;
        Ok(())
    }

    /// Closes the innermost part; a mark that closes nothing is passed over.
    fn close(&mut self, alloc: Global) -> Result<(), Memory>
        ensures { OnOk result ((written : List (List ℕ)) (rest : List Flat) → Steps written variants.Close rest self.old self.new) }
    {
        match self.frames.pop() {
            Some(frame) => {
                let mut inside = mem::replace(&mut self.docs, frame.before);
                self.docs.push(closed(alloc, frame.part, &mut inside)?)?;
                self.spare.push(inside)?;
                Ok(())
            }
            None => Ok(()),
        }
    }
}

/// A gap of this kind with its notes.
pub(crate) fn filled_gap(
    alloc: Global,
    written: &Written,
    last: Mark,
    kind: GapKind,
    gap: GapNotes,
    rest: &[Mark],
) -> Result<Gap, Memory>
    requires { AreTexts written.now }
    ensures { IfOk result (λ filled. IsGap (text_of (shown written.now last)) (first_flat (map (shown written.now) rest.now)) (gap_of_kind kind) gap filled) }
{
    let chance = chance_between(written, last, kind, gap.notes.as_slice(), rest);
    let told = bordered(alloc, kind, gap)?;
    Ok(Gap {
        chance,
        notes: told.notes,
        blank: told.blank,
        deeper: is_deeper(kind),
    })
}
