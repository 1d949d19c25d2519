// The gaps of marks, with the comments of a source.
ghost use Rattle.std.specs.Prelude.{◌≡◌, map, [], IfOk, OnOk};
ghost use Rattle.luf_draft.specs.Flat.{shown};
ghost use Rattle.luf_draft.specs.declared.mark.Mark.TheVariants as variants;
ghost use Rattle.luf_style.specs.inner.Openings.{AddsGaps};
ghost use Rattle.luf_style.specs.inner.Tape.{AreGaps};
ghost use Rattle.luf_style.specs.inner.Written.{AreTexts};

use crate::filling::{behind, filled_gap};
use crate::gap_list::GapList;
use crate::written::Written;
use luf_draft::Mark;
use luf_gaps::GapReader;
use luf_memory::Memory;
use std::alloc::Global;

/// The gaps so far.
#[derive(Drop)]
struct Openings<'a> {
    /// The notes of those that are left.
    left: GapReader<'a>,
    /// The mark of the last text, or one without a text where there is none.
    last: Mark,
    gaps: GapList,
}

/// The gaps of marks, in order, with these notes. Time is linear in the marks and the bytes.
pub(crate) fn filled_gaps(
    alloc: Global,
    written: &Written,
    marks: &[Mark],
    notes: GapReader,
) -> Result<GapList, Memory>
    requires { AreTexts written.now }
    ensures { IfOk result (λ gaps. AreGaps [] (map (shown written.now) marks.now) notes.entry gaps) }
{
    let mut openings = Openings::new(alloc, notes)?;
    for (n, mark) in marks.iter().enumerate() {
        openings.step(alloc, written, *mark, behind(marks, n))?;
    }
    Ok(openings.gaps)
}

impl<'a> Openings<'a> {
    /// Nothing so far.
    fn new(alloc: Global, notes: GapReader<'a>) -> Result<Openings<'a>, Memory>
        ensures { IfOk result (λ o. (o.left ≡ notes.entry) × (o.last ≡ variants.Trail) × (o.gaps ≡ [])) }
    {
        let gaps = GapList::new(alloc, notes.at_most())?;
        Ok(Openings {
            left: notes,
            last: Mark::Trail,
            gaps,
        })
    }

    /// One mark more, before the marks `rest`.
    fn step(
        &mut self,
        alloc: Global,
        written: &Written,
        mark: Mark,
        rest: &[Mark],
    ) -> Result<(), Memory>
        requires { AreTexts written.now }
        ensures { OnOk result (AddsGaps written.now mark (map (shown written.now) rest.now) self.old self.new) }
    {
        match mark {
            Mark::Token(_) | Mark::Word(_) | Mark::Sign(_) => {
                self.last = mark;
                Ok(())
            }
            Mark::Gap(kind) => {
                let notes = self.left.next_gap(alloc)?;
                let gap = filled_gap(alloc, written, self.last, kind, notes, rest)?;
                self.gaps.push(gap)?;
                Ok(())
            }
            Mark::Trail | Mark::Open(_) | Mark::Close => Ok(()),
        }
    }
}
