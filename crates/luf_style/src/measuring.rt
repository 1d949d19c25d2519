// What the groups of marks need of a line, measured from the end.
ghost use Rattle.std.specs.Prelude.{◌≡◌, ◌<◌, ◌+◌, [], drop, length, map, reverse, IfOk, OnOk};
ghost use Rattle.luf_draft.specs.Flat.{shown};
ghost use Rattle.luf_style.specs.inner.Measured.{Holds, IsMeasured, Measured, Stretch as Part_, capped, close_before, gap_before, measured, need, open_before, trail_before, word_before};
ghost use Rattle.luf_style.specs.inner.Tape.{gap_count, with_gaps};

use crate::gap_list::GapList;
use crate::lead::lead_before_gap;
use crate::word::text_of;
use crate::written::Written;
use luf_doc::{Gap, Size};
use luf_draft::{Mark, Part};
use luf_memory::Memory;
use std::alloc::Global;

/// The end of a part, and the lead of what follows the part, or the greatest number where it is more.
#[derive(Clone, Copy, Debug, PartialEq, Eq)]
struct Stretch {
    size: Size,
    behind: u32,
}

/// What has been measured.
#[derive(Drop)]
struct Measuring {
    /// Its lead.
    lead: u32,
    /// The innermost part that goes on before it.
    now: Stretch,
    /// Those around that one, the innermost last.
    outer: Vec<Stretch>,
    /// What the groups need that begin in it, the first one last.
    needs: Vec<u32>,
}

/// What each group of marks needs of a line, the first one last: its flat bytes and its lead, or more than any line has
/// where something forces. Time is linear in the marks and the bytes.
pub(crate) fn needs_of(
    alloc: Global,
    written: &Written,
    marks: &[Mark],
    gaps: &GapList,
) -> Result<Vec<u32>, Memory>
    requires { gap_count (map (shown written.now) marks.now) ≡ length gaps.now }
    ensures { IfOk result (λ needs. reverse needs.items ≡ (measured (with_gaps (map (shown written.now) marks.now) gaps.now)).needs) }
{
    let mut measuring = Measuring::new(alloc);
    let mut left = gaps.len();
    let mut n = marks.len();
    while n > 0 {
        n -= 1;
        left = measuring.mark_before(written, marks, n, gaps, left)?;
    }
    Ok(measuring.needs)
}

impl Stretch {
    /// What the group needs of a line that this is.
    fn need(self) -> u32
        ensures { (s : Part_) → self ≡ capped s → result ≡ need s }
    {
        if self.size.forced {
            return u32::MAX;
        }
        if self.size.ended {
            return self.size.flat;
        }
        self.size.flat.saturating_add(self.behind)
    }
}

impl Measuring {
    /// Nothing.
    fn new(alloc: Global) -> Measuring
        ensures { Holds (measured []) result }
    {
        Measuring {
            lead: 0,
            now: Stretch {
                size: Size::NONE,
                behind: 0,
            },
            outer: Vec::new(alloc),
            needs: Vec::new(alloc),
        }
    }

    /// Measures mark `n`, before those behind it, where so many gaps are left. Answers how many are left then.
    fn mark_before(
        &mut self,
        written: &Written,
        marks: &[Mark],
        n: usize,
        gaps: &GapList,
        left: usize,
    ) -> Result<usize, Memory>
        requires within { n < length marks.now }
        requires count { gap_count (map (shown written.now) marks.now) ≡ length gaps.now }
        requires measured { IsMeasured (drop (n + 1) (map (shown written.now) marks.now)) gaps.now left self.now }
        ensures { IfOk result (λ now_left. IsMeasured (drop n (map (shown written.now) marks.now)) gaps.now now_left self.new) }
    {
        let mark = marks[n];
        match mark {
            Mark::Token(_) | Mark::Word(_) | Mark::Sign(_) => {
                self.text_before(text_of(written, mark));
                Ok(left)
            }
            Mark::Gap(_) => {
                self.gap_before(gaps.get(left - 1));
                Ok(left - 1)
            }
            Mark::Trail => {
                self.trail_before();
                Ok(left)
            }
            Mark::Open(part) => {
                self.open_before(part)?;
                Ok(left)
            }
            Mark::Close => {
                self.close_before()?;
                Ok(left)
            }
        }
    }

    fn text_before(&mut self, bytes: &[u8])
        ensures { (m : Measured) → Holds m self.old → Holds (word_before bytes.now m) self.new }
    {
        let size = Size::of_text(bytes);
        self.lead = if size.ended {
            size.flat
        } else {
            size.flat.saturating_add(self.lead)
        };
        self.now.size = size.then(self.now.size);
    }

    fn gap_before(&mut self, gap: &Gap)
        ensures { (m : Measured) → Holds m self.old → Holds (gap_before gap.now m) self.new }
    {
        self.lead = lead_before_gap(gap, self.lead);
        self.now.size = Size::of_gap(gap).then(self.now.size);
    }

    fn trail_before(&mut self)
        ensures { (m : Measured) → Holds m self.old → Holds (trail_before m) self.new }
    {
        self.lead = self.lead.saturating_add(1);
    }

    /// The end of a part.
    fn close_before(&mut self) -> Result<(), Memory>
        ensures { OnOk result ((m : Measured) → Holds m self.old → Holds (close_before m) self.new) }
    {
        self.outer.push(self.now)?;
        self.now = Stretch {
            size: Size::NONE,
            behind: self.lead,
        };
        Ok(())
    }

    /// The start of a part; one that opens nothing is passed over.
    fn open_before(&mut self, part: Part) -> Result<(), Memory>
        ensures { OnOk result ((m : Measured) → Holds m self.old → Holds (open_before part m m.outer) self.new) }
    {
        let Some(outer) = self.outer.pop() else {
            return Ok(());
        };
        if matches!(part, Part::Group) {
            self.needs.push(self.now.need())?;
        }
        self.now = Stretch {
            size: self.now.size.then(outer.size),
            behind: outer.behind,
        };
        Ok(())
    }
}
