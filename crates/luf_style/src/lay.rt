// The layout of a document, from its table.
ghost use Rattle.std.specs.Prelude.{◌≡◌, ◌≤◌, ◌<◌, ◌+◌, ◌*◌, ◌++◌, ℕ, List, [], ◌∷◌, cond, length, slice_index_or, OnOk, OnErr};
ghost use Rattle.luf_doc.specs.Document.{document_of};
ghost use Rattle.luf_doc.specs.declared.page.Page.{Page};
ghost use Rattle.luf_doc.specs.Table.{node_count, all_count, inside, places};
ghost use Rattle.luf_doc.specs.Layout.{Piece, word, comma, is_broken, lay, lay_all, layout};
ghost use Rattle.luf_style.specs.inner.Ahead.{part};
ghost use Rattle.luf_style.specs.inner.Leads.{lead_at, IsLeads};
ghost use Rattle.luf_style.specs.inner.Modes.{mode_as};
ghost use Rattle.luf_style.specs.inner.Shows.{Shows};

use crate::gap::write_gap;
use crate::lead::leads_of;
use crate::mode::{Mode, is_broken, mode_inside};
use crate::sheet::Sheet;
use luf_doc::{DocTable, Ledger, Node, NodeKind, Page, Steps};
use luf_memory::Memory;
use std::alloc::Global;
use std::mem;

/// Appends the layout of the document of a table, in at most 6 reads of a row for each node. The only error is that no
/// memory was found; it leaves `into` as it was, and the steps stay counted. Time is linear in the nodes and the bytes of
/// the document and of the layout; the calls nest as deep as the document. It reads each row twice, and keeps four bytes
/// a row.
pub fn lay_table<L: Ledger>(
    alloc: Global,
    t: &DocTable,
    page: &Page,
    into: &mut Vec<u8>,
    steps: &mut Steps<L>,
) -> Result<(), Memory>
    requires width { page.now.width ≤ 10000 }
    requires unit { page.now.unit ≤ 16 }
    ensures ok { OnOk result (into.new.items ≡ into.old.items ++ layout page.now (document_of t.now)) }
    ensures err { OnErr result (into.new.items ≡ into.old.items) }
    ensures steps { steps.new ≤ steps.old + 6 * node_count (document_of t.now) }
{
    let leads = leads_of(alloc, t, steps)?;
    let walk = Walk {
        table: t,
        page,
        leads: leads.as_slice(),
    };
    let mut sheet = Sheet::new(mem::replace(into, Vec::new(alloc)));
    let outside = Setting {
        mode: Mode::Outside,
        level: 0,
    };
    match walk.lay(0, t.nodes(), outside, &mut sheet, steps) {
        Ok(()) => {
            *into = sheet.bytes.into_vec();
            Ok(())
        }
        Err(e) => {
            *into = sheet.bytes.undone();
            Err(e)
        }
    }
}

/// A table with the lead of each row, and the page.
#[derive(Drop)]
struct Walk<'a> {
    table: &'a DocTable,
    page: &'a Page,
    leads: &'a [u32],
}

/// The group and the level in which a node stands.
#[derive(Clone, Copy, Debug)]
pub(crate) struct Setting {
    pub mode: Mode,
    pub level: u32,
}

impl Walk<'_> {
    /// Writes the layout of the node of row `id`; `end` is the row behind all that is below it.
    #[cycle(lay)]
    fn lay<L: Ledger>(
        &self,
        id: u32,
        end: u32,
        at: Setting,
        sheet: &mut Sheet,
        steps: &mut Steps<L>,
    ) -> Result<(), Memory>
        requires width { self.now.page.now.width ≤ 10000 }
        requires unit { self.now.page.now.unit ≤ 16 }
        requires leads { IsLeads (document_of self.now.table.now) self.now.leads.now }
        requires within { id < node_count (document_of self.now.table.now) }
        requires end { end ≡ id + node_count (part (document_of self.now.table.now) id) }
        requires level { at.level ≤ id }
        ensures ok { OnOk result ((done : List Piece) → Shows self.now.page.now sheet.old done → Shows self.now.page.now sheet.new (lay self.now.page.now (mode_as at.mode) at.level (lead_at (document_of self.now.table.now) end) (part (document_of self.now.table.now) id) done)) }
        ensures before { sheet.new.bytes.before ≡ sheet.old.bytes.before }
        ensures steps { steps.new ≤ steps.old + node_count (part (document_of self.now.table.now) id) }
    {
        let node = self.table.node(id, steps);
        match &node.kind {
            NodeKind::Text(bytes) => sheet.put(bytes.as_slice()),
            NodeKind::Gap(gap) => write_gap(self.page, gap, at.mode, at.level, sheet),
            NodeKind::Trail => write_trail(at.mode, sheet),
            NodeKind::Nest => {
                let deeper = Setting {
                    mode: at.mode,
                    level: at.level + 1,
                };
                self.lay_inside(id, end, node, deeper, sheet, steps)
            }
            NodeKind::Group => {
                let lead = self.leads[end as usize];
                let inside = Setting {
                    mode: mode_inside(self.page, at.mode, node, sheet.column, lead),
                    level: at.level,
                };
                self.lay_inside(id, end, node, inside, sheet, steps)
            }
            NodeKind::Seq => self.lay_inside(id, end, node, at, sheet, steps),
        }
    }

    /// Writes the layouts of the nodes directly inside the node of row `id`.
    #[cycle(lay)]
    fn lay_inside<L: Ledger>(
        &self,
        id: u32,
        end: u32,
        node: &Node,
        at: Setting,
        sheet: &mut Sheet,
        steps: &mut Steps<L>,
    ) -> Result<(), Memory>
        requires width { self.now.page.now.width ≤ 10000 }
        requires unit { self.now.page.now.unit ≤ 16 }
        requires leads { IsLeads (document_of self.now.table.now) self.now.leads.now }
        requires within { id < node_count (document_of self.now.table.now) }
        requires end { end ≡ id + node_count (part (document_of self.now.table.now) id) }
        requires children { node.now.children ≡ places (id + 1) (inside (part (document_of self.now.table.now) id)) }
        requires level { at.level ≤ id + 1 }
        ensures ok { OnOk result ((done : List Piece) → Shows self.now.page.now sheet.old done → Shows self.now.page.now sheet.new (lay_all self.now.page.now (mode_as at.mode) at.level (lead_at (document_of self.now.table.now) end) (inside (part (document_of self.now.table.now) id)) done)) }
        ensures before { sheet.new.bytes.before ≡ sheet.old.bytes.before }
        ensures steps { steps.new ≤ steps.old + all_count (inside (part (document_of self.now.table.now) id)) }
    {
        let children = node.children.as_slice();
        for (n, child) in children.iter().enumerate() {
            let child_end = end_of_child(children, n, end);
            self.lay(*child, child_end, at, sheet, steps)?;
        }
        Ok(())
    }
}

/// Writes a `,` in a broken group.
pub(crate) fn write_trail(mode: Mode, sheet: &mut Sheet) -> Result<(), Memory>
    ensures shown { OnOk result ((page : Page) (done : List Piece) → Shows page sheet.old done → Shows page sheet.new (cond (is_broken (mode_as mode)) (word comma ∷ done) done)) }
    ensures before { sheet.new.bytes.before ≡ sheet.old.bytes.before }
{
    if is_broken(mode) {
        sheet.put(b",")
    } else {
        Ok(())
    }
}

/// The row behind all that is below child `n`, where `end` is that of its parent.
fn end_of_child(children: &[u32], n: usize, end: u32) -> u32
    requires { n < length children.now }
    ensures { result ≡ slice_index_or children.now (n + 1) end }
{
    children.get(n + 1).copied().unwrap_or(end)
}
