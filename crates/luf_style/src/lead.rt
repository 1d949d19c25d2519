// The lead of each row.
ghost use Rattle.std.specs.Prelude.{◌≡◌, ◌≤◌, ◌+◌, ℕ, min, vec_len, IfOk};
ghost use Rattle.luf_doc.specs.Document.{Document, document_of};
ghost use Rattle.luf_doc.specs.Flat.{lead_gap};
ghost use Rattle.luf_doc.specs.Table.{node_count, row_of};
ghost use Rattle.luf_style.specs.inner.Leads.{own_lead, IsLeads};

use luf_doc::{Chance, DocTable, Gap, Ledger, Node, NodeKind, Steps};
use luf_memory::Memory;
use std::alloc::Global;

/// For each row of a table, and for its end, the bytes from there on up to the next place that may break, or the greatest
/// number where they are more. Each row is read once, the last one first.
pub(crate) fn leads_of<L: Ledger>(
    alloc: Global,
    table: &DocTable,
    steps: &mut Steps<L>,
) -> Result<Vec<u32>, Memory>
    ensures leads { IfOk result (λ leads. IsLeads (document_of table.now) leads.items) }
    ensures steps { steps.new ≤ steps.old + node_count (document_of table.now) }
{
    let nodes = table.nodes() as usize;
    let mut leads = vec![in alloc; 0u32; nodes + 1]?;
    let mut id = nodes;
    while id > 0 {
        id -= 1;
        let node = table.node(id as u32, steps);
        leads[id] = lead_before(node, leads[id + 1]);
    }
    Ok(leads)
}

/// The lead before a row, by the lead behind it.
fn lead_before(node: &Node, behind: u32) -> u32
    ensures { (id : ℕ) (d : Document) (n : ℕ) → node.now ≡ row_of id d → behind ≡ min n u32.MAX → result ≡ min (own_lead d n) u32.MAX }
{
    match &node.kind {
        NodeKind::Text(_) => {
            if node.ended {
                node.flat
            } else {
                node.flat.saturating_add(behind)
            }
        }
        NodeKind::Gap(gap) => lead_before_gap(gap, behind),
        NodeKind::Trail => behind.saturating_add(1),
        NodeKind::Nest | NodeKind::Group | NodeKind::Seq => behind,
    }
}

/// The lead before a gap, by the lead behind it.
pub(crate) fn lead_before_gap(gap: &Gap, behind: u32) -> u32
    ensures { (n : ℕ) → behind ≡ min n u32.MAX → result ≡ min (lead_gap gap.now.chance gap.now.notes n) u32.MAX }
{
    if !gap.notes.is_empty() {
        return 0;
    }
    match gap.chance {
        Chance::Tight => behind,
        Chance::Space => behind.saturating_add(1),
        Chance::Soft | Chance::Line | Chance::Hard => 0,
    }
}
