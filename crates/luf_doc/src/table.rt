// A document as one flat table.
ghost use Rattle.std.specs.Prelude.{◌≡◌, ℕ, ◌+◌, ◌≤◌, ◌<◌, ◌^◌, [], ◌∷◌, ◌++◌, length, reverse, take, slice_get, slice_set, vec_len, IfOk, OnOk, OnErr, MatchOption};
ghost use Rattle.luf_doc.specs.Document.{document_of};
ghost use Rattle.luf_doc.specs.Table.{node_count, inside, kind_of, rows_of, rows_from};
ghost use Rattle.luf_doc.specs.inner.Above.{above};
ghost use Rattle.luf_doc.specs.Sizes.{size_of};

use crate::size::Size;
use crate::{Doc, Gap, Memory, Steps};
use luf_text::Bytes;
use sqlite_items::Items;
use std::alloc::Global;
use std::marker::Model;
use std::sync::ledger::Ledger;

/// A row: one node of a document.
#[derive(Debug, Drop)]
pub struct Node {
    pub kind: NodeKind,
    /// The rows of the nodes directly inside, in order.
    pub children: Items<u32>,
    /// The bytes of the node on one line, up to the first line end inside, or `u32::MAX` where they are more.
    pub flat: u32,
    /// Whether a line end stands in a text or a note inside.
    pub ended: bool,
    /// Whether a Hard gap or a forcing note is inside.
    pub forced: bool,
}

/// What a node is, as `Doc` has it.
#[derive(Debug, Drop)]
pub enum NodeKind {
    Text(Bytes),
    Gap(Gap),
    Trail,
    Nest,
    Group,
    Seq,
}

/// A document as a list of rows: a node before its children, and the children in order, each with all below it. So the
/// document itself is row 0. Contracts see the document.
#[derive(Debug, Drop)]
pub struct DocTable {
    rows: Vec<Node>,
}

impl Model for DocTable {
    ghost use Rattle.luf_doc.specs.declared.doc.Doc.{Doc};
    ghost use Rattle.luf_doc.specs.contracts.doc.Doc as doc_type;
    ghost use Rattle.std.specs.Coded.{codes};

    ghost Value = { Doc };

    ghost coded = { Prim.hlevel (codes, doc_type.the_row.coded) };

    ghost use Rattle.luf_doc.specs.inner.Read.{document_in, IsTable};

    ghost view = { λ t. document_in t.rows.items };

    ghost invariant = { λ t. IsTable t.rows.items };
}

impl DocTable {
    /// The table of a document of fewer than 2^32 nodes. The only error is that no memory was found. Time and memory
    /// are linear in the nodes and the bytes; the calls nest as deep as the document.
    pub fn of(alloc: Global, d: Doc) -> Result<DocTable, Memory>
        requires { node_count (document_of d) < 2 ^ 32 }
        ensures { IfOk result (λ t. t ≡ d) }
    {
        let mut rows = Vec::new(alloc);
        let mut left = Vec::new(alloc);
        add(alloc, d, &mut rows, &mut left)?;
        Ok(DocTable { rows })
    }

    /// How many rows there are, one for each node. Their numbers go from 0.
    pub fn nodes(&self) -> u32
        ensures { result ≡ node_count (document_of self.now) }
    {
        self.rows.len() as u32
    }

    /// A row, in one step.
    pub fn node<L: Ledger>(&self, id: u32, steps: &mut Steps<L>) -> &Node
        requires { id < node_count (document_of self.now) }
        ensures row { slice_get (rows_of (document_of self.now)) id ≡ Some result.now }
        ensures step { steps.new ≡ steps.old + 1 }
    {
        steps.tick();
        &self.rows[id as usize]
    }
}

/// Appends the rows of a document, and tells its size. What is still to be added of the documents around it is `left`.
fn add(alloc: Global, doc: Doc, rows: &mut Vec<Node>, left: &mut Vec<Doc>) -> Result<Size, Memory>
    requires { vec_len rows.old + node_count (document_of doc) < 2 ^ 32 }
    ensures size { IfOk result (λ size. size ≡ size_of (document_of doc)) }
    ensures rows { OnOk result (rows.new.items ≡ rows.old.items ++ rows_from (vec_len rows.old) (document_of doc)) }
    ensures left { OnOk result (left.new.items ≡ left.old.items) }
{
    let at = rows.len();
    let around = left.len();
    let mut size = Size::of_own(&doc);
    let kind = opened(doc, left)?;
    rows.push(Node {
        kind,
        children: Items::new(alloc),
        flat: 0,
        ended: false,
        forced: false,
    })?;
    let mut children = Vec::with_capacity(alloc, left.len() - around)?;
    while let Some(child) = next_above(left, around) {
        children.push(rows.len() as u32)?;
        let more = add(alloc, child, rows, left)?;
        size = size.then(more);
    }
    let row = &mut rows[at];
    row.children = Items::from_vec(children);
    row.flat = size.flat;
    row.ended = size.ended;
    row.forced = size.forced;
    Ok(size)
}

/// What a document is. The documents directly inside it are put on `left`, the last one first.
fn opened(doc: Doc, left: &mut Vec<Doc>) -> Result<NodeKind, Memory>
    ensures kind { IfOk result (λ kind. kind ≡ kind_of (document_of doc)) }
    ensures around { OnOk result (take (vec_len left.old) left.new.items ≡ left.old.items) }
    ensures inside { OnOk result (above (vec_len left.old) left.new.items ≡ inside (document_of doc)) }
{
    match doc {
        Doc::Text(bytes) => Ok(NodeKind::Text(bytes)),
        Doc::Gap(gap) => Ok(NodeKind::Gap(gap)),
        Doc::Trail => Ok(NodeKind::Trail),
        Doc::Nest(inner) => {
            left.push(inner.into_inner())?;
            Ok(NodeKind::Nest)
        }
        Doc::Group(inner) => {
            left.push(inner.into_inner())?;
            Ok(NodeKind::Group)
        }
        Doc::Seq(items) => {
            push_reversed(items, left)?;
            Ok(NodeKind::Seq)
        }
    }
}

/// Puts the items on `left`, the last one first.
fn push_reversed(items: Items<Doc>, left: &mut Vec<Doc>) -> Result<(), Memory>
    ensures { OnOk result (left.new.items ≡ left.old.items ++ reverse items) }
{
    let mut items = items;
    while let Some(item) = items.pop() {
        left.push(item)?;
    }
    Ok(())
}

/// Takes the last of `left`, where there are more than `around`.
fn next_above(left: &mut Vec<Doc>, around: usize) -> Option<Doc>
    ensures { MatchOption result ((length left.old.items ≤ around) × (left.new.items ≡ left.old.items)) (λ next. (around < length left.old.items) × (left.old.items ≡ left.new.items ++ next ∷ [])) }
{
    if left.len() <= around {
        return None;
    }
    left.pop()
}
