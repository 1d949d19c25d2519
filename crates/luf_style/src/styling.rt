// The document of a source.
ghost use Rattle.std.specs.Prelude.{◌<◌, ◌^◌, IfOk};
ghost use Rattle.luf_lex.specs.Cut.{IsCut};
ghost use Rattle.luf_lex.specs.Tokens.{toks_of};
ghost use Rattle.luf_tree.specs.Grammar.{IsChunk};
ghost use Rattle.luf_doc.specs.Document.{document_of};
ghost use Rattle.luf_doc.specs.Table.{node_count};
ghost use Rattle.luf_style.specs.Styled.{IsStyled, choices_of};

use crate::filling::fill;
use crate::writing::write_tokens;
use luf_conf::Options;
use luf_doc::Doc;
use luf_draft::marks;
use luf_gaps::gaps;
use luf_lex::Cut;
use luf_memory::Memory;
use luf_tree::Chunk;
use std::alloc::Global;

/// The most marks of a document: its nodes are numbered by 32 bits.
pub(crate) const MOST_MARKS: usize = 4294967295;

/// The document of a source, as the options want it, of fewer than 2^32 nodes. Linear in the source.
///
/// # Errors
///
/// No memory was found: also where the document would have 2^32 marks or more, of which no memory can hold the table, or the
/// strings in it that are not written as they are spelled 2^32 bytes or more.
pub fn style(alloc: Global, src: &[u8], cut: &Cut, c: &Chunk, o: &Options) -> Result<Doc, Memory>
    requires cut { IsCut src.now cut.now }
    requires tree { IsChunk (toks_of cut.now) c.now }
    ensures ok { IfOk result (λ d. IsStyled (choices_of o.now) src.now cut.now c.now (document_of d)) }
    ensures small { IfOk result (λ d. node_count (document_of d) < 2 ^ 32) }
{
    let written = write_tokens(alloc, src, cut, o.quotes)?;
    let found = marks(alloc, cut, c, o.calls)?;
    if found.len() > MOST_MARKS {
        return Err(Memory);
    }
    let left = gaps(alloc, src, cut, c)?;
    fill(alloc, &written, found.as_slice(), left)
}
