// The minified text of a source under new names.
ghost use Rattle.std.specs.Prelude.{◌≡◌, ◌++◌, ℕ, List, length, take, OnOk, OnErr};
ghost use Rattle.luf_lex.specs.Cut.{IsCut};
ghost use Rattle.luf_lex.specs.Tokens.{toks_of};
ghost use Rattle.luf_tree.specs.Grammar.{IsChunk};
ghost use Rattle.luf_scope.specs.Links.{spelling_in};
ghost use Rattle.luf_min.specs.Minified.{IsMinifiedSo, spelled_under};

use crate::text::{write_hash_line, write_items};
use crate::walk::items;
use luf_interf::Names;
use luf_lex::Cut;
use luf_memory::Memory;
use luf_tree::Chunk;
use std::alloc::Global;

/// Appends the minified text of a source under these new names. An error leaves `into` as it was.
pub fn minify(
    alloc: Global,
    src: &[u8],
    cut: &Cut,
    c: &Chunk,
    n: &Names,
    into: &mut Vec<u8>,
) -> Result<(), Memory>
    requires cut { IsCut src.now cut.now }
    requires tree { IsChunk (toks_of cut.now) c.now }
    ensures ok { OnOk result ((text : List ℕ) × IsMinifiedSo src.now cut.now c.now (spelled_under n.now (spelling_in src.now cut.now)) text × (into.new.items ≡ into.old.items ++ text)) }
    ensures err { OnErr result (into.new.items ≡ into.old.items) }
{
    let len = into.len();
    if let Err(e) = write_text(alloc, src, cut, c, n, into) {
        into.truncate(len);
        return Err(e);
    }
    Ok(())
}

/// The same, but an error leaves `into` with something behind what was there.
fn write_text(
    alloc: Global,
    src: &[u8],
    cut: &Cut,
    c: &Chunk,
    n: &Names,
    into: &mut Vec<u8>,
) -> Result<(), Memory>
    requires cut { IsCut src.now cut.now }
    requires tree { IsChunk (toks_of cut.now) c.now }
    ensures ok { OnOk result ((text : List ℕ) × IsMinifiedSo src.now cut.now c.now (spelled_under n.now (spelling_in src.now cut.now)) text × (into.new.items ≡ into.old.items ++ text)) }
    ensures err { OnErr result (take (length into.old.items) into.new.items ≡ into.old.items) }
{
    let found = items(alloc, cut, c)?;
    if let Err(e) = write_hash_line(src, into) {
        return Err(e);
    }
    write_items(src, cut, n, found.as_slice(), into)
}
