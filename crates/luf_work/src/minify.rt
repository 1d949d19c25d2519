// `minify`: the program of a source under its least names, with the fewest spaces.
ghost use Rattle.std.specs.Prelude.{◌≡◌, ◌≢◌, ◌<◌, ◌≤◌, ◌↔◌, ◌⊎◌, ◌++◌, ℕ, List, length, Ok, Err, IfErr, IfOk, OnOk, OnErr, IsErrOf};
ghost use Rattle.luf_lex.specs.Tokens.{toks_of};
ghost use Rattle.luf_scope.specs.Links.{spelling_in, occurrences_of, AreLinks};
ghost use Rattle.luf_goto.specs.Jumps.{AreJumps};
ghost use Rattle.luf_interf.specs.NewNames.{AreNames};
ghost use Rattle.luf_resolved.specs.Source.{IsSource};
ghost use Rattle.luf_min.specs.Minified.{IsMinified};
ghost use Rattle.luf_work.specs.Limits.{source_limit, text_limit};
ghost use Rattle.luf_work.specs.Minify.{IsMinifyAccepted, IsMinifyRefusal, KeepsProgram};
ghost use Rattle.luf_work.specs.inner.Read.{IsNamed};
ghost use Rattle.luf_work.specs.declared.refusal.Refusal.{Refusal as Cause};

use crate::room::make_room;
use crate::source::{NamedSource, ReadSource, named};
use crate::{Refusal, TEXT_LIMIT};
use luf_goto::Jumps;
use luf_interf::{Names, names_read};
use luf_lex::Cut;
use luf_memory::Memory;
use luf_min::minify;
use luf_scope::{Links, Occurrence};
use luf_tree::Chunk;
use std::alloc::Global;

/// Appends the minified text of a source. A source that `minify` accepts has `Ok` or `Memory`, and no other has `Ok`.
/// An error leaves `into` as it was. `one_text` says that a source has at most one text.
///
/// # Errors
///
/// Each but `Memory` comes exactly where its cause holds, if memory is found. `one_refusal` says that no two of these
/// causes hold of one source, and `accepted_not_refused` that none holds of a source that is accepted.
///
/// - `TooLarge`: the source has more than 4,194,304 bytes. Nothing else is looked at, and `Memory` is not answered.
/// - `Lexical`: the source has no cut. Its first fault is told, by place and kind.
/// - `TooDeep`: the first token is told that enters level 201, in some list that the grammar derives and that begins with
///   the tokens up to it.
/// - `Syntax`: no token enters level 201, and the first is told with which those up to it begin no list that the grammar
///   derives, or the end.
/// - `Scope`: a name or a jump is refused. The first such fault is told, by place and word.
/// - `ResultTooLarge`: the source is accepted by every job, and its minified text has more than 4,194,304 bytes.
/// - `Memory`: no memory was found. It alone has no cause in the source.
pub fn minify_bytes(alloc: Global, src: &[u8], into: &mut Vec<u8>) -> Result<(), Refusal>
    ensures accepted { OnOk result (IsMinifyAccepted src.now) }
    ensures ok { OnOk result ((text : List ℕ) × IsMinified src.now text × KeepsProgram src.now text × (length text ≤ text_limit) × (into.new.items ≡ into.old.items ++ text)) }
    ensures complete { IsMinifyAccepted src.now → (result ≡ Ok tt) ⊎ (result ≡ Err Refusal.Memory) }

    ensures refused { IfErr result (λ refusal. refusal ≢ Refusal.Memory → IsMinifyRefusal src.now refusal) }
    ensures exact { (refusal : Cause) → IsMinifyRefusal src.now refusal → (result ≡ Err refusal) ⊎ (result ≡ Err Refusal.Memory) }
    ensures too_large { IsErrOf result Refusal.TooLarge ↔ (source_limit < length src.now) }
    ensures err { OnErr result (into.new.items ≡ into.old.items) }
{
    if let Err(e) = make_room(src, into) {
        return Err(Refusal::from(e));
    }
    let source = named(alloc, src)?;
    let len = into.len();
    if let Err(e) = write_text(alloc, src, source, into) {
        return Err(Refusal::from(e));
    }
    if into.len() - len > TEXT_LIMIT {
        into.truncate(len);
        return Err(Refusal::ResultTooLarge);
    }
    Ok(())
}

/// Appends the text under least names. The tree is dropped last, as `ReadSource` says.
fn write_text(
    alloc: Global,
    src: &[u8],
    source: NamedSource,
    into: &mut Vec<u8>,
) -> Result<(), Memory>
    requires { IsNamed src.now source }
    ensures ok { OnOk result ((text : List ℕ) × IsMinified src.now text × (into.new.items ≡ into.old.items ++ text)) }
    ensures err { OnErr result (into.new.items ≡ into.old.items) }
{
    let NamedSource {
        source: ReadSource { chunk, pieces },
        links,
        jumps,
        occurrences,
    } = source;
    let names = new_names(alloc, src, &pieces, &chunk, links, jumps, occurrences)?;
    minify(alloc, src, &pieces, &chunk, &names, into)
}

/// The least names. What they are found by is not needed any more.
fn new_names(
    alloc: Global,
    src: &[u8],
    pieces: &Cut,
    chunk: &Chunk,
    links: Links,
    jumps: Jumps,
    occurrences: Vec<Occurrence>,
) -> Result<Names, Memory>
    requires source { IsSource src.now pieces.now chunk.now }
    requires read { occurrences.items ≡ occurrences_of chunk.now }
    requires links { AreLinks (spelling_in src.now pieces.now) (occurrences_of chunk.now) (length (toks_of pieces.now)) links }
    requires jumps { AreJumps (spelling_in src.now pieces.now) (occurrences_of chunk.now) jumps }
    ensures { IfOk result (λ n. AreNames (spelling_in src.now pieces.now) (occurrences_of chunk.now) n) }
{
    names_read(
        alloc,
        src,
        pieces,
        chunk,
        occurrences.as_slice(),
        &links,
        &jumps,
    )
}
