// What every job begins with: a source that is accepted, or why it is not.
ghost use Rattle.std.specs.Prelude.{◌≡◌, ◌≢◌, ◌<◌, ◌≤◌, ◌↔◌, Some, None, length, IfOk, IfErr, IsErrOf};
ghost use Rattle.luf_text.specs.Place.{place_in};
ghost use Rattle.luf_lex.specs.Cut.{IsCut};
ghost use Rattle.luf_lex.specs.Tokens.{toks_of};
ghost use Rattle.luf_scope.specs.Fault.{first_fault, first_of, jump_faults, name_faults};
ghost use Rattle.luf_scope.specs.Links.{spelling_in, occurrences_of, AreLinks};
ghost use Rattle.luf_scope.specs.Outline.{outline_of};
ghost use Rattle.luf_goto.specs.Jumps.{AreJumps};
ghost use Rattle.luf_work.specs.Limits.{source_limit};
ghost use Rattle.luf_work.specs.Refusals.{start_of, IsSourceRefusal};
ghost use Rattle.luf_resolved.specs.Source.{IsSource, scope_fault_of};
ghost use Rattle.luf_work.specs.inner.Read.{IsRead, IsNamed, AreFoundNames, AreFoundJumps};

use crate::{Refusal, SOURCE_LIMIT};
use luf_goto::{Jumps, labels_read};
use luf_lex::{Cut, LexErr, cut};
use luf_memory::Memory;
use luf_parse::{ParseErr, parse};
use luf_scope::{
    Links, Occurrence, ScopeBad, ScopeErr, check_names, first_of, occurrences, outline,
    resolve_read,
};
use luf_text::{Place, place_of};
use luf_tree::Chunk;
use std::alloc::Global;

/// A source with its pieces and its tree. The tree is dropped last: an allocator that joins what is free when something
/// large is freed, as glibc's, need not do so for the many small parts of it.
#[derive(Drop)]
pub(crate) struct ReadSource {
    pub pieces: Cut,
    pub chunk: Chunk,
}

/// A source that every job accepts, with what its names and labels are, and what its chunk says of them.
#[derive(Drop)]
pub(crate) struct NamedSource {
    pub links: Links,
    pub jumps: Jumps,
    pub occurrences: Vec<Occurrence>,
    pub source: ReadSource,
}

/// A source that every job accepts, or the first cause for which it is refused.
pub(crate) fn accepted(alloc: Global, src: &[u8]) -> Result<ReadSource, Refusal>
    ensures within { IfOk result (λ _. length src.now ≤ source_limit) }
    ensures ok { IfOk result (λ a. IsRead src.now a) }
    ensures refused { IfErr result (λ refusal. refusal ≢ Refusal.Memory → IsSourceRefusal src.now refusal) }
    ensures too_large { IsErrOf result Refusal.TooLarge ↔ (source_limit < length src.now) }
{
    let source = parsed(alloc, src)?;
    check_scopes(alloc, src, &source.pieces, &source.chunk)?;
    Ok(source)
}

/// The same, with what its names and labels are.
pub(crate) fn named(alloc: Global, src: &[u8]) -> Result<NamedSource, Refusal>
    ensures within { IfOk result (λ _. length src.now ≤ source_limit) }
    ensures ok { IfOk result (λ a. IsNamed src.now a) }
    ensures refused { IfErr result (λ refusal. refusal ≢ Refusal.Memory → IsSourceRefusal src.now refusal) }
    ensures too_large { IsErrOf result Refusal.TooLarge ↔ (source_limit < length src.now) }
{
    let source = parsed(alloc, src)?;
    let meanings = meanings_of(alloc, src, &source.pieces, &source.chunk)?;
    Ok(NamedSource {
        links: meanings.links,
        jumps: meanings.jumps,
        occurrences: meanings.occurrences,
        source,
    })
}

/// Drops a source: its pieces, and then its statements from the last to the first. Where nothing else is held above the
/// tree, glibc's allocator so joins the blocks of a few statements at a time, and not those of all in the end.
pub(crate) fn discard(source: ReadSource) {
    let ReadSource { pieces, chunk } = source;
    drop(pieces);
    let mut stats = chunk.block.stats;
    while let Some(stat) = stats.pop() {
        drop(stat);
    }
}

/// A source that has a tree, or the first cause for which it is refused before names are looked at.
fn parsed(alloc: Global, src: &[u8]) -> Result<ReadSource, Refusal>
    ensures within { IfOk result (λ _. length src.now ≤ source_limit) }
    ensures ok { IfOk result (λ a. IsSource src.now a.pieces a.chunk) }
    ensures refused { IfErr result (λ refusal. refusal ≢ Refusal.Memory → IsSourceRefusal src.now refusal) }
    ensures too_large { IsErrOf result Refusal.TooLarge ↔ (source_limit < length src.now) }
{
    if src.len() > SOURCE_LIMIT {
        return Err(Refusal::TooLarge);
    }
    let pieces = pieces_of(alloc, src)?;
    let chunk = tree_of(alloc, src, &pieces)?;
    Ok(ReadSource { pieces, chunk })
}

/// The pieces of a source, or the place of its lexical fault.
fn pieces_of(alloc: Global, src: &[u8]) -> Result<Cut, Refusal>
    requires { length src.now ≤ source_limit }
    ensures ok { IfOk result (λ pieces. IsCut src.now pieces) }
    ensures refused { IfErr result (λ refusal. refusal ≢ Refusal.Memory → IsSourceRefusal src.now refusal) }
    ensures within { ¬ IsErrOf result Refusal.TooLarge }
{
    match cut(alloc, src) {
        Ok(pieces) => Ok(pieces),
        Err(LexErr::Bad { at, what }) => Err(Refusal::Lexical(place_of(src, at), what)),
        Err(LexErr::Memory) => Err(Refusal::Memory),
    }
}

/// The tree of a source's tokens, or the place of the token that the exact cause names why there is none.
fn tree_of(alloc: Global, src: &[u8], pieces: &Cut) -> Result<Chunk, Refusal>
    requires within { length src.now ≤ source_limit }
    requires cut { IsCut src.now pieces.now }
    ensures ok { IfOk result (λ chunk. IsSource src.now pieces.now chunk) }
    ensures refused { IfErr result (λ refusal. refusal ≢ Refusal.Memory → IsSourceRefusal src.now refusal) }
    ensures within { ¬ IsErrOf result Refusal.TooLarge }
{
    match parse(alloc, pieces) {
        Ok(chunk) => Ok(chunk),
        Err(ParseErr::Syntax { token }) => Err(Refusal::Syntax(place_of_token(src, pieces, token))),
        Err(ParseErr::TooDeep { token }) => Err(Refusal::TooDeep(place_of_token(
            src, pieces, token,
        ))),
        Err(ParseErr::Memory) => Err(Refusal::Memory),
    }
}

/// Looks for a scope fault of a source, and tells the place of the first one.
fn check_scopes(alloc: Global, src: &[u8], pieces: &Cut, chunk: &Chunk) -> Result<(), Refusal>
    requires within { length src.now ≤ source_limit }
    requires source { IsSource src.now pieces.now chunk.now }
    ensures ok { IfOk result (λ _. scope_fault_of src.now pieces.now chunk.now ≡ None) }
    ensures refused { IfErr result (λ refusal. refusal ≢ Refusal.Memory → IsSourceRefusal src.now refusal) }
    ensures within { ¬ IsErrOf result Refusal.TooLarge }
{
    let outline = outline(alloc, chunk)?;
    let name = name_fault(alloc, src, pieces, chunk, outline.as_slice())?;
    let jump = jump_fault(alloc, src, pieces, chunk, outline.as_slice())?;
    match first_of(name, jump) {
        Some(bad) => Err(Refusal::Scope(place_of_token(src, pieces, bad.token), bad.what)),
        None => Ok(()),
    }
}

/// The first fault of names.
fn name_fault(
    alloc: Global,
    src: &[u8],
    pieces: &Cut,
    chunk: &Chunk,
    os: &[Occurrence],
) -> Result<Option<ScopeBad>, Memory>
    requires source { IsSource src.now pieces.now chunk.now }
    requires read { os.now ≡ outline_of chunk.now }
    ensures { IfOk result (λ found. found ≡ first_fault (name_faults (spelling_in src.now pieces.now) (occurrences_of chunk.now))) }
{
    match check_names(alloc, src, pieces, chunk, os) {
        Ok(()) => Ok(None),
        Err(ScopeErr::Bad(bad)) => Ok(Some(bad)),
        Err(ScopeErr::Memory) => Err(Memory),
    }
}

/// The first fault of jumps.
fn jump_fault(
    alloc: Global,
    src: &[u8],
    pieces: &Cut,
    chunk: &Chunk,
    os: &[Occurrence],
) -> Result<Option<ScopeBad>, Memory>
    requires source { IsSource src.now pieces.now chunk.now }
    requires read { os.now ≡ outline_of chunk.now }
    ensures { IfOk result (λ found. found ≡ first_fault (jump_faults (spelling_in src.now pieces.now) (occurrences_of chunk.now))) }
{
    match labels_read(alloc, src, pieces, chunk, os) {
        Ok(_) => Ok(None),
        Err(ScopeErr::Bad(bad)) => Ok(Some(bad)),
        Err(ScopeErr::Memory) => Err(Memory),
    }
}

/// What the names and the labels of a source are, and what its chunk says of them.
#[derive(Drop)]
struct Meanings {
    links: Links,
    jumps: Jumps,
    occurrences: Vec<Occurrence>,
}

/// What the names and the labels of a source are, or the place of its first scope fault.
fn meanings_of(alloc: Global, src: &[u8], pieces: &Cut, chunk: &Chunk) -> Result<Meanings, Refusal>
    requires within { length src.now ≤ source_limit }
    requires source { IsSource src.now pieces.now chunk.now }
    ensures links { IfOk result (λ m. AreLinks (spelling_in src.now pieces.now) (occurrences_of chunk.now) (length (toks_of pieces.now)) m.links) }
    ensures jumps { IfOk result (λ m. AreJumps (spelling_in src.now pieces.now) (occurrences_of chunk.now) m.jumps) }
    ensures read { IfOk result (λ m. m.occurrences.items ≡ occurrences_of chunk.now) }
    ensures ok { IfOk result (λ _. scope_fault_of src.now pieces.now chunk.now ≡ None) }
    ensures refused { IfErr result (λ refusal. refusal ≢ Refusal.Memory → IsSourceRefusal src.now refusal) }
    ensures within { ¬ IsErrOf result Refusal.TooLarge }
{
    let occurrences = occurrences(alloc, chunk)?;
    let names = names_of(alloc, src, pieces, chunk, occurrences.as_slice())?;
    let jumps = jumps_of(alloc, src, pieces, chunk, occurrences.as_slice())?;
    let bad = match (names, jumps) {
        (Ok(links), Ok(jumps)) => {
            return Ok(Meanings {
                links,
                jumps,
                occurrences,
            });
        }
        (Ok(_), Err(jump)) => jump,
        (Err(name), Ok(_)) => name,
        (Err(name), Err(jump)) => first_of_two(name, jump),
    };
    Err(Refusal::Scope(place_of_token(src, pieces, bad.token), bad.what))
}

/// The first of two faults.
fn first_of_two(name: ScopeBad, jump: ScopeBad) -> ScopeBad
    ensures { first_of (Some name) (Some jump) ≡ Some result }
{
    match first_of(Some(name), Some(jump)) {
        Some(bad) => bad,
        None => name,
    }
}

/// What each token is to the names, or the first fault of names.
fn names_of(
    alloc: Global,
    src: &[u8],
    pieces: &Cut,
    chunk: &Chunk,
    os: &[Occurrence],
) -> Result<Result<Links, ScopeBad>, Memory>
    requires source { IsSource src.now pieces.now chunk.now }
    requires read { os.now ≡ occurrences_of chunk.now }
    ensures { IfOk result (λ found. AreFoundNames src.now pieces.now chunk.now found) }
{
    match resolve_read(alloc, src, pieces, chunk, os) {
        Ok(links) => Ok(Ok(links)),
        Err(ScopeErr::Bad(bad)) => Ok(Err(bad)),
        Err(ScopeErr::Memory) => Err(Memory),
    }
}

/// What each token is to the labels, or the first fault of jumps.
fn jumps_of(
    alloc: Global,
    src: &[u8],
    pieces: &Cut,
    chunk: &Chunk,
    os: &[Occurrence],
) -> Result<Result<Jumps, ScopeBad>, Memory>
    requires source { IsSource src.now pieces.now chunk.now }
    requires read { os.now ≡ occurrences_of chunk.now }
    ensures { IfOk result (λ found. AreFoundJumps src.now pieces.now chunk.now found) }
{
    match labels_read(alloc, src, pieces, chunk, os) {
        Ok(jumps) => Ok(Ok(jumps)),
        Err(ScopeErr::Bad(bad)) => Ok(Err(bad)),
        Err(ScopeErr::Memory) => Err(Memory),
    }
}

/// The place of a token, or of the end of the source where there are not so many.
fn place_of_token(src: &[u8], pieces: &Cut, token: u32) -> Place
    requires within { length src.now ≤ source_limit }
    requires cut { IsCut src.now pieces.now }
    ensures { result ≡ place_in src.now (start_of src.now pieces.now token) }
{
    match pieces.span(token) {
        Some(span) => place_of(src, span.from),
        None => place_of(src, src.len() as u32),
    }
}
