// `format`: the program of a source as the options lay it out, with its comments.
ghost use Rattle.std.specs.Prelude.{◌≡◌, ◌≢◌, ◌<◌, ◌≤◌, ◌^◌, ◌↔◌, ◌⊎◌, ◌++◌, ℕ, List, length, take, Ok, Err, IfErr, OnOk, OnErr, IsErrOf};
ghost use Rattle.luf_conf.specs.Settings.{AreInRange};
ghost use Rattle.luf_style.specs.Styled.{IsFormatted, choices_of};
ghost use Rattle.luf_work.specs.Format.{IsFormatAccepted, IsFormatRefusal, KeepsSource};
ghost use Rattle.luf_work.specs.Limits.{source_limit, text_limit};
ghost use Rattle.luf_work.specs.inner.Read.{IsRead};
ghost use Rattle.luf_work.specs.declared.refusal.Refusal.{Refusal as Cause};

use crate::hash::write_hash_line;
use crate::source::{ReadSource, accepted, discard};
use crate::{Refusal, TEXT_LIMIT};
use luf_conf::Options;
use luf_memory::Memory;
use luf_style::write_styled;
use std::alloc::Global;

/// Appends the formatted text of a source under options. A source that `format` accepts has `Ok` or `Memory`, and no
/// other has `Ok`. An error leaves `into` as it was. `one_formatted_text` says that a source has at most one text.
///
/// # Errors
///
/// Each but `Memory` comes exactly where its cause holds, if memory is found. `one_format_refusal` says that no two of
/// these causes hold of one source, and `format_accepted_not_refused` that none holds of a source that is accepted.
///
/// - `TooLarge`: the source has more than 4,194,304 bytes. Nothing else is looked at, and `Memory` is not answered.
/// - `Lexical`: the source has no cut. Its first fault is told, by place and kind.
/// - `TooDeep`: the first token is told that enters level 201, in some list that the grammar derives and that begins with
///   the tokens up to it.
/// - `Syntax`: no token enters level 201, and the first is told with which those up to it begin no list that the grammar
///   derives, or the end.
/// - `Scope`: a name or a jump is refused. The first such fault is told, by place and word.
/// - `ResultTooLarge`: the source is accepted by every job, and its formatted text has more than 4,194,304 bytes.
/// - `Memory`: no memory was found. It alone has no cause in the source.
pub fn format_bytes(
    alloc: Global,
    src: &[u8],
    o: &Options,
    into: &mut Vec<u8>,
) -> Result<(), Refusal>
    requires range { AreInRange o.now }
    ensures accepted { OnOk result (IsFormatAccepted o.now src.now) }
    ensures ok { OnOk result ((text : List ℕ) × IsFormatted (choices_of o.now) src.now text × KeepsSource o.now src.now text × (length text ≤ text_limit) × (into.new.items ≡ into.old.items ++ text)) }
    ensures complete { IsFormatAccepted o.now src.now → (result ≡ Ok tt) ⊎ (result ≡ Err Refusal.Memory) }

    ensures refused { IfErr result (λ refusal. refusal ≢ Refusal.Memory → IsFormatRefusal o.now src.now refusal) }
    ensures exact { (refusal : Cause) → IsFormatRefusal o.now src.now refusal → (result ≡ Err refusal) ⊎ (result ≡ Err Refusal.Memory) }
    ensures too_large { IsErrOf result Refusal.TooLarge ↔ (source_limit < length src.now) }
    ensures err { OnErr result (into.new.items ≡ into.old.items) }
{
    let source = accepted(alloc, src)?;
    let len = into.len();
    let written = write_text(alloc, src, &source, o, into);
    discard(source);
    if let Err(e) = written {
        return Err(Refusal::from(e));
    }
    if into.len() - len > TEXT_LIMIT {
        into.truncate(len);
        return Err(Refusal::ResultTooLarge);
    }
    Ok(())
}

/// Appends the formatted text.
fn write_text(
    alloc: Global,
    src: &[u8],
    source: &ReadSource,
    o: &Options,
    into: &mut Vec<u8>,
) -> Result<(), Memory>
    requires range { AreInRange o.now }
    requires read { IsRead src.now source.now }
    ensures ok { OnOk result ((text : List ℕ) × IsFormatted (choices_of o.now) src.now text × (into.new.items ≡ into.old.items ++ text)) }
    ensures err { OnErr result (into.new.items ≡ into.old.items) }
{
    let len = into.len();
    if let Err(e) = write_lines(alloc, src, source, o, into) {
        into.truncate(len);
        return Err(e);
    }
    Ok(())
}

/// Appends the `#` line and the layout of the document. What an error leaves begins with what was there.
fn write_lines(
    alloc: Global,
    src: &[u8],
    source: &ReadSource,
    o: &Options,
    into: &mut Vec<u8>,
) -> Result<(), Memory>
    requires range { AreInRange o.now }
    requires read { IsRead src.now source.now }
    ensures ok { OnOk result ((text : List ℕ) × IsFormatted (choices_of o.now) src.now text × (into.new.items ≡ into.old.items ++ text)) }
    ensures err { OnErr result (take (length into.old.items) into.new.items ≡ into.old.items) }
{
    if let Err(e) = write_hash_line(src, into) {
        return Err(e);
    }
    write_styled(alloc, src, &source.pieces, &source.chunk, o, into)
}
