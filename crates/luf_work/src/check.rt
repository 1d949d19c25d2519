// `check`: whether a source is accepted.
ghost use Rattle.std.specs.Prelude.{◌≡◌, ◌≢◌, ◌<◌, ◌↔◌, ◌⊎◌, length, Ok, Err, IfOk, IfErr, IsErrOf};
ghost use Rattle.luf_work.specs.Limits.{source_limit};
ghost use Rattle.luf_work.specs.Refusals.{IsSourceRefusal};
ghost use Rattle.luf_work.specs.Source.{IsAccepted};
ghost use Rattle.luf_work.specs.declared.refusal.Refusal.{Refusal as Cause};

use crate::Refusal;
use crate::source::{accepted, discard};
use std::alloc::Global;

/// Looks at a source as every job does. `Ok` says that it is accepted.
///
/// # Errors
///
/// Each but `Memory` comes exactly where its cause holds, if memory is found, in the order of `Refusal`.
/// `one_source_refusal` says that no two of these causes hold of one source.
///
/// - `TooLarge`: the source has more than 4,194,304 bytes. Nothing else is looked at, and `Memory` is not answered.
/// - `Lexical`: the source has no cut. Its first fault is told, by place and kind.
/// - `TooDeep`: the first token is told that enters level 201, in some list that the grammar derives and that begins with
///   the tokens up to it.
/// - `Syntax`: no token enters level 201, and the first is told with which those up to it begin no list that the grammar
///   derives, or the end.
/// - `Scope`: a name or a jump is refused. The first such fault is told, by place and word.
/// - `Memory`: no memory was found. It alone has no cause in the source.
pub fn check_bytes(alloc: Global, src: &[u8]) -> Result<(), Refusal>
    ensures accepted { IfOk result (λ _. IsAccepted src.now) }
    ensures complete { IsAccepted src.now → (result ≡ Ok tt) ⊎ (result ≡ Err Refusal.Memory) }
    ensures refused { IfErr result (λ refusal. refusal ≢ Refusal.Memory → IsSourceRefusal src.now refusal) }
    ensures exact { (refusal : Cause) → IsSourceRefusal src.now refusal → (result ≡ Err refusal) ⊎ (result ≡ Err Refusal.Memory) }
    ensures too_large { IsErrOf result Refusal.TooLarge ↔ (source_limit < length src.now) }
{
    let source = accepted(alloc, src)?;
    discard(source);
    Ok(())
}
