// `list`: the listing of a chunk.
ghost use Rattle.std.specs.Prelude.{◌≡◌, ◌≢◌, ◌≤◌, ◌⊎◌, ◌++◌, ℕ, List, length, Ok, Err, IfOk, IfErr, OnOk, OnErr};
ghost use Rattle.luf_proto.specs.FunctionOf.{function_of};
ghost use Rattle.luf_undump.specs.Grammar.{IsChunkOf};
ghost use Rattle.luf_work.specs.Limits.{source_limit};
ghost use Rattle.luf_work.specs.List.{IsListing, IsListAccepted, IsListRefusal};
ghost use Rattle.luf_work.specs.declared.refusal.Refusal.{Refusal as Cause};

use crate::{Refusal, SOURCE_LIMIT};
use luf_list::list;
use luf_proto::Proto;
use luf_undump::{UndumpErr, read_chunk};
use std::alloc::Global;

/// Appends the listing of the function whose chunk the input is. An input that `list` accepts has `Ok` or `Memory`, and
/// no other has `Ok`. An error leaves `into` as it was.
///
/// # Errors
///
/// Each but `Memory` comes exactly where its cause holds, if memory is found. `one_list_refusal` says that no two of these
/// causes hold of one input, and `list_accepted_not_refused` that none holds of an input that is accepted.
///
/// - `TooLarge`: the input has more than 4,194,304 bytes. Nothing else is looked at.
/// - `Chunk`: the input is no chunk. The first field that is wrong is told, by its first byte and how it is wrong.
/// - `Memory`: no memory was found. It alone has no cause in the input.
pub fn list_bytes(alloc: Global, src: &[u8], into: &mut Vec<u8>) -> Result<(), Refusal>
    ensures ok { OnOk result ((text : List ℕ) × IsListing src.now text × (into.new.items ≡ into.old.items ++ text)) }
    ensures within { OnOk result (length src.now ≤ source_limit) }
    ensures complete { IsListAccepted src.now → (result ≡ Ok tt) ⊎ (result ≡ Err Refusal.Memory) }

    ensures refused { IfErr result (λ refusal. refusal ≢ Refusal.Memory → IsListRefusal src.now refusal) }
    ensures exact { (refusal : Cause) → IsListRefusal src.now refusal → (result ≡ Err refusal) ⊎ (result ≡ Err Refusal.Memory) }
    ensures err { OnErr result (into.new.items ≡ into.old.items) }
{
    if src.len() > SOURCE_LIMIT {
        return Err(Refusal::TooLarge);
    }
    let main = main_of(alloc, src)?;
    list(alloc, &main, into)?;
    Ok(())
}

/// The function of a chunk, or its first field that is wrong.
fn main_of(alloc: Global, src: &[u8]) -> Result<Proto, Refusal>
    requires { length src.now ≤ source_limit }
    ensures ok { IfOk result (λ main. IsChunkOf src.now (function_of main)) }
    ensures refused { IfErr result (λ refusal. refusal ≢ Refusal.Memory → IsListRefusal src.now refusal) }
{
    match read_chunk(alloc, src) {
        Ok(main) => Ok(main),
        Err(UndumpErr::Bad { at, what }) => Err(Refusal::Chunk(at, what)),
        Err(UndumpErr::Memory) => Err(Refusal::Memory),
    }
}
