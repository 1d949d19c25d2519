// Room for a text, made before all else.
ghost use Rattle.std.specs.Prelude.{◌≡◌, ◌≤◌, length, IfErr};
ghost use Rattle.luf_work.specs.Limits.{source_limit};

use crate::SOURCE_LIMIT;
use luf_memory::Memory;

/// Room for a text that is no longer than its source, as most are. It is made before anything else: what glibc takes then
/// for so much, it does not join with what is free when it is freed.
pub(crate) fn make_room(src: &[u8], into: &mut Vec<u8>) -> Result<(), Memory>
    ensures items { into.new.items ≡ into.old.items }
    ensures within { IfErr result (λ _. length src.now ≤ source_limit) }
{
    if src.len() > SOURCE_LIMIT {
        return Ok(());
    }
    into.reserve(src.len())?;
    Ok(())
}
