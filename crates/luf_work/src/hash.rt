// The `#` line of a source, as a formatted text begins with it.
ghost use Rattle.std.specs.Prelude.{◌≡◌, ◌++◌, length, take, OnOk, OnErr};
ghost use Rattle.luf_style.specs.Styled.{hash_text};

use luf_lex::hash_line;
use luf_memory::Memory;

/// Appends the `#` line of a source and a line feed, if it has one. Only a mark stands before it. What an error leaves
/// begins with what was there.
pub(crate) fn write_hash_line(src: &[u8], into: &mut Vec<u8>) -> Result<(), Memory>
    ensures ok { OnOk result (into.new.items ≡ into.old.items ++ hash_text src.now) }
    ensures err { OnErr result (take (length into.old.items) into.new.items ≡ into.old.items) }
{
    if let Some(line) = hash_line(src) {
        into.extend_from_slice(line)?;
        into.push(b'\n')?;
    }
    Ok(())
}
