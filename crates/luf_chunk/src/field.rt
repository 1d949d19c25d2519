//! Fields without constants: sizes, bytes, instructions and upvalues.
ghost use Rattle.std.specs.Prelude.{◌≡◌, ◌++◌, ◌<◌, ◌^◌, length, take, OnOk, OnErr};
ghost use Rattle.luf_proto.specs.Chunk.{bit, groups, list_bytes, size, upvalue_bytes, word_bytes};

use luf_memory::Memory;
use luf_proto::Upval;

/// Appends so many groups of 7 bits, the highest first, without the zeros that they would begin with.
fn append_groups(n: u64, into: &mut Vec<u8>) -> Result<(), Memory>
    requires { n < 2 ^ 57 }
    ensures ok { OnOk result (into.new.items ≡ into.old.items ++ groups 9 n) }
    ensures err { OnErr result (take (length into.old.items) into.new.items ≡ into.old.items) }
{
    let mut left = 9u32;
    while left > 0 {
        left -= 1;
        let high = n >> (7 * left);
        if high > 0 {
            into.push((high % 128) as u8)?;
        }
    }
    Ok(())
}

/// Appends a size.
#[tactic(auto, unfolding(luf_proto::specs::Chunk::size))]
pub fn append_size(n: usize, into: &mut Vec<u8>) -> Result<(), Memory>
    ensures ok { OnOk result (into.new.items ≡ into.old.items ++ size n) }
    ensures err { OnErr result (take (length into.old.items) into.new.items ≡ into.old.items) }
{
    append_groups(n as u64 / 128, into)?;
    into.push((n % 128) as u8 + 128)?;
    Ok(())
}

/// Appends instructions, and how many there are.
pub fn append_code(code: &[u32], into: &mut Vec<u8>) -> Result<(), Memory>
    ensures ok { OnOk result (into.new.items ≡ into.old.items ++ list_bytes word_bytes code.now) }
    ensures err { OnErr result (take (length into.old.items) into.new.items ≡ into.old.items) }
{
    append_size(code.len(), into)?;
    for word in code {
        into.extend_from_slice(&word.to_le_bytes())?;
    }
    Ok(())
}

/// Appends upvalues, and how many there are.
pub fn append_upvalues(upvalues: &[Upval], into: &mut Vec<u8>) -> Result<(), Memory>
    ensures ok { OnOk result (into.new.items ≡ into.old.items ++ list_bytes upvalue_bytes upvalues.now) }
    ensures err { OnErr result (take (length into.old.items) into.new.items ≡ into.old.items) }
{
    append_size(upvalues.len(), into)?;
    for upvalue in upvalues {
        into.extend_from_slice(&[u8::from(upvalue.instack), upvalue.idx, upvalue.kind])?;
    }
    Ok(())
}
