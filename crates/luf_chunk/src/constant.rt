//! Constants as bytes, with the word of each float.
ghost use Rattle.std.specs.Prelude.{◌≡◌, [], ◌∷◌, ◌++◌, length, take, OnOk, OnErr, IfErr, MatchOption};
ghost use Rattle.std.specs.Int.{w64, to_le_bytes};
ghost use Rattle.luf_chunk.specs.Worded.{HasCause, constant_floats};
ghost use Rattle.luf_chunk.specs.inner.Written.{IsNotSpelled, WritesConstant, WritesConstantList, WritesConstants, WritesFloat};
ghost use Rattle.luf_proto.specs.Chunk.{constant_bytes, string};
ghost use Rattle.luf_proto.specs.declared.proto.Const.TheVariants.{Spelled};

use crate::error::ChunkErr;
use crate::field::append_size;
use luf_memory::Memory;
use luf_num::float_word;
use luf_proto::Const;
use luf_text::Bytes;
use std::alloc::Global;

/// The longest string of the tag of short ones (LUAI_MAXSHORTLEN of llimits.h).
const MOST_SHORT: usize = 40;

/// Appends bytes.
fn append_bytes(bytes: &[u8], into: &mut Vec<u8>) -> Result<(), Memory>
    ensures ok { OnOk result (into.new.items ≡ into.old.items ++ bytes.now) }
    ensures err { OnErr result (into.new.items ≡ into.old.items) }
{
    into.extend_from_slice(bytes)?;
    Ok(())
}

/// Appends a tag and a string.
fn append_string(tag: u8, s: &[u8], into: &mut Vec<u8>) -> Result<(), Memory>
    ensures ok { OnOk result (into.new.items ≡ into.old.items ++ tag ∷ string s.now) }
    ensures err { OnErr result (take (length into.old.items) into.new.items ≡ into.old.items) }
{
    into.push(tag)?;
    append_size(s.len() + 1, into)?;
    into.extend_from_slice(s)?;
    Ok(())
}

/// Appends a tag and a number of 8 bytes.
fn append_number(tag: u8, number: u64, into: &mut Vec<u8>) -> Result<(), Memory>
    ensures ok { OnOk result (into.new.items ≡ into.old.items ++ tag ∷ to_le_bytes w64 number) }
    ensures err { OnErr result (take (length into.old.items) into.new.items ≡ into.old.items) }
{
    into.push(tag)?;
    into.extend_from_slice(&number.to_le_bytes())?;
    Ok(())
}

/// Appends the bytes of a constant, of which a float that is spelled has none.
fn append_plain(constant: &Const, into: &mut Vec<u8>) -> Result<(), Memory>
    ensures ok { OnOk result (into.new.items ≡ into.old.items ++ constant_bytes constant.now) }
    ensures err { OnErr result (take (length into.old.items) into.new.items ≡ into.old.items) }
{
    match constant {
        Const::Nil => append_bytes(&[0], into),
        Const::False => append_bytes(&[1], into),
        Const::True => append_bytes(&[17], into),
        Const::Int(n) => append_number(3, n.cast_unsigned(), into),
        Const::Word(word) => append_number(19, *word, into),
        Const::Str(s) if s.as_slice().len() <= MOST_SHORT => append_string(4, s.as_slice(), into),
        Const::Str(s) => append_string(20, s.as_slice(), into),
        Const::Spelled(_) => Ok(()),
    }
}

/// Appends a float that is spelled, as its word.
fn append_float(alloc: Global, spelling: &[u8], into: &mut Vec<u8>) -> Result<(), ChunkErr>
    ensures ok { OnOk result (WritesFloat spelling.now into.old.items into.new.items) }
    ensures err { OnErr result (take (length into.old.items) into.new.items ≡ into.old.items) }
    ensures cause { IfErr result (λ e. HasCause e (spelling.now ∷ [])) }
{
    match float_word(spelling) {
        Some(word) => {
            append_number(19, word, into)?;
            Ok(())
        }
        None => {
            let spelling = Bytes::copy(alloc, spelling)?;
            Err(ChunkErr::FloatReach { spelling })
        }
    }
}

/// The spelling of a float that is spelled.
fn spelling_of(constant: &Const) -> Option<&[u8]>
    ensures { MatchOption result (IsNotSpelled constant.now) (λ s. constant.now ≡ Spelled s.now) }
{
    match constant {
        Const::Spelled(spelling) => Some(spelling.as_slice()),
        Const::Nil | Const::False | Const::True | Const::Int(_) | Const::Word(_) | Const::Str(_) =>
            None,
    }
}

/// Appends a constant.
fn append_constant(alloc: Global, constant: &Const, into: &mut Vec<u8>) -> Result<(), ChunkErr>
    ensures ok { OnOk result (WritesConstant constant.now into.old.items into.new.items) }
    ensures err { OnErr result (take (length into.old.items) into.new.items ≡ into.old.items) }
    ensures cause { IfErr result (λ e. HasCause e (constant_floats (constant.now ∷ []))) }
{
    match spelling_of(constant) {
        Some(spelling) => append_float(alloc, spelling, into),
        None => {
            append_plain(constant, into)?;
            Ok(())
        }
    }
}

/// Appends constants in order.
fn append_each(alloc: Global, constants: &[Const], into: &mut Vec<u8>) -> Result<(), ChunkErr>
    ensures ok { OnOk result (WritesConstants constants.now into.old.items into.new.items) }
    ensures err { OnErr result (take (length into.old.items) into.new.items ≡ into.old.items) }
    ensures cause { IfErr result (λ e. HasCause e (constant_floats constants.now)) }
{
    for constant in constants {
        append_constant(alloc, constant, into)?;
    }
    Ok(())
}

/// Appends constants, and how many there are.
pub fn append_constants(
    alloc: Global,
    constants: &[Const],
    into: &mut Vec<u8>,
) -> Result<(), ChunkErr>
    ensures ok { OnOk result (WritesConstantList constants.now into.old.items into.new.items) }
    ensures err { OnErr result (take (length into.old.items) into.new.items ≡ into.old.items) }
    ensures cause { IfErr result (λ e. HasCause e (constant_floats constants.now)) }
{
    append_size(constants.len(), into)?;
    append_each(alloc, constants, into)
}
