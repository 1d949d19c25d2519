//! Reads all that a source has left, within a limit.
ghost use Rattle.std.specs.Prelude.{◌≡◌, ℕ, ◌<◌, ◌≤◌, List, [], ◌++◌, length, take, vec_len};
ghost use Rattle.std.specs.Prelude.{IfOk, OnOk, OnErr};
ghost use Rattle.std.specs.Option.{ForSome};
ghost use Rattle.luf_io.specs.Source.{Taken, IsAtEnd};
ghost use Rattle.luf_io.specs.Read.{CountsFault, PullsWithin};

use crate::Source;
use std::alloc::{AllocError, Global};
use thiserror::Error;

/// Why a whole read gave up.
#[derive(Clone, Copy, Debug, PartialEq, Eq, Error)]
pub enum ReadErr {
    /// A pull failed.
    #[error("the input could not be read")]
    Fault,
    /// The source has more bytes than the limit.
    #[error("the input is too large")]
    TooLarge,
    /// No memory was found.
    #[error("out of memory")]
    Memory,
}

impl From<AllocError> for ReadErr {
    ghost use Rattle.luf_io.specs.declared.read.ReadErr.TheVariants.{Memory};

    ghost from_gives = { λ _ e. e ≡ Memory };

    fn from(_: AllocError) -> ReadErr {
        ReadErr::Memory
    }
}

// How many bytes one pull asks for at most.
const BUFFER: usize = 65536;

/// Appends all that a source has left, if that is at most `most` bytes. It pulls at most one byte
/// more than `most`.
///
/// # Errors
///
/// `Fault`, where a pull failed; `TooLarge`, where more than `most` bytes were pulled; `Memory`.
/// `into` is as before then, and the source has been read further.
pub fn read_all<I: Source>(
    alloc: Global,
    i: &mut I,
    most: usize,
    into: &mut Vec<u8>,
) -> Result<(), ReadErr>
    // What was taken from the source are the bytes that were pulled. On Ok they were appended.
    ensures pulled { (pulled : List ℕ)
        × Taken (I.left i.old) pulled (I.left i.new)
        × PullsWithin result most (length pulled)
        × OnOk result (into.new.items ≡ into.old.items ++ pulled) }
    ensures end { OnOk result (IsAtEnd (I.left i.new)) }
    ensures err { OnErr result (into.new.items ≡ into.old.items) }
    ensures counted { CountsFault result (I.faults i.old) (I.faults i.new) }

    // The same for a source that tells what it has.
    ensures all { OnOk result (ForSome (I.left i.old) (λ bytes.
        (into.new.items ≡ into.old.items ++ bytes)
        × (length bytes ≤ most)
        × (I.left i.new ≡ Some []))) }
    ensures too_large { result ≡ Err ReadErr.TooLarge
        → ForSome (I.left i.old) (λ bytes. most < length bytes) }
{
    let mut buffer = zeros(alloc, BUFFER)?;
    let len = into.len();
    let result = append_pieces(i, &mut buffer, most, into);
    if result.is_err() {
        into.truncate(len);
    }
    result
}

// So many zeros. The number is a parameter so that no proof writes out the list.
fn zeros(alloc: Global, len: usize) -> Result<Vec<u8>, AllocError>
    ensures { IfOk result (λ buffer. vec_len buffer ≡ len) }
{
    vec![in alloc; 0; len]
}

// `read_all` with a buffer, but what was appended before an error stays.
fn append_pieces<I: Source>(
    i: &mut I,
    buffer: &mut [u8],
    most: usize,
    into: &mut Vec<u8>,
) -> Result<(), ReadErr>
    requires { 0 < length buffer.old }
    ensures pulled { (pulled : List ℕ)
        × Taken (I.left i.old) pulled (I.left i.new)
        × PullsWithin result most (length pulled)
        × OnOk result (into.new.items ≡ into.old.items ++ pulled) }
    ensures end { OnOk result (IsAtEnd (I.left i.new)) }
    ensures err { OnErr result
        (take (length into.old.items) into.new.items ≡ into.old.items) }
    ensures counted { CountsFault result (I.faults i.old) (I.faults i.new) }
{
    let mut room = most;
    loop {
        match append_piece(i, buffer, room, into) {
            Ok(0) => return Ok(()),
            Ok(count) => room -= count,
            Err(error) => return Err(error),
        }
    }
}

// Pulls once, at most one byte more than the room, and appends what came. It answers how many bytes
// these are: 0 at the end.
fn append_piece<I: Source>(
    i: &mut I,
    buffer: &mut [u8],
    room: usize,
    into: &mut Vec<u8>,
) -> Result<usize, ReadErr>
    requires { 0 < length buffer.old }
    ensures pulled { (pulled : List ℕ)
        × Taken (I.left i.old) pulled (I.left i.new)
        × PullsWithin result room (length pulled)
        × IfOk result (λ count.
        (length pulled ≡ count) × (into.new.items ≡ into.old.items ++ pulled)) }
    ensures end { IfOk result (λ count. count ≡ 0 → IsAtEnd (I.left i.new)) }
    ensures err { OnErr result (into.new.items ≡ into.old.items) }
    ensures counted { CountsFault result (I.faults i.old) (I.faults i.new) }
{
    let width = if room < buffer.len() {
        room + 1
    } else {
        buffer.len()
    };
    let count = match i.pull(&mut buffer[..width]) {
        Ok(count) => count,
        Err(_) => return Err(ReadErr::Fault),
    };
    if count > room {
        return Err(ReadErr::TooLarge);
    }
    into.extend_from_slice(&buffer[..count])?;
    Ok(count)
}
