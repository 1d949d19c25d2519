//! Writes all of some bytes into a sink.
ghost use Rattle.std.specs.Prelude.{◌≡◌, ℕ, ◌≤◌, length, take, OnOk, OnErr};
ghost use Rattle.luf_io.specs.Count.{Rose};
ghost use Rattle.luf_io.specs.Sink.{Appends};

use crate::Sink;
use thiserror::Error;

/// Why a whole write gave up.
#[derive(Clone, Copy, Debug, PartialEq, Eq, Error)]
pub enum WriteErr {
    /// A put failed.
    #[error("the output could not be written")]
    Fault,
}

/// Puts all the bytes, in as many calls as the sink needs. It takes no memory.
///
/// # Errors
///
/// `Fault`, where a put failed; what was put then is a prefix of the bytes.
pub fn write_all<O: Sink>(o: &mut O, bytes: &[u8]) -> Result<(), WriteErr>
    ensures ok { OnOk result (Appends (O.written o.old) bytes.now (O.written o.new)) }
    ensures calm { OnOk result (O.faults o.new ≡ O.faults o.old) }
    ensures part { OnErr result ((n : ℕ)
        × (n ≤ length bytes.now)
        × Appends (O.written o.old) (take n bytes.now) (O.written o.new)) }
    ensures fault { OnErr result (Rose (O.faults o.old) (O.faults o.new)) }
{
    let mut done = 0;
    while done < bytes.len() {
        match o.put(&bytes[done..]) {
            Ok(taken) => done += taken,
            Err(_) => return Err(WriteErr::Fault),
        }
    }
    Ok(())
}
