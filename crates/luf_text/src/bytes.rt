ghost use Rattle.std.specs.Prelude.{◌≡◌, List, ℕ, IfOk};

use luf_memory::Memory;
use smallvec::SmallVec;
use std::alloc::Global;
use std::marker::Model;

/// How many bytes a list keeps in itself: most tokens have no more.
const SHORT: usize = 16;

/// A list of bytes that owns its memory. It need not be UTF-8. A copy of at most 16 bytes takes no memory of its own.
#[derive(Debug, Drop)]
pub struct Bytes {
    bytes: SmallVec<u8, SHORT>,
}

impl Model for Bytes {
    ghost Value = { List ℕ };

    ghost view = { λ b. b.bytes.items };
}

impl Bytes {
    /// A copy of the bytes that are lent. The only error is that no memory was found.
    pub fn copy(alloc: Global, b: &[u8]) -> Result<Bytes, Memory>
        ensures { IfOk result (λ copied. copied ≡ b.now) }
    {
        Ok(Bytes {
            bytes: SmallVec::from_slice(alloc, b)?,
        })
    }

    /// The bytes of a vector, which is taken over as it is.
    pub fn from_vec(bytes: Vec<u8>) -> Bytes
        ensures { result ≡ bytes.items }
    {
        Bytes {
            bytes: SmallVec::from_vec(bytes),
        }
    }

    /// The bytes.
    pub fn as_slice(&self) -> &[u8]
        ensures { result.now ≡ self.now }
    {
        self.bytes.as_slice()
    }
}
