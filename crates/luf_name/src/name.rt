// Names by their numbers.
ghost use Rattle.std.specs.Prelude.{◌≡◌, ℕ, ◌<◌, ◌≤◌, List, [], ◌∷◌, ◌++◌, length, take};
ghost use Rattle.luf_name.specs.Order.{IsNth};
ghost use Rattle.luf_name.specs.inner.Padded.{IsPadded, padded, length-name};

use std::marker::Model;

/// A name of at most eight bytes, which lie in the value itself. Contracts see its bytes.
#[derive(Clone, Copy, Debug, PartialEq, Eq)]
pub struct Name {
    bytes: [u8; 8],
    len: u8,
}

impl Model for Name {
    ghost Value = { List ℕ };

    ghost view = { λ n. take n.len n.bytes };

    ghost invariant = { λ n. IsPadded n.bytes n.len };

    ghost inverse = { λ name. record { bytes = padded name; len = length name } };

    ghost inverse_ok = { λ n padded i. record {
      bytes = padded.zeros i;
      len = length-name n.bytes n.len padded i;
    } };
}

/// The letters of names, in their order.
const ALPHABET: &[u8; 63] = b"abcdefghijklmnopqrstuvwxyzABCDEFGHIJKLMNOPQRSTUVWXYZ_0123456789";

/// How many letters there are.
const LETTERS: u32 = 63;

/// With how many of them, the first, a name may begin.
const FIRST_LETTERS: u32 = 53;

impl Name {
    /// The bytes of the name.
    pub fn as_slice(&self) -> &[u8]
        ensures { result.now ≡ self.now }
    {
        &self.bytes[..self.len as usize]
    }

    /// The name of one letter.
    fn of_letter(letter: u8) -> Name
        ensures { result ≡ letter ∷ [] }
    {
        Name {
            bytes: [letter, 0, 0, 0, 0, 0, 0, 0],
            len: 1,
        }
    }

    /// Adds a letter.
    fn push(&mut self, letter: u8)
        requires { length self.old < 8 }
        ensures { self.new ≡ self.old ++ letter ∷ [] }
    {
        self.bytes[self.len as usize] = letter;
        self.len += 1;
    }
}

/// The name of a number, from 0: `a` .. `z`, `A` .. `Z`, `_`, `aa`, `ab`, and so on, barred ones too.
pub fn nth(n: u32) -> Name
    ensures name { IsNth result n }
    ensures short { length result ≤ 6 }
{
    if n < FIRST_LETTERS {
        return Name::of_letter(ALPHABET[n as usize]);
    }
    let longer = n - FIRST_LETTERS;
    let mut name = nth(longer / LETTERS);
    name.push(ALPHABET[(longer % LETTERS) as usize]);
    name
}
