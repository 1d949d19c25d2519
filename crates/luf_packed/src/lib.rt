//! A number that takes its four bytes and no alignment.
#![tactic(auto)]

ghost use Rattle.std.specs.Prelude.{◌≡◌};

use std::marker::Model;

/// A `u32` that may lie at any byte: a list of entries, each such a number or something small, takes 5 bytes an entry
/// in place of 8. Contracts see the number.
#[derive(Clone, Copy, Debug)]
pub struct Packed {
    bytes: [u8; 4],
}

impl Model for Packed {
    ghost use Rattle.std.specs.Prelude.{ℕ, ◌≡◌, ◌<◌, length, get_or};
    ghost use Rattle.std.specs.Int.{w32, from_le_bytes, to_le_bytes};
    ghost use Rattle.std.specs.Coded.{coded_ℕ};
    ghost use Rattle.std.proofs.lemmas.Nat.{le_bytes_4};
    ghost use Rattle.std.proofs.Common.{refl};

    ghost Value = { ℕ };

    ghost coded = { coded_ℕ };

    ghost view = { λ p. from_le_bytes w32 p.bytes };

    ghost invariant = { λ p. (length p.bytes ≡ 4) × ((i : ℕ) → get_or p.bytes i 0 < 256) };

    ghost inverse = { λ n. record { bytes = to_le_bytes w32 n } };

    ghost inverse_ok = { λ p h i. record { bytes = le_bytes_4 p.bytes (from_le_bytes w32 p.bytes) h.0 h.1 refl i } };
}

impl Packed {
    /// A number, packed.
    pub fn new(n: u32) -> Packed
        ensures { result ≡ n }
    {
        Packed {
            bytes: n.to_le_bytes(),
        }
    }

    /// The number.
    pub fn get(self) -> u32
        ensures { result ≡ self }
    {
        u32::from_le_bytes(self.bytes)
    }
}
