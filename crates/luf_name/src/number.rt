// The numbers of names.
ghost use Rattle.std.specs.Prelude.{◌≡◌, ℕ, ◌+◌, ◌*◌, ◌<◌, ◌≤◌, ◌^◌, IfSome};
ghost use Rattle.std.specs.List.{All};
ghost use Rattle.luf_name.specs.Order.{rank, number_from, IsLetter, IsNth};

/// The number of a name, if it is one and its number has 32 bits.
pub fn number_of(name: &[u8]) -> Option<u32>
    ensures some { IfSome result (λ n. IsNth name.now n) }
    ensures none { result ≡ None → (n : ℕ) → n < 2 ^ 32 → IsNth name.now n → ⊥ }
{
    let (first, rest) = name.split_first()?;
    let rank = rank_of(*first);
    if rank >= 53 {
        return None;
    }
    number_behind(rank, rest)
}

/// The number of a name to which letters are added, where this is the number of what stands before them.
fn number_behind(front: u32, rest: &[u8]) -> Option<u32>
    ensures some { IfSome result (λ n. All IsLetter rest.now × (number_from front rest.now ≡ n)) }
    ensures none { result ≡ None → number_from front rest.now < 2 ^ 32 → All IsLetter rest.now → ⊥ }
{
    let mut number = front;
    for letter in rest {
        number = number_with(number, *letter)?;
    }
    Some(number)
}

/// The same with one letter more.
fn number_with(front: u32, letter: u8) -> Option<u32>
    ensures some { IfSome result (λ n. IsLetter letter × (front * 63 + 53 + rank letter ≡ n)) }
    ensures none { result ≡ None → IsLetter letter → 2 ^ 32 ≤ front * 63 + 53 + rank letter }
{
    let rank = rank_of(letter);
    if rank >= 63 {
        return None;
    }
    front.checked_mul(63)?.checked_add(53 + rank)
}

/// The place of a letter in the alphabet; 63 for what is no letter of it.
#[tactic(auto, using(crate::proofs::Ranks::byte_rank))]
fn rank_of(letter: u8) -> u32
    ensures { result ≡ rank letter }
{
    match letter {
        b'a'..=b'z' => u32::from(letter - b'a'),
        b'A'..=b'Z' => 26 + u32::from(letter - b'A'),
        b'_' => 52,
        b'0'..=b'9' => 53 + u32::from(letter - b'0'),
        _ => 63,
    }
}
