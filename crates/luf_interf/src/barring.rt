// The numbers of barred names.
ghost use Rattle.std.specs.Prelude.{◌≡◌, ℕ, ◌<◌, List, ◌∷◌, length, IfOk};
ghost use Rattle.luf_interf.specs.inner.Barring.{AreBarredBy};
ghost use Rattle.luf_interf.specs.inner.Uses.{nowhere, AreBarred};

use crate::Memory;
use crate::maxima::Maxima;
use luf_name::number_of;
use std::alloc::Global;

// The table behind the last reference: no name is used, and the barred ones are 0.
pub(crate) fn heads_of(alloc: Global, size: usize) -> Result<Maxima, Memory>
    requires { size < nowhere }
    ensures { IfOk result (λ heads. AreBarred size heads) }
{
    let mut heads = Maxima::of(alloc, size, u32::MAX)?;
    bar(&mut heads, b"_ENV");
    bar(&mut heads, b"self");
    bar(&mut heads, b"while");
    bar(&mut heads, b"until");
    bar(&mut heads, b"true");
    bar(&mut heads, b"then");
    bar(&mut heads, b"return");
    bar(&mut heads, b"repeat");
    bar(&mut heads, b"or");
    bar(&mut heads, b"not");
    bar(&mut heads, b"nil");
    bar(&mut heads, b"local");
    bar(&mut heads, b"in");
    bar(&mut heads, b"if");
    bar(&mut heads, b"goto");
    bar(&mut heads, b"function");
    bar(&mut heads, b"for");
    bar(&mut heads, b"false");
    bar(&mut heads, b"end");
    bar(&mut heads, b"elseif");
    bar(&mut heads, b"else");
    bar(&mut heads, b"do");
    bar(&mut heads, b"break");
    bar(&mut heads, b"and");
    Ok(heads)
}

// Puts 0 at the number of a word, if the table goes so far.
fn bar(heads: &mut Maxima, word: &[u8])
    requires { length heads.old < nowhere }
    ensures count { length heads.new ≡ length heads.old }
    ensures barred { (words : List (List ℕ)) (size : ℕ) → AreBarredBy words size heads.old → AreBarredBy (word.now ∷ words) size heads.new }
{
    let Some(number) = number_of(word) else {
        return;
    };
    if (number as usize) < heads.len() {
        heads.set(number as usize, 0);
    }
}
