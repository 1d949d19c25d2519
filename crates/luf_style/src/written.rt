// The tokens of a source as they are written.
ghost use Rattle.std.specs.Prelude.{◌≡◌, [], get_or};
ghost use Rattle.luf_lex.specs.Cut.{IsCut};
ghost use Rattle.luf_lex.specs.Tokens.{spellings_of};
ghost use Rattle.luf_style.specs.inner.Written.{over};

use crate::texts::Texts;
use luf_lex::Cut;
use std::marker::Model;

/// The text of each token: the one that was made for it, and for all others how they are spelled in the source. Contracts
/// see their list.
#[derive(Drop)]
pub(crate) struct Written<'a> {
    src: &'a [u8],
    cut: &'a Cut,
    /// What was made, by the numbers of the tokens: none for a token that is written as it is spelled.
    made: Texts,
}

impl<'a> Model for Written<'a> {
    ghost use Rattle.std.specs.Prelude.{ℕ, List};
    ghost use Rattle.luf_lex.specs.Cut.{IsCut};
    ghost use Rattle.luf_lex.specs.Tokens.{spellings_of};
    ghost use Rattle.luf_style.specs.inner.Written.{over};

    ghost Value = { List (List ℕ) };

    ghost view = { λ w. over w.made (spellings_of w.src.now w.cut.now) };

    ghost invariant = { λ w. IsCut w.src.now w.cut.now };
}

impl<'a> Written<'a> {
    /// The tokens of a source, with what was made for them.
    pub fn new(src: &'a [u8], cut: &'a Cut, made: Texts) -> Written<'a>
        requires { IsCut src.now cut.now }
        ensures { result ≡ over made (spellings_of src.now cut.now) }
    {
        Written { src, cut, made }
    }

    /// The text of token `n`; none where there are not so many.
    pub fn get(&self, n: u32) -> &[u8]
        ensures { result.now ≡ get_or self.now n [] }
    {
        let made = self.made.get(n as usize);
        if !made.is_empty() {
            return made;
        }
        match self.cut.spelling(self.src, n) {
            Some(spelling) => spelling,
            None => b"",
        }
    }
}
