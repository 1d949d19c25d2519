// Names, keywords and blanks.
ghost use Rattle.std.specs.Prelude.{◌≡◌, ◌≤◌, true, length};
ghost use Rattle.std.specs.List.{prefix_len};
ghost use Rattle.luf_byte.specs.Class as class;
ghost use Rattle.luf_byte.specs.Front.{begins};
ghost use Rattle.luf_lex.specs.First.{IsFirst};
ghost use Rattle.luf_lex.specs.declared.token.Kind.TheVariants as Kind;

use crate::Tok;
use crate::word::keyword;
use luf_byte::{is_blank, is_word_byte};

/// The name or the keyword that a text begins with, and its length.
pub(crate) fn word(text: &[u8]) -> (Tok, usize)
    requires { begins class.is_letter text.now ≡ true }
    ensures { IsFirst text.now (Kind.Token result.0) result.1 }
{
    let len = word_run(text);
    let tok = match keyword(&text[..len]) {
        Some(word) => Tok::Word(word),
        None => Tok::Name,
    };
    (tok, len)
}

/// How many letters and digits a text begins with.
fn word_run(text: &[u8]) -> usize
    ensures count { result ≡ prefix_len class.is_word_byte text.now }
    ensures bound { result ≤ length text.now }
{
    text.iter().take_while(|b| is_word_byte(**b)).count()
}

/// The length of the blanks that a text begins with.
pub(crate) fn blank_run(text: &[u8]) -> usize
    ensures run { result ≡ prefix_len class.is_blank text.now }
    ensures within { result ≤ length text.now }
{
    text.iter().take_while(|b| is_blank(**b)).count()
}
