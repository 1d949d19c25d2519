// How the tokens of a source are written.
ghost use Rattle.std.specs.Prelude.{◌≡◌, ◌≤◌, ◌<◌, ◌^◌, ℕ, List, Some, None, length, slice_get, IfOk, IfSome, OnOk};
ghost use Rattle.std.specs.Option.{option_copied};
ghost use Rattle.luf_str.specs.Requote.{IsRequoted};
ghost use Rattle.luf_lex.specs.Cut.{IsCut};
ghost use Rattle.luf_lex.specs.Spelling.{IsShortString};
ghost use Rattle.luf_lex.specs.Tokens.{toks_of, spellings_of};
ghost use Rattle.luf_lex.specs.declared.token.Tok.{Tok as Toks};
ghost use Rattle.luf_lex.specs.declared.token.Tok.TheVariants.{Short};
ghost use Rattle.luf_style.specs.Styled.{AreWritten};
ghost use Rattle.luf_style.specs.inner.Written.{IsMade, quote_in};

use crate::texts::Texts;
use crate::written::Written;
use luf_lex::{Cut, Tok};
use luf_memory::Memory;
use luf_quote::{QuoteStyle, choose};
use luf_str::{quotes, requote};
use luf_text::Bytes;
use std::alloc::Global;

/// The bytes of each token as it is written: a short string in the quotes that a style wants, any other as it is. Only a
/// string that is then another text is made.
pub(crate) fn write_tokens<'a>(
    alloc: Global,
    src: &'a [u8],
    cut: &'a Cut,
    style: QuoteStyle,
) -> Result<Written<'a>, Memory>
    requires { IsCut src.now cut.now }
    ensures { IfOk result (λ written. AreWritten (quote_in style) (toks_of cut.now) (spellings_of src.now cut.now) written) }
{
    let mut made = Texts::new(alloc, cut.tokens() as usize)?;
    for n in 0..cut.tokens() {
        make_text(alloc, src, cut, n, style, &mut made)?;
    }
    Ok(Written::new(src, cut, made))
}

/// Makes the text of token `n`, if it is not written as it is spelled.
fn make_text(
    alloc: Global,
    src: &[u8],
    cut: &Cut,
    n: u32,
    style: QuoteStyle,
    into: &mut Texts,
) -> Result<(), Memory>
    requires cut { IsCut src.now cut.now }
    requires few { length into.old ≤ n }
    ensures { OnOk result (IsMade (quote_in style) (toks_of cut.now) (spellings_of src.now cut.now) n into.old into.new) }
{
    let Some(spelling) = short_string(src, cut, n) else {
        return Ok(());
    };
    let text = write_string(alloc, spelling, style)?;
    if text.as_slice() == spelling {
        return Ok(());
    }
    into.put(n as usize, text.as_slice())
}

/// How token `n` is spelled, if it is a short string.
fn short_string<'a>(src: &'a [u8], cut: &Cut, n: u32) -> Option<&'a [u8]>
    requires { IsCut src.now cut.now }
    ensures token { IfSome result (λ s. slice_get (toks_of cut.now) n ≡ Some Short) }
    ensures spelling { IfSome result (λ s. slice_get (spellings_of src.now cut.now) n ≡ Some s.now) }
    ensures few { IfSome result (λ s. length s.now < 2 ^ 32) }
    ensures other { result ≡ None → (tok : Toks) (spelling : List ℕ) → slice_get (toks_of cut.now) n ≡ Some tok → slice_get (spellings_of src.now cut.now) n ≡ Some spelling → tok ≡ Short → ⊥ }
{
    if !cut.is_at(n, Tok::Short) {
        return None;
    }
    short_spelling(src, cut, n)
}

/// How token `n` is spelled, in fewer than 2^32 bytes.
fn short_spelling<'a>(src: &'a [u8], cut: &Cut, n: u32) -> Option<&'a [u8]>
    requires { IsCut src.now cut.now }
    ensures spelling { option_copied result ≡ slice_get (spellings_of src.now cut.now) n }
    ensures few { IfSome result (λ s. length s.now < 2 ^ 32) }
{
    let span = cut.span(n)?;
    let from = span.from as usize;
    let to = span.to as usize;
    Some(&src[from..to])
}

fn write_string(alloc: Global, spelling: &[u8], style: QuoteStyle) -> Result<Bytes, Memory>
    requires token { IsShortString spelling.now }
    requires size { length spelling.now < 2 ^ 32 }
    ensures { IfOk result (λ written. IsRequoted spelling.now (quote_in style spelling.now) written) }
{
    let mut written = Vec::with_capacity(alloc, spelling.len())?;
    let quote = choose(style, quotes(spelling));
    requote(alloc, spelling, quote, &mut written)?;
    Ok(Bytes::from_vec(written))
}
