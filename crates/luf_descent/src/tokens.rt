// One token at a time.
ghost use Rattle.std.specs.Prelude.{◌≡◌, ◌+◌, ◌<◌, ◌≤◌, ◌↔◌, length, slice_get, IsTrue, IfOk, IfErr, IfSome, IfNone};
ghost use Rattle.luf_lex.specs.Tokens.{toks_of};
ghost use Rattle.luf_tree.specs.Grammar.{At, IsToken};
ghost use Rattle.luf_tree.specs.Operator as operator;
ghost use Rattle.luf_descent.specs.Stops.{Missing, NoLevel};
ghost use Rattle.luf_descent.specs.Reads as reads;
ghost use Rattle.luf_descent.specs.Follow as follow;

use crate::ParseErr;
use luf_lex::{Cut, Sign, Tok, Word};

/// The token at a place, and the place after it; None at the end.
pub fn take(cut: &Cut, at: u32) -> Option<(Tok, u32)>
    ensures token { IfSome result (λ found. IsToken (toks_of cut.now) at found.0 found.1) }
    ensures within { IfSome result (λ found. found.1 ≤ length (toks_of cut.now)) }
    ensures end { IfNone result (length (toks_of cut.now) ≤ at) }
{
    if at >= cut.tokens() {
        return None;
    }
    let tok = cut.token(at)?;
    Some((tok, at + 1))
}

/// The place after this token, if it stands at a place.
pub fn eat(cut: &Cut, at: u32, tok: Tok) -> Option<u32>
    ensures token { IfSome result (λ next. IsToken (toks_of cut.now) at tok next) }
    ensures within { IfSome result (λ next. next ≤ length (toks_of cut.now)) }
    ensures other { IfNone result (At (toks_of cut.now) at tok → ⊥) }
{
    if !cut.is_at(at, tok) || at >= cut.tokens() {
        return None;
    }
    Some(at + 1)
}

/// The place after this token; a refusal where another one stands.
pub fn expect(cut: &Cut, at: u32, tok: Tok) -> Result<u32, ParseErr>
    ensures token { IfOk result (λ next. IsToken (toks_of cut.now) at tok next) }
    ensures within { IfOk result (λ next. next ≤ length (toks_of cut.now)) }
    ensures missing { at ≤ length (toks_of cut.now) → IfErr result (Missing (toks_of cut.now) at tok) }
{
    match eat(cut, at, tok) {
        Some(next) => Ok(next),
        None => Err(refusal(cut, at)),
    }
}

/// The refusal of the token at a place, or of the end.
pub fn refusal(cut: &Cut, at: u32) -> ParseErr
    ensures { at ≤ length (toks_of cut.now) → result ≡ ParseErr.Syntax at }
{
    ParseErr::Syntax {
        token: at.min(cut.tokens()),
    }
}

/// One level less, which the token at a place enters; a refusal where none is left.
pub fn enter(cut: &Cut, left: u32, at: u32) -> Result<u32, ParseErr>
    ensures ok { IfOk result (λ inner. left ≡ inner + 1) }
    ensures full { at < length (toks_of cut.now) → IfErr result (NoLevel left at) }
{
    if left == 0 {
        return Err(ParseErr::TooDeep {
            token: at.min(cut.tokens()),
        });
    }
    Ok(left - 1)
}

/// The precedence of the binary operator at a place other than `^`, from 1 to 10; 0 where none stands.
pub fn precedence_at(cut: &Cut, at: u32) -> u8
    ensures value { result ≡ follow.precedence_at (toks_of cut.now) at }
    ensures small { result ≤ 10 }
{
    match cut.token(at) {
        Some(Tok::Word(word)) => word_precedence(word),
        Some(Tok::Sign(sign)) => sign_precedence(sign),
        _ => 0,
    }
}

fn word_precedence(word: Word) -> u8
    ensures value { result ≡ operator.word_precedence word }
    ensures small { result ≤ 10 }
{
    match word {
        Word::Or => 1,
        Word::And => 2,
        _ => 0,
    }
}

fn sign_precedence(sign: Sign) -> u8
    ensures value { result ≡ operator.sign_precedence sign }
    ensures small { result ≤ 10 }
{
    match sign {
        Sign::Less
        | Sign::Greater
        | Sign::LessEqual
        | Sign::GreaterEqual
        | Sign::NotEqual
        | Sign::Equal => 3,
        Sign::Bar => 4,
        Sign::Tilde => 5,
        Sign::Amp => 6,
        Sign::ShiftLeft | Sign::ShiftRight => 7,
        Sign::DotDot => 8,
        Sign::Plus | Sign::Minus => 9,
        Sign::Star | Sign::Slash | Sign::SlashSlash | Sign::Percent => 10,
        _ => 0,
    }
}

/// Whether a token is a unary operator.
pub fn is_unary(tok: Tok) -> bool
    ensures { result ≡ operator.is_unary tok }
{
    matches!(
        tok,
        Tok::Word(Word::Not) | Tok::Sign(Sign::Hash | Sign::Minus | Sign::Tilde)
    )
}

/// Whether a suffix of a prefix expression begins at a place.
pub fn begins_suffix(cut: &Cut, at: u32) -> bool
    ensures { result ≡ reads.begins_suffix (toks_of cut.now) at }
{
    matches!(
        cut.token(at),
        Some(
            Tok::Short
                | Tok::Long
                | Tok::Sign(
                    Sign::Dot | Sign::LeftBracket | Sign::Colon | Sign::LeftParen | Sign::LeftBrace
                )
        )
    )
}
