// The signs.
ghost use Rattle.std.specs.Prelude.{◌≡◌, ◌<◌, length, take, MatchOption};
ghost use Rattle.luf_lex.specs.Sign.{sign_spelling, StartsWith};

use crate::Sign;

/// The longest sign that a text begins with, and its length.
pub(crate) fn sign(text: &[u8]) -> Option<(Sign, usize)>
    ensures { MatchOption result ((s : Sign) → StartsWith text.now (sign_spelling s) → ⊥)
        (λ found. (length (sign_spelling found.0) ≡ found.1) × StartsWith text.now (sign_spelling found.0) × ((s : Sign) → found.1 < length (sign_spelling s) → StartsWith text.now (sign_spelling s) → ⊥)) }
{
    match text {
        [b'.', b'.', b'.', ..] => Some((Sign::Dots, 3)),
        [b'.', b'.', ..] => Some((Sign::DotDot, 2)),
        [b'<', b'<', ..] => Some((Sign::ShiftLeft, 2)),
        [b'>', b'>', ..] => Some((Sign::ShiftRight, 2)),
        [b'/', b'/', ..] => Some((Sign::SlashSlash, 2)),
        [b'=', b'=', ..] => Some((Sign::Equal, 2)),
        [b'~', b'=', ..] => Some((Sign::NotEqual, 2)),
        [b'<', b'=', ..] => Some((Sign::LessEqual, 2)),
        [b'>', b'=', ..] => Some((Sign::GreaterEqual, 2)),
        [b':', b':', ..] => Some((Sign::DoubleColon, 2)),
        [b'.', ..] => Some((Sign::Dot, 1)),
        [b'<', ..] => Some((Sign::Less, 1)),
        [b'>', ..] => Some((Sign::Greater, 1)),
        [b'/', ..] => Some((Sign::Slash, 1)),
        [b'=', ..] => Some((Sign::Assign, 1)),
        [b'~', ..] => Some((Sign::Tilde, 1)),
        [b':', ..] => Some((Sign::Colon, 1)),
        [b'+', ..] => Some((Sign::Plus, 1)),
        [b'-', ..] => Some((Sign::Minus, 1)),
        [b'*', ..] => Some((Sign::Star, 1)),
        [b'%', ..] => Some((Sign::Percent, 1)),
        [b'^', ..] => Some((Sign::Caret, 1)),
        [b'#', ..] => Some((Sign::Hash, 1)),
        [b'&', ..] => Some((Sign::Amp, 1)),
        [b'|', ..] => Some((Sign::Bar, 1)),
        [b'(', ..] => Some((Sign::LeftParen, 1)),
        [b')', ..] => Some((Sign::RightParen, 1)),
        [b'{', ..] => Some((Sign::LeftBrace, 1)),
        [b'}', ..] => Some((Sign::RightBrace, 1)),
        [b'[', ..] => Some((Sign::LeftBracket, 1)),
        [b']', ..] => Some((Sign::RightBracket, 1)),
        [b';', ..] => Some((Sign::Semicolon, 1)),
        [b',', ..] => Some((Sign::Comma, 1)),
        _ => None,
    }
}
