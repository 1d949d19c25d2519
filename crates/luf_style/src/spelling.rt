// How keywords and signs are spelled.
ghost use Rattle.std.specs.Prelude.{◌≡◌};
ghost use Rattle.luf_lex.specs.Word.{word_spelling};
ghost use Rattle.luf_lex.specs.Sign.{sign_spelling};

use luf_lex::{Sign, Word};

pub(crate) fn word_spelling(word: Word) -> &'static [u8]
    ensures { result.now ≡ word_spelling word }
{
    match word {
        Word::And => b"and",
        Word::Break => b"break",
        Word::Do => b"do",
        Word::Else => b"else",
        Word::ElseIf => b"elseif",
        Word::End => b"end",
        Word::False => b"false",
        Word::For => b"for",
        Word::Function => b"function",
        Word::Goto => b"goto",
        Word::If => b"if",
        Word::In => b"in",
        Word::Local => b"local",
        Word::Nil => b"nil",
        Word::Not => b"not",
        Word::Or => b"or",
        Word::Repeat => b"repeat",
        Word::Return => b"return",
        Word::Then => b"then",
        Word::True => b"true",
        Word::Until => b"until",
        Word::While => b"while",
    }
}

pub(crate) fn sign_spelling(sign: Sign) -> &'static [u8]
    ensures { result.now ≡ sign_spelling sign }
{
    match sign {
        Sign::Plus => b"+",
        Sign::Minus => b"-",
        Sign::Star => b"*",
        Sign::Slash => b"/",
        Sign::Percent => b"%",
        Sign::Caret => b"^",
        Sign::Hash => b"#",
        Sign::Amp => b"&",
        Sign::Tilde => b"~",
        Sign::Bar => b"|",
        Sign::ShiftLeft => b"<<",
        Sign::ShiftRight => b">>",
        Sign::SlashSlash => b"//",
        Sign::Equal => b"==",
        Sign::NotEqual => b"~=",
        Sign::LessEqual => b"<=",
        Sign::GreaterEqual => b">=",
        Sign::Less => b"<",
        Sign::Greater => b">",
        Sign::Assign => b"=",
        Sign::LeftParen => b"(",
        Sign::RightParen => b")",
        Sign::LeftBrace => b"{",
        Sign::RightBrace => b"}",
        Sign::LeftBracket => b"[",
        Sign::RightBracket => b"]",
        Sign::DoubleColon => b"::",
        Sign::Semicolon => b";",
        Sign::Colon => b":",
        Sign::Comma => b",",
        Sign::Dot => b".",
        Sign::DotDot => b"..",
        Sign::Dots => b"...",
    }
}
