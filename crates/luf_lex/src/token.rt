// What a piece of source is, and where it lies.
ghost use Rattle.std.specs.Prelude.{◌≡◌};
ghost use Rattle.luf_lex.specs.Note as notes;
ghost use Rattle.luf_lex.specs.Tokens as tokens;

use luf_text::Span;

/// A keyword (Lua 5.4 manual, 3.1).
#[derive(Clone, Copy, Debug, PartialEq, Eq)]
pub enum Word {
    And,
    Break,
    Do,
    Else,
    ElseIf,
    End,
    False,
    For,
    Function,
    Goto,
    If,
    In,
    Local,
    Nil,
    Not,
    Or,
    Repeat,
    Return,
    Then,
    True,
    Until,
    While,
}

/// A token that is no name, keyword, numeral or string (Lua 5.4 manual, 3.1).
#[derive(Clone, Copy, Debug, PartialEq, Eq)]
pub enum Sign {
    Plus,
    Minus,
    Star,
    Slash,
    Percent,
    Caret,
    Hash,
    Amp,
    Tilde,
    Bar,
    ShiftLeft,
    ShiftRight,
    SlashSlash,
    Equal,
    NotEqual,
    LessEqual,
    GreaterEqual,
    Less,
    Greater,
    Assign,
    LeftParen,
    RightParen,
    LeftBrace,
    RightBrace,
    LeftBracket,
    RightBracket,
    DoubleColon,
    Semicolon,
    Colon,
    Comma,
    Dot,
    DotDot,
    Dots,
}

/// A token, without its spelling.
#[derive(Clone, Copy, Debug, PartialEq, Eq)]
pub enum Tok {
    Name,
    Number,
    /// A string in quotes.
    Short,
    /// A string in long brackets.
    Long,
    Word(Word),
    Sign(Sign),
}

/// What a piece is: a token, or what may lie between two.
#[derive(Clone, Copy, Debug, PartialEq, Eq)]
pub enum Kind {
    Token(Tok),
    Comment,
    Blank,
    LineEnd,
    /// A first line that begins with `#`, without its line end.
    HashLine,
    /// The UTF-8 byte order mark.
    Mark,
}

/// A piece of a source.
#[derive(Clone, Copy, Debug, PartialEq, Eq)]
pub struct Piece {
    pub kind: Kind,
    pub span: Span,
}

impl Kind {
    /// Whether it is a token.
    pub fn is_token(self) -> bool
        ensures { result ≡ tokens.is_token self }
    {
        matches!(self, Kind::Token(_))
    }

    /// Whether it makes a line other than empty: a token or a comment.
    pub(crate) fn is_content(self) -> bool
        ensures { result ≡ notes.is_content self }
    {
        matches!(self, Kind::Token(_) | Kind::Comment)
    }

    pub(crate) fn is_blank(self) -> bool
        ensures { result ≡ notes.is_blank_kind self }
    {
        matches!(self, Kind::Blank)
    }

    pub(crate) fn is_line_end(self) -> bool
        ensures { result ≡ notes.is_line_end self }
    {
        matches!(self, Kind::LineEnd)
    }
}
