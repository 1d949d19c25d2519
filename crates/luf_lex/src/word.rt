// The keywords.
ghost use Rattle.std.specs.Prelude.{◌≡◌, MatchOption};
ghost use Rattle.luf_lex.specs.Word.{word_spelling};

use crate::Word;

/// The keyword that is spelled so, if it is one.
pub(crate) fn keyword(spelling: &[u8]) -> Option<Word>
    ensures { MatchOption result ((w : Word) → word_spelling w ≡ spelling.now → ⊥) (λ w. word_spelling w ≡ spelling.now) }
{
    match spelling {
        b"and" => Some(Word::And),
        b"break" => Some(Word::Break),
        b"do" => Some(Word::Do),
        b"else" => Some(Word::Else),
        b"elseif" => Some(Word::ElseIf),
        b"end" => Some(Word::End),
        b"false" => Some(Word::False),
        b"for" => Some(Word::For),
        b"function" => Some(Word::Function),
        b"goto" => Some(Word::Goto),
        b"if" => Some(Word::If),
        b"in" => Some(Word::In),
        b"local" => Some(Word::Local),
        b"nil" => Some(Word::Nil),
        b"not" => Some(Word::Not),
        b"or" => Some(Word::Or),
        b"repeat" => Some(Word::Repeat),
        b"return" => Some(Word::Return),
        b"then" => Some(Word::Then),
        b"true" => Some(Word::True),
        b"until" => Some(Word::Until),
        b"while" => Some(Word::While),
        _ => None,
    }
}
