// The texts of marks.
ghost use Rattle.std.specs.Prelude.{◌≡◌, ◌↔◌, List, [], map, false, IsTrue};
ghost use Rattle.luf_guard.specs.Space.{NeedSpace, StandApart};
ghost use Rattle.luf_draft.specs.Flat.{shown};
ghost use Rattle.luf_style.specs.inner.Running.{text_of, first_flat, has_text};
ghost use Rattle.luf_style.specs.inner.Written.{IsText};

use crate::spelling::{sign_spelling, word_spelling};
use crate::written::Written;
use luf_draft::Mark;
use luf_guard::needs_space;

/// The text of a mark; none where it has none.
pub(crate) fn text_of<'a>(written: &'a Written, mark: Mark) -> &'a [u8]
    ensures { result.now ≡ text_of (shown written.now mark) }
{
    match mark {
        Mark::Token(n) => written.get(n),
        Mark::Word(word) => word_spelling(word),
        Mark::Sign(sign) => sign_spelling(sign),
        Mark::Gap(_) | Mark::Trail | Mark::Open(_) | Mark::Close => b"",
    }
}

/// Whether a mark stands for a text.
fn has_text(mark: Mark) -> bool
    ensures { result ≡ has_text mark }
{
    matches!(mark, Mark::Token(_) | Mark::Word(_) | Mark::Sign(_))
}

/// The first text of marks; none where they have none.
pub(crate) fn first_text<'a>(written: &'a Written, marks: &[Mark]) -> &'a [u8]
    ensures { result.now ≡ first_flat (map (shown written.now) marks.now) }
{
    for mark in marks {
        if has_text(*mark) {
            return text_of(written, *mark);
        }
    }
    b""
}

/// Whether two texts need a blank between them.
pub(crate) fn needs_blank(before: &[u8], after: &[u8]) -> bool
    requires before { IsText before.now }
    requires after { IsText after.now }
    ensures exact { IsTrue result ↔ NeedSpace before.now after.now }
    ensures apart { result ≡ false → StandApart before.now after.now }
{
    if before.is_empty() {
        return true;
    }
    if after.is_empty() {
        return true;
    }
    needs_space(before, after)
}
