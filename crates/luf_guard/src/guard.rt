// The `;` before a statement.
ghost use Rattle.std.specs.Prelude.{◌↔◌, IsTrue};
ghost use Rattle.luf_guard.specs.Guard.{NeedsGuard};

use luf_lex::{Sign, Tok};

/// Whether a statement needs a `;` before it: it starts with `(` and is not the first of its block.
pub fn needs_guard(first: bool, starts: Tok) -> bool
    ensures { IsTrue result ↔ NeedsGuard first starts }
{
    !first && matches!(starts, Tok::Sign(Sign::LeftParen))
}
