// Laws of the formatted text.
ghost use Rattle.std.specs.Prelude.{◌≡◌, ℕ, List};
ghost use Rattle.luf_style.specs.Styled.{Choices, IsFormatted};

/// A source has at most one formatted text under the same choices.
pub fn one_formatted()
    ensures { (choices : Choices) (source text other : List ℕ) → IsFormatted choices source text → IsFormatted choices source other → text ≡ other }
{}
