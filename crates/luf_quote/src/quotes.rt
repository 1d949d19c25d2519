// The quotes of a short string.
ghost use Rattle.std.specs.Prelude.{◌≡◌};
ghost use Rattle.luf_quote.specs.Chosen.{chosen};

use luf_str::{Counts, Quote};

/// How the quotes of short strings are chosen.
#[derive(Clone, Copy, Debug, PartialEq, Eq)]
pub enum QuoteStyle {
    /// Double quotes, but where the string has more of them inside than of single ones.
    AutoPreferDouble,
    /// Single quotes, but where the string has more of them inside than of double ones.
    AutoPreferSingle,
    /// Double quotes.
    ForceDouble,
    /// Single quotes.
    ForceSingle,
}

/// The quotes that a style wants for a short string with so many quotes inside.
pub fn choose(style: QuoteStyle, counts: Counts) -> Quote
    ensures { result ≡ chosen style counts }
{
    match style {
        QuoteStyle::AutoPreferDouble => {
            if counts.double > counts.single {
                Quote::Single
            } else {
                Quote::Double
            }
        }
        QuoteStyle::AutoPreferSingle => {
            if counts.single > counts.double {
                Quote::Double
            } else {
                Quote::Single
            }
        }
        QuoteStyle::ForceDouble => Quote::Double,
        QuoteStyle::ForceSingle => Quote::Single,
    }
}
