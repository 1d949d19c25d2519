// The parentheses round a lone argument.
ghost use Rattle.std.specs.Prelude.{◌≡◌};
ghost use Rattle.luf_quote.specs.Parens as spec;

/// Where the parentheses round a lone argument stay.
#[derive(Clone, Copy, Debug, PartialEq, Eq)]
pub enum CallStyle {
    /// Always.
    Always,
    /// Round a table.
    NoSingleString,
    /// Round a string.
    NoSingleTable,
    /// Nowhere.
    None,
    /// Where the source has them.
    Input,
}

/// What the lone argument of a call is.
#[derive(Clone, Copy, Debug, PartialEq, Eq)]
pub enum Lone {
    /// There is none: several arguments, no argument, or one of another kind.
    None,
    /// A string.
    Str,
    /// A table.
    Table,
}

/// Whether arguments are written in parentheses; `had` says whether the source has them.
pub fn keeps_parens(style: CallStyle, lone: Lone, had: bool) -> bool
    ensures { result ≡ spec.keeps_parens style lone had }
{
    match lone {
        Lone::None => true,
        Lone::Str => match style {
            CallStyle::Always | CallStyle::NoSingleTable => true,
            CallStyle::NoSingleString | CallStyle::None => false,
            CallStyle::Input => had,
        },
        Lone::Table => match style {
            CallStyle::Always | CallStyle::NoSingleString => true,
            CallStyle::NoSingleTable | CallStyle::None => false,
            CallStyle::Input => had,
        },
    }
}
