// The keys of a file of options.
ghost use Rattle.std.specs.Prelude.{◌≡◌};
ghost use Rattle.luf_conf.specs.inner.Named.{key_named};

/// A key that a file of options may have.
#[derive(Clone, Copy, Debug, PartialEq, Eq)]
pub enum Key {
    /// The columns of a line.
    ColumnWidth,
    /// Tabs or spaces.
    IndentType,
    /// The columns of a level of indentation.
    IndentWidth,
    /// The quotes of short strings.
    QuoteStyle,
    /// The parentheses round a lone argument.
    CallParentheses,
    /// The line ends that are written.
    LineEndings,
    /// Whether a simple statement may stay on one line.
    CollapseSimpleStatement,
}

/// The key of a name.
pub(crate) fn key_of(name: &[u8]) -> Option<Key>
    ensures { result ≡ key_named name.now }
{
    if name == b"column_width".as_slice() {
        Some(Key::ColumnWidth)
    } else if name == b"indent_type".as_slice() {
        Some(Key::IndentType)
    } else if name == b"indent_width".as_slice() {
        Some(Key::IndentWidth)
    } else if name == b"quote_style".as_slice() {
        Some(Key::QuoteStyle)
    } else if name == b"call_parentheses".as_slice() {
        Some(Key::CallParentheses)
    } else if name == b"line_endings".as_slice() {
        Some(Key::LineEndings)
    } else if name == b"collapse_simple_statement".as_slice() {
        Some(Key::CollapseSimpleStatement)
    } else {
        None
    }
}
