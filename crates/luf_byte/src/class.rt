//! Classes of bytes.

ghost use Rattle.std.specs.Prelude.{◌≡◌, ◌<◌, IsTrue};
ghost use Rattle.std.specs.Char as char;
ghost use Rattle.luf_byte.specs.Class as class;

/// A decimal digit.
pub fn is_digit(b: u8) -> bool
    ensures { result ≡ class.is_digit b }
{
    b.is_ascii_digit()
}

/// A hexadecimal digit.
pub fn is_hex_digit(b: u8) -> bool
    ensures { result ≡ class.is_hex_digit b }
{
    b.is_ascii_hexdigit()
}

/// An ASCII letter or `_`.
pub fn is_letter(b: u8) -> bool
    ensures { result ≡ class.is_letter b }
{
    matches!(b, b'a'..=b'z' | b'A'..=b'Z' | b'_')
}

/// A letter, a digit or `_`: what a name goes on with.
pub fn is_word_byte(b: u8) -> bool
    ensures { result ≡ class.is_word_byte b }
{
    is_letter(b) || is_digit(b)
}

/// Space, TAB, VT or FF.
pub fn is_blank(b: u8) -> bool
    ensures { result ≡ class.is_blank b }
{
    matches!(b, b' ' | b'\t' | b'\x0B' | b'\x0C')
}

/// LF or CR.
pub fn is_line_byte(b: u8) -> bool
    ensures { result ≡ class.is_line_byte b }
{
    matches!(b, b'\n' | b'\r')
}

/// A blank or a byte of a line end.
pub fn is_whitespace(b: u8) -> bool
    ensures { result ≡ class.is_whitespace b }
{
    is_blank(b) || is_line_byte(b)
}

/// What a hexadecimal digit is worth, which for a decimal one is the same.
pub fn digit_value(b: u8) -> u8
    requires { IsTrue (class.is_hex_digit b) }
    ensures value { result ≡ char.digit_value b }
    ensures below { result < 16 }
{
    match b {
        b'0'..=b'9' => b - b'0',
        b'A'..=b'F' => b - b'A' + 10,
        _ => b - b'a' + 10,
    }
}
