//! Strings: their values, their quotes, and where they end, by the Lua 5.4 manual, 3.1.

ghost use Rattle.luf_lex.specs.Cut.{IsCut};
ghost use Rattle.luf_str.specs.Spelling.{IsStringSpelling};

use luf_lex::{Cut, Tok, cut};
use luf_str::{
    Counts, Front, Meaning, Quote, ShortEnd, front_of, long_end, opens_long, quotes, requote,
    short_end, value_of,
};
use std::alloc::Global;
use std::process::Abort;
use std::test::Fail;

/// The spelling of the string that a source is.
pub(crate) fn string_in<'a>(rt: &impl Abort, cut: &Cut, src: &'a [u8]) -> &'a [u8]
    requires { IsCut src.now cut.now }
    ensures { IsStringSpelling result.now }
{
    let Some(spelling) = cut.spelling(src, 0) else {
        panic!(rt; "{src:?} has no token");
    };
    if cut.is_at(0, Tok::Short) {
        return spelling;
    }
    if cut.is_at(0, Tok::Long) {
        return spelling;
    }
    panic!(rt; "{src:?} is no string")
}

/// Appends the value to what stands there already.
fn check_value(rt: &impl Abort, alloc: Global, src: &[u8], value: &[u8]) -> Result<(), Fail> {
    assert!(rt; src.len() < 1000);
    let cut = cut(alloc, src)?;
    let spelling = string_in(rt, &cut, src);
    assert!(rt; spelling.len() < 1000);
    let mut into = b">".to_vec(alloc)?;
    assert_eq!(rt; value_of(alloc, spelling, &mut into), Ok(()), "at {src:?}");
    assert_eq!(rt; &into[..1], b">".as_slice(), "at {src:?}");
    assert_eq!(rt; &into[1..], value, "at {src:?}");
    Ok(())
}

/// The quotes of a string, and its spelling in other quotes.
fn check_quotes(
    rt: &impl Abort,
    alloc: Global,
    src: &[u8],
    counts: Counts,
    in_single: &[u8],
    in_double: &[u8],
) -> Result<(), Fail> {
    assert!(rt; src.len() < 1000);
    let cut = cut(alloc, src)?;
    let spelling = string_in(rt, &cut, src);
    assert!(rt; spelling.len() < 1000);
    assert_eq!(rt; quotes(spelling), counts, "at {src:?}");
    let mut into = Vec::new(alloc);
    assert_eq!(rt; requote(alloc, spelling, Quote::Single, &mut into), Ok(()));
    assert_eq!(rt; into.as_slice(), in_single, "at {src:?}");
    into.clear();
    assert_eq!(rt; requote(alloc, spelling, Quote::Double, &mut into), Ok(()));
    assert_eq!(rt; into.as_slice(), in_double, "at {src:?}");
    Ok(())
}

#[test]
fn values(rt: HostRuntime) -> Result<(), Fail> {
    let rows: [(&[u8], &[u8]); 38] = [
        (b"''", b""),
        (b"\"it's\"", b"it's"),
        (b"'\\a\\b\\f\\n\\r\\t\\v'", b"\x07\x08\x0C\n\r\t\x0B"),
        (b"'\\\\\\\"\\''", b"\\\"'"),
        (b"'\\\n'", b"\n"),
        (b"'\\\r'", b"\n"),
        (b"'\\\r\n'", b"\n"),
        (b"'\\\n\rx'", b"\nx"),
        (b"'\\\n\\\n'", b"\n\n"),
        (b"'\\z  \n x'", b"x"),
        (b"'\\z'", b""),
        (b"'a\\z \t\x0B\x0C\r\n\rb c'", b"ab c"),
        (b"'\\x7F\\xaB'", b"\x7F\xAB"),
        (b"'\\255'", b"\xFF"),
        (b"'\\0'", b"\0"),
        (b"'\\100'", b"d"),
        (b"'\\0100'", b"\n0"),
        (b"'\\10z'", b"\nz"),
        (b"'\\u{0}'", b"\0"),
        (b"'\\u{48}'", b"H"),
        (b"'\\u{0000000048}'", b"H"),
        (b"'\\u{7F}\\u{80}'", b"\x7F\xC2\x80"),
        (b"'\\u{7FF}\\u{800}'", b"\xDF\xBF\xE0\xA0\x80"),
        (b"'\\u{20AC}'", b"\xE2\x82\xAC"),
        (b"'\\u{ffff}\\u{10000}'", b"\xEF\xBF\xBF\xF0\x90\x80\x80"),
        (b"'\\u{1FFFFF}'", b"\xF7\xBF\xBF\xBF"),
        (b"'\\u{200000}'", b"\xF8\x88\x80\x80\x80"),
        (b"'\\u{3FFFFFF}'", b"\xFB\xBF\xBF\xBF\xBF"),
        (b"'\\u{4000000}'", b"\xFC\x84\x80\x80\x80\x80"),
        (b"'\\u{7FFFFFFF}'", b"\xFD\xBF\xBF\xBF\xBF\xBF"),
        (b"[[]]", b""),
        (b"[[\na\r\nb]]", b"a\nb"),
        (b"[[\n\ra\n\nb\r]]", b"a\n\nb\n"),
        (b"[[\r\r\n]]", b"\n"),
        (b"[[a\\n]]", b"a\\n"),
        (b"[==[]=]]==]", b"]=]"),
        (b"[=[]]]=]", b"]]"),
        (b"[[']\"]]", b"']\""),
    ];
    for (spelling, value) in rows {
        check_value(&rt, rt.alloc(), spelling, value)?;
    }
    Ok(())
}

/// The text may end where an escape does, or within it.
#[test]
fn fronts(rt: HostRuntime) {
    let rows: [(&[u8], Front); 11] = [
        (b"", Front::End),
        (b"'a", Front::Quote),
        (b"\r", Front::End),
        (
            b"\"a",
            Front::Part {
                length: 1,
                meaning: Meaning::Byte(b'"'),
            },
        ),
        (b"\\", Front::LoneBackslash),
        (b"\\x4", Front::BadEscape),
        (b"\\u{1", Front::BadEscape),
        (
            b"\\1",
            Front::Part {
                length: 2,
                meaning: Meaning::Byte(1),
            },
        ),
        (
            b"\\z",
            Front::Part {
                length: 2,
                meaning: Meaning::Nothing,
            },
        ),
        (
            b"\\'",
            Front::Part {
                length: 2,
                meaning: Meaning::Byte(b'\''),
            },
        ),
        (
            b"\\u{20AC}",
            Front::Part {
                length: 8,
                meaning: Meaning::Code(0x20AC),
            },
        ),
    ];
    for (text, front) in rows {
        assert_eq!(rt; front_of(text, b'\''), front, "at {text:?}");
    }
}

#[test]
fn short_ends(rt: HostRuntime) {
    let rows: [(&[u8], ShortEnd); 17] = [
        (b"''", ShortEnd::Closed { length: 2 }),
        (b"'a\"\\'' 'b'", ShortEnd::Closed { length: 6 }),
        (b"'\\q", ShortEnd::Bad { at: 1 }),
        (b"'\\x4", ShortEnd::Bad { at: 1 }),
        (b"'a\\u{1", ShortEnd::Bad { at: 2 }),
        (b"'ab\\xg0'", ShortEnd::Bad { at: 3 }),
        (b"'\\256'", ShortEnd::Bad { at: 1 }),
        (b"'\\n\\999'", ShortEnd::Bad { at: 3 }),
        (b"'\\u{80000000}'", ShortEnd::Bad { at: 1 }),
        (b"'\\u{}'", ShortEnd::Bad { at: 1 }),
        (b"'\\u48'", ShortEnd::Bad { at: 1 }),
        (b"'\\u{4g}'", ShortEnd::Bad { at: 1 }),
        (b"'\\\n\\X41'", ShortEnd::Bad { at: 3 }),
        (b"'a\n'", ShortEnd::Open),
        (b"'\\1", ShortEnd::Open),
        (b"'\\z", ShortEnd::Open),
        (b"'a\\", ShortEnd::Open),
    ];
    for (text, end) in rows {
        assert!(rt; text.len() > 0 && text[0] == b'\'');
        assert_eq!(rt; short_end(text), end, "at {text:?}");
    }
}

#[test]
fn long_ends(rt: HostRuntime) {
    let rows: [(&[u8], Option<usize>); 5] = [
        (b"[[]]]", Some(4)),
        (b"[[\n]=]]x", Some(7)),
        (b"[=[]]=]=]", Some(7)),
        (b"[==[]=]", None),
        (b"[[", None),
    ];
    for (text, end) in rows {
        assert!(rt; opens_long(text));
        assert_eq!(rt; long_end(text), end, "at {text:?}");
    }
}

#[test]
fn quoting(rt: HostRuntime) -> Result<(), Fail> {
    let rows: [(&[u8], u32, u32, &[u8], &[u8]); 8] = [
        (b"''", 0, 0, b"''", b"\"\""),
        (
            b"'it\\'s \"q\"'",
            1,
            2,
            b"'it\\'s \"q\"'",
            b"\"it's \\\"q\\\"\"",
        ),
        (b"'\\\\\"'", 0, 1, b"'\\\\\"'", b"\"\\\\\\\"\""),
        (b"\"\\'\"", 1, 0, b"'\\''", b"\"'\""),
        (b"'\\\"'", 0, 1, b"'\"'", b"\"\\\"\""),
        (
            b"'\\x27\\39\\z \n\"'",
            0,
            1,
            b"'\\x27\\39\\z \n\"'",
            b"\"\\x27\\39\\z \n\\\"\"",
        ),
        (b"[['\"]]", 0, 0, b"[['\"]]", b"[['\"]]"),
        (b"[=[\\']=]", 0, 0, b"[=[\\']=]", b"[=[\\']=]"),
    ];
    for (spelling, single, double, in_single, in_double) in rows {
        let counts = Counts { single, double };
        check_quotes(&rt, rt.alloc(), spelling, counts, in_single, in_double)?;
    }
    Ok(())
}
