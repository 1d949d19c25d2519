//! Sources and what `minify` makes of them.

use crate::sources::{nested, repeated};
use luf_lex::LexWhat;
use luf_text::Place;
use luf_work::{Refusal, minify_bytes};
use std::alloc::Global;
use std::test::Fail;

/// Each source with its text, which stands behind what was there.
#[test]
fn minifies(rt: HostRuntime) -> Result<(), Fail> {
    let alloc = rt.alloc();
    let table: [(&[u8], &[u8]); 14] = [
        (b"", b"> "),
        (b"-- nothing\n", b"> "),
        (b"local  x = 1 -- c\nreturn x", b"> local a=1 return a"),
        (b"f ( ) ; g{}", b"> f()g{}"),
        (b"return - -x", b"> return- -x"),
        (b"return 1 ..2", b"> return 1 ..2"),
        (b"return a .. .5 .. b", b"> return a.. .5 ..b"),
        (b"local x <const> = 1", b"> local a<const> =1"),
        (b"a[ [[x]] ]=1", b"> a[ [[x]]]=1"),
        (b" x = # y", b"> x=#y"),
        (
            b"#!/usr/bin/lua\nprint \"x\"",
            b"> #!/usr/bin/lua\nprint\"x\"",
        ),
        (b"# line", b"> # line\n"),
        (b"\xEF\xBB\xBFreturn 1", b"> return 1"),
        (b"\xEF\xBB\xBF#\r\n\r\nreturn 1", b"> #\nreturn 1"),
    ];
    for (source, text) in table {
        let mut into = b"> ".to_vec(alloc)?;
        let result = minify_bytes(alloc, source, &mut into);
        assert_eq!(rt; result, Ok(()), "at {source:?}");
        assert_eq!(rt; into.as_slice(), text, "at {source:?}");
    }
    Ok(())
}

fn lexical(line: u32, column: u32, what: LexWhat) -> Refusal {
    Refusal::Lexical(Place { line, column }, what)
}

fn syntax(line: u32, column: u32) -> Refusal {
    Refusal::Syntax(Place { line, column })
}

/// Each source with its refusal, which leaves what was there alone.
#[test]
fn refuses(rt: HostRuntime) -> Result<(), Fail> {
    let alloc = rt.alloc();
    let table: [(&[u8], Refusal); 10] = [
        (b"@", lexical(1, 1, LexWhat::NoToken)),
        (b"return 3..2", lexical(1, 8, LexWhat::BadNumeral)),
        (b"x = \"a", lexical(1, 5, LexWhat::OpenString)),
        (b"f()\r\n [[", lexical(2, 2, LexWhat::OpenLong)),
        // A lexical fault is told before a token that no tree has.
        (b"x = = @", lexical(1, 7, LexWhat::NoToken)),
        (b"x = = 1", syntax(1, 5)),
        (b"x\n", syntax(2, 1)),
        (b" #", syntax(1, 2)),
        (b"# line\n  end", syntax(2, 3)),
        (b"local x = 1\nreturn\nx = 2", syntax(3, 3)),
    ];
    for (source, refusal) in table {
        let mut into = b"> ".to_vec(alloc)?;
        let result = minify_bytes(alloc, source, &mut into);
        assert_eq!(rt; result, Err(refusal), "at {source:?}");
        assert_eq!(rt; into.as_slice(), b"> ".as_slice(), "at {source:?}");
    }
    Ok(())
}

/// A parenthesis enters a level.
#[test]
fn levels(rt: HostRuntime) -> Result<(), Fail> {
    let alloc = rt.alloc();
    for (count, result) in [
        (200, Err(syntax(1, 208))),
        (
            201,
            Err(Refusal::TooDeep(Place {
                line: 1,
                column: 208,
            })),
        ),
    ] {
        let source = nested(alloc, b"return ", b"(", b"", b"", count)?;
        let mut into = b"> ".to_vec(alloc)?;
        assert_eq!(rt; minify_bytes(alloc, &source, &mut into), result, "{count}");
        assert_eq!(rt; into.as_slice(), b"> ".as_slice(), "{count}");
    }
    Ok(())
}

/// The limits of a source and of its text, which here has one byte more: the end of its `#` line.
#[test]
fn limits(rt: HostRuntime) -> Result<(), Fail> {
    let alloc = rt.alloc();
    for (count, result, len) in [
        (4194302, Ok(()), 4194306),
        (4194303, Err(Refusal::ResultTooLarge), 2),
        (4194304, Err(Refusal::TooLarge), 2),
    ] {
        let source = repeated(alloc, b"#", b'a', count)?;
        let mut into = b"> ".to_vec(alloc)?;
        assert_eq!(rt; minify_bytes(alloc, &source, &mut into), result, "{count}");
        assert_eq!(rt; into.len(), len, "{count}");
    }
    Ok(())
}

/// Of all shapes these take the most stack for a level: an operand of each precedence before each parenthesis, and
/// functions in arguments. Each is its own text.
#[test]
fn deepest(rt: HostRuntime) -> Result<(), Fail> {
    let alloc = rt.alloc();
    let chain = b"1 or 1 and 1<1|1~1&1<<1 ..1+1*(";
    let sources = [
        nested(alloc, b"return ", chain, b"1", b")", 200)?,
        nested(alloc, b"", b"f(function()", b"", b"end)", 100)?,
    ];
    for source in &sources {
        let mut into = Vec::new(alloc);
        assert_eq!(rt; minify_bytes(alloc, source, &mut into), Ok(()));
        assert_eq!(rt; into.as_slice(), source.as_slice());
    }
    Ok(())
}
