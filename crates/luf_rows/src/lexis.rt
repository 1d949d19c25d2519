//! Whole sources, cut. What they hold is told after the Lua 5.4 manual, 3.1, and the answers of the Lua 5.4 scanner.

use luf_lex::{Kind, LexErr, LexWhat, Note, Sign, Span, Tok, Word, cut};
use std::alloc::Global;
use std::process::Abort;
use std::test::Fail;

/// The tokens of a source, each with its spelling.
fn check_tokens(
    rt: &impl Abort,
    alloc: Global,
    src: &[u8],
    want: &[(Tok, &[u8])],
) -> Result<(), Fail> {
    assert!(rt; src.len() < 1000);
    let cut = cut(alloc, src)?;
    assert_eq!(rt; cut.tokens() as usize, want.len(), "in {src:?}");
    for (n, (tok, spelling)) in want.iter().enumerate() {
        assert_eq!(rt; cut.token(n as u32), Some(*tok), "token {n} of {src:?}");
        assert_eq!(rt;
            cut.spelling(src, n as u32),
            Some(*spelling),
            "token {n} of {src:?}"
        );
    }
    Ok(())
}

/// The pieces of a source, each by its kind and its end.
fn check_pieces(
    rt: &impl Abort,
    alloc: Global,
    src: &[u8],
    want: &[(Kind, u32)],
) -> Result<(), Fail> {
    assert!(rt; src.len() < 1000);
    let cut = cut(alloc, src)?;
    let pieces = cut.pieces(alloc)?;
    assert_eq!(rt; pieces.len(), want.len(), "in {src:?}");
    for (piece, (kind, to)) in pieces.iter().zip(want) {
        assert_eq!(rt; (piece.kind, piece.span.to), (*kind, *to), "in {src:?}");
    }
    Ok(())
}

#[test]
fn pieces(rt: HostRuntime) -> Result<(), Fail> {
    let rows: [(&[u8], &[(Kind, u32)]); 6] = [
        (
            b"\xEF\xBB\xBF#!lua\r\nx --[=[]]\n]=]\t=--1\n\r0",
            &[
                (Kind::Mark, 3),
                (Kind::HashLine, 8),
                (Kind::LineEnd, 10),
                (Kind::Token(Tok::Name), 11),
                (Kind::Blank, 12),
                (Kind::Comment, 23),
                (Kind::Blank, 24),
                (Kind::Token(Tok::Sign(Sign::Assign)), 25),
                (Kind::Comment, 28),
                (Kind::LineEnd, 30),
                (Kind::Token(Tok::Number), 31),
            ],
        ),
        (b"#", &[(Kind::HashLine, 1)]),
        (b"\xEF\xBB\xBF", &[(Kind::Mark, 3)]),
        (
            b"\n#",
            &[(Kind::LineEnd, 1), (Kind::Token(Tok::Sign(Sign::Hash)), 2)],
        ),
        (b" \t\x0B\x0C", &[(Kind::Blank, 4)]),
        (
            b"[==",
            &[
                (Kind::Token(Tok::Sign(Sign::LeftBracket)), 1),
                (Kind::Token(Tok::Sign(Sign::Equal)), 3),
            ],
        ),
    ];
    for (src, want) in rows {
        check_pieces(&rt, rt.alloc(), src, want)?;
    }
    Ok(())
}

#[test]
fn keywords(rt: HostRuntime) -> Result<(), Fail> {
    let words: [(&[u8], Word); 22] = [
        (b"and", Word::And),
        (b"break", Word::Break),
        (b"do", Word::Do),
        (b"else", Word::Else),
        (b"elseif", Word::ElseIf),
        (b"end", Word::End),
        (b"false", Word::False),
        (b"for", Word::For),
        (b"function", Word::Function),
        (b"goto", Word::Goto),
        (b"if", Word::If),
        (b"in", Word::In),
        (b"local", Word::Local),
        (b"nil", Word::Nil),
        (b"not", Word::Not),
        (b"or", Word::Or),
        (b"repeat", Word::Repeat),
        (b"return", Word::Return),
        (b"then", Word::Then),
        (b"true", Word::True),
        (b"until", Word::Until),
        (b"while", Word::While),
    ];
    for (src, word) in words {
        check_tokens(&rt, rt.alloc(), src, &[(Tok::Word(word), src)])?;
    }
    Ok(())
}

#[test]
fn tokens(rt: HostRuntime) -> Result<(), Fail> {
    let want: [(Tok, &[u8]); 8] = [
        (Tok::Word(Word::Local), b"local"),
        (Tok::Name, b"_end1"),
        (Tok::Sign(Sign::Assign), b"="),
        (Tok::Number, b"0xA.8p-1"),
        (Tok::Short, b"'\"\\'\\z \n'"),
        (Tok::Short, b"\"--\""),
        (Tok::Short, b"'\\z\r\n\n \\\r\n'"),
        (Tok::Long, b"[=[]]\r\n]=]"),
    ];
    let src = b"local _end1=0xA.8p-1'\"\\'\\z \n'\"--\"'\\z\r\n\n \\\r\n'[=[]]\r\n]=]--";
    check_tokens(&rt, rt.alloc(), src, want.as_slice())
}

#[test]
fn longest_signs(rt: HostRuntime) -> Result<(), Fail> {
    let rows: [(&[u8], Sign); 10] = [
        (b"...", Sign::Dots),
        (b"..", Sign::DotDot),
        (b"::", Sign::DoubleColon),
        (b"~=", Sign::NotEqual),
        (b"//", Sign::SlashSlash),
        (b"<<", Sign::ShiftLeft),
        (b">=", Sign::GreaterEqual),
        (b"~", Sign::Tilde),
        (b"-", Sign::Minus),
        (b"]", Sign::RightBracket),
    ];
    for (src, sign) in rows {
        check_tokens(&rt, rt.alloc(), src, &[(Tok::Sign(sign), src)])?;
    }
    Ok(())
}

#[test]
fn near_tokens(rt: HostRuntime) -> Result<(), Fail> {
    check_tokens(
        &rt,
        rt.alloc(),
        b"a.b",
        &[
            (Tok::Name, b"a"),
            (Tok::Sign(Sign::Dot), b"."),
            (Tok::Name, b"b"),
        ],
    )?;
    check_tokens(
        &rt,
        rt.alloc(),
        b"1 ..2",
        &[
            (Tok::Number, b"1"),
            (Tok::Sign(Sign::DotDot), b".."),
            (Tok::Number, b"2"),
        ],
    )?;
    check_tokens(
        &rt,
        rt.alloc(),
        b"[=x--[=x\n5",
        &[
            (Tok::Sign(Sign::LeftBracket), b"["),
            (Tok::Sign(Sign::Assign), b"="),
            (Tok::Name, b"x"),
            (Tok::Number, b"5"),
        ],
    )
}

#[test]
fn faults(rt: HostRuntime) {
    let rows: [(&[u8], u32, LexWhat); 20] = [
        (b"return 3..2", 7, LexWhat::BadNumeral),
        (b"x=0x", 2, LexWhat::BadNumeral),
        (b"1e+", 0, LexWhat::BadNumeral),
        (b"3x", 0, LexWhat::BadNumeral),
        (b"\n\"a\\q\"", 1, LexWhat::BadEscape),
        (b"'\\300'", 0, LexWhat::BadEscape),
        (b" \"abc", 1, LexWhat::OpenString),
        (b"'a\n'", 0, LexWhat::OpenString),
        (b"'a\\", 0, LexWhat::OpenString),
        (b"'\\z x\n'", 0, LexWhat::OpenString),
        (b"'\\\r\n\n'", 0, LexWhat::OpenString),
        (b"'\\q\n'", 0, LexWhat::BadEscape),
        (b"'\n\\q'", 0, LexWhat::OpenString),
        (b"x[[x]", 1, LexWhat::OpenLong),
        (b"[=[x]]", 0, LexWhat::OpenLong),
        (b"--\n--[[x", 3, LexWhat::OpenLong),
        (b"x = @", 4, LexWhat::NoToken),
        (b"x\0", 1, LexWhat::NoToken),
        (b"\n!=", 1, LexWhat::NoToken),
        (b"x\xEF\xBB\xBF", 1, LexWhat::NoToken),
    ];
    for (src, at, what) in rows {
        let error = cut(rt.alloc(), src).err();
        assert_eq!(rt; error, Some(LexErr::Bad { at, what }), "in {src:?}");
    }
}

/// A comment after a `#` line, one after an empty line, and one between two tokens of a line.
#[test]
fn notes(rt: HostRuntime) -> Result<(), Fail> {
    let cut = cut(rt.alloc(), b"#!lua\n--a\n\r\r \n--b\nx --[[\n]] y\n ")?;
    assert_eq!(rt; cut.tokens(), 2);
    let first = Note {
        span: Span { from: 6, to: 9 },
        own_line: true,
        line_after: true,
        blank_before: false,
    };
    let second = Note {
        span: Span { from: 14, to: 17 },
        own_line: true,
        line_after: true,
        blank_before: true,
    };
    assert_eq!(rt; cut.lead(0), [first, second].as_slice());
    let inner = Note {
        span: Span { from: 20, to: 27 },
        own_line: false,
        line_after: false,
        blank_before: false,
    };
    assert_eq!(rt; cut.lead(1), [inner].as_slice());
    assert!(rt; cut.lead(2).is_empty());
    assert_eq!(rt;
        (cut.blank(0), cut.blank(1), cut.blank(2)),
        (false, false, false)
    );
    Ok(())
}

/// An empty line before a token may hold blanks, and stands also after a `#` line and at the end.
#[test]
fn empty_lines(rt: HostRuntime) -> Result<(), Fail> {
    let rows: [(&[u8], bool, bool); 5] = [
        (b"#\n\nx\n", true, false),
        (b"\nx\r\n", false, false),
        (b"\n\nx\r\n \r\n", true, true),
        (b"--a\n \nx--b\n\n--c", true, false),
        (b"x\n\r\n", false, true),
    ];
    for (src, before, after) in rows {
        let cut = cut(rt.alloc(), src)?;
        assert_eq!(rt; cut.tokens(), 1, "in {src:?}");
        assert_eq!(rt; (cut.blank(0), cut.blank(1)), (before, after), "in {src:?}");
    }
    Ok(())
}
