//! Pairs of tokens, and whether they need a space: told after the Lua 5.4 scanner.

use luf_guard::needs_space;
use luf_lex::cut;
use std::alloc::Global;
use std::process::Abort;
use std::test::Fail;

/// Whether the two tokens of a source need a space.
fn needed(rt: &impl Abort, alloc: Global, src: &[u8]) -> Result<bool, Fail> {
    assert!(rt; src.len() < 100);
    let cut = cut(alloc, src)?;
    assert_eq!(rt; cut.tokens(), 2, "in {src:?}");
    let Some(left) = cut.spelling(src, 0) else {
        return Ok(false);
    };
    let Some(right) = cut.spelling(src, 1) else {
        return Ok(false);
    };
    Ok(needs_space(left, right))
}

#[test]
fn spaces(rt: HostRuntime) -> Result<(), Fail> {
    let table: [(&[u8], bool); 24] = [
        (b"- -", true),
        (b"[ [", true),
        (b"[ [[x]]", true),
        (b"[ [==[x]==]", true),
        (b". .", true),
        (b". ..", true),
        (b". 5", true),
        (b". .5", true),
        (b".. .5", true),
        (b".. ..", true),
        (b"= =", true),
        (b"~ ==", true),
        (b"< <=", true),
        (b"> >", true),
        (b"/ //", true),
        (b": ::", true),
        (b"1 ..", true),
        (b"1 .5", true),
        (b"1 a", true),
        (b"0xe f", true),
        (b"1e5 2", true),
        (b"a 1", true),
        (b"and not", true),
        (b"_ _", true),
    ];
    for (src, want) in table {
        assert_eq!(rt; needed(&rt, rt.alloc(), src)?, want, "at {src:?}");
    }
    Ok(())
}

#[test]
fn no_spaces(rt: HostRuntime) -> Result<(), Fail> {
    let table: [&[u8]; 24] = [
        b"- +",
        b"[ =",
        b"[ a",
        b"] ]",
        b".. 2",
        b"... .",
        b"... 5",
        b"== =",
        b"~= =",
        b"~ ~",
        b"<< <",
        b">= =",
        b"// /",
        b":: :",
        b"< >",
        b" # #",
        b"a .",
        b"a \"s\"",
        b"\"a\" \"b\"",
        b"'a' b",
        b"[[a]] b",
        b"[=[a]=] [[b]]",
        b"0x1p4 -",
        b"0xe +",
    ];
    for src in table {
        assert!(rt; !needed(&rt, rt.alloc(), src)?, "at {src:?}");
    }
    Ok(())
}
