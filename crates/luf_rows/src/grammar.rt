//! Sources and what becomes of them.

use crate::sources::nested;
use luf_lex::cut;
use luf_parse::{ParseErr, parse};
use luf_tree::{Chunk, depth};
use std::alloc::Global;
use std::process::Abort;
use std::test::Fail;

fn parsed(rt: &impl Abort, alloc: Global, src: &[u8]) -> Result<Chunk, Fail> {
    assert!(rt; src.len() < 10000);
    let cut = cut(alloc, src)?;
    Ok(parse(alloc, &cut)?)
}

fn refused(rt: &impl Abort, alloc: Global, src: &[u8]) -> Result<Option<ParseErr>, Fail> {
    assert!(rt; src.len() < 10000);
    let cut = cut(alloc, src)?;
    Ok(parse(alloc, &cut).err())
}

#[test]
fn accepted(rt: HostRuntime) -> Result<(), Fail> {
    let sources: [(&[u8], u32); 26] = [
        (b"", 0),
        (b";;;", 0),
        (b"a.b:c\"x\"{}()", 2),
        (b"f\"s\" (nil) \"s\"", 1),
        (b"x = (((f{})))", 5),
        (b"a.b:c'x'{}() x=1", 2),
        (b"x = -x^-y^z", 4),
        (b"x = a..b..c", 0),
        (b"x = not a==b", 1),
        (b"x = a or b and c < d | e ~ f & g << h .. i + j * k", 0),
        (b"function o.p:m(x, ...) return self, x end", 1),
        (b"local x <const>, y <close>, z = 1, 2", 0),
        (b"goto l; ::l:: break", 0),
        (b"return", 0),
        (b"return;", 0),
        (b"return 1, 2;", 0),
        (b"do return end", 1),
        (b"if a then elseif b then return else x() end", 2),
        (
            b"for i = 1, 2 do end for i = 1, 2, 3 do end for k, v in p(), q do end",
            1,
        ),
        (b"while a do repeat local function f() end until b end", 3),
        (b"t = { 1, x = 2, [3] = 4; f() }", 2),
        (b"a, b.c, d[1] = function() end, nil, true, false", 1),
        (b"local x (f)()", 1),
        (b"x = nil (f)()", 1),
        (b"f({})", 2),
        (b"f{}", 2),
    ];
    for (source, levels) in sources.iter() {
        let chunk = parsed(&rt, rt.alloc(), source)?;
        assert_eq!(rt; depth(&chunk), *levels, "in {source:?}");
    }
    Ok(())
}

#[test]
fn refusals(rt: HostRuntime) -> Result<(), Fail> {
    let sources: [(&[u8], u32); 55] = [
        (b"x = = 1", 2),
        (b"x", 1),
        (b"(f)", 3),
        (b"f() = 1", 3),
        (b"a, f() = 1", 5),
        (b"x = 1 +", 4),
        (b"return 1 return", 2),
        (b"return return", 1),
        (b"goto 1", 1),
        (b"local x < const", 4),
        (b"for a.b in c do end", 2),
        (b"do", 1),
        (b"end", 0),
        (b"f(a,)", 4),
        (b"local", 1),
        (b"local 1", 1),
        (b"local x <", 3),
        (b"local x < 1", 3),
        (b"for", 1),
        (b"for a", 2),
        (b"for a b", 2),
        (b"for a, b =", 4),
        (b"for a, b = 1 do end", 4),
        (b"a.b:c =", 5),
        (b"a.b:c = 1", 5),
        (b"a, f() =", 5),
        (b"function", 1),
        (b"function a.b:c.d() end", 6),
        (b"::x", 2),
        (b":: 1", 1),
        (b"goto", 1),
        (b"if a", 2),
        (b"if a b", 2),
        (b"return 1 x", 2),
        (b"f(", 2),
        (b"f( =", 2),
        (b"x = {a=", 5),
        (b"x = {a= }", 5),
        (b"x = {[1]", 6),
        (b"x = {[1] 2}", 6),
        (b"a.", 2),
        (b"a. 1", 2),
        (b"a:b", 3),
        (b"a:b 1", 3),
        (b"x y", 1),
        (b"(a) =", 3),
        (b"(a) = ;", 3),
        (b"x = -", 3),
        (b"x = - ;", 3),
        (b"x = 2^", 4),
        (b"x = 2^ ;", 4),
        (b"while a", 2),
        (b"repeat x() end", 4),
        (b"function f(a,) end", 5),
        (b"local function 1", 2),
    ];
    for (source, at) in sources.iter() {
        assert_eq!(rt;
            refused(&rt, rt.alloc(), source)?,
            Some(ParseErr::Syntax { token: *at }),
            "in {source:?}"
        );
    }
    Ok(())
}

#[test]
fn levels(rt: HostRuntime) -> Result<(), Fail> {
    let deep = nested(rt.alloc(), b"return ", b"(", b"1", b")", 200)?;
    let chunk = parsed(&rt, rt.alloc(), deep.as_slice())?;
    assert_eq!(rt; depth(&chunk), 200);
    let deeper = nested(rt.alloc(), b"return ", b"(", b"1", b")", 201)?;
    assert_eq!(rt;
        refused(&rt, rt.alloc(), deeper.as_slice())?,
        Some(ParseErr::TooDeep { token: 201 })
    );
    // What comes first is told: a level too many at the last token, or before a wrong token, or a wrong token before it.
    let last = nested(rt.alloc(), b"return ", b"(", b"", b"", 201)?;
    let wrong_behind = nested(rt.alloc(), b"return ", b"(", b"= =", b"", 201)?;
    for source in [last.as_slice(), wrong_behind.as_slice()].iter() {
        assert_eq!(rt;
            refused(&rt, rt.alloc(), source)?,
            Some(ParseErr::TooDeep { token: 201 })
        );
    }
    let wrong_before = nested(rt.alloc(), b"return return ", b"(", b"1", b")", 201)?;
    assert_eq!(rt;
        refused(&rt, rt.alloc(), wrong_before.as_slice())?,
        Some(ParseErr::Syntax { token: 1 })
    );
    Ok(())
}
