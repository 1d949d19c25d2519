//! Sources that the rules of names and jumps refuse, and sources that they do not.

use luf_scope::ScopeWhat;
use luf_text::Place;
use luf_work::{Refusal, check_bytes, minify_bytes};
use std::alloc::Global;
use std::process::Abort;
use std::test::Fail;

/// Each source with the column and the word of its first fault. They have one line.
const FAULTS: [(&str, u32, ScopeWhat); 20] = [
    ("local x <foo> = 1", 10, ScopeWhat::UnknownAttribute),
    ("local a<close>,b<close> =1,2", 18, ScopeWhat::TwoClose),
    ("local x<const> =1 x=2", 19, ScopeWhat::ConstAssign),
    (
        "local x<const> =1 function f() x=2 end",
        32,
        ScopeWhat::ConstAssign,
    ),
    (
        "local x<const> =1 function x() end",
        28,
        ScopeWhat::ConstAssign,
    ),
    ("local x<close> =1 a,x,b=1", 21, ScopeWhat::ConstAssign),
    ("function f() return ... end", 21, ScopeWhat::VarargOutside),
    (
        "local function f(...) return function() return ... end end",
        48,
        ScopeWhat::VarargOutside,
    ),
    ("::a:: do ::a:: end", 12, ScopeWhat::LabelTwice),
    ("::a:: ::a::", 9, ScopeWhat::LabelTwice),
    ("goto l do ::l:: end", 1, ScopeWhat::NoLabel),
    ("function f() goto l end ::l::", 14, ScopeWhat::NoLabel),
    ("goto e local x<const> =1 x=2", 1, ScopeWhat::NoLabel),
    (
        "do goto l local x ::l:: x=1 end",
        4,
        ScopeWhat::JumpIntoScope,
    ),
    (
        "do goto a local x ::a:: x=1 ::a:: end",
        4,
        ScopeWhat::JumpIntoScope,
    ),
    (
        "repeat goto c local x ::c:: until x",
        8,
        ScopeWhat::JumpIntoScope,
    ),
    ("break", 1, ScopeWhat::BreakOutside),
    (
        "while a do function f() break end end",
        25,
        ScopeWhat::BreakOutside,
    ),
    ("repeat until a break", 16, ScopeWhat::BreakOutside),
    ("break local x<foo> =1", 1, ScopeWhat::BreakOutside),
];

const SOUND: [&str; 17] = [
    "do ::a:: end ::a::",
    "do goto l local x ::l:: end",
    "do goto l local x ::l:: ; ::m:: end",
    "::a:: goto a",
    "do ::a:: end do ::a:: end",
    "function f() ::a:: end ::a::",
    "while a do if b then break end end",
    "repeat local x break until x",
    "for i=i,i do i=1 end",
    "local const<const> =1 local close=const",
    "local function f() return f end f=1",
    "local _ENV={} x=1",
    "return ...",
    "function f(...) return ... end",
    "do goto l end ::l::",
    "local x<const> =1 local x=2 x=3",
    "for i=1,2 do goto c local x ::c:: end",
];

/// What `check` and `minify` answer, which is the same.
fn answer(rt: &impl Abort, alloc: Global, source: &str) -> Result<Result<(), Refusal>, Fail> {
    let mut text = Vec::new(alloc);
    let minified = minify_bytes(alloc, source.as_bytes(), &mut text);
    let checked = check_bytes(alloc, source.as_bytes());
    assert_eq!(rt; checked, minified, "at {source}");
    Ok(checked)
}

#[test]
fn faults(rt: HostRuntime) -> Result<(), Fail> {
    for (source, column, what) in FAULTS {
        let refusal = Refusal::Scope(Place { line: 1, column }, what);
        let answer = answer(&rt, rt.alloc(), source)?;
        assert_eq!(rt; answer, Err(refusal), "at {source}");
    }
    Ok(())
}

#[test]
fn no_faults(rt: HostRuntime) -> Result<(), Fail> {
    for source in SOUND {
        let answer = answer(&rt, rt.alloc(), source)?;
        assert_eq!(rt; answer, Ok(()), "at {source}");
    }
    Ok(())
}
