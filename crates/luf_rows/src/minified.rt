//! What `minify` makes of names, separators, lone arguments and statements that need a guard.

use luf_work::minify_bytes;
use std::alloc::Global;
use std::process::Abort;
use std::test::Fail;

/// Each source with its text.
const NAMES: [(&str, &str); 24] = [
    ("local a,b=1,2 print(b)", "local a,a=1,2 print(a)"),
    // A global keeps its name wherever it is named, and a local variable does not take it there.
    (
        "local t={} function g() return a+t.x end",
        "local b={}function g()return a+b.x end",
    ),
    (
        "local x=1 return function() return a end",
        "local b=1 return function()return a end",
    ),
    ("a=1 local x=2", "a=1 local a=2"),
    ("local x=a return x", "local a=a return a"),
    // The implicit `self` and each `_ENV` keep theirs; a parameter `self` does not.
    (
        "function o:m(x) return self,x end",
        "function o:m(a)return self,a end",
    ),
    (
        "function f(self) return self end",
        "function f(a)return a end",
    ),
    ("local _ENV={} y=1 local z=y", "local _ENV={}y=1 local a=y"),
    ("for _ENV,k in f do x=k end", "for _ENV,a in f do x=a end"),
    // Names that are in use together differ, and others are the first again.
    ("local x local y", "local a local a"),
    ("local x local y f(x)", "local a local b f(a)"),
    ("local x=1 local x=x", "local a=1 local a=a"),
    (
        "do local x=1 end do local y=2 end",
        "do local a=1 end do local a=2 end",
    ),
    (
        "local x=function(p) return p end return x",
        "local a=function(a)return a end return a",
    ),
    (
        "local function f(n) return f(n) end",
        "local function a(b)return a(b)end",
    ),
    ("for i=1,i do local j=i end", "for a=1,i do local a=a end"),
    (
        "repeat local x=f() until x local y",
        "repeat local a=f()until a local a",
    ),
    // Fields and methods keep theirs.
    ("local t={t=1} t.t=t:t(t.t)", "local a={t=1}a.t=a:t(a.t)"),
    (
        "local x<const> =1 local y<close> =x return x,y",
        "local a<const> =1 local b<close> =a return a,b",
    ),
    // Labels have names of their own.
    ("::x:: do ::y:: goto x end", "::a::do::b::goto a end"),
    ("do ::x:: end ::y:: goto y", "do::a::end::b::goto b"),
    (
        "::x:: function f() ::y:: goto y end goto x",
        "::a::function f()::a::goto a end goto a",
    ),
    ("::_ENV:: ::self::", "::a::::b::"),
    ("local x goto x ::x:: f(x)", "local a goto a::a::f(a)"),
];

/// Each source with its text.
const FORMS: [(&str, &str); 23] = [
    ("local x=1;(f)(x)", "local a=1;(f)(a)"),
    ("f ( ) ; g{}", "f()g{}"),
    ("f() (g)()", "f()(g)()"),
    ("f();(g)()", "f();(g)()"),
    ("::l:: (f)()", "::a::;(f)()"),
    ("do (f)() end", "do(f)()end"),
    ("do ;;(f)() end", "do(f)()end"),
    ("do end (f)()", "do end;(f)()"),
    (
        "if x then (f)() else (g)() end",
        "if x then(f)()else(g)()end",
    ),
    ("return (f)();", "return(f)()"),
    ("t={1;2,3;}", "t={1,2,3}"),
    ("f(\"x\") f({}) f([[x]])", "f\"x\"f{}f[[x]]"),
    ("f((\"x\")) f({},1)", "f((\"x\"))f({},1)"),
    ("s=(\"x\"):rep(2)", "s=(\"x\"):rep(2)"),
    ("o:m({f(\"y\")})", "o:m{f\"y\"}"),
    ("return a- -b,x and-y", "return a- -b,x and-y"),
    ("return a .. 1 .. b", "return a..1 ..b"),
    ("a[ [[x]] ]=1", "a[ [[x]]]=1"),
    ("x = not not # y ^ - 2", "x=not not#y^-2"),
    (
        "if a then elseif b then else end",
        "if a then elseif b then else end",
    ),
    (
        "while a do break end repeat until b",
        "while a do break end repeat until b",
    ),
    (
        "function a.b:c(...) return ... end",
        "function a.b:c(...)return...end",
    ),
    (
        "for k,v in pairs(t),1 do end",
        "for a,a in pairs(t),1 do end",
    ),
];

fn each(rt: &impl Abort, alloc: Global, rows: &[(&str, &str)]) -> Result<(), Fail> {
    for (source, text) in rows {
        let mut into = Vec::new(alloc);
        let result = minify_bytes(alloc, source.as_bytes(), &mut into);
        assert_eq!(rt; result, Ok(()), "at {source}");
        assert_eq!(rt; into.as_slice(), text.as_bytes(), "at {source}");
    }
    Ok(())
}

#[test]
fn names(rt: HostRuntime) -> Result<(), Fail> {
    each(&rt, rt.alloc(), &NAMES)
}

#[test]
fn forms(rt: HostRuntime) -> Result<(), Fail> {
    each(&rt, rt.alloc(), &FORMS)
}

fn add_local(alloc: Global, n: u32, into: &mut Vec<u8>) -> Result<(), Fail> {
    into.extend_from_slice(format!(in alloc; "local v{n} ")?.as_bytes())?;
    Ok(())
}

fn add_reference(alloc: Global, n: u32, into: &mut Vec<u8>) -> Result<(), Fail> {
    into.extend_from_slice(format!(in alloc; "v{n},")?.as_bytes())?;
    Ok(())
}

/// So many local variables in use at once.
fn in_use(alloc: Global, count: u32) -> Result<Vec<u8>, Fail> {
    let mut source = Vec::new(alloc);
    for n in 0..count {
        add_local(alloc, n, &mut source)?;
    }
    source.extend_from_slice(b"return ")?;
    for n in 0..count {
        add_reference(alloc, n, &mut source)?;
    }
    source.extend_from_slice(b"0")?;
    Ok(source)
}

/// How many local variables are in use at once, and the name of the last. The names `do`, `if`, `in`, `or` are left out.
#[test]
fn many_names(rt: HostRuntime) -> Result<(), Fail> {
    let alloc = rt.alloc();
    for (count, end) in [
        (53, ",_,0"),
        (54, ",aa,0"),
        (256, ",dn,0"),
        (257, ",dp,0"),
        (3388, ",_9,0"),
        (3389, ",aaa,0"),
    ] {
        let source = in_use(alloc, count)?;
        let mut into = Vec::new(alloc);
        assert_eq!(rt; minify_bytes(alloc, &source, &mut into), Ok(()), "{count}");
        assert_eq!(rt; into.as_slice().ends_with(end.as_bytes()), true, "{count}");
    }
    Ok(())
}
