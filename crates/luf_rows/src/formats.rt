//! What `format` makes of a source under options. Each text is its own text.

ghost use Rattle.luf_conf.specs.Settings.{AreInRange};

use luf_conf::Options;
use luf_quote::{CallStyle, QuoteStyle};
use luf_work::format_bytes;
use std::alloc::Global;
use std::process::Abort;
use std::test::Fail;

/// Each statement, with its separators and its guard.
pub(crate) const STATEMENTS: [(&str, &str); 18] = [
    ("", ""),
    ("local x=1;(f)(x)", "local x = 1\n;(f)(x)\n"),
    (
        "(f)();(g)() do (h)() end",
        "(f)()\n;(g)()\ndo\n\t(h)()\nend\n",
    ),
    (";;;f();;", "f()\n"),
    (
        "local x<const> =1 return x",
        "local x <const> = 1\nreturn x\n",
    ),
    (
        "local a,b<close>,c=1,nil local d",
        "local a, b <close>, c = 1, nil\nlocal d\n",
    ),
    (
        "a.b,c[1]=1,2 a.b.c[ [[d]] ]=3",
        "a.b, c[1] = 1, 2\na.b.c[ [[d]]] = 3\n",
    ),
    ("if a then b() end", "if a then\n\tb()\nend\n"),
    (
        "if a then b() elseif c then d() else e() end",
        "if a then\n\tb()\nelseif c then\n\td()\nelse\n\te()\nend\n",
    ),
    (
        "while a do b() break end repeat c() until d",
        "while a do\n\tb()\n\tbreak\nend\nrepeat\n\tc()\nuntil d\n",
    ),
    (
        "for i=1,2 do f(i) end for i=3,2,-1 do g() end",
        "for i = 1, 2 do\n\tf(i)\nend\nfor i = 3, 2, -1 do\n\tg()\nend\n",
    ),
    (
        "for k,v in pairs(t),u do h() end",
        "for k, v in pairs(t), u do\n\th()\nend\n",
    ),
    (
        "function a.b:c(...)return... end",
        "function a.b:c(...)\n\treturn ...\nend\n",
    ),
    (
        "do local function f(a,b,...)return end f() end",
        "do\n\tlocal function f(a, b, ...)\n\t\treturn\n\tend\n\tf()\nend\n",
    ),
    ("goto x ::x:: ::y::", "goto x\n::x::\n::y::\n"),
    (
        "do return(f()) end return;",
        "do\n\treturn (f())\nend\nreturn\n",
    ),
    (
        "do end while a do end repeat until b if a then elseif b then else end",
        "do end\nwhile a do end\nrepeat until b\nif a then elseif b then else end\n",
    ),
    (
        "for i=1,2 do end for k in f do end function f()end local function g(...)end x=function(a)end",
        "for i = 1, 2 do end\nfor k in f do end\nfunction f() end\nlocal function g(...) end\nx = function(a) end\n",
    ),
];

/// Operators, tables, and functions as arguments.
pub(crate) const EXPRESSIONS: [(&str, &str); 12] = [
    ("return 1 ..2", "return 1 .. 2\n"),
    (
        "x=- -x y=not not x z=-not-#y",
        "x = - -x\ny = not not x\nz = -not -#y\n",
    ),
    (
        "x=a..1 ..b y=2^-3^4 z=-x^2",
        "x = a .. 1 .. b\ny = 2 ^ -3 ^ 4\nz = -x ^ 2\n",
    ),
    (
        "x=a-b*c//d%e y=a<b==c~=d z=~a~b|c&d<<1>>2",
        "x = a - b * c // d % e\ny = a < b == c ~= d\nz = ~a ~ b | c & d << 1 >> 2\n",
    ),
    (
        "x=(a+b)*-(c) y=a and(b or not c)",
        "x = (a + b) * -(c)\ny = a and (b or not c)\n",
    ),
    (
        "x=0x1p4+3.+.5e1 y=nil z=true==false",
        "x = 0x1p4 + 3. + .5e1\ny = nil\nz = true == false\n",
    ),
    (
        "t={} u={1;2,} v={a=1,[b]=2;c,f()}",
        "t = {}\nu = { 1, 2 }\nv = { a = 1, [b] = 2, c, f() }\n",
    ),
    (
        "t={{1,{2}},function()return 1 end}",
        "t = {\n\t{ 1, { 2 } },\n\tfunction()\n\t\treturn 1\n\tend,\n}\n",
    ),
    (
        "f(1,function(a)return a end)",
        "f(1, function(a)\n\treturn a\nend)\n",
    ),
    (
        "f(function()g() end,1)",
        "f(\n\tfunction()\n\t\tg()\n\tend,\n\t1\n)\n",
    ),
    (
        "f(1,{a,b})f(function()end)f(a,b):g()",
        "f(1, { a, b })\nf(function() end)\nf(a, b):g()\n",
    ),
    (
        "x=[==[\n]]\"]==] y='\\n\\z\n  \\\n\\u{41}'",
        "x = [==[\n]]\"]==]\ny = \"\\n\\z\n  \\\n\\u{41}\"\n",
    ),
];

/// Empty lines, line ends and first lines.
pub(crate) const LINES: [(&str, &str); 11] = [
    ("\n\nx=1\n\n\n\ny=2\nz=3\n\n", "x = 1\n\ny = 2\nz = 3\n"),
    (
        "do\n\n\nx=1\n\n\n\ny=2\n\n\nend",
        "do\n\tx = 1\n\n\ty = 2\nend\n",
    ),
    (
        "if a then\n\nb()\n\nelse\n\nc()\n\nend\n\n\n\nd()",
        "if a then\n\tb()\nelse\n\tc()\nend\n\nd()\n",
    ),
    ("x=1\n\n;\n\ny=2 f(\n\na\n\n)", "x = 1\n\ny = 2\nf(a)\n"),
    ("x=1\ry=2\r\r\rz=3", "x = 1\ny = 2\n\nz = 3\n"),
    (
        "x=1\r\ny=2 --c\r\n\r\n--d\r\nz=3\r\n",
        "x = 1\ny = 2 --c\n\n--d\nz = 3\n",
    ),
    (
        "x=1\n\ry=2 --c\n\r\n\rz=[[a\r\nb]]",
        "x = 1\ny = 2 --c\n\nz = [[a\r\nb]]\n",
    ),
    ("#!/usr/bin/lua\r\n\r\nx=1", "#!/usr/bin/lua\nx = 1\n"),
    ("\u{FEFF}# a\n--b", "# a\n--b\n"),
    ("\u{FEFF}x=1", "x = 1\n"),
    ("# line", "# line\n"),
];

/// The options where no key is given.
pub(crate) const USUAL: Options = Options {
    column_width: 120,
    tabs: true,
    indent_width: 4,
    quotes: QuoteStyle::AutoPreferDouble,
    calls: CallStyle::Always,
};

/// A source has this text.
fn check(rt: &impl Abort, alloc: Global, o: &Options, source: &str, text: &str) -> Result<(), Fail>
    requires { AreInRange o.now }
{
    let mut into = Vec::new(alloc);
    let result = format_bytes(alloc, source.as_bytes(), o, &mut into);
    assert_eq!(rt; result, Ok(()), "at {source}");
    assert_eq!(rt; into.as_slice(), text.as_bytes(), "at {source}");
    Ok(())
}

/// Each source has its text, and that text has itself.
pub(crate) fn each(
    rt: &impl Abort,
    alloc: Global,
    o: &Options,
    rows: &[(&str, &str)],
) -> Result<(), Fail>
    requires { AreInRange o.now }
{
    for (source, text) in rows {
        check(rt, alloc, o, source, text)?;
        check(rt, alloc, o, text, text)?;
    }
    Ok(())
}

#[test]
fn programs(rt: HostRuntime) -> Result<(), Fail> {
    let alloc = rt.alloc();
    assert_eq!(rt; Options::usual(), USUAL);
    each(&rt, alloc, &USUAL, &STATEMENTS)?;
    each(&rt, alloc, &USUAL, &EXPRESSIONS)?;
    each(&rt, alloc, &USUAL, &LINES)
}

/// The usual options with other quotes.
fn with_quotes(quotes: QuoteStyle) -> Options
    ensures { AreInRange result }
{
    Options { quotes, ..USUAL }
}

/// Quotes of each kind inside each kind, with and without a backslash.
pub(crate) const QUOTES: &str =
    "x='' y='\"' z=\"'\" u='\\'\"' v=\"''\\\"\" a='a' b='\"\"\\'' c=\"\\\"\\'\" d='\\\\\"' e='it\\'s \"q\"' f='\\\\' g=[[']]";

/// Their text in each style.
const QUOTED: [(QuoteStyle, &str); 4] = [
    (
        QuoteStyle::AutoPreferDouble,
        "x = \"\"\ny = '\"'\nz = \"'\"\nu = \"'\\\"\"\nv = \"''\\\"\"\na = \"a\"\nb = '\"\"\\''\nc = \"\\\"'\"\nd = '\\\\\"'\ne = 'it\\'s \"q\"'\nf = \"\\\\\"\ng = [[']]\n",
    ),
    (
        QuoteStyle::AutoPreferSingle,
        "x = ''\ny = '\"'\nz = \"'\"\nu = '\\'\"'\nv = \"''\\\"\"\na = 'a'\nb = '\"\"\\''\nc = '\"\\''\nd = '\\\\\"'\ne = 'it\\'s \"q\"'\nf = '\\\\'\ng = [[']]\n",
    ),
    (
        QuoteStyle::ForceDouble,
        "x = \"\"\ny = \"\\\"\"\nz = \"'\"\nu = \"'\\\"\"\nv = \"''\\\"\"\na = \"a\"\nb = \"\\\"\\\"'\"\nc = \"\\\"'\"\nd = \"\\\\\\\"\"\ne = \"it's \\\"q\\\"\"\nf = \"\\\\\"\ng = [[']]\n",
    ),
    (
        QuoteStyle::ForceSingle,
        "x = ''\ny = '\"'\nz = '\\''\nu = '\\'\"'\nv = '\\'\\'\"'\na = 'a'\nb = '\"\"\\''\nc = '\"\\''\nd = '\\\\\"'\ne = 'it\\'s \"q\"'\nf = '\\\\'\ng = [[']]\n",
    ),
];

#[test]
fn quotes(rt: HostRuntime) -> Result<(), Fail> {
    for (quotes, text) in QUOTED {
        each(&rt, rt.alloc(), &with_quotes(quotes), &[(QUOTES, text)])?;
    }
    Ok(())
}

/// The usual options with other parentheses.
fn with_calls(calls: CallStyle) -> Options
    ensures { AreInRange result }
{
    Options { calls, ..USUAL }
}

/// Calls of each kind.
pub(crate) const CALLS: &str =
    "f({1}):g(\"x\") f\"x\" f{} f[[x]] a.b:c\"x\"{}() f((\"x\")) f(\"x\",{}) f(\"x\"..y) f(({}))";

/// Their text in each style, and comments at parentheses that are added or dropped.
const CALLED: [(CallStyle, &str, &str); 9] = [
    (
        CallStyle::Always,
        CALLS,
        "f({ 1 }):g(\"x\")\nf(\"x\")\nf({})\nf([[x]])\na.b:c(\"x\")({})()\nf((\"x\"))\nf(\"x\", {})\nf(\"x\" .. y)\nf(({}))\n",
    ),
    (
        CallStyle::Always,
        "f--[[a]]{--[[b]]1--[[c]]}--[[d]]",
        "f( --[[a]] { --[[b]] 1 --[[c]] }) --[[d]]\n",
    ),
    (
        CallStyle::NoSingleString,
        CALLS,
        "f({ 1 }):g \"x\"\nf \"x\"\nf({})\nf [[x]]\na.b:c \"x\"({})()\nf((\"x\"))\nf(\"x\", {})\nf(\"x\" .. y)\nf(({}))\n",
    ),
    (
        CallStyle::NoSingleTable,
        CALLS,
        "f { 1 }:g(\"x\")\nf(\"x\")\nf {}\nf([[x]])\na.b:c(\"x\") {}()\nf((\"x\"))\nf(\"x\", {})\nf(\"x\" .. y)\nf(({}))\n",
    ),
    (
        CallStyle::None,
        CALLS,
        "f { 1 }:g \"x\"\nf \"x\"\nf {}\nf [[x]]\na.b:c \"x\" {}()\nf((\"x\"))\nf(\"x\", {})\nf(\"x\" .. y)\nf(({}))\n",
    ),
    (
        CallStyle::None,
        "f(--[[a]]{--[[b]]1--[[c]]}--[[d]])",
        "f --[[a]] { --[[b]] 1 --[[c]] } --[[d]]\n",
    ),
    (
        CallStyle::None,
        "f(--a\n\"x\"--b\n)--c",
        "f --a\n\"x\" --b\n--c\n",
    ),
    (
        CallStyle::Input,
        CALLS,
        "f({ 1 }):g(\"x\")\nf \"x\"\nf {}\nf [[x]]\na.b:c \"x\" {}()\nf((\"x\"))\nf(\"x\", {})\nf(\"x\" .. y)\nf(({}))\n",
    ),
    (
        CallStyle::Input,
        "f--[[a]](--[[b]]\"x\"--[[c]])--[[d]]:g--[[e]]{}",
        "f( --[[a]] --[[b]] \"x\") --[[c]] --[[d]] :g --[[e]] {}\n",
    ),
];

#[test]
fn calls(rt: HostRuntime) -> Result<(), Fail> {
    for (calls, source, text) in CALLED {
        each(&rt, rt.alloc(), &with_calls(calls), &[(source, text)])?;
    }
    Ok(())
}

/// With lines of 20 columns.
pub(crate) const NARROW: [(&str, &str); 17] = [
    (
        "x={--[[c]] aaaa,bbbb,cccc}",
        "x = { --[[c]]\n\taaaa,\n\tbbbb,\n\tcccc,\n}\n",
    ),
    ("x={aaaa,bbb,c}", "x = { aaaa, bbb, c }\n"),
    ("x={aaaa,bbbb,c}", "x = {\n\taaaa,\n\tbbbb,\n\tc,\n}\n"),
    (
        "t={aaaa={bbbb={cccc=1}},dddd=f(eeee,ffff,gggg)}",
        "t = {\n\taaaa = {\n\t\tbbbb = {\n\t\t\tcccc = 1,\n\t\t},\n\t},\n\tdddd = f(\n\t\teeee,\n\t\tffff,\n\t\tgggg\n\t),\n}\n",
    ),
    (
        "return aaaa or bbbb or cccc",
        "return aaaa\n\tor bbbb\n\tor cccc\n",
    ),
    (
        "return aaaa*bbbb+cccc*dddd-eeee",
        "return aaaa * bbbb\n\t+ cccc * dddd\n\t- eeee\n",
    ),
    (
        "x=aaaa..\"bbbbbbbb\"..(cccc+dddd)",
        "x = aaaa\n\t.. \"bbbbbbbb\"\n\t.. (cccc + dddd)\n",
    ),
    // The word behind the condition counts, and breaks its last operand.
    (
        "if aaaa==bbbb and cccc==dddd then f() end",
        "if aaaa == bbbb\n\tand cccc\n\t\t== dddd then\n\tf()\nend\n",
    ),
    (
        "f(aaaa,bbbb,cccc,dddd)",
        "f(\n\taaaa,\n\tbbbb,\n\tcccc,\n\tdddd\n)\n",
    ),
    ("ffffffff(aaaa)(bbbb)", "ffffffff(aaaa)(bbbb)\n"),
    ("fffffffff(aaaa)(bbbb)", "fffffffff(aaaa)(\n\tbbbb\n)\n"),
    (
        "f(aaaa,bbbb,{cccc,dddd,eeee})",
        "f(aaaa, bbbb, {\n\tcccc,\n\tdddd,\n\teeee,\n})\n",
    ),
    (
        "f(aaaa,bbbb,cccc,function()return 1 end)",
        "f(aaaa, bbbb, cccc, function()\n\treturn 1\nend)\n",
    ),
    (
        "f{aaaa,bbbb,cccc,dddd}",
        "f({\n\taaaa,\n\tbbbb,\n\tcccc,\n\tdddd,\n})\n",
    ),
    (
        "function f(aaaa,bbbb,cccc,...)end",
        "function f(\n\taaaa,\n\tbbbb,\n\tcccc,\n\t...\n) end\n",
    ),
    ("local function f(a)end", "local function f(\n\ta\n) end\n"),
    ("x=[[a\nb]]..f(1)", "x = [[a\nb]] .. f(1)\n"),
];

/// With two spaces a level.
const SPACES: [(&str, &str); 1] = [(
    "do x={1,--c\n{2,--d\n3}} end",
    "do\n  x = {\n    1, --c\n    {\n      2, --d\n      3,\n    },\n  }\nend\n",
)];

#[test]
fn widths(rt: HostRuntime) -> Result<(), Fail> {
    let narrow = Options {
        column_width: 20,
        ..USUAL
    };
    each(&rt, rt.alloc(), &narrow, &NARROW)?;
    let spaces = Options {
        tabs: false,
        indent_width: 2,
        ..USUAL
    };
    each(&rt, rt.alloc(), &spaces, &SPACES)
}
