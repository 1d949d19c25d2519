//! Each call that takes memory, once more where it was refused. With ample memory none is refused. `bench/allocations.py`
//! runs these tests with each of their allocations refused in turn: the call that is refused says so, what was lent to it
//! for writing is as before, and what it answers the second time is right. Then the test ends with the name of that call.

ghost use Rattle.std.specs.Prelude.{◌≡◌, ◌≤◌, ◌<◌, ◌^◌, length, IfOk};
ghost use Rattle.luf_lex.specs.Cut.{IsCut};
ghost use Rattle.luf_lex.specs.Tokens.{toks_of};
ghost use Rattle.luf_proto.specs.Chunk.{Fits};
ghost use Rattle.luf_proto.specs.FunctionOf.{function_of};
ghost use Rattle.luf_tree.specs.Grammar.{IsChunk};

use crate::strings::string_in;
use luf_chunk::write_chunk;
use luf_conf::{ConfErr, Options, options};
use luf_doc::{DocTable, Ledger, Page, Steps};
use luf_draft::marks;
use luf_gaps::gaps;
use luf_goto::labels;
use luf_interf::{Names, names};
use luf_io::{Files, MemFiles, MemSink, MemSource, ReadErr, read_all, write_all};
use luf_lex::{Cut, cut};
use luf_list::list;
use luf_min::minify;
use luf_parse::parse;
use luf_proto::{Const, Proto, Upval};
use luf_quote::{CallStyle, QuoteStyle};
use luf_scope::{occurrences, outline, resolve};
use luf_str::{Quote, requote, value_of};
use luf_style::{lay_table, style};
use luf_text::Bytes;
use luf_tree::Chunk;
use luf_undump::read_chunk;
use luf_work::{check_bytes, format_bytes, list_bytes, minify_bytes};
use sqlite_items::Items;
use std::alloc::{AllocError, Global};
use std::collections::BTreeMap;
use std::marker::Brand;
use std::process::Abort;
use std::sync::ledger::Blank;
use std::test::Fail;

/// The call that was refused memory, if one was.
#[derive(Drop)]
struct Refused {
    call: &'static str,
}

impl Refused {
    fn none() -> Refused {
        Refused { call: "" }
    }

    fn by(&mut self, call: &'static str) {
        self.call = call;
    }

    /// The end of a test.
    fn tell(&self, rt: &impl Abort) {
        assert!(rt; self.call.len() == 0, "no memory: {}", self.call);
    }
}

/// What a call answers, the second time if it has no answer the first time.
macro_rules! again {
    ($refused:ident, $name:literal, $call:expr) => {
        match $call {
            Ok(told) => told,
            Err(_) => {
                $refused.by($name);
                $call?
            }
        }
    };
}

/// The same of a call that appends to what has two bytes, and leaves these alone.
macro_rules! again_into {
    ($rt:ident, $refused:ident, $name:literal, $into:ident, $call:expr) => {
        if $call.is_err() {
            $refused.by($name);
            assert_eq!($rt; $into.as_slice(), b"> ".as_slice(), $name);
            $call?;
        }
    };
}

/// A program with each construct.
const SOURCE: &str = "-- first
local a <const>, b <close>, c = 'x', nil
local function f(x, ...)
  if x then return ... elseif b then goto out else f{1, k = 2; [3] = f'y'} end --[[in]]
  for i = 1, 2, 3 do break end
  for k, v in f() do k.v:m(v)[k] = -x ^ 2 .. \"a'b\" end
  while not c do repeat local d = function() return c, a end until d end
  ::out::
end
function f.g:h() a1, f.x = (f()), #c end
do return f(f, c) end
";

const MINIFIED: &str =
    "local a<const>,b<close>,c='x',nil local function d(e,...)if e then return...elseif b then goto a else d{1,k=2,[3]=d'y'}end for a=1,2,3 do break end for a,b in d()do a.v:m(b)[a]=-e^2 ..\"a'b\"end while not c do repeat local a=function()return c,a end until a end::a::end function d.g:h()a1,d.x=(d()),#c end do return d(d,c)end";

const FORMATTED: &str = "\
    -- first\n\
    local a <const>, b <close>, c = \"x\", nil\n\
    local function f(\n\
    \tx,\n\
    \t...\n\
    )\n\
    \tif x then\n\
    \t\treturn ...\n\
    \telseif b then\n\
    \t\tgoto out\n\
    \telse\n\
    \t\tf({\n\
    \t\t\t1,\n\
    \t\t\tk = 2,\n\
    \t\t\t[3] = f(\"y\"),\n\
    \t\t})\n\
    \tend --[[in]]\n\
    \tfor i = 1, 2, 3 do\n\
    \t\tbreak\n\
    \tend\n\
    \tfor k, v in f() do\n\
    \t\tk.v:m(\n\
    \t\t\tv\n\
    \t\t)[k] = -x ^ 2\n\
    \t\t\t.. \"a'b\"\n\
    \tend\n\
    \twhile not c do\n\
    \t\trepeat\n\
    \t\t\tlocal d = function()\n\
    \t\t\t\treturn c, a\n\
    \t\t\tend\n\
    \t\tuntil d\n\
    \tend\n\
    \t::out::\n\
    end\n\
    function f.g:h()\n\
    \ta1, f.x = (f()), #c\n\
    end\n\
    do\n\
    \treturn f(f, c)\n\
    end\n\
    ";

/// The options under which it is formatted: lines are broken.
const NARROW: Options = Options {
    column_width: 20,
    tabs: true,
    indent_width: 4,
    quotes: QuoteStyle::AutoPreferDouble,
    calls: CallStyle::Always,
};

#[derive(Drop)]
struct Source {
    pieces: Cut,
    chunk: Chunk,
}

/// The pieces of a source and its tree.
fn read(alloc: Global, src: &[u8], refused: &mut Refused) -> Result<Source, Fail>
    requires { length src.now ≤ 16777216 }
    ensures cut { IfOk result (λ s. IsCut src.now s.pieces) }
    ensures tree { IfOk result (λ s. IsChunk (toks_of s.pieces) s.chunk) }
{
    let pieces = again!(refused, "cut", cut(alloc, src));
    let chunk = again!(refused, "parse", parse(alloc, &pieces));
    Ok(Source { pieces, chunk })
}

#[test]
fn names_read(rt: HostRuntime) -> Result<(), Fail> {
    let alloc = rt.alloc();
    let src = SOURCE.as_bytes();
    assert!(rt; src.len() < 10000);
    let mut refused = Refused::none();
    let source = read(alloc, src, &mut refused)?;
    let said = again!(refused, "occurrences", occurrences(alloc, &source.chunk));
    assert_eq!(rt; said.len(), 48);
    let outlined = again!(refused, "outline", outline(alloc, &source.chunk));
    assert_eq!(rt; outlined.len(), 21);
    refused.tell(&rt);
    Ok(())
}

/// The least names, by what names and jumps are.
fn least_names(
    alloc: Global,
    src: &[u8],
    source: &Source,
    refused: &mut Refused,
) -> Result<Names, Fail>
    requires cut { IsCut src.now source.now.pieces }
    requires tree { IsChunk (toks_of source.now.pieces) source.now.chunk }
{
    let Source { pieces, chunk } = source;
    let links = again!(refused, "resolve", resolve(alloc, src, pieces, chunk));
    let jumps = again!(refused, "labels", labels(alloc, src, pieces, chunk));
    let least = again!(
        refused,
        "names",
        names(alloc, src, pieces, chunk, &links, &jumps)
    );
    Ok(least)
}

#[test]
fn names_and_text(rt: HostRuntime) -> Result<(), Fail> {
    let alloc = rt.alloc();
    let src = SOURCE.as_bytes();
    assert!(rt; src.len() < 10000);
    let mut refused = Refused::none();
    let source = read(alloc, src, &mut refused)?;
    let least = least_names(alloc, src, &source, &mut refused)?;
    let mut into = again!(refused, "to_vec", b"> ".to_vec(alloc));
    again_into!(
        rt,
        refused,
        "minify",
        into,
        minify(alloc, src, &source.pieces, &source.chunk, &least, &mut into)
    );
    assert_eq!(rt; &into[2..], MINIFIED.as_bytes());
    refused.tell(&rt);
    Ok(())
}

/// The table of the document of a source. A table takes its document, so the second time there is a new one.
fn table(
    alloc: Global,
    src: &[u8],
    source: &Source,
    refused: &mut Refused,
) -> Result<DocTable, Fail>
    requires cut { IsCut src.now source.now.pieces }
    requires tree { IsChunk (toks_of source.now.pieces) source.now.chunk }
{
    let document = again!(
        refused,
        "style",
        style(alloc, src, &source.pieces, &source.chunk, &NARROW)
    );
    match DocTable::of(alloc, document) {
        Ok(table) => Ok(table),
        Err(_) => {
            refused.by("DocTable::of");
            let document = style(alloc, src, &source.pieces, &source.chunk, &NARROW)?;
            Ok(DocTable::of(alloc, document)?)
        }
    }
}

/// The layout of the document of `SOURCE`, which is `FORMATTED`. The steps are counted by a ledger of their own.
fn lay<L: Ledger>(
    rt: &impl Abort,
    alloc: Global,
    table: &DocTable,
    refused: &mut Refused,
    blank: Blank,
) -> Result<(), Fail>
    requires name { blank.name ≡ L.name }
    requires parts { blank.parts ≡ L.parts }
    requires some { 0 < blank.parts }
{
    let page = Page {
        width: 20,
        tabs: true,
        unit: 4,
    };
    let mut into = again!(refused, "to_vec", b"> ".to_vec(alloc));
    let mut steps = Steps::<L>::new(blank);
    again_into!(
        rt,
        refused,
        "lay_table",
        into,
        lay_table(alloc, table, &page, &mut into, &mut steps)
    );
    assert_eq!(rt; &into[2..], FORMATTED.as_bytes());
    Ok(())
}

/// The marks and the gaps of a program, its document, the table of that, and its layout.
#[test]
fn layout(rt: HostRuntime) -> Result<(), Fail> {
    let alloc = rt.alloc();
    let src = SOURCE.as_bytes();
    assert!(rt; src.len() < 10000);
    let mut refused = Refused::none();
    let source = read(alloc, src, &mut refused)?;
    let found = again!(
        refused,
        "marks",
        marks(alloc, &source.pieces, &source.chunk, CallStyle::Always)
    );
    assert_eq!(rt; found.len(), 440);
    let left = again!(
        refused,
        "gaps",
        gaps(alloc, src, &source.pieces, &source.chunk)
    );
    assert_eq!(rt; left.len(), 144);
    let rows = table(alloc, src, &source, &mut refused)?;
    lay::<Brand>(&rt, alloc, &rows, &mut refused, Blank::new(1))?;
    refused.tell(&rt);
    Ok(())
}

/// The same program behind a `#` line.
fn program(alloc: Global) -> Result<Vec<u8>, AllocError> {
    let mut source = b"#!lua\n".to_vec(alloc)?;
    source.extend_from_slice(SOURCE.as_bytes())?;
    Ok(source)
}

/// What a job appended is the `#` line and a text.
fn has_text(rt: &impl Abort, into: &[u8], text: &str) {
    assert!(rt; into.len() >= 8);
    assert_eq!(rt; &into[..8], b"> #!lua\n".as_slice());
    assert_eq!(rt; &into[8..], text.as_bytes());
}

#[test]
fn checked_and_minified(rt: HostRuntime) -> Result<(), Fail> {
    let alloc = rt.alloc();
    let mut refused = Refused::none();
    let source = again!(refused, "to_vec", program(alloc));
    again!(refused, "check_bytes", check_bytes(alloc, &source));
    let mut into = again!(refused, "to_vec", b"> ".to_vec(alloc));
    again_into!(
        rt,
        refused,
        "minify_bytes",
        into,
        minify_bytes(alloc, &source, &mut into)
    );
    has_text(&rt, &into, MINIFIED);
    refused.tell(&rt);
    Ok(())
}

#[test]
fn formatted(rt: HostRuntime) -> Result<(), Fail> {
    let alloc = rt.alloc();
    let mut refused = Refused::none();
    let source = again!(refused, "to_vec", program(alloc));
    let mut into = again!(refused, "to_vec", b"> ".to_vec(alloc));
    again_into!(
        rt,
        refused,
        "format_bytes",
        into,
        format_bytes(alloc, &source, &NARROW, &mut into)
    );
    has_text(&rt, &into, FORMATTED);
    refused.tell(&rt);
    Ok(())
}

/// What luac5.4 makes of `local s = 'x'`, and of a `return` of a function, of two numbers and of `nil`: that function
/// returns `s` and a string of 41 bytes.
const CHUNK: &[u8] = b"\
    \x1bLuaT\0\x19\x93\r\n\x1a\n\x04\x08\x08xV\0\0\0\0\0\0\0\0\0\0\0(w@\x01\x87=stdin\x80\x80\0\x01\
    \x05\x88Q\0\0\0\x03\0\0\0\xcf\0\0\0\x03\x81\0\0\x83\x01\x01\0\x08\x02\0\0\xc6\x80\x05\x01\xc6\
    \x80\x01\x01\x83\x04\x82x\x13\x9cu\0\x88<\xe47~\x03\0\0\0\0\0\0 \0\x81\x01\0\0\x81\x80\x82\x82\0\
    \x01\x02\x85Q\0\0\0\x09\0\0\0\x83\0\0\0F\0\x03\x01F\0\x01\x01\x81\x14\xaa01234567890123456789012\
    34567890123456789a\x81\x01\0\0\x80\x85\0\0\0\0\0\x80\x80\x81\x82s\x88\x01\0\x01\0\0\0\0\0\x80\
    \x81\x82s\x82\x88\x81\x85_ENV";

const LISTING: &[u8] = b"\
    function 0 params 0 vararg 1 stack 5 lines 0 0\n\
    0 VARARGPREP 0 0 0\n\
    1 LOADK 0 0\n\
    2 CLOSURE 1 0\n\
    3 LOADK 2 1\n\
    4 LOADK 3 2\n\
    5 LOADNIL 4 0 0\n\
    6 RETURN 1 5 1 k\n\
    7 RETURN 1 1 1 k\n\
    k 0 str \"x\"\n\
    k 1 word 7e37e43c8800759c\n\
    k 2 int 9007199254740992\n\
    u 0 1 0 0\n\
    function 0.0 params 0 vararg 1 stack 2 lines 2 2\n\
    0 VARARGPREP 0 0 0\n\
    1 GETUPVAL 0 0 0\n\
    2 LOADK 1 0\n\
    3 RETURN 0 3 1\n\
    4 RETURN 0 1 1\n\
    k 0 str \"0123456789012345678901234567890123456789a\"\n\
    u 0 1 0 0\n\
    ";

/// A chunk, its function and the listing of that.
#[test]
fn chunks_read(rt: HostRuntime) -> Result<(), Fail> {
    let alloc = rt.alloc();
    let mut refused = Refused::none();
    let main = again!(refused, "read_chunk", read_chunk(alloc, CHUNK));
    let mut into = again!(refused, "to_vec", b"> ".to_vec(alloc));
    again_into!(rt, refused, "list", into, list(alloc, &main, &mut into));
    assert_eq!(rt; &into[2..], LISTING);
    into.truncate(2);
    again_into!(
        rt,
        refused,
        "list_bytes",
        into,
        list_bytes(alloc, CHUNK, &mut into)
    );
    assert_eq!(rt; &into[2..], LISTING);
    refused.tell(&rt);
    Ok(())
}

/// A function with these constants.
fn function(alloc: Global, consts: Vec<Const>) -> Result<Proto, AllocError>
    requires { length consts.items < 2 ^ 31 }
    ensures { IfOk result (λ p. Fits (function_of p)) }
{
    let upvalue = Upval {
        instack: true,
        idx: 0,
        kind: 0,
    };
    Ok(Proto {
        numparams: 0,
        is_vararg: true,
        maxstack: 2,
        code: Items::from_slice(alloc, &[0x51, 0x1010046])?,
        consts: Items::from_vec(consts),
        upvals: Items::from_slice(alloc, &[upvalue])?,
        subs: Items::new(alloc),
        line_from: 0,
        line_to: 0,
    })
}

/// A constant of each kind.
fn constants(alloc: Global) -> Result<Vec<Const>, AllocError>
    ensures { IfOk result (λ consts. length consts.items < 2 ^ 31) }
{
    let spelled = Const::Spelled(Bytes::from_vec(b"0.1".to_vec(alloc)?));
    let string = Const::Str(Bytes::from_vec(b"0123456789".to_vec(alloc)?));
    Ok(vec![in alloc;
        Const::Nil,
        Const::True,
        Const::False,
        Const::Int(7),
        spelled,
        string,
    ]?)
}

/// A function with a constant of each kind.
fn made(alloc: Global) -> Result<Proto, AllocError>
    ensures { IfOk result (λ p. Fits (function_of p)) }
{
    function(alloc, constants(alloc)?)
}

/// A function, its chunk, and what is read of that.
#[test]
fn chunks_written(rt: HostRuntime) -> Result<(), Fail> {
    let alloc = rt.alloc();
    let mut refused = Refused::none();
    let main = again!(refused, "set-up", made(alloc));
    let mut into = again!(refused, "to_vec", b"> ".to_vec(alloc));
    again_into!(
        rt,
        refused,
        "write_chunk",
        into,
        write_chunk(alloc, &main, &mut into)
    );
    assert!(rt; into.len() < 10000);
    let told = again!(refused, "read_chunk", read_chunk(alloc, &into[2..]));
    assert_eq!(rt; told.consts.len(), 6);
    refused.tell(&rt);
    Ok(())
}

/// A string, its value and its spelling in other quotes, and a copy of it.
#[test]
fn strings(rt: HostRuntime) -> Result<(), Fail> {
    let alloc = rt.alloc();
    let src = b"'it\\'s \"\\u{48}\" now'";
    let mut refused = Refused::none();
    let pieces = again!(refused, "cut", cut(alloc, src));
    let spelling = string_in(&rt, &pieces, src);
    assert!(rt; spelling.len() < 1000);
    let mut into = again!(refused, "to_vec", b"> ".to_vec(alloc));
    again_into!(
        rt,
        refused,
        "value_of",
        into,
        value_of(alloc, spelling, &mut into)
    );
    assert_eq!(rt; &into[2..], b"it's \"H\" now".as_slice());
    let mut into = again!(refused, "to_vec", b"> ".to_vec(alloc));
    again_into!(
        rt,
        refused,
        "requote",
        into,
        requote(alloc, spelling, Quote::Double, &mut into)
    );
    assert_eq!(rt; &into[2..], b"\"it's \\\"\\u{48}\\\" now\"".as_slice());
    let copy = again!(refused, "Bytes::copy", Bytes::copy(alloc, spelling));
    assert_eq!(rt; copy.as_slice(), spelling);
    refused.tell(&rt);
    Ok(())
}

/// The options that a text tells, and the key that it may not have.
#[test]
fn options_told(rt: HostRuntime) -> Result<(), Fail> {
    let alloc = rt.alloc();
    let mut refused = Refused::none();
    let text = b"column_width = 20 # columns\n'quote_style' = \"AutoPreferDouble\"\n";
    let told = again!(refused, "options", options(alloc, text));
    assert_eq!(rt; told, NARROW);
    let mut wrong = options(alloc, b"a.b = [1]");
    if matches!(wrong, Err(ConfErr::Memory)) {
        refused.by("options");
        wrong = options(alloc, b"a.b = [1]");
    }
    let Err(ConfErr::UnknownKey(key)) = wrong else {
        panic!(rt; "a.b is told");
    };
    assert_eq!(rt; key.as_slice(), b"a".as_slice());
    refused.tell(&rt);
    Ok(())
}

/// Bytes that are read whole, from a source of their own each time: one that was refused memory has read on.
fn read_text(alloc: Global, into: &mut Vec<u8>) -> Result<(), ReadErr> {
    let mut source = MemSource::new(b"text".to_vec(alloc)?, 3, Vec::new(alloc));
    read_all(alloc, &mut source, 100, into)
}

#[test]
fn reading(rt: HostRuntime) -> Result<(), Fail> {
    let alloc = rt.alloc();
    let mut refused = Refused::none();
    let mut into = again!(refused, "to_vec", b"> ".to_vec(alloc));
    again_into!(rt, refused, "read_all", into, read_text(alloc, &mut into));
    assert_eq!(rt; into.as_slice(), b"> text".as_slice());
    refused.tell(&rt);
    Ok(())
}

/// A place to write bytes.
#[test]
fn writing(rt: HostRuntime) -> Result<(), Fail> {
    let alloc = rt.alloc();
    let mut refused = Refused::none();
    let mut sink = again!(
        refused,
        "MemSink::new",
        MemSink::new(alloc, 100, 3, Vec::new(alloc))
    );
    write_all(&mut sink, b"text")?;
    assert_eq!(rt; sink.written(), b"text".as_slice());
    refused.tell(&rt);
    Ok(())
}

/// A file that is written and read.
#[test]
fn files(rt: HostRuntime) -> Result<(), Fail> {
    let alloc = rt.alloc();
    let mut refused = Refused::none();
    let mut files = MemFiles::new(alloc, BTreeMap::new(alloc), Vec::new(alloc));
    again!(
        refused,
        "replace",
        files.replace(alloc, "a.lua", b"text".as_slice())
    );
    let mut into = again!(refused, "to_vec", b"> ".to_vec(alloc));
    again_into!(
        rt,
        refused,
        "fetch",
        into,
        files.fetch(alloc, "a.lua", 100, &mut into)
    );
    assert_eq!(rt; into.as_slice(), b"> text".as_slice());
    refused.tell(&rt);
    Ok(())
}
