use crate::list;
use luf_proto::{Const, Proto, Upval};
use luf_text::Bytes;
use sqlite_items::Items;
use std::alloc::{AllocError, Global};
use std::test::Fail;

const ENV: Upval = Upval {
    instack: true,
    idx: 0,
    kind: 0,
};

const OUTER: Upval = Upval {
    instack: false,
    idx: 0,
    kind: 0,
};

/// A vararg function without parameters at the lines 0.
fn main_function(
    alloc: Global,
    maxstack: u8,
    code: &[u32],
    consts: Vec<Const>,
    subs: Vec<Proto>,
) -> Result<Proto, AllocError> {
    Ok(Proto {
        numparams: 0,
        is_vararg: true,
        maxstack,
        code: Items::from_slice(alloc, code)?,
        consts: Items::from_vec(consts),
        upvals: Items::from_slice(alloc, &[ENV])?,
        subs: Items::from_vec(subs),
        line_from: 0,
        line_to: 0,
    })
}

fn string(alloc: Global, text: &[u8]) -> Result<Const, AllocError> {
    Ok(Const::Str(Bytes::from_vec(text.to_vec(alloc)?)))
}

/// The listing of `return 0xffffffffffffffff,9223372036854775807,9223372036854775808`.
#[test]
fn lists_integers_and_floats(rt: HostRuntime) -> Result<(), Fail> {
    let alloc = rt.alloc();
    let spelled = Const::Spelled(Bytes::from_vec(b"9223372036854775808".to_vec(alloc)?));
    let consts = vec![in alloc; Const::Int(i64::MAX), spelled]?;
    let code = [0x51, 0x7fff0001, 0x83, 0x8103, 0x1040046, 0x1010046];
    let p = main_function(alloc, 3, &code, consts, Vec::new(alloc))?;
    let mut text = b"before\n".to_vec(alloc)?;
    list(alloc, &p, &mut text)?;
    let wanted = b"before\n\
        function 0 params 0 vararg 1 stack 3 lines 0 0\n\
        0 VARARGPREP 0 0 0\n\
        1 LOADI 0 -1\n\
        2 LOADK 1 0\n\
        3 LOADK 2 1\n\
        4 RETURN 0 4 1\n\
        5 RETURN 0 1 1\n\
        k 0 int 9223372036854775807\n\
        k 1 float 9223372036854775808\n\
        u 0 1 0 0\n\
        ";
    assert_eq!(rt; text.as_slice(), wanted.as_slice());
    Ok(())
}

/// A main function, and one inside it at line 1 where that has code. Each name is a letter, a constant.
#[derive(Clone, Copy)]
struct Row {
    maxstack: u8,
    code: &'static [u32],
    names: &'static [u8],
    inner_code: &'static [u32],
    inner_names: &'static [u8],
    inner_upvals: &'static [Upval],
    text: &'static [u8],
}

fn names(alloc: Global, letters: &[u8]) -> Result<Vec<Const>, AllocError> {
    let mut consts = Vec::new(alloc);
    for letter in letters {
        consts.push(string(alloc, &[*letter])?)?;
    }
    Ok(consts)
}

fn inner_functions(alloc: Global, row: &Row) -> Result<Vec<Proto>, AllocError> {
    let mut subs = Vec::new(alloc);
    if !row.inner_code.is_empty() {
        subs.push(Proto {
            numparams: 0,
            is_vararg: false,
            maxstack: 2,
            code: Items::from_slice(alloc, row.inner_code)?,
            consts: Items::from_vec(names(alloc, row.inner_names)?),
            upvals: Items::from_slice(alloc, row.inner_upvals)?,
            subs: Items::new(alloc),
            line_from: 1,
            line_to: 1,
        })?;
    }
    Ok(subs)
}

/// What is listed of sources, in order:
///
/// - `local t={} function g() return a+t.x end`
/// - `while a do if b then break end end`
/// - `do local c<close> =f() return g() end`
/// - `return a and 1,b<c`
/// - `do local c function g() return c end goto e end ::e::`
const ROWS: [Row; 5] = [
    Row {
        maxstack: 2,
        code: &[0x51, 0x13, 0x52, 0xcf, 0x100000f, 0x10180c6],
        names: b"g",
        inner_code: &[0xb, 0x101008b, 0x1000022, 0x601002e, 0x20048, 0x10047],
        inner_names: b"ax",
        inner_upvals: &[OUTER, ENV],
        text: b"\
            function 0 params 0 vararg 1 stack 2 lines 0 0\n\
            0 VARARGPREP 0 0 0\n\
            1 NEWTABLE 0 0 0\n\
            2 EXTRAARG 0\n\
            3 CLOSURE 1 0\n\
            4 SETTABUP 0 0 1\n\
            5 RETURN 1 1 1 k\n\
            k 0 str \"g\"\n\
            u 0 1 0 0\n\
            function 0.0 params 0 vararg 0 stack 2 lines 1 1\n\
            0 GETTABUP 0 0 0\n\
            1 GETTABUP 1 1 1\n\
            2 ADD 0 0 1\n\
            3 MMBIN 0 1 6\n\
            4 RETURN1 0 2 0\n\
            5 RETURN0 0 1 0\n\
            k 0 str \"a\"\n\
            k 1 str \"x\"\n\
            u 0 0 0 0\n\
            u 1 1 0 0\n\
            ",
    },
    Row {
        maxstack: 2,
        code: &[
            0x51, 0xb, 0x42, 0x80000238, 0x100000b, 0x42, 0x80000038, 0x80000038, 0x7ffffbb8,
            0x1010046,
        ],
        names: b"ab",
        inner_code: &[],
        inner_names: b"",
        inner_upvals: &[],
        text: b"\
            function 0 params 0 vararg 1 stack 2 lines 0 0\n\
            0 VARARGPREP 0 0 0\n\
            1 GETTABUP 0 0 0\n\
            2 TEST 0 0 0\n\
            3 JMP 5\n\
            4 GETTABUP 0 0 1\n\
            5 TEST 0 0 0\n\
            6 JMP 1\n\
            7 JMP 1\n\
            8 JMP -8\n\
            9 RETURN 0 1 1\n\
            k 0 str \"a\"\n\
            k 1 str \"b\"\n\
            u 0 1 0 0\n\
            ",
    },
    Row {
        maxstack: 2,
        code: &[
            0x51, 0xb, 0x2010044, 0x37, 0x100008b, 0x100c4, 0x10080c6, 0x36, 0x1018046,
        ],
        names: b"fg",
        inner_code: &[],
        inner_names: b"",
        inner_upvals: &[],
        text: b"\
            function 0 params 0 vararg 1 stack 2 lines 0 0\n\
            0 VARARGPREP 0 0 0\n\
            1 GETTABUP 0 0 0\n\
            2 CALL 0 1 2\n\
            3 TBC 0 0 0\n\
            4 GETTABUP 1 0 1\n\
            5 CALL 1 1 0\n\
            6 RETURN 1 0 1 k\n\
            7 CLOSE 0 0 0\n\
            8 RETURN 0 1 1 k\n\
            k 0 str \"f\"\n\
            k 1 str \"g\"\n\
            u 0 1 0 0\n\
            ",
    },
    Row {
        maxstack: 3,
        code: &[
            0x51, 0xb, 0x42, 0x80000038, 0x80000001, 0x100008b, 0x200010b, 0x280ba, 0x80000038,
            0x86, 0x87, 0x1030046, 0x1010046,
        ],
        names: b"abc",
        inner_code: &[],
        inner_names: b"",
        inner_upvals: &[],
        text: b"\
            function 0 params 0 vararg 1 stack 3 lines 0 0\n\
            0 VARARGPREP 0 0 0\n\
            1 GETTABUP 0 0 0\n\
            2 TEST 0 0 0\n\
            3 JMP 1\n\
            4 LOADI 0 1\n\
            5 GETTABUP 1 0 1\n\
            6 GETTABUP 2 0 2\n\
            7 LT 1 2 0 k\n\
            8 JMP 1\n\
            9 LFALSESKIP 1 0 0\n\
            10 LOADTRUE 1 0 0\n\
            11 RETURN 0 3 1\n\
            12 RETURN 0 1 1\n\
            k 0 str \"a\"\n\
            k 1 str \"b\"\n\
            k 2 str \"c\"\n\
            u 0 1 0 0\n\
            ",
    },
    Row {
        maxstack: 2,
        code: &[
            0x51, 0x8, 0xcf, 0x100000f, 0x80000038, 0x36, 0x36, 0x1018046,
        ],
        names: b"g",
        inner_code: &[0x9, 0x20048, 0x10047],
        inner_names: b"",
        inner_upvals: &[ENV],
        text: b"\
            function 0 params 0 vararg 1 stack 2 lines 0 0\n\
            0 VARARGPREP 0 0 0\n\
            1 LOADNIL 0 0 0\n\
            2 CLOSURE 1 0\n\
            3 SETTABUP 0 0 1\n\
            4 JMP 1\n\
            5 CLOSE 0 0 0\n\
            6 CLOSE 0 0 0\n\
            7 RETURN 0 1 1 k\n\
            k 0 str \"g\"\n\
            u 0 1 0 0\n\
            function 0.0 params 0 vararg 0 stack 2 lines 1 1\n\
            0 GETUPVAL 0 0 0\n\
            1 RETURN1 0 2 0\n\
            2 RETURN0 0 1 0\n\
            u 0 1 0 0\n\
            ",
    },
];

#[test]
fn lists(rt: HostRuntime) -> Result<(), Fail> {
    let alloc = rt.alloc();
    for row in ROWS {
        let consts = names(alloc, row.names)?;
        let subs = inner_functions(alloc, &row)?;
        let p = main_function(alloc, row.maxstack, row.code, consts, subs)?;
        let mut text = Vec::new(alloc);
        list(alloc, &p, &mut text)?;
        assert_eq!(rt; text.as_slice(), row.text);
    }
    Ok(())
}

/// A word without an operation, a word of a float, and the bytes of a string that are escaped.
#[test]
fn lists_raw_words_and_escapes(rt: HostRuntime) -> Result<(), Fail> {
    let alloc = rt.alloc();
    let consts = vec![in alloc;
        Const::Nil,
        Const::False,
        Const::True,
        Const::Word(0x3fb999999999999a),
        string(alloc, b"\"\\ ~\x7f\n\xff")?,
    ]?;
    let p = main_function(alloc, 2, &[0xffffff53, 0x7ffffbb8], consts, Vec::new(alloc))?;
    let mut text = Vec::new(alloc);
    list(alloc, &p, &mut text)?;
    let wanted = b"\
        function 0 params 0 vararg 1 stack 2 lines 0 0\n\
        0 RAW ffffff53\n\
        1 JMP -8\n\
        k 0 nil\n\
        k 1 false\n\
        k 2 true\n\
        k 3 word 3fb999999999999a\n\
        k 4 str \"\\\"\\\\ ~\\127\\010\\255\"\n\
        u 0 1 0 0\n\
        ";
    assert_eq!(rt; text.as_slice(), wanted.as_slice());
    Ok(())
}
