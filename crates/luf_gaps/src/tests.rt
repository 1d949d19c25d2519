// Gaps of small sources, worked out by hand.
ghost use Rattle.std.specs.Prelude.{◌≤◌};

use crate::{GapNotes, gaps};
use luf_lex::cut;
use luf_memory::Memory;
use luf_tree::{Args, Block, Chunk, Expr, ExprKind, Field, Stat, StatKind, Suffix};
use sqlite_items::{Boxed, Items};
use std::alloc::Global;
use std::process::Abort;
use std::test::Fail;

fn mark(into: &mut Vec<u8>, set: bool, sign: u8) -> Result<(), Memory> {
    if set {
        into.push(sign)?;
    }
    Ok(())
}

/// A `(` and `)` for each gap. A note is its text, behind a `+` for an empty line and a `^` for a line of its own, with
/// a `$` behind it where it ends its line; a `+` at the end is for an empty line.
fn said(alloc: Global, gaps: &[GapNotes]) -> Result<Vec<u8>, Memory> {
    let mut into = Vec::new(alloc);
    for gap in gaps {
        into.push(b'(')?;
        for note in gap.notes.as_slice() {
            mark(&mut into, note.blank, b'+')?;
            mark(&mut into, note.own_line, b'^')?;
            into.extend_from_slice(note.text.as_slice())?;
            mark(&mut into, note.ends_line, b'$')?;
        }
        mark(&mut into, gap.blank, b'+')?;
        into.push(b')')?;
    }
    Ok(into)
}

fn read(rt: &impl Abort, alloc: Global, src: &[u8], c: &Chunk) -> Result<Vec<u8>, Fail> {
    assert!(rt; src.len() < 1000);
    let cut = cut(alloc, src)?;
    let found = gaps(alloc, src, &cut, c)?;
    Ok(said(alloc, found.as_slice())?)
}

fn chunk_of(stats: Vec<Stat>) -> Chunk {
    Chunk {
        block: Block {
            from: 0,
            to: 0,
            stats: Items::from_vec(stats),
        },
    }
}

/// A chunk that drops these tokens.
fn dropping(alloc: Global, tokens: &[u32]) -> Result<Chunk, Memory> {
    let mut stats = Vec::new(alloc);
    for n in tokens {
        stats.push(Stat {
            from: *n,
            to: *n,
            what: StatKind::Empty,
        })?;
    }
    Ok(chunk_of(stats))
}

/// Comments with their flags, and round dropped tokens, whose empty lines are kept.
#[test]
fn sources(rt: HostRuntime) -> Result<(), Fail> {
    let rows: [(&[u8], &[u32], &str); 6] = [
        (b"", &[], "()"),
        (
            b"-- a \n\n--[[b]] x = 1 -- c\t\n",
            &[],
            "(^-- a$+^--[[b]])()()(-- c$)",
        ),
        (b"a()\n\nb()", &[], "()()()(+)()()()"),
        (
            b"x = 1 -- d\n\n; -- e\n;\n\nf()",
            &[3, 4],
            "()()()(-- d$+-- e$+)()()()",
        ),
        (b"a\n\n;\nb", &[1], "()(+)()"),
        (b"a --[[b]] ; --[[c]] ;", &[1, 2], "()(--[[b]]--[[c]]$)"),
    ];
    for (src, dropped, wanted) in rows {
        let c = dropping(rt.alloc(), dropped)?;
        let bytes = read(&rt, rt.alloc(), src, &c)?;
        assert_eq!(rt; bytes.as_slice(), wanted.as_bytes(), "{wanted}");
    }
    Ok(())
}

/// A `return` of a table that ends with a separator, and a `;` behind it.
#[test]
fn table(rt: HostRuntime) -> Result<(), Fail> {
    let alloc = rt.alloc();
    let one = Expr {
        from: 2,
        to: 3,
        what: ExprKind::Number,
    };
    let fields = Items::from_vec(vec![in alloc; Field::Item(one)]?);
    let value = Expr {
        from: 1,
        to: 5,
        what: ExprKind::Table(fields),
    };
    let values = Items::from_vec(vec![in alloc; value]?);
    let c = chunk_of(vec![in alloc;
        Stat {
            from: 0,
            to: 6,
            what: StatKind::Return(values)
        },
    ]?);
    let bytes = read(&rt, alloc, b"return {1, --[[x]] } ; -- y", &c)?;
    assert_eq!(rt; bytes.as_slice(), b"()()()(--[[x]])(-- y$)".as_slice());
    Ok(())
}

/// A call that begins with this token: a lone text in parentheses.
fn lone_call(alloc: Global, at: u32) -> Result<Items<Suffix>, Memory>
    requires { at ≤ 100 }
{
    let text = Expr {
        from: at + 1,
        to: at + 2,
        what: ExprKind::Str,
    };
    let args = Args {
        from: at,
        to: at + 3,
        parens: true,
        items: Items::from_vec(vec![in alloc; text]?),
    };
    Ok(Items::from_vec(vec![in alloc; Suffix::Call(args)]?))
}

/// A chunk that is a call up to this token.
fn calling(alloc: Global, to: u32, what: ExprKind) -> Result<Chunk, Memory> {
    let call = Expr { from: 0, to, what };
    Ok(chunk_of(vec![in alloc;
        Stat {
            from: 0,
            to,
            what: StatKind::Call(call)
        },
    ]?))
}

/// A lone argument in parentheses.
#[test]
fn call(rt: HostRuntime) -> Result<(), Fail> {
    let alloc = rt.alloc();
    let suffixes = lone_call(alloc, 1)?;
    let c = calling(alloc, 4, ExprKind::NameSuffixed(suffixes))?;
    let bytes = read(&rt, alloc, b"f(--[[w]] \"s\" --[[x]])", &c)?;
    assert_eq!(rt; bytes.as_slice(), b"()(--[[w]])(--[[x]]$)".as_slice());
    Ok(())
}

/// The same behind a head in parentheses, which is such a call itself.
#[test]
fn head_in_parentheses(rt: HostRuntime) -> Result<(), Fail> {
    let alloc = rt.alloc();
    let inner = Expr {
        from: 1,
        to: 5,
        what: ExprKind::NameSuffixed(lone_call(alloc, 2)?),
    };
    let head = Expr {
        from: 0,
        to: 6,
        what: ExprKind::Paren(Boxed::new(alloc, inner)?),
    };
    let suffixed = ExprKind::Suffixed {
        head: Boxed::new(alloc, head)?,
        suffixes: lone_call(alloc, 6)?,
    };
    let c = calling(alloc, 9, suffixed)?;
    let src = b"(f(--[[v]] \"t\"))(--[[w]] \"s\" --[[x]])";
    let bytes = read(&rt, alloc, src, &c)?;
    let wanted = b"()()(--[[v]])()(--[[w]])(--[[x]]$)";
    assert_eq!(rt; bytes.as_slice(), wanted.as_slice());
    Ok(())
}
