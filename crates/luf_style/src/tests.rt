// Documents with their bytes, worked out by hand.
ghost use Rattle.std.specs.Prelude.{◌≡◌, ◌≤◌, ◌<◌, ◌^◌, ℕ, min};
ghost use Rattle.luf_doc.specs.Document.{document_of};
ghost use Rattle.luf_doc.specs.Table.{node_count};

use crate::lay_table;
use luf_doc::{Chance, Doc, DocTable, Gap, Ledger, Page, Remark, Steps};
use luf_memory::Memory;
use luf_text::Bytes;
use sqlite_items::{Boxed, Items};
use std::alloc::Global;
use std::marker::Brand;
use std::mem;
use std::process::Abort;
use std::sync::ledger::Blank;
use std::test::Fail;

/// A note: its text, and its flags for own line, end of line and empty line.
type Note = (&'static str, bool, bool, bool);

/// A gap: its chance, its notes, and its flags for empty line and deeper.
type Noted = (Chance, &'static [Note], bool, bool);

const PLAIN: &[Note] = &[("n", false, false, true)];

const OWN: &[Note] = &[("n", true, false, false)];

const ENDS: &[Note] = &[("n", false, true, false)];

const BOTH: &[Note] = &[("n", true, true, false)];

const SEVERAL: &[Note] = &[
    ("n", false, false, false),
    ("m", true, false, false),
    ("k", false, true, false),
];

const BLANKS: &[Note] = &[("n", true, true, true), ("m", true, true, true)];

const LONG: &[Note] = &[("n\nm", false, false, false)];

const COMMENT: &[Note] = &[("--[[c]]", false, false, false)];

const GAPS: &[Noted] = &[
    (Chance::Tight, PLAIN, false, false),
    (Chance::Soft, PLAIN, false, false),
    (Chance::Hard, PLAIN, false, false),
    (Chance::Hard, OWN, false, false),
    (Chance::Tight, ENDS, false, false),
    (Chance::Hard, BOTH, false, true),
    (Chance::Space, SEVERAL, false, false),
    (Chance::Hard, BLANKS, true, false),
    (Chance::Line, LONG, false, false),
    (Chance::Line, COMMENT, false, false),
];

const TEXTS: &[&str] = &["", "bb\ncc", "return", "{", "}", "{}", ","];

fn gap_of(alloc: Global, noted: &Noted) -> Result<Doc, Memory> {
    let (chance, notes, blank, deeper) = *noted;
    let mut remarks = Items::new(alloc);
    for note in notes {
        let (text, own_line, ends_line, blank) = *note;
        let text = Bytes::copy(alloc, text.as_bytes())?;
        remarks.push(Remark {
            text,
            own_line,
            ends_line,
            blank,
        })?;
    }
    Ok(Doc::Gap(Gap {
        chance,
        notes: remarks,
        blank,
        deeper,
    }))
}

/// What one byte of a sketch stands for: a gap by its chance or its number, a text by its letter, a Trail.
fn piece_of(alloc: Global, b: u8) -> Result<Doc, Memory> {
    let chance = match b {
        b'^' => Chance::Tight,
        b'_' => Chance::Space,
        b'!' => Chance::Soft,
        b'|' => Chance::Line,
        b';' => Chance::Hard,
        b',' => return Ok(Doc::Trail),
        b'0'..=b'9' => match GAPS.get((b - b'0') as usize) {
            Some(noted) => return gap_of(alloc, noted),
            None => return Err(Memory),
        },
        b'A'..=b'Z' => match TEXTS.get((b - b'A') as usize) {
            Some(text) => return Ok(Doc::Text(Bytes::copy(alloc, text.as_bytes())?)),
            None => return Err(Memory),
        },
        _ => return Ok(Doc::Text(Bytes::copy(alloc, &[b])?)),
    };
    gap_of(alloc, &(chance, &[], false, false))
}

/// The document of a sketch, in which `(` and `)` are a group, and `<` and `>` are a nest.
fn doc_of(alloc: Global, sketch: &[u8]) -> Result<Doc, Memory> {
    let mut open = Vec::new(alloc);
    let mut items = Vec::new(alloc);
    for b in sketch {
        if *b == b'(' || *b == b'<' {
            open.push(mem::replace(&mut items, Vec::new(alloc)))?;
        } else if *b == b')' || *b == b'>' {
            let outer = open.pop().ok_or(Memory)?;
            let inner = mem::replace(&mut items, outer);
            let inner = Boxed::new(alloc, Doc::Seq(Items::from_vec(inner)))?;
            items.push(if *b == b')' {
                Doc::Group(inner)
            } else {
                Doc::Nest(inner)
            })?;
        } else {
            items.push(piece_of(alloc, *b)?)?;
        }
    }
    Ok(Doc::Seq(Items::from_vec(items)))
}

/// How many nodes a document has, or the greatest number where they are more.
fn nodes_of(d: &Doc) -> u32
    ensures { result ≡ min (node_count (document_of d.now)) u32.MAX }
{
    match d {
        Doc::Text(_) | Doc::Gap(_) | Doc::Trail => 1,
        Doc::Nest(inner) | Doc::Group(inner) => nodes_of(inner.get()).saturating_add(1),
        Doc::Seq(items) => {
            let mut count = 1u32;
            for item in items.as_slice() {
                count = count.saturating_add(nodes_of(item));
            }
            count
        }
    }
}

fn lay_doc<L: Ledger>(alloc: Global, d: Doc, page: &Page, blank: Blank) -> Result<Vec<u8>, Memory>
    requires name { blank.name ≡ L.name }
    requires parts { blank.parts ≡ L.parts }
    requires some { 0 < blank.parts }
    requires few { node_count (document_of d) < 2 ^ 32 }
    requires width { page.now.width ≤ 10000 }
    requires unit { page.now.unit ≤ 16 }
{
    let table = DocTable::of(alloc, d)?;
    let mut steps = Steps::<L>::new(blank);
    let mut into = Vec::new(alloc);
    into.push(b'#')?;
    lay_table(alloc, &table, page, &mut into, &mut steps)?;
    Ok(into)
}

fn laid(rt: &impl Abort, alloc: Global, sketch: &[u8], page: &Page) -> Result<Vec<u8>, Memory> {
    let d = doc_of(alloc, sketch)?;
    assert!(rt; nodes_of(&d) < u32::MAX);
    assert!(rt; page.width <= 10000);
    assert!(rt; page.unit <= 16);
    lay_doc::<Brand>(alloc, d, page, Blank::new(1))
}

/// A sketch laid at a width, with TABs of 4 columns.
fn laid_at(rt: &impl Abort, alloc: Global, sketch: &str, width: u32) -> Result<Vec<u8>, Memory> {
    let page = Page {
        width,
        tabs: true,
        unit: 4,
    };
    laid(rt, alloc, sketch.as_bytes(), &page)
}

fn check(rt: &impl Abort, alloc: Global, rows: &[(u32, &str, &str)]) -> Result<(), Memory> {
    for row in rows {
        let (width, sketch, wanted) = *row;
        let bytes = laid_at(rt, alloc, sketch, width)?;
        assert_eq!(rt; bytes.as_slice(), wanted.as_bytes(), "{sketch} at {width}");
    }
    Ok(())
}

/// Gaps without notes, outside of groups, at the start, and with texts that have no bytes.
#[test]
fn plain_gaps(rt: HostRuntime) -> Result<(), Fail> {
    check(
        &rt,
        rt.alloc(),
        &[
            (80, "", "#"),
            (80, ";_|!^", "#"),
            (80, ";_a;", "#a\n"),
            (80, "a!b|c^d_e,f", "#ab cd ef"),
            (80, "A;b;A;c", "#b\n\nc"),
            (80, "x<;a<;b>>;c", "#x\n\ta\n\t\tb\nc"),
        ],
    )?;
    Ok(())
}

/// Groups that fit by one byte and miss by one, with what follows them.
#[test]
fn groups(rt: HostRuntime) -> Result<(), Fail> {
    check(
        &rt,
        rt.alloc(),
        &[
            (5, "(a|b_c)", "#a b c"),
            (4, "(a|b_c)", "#a\nb c"),
            (5, "(a|b)cd", "#a bcd"),
            (4, "(a|b)cd", "#a\nbcd"),
            (6, "(a|b)c_d", "#a bc d"),
            (5, "(a|b)c_d", "#a\nbc d"),
            (4, "(a|b)c!d", "#a bcd"),
            (3, "(a|b)c!d", "#a\nbcd"),
            (6, "(((a|b)c)d)e", "#a bcde"),
            (5, "(((a|b)c)d)e", "#a\nbcde"),
            (4, "(a|b,|)", "#a b "),
            (3, "(a|b,|)", "#a\nb,\n"),
            (5, "(a|b),c", "#a bc"),
            (4, "(a|b),c", "#a\nbc"),
            (1, "(a!b)", "#a\nb"),
            (10000, "(a|(b|c))", "#a b c"),
            (99, "(a|b;c|(d|e))", "#a\nb\nc\nd e"),
            (99, "(a|(b;c)|d)", "#a\nb\nc\nd"),
        ],
    )?;
    Ok(())
}

/// Texts and notes with line ends inside: the count ends at the first, and columns are counted from the last.
#[test]
fn line_ends_inside(rt: HostRuntime) -> Result<(), Fail> {
    check(
        &rt,
        rt.alloc(),
        &[
            (5, "a(B|d)eeeee", "#abb\ncc deeeee"),
            (2, "a(B|d)eeeee", "#abb\ncc\ndeeeee"),
            (5, "B(a|d)", "#bb\ncca d"),
            (4, "B(a|d)", "#bb\ncca\nd"),
            (5, "(a|d)B", "#a dbb\ncc"),
            (4, "(a|d)B", "#a\ndbb\ncc"),
            (4, "(a|B)ccc", "#a bb\nccccc"),
            (3, "(a8b)", "#a n\nm b"),
            (2, "(a8b)", "#a n\nm\nb"),
        ],
    )?;
    Ok(())
}

/// Notes, with each of their flags.
#[test]
fn notes(rt: HostRuntime) -> Result<(), Fail> {
    check(
        &rt,
        rt.alloc(),
        &[
            (80, "a0b", "#a n b"),
            (80, "a1b", "#a n b"),
            (80, "a2b", "#a n\nb"),
            (80, "a3b", "#a\nn b"),
            (80, "a4b", "#a n\nb"),
            (80, "a<5>b", "#a\n\t\tn\n\tb"),
            (80, "a6b", "#a n\nm k\nb"),
            (80, "a7b", "#a\n\nn\n\nm\n\nb"),
            (80, "3a;", "#n a\n"),
            (80, "7a;", "#n\n\nm\n\na\n"),
            (7, "(a0b|c)", "#a n b c"),
            (6, "(a0b|c)", "#a n b\nc"),
            (1, "(a1b|c)", "#a n\nb\nc"),
            (80, "(a4b|c)", "#a n\nb\nc"),
            (80, "(a|b3c)", "#a\nb\nn c"),
            (4, "(a|b)c0d", "#a bc n d"),
            (
                20,
                ";x_=_(D<9a^a^a^aG|b^b^b^bG|c^c^c^c,>|E);",
                "#x = { --[[c]]\n\taaaa,\n\tbbbb,\n\tcccc,\n}\n",
            ),
        ],
    )?;
    Ok(())
}

/// Levels of one unit and of 16, in spaces and in TABs.
#[test]
fn units(rt: HostRuntime) -> Result<(), Fail> {
    let alloc = rt.alloc();
    let rows = [
        (80, false, 1, "#x\n a b\n  c"),
        (
            80,
            false,
            16,
            "#x\n                a b\n                                c",
        ),
        (19, true, 16, "#x\n\ta b\n\t\tc"),
        (18, true, 16, "#x\n\ta\n\tb\n\t\tc"),
    ];
    for (width, tabs, unit, wanted) in rows {
        let bytes = laid(&rt, alloc, b"x<;(a|b)<;c>>", &Page { width, tabs, unit })?;
        assert_eq!(rt; bytes.as_slice(), wanted.as_bytes());
    }
    Ok(())
}

/// `return ` with 150 times `{` and 150 times `}`: each table but the innermost is broken, since its level and what is
/// in it have more than 120 columns.
#[test]
fn deep(rt: HostRuntime) -> Result<(), Fail> {
    let alloc = rt.alloc();
    let mut sketch = Vec::from_slice(alloc, b";C_")?;
    let mut wanted = Vec::from_slice(alloc, b"#return {\n")?;
    for level in 1..150u32 {
        sketch.extend_from_slice(b"(D<|")?;
        for _tab in 0..level {
            wanted.push(b'\t')?;
        }
        wanted.extend_from_slice(if level < 149 { b"{\n" } else { b"{}" })?;
    }
    sketch.push(b'F')?;
    for closed in 1..150u32 {
        sketch.extend_from_slice(b",>|E)")?;
        wanted.extend_from_slice(b",\n")?;
        for _tab in closed..149 {
            wanted.push(b'\t')?;
        }
        wanted.push(b'}')?;
    }
    sketch.push(b';')?;
    wanted.push(b'\n')?;
    let page = Page {
        width: 120,
        tabs: true,
        unit: 4,
    };
    let bytes = laid(&rt, alloc, sketch.as_slice(), &page)?;
    assert_eq!(rt; bytes.as_slice(), wanted.as_slice());
    Ok(())
}
