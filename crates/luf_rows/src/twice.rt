//! What is formatted twice is formatted once, under every style of calls and of quotes, on narrow and on wide pages.

ghost use Rattle.std.specs.Prelude.{◌≤◌};
ghost use Rattle.luf_conf.specs.Settings.{AreInRange};

use crate::comments::{BEHIND, BETWEEN, REMARKS};
use crate::formats::{CALLS, EXPRESSIONS, LINES, NARROW, QUOTES, STATEMENTS, USUAL};
use luf_conf::Options;
use luf_quote::{CallStyle, QuoteStyle};
use luf_work::format_bytes;
use std::alloc::Global;
use std::process::Abort;
use std::test::Fail;

/// A style of quotes beside each style of calls.
const STYLES: [(CallStyle, QuoteStyle); 5] = [
    (CallStyle::Always, QuoteStyle::AutoPreferDouble),
    (CallStyle::NoSingleString, QuoteStyle::AutoPreferSingle),
    (CallStyle::NoSingleTable, QuoteStyle::ForceDouble),
    (CallStyle::None, QuoteStyle::ForceSingle),
    (CallStyle::Input, QuoteStyle::AutoPreferDouble),
];

/// Calls and strings of each kind, with comments between.
const MIXED: [(&str, &str); 4] = [
    (CALLS, ""),
    (QUOTES, ""),
    (
        "f--[[a]]'x'--[[b]]{--[[c]]}--[[d]](--[[e]]\"y\"--[[f]])--[[g]]:g--[[h]]([[z]])--[[i]]",
        "",
    ),
    (
        "f--a\n'\\\"'--b\n{--c\n1--d\n;--e\n}--f\n(--g\n\"'\"--h\n)--i\n:g--j\n(--k\n{--l\n}--m\n)--n",
        "",
    ),
];

/// The text of a source has itself.
fn settles(rt: &impl Abort, alloc: Global, o: &Options, source: &str) -> Result<(), Fail>
    requires { AreInRange o.now }
{
    let mut once = Vec::new(alloc);
    let first = format_bytes(alloc, source.as_bytes(), o, &mut once);
    assert_eq!(rt; first, Ok(()), "at {source}");
    let mut twice = Vec::new(alloc);
    let second = format_bytes(alloc, once.as_slice(), o, &mut twice);
    assert_eq!(rt; second, Ok(()), "at {source}");
    assert_eq!(rt; twice.as_slice(), once.as_slice(), "at {source}");
    Ok(())
}

fn all_settle(
    rt: &impl Abort,
    alloc: Global,
    o: &Options,
    rows: &[(&str, &str)],
) -> Result<(), Fail>
    requires { AreInRange o.now }
{
    for (source, _) in rows {
        settles(rt, alloc, o, source)?;
    }
    Ok(())
}

/// The usual options on a page of this width, in these styles.
fn on_page(column_width: u32, calls: CallStyle, quotes: QuoteStyle) -> Options
    requires some { 1 ≤ column_width }
    requires most { column_width ≤ 10000 }
    ensures { AreInRange result }
{
    Options {
        column_width,
        calls,
        quotes,
        ..USUAL
    }
}

fn settle_on_page(rt: &impl Abort, alloc: Global, width: u32) -> Result<(), Fail>
    requires some { 1 ≤ width }
    requires most { width ≤ 10000 }
{
    for (calls, quotes) in STYLES {
        let o = on_page(width, calls, quotes);
        all_settle(rt, alloc, &o, &STATEMENTS)?;
        all_settle(rt, alloc, &o, &EXPRESSIONS)?;
        all_settle(rt, alloc, &o, &LINES)?;
        all_settle(rt, alloc, &o, &NARROW)?;
        all_settle(rt, alloc, &o, &BETWEEN)?;
        all_settle(rt, alloc, &o, &BEHIND)?;
        all_settle(rt, alloc, &o, &REMARKS)?;
        all_settle(rt, alloc, &o, &MIXED)?;
    }
    Ok(())
}

#[test]
fn formatted_twice(rt: HostRuntime) -> Result<(), Fail> {
    let alloc = rt.alloc();
    settle_on_page(&rt, alloc, 1)?;
    settle_on_page(&rt, alloc, 20)?;
    settle_on_page(&rt, alloc, 120)
}
