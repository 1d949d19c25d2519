// How a group is laid.
ghost use Rattle.std.specs.Prelude.{◌≡◌, ◌≤◌, ◌+◌, ℕ, min, cond};
ghost use Rattle.luf_doc.specs.Layout.{is_broken, mode_of, must_break};
ghost use Rattle.luf_style.specs.inner.Modes.{mode_as};

use luf_doc::{Chance, Node, Page};

/// How the group that holds a place is laid, if one does.
#[derive(Clone, Copy, Debug, PartialEq, Eq)]
pub(crate) enum Mode {
    Outside,
    Flat,
    Broken,
}

/// Whether the group is broken.
pub(crate) fn is_broken(mode: Mode) -> bool
    ensures { result ≡ is_broken (mode_as mode) }
{
    matches!(mode, Mode::Broken)
}

/// Whether a gap must break.
pub(crate) fn must_break(chance: Chance, mode: Mode) -> bool
    ensures { result ≡ must_break chance (mode_as mode) }
{
    match chance {
        Chance::Tight | Chance::Space => false,
        Chance::Soft | Chance::Line => is_broken(mode),
        Chance::Hard => true,
    }
}

/// How the group of a row is laid that stands in a group of `mode`, at a column and before its lead, where each of the
/// numbers is the greatest where it would be more.
pub(crate) fn mode_inside(page: &Page, mode: Mode, group: &Node, column: u32, lead: u32) -> Mode
    requires { page.now.width ≤ 10000 }
    ensures { (c f n : ℕ) → column ≡ min c u32.MAX → group.now.flat ≡ min f u32.MAX → lead ≡ min n u32.MAX → mode_as result ≡ mode_of page.now (mode_as mode) group.now.forced (c + cond group.now.ended f (f + n)) }
{
    match mode {
        Mode::Flat => Mode::Flat,
        Mode::Outside | Mode::Broken => {
            let behind = if group.ended { 0 } else { lead };
            let end = u64::from(column) + u64::from(group.flat) + u64::from(behind);
            if group.forced || end > u64::from(page.width) {
                Mode::Broken
            } else {
                Mode::Flat
            }
        }
    }
}
