// Names and their numbers, and barred names, as they are counted by hand.
use crate::{is_barred, nth, number_of};
use std::process::Abort;

fn check_name(rt: &impl Abort, n: u32, spelling: &[u8]) {
    assert_eq!(rt; nth(n).as_slice(), spelling, "at {n}");
    assert_eq!(rt; number_of(spelling), Some(n), "at {spelling:?}");
}

#[test]
fn names_in_order(rt: HostRuntime) {
    let rows: [(u32, &[u8]); 17] = [
        (0, b"a"),
        (25, b"z"),
        (26, b"A"),
        (51, b"Z"),
        (52, b"_"),
        (53, b"aa"),
        (105, b"a_"),
        (106, b"a0"),
        (115, b"a9"),
        (116, b"ba"),
        (3391, b"_9"),
        (3392, b"aaa"),
        (213748, b"_99"),
        (213749, b"aaaa"),
        (848373172, b"_9999"),
        (848373173, b"aaaaaa"),
        (u32::MAX, b"dDXXDn"),
    ];
    for (n, spelling) in rows {
        check_name(&rt, n, spelling);
    }
}

#[test]
fn barred_names(rt: HostRuntime) {
    let rows: [(&[u8], bool); 12] = [
        (b"and", true),
        (b"function", true),
        (b"goto", true),
        (b"while", true),
        (b"self", true),
        (b"_ENV", true),
        (b"", false),
        (b"And", false),
        (b"_env", false),
        (b"en", false),
        (b"ends", false),
        (b"functions", false),
    ];
    for (name, barred) in rows {
        assert_eq!(rt; is_barred(name), barred, "at {name:?}");
    }
}
