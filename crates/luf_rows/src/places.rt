//! Bytes, and the line and column of a byte.

use luf_text::{Bytes, Place, place_of};
use std::test::Fail;

/// The places in a text that has each kind of line end, counted by hand.
#[test]
fn counts_lines_and_columns(rt: HostRuntime) {
    let text = b"ab\r\ncd\n\re\r\rf\n\ng";
    let table = [
        (0, 1, 1),
        (2, 1, 3),
        (3, 1, 4),
        (4, 2, 1),
        (6, 2, 3),
        (7, 2, 4),
        (8, 3, 1),
        (9, 3, 2),
        (10, 4, 1),
        (11, 5, 1),
        (12, 5, 2),
        (13, 6, 1),
        (14, 7, 1),
        (15, 7, 2),
    ];
    for (at, line, column) in table {
        assert!(rt; at <= 15);
        assert_eq!(rt; place_of(text, at), Place { line, column }, "at {at}");
    }
    assert_eq!(rt; place_of(b"\r\n", 1), Place { line: 1, column: 2 });
    assert_eq!(rt; place_of(b"", 0), Place { line: 1, column: 1 });
}

/// A copy is made where there is memory.
#[test]
fn copies_bytes(rt: HostRuntime) -> Result<(), Fail> {
    let copied = Bytes::copy(rt.alloc(), b"a\xff\0")?;
    assert_eq!(rt; copied.as_slice(), b"a\xff\0".as_slice());
    let taken = Bytes::from_vec(b"bc".to_vec(rt.alloc())?);
    assert_eq!(rt; taken.as_slice(), b"bc".as_slice());
    Ok(())
}
