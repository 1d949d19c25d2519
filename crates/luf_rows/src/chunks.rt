//! Chunks and what `list` makes of them.

use luf_undump::ChunkWhat;
use luf_work::{Refusal, list_bytes};
use std::test::Fail;

/// What `luac5.4 -s` writes of an empty source.
const EMPTY: [u8; 57] = [
    0x1b, 0x4c, 0x75, 0x61, 0x54, 0x00, 0x19, 0x93, 0x0d, 0x0a, 0x1a, 0x0a, 0x04, 0x08, 0x08, 0x78,
    0x56, 0, 0, 0, 0, 0, 0, 0, 0, 0, 0, 0, 0x28, 0x77, 0x40, 0x01, 0x80, 0x80, 0x80, 0x00, 0x01,
    0x02, 0x82, 0x51, 0x00, 0x00, 0x00, 0x46, 0x00, 0x01, 0x01, 0x80, 0x81, 0x01, 0x00, 0x00, 0x80,
    0x80, 0x80, 0x80, 0x80,
];

/// The greatest count that can be read, where no bytes follow it.
const MANY: &[u8] = b"\x07\x7f\x7f\x7f\xff";

fn wrong(at: u32, what: ChunkWhat) -> Result<(), Refusal> {
    Err(Refusal::Chunk(at, what))
}

/// So many bytes of the chunk and these behind them, with the answer. An error leaves what was there alone.
#[test]
fn lists(rt: HostRuntime) -> Result<(), Fail> {
    let alloc = rt.alloc();
    let table: [(usize, &[u8], Result<(), Refusal>); 9] = [
        (57, b"", Ok(())),
        (56, b"", wrong(56, ChunkWhat::Short)),
        (57, b"\x80", wrong(57, ChunkWhat::Trailing)),
        (4, b"\x53", wrong(4, ChunkWhat::BadHeader)),
        (0, b"", wrong(0, ChunkWhat::Short)),
        // Of instructions, constants, functions and lines.
        (38, MANY, wrong(43, ChunkWhat::Short)),
        (47, MANY, wrong(52, ChunkWhat::Short)),
        (52, MANY, wrong(57, ChunkWhat::Short)),
        (54, MANY, wrong(59, ChunkWhat::Short)),
    ];
    for (len, behind, result) in table {
        let (front, _) = EMPTY.split_at(len.min(EMPTY.len()));
        let mut chunk = front.to_vec(alloc)?;
        chunk.extend_from_slice(behind)?;
        let mut into = b"> ".to_vec(alloc)?;
        assert_eq!(rt; list_bytes(alloc, &chunk, &mut into), result, "at {len}");
        let text: &[u8] = match result {
            Ok(()) =>
                b"> function 0 params 0 vararg 1 stack 2 lines 0 0\n0 VARARGPREP 0 0 0\n1 RETURN 0 1 1\nu 0 1 0 0\n",
            Err(_) => b"> ",
        };
        assert_eq!(rt; into.as_slice(), text, "at {len}");
    }
    Ok(())
}
