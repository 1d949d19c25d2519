use crate::{ChunkWhat, UndumpErr, read_chunk};
use luf_proto::Proto;
use std::alloc::Global;
use std::process::Abort;
use std::test::Fail;

/// What `luac5.4 -s` writes of an empty source.
const EMPTY: [u8; 57] = [
    0x1b, 0x4c, 0x75, 0x61, 0x54, 0x00, 0x19, 0x93, 0x0d, 0x0a, 0x1a, 0x0a, 0x04, 0x08, 0x08, 0x78,
    0x56, 0, 0, 0, 0, 0, 0, 0, 0, 0, 0, 0, 0x28, 0x77, 0x40, 0x01, 0x80, 0x80, 0x80, 0x00, 0x01,
    0x02, 0x82, 0x51, 0x00, 0x00, 0x00, 0x46, 0x00, 0x01, 0x01, 0x80, 0x81, 0x01, 0x00, 0x00, 0x80,
    0x80, 0x80, 0x80, 0x80,
];

/// What is read of the chunk with these bytes in place of `len` bytes from `at` on: nothing, or the first wrong field.
fn read(
    rt: &impl Abort,
    alloc: Global,
    at: usize,
    len: usize,
    bytes: &[u8],
) -> Result<Result<Proto, UndumpErr>, Fail> {
    let (front, rest) = EMPTY.split_at(at.min(EMPTY.len()));
    let (_, back) = rest.split_at(len.min(rest.len()));
    let mut chunk = front.to_vec(alloc)?;
    chunk.extend_from_slice(bytes)?;
    chunk.extend_from_slice(back)?;
    assert!(rt; chunk.len() <= 4_194_304, "{at}");
    Ok(read_chunk(alloc, chunk.as_slice()))
}

#[test]
fn reads(rt: HostRuntime) -> Result<(), Fail> {
    let table: [(usize, usize, &[u8]); 5] = [
        (0, 0, b""),
        (32, 1, b"\x83@x"),
        (
            47,
            1,
            b"\x81\x04\xa90123456789012345678901234567890123456789",
        ),
        (
            47,
            1,
            b"\x81\x14\xaa01234567890123456789012345678901234567890",
        ),
        (
            53,
            4,
            b"\x81\x05\x81\x80\x81\x81\x82a\x80\x82\x82\x85_ENV\x80",
        ),
    ];
    for (at, len, bytes) in table {
        match read(&rt, rt.alloc(), at, len, bytes)? {
            Ok(main) => assert_eq!(rt; main.code.as_slice(), [0x51, 0x1010046].as_slice()),
            Err(e) => assert!(rt; false, "{e:?}"),
        }
    }
    Ok(())
}

/// The first wrong field, with its place and its word.
#[test]
fn refuses(rt: HostRuntime) -> Result<(), Fail> {
    let table: [(usize, usize, &[u8], u32, ChunkWhat); 17] = [
        (4, 1, b"\x53", 4, ChunkWhat::BadHeader),
        (57, 0, b"\x00", 57, ChunkWhat::Trailing),
        (38, 1, b"\x07\x7f\x7f\x7f\xff", 59, ChunkWhat::Short),
        (38, 1, b"\x08\x00\x00\x00\x80", 38, ChunkWhat::BadSize),
        (38, 1, b"\x00\x82", 38, ChunkWhat::BadSize),
        (38, 19, b"\x00", 38, ChunkWhat::Short),
        (
            32,
            1,
            b"\x01\x7f\x7f\x7f\x7f\x7f\x7f\x7f\x7f\xff",
            42,
            ChunkWhat::Short,
        ),
        (
            32,
            1,
            b"\x02\x00\x00\x00\x00\x00\x00\x00\x00\x80",
            32,
            ChunkWhat::BadSize,
        ),
        (36, 1, b"\x02", 36, ChunkWhat::BadTag),
        (47, 1, b"\x81\x02", 48, ChunkWhat::BadTag),
        (47, 1, b"\x81\x04\x80", 49, ChunkWhat::BadSize),
        (
            47,
            1,
            b"\x81\x14\xa90123456789012345678901234567890123456789",
            49,
            ChunkWhat::BadSize,
        ),
        (
            47,
            1,
            b"\x81\x04\xaa01234567890123456789012345678901234567890",
            49,
            ChunkWhat::BadSize,
        ),
        (48, 1, b"\x82", 48, ChunkWhat::BadSize),
        (49, 1, b"\x02", 49, ChunkWhat::BadTag),
        (51, 1, b"\x04", 51, ChunkWhat::BadTag),
        (
            52,
            1,
            b"\x81\x80\x80\x80\x00\x00\x02\x80\x80\x02\x80",
            61,
            ChunkWhat::BadSize,
        ),
    ];
    for (at, len, bytes, wrong, what) in table {
        match read(&rt, rt.alloc(), at, len, bytes)? {
            Ok(_) => assert!(rt; false, "{what:?}"),
            Err(e) => assert_eq!(rt; e, UndumpErr::Bad { at: wrong, what }),
        }
    }
    Ok(())
}

/// Each chunk that is cut off.
#[test]
fn refuses_what_is_short(rt: HostRuntime) -> Result<(), Fail> {
    for len in 0..EMPTY.len() {
        match read_chunk(rt.alloc(), &EMPTY[..len]) {
            Err(UndumpErr::Bad { what, .. }) => assert_eq!(rt; what, ChunkWhat::Short),
            _ => assert!(rt; false, "{len}"),
        }
    }
    Ok(())
}

/// Functions so many levels below main.
fn nested(rt: &impl Abort, alloc: Global, levels: usize) -> Result<Result<Proto, UndumpErr>, Fail> {
    let mut bytes = Vec::new(alloc);
    for _ in 0..levels {
        bytes.extend_from_slice(b"\x81\x80\x80\x80\x00\x00\x02\x80\x80\x80")?;
    }
    bytes.push(0x80)?;
    for _ in 0..levels {
        bytes.extend_from_slice(b"\x80\x80\x80\x80")?;
    }
    read(rt, alloc, 52, 1, bytes.as_slice())
}

#[test]
fn refuses_what_is_too_deep(rt: HostRuntime) -> Result<(), Fail> {
    assert!(rt; nested(&rt, rt.alloc(), 200)?.is_ok(), "200");
    match nested(&rt, rt.alloc(), 201)? {
        Ok(_) => assert!(rt; false, "201"),
        Err(e) => assert_eq!(rt;
            e,
            UndumpErr::Bad {
                at: 2053,
                what: ChunkWhat::Nested
            }
        ),
    }
    Ok(())
}
