ghost use Rattle.std.specs.Prelude.{◌<◌, ◌^◌, length, IfOk};
ghost use Rattle.luf_proto.specs.Chunk.{Fits};
ghost use Rattle.luf_proto.specs.FunctionOf.{function_of};

use crate::{ChunkErr, write_chunk};
use luf_proto::{Const, Proto, Upval};
use luf_text::Bytes;
use sqlite_items::Items;
use std::alloc::Global;
use std::test::Fail;

/// What `luac5.4 -s` writes of an empty source.
const EMPTY: [u8; 57] = [
    0x1b, 0x4c, 0x75, 0x61, 0x54, 0x00, 0x19, 0x93, 0x0d, 0x0a, 0x1a, 0x0a, 0x04, 0x08, 0x08, 0x78,
    0x56, 0, 0, 0, 0, 0, 0, 0, 0, 0, 0, 0, 0x28, 0x77, 0x40, 0x01, 0x80, 0x80, 0x80, 0x00, 0x01,
    0x02, 0x82, 0x51, 0x00, 0x00, 0x00, 0x46, 0x00, 0x01, 0x01, 0x80, 0x81, 0x01, 0x00, 0x00, 0x80,
    0x80, 0x80, 0x80, 0x80,
];

/// The main function of an empty source, but for its constants.
fn main_function(alloc: Global, consts: Vec<Const>) -> Result<Proto, Fail>
    requires { length consts.items < 2 ^ 31 }
    ensures { IfOk result (λ p. Fits (function_of p)) }
{
    let upvalue = Upval {
        instack: true,
        idx: 0,
        kind: 0,
    };
    Ok(Proto {
        numparams: 0,
        is_vararg: true,
        maxstack: 2,
        code: Items::from_slice(alloc, &[0x51, 0x1010046])?,
        consts: Items::from_vec(consts),
        upvals: Items::from_slice(alloc, &[upvalue])?,
        subs: Items::new(alloc),
        line_from: 0,
        line_to: 0,
    })
}

#[test]
fn writes_the_empty_chunk(rt: HostRuntime) -> Result<(), Fail> {
    let main = main_function(rt.alloc(), Vec::new(rt.alloc()))?;
    let mut into = b">".to_vec(rt.alloc())?;
    write_chunk(rt.alloc(), &main, &mut into)?;
    assert_eq!(rt; &into[1..], EMPTY.as_slice());
    Ok(())
}

/// A float as its word, and one that has none, after which the bytes are as before.
#[test]
fn writes_floats(rt: HostRuntime) -> Result<(), Fail> {
    let table: [(&[u8], Option<u64>); 2] = [
        (b"0.1", Some(0x3fb9_9999_9999_999a)),
        (b"1e400", None),
    ];
    for (spelling, word) in table {
        let mut consts = Vec::new(rt.alloc());
        consts.push(Const::Spelled(Bytes::copy(rt.alloc(), spelling)?))?;
        let main = main_function(rt.alloc(), consts)?;
        let mut into = b">".to_vec(rt.alloc())?;
        match (write_chunk(rt.alloc(), &main, &mut into), word) {
            (Ok(()), Some(word)) => {
                let mut wanted = b">".to_vec(rt.alloc())?;
                wanted.extend_from_slice(&EMPTY[..47])?;
                wanted.extend_from_slice(&[0x81, 0x13])?;
                wanted.extend_from_slice(&word.to_le_bytes())?;
                wanted.extend_from_slice(&EMPTY[48..])?;
                assert_eq!(rt; into.as_slice(), wanted.as_slice());
            }
            (Err(ChunkErr::FloatReach { .. }), None) => assert_eq!(rt;
                into.as_slice(),
                b">".as_slice()
            ),
            _ => assert!(rt; false, "{spelling:?}"),
        }
    }
    Ok(())
}
