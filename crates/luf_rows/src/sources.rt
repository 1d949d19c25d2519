//! Sources that are made.

use std::alloc::Global;
use std::test::Fail;

/// A front, so many times an opening, a middle, and as many times what closes. The number is a parameter so that no
/// proof writes out the list.
pub(crate) fn nested(
    alloc: Global,
    front: &[u8],
    open: &[u8],
    middle: &[u8],
    close: &[u8],
    count: usize,
) -> Result<Vec<u8>, Fail> {
    let mut source = front.to_vec(alloc)?;
    for _ in 0..count {
        source.extend_from_slice(open)?;
    }
    source.extend_from_slice(middle)?;
    for _ in 0..count {
        source.extend_from_slice(close)?;
    }
    Ok(source)
}

/// A front and so many times this byte.
pub(crate) fn repeated(
    alloc: Global,
    front: &[u8],
    byte: u8,
    count: usize,
) -> Result<Vec<u8>, Fail> {
    let mut source = front.to_vec(alloc)?;
    for _ in 0..count {
        source.push(byte)?;
    }
    Ok(source)
}
