//! The outside in memory: reads, writes, and files.

use luf_io::{
    FileFault, Files, MemFiles, MemSink, MemSource, ReadErr, WriteErr, read_all, write_all,
};
use std::collections::BTreeMap;
use std::test::Fail;

const TEXT: &[u8] = b"print(1, 2)";

#[test]
fn reads_all(rt: HostRuntime) -> Result<(), Fail> {
    let alloc = rt.alloc();
    let mut source = MemSource::new(TEXT.to_vec(alloc)?, 4, Vec::new(alloc));
    let mut into = b"> ".to_vec(alloc)?;
    read_all(alloc, &mut source, TEXT.len(), &mut into)?;
    assert_eq!(rt; into.as_slice(), b"> print(1, 2)".as_slice());
    Ok(())
}

#[test]
fn one_byte_over_the_limit(rt: HostRuntime) -> Result<(), Fail> {
    let alloc = rt.alloc();
    let mut source = MemSource::new(TEXT.to_vec(alloc)?, 100, Vec::new(alloc));
    let mut into = b"> ".to_vec(alloc)?;
    let result = read_all(alloc, &mut source, TEXT.len() - 1, &mut into);
    assert_eq!(rt; result, Err(ReadErr::TooLarge));
    assert_eq!(rt; into.as_slice(), b"> ".as_slice());
    Ok(())
}

#[test]
fn the_second_pull_fails(rt: HostRuntime) -> Result<(), Fail> {
    let alloc = rt.alloc();
    let mut source = MemSource::new(TEXT.to_vec(alloc)?, 4, vec![in alloc; 2]?);
    let mut into = b"> ".to_vec(alloc)?;
    assert_eq!(rt;
        read_all(alloc, &mut source, 100, &mut into),
        Err(ReadErr::Fault)
    );
    assert_eq!(rt; into.as_slice(), b"> ".as_slice());

    // The next read goes on where that one stopped.
    read_all(alloc, &mut source, 100, &mut into)?;
    assert_eq!(rt; into.as_slice(), b"> t(1, 2)".as_slice());
    Ok(())
}

#[test]
fn writes_all(rt: HostRuntime) -> Result<(), Fail> {
    let alloc = rt.alloc();
    let mut sink = MemSink::new(alloc, TEXT.len(), 4, Vec::new(alloc))?;
    write_all(&mut sink, TEXT)?;
    write_all(&mut sink, b"")?;
    assert_eq!(rt; sink.written(), TEXT);
    Ok(())
}

#[test]
fn a_write_stops_at_a_fault(rt: HostRuntime) -> Result<(), Fail> {
    let alloc = rt.alloc();
    let mut full = MemSink::new(alloc, 5, 4, Vec::new(alloc))?;
    assert_eq!(rt; write_all(&mut full, TEXT), Err(WriteErr::Fault));
    assert_eq!(rt; full.written(), b"print".as_slice());

    let mut failing = MemSink::new(alloc, 100, 4, vec![in alloc; 2]?)?;
    assert_eq!(rt; write_all(&mut failing, TEXT), Err(WriteErr::Fault));
    assert_eq!(rt; failing.written(), b"prin".as_slice());
    Ok(())
}

// A file that is there, one that is not, and the fourth call fails.
#[test]
fn files_in_memory(rt: HostRuntime) -> Result<(), Fail> {
    let alloc = rt.alloc();
    let mut held = BTreeMap::new(alloc);
    held.insert(String::from_str(alloc, "a.lua")?, TEXT.to_vec(alloc)?)?;
    let mut files = MemFiles::new(alloc, held, vec![in alloc; 4]?);
    let mut into = b"> ".to_vec(alloc)?;
    for (name, most, wanted) in [
        ("a.lua", TEXT.len(), Ok(true)),
        ("a.lua", TEXT.len() - 1, Ok(false)),
        ("b.lua", 100, Err(FileFault::Failed)),
    ] {
        assert_eq!(rt; files.fetch(alloc, name, most, &mut into), wanted);
        assert_eq!(rt; into.as_slice(), b"> print(1, 2)".as_slice());
    }
    let failed = files.replace(alloc, "a.lua", b"x");
    assert_eq!(rt; failed, Err(FileFault::Failed));
    assert_eq!(rt; files.file("a.lua"), Some(TEXT));
    files.replace(alloc, "a.lua", b"x").unwrap_or(());
    files.replace(alloc, "b.lua", b"y").unwrap_or(());
    assert_eq!(rt; files.file("a.lua"), Some(b"x".as_slice()));
    assert_eq!(rt; files.file("b.lua"), Some(b"y".as_slice()));
    Ok(())
}
