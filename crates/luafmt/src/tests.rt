use super::*;
use luf_io::{Failed, FileFault, Files, MemFiles, MemSink, MemSource, Sink, Source};
use std::alloc::Global;
use std::collections::BTreeMap;
use std::fs;
use std::os::unix::fs::symlink;
use std::test::Fail;
use streams::{StreamSink, StreamSource};

// The words between `|`.
fn words_of(alloc: Global, line: &str) -> Result<Vec<String>, AllocError> {
    let mut words = Vec::new(alloc);
    if line.is_empty() {
        return Ok(words);
    }
    for word in line.split('|') {
        words.push(String::from_str(alloc, word)?)?;
    }
    Ok(words)
}

// So many times this byte behind a front. The number is a parameter so that no proof writes out the list.
fn repeated(alloc: Global, front: &str, byte: u8, count: usize) -> Result<Vec<u8>, Fail> {
    let mut bytes = front.as_bytes().to_vec(alloc)?;
    for _ in 0..count {
        bytes.push(byte)?;
    }
    Ok(bytes)
}

// Files in memory, of which the call of this number fails.
fn files_failing(alloc: Global, call: u64) -> Result<MemFiles, Fail> {
    let mut held = BTreeMap::new(alloc);
    for (name, text) in [
        ("a.lua", "break"),
        ("b.lua", "@"),
        ("ok.lua", "x = 1"),
        ("even.lua", "x = 1\n"),
        ("-", "y = 2"),
        ("--help", "z = 3"),
        ("good.toml", "column_width = 80"),
        ("narrow.toml", "column_width = 20"),
        ("key.toml", "indent = 4"),
        ("value.toml", "column_width = 0"),
        ("a b\u{e9}", "("),
    ] {
        held.insert(
            String::from_str(alloc, name)?,
            text.as_bytes().to_vec(alloc)?,
        )?;
    }
    Ok(MemFiles::new(alloc, held, vec![in alloc; call]?))
}

// What a run over objects in memory answers and writes.
fn ran(
    alloc: Global,
    line: &str,
    source: &str,
    call: u64,
) -> Result<(Status, MemSink, MemSink), Fail> {
    ran_over(alloc, line, source, &mut files_failing(alloc, call)?)
}

// The same over these files.
fn ran_over(
    alloc: Global,
    line: &str,
    source: &str,
    files: &mut MemFiles,
) -> Result<(Status, MemSink, MemSink), Fail> {
    let words = words_of(alloc, line)?;
    let mut input = MemSource::new(source.as_bytes().to_vec(alloc)?, 3, Vec::new(alloc));
    let mut out = MemSink::new(alloc, 100, 1, Vec::new(alloc))?;
    let mut errs = MemSink::new(alloc, 100, 4, Vec::new(alloc))?;
    let status = run::run(alloc, &words, files, &mut input, &mut out, &mut errs);
    Ok((status, out, errs))
}

// The same over the files, and whether `ok.lua` then holds this text.
fn ran_holding(
    alloc: Global,
    line: &str,
    call: u64,
    held: &str,
) -> Result<(Status, MemSink, MemSink, bool), Fail> {
    let mut files = files_failing(alloc, call)?;
    let (status, out, errs) = ran_over(alloc, line, "", &mut files)?;
    let same = match files.file("ok.lua") {
        Some(bytes) => bytes == held.as_bytes(),
        None => false,
    };
    Ok((status, out, errs, same))
}

#[test]
fn rows(rt: HostRuntime) -> Result<(), Fail> {
    let alloc = rt.alloc();
    for (line, source, status, text, refusal) in [
        (
            "minify",
            "local  x = 1\nreturn x\n",
            Status::Done,
            "local a=1 return a",
            "",
        ),
        (
            "minify",
            "local x = 1 -- c\nreturn x",
            Status::Done,
            "local a=1 return a",
            "",
        ),
        ("minify", "", Status::Done, "", ""),
        ("minify", "f ( ) ; g{}", Status::Done, "f()g{}", ""),
        (
            "minify",
            "#!lua\nreturn x",
            Status::Done,
            "#!lua\nreturn x",
            "",
        ),
        ("minify", "x = = 1", Status::Refused, "", "-:1:5: Syntax\n"),
        (
            "minify",
            "return (\n",
            Status::Refused,
            "",
            "-:2:1: Syntax\n",
        ),
        ("check", "local x = 1", Status::Done, "", ""),
        (
            "check",
            "break",
            Status::Refused,
            "",
            "-:1:1: BreakOutside\n",
        ),
        (
            "minify",
            "local x<const> =1 x=2",
            Status::Refused,
            "",
            "-:1:19: ConstAssign\n",
        ),
        ("list", "x=1", Status::Refused, "", "-:0: BadHeader\n"),
        ("", "", Status::Usage, "", "luafmt: Usage\n"),
        ("compile", "", Status::Usage, "", "luafmt: Usage\n"),
        ("check|--help", "", Status::Usage, "", "luafmt: Usage\n"),
    ] {
        let (result, out, errs) = ran(alloc, line, source, 0)?;
        assert_eq!(rt; result, status, "{line} {source}");
        assert_eq!(rt; out.written(), text.as_bytes(), "{line} {source}");
        assert_eq!(rt; errs.written(), refusal.as_bytes(), "{line} {source}");
    }
    Ok(())
}

// Sources that have no tokens from some place on.
#[test]
fn lexical_refusals(rt: HostRuntime) -> Result<(), Fail> {
    let alloc = rt.alloc();
    for (source, refusal) in [
        ("@", "-:1:1: NoToken\n"),
        ("return 3..2", "-:1:8: BadNumeral\n"),
        ("local x = 1return x", "-:1:11: BadNumeral\n"),
        ("return \"\\q\"", "-:1:8: BadEscape\n"),
        ("x = \"a", "-:1:5: OpenString\n"),
        ("--[[", "-:1:1: OpenLong\n"),
        ("return x\r\n\n  [=[ ]] ", "-:3:3: OpenLong\n"),
    ] {
        let (result, out, errs) = ran(alloc, "minify", source, 0)?;
        assert_eq!(rt; result, Status::Refused, "{source}");
        assert_eq!(rt; out.written(), b"".as_slice(), "{source}");
        assert_eq!(rt; errs.written(), refusal.as_bytes(), "{source}");
    }
    Ok(())
}

// The limits of a source, of its text, and of its levels.
#[test]
fn limits(rt: HostRuntime) -> Result<(), Fail> {
    let alloc = rt.alloc();
    let words = words_of(alloc, "minify")?;
    for (front, byte, count, status, refusal) in [
        ("", b' ', 4194304, Status::Done, ""),
        ("", b' ', 4194305, Status::Refused, "-: TooLarge\n"),
        ("#", b'a', 4194303, Status::Refused, "-: ResultTooLarge\n"),
        ("return ", b'(', 200, Status::Refused, "-:1:208: Syntax\n"),
        ("return ", b'(', 201, Status::Refused, "-:1:208: TooDeep\n"),
    ] {
        let source = repeated(alloc, front, byte, count)?;
        let mut input = MemSource::new(source, 100000, Vec::new(alloc));
        let mut out = MemSink::new(alloc, 0, 1, Vec::new(alloc))?;
        let mut errs = MemSink::new(alloc, 100, 100, Vec::new(alloc))?;
        let result = run::run(
            alloc,
            &words,
            &mut files_failing(alloc, 0)?,
            &mut input,
            &mut out,
            &mut errs,
        );
        assert_eq!(rt; result, status, "{count}");
        assert_eq!(rt; errs.written(), refusal.as_bytes(), "{count}");
    }
    Ok(())
}

// Files by name, in order, and the status of the first that is not `Done`.
#[test]
fn files(rt: HostRuntime) -> Result<(), Fail> {
    let alloc = rt.alloc();
    let both = "a.lua:1:1: BreakOutside\nb.lua:1:1: NoToken\n";
    for (line, call, status, text, refusals) in [
        ("minify|ok.lua", 0, Status::Done, "x=1", ""),
        ("check|ok.lua|ok.lua", 0, Status::Done, "", ""),
        ("check|a.lua|b.lua", 0, Status::Refused, "", both),
        (
            "check|a.lua|ok.lua|b.lua|ok.lua",
            0,
            Status::Refused,
            "",
            both,
        ),
        (
            "check|a b\u{e9}",
            0,
            Status::Refused,
            "",
            "a b\u{e9}:1:2: Syntax\n",
        ),
        ("minify|-", 0, Status::Done, "y=2", ""),
        ("minify|--|--help", 0, Status::Done, "z=3", ""),
        (
            "minify|ok.lua|ok.lua",
            0,
            Status::Usage,
            "",
            "luafmt: Usage\n",
        ),
        (
            "check|--none|ok.lua",
            0,
            Status::Usage,
            "",
            "luafmt: Usage\n",
        ),
        (
            "list|ok.lua",
            0,
            Status::Refused,
            "",
            "ok.lua:0: BadHeader\n",
        ),
        ("check|", 0, Status::ReadFault, "", ""),
        ("check|ok.lua|no.lua|a.lua", 0, Status::ReadFault, "", ""),
        (
            "check|a.lua|no.lua|b.lua",
            0,
            Status::ReadFault,
            "",
            "a.lua:1:1: BreakOutside\n",
        ),
        ("check|a.lua|ok.lua|b.lua", 1, Status::ReadFault, "", ""),
        (
            "check|a.lua|ok.lua|b.lua",
            2,
            Status::ReadFault,
            "",
            "a.lua:1:1: BreakOutside\n",
        ),
        (
            "check|a.lua|ok.lua|b.lua",
            3,
            Status::ReadFault,
            "",
            "a.lua:1:1: BreakOutside\n",
        ),
        ("check|a.lua|ok.lua|b.lua", 4, Status::Refused, "", both),
    ] {
        let (result, out, errs) = ran(alloc, line, "", call)?;
        assert_eq!(rt; result, status, "{line} {call}");
        assert_eq!(rt; out.written(), text.as_bytes(), "{line} {call}");
        assert_eq!(rt; errs.written(), refusals.as_bytes(), "{line} {call}");
    }
    Ok(())
}

// What `format` makes of its words and of its file of options, before any text.
#[test]
fn format_words(rt: HostRuntime) -> Result<(), Fail> {
    let alloc = rt.alloc();
    let usage = "luafmt: Usage\n";
    let no_token = "b.lua:1:1: NoToken\n";
    for (line, call, status, refusals) in [
        ("format|b.lua|b.lua", 0, Status::Usage, usage),
        ("format|--check", 0, Status::Usage, usage),
        ("format|--write", 0, Status::Usage, usage),
        ("format|--check|--write|b.lua", 0, Status::Usage, usage),
        ("format|--check|--check|b.lua", 0, Status::Usage, usage),
        ("format|-c|b.lua", 0, Status::Usage, usage),
        ("format|b.lua|--config", 0, Status::Usage, usage),
        ("check|--check|b.lua", 0, Status::Usage, usage),
        ("minify|--config|good.toml|b.lua", 0, Status::Usage, usage),
        ("format|b.lua", 0, Status::Refused, no_token),
        ("format|b.lua|--check", 0, Status::Refused, no_token),
        (
            "format|--write|b.lua|no.lua",
            0,
            Status::ReadFault,
            no_token,
        ),
        ("format|no.lua", 0, Status::ReadFault, ""),
        (
            "format|--config|good.toml|b.lua",
            0,
            Status::Refused,
            no_token,
        ),
        ("format|--config|no.toml|b.lua", 0, Status::ReadFault, ""),
        ("format|--config|good.toml|b.lua", 1, Status::ReadFault, ""),
        (
            "format|--config=b.lua|b.lua",
            0,
            Status::Config,
            "b.lua: NotToml\n",
        ),
        (
            "format|--check|b.lua|--config|key.toml",
            0,
            Status::Config,
            "key.toml: UnknownKey indent\n",
        ),
        (
            "format|--config|value.toml|no.lua",
            0,
            Status::Config,
            "value.toml: BadValue column_width\n",
        ),
    ] {
        let (result, out, errs) = ran(alloc, line, "", call)?;
        assert_eq!(rt; result, status, "{line} {call}");
        assert_eq!(rt; out.written(), b"".as_slice(), "{line} {call}");
        assert_eq!(rt; errs.written(), refusals.as_bytes(), "{line} {call}");
    }
    Ok(())
}

// What `format` shows, in lines of the usual width and of 20 columns.
#[test]
fn format_shows(rt: HostRuntime) -> Result<(), Fail> {
    let alloc = rt.alloc();
    for (line, source, text) in [
        ("format", "", ""),
        ("format", "x  =  1 -- c", "x = 1 -- c\n"),
        ("format", "f{'a'};\n\n\n(g)()", "f({ \"a\" })\n\n;(g)()\n"),
        ("format|even.lua", "", "x = 1\n"),
        (
            "format",
            "x={--[[c]] aaaa,bbbb,cccc}",
            "x = { --[[c]] aaaa, bbbb, cccc }\n",
        ),
        (
            "format|--config|narrow.toml",
            "x={--[[c]] aaaa,bbbb,cccc}",
            "x = { --[[c]]\n\taaaa,\n\tbbbb,\n\tcccc,\n}\n",
        ),
    ] {
        let (result, out, errs) = ran(alloc, line, source, 0)?;
        assert_eq!(rt; result, Status::Done, "{line} {source}");
        assert_eq!(rt; out.written(), text.as_bytes(), "{line} {source}");
        assert_eq!(rt; errs.written(), b"".as_slice(), "{line} {source}");
    }
    Ok(())
}

// What becomes of files, of which `even.lua` alone is its own text, and what `ok.lua` then holds. Where the call that fails is
// one behind the last, there is no such call.
#[test]
fn format_files(rt: HostRuntime) -> Result<(), Fail> {
    let alloc = rt.alloc();
    let no_token = "b.lua:1:1: NoToken\n";
    let differs = "ok.lua: Differs\n";
    let both = "b.lua:1:1: NoToken\nok.lua: Differs\n";
    for (line, call, status, lines, held) in [
        ("format|--check|even.lua", 2, Status::Done, "", "x = 1"),
        (
            "format|--check|ok.lua",
            2,
            Status::Differs,
            differs,
            "x = 1",
        ),
        (
            "format|--check|b.lua|ok.lua",
            0,
            Status::Refused,
            both,
            "x = 1",
        ),
        (
            "format|--check|even.lua|ok.lua",
            0,
            Status::Differs,
            differs,
            "x = 1",
        ),
        ("format|--write|even.lua", 2, Status::Done, "", "x = 1"),
        ("format|--write|ok.lua", 0, Status::Done, "", "x = 1\n"),
        (
            "format|--write|ok.lua|ok.lua",
            4,
            Status::Done,
            "",
            "x = 1\n",
        ),
        (
            "format|--write|ok.lua|b.lua",
            2,
            Status::WriteFault,
            "",
            "x = 1",
        ),
        (
            "format|--write|b.lua|ok.lua",
            0,
            Status::Refused,
            no_token,
            "x = 1\n",
        ),
    ] {
        let (result, out, errs, same) = ran_holding(alloc, line, call, held)?;
        assert_eq!(rt; result, status, "{line}");
        assert_eq!(rt; out.written(), b"".as_slice(), "{line}");
        assert_eq!(rt; errs.written(), lines.as_bytes(), "{line}");
        assert!(rt; same, "{line}");
    }
    Ok(())
}

// The limit of a file of options. The input is refused.
#[test]
fn large_options(rt: HostRuntime) -> Result<(), Fail> {
    let alloc = rt.alloc();
    let words = words_of(alloc, "format|--config|large")?;
    for (count, status, refusal) in [
        (65535, Status::Refused, "-:1:1: NoToken\n"),
        (65536, Status::Config, "large: TooLarge\n"),
    ] {
        let mut held = BTreeMap::new(alloc);
        held.insert(
            String::from_str(alloc, "large")?,
            repeated(alloc, "#", b'a', count)?,
        )?;
        let mut input = MemSource::new(b"@".to_vec(alloc)?, 1, Vec::new(alloc));
        let mut out = MemSink::new(alloc, 0, 1, Vec::new(alloc))?;
        let mut errs = MemSink::new(alloc, 100, 100, Vec::new(alloc))?;
        let result = run::run(
            alloc,
            &words,
            &mut MemFiles::new(alloc, held, Vec::new(alloc)),
            &mut input,
            &mut out,
            &mut errs,
        );
        assert_eq!(rt; result, status, "{count}");
        assert_eq!(rt; errs.written(), refusal.as_bytes(), "{count}");
    }
    Ok(())
}

// Each object fails in turn: `input` at its second pull, `out` where its room ends, `errs` at once.
#[test]
fn faults(rt: HostRuntime) -> Result<(), Fail> {
    let alloc = rt.alloc();
    for (line, pull, room, status, text) in [
        ("minify", 2, 100, Status::ReadFault, ""),
        ("minify", 100, 7, Status::WriteFault, "local a"),
        ("minify", 100, 9, Status::Done, "local a=1"),
        ("", 100, 100, Status::WriteFault, ""),
    ] {
        let words = words_of(alloc, line)?;
        let mut input = MemSource::new(b"local a = 1".to_vec(alloc)?, 1, vec![in alloc; pull]?);
        let mut out = MemSink::new(alloc, room, 1, Vec::new(alloc))?;
        let mut errs = MemSink::new(alloc, 0, 1, Vec::new(alloc))?;
        let result = run::run(
            alloc,
            &words,
            &mut files_failing(alloc, 0)?,
            &mut input,
            &mut out,
            &mut errs,
        );
        assert_eq!(rt; result, status, "{line} {pull} {room}");
        assert_eq!(rt; out.written(), text.as_bytes(), "{line} {pull} {room}");
    }
    Ok(())
}

// A writer that takes nothing has failed.
#[test]
fn streams_in_memory(rt: HostRuntime) -> Result<(), Fail> {
    let mut into = [0; 8];
    let mut source = StreamSource::new(b"local".as_slice());
    assert_eq!(rt; source.pull(&mut into), Ok(5));
    assert_eq!(rt; &into[..5], b"local".as_slice());
    assert_eq!(rt; source.pull(&mut into), Ok(0));

    let mut room = [0; 3];
    let mut sink = StreamSink::new(room.as_mut_slice());
    assert_eq!(rt; sink.put(b"local"), Ok(3));
    assert_eq!(rt; sink.put(b"al"), Err(Failed));
    assert_eq!(rt; sink.put(b""), Ok(0));
    Ok(())
}

// The tests' input is empty.
#[test]
fn standard_streams(rt: HostRuntime) {
    assert_eq!(rt; StreamSource::new(rt.stdin()).pull(&mut [0; 8]), Ok(0));
    assert_eq!(rt; StreamSink::new(rt.stdout()).put(b""), Ok(0));
    assert_eq!(rt; StreamSink::new(rt.stderr()).put(b""), Ok(0));
}

// A file of the system, behind a link: it is read within a limit, and replaced whole under the permissions that it has.
#[test]
fn files_of_the_system(rt: HostRuntime) -> Result<(), Fail> {
    let alloc = rt.alloc();
    let mut files = DiskFiles::new(&rt);
    let mut into = Vec::new(alloc);
    fs::write(&rt, "luafmt_test.lua", "x = 1")?;
    symlink(&rt, "luafmt_test.lua", "luafmt_test_link.lua")?;
    let before = fs::metadata(&rt, "luafmt_test.lua")?.permissions();
    for (most, wanted) in [(5, Ok(true)), (4, Ok(false))] {
        assert_eq!(rt;
            files.fetch(alloc, "luafmt_test_link.lua", most, &mut into),
            wanted
        );
        assert_eq!(rt; into.as_slice(), b"x = 1".as_slice());
    }
    let replaced = files.replace(alloc, "luafmt_test_link.lua", b"y = 2");
    assert_eq!(rt; replaced, Ok(()));
    let text = fs::read(&rt, "luafmt_test.lua")?;
    assert_eq!(rt; text.as_slice(), b"y = 2".as_slice());
    let after = fs::metadata(&rt, "luafmt_test.lua")?.permissions();
    assert!(rt; before == after);
    assert!(rt; fs::symlink_metadata(&rt, "luafmt_test_link.lua")?.is_symlink());
    assert!(rt; !fs::exists(&rt, "luafmt_test.lua.luafmt0")?);
    fs::remove_file(&rt, "luafmt_test_link.lua")?;
    fs::remove_file(&rt, "luafmt_test.lua")?;
    let missing = files.fetch(alloc, "luafmt_test.lua", 5, &mut into);
    assert_eq!(rt; missing, Err(FileFault::Failed));
    let missing = files.replace(alloc, "luafmt_test.lua", b"");
    assert_eq!(rt; missing, Err(FileFault::Failed));
    Ok(())
}
