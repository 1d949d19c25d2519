// The start of a source: a byte order mark and a `#` line.
ghost use Rattle.std.specs.Prelude.{◌≡◌, ◌≤◌, [], length, IfOk, OnOk};
ghost use Rattle.std.specs.List.{prefix_len};
ghost use Rattle.std.specs.Option.{option_copied};
ghost use Rattle.luf_byte.specs.Class.{in_line};
ghost use Rattle.luf_lex.specs.Cut.{head_of, head_end, mark_length, hash_length, hash_line_of};
ghost use Rattle.luf_lex.specs.inner.Filled.{filled, last_end};
ghost use Rattle.luf_lex.specs.inner.Growing.{IsGrown};

use crate::Kind;
use crate::growing::Growing;
use luf_memory::Memory;
use memchr::memchr2;

/// The first line of a source, if it begins with `#`, without its line end. Only a mark may stand before it.
pub fn hash_line(src: &[u8]) -> Option<&[u8]>
    ensures { option_copied result ≡ hash_line_of src.now }
{
    let mark = mark_len(src);
    let end = head_len(src);
    if end == mark {
        None
    } else {
        Some(&src[mark..end])
    }
}

/// Puts a mark and a `#` line at the start of a source, and answers where they end.
pub(crate) fn push_head(src: &[u8], growing: &mut Growing) -> Result<usize, Memory>
    requires few { length src.now ≤ 16777216 }
    requires none { growing.old.pieces.items ≡ [] }
    requires grown { IsGrown growing.old.tokens.items growing.old.comments.items growing.old.pieces.items }
    ensures pieces { IfOk result (λ end. filled 0 growing.new.pieces.items end ≡ head_of src.now) }
    ensures grown { OnOk result (IsGrown growing.new.tokens.items growing.new.comments.items growing.new.pieces.items) }
    ensures end { IfOk result (λ end. end ≡ head_end src.now) }
    ensures last { IfOk result (λ end. last_end 0 growing.new.pieces.items ≡ end) }
    ensures within { IfOk result (λ end. end ≤ length src.now) }
    ensures few { IfOk result (λ end. length growing.new.pieces.items ≤ end) }
{
    let mark = mark_len(src);
    let end = head_len(src);
    if mark != 0 {
        growing.push_other(Kind::Mark, 0, mark)?;
    }
    if end != mark {
        growing.push_other(Kind::HashLine, mark, end)?;
    }
    Ok(end)
}

/// Where a mark and a `#` line at the start of a source end.
fn head_len(src: &[u8]) -> usize
    ensures end { result ≡ head_end src.now }
    ensures within { result ≤ length src.now }
    ensures behind { mark_length src.now ≤ result }
{
    let mark = mark_len(src);
    mark + hash_len(&src[mark..])
}

fn mark_len(src: &[u8]) -> usize
    ensures mark { result ≡ mark_length src.now }
    ensures within { result ≤ length src.now }
{
    if src.starts_with(b"\xEF\xBB\xBF") {
        3
    } else {
        0
    }
}

fn hash_len(text: &[u8]) -> usize
    ensures hash { result ≡ hash_length text.now }
    ensures within { result ≤ length text.now }
{
    match text {
        [b'#', ..] => line_run(text),
        _ => 0,
    }
}

/// How many bytes stand before the first line end.
fn line_run(text: &[u8]) -> usize
    ensures run { result ≡ prefix_len in_line text.now }
    ensures within { result ≤ length text.now }
{
    match memchr2(b'\n', b'\r', text) {
        Some(end) => end,
        None => text.len(),
    }
}
