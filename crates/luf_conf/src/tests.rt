// Options of texts, as the table of keys tells them.
use crate::{ConfErr, Options, options};
use luf_quote::{CallStyle, QuoteStyle};
use std::alloc::Global;

const USUAL: Options = Options {
    column_width: 120,
    tabs: true,
    indent_width: 4,
    quotes: QuoteStyle::AutoPreferDouble,
    calls: CallStyle::Always,
};

fn tells(alloc: Global, text: &[u8], wanted: Options) -> bool {
    match options(alloc, text) {
        Ok(told) => told == wanted,
        Err(_) => false,
    }
}

fn is_unknown(alloc: Global, text: &[u8], key: &[u8]) -> bool {
    match options(alloc, text) {
        Err(ConfErr::UnknownKey(told)) => told.as_slice() == key,
        _ => false,
    }
}

fn is_bad(alloc: Global, text: &[u8], key: &[u8]) -> bool {
    match options(alloc, text) {
        Err(ConfErr::BadValue(told)) => told.as_slice() == key,
        _ => false,
    }
}

fn is_no_toml(alloc: Global, text: &[u8]) -> bool {
    match options(alloc, text) {
        Err(ConfErr::NotToml) => true,
        _ => false,
    }
}

#[test]
fn told_options(rt: HostRuntime) {
    let all = Options {
        column_width: 10_000,
        tabs: false,
        indent_width: 16,
        quotes: QuoteStyle::ForceSingle,
        calls: CallStyle::NoSingleTable,
    };
    let rows: [(&[u8], Options); 4] = [
        (b"", USUAL),
        (b"# nothing\nline_endings = \"Unix\"\n", USUAL),
        (
            b"column_width = 1",
            Options {
                column_width: 1,
                ..USUAL
            },
        ),
        (
            b"quote_style = 'ForceSingle'\ncall_parentheses = \"NoSingleTable\"\nindent_type = \"Spaces\"\nindent_width = 0x10\ncolumn_width = 10_000\ncollapse_simple_statement = \"Never\"\n",
            all,
        ),
    ];
    for (text, wanted) in rows {
        assert!(rt; tells(rt.alloc(), text, wanted), "of {text:?}");
    }
}

#[test]
fn refused_options(rt: HostRuntime) {
    let unknown: [(&[u8], &[u8]); 3] = [
        (b"indent = 4", b"indent"),
        (b"b = 1\na = 1", b"a"),
        (b"indent_width = 99\n\"\\u0001\" = 1", b"\x01"),
    ];
    for (text, key) in unknown {
        assert!(rt; is_unknown(rt.alloc(), text, key), "of {text:?}");
    }
    let bad: [(&[u8], &[u8]); 8] = [
        (b"quote_style = \"Single\"", b"quote_style"),
        (b"column_width = 0", b"column_width"),
        (b"column_width = 10001", b"column_width"),
        (b"column_width = -1", b"column_width"),
        (b"indent_width = 17\nindent_type = 1", b"indent_type"),
        (b"indent_width = 4.0\nzebra = 1", b"indent_width"),
        (b"[call_parentheses]\nNone = 1", b"call_parentheses"),
        (b"line_endings = \"Windows\"", b"line_endings"),
    ];
    for (text, key) in bad {
        assert!(rt; is_bad(rt.alloc(), text, key), "of {text:?}");
    }
    let none: [&[u8]; 3] = [b"=", b"column_width = 1\ncolumn_width = 2", b"# \xff"];
    for text in none {
        assert!(rt; is_no_toml(rt.alloc(), text), "of {text:?}");
    }
}
