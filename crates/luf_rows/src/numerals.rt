//! Numerals and their numbers, by the forms of the Lua 5.4 manual, 3.1.

use luf_num::{Number, float_word, number_of};

/// Each spelling with its number.
#[test]
fn reads_numerals(rt: HostRuntime) {
    let table: [(&[u8], Option<Number>); 28] = [
        (b"0", Some(Number::Int(0))),
        (b"9223372036854775807", Some(Number::Int(i64::MAX))),
        (b"9223372036854775808", Some(Number::Float)),
        (b"0xffffffffffffffff", Some(Number::Int(-1))),
        (b"0x7fffffffffffffff", Some(Number::Int(i64::MAX))),
        (b"0x1ffffffffffffffff", Some(Number::Int(-1))),
        (b"3.", Some(Number::Float)),
        (b".5", Some(Number::Float)),
        (b"3e2", Some(Number::Float)),
        (b"3e+2", Some(Number::Float)),
        (b"3E-", None),
        (b"1e", None),
        (b"1e+", None),
        (b"0x", None),
        (b"0x.p1", None),
        (b"0x.1p1", Some(Number::Float)),
        (b"0xA.8", Some(Number::Float)),
        (b"0x1p-", None),
        (b"0x1p4", Some(Number::Float)),
        (b"3..2", None),
        (b"3x", None),
        (b"", None),
        (b".", None),
        (b"1e5.", None),
        (b"0x1e+1", None),
        (b"0x1P+9", Some(Number::Float)),
        (b"00012", Some(Number::Int(12))),
        (b"0XaBcDeF09", Some(Number::Int(0xabcdef09))),
    ];
    for (spelling, number) in table {
        assert_eq!(rt; number_of(spelling), number, "{spelling:?}");
    }
}

/// Each spelling with the word of its value, as C's `strtod` reads it, where that is in reach.
#[test]
fn makes_words(rt: HostRuntime) {
    let table: [(&[u8], Option<u64>); 36] = [
        (b"0.1", Some(0x3fb999999999999a)),
        (b"0.5", Some(0x3fe0000000000000)),
        (b"1e19", Some(0x43e158e460913d00)),
        (b"1e-19", Some(0x3bfd83c94fb6d2ac)),
        (b"1e20", None),
        (b"1e22", None),
        (b"18446744073709551615.0", None),
        (b"18446744073709551615e0", Some(0x43f0000000000000)),
        (b"1844674407370955161.5", Some(0x43b999999999999a)),
        (b"18446744073709551616.0", None),
        (b"9223372036854775808", Some(0x43e0000000000000)),
        (b"18446744073709551616", None),
        (b"9223372036854775807", None),
        (b"9007199254740993.0", Some(0x4340000000000000)),
        (b"9007199254740995e0", Some(0x4340000000000002)),
        (b"9007199254740993.0000000000000000001", None),
        (b"0x1p4", Some(0x4030000000000000)),
        (b"0x1p-900", Some(0x7b0000000000000)),
        (b"0x1p900", Some(0x7830000000000000)),
        (b"0x1p901", None),
        (b"0x.8p1", Some(0x3ff0000000000000)),
        (b"0x1FFFFFFFFFFFFFp900", Some(0x7b7fffffffffffff)),
        (b"0x20000000000000p0", None),
        (b"0x.1p-897", None),
        (b"0x.1p-896", Some(0x7b0000000000000)),
        (b"0e999", Some(0x0)),
        (b"0x0p99999999999999999999999999", Some(0x0)),
        (b"0.0000000000000000000000000000e-5", Some(0x0)),
        (b"1e999999999999999999999999999999", None),
        (b"5e-20", None),
        (b"0.00000000000000000001e1", Some(0x3bfd83c94fb6d2ac)),
        (b".5E+1", Some(0x4014000000000000)),
        (b"3", None),
        (b"0x10", None),
        (b"", None),
        (b"1e", None),
    ];
    for (spelling, word) in table {
        assert_eq!(rt; float_word(spelling), word, "{spelling:?}");
    }
}
