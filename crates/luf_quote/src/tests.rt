// Each style, as its rule is told.
use crate::{CallStyle, Lone, QuoteStyle, choose, keeps_parens};
use luf_str::{Counts, Quote};
use std::process::Abort;

// The quotes with one double quote more inside, with as many, and with one single quote more.
fn check_quotes(rt: &impl Abort, style: QuoteStyle, double: Quote, even: Quote, single: Quote) {
    let more_double = Counts {
        single: 1,
        double: 2,
    };
    let as_many = Counts {
        single: 2,
        double: 2,
    };
    let more_single = Counts {
        single: 2,
        double: 1,
    };
    assert_eq!(rt; choose(style, more_double), double, "{style:?}");
    assert_eq!(rt; choose(style, as_many), even, "{style:?}");
    assert_eq!(rt; choose(style, more_single), single, "{style:?}");
}

#[test]
fn quotes_of_styles(rt: HostRuntime) {
    let rows = [
        (
            QuoteStyle::AutoPreferDouble,
            Quote::Single,
            Quote::Double,
            Quote::Double,
        ),
        (
            QuoteStyle::AutoPreferSingle,
            Quote::Single,
            Quote::Single,
            Quote::Double,
        ),
        (
            QuoteStyle::ForceDouble,
            Quote::Double,
            Quote::Double,
            Quote::Double,
        ),
        (
            QuoteStyle::ForceSingle,
            Quote::Single,
            Quote::Single,
            Quote::Single,
        ),
    ];
    for (style, double, even, single) in rows {
        check_quotes(&rt, style, double, even, single);
    }
}

// The parentheses round a string and a table that had them, and round those that had none.
fn check_calls(rt: &impl Abort, style: CallStyle, had: (bool, bool), bare: (bool, bool)) {
    assert_eq!(rt; keeps_parens(style, Lone::None, true), true, "{style:?}");
    assert_eq!(rt; keeps_parens(style, Lone::Str, true), had.0, "{style:?}");
    assert_eq!(rt; keeps_parens(style, Lone::Table, true), had.1, "{style:?}");
    assert_eq!(rt; keeps_parens(style, Lone::Str, false), bare.0, "{style:?}");
    assert_eq!(rt;
        keeps_parens(style, Lone::Table, false),
        bare.1,
        "{style:?}"
    );
}

#[test]
fn parentheses_of_styles(rt: HostRuntime) {
    let rows = [
        (CallStyle::Always, (true, true), (true, true)),
        (CallStyle::NoSingleString, (false, true), (false, true)),
        (CallStyle::NoSingleTable, (true, false), (true, false)),
        (CallStyle::None, (false, false), (false, false)),
        (CallStyle::Input, (true, true), (false, false)),
    ];
    for (style, had, bare) in rows {
        check_calls(&rt, style, had, bare);
    }
}
