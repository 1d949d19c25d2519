use luf_text::Bytes;
use sqlite_items::Items;

/// A constant of a function.
#[derive(Debug, Drop)]
pub enum Const {
    Nil,
    False,
    True,
    Int(i64),
    /// A float as its numeral spells it.
    Spelled(Bytes),
    /// A float as its word of 64 bits (IEEE 754).
    Word(u64),
    Str(Bytes),
}

/// Where a function finds an upvalue as it is made.
#[derive(Clone, Copy, Debug, PartialEq, Eq)]
pub struct Upval {
    /// In a register of the enclosing function, and not among that function's upvalues.
    pub instack: bool,
    /// The number of that register or upvalue.
    pub idx: u8,
    /// What was declared: 0 a variable, 1 a `const` one, 2 a `close` one, 3 a constant of the compiler.
    pub kind: u8,
}

/// A function.
#[derive(Debug, Drop)]
pub struct Proto {
    pub numparams: u8,
    pub is_vararg: bool,
    /// How many registers it needs.
    pub maxstack: u8,
    /// The words of its instructions.
    pub code: Items<u32>,
    pub consts: Items<Const>,
    pub upvals: Items<Upval>,
    /// The functions directly inside it.
    pub subs: Items<Proto>,
    /// The lines of its `function` and its `end`, both 0 for the main function.
    pub line_from: u32,
    pub line_to: u32,
}
