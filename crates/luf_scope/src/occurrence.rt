// What a chunk says of names, functions, loops and jumps.

/// What stands in a chunk that scopes and labels are read off. All numbers are token numbers; `from` and `to` are the
/// first token, and one past the last, at which a name is active, or that a function, a loop or a block holds.
#[derive(Clone, Copy, Debug, PartialEq, Eq)]
pub enum Occurrence {
    /// A name of `local`, and its attribute.
    Local {
        name: u32,
        attribute: Option<u32>,
        from: u32,
        to: u32,
    },
    /// The name of `local function`.
    LocalFunction {
        name: u32,
        from: u32,
        to: u32,
    },
    /// A parameter.
    Parameter {
        name: u32,
        from: u32,
        to: u32,
    },
    /// The parameter `self` of a function that is declared as a method, by its `:`.
    ImplicitSelf {
        colon: u32,
        from: u32,
        to: u32,
    },
    /// A variable of `for`.
    LoopVariable {
        name: u32,
        from: u32,
        to: u32,
    },
    /// A variable that is read, also where a field of it is assigned.
    Reads(u32),
    /// A name that is assigned, by an assignment or by `function`.
    Assigns(u32),
    /// The name of a field or a method.
    Field(u32),
    /// `...` as an expression.
    Varargs(u32),
    /// A function, from the `(` of its parameters to its `end`.
    Function {
        from: u32,
        to: u32,
        vararg: bool,
    },
    /// The block of a loop.
    Loop {
        from: u32,
        to: u32,
    },
    /// The name of a label, and the block that holds it. `at_end` says that only labels and `;` follow it there, and that
    /// the block does not end at `until`.
    Label {
        name: u32,
        from: u32,
        to: u32,
        at_end: bool,
    },
    /// `goto` and the name of its label.
    Goto {
        token: u32,
        name: u32,
    },
    /// `break`.
    Break(u32),
}
