// The tree. All numbers are token numbers; `from` is the first token of a part and `to` one past its last.
//
// Statements, fields and suffixes stand in lists, so their large parts are boxed: a `Stat` and a `Field` take 64 bytes, a
// `Suffix` 48.

use sqlite_items::{Boxed, Items};

/// A whole source.
#[derive(Debug, Drop)]
pub struct Chunk {
    pub block: Block,
}

/// Statements in order.
#[cycle(tree)]
#[derive(Debug, Drop)]
pub struct Block {
    pub from: u32,
    pub to: u32,
    pub stats: Items<Stat>,
}

/// A statement.
#[cycle(tree)]
#[derive(Debug, Drop)]
pub struct Stat {
    pub from: u32,
    pub to: u32,
    pub what: StatKind,
}

/// What a statement does.
#[cycle(tree)]
#[derive(Debug, Drop)]
pub enum StatKind {
    /// A `;` by itself.
    Empty,
    Local {
        names: Items<Declared>,
        values: Items<Expr>,
    },
    Assign {
        targets: Items<Expr>,
        values: Items<Expr>,
    },
    Call(Expr),
    Do(Boxed<Block>),
    While {
        test: Boxed<Expr>,
        body: Boxed<Block>,
    },
    Repeat {
        body: Block,
        test: Boxed<Expr>,
    },
    /// The arms of `if` and of each `elseif`, and the block of `else`.
    If {
        arms: Items<Arm>,
        last: Option<Boxed<Block>>,
    },
    For {
        name: u32,
        first: Boxed<Expr>,
        limit: Boxed<Expr>,
        step: Option<Boxed<Expr>>,
        body: Boxed<Block>,
    },
    ForIn {
        names: Boxed<Items<u32>>,
        values: Items<Expr>,
        body: Boxed<Block>,
    },
    /// `function a.b:c`: the path is `a`, `b`, and the method `c`.
    Function {
        path: Items<u32>,
        method: Option<u32>,
        body: Boxed<FuncBody>,
    },
    LocalFunction {
        name: u32,
        body: Boxed<FuncBody>,
    },
    Label(u32),
    Goto(u32),
    Break,
    Return(Items<Expr>),
}

/// A name that `local` declares, and its attribute.
#[derive(Clone, Copy, Debug, PartialEq, Eq)]
pub struct Declared {
    pub name: u32,
    pub attribute: Option<u32>,
}

/// A condition and the block behind its `then`.
#[cycle(tree)]
#[derive(Debug, Drop)]
pub struct Arm {
    pub test: Expr,
    pub body: Block,
}

/// A function from the `(` of its parameters to its `end`.
#[cycle(tree)]
#[derive(Debug, Drop)]
pub struct FuncBody {
    pub from: u32,
    pub to: u32,
    pub params: Items<u32>,
    pub vararg: bool,
    pub body: Block,
}

/// An expression.
#[cycle(tree)]
#[derive(Debug, Drop)]
pub struct Expr {
    pub from: u32,
    pub to: u32,
    pub what: ExprKind,
}

/// What an expression is.
#[cycle(tree)]
#[derive(Debug, Drop)]
pub enum ExprKind {
    Nil,
    True,
    False,
    Number,
    Str,
    Vararg,
    Name,
    Paren(Boxed<Expr>),
    Function(Boxed<FuncBody>),
    Table(Items<Field>),
    Unary(Boxed<Expr>),
    /// Operands with operators of one level of precedence between them, at least one.
    Chain {
        first: Boxed<Expr>,
        rest: Items<Step>,
    },
    /// `base ^ exponent`; `sign` is the `^`.
    Power {
        base: Boxed<Expr>,
        sign: u32,
        exponent: Boxed<Expr>,
    },
    /// A name, the first token, and what follows it, at least one suffix.
    NameSuffixed(Items<Suffix>),
    /// A parenthesised expression, and what follows it, at least one suffix.
    Suffixed {
        head: Boxed<Expr>,
        suffixes: Items<Suffix>,
    },
}

/// An operator of a chain and its right operand.
#[cycle(tree)]
#[derive(Debug, Drop)]
pub struct Step {
    pub sign: u32,
    pub right: Expr,
}

/// What continues a prefix expression.
#[cycle(tree)]
#[derive(Debug, Drop)]
pub enum Suffix {
    Dot(u32),
    Index(Boxed<Expr>),
    Call(Args),
    Method { name: u32, args: Args },
}

/// The arguments of a call: in parentheses, or one string or table without.
#[cycle(tree)]
#[derive(Debug, Drop)]
pub struct Args {
    pub from: u32,
    pub to: u32,
    pub parens: bool,
    pub items: Items<Expr>,
}

/// A field of a table.
#[cycle(tree)]
#[derive(Debug, Drop)]
pub enum Field {
    Item(Expr),
    Named { name: u32, value: Expr },
    Keyed { key: Boxed<Expr>, value: Expr },
}
