// Local variables, and what the names of a chunk refer to.

/// How a local variable is declared.
#[derive(Clone, Copy, Debug, PartialEq, Eq)]
pub enum BinderKind {
    /// By `local`, with no attribute.
    Local,
    /// By `local`, with `<const>`.
    Const,
    /// By `local`, with `<close>`.
    Close,
    /// As a parameter.
    Param,
    /// As the implicit parameter `self` of a method; an explicit one is `Param`.
    SelfParam,
    /// As a variable of `for`.
    Loop,
    /// By `local function`.
    Function,
}

/// A local variable: the token that declares it, which is the `:` of an implicit `self`, how it is declared, and
/// whether its name is fixed: it is the implicit `self`, or it is named `_ENV`.
#[derive(Clone, Copy, Debug, PartialEq, Eq)]
pub struct Binder {
    pub token: u32,
    pub kind: BinderKind,
    pub fixed: bool,
}

/// What a token is to the names of a chunk. Numbers are those of local variables, in the order of their tokens.
#[derive(Clone, Copy, Debug, PartialEq, Eq)]
pub enum Role {
    /// None of the below.
    Plain,
    /// It declares this local variable, as the `:` of a method declares the implicit `self`.
    Declares(u32),
    /// It refers to this local variable.
    Refers(u32),
    /// A name with no local variable: a field of what `_ENV` means there, or the chunk's own `_ENV`.
    Global,
    /// The name of a field or a method.
    Field,
}
