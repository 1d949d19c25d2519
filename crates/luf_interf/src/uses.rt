// References to names, each with what it refers to.

// What a reference refers to: a local variable that is renamed, or a free name, by the number of the name.
#[derive(Clone, Copy, Debug, PartialEq, Eq)]
pub enum Owner {
    Local(u32),
    Free(u32),
}

// A reference: its token, what it refers to, and the token of the next reference to the same; u32::MAX where none follows.
#[derive(Clone, Copy, Debug, PartialEq, Eq)]
pub struct Use {
    pub token: u32,
    pub owner: Owner,
    pub next: u32,
}

// Where a local variable is active that is renamed.
#[derive(Clone, Copy, Debug, PartialEq, Eq)]
pub struct Scope {
    pub local: u32,
    pub from: u32,
    pub to: u32,
}
