//! The tree of a source: its statements and expressions, with the numbers of their tokens.
#![tactic(auto)]

mod laws;
mod read;
mod tree;

pub use laws::{
    block_alone, block_is_local, depth_is_greatest, expression_alone, expression_is_local,
    front_alone, one_chunk_of_syntax,
};
pub use read::{depth, first_token, last_token};
pub use tree::{
    Args, Arm, Block, Chunk, Declared, Expr, ExprKind, Field, FuncBody, Stat, StatKind, Step,
    Suffix,
};

/// The most levels that a tree may be nested deep; the main block has level 0.
pub const LEVEL_LIMIT: u32 = 200;
