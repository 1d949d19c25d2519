// The pieces of a source but its blanks while it is cut, with the places of its tokens and comments among them.
ghost use Rattle.std.specs.Prelude.{◌≡◌, ◌<◌, ◌≤◌, ◌^◌, false, [], ◌∷◌, ◌++◌, length, IfOk, OnOk};
ghost use Rattle.luf_lex.specs.Note.{is_comment};
ghost use Rattle.luf_lex.specs.Tokens.{is_token};
ghost use Rattle.luf_lex.specs.inner.Filled.{filled};
ghost use Rattle.luf_lex.specs.inner.Growing.{IsGrown};

use crate::note::Leads;
use crate::{Cut, Kind, Piece, Tok};
use luf_memory::Memory;
use luf_text::Span;
use std::alloc::Global;

/// The first pieces of a source but the blanks, in order.
#[derive(Drop)]
pub(crate) struct Growing {
    pub pieces: Vec<Piece>,
    /// The places of the tokens among the pieces.
    pub tokens: Vec<u32>,
    /// The places of the comments.
    pub comments: Vec<u32>,
}

impl Growing {
    /// No pieces.
    pub(crate) fn new(alloc: Global) -> Growing
        ensures none { result.pieces.items ≡ [] }
        ensures grown { IsGrown result.tokens.items result.comments.items result.pieces.items }
    {
        Growing {
            pieces: Vec::new(alloc),
            tokens: Vec::new(alloc),
            comments: Vec::new(alloc),
        }
    }

    /// Puts a piece behind the others. The only error is that no memory was found, as for those below.
    pub(crate) fn push(&mut self, kind: Kind, from: usize, to: usize) -> Result<(), Memory>
        requires from { from < 2 ^ 32 }
        requires to { to < 2 ^ 32 }
        requires few { length self.old.pieces.items < 2 ^ 32 }
        requires grown { IsGrown self.old.tokens.items self.old.comments.items self.old.pieces.items }
        ensures pieces { OnOk result (self.new.pieces.items ≡ self.old.pieces.items ++ record { kind = kind; span = record { from = from; to = to } } ∷ []) }
        ensures grown { OnOk result (IsGrown self.new.tokens.items self.new.comments.items self.new.pieces.items) }
    {
        match kind {
            Kind::Token(tok) => self.push_token(tok, from, to),
            Kind::Comment => self.push_comment(from, to),
            other => self.push_other(other, from, to),
        }
    }

    /// Puts a token behind the others.
    pub(crate) fn push_token(&mut self, tok: Tok, from: usize, to: usize) -> Result<(), Memory>
        requires from { from < 2 ^ 32 }
        requires to { to < 2 ^ 32 }
        requires few { length self.old.pieces.items < 2 ^ 32 }
        requires grown { IsGrown self.old.tokens.items self.old.comments.items self.old.pieces.items }
        ensures pieces { OnOk result (self.new.pieces.items ≡ self.old.pieces.items ++ record { kind = Kind.Token tok; span = record { from = from; to = to } } ∷ []) }
        ensures grown { OnOk result (IsGrown self.new.tokens.items self.new.comments.items self.new.pieces.items) }
    {
        self.tokens.push(self.pieces.len() as u32)?;
        self.pieces.push(piece(Kind::Token(tok), from, to))?;
        Ok(())
    }

    /// Puts a comment behind the others.
    fn push_comment(&mut self, from: usize, to: usize) -> Result<(), Memory>
        requires from { from < 2 ^ 32 }
        requires to { to < 2 ^ 32 }
        requires few { length self.old.pieces.items < 2 ^ 32 }
        requires grown { IsGrown self.old.tokens.items self.old.comments.items self.old.pieces.items }
        ensures pieces { OnOk result (self.new.pieces.items ≡ self.old.pieces.items ++ record { kind = Kind.Comment; span = record { from = from; to = to } } ∷ []) }
        ensures grown { OnOk result (IsGrown self.new.tokens.items self.new.comments.items self.new.pieces.items) }
    {
        self.comments.push(self.pieces.len() as u32)?;
        self.pieces.push(piece(Kind::Comment, from, to))?;
        Ok(())
    }

    /// Puts a piece that is neither a token nor a comment behind the others.
    pub(crate) fn push_other(&mut self, kind: Kind, from: usize, to: usize) -> Result<(), Memory>
        requires token { is_token kind ≡ false }
        requires comment { is_comment kind ≡ false }
        requires from { from < 2 ^ 32 }
        requires to { to < 2 ^ 32 }
        requires grown { IsGrown self.old.tokens.items self.old.comments.items self.old.pieces.items }
        ensures pieces { OnOk result (self.new.pieces.items ≡ self.old.pieces.items ++ record { kind = kind; span = record { from = from; to = to } } ∷ []) }
        ensures grown { OnOk result (IsGrown self.new.tokens.items self.new.comments.items self.new.pieces.items) }
    {
        self.pieces.push(piece(kind, from, to))?;
        Ok(())
    }

    /// The pieces with their index, and the blanks between them and up to the end of the source.
    pub(crate) fn finish(self, alloc: Global, end: usize) -> Result<Cut, Memory>
        requires few { length self.pieces.items ≤ 16777216 }
        requires end { end < 2 ^ 32 }
        requires grown { IsGrown self.tokens.items self.comments.items self.pieces.items }
        ensures { IfOk result (λ cut. cut ≡ filled 0 self.pieces.items end) }
    {
        let Growing {
            pieces,
            tokens,
            comments,
        } = self;
        let leads = Leads::of(alloc, pieces.as_slice(), comments)?;
        Ok(Cut::of(pieces, tokens, leads, end as u32))
    }
}

fn piece(kind: Kind, from: usize, to: usize) -> Piece
    requires from { from < 2 ^ 32 }
    requires to { to < 2 ^ 32 }
    ensures { result ≡ record { kind = kind; span = record { from = from; to = to } } }
{
    Piece {
        kind,
        span: Span {
            from: from as u32,
            to: to as u32,
        },
    }
}
