// The pieces of a source, with an index of the tokens and the comments among them.
ghost use Rattle.std.specs.Prelude.{◌≡◌, ◌<◌, ◌≤◌, ◌↔◌, ◌^◌, ◌++◌, ◌∷◌, [], length, slice_get, slice_index_or, IfOk, OnOk, IsTrue};
ghost use Rattle.std.specs.Option.{option_copied};
ghost use Rattle.luf_lex.specs.Cut.{IsCut};
ghost use Rattle.luf_lex.specs.inner.Filled.{blank_between, filled};
ghost use Rattle.luf_lex.specs.inner.Leads as leads;
ghost use Rattle.luf_lex.specs.inner.Leads.{IsLeadIndex};
ghost use Rattle.luf_lex.specs.Note.{lead_of, blank_of};
ghost use Rattle.luf_lex.specs.Tokens.{toks_of, spans_of, spellings_of, tokens_of};
ghost use Rattle.luf_lex.specs.inner.TokenIndex.{IsTokenIndex};

use crate::note::{Leads, has_empty_line};
use crate::{Kind, Note, Piece, Span, Tok};
use luf_memory::Memory;
use std::alloc::Global;
use std::marker::Model;

/// The pieces of a source, in order. A contract sees it as their list.
#[derive(Debug, Drop)]
pub struct Cut {
    /// All but the blanks, which lie where no other piece does.
    solid: Vec<Piece>,
    /// The places of the tokens among them.
    tokens: Vec<u32>,
    leads: Leads,
    /// Where the source ends.
    end: u32,
}

impl Model for Cut {
    ghost use Rattle.std.specs.Prelude.{List};
    ghost use Rattle.luf_lex.specs.declared.token.Piece.{Piece};

    ghost Value = { List Piece };

    ghost use Rattle.luf_lex.specs.inner.Filled.{filled};
    ghost use Rattle.luf_lex.specs.inner.Leads.{IsLeadIndex};
    ghost use Rattle.luf_lex.specs.inner.TokenIndex.{IsTokenIndex};

    ghost view = { λ c. filled 0 c.solid.items c.end };

    ghost invariant = { λ c. (IsTokenIndex c.tokens.items c.solid.items) × IsLeadIndex c.leads.notes.items c.leads.places.items c.solid.items };
}

impl Cut {
    /// The pieces with their index.
    pub(crate) fn of(solid: Vec<Piece>, tokens: Vec<u32>, leads: Leads, end: u32) -> Cut
        requires tokens { IsTokenIndex tokens.items solid.items }
        requires leads { IsLeadIndex leads.notes.items leads.places.items solid.items }
        ensures { result ≡ filled 0 solid.items end }
    {
        Cut {
            solid,
            tokens,
            leads,
            end,
        }
    }

    /// The pieces, in order, in a list that is made anew. The only error is that no memory was found.
    pub fn pieces(&self, alloc: Global) -> Result<Vec<Piece>, Memory>
        ensures { IfOk result (λ pieces. pieces.items ≡ self.now) }
    {
        let mut pieces = Vec::new(alloc);
        let mut at = 0;
        for piece in self.solid.as_slice() {
            push_behind(at, *piece, &mut pieces)?;
            at = piece.span.to;
        }
        push_blank(at, self.end, &mut pieces)?;
        Ok(pieces)
    }

    /// How many tokens there are.
    pub fn tokens(&self) -> u32
        ensures count { result ≡ length (toks_of self.now) }
        ensures few { result ≤ 16777216 }
    {
        self.tokens.len() as u32
    }

    /// Token `n`, from 0; None exactly from `tokens` on.
    pub fn token(&self, n: u32) -> Option<Tok>
        ensures { result ≡ slice_get (toks_of self.now) n }
    {
        match self.piece_of(n)?.kind {
            Kind::Token(tok) => Some(tok),
            _ => None,
        }
    }

    /// Whether token `n` is there and is this one.
    pub fn is_at(&self, n: u32, tok: Tok) -> bool
        ensures { IsTrue result ↔ (slice_get (toks_of self.now) n ≡ Some tok) }
    {
        self.token(n) == Some(tok)
    }

    /// Where token `n` lies in the source; None exactly from `tokens` on.
    pub fn span(&self, n: u32) -> Option<Span>
        ensures { result ≡ slice_get (spans_of self.now) n }
    {
        Some(self.piece_of(n)?.span)
    }

    /// How token `n` is spelled in the source that was cut; None exactly from `tokens` on.
    pub fn spelling<'a>(&self, src: &'a [u8], n: u32) -> Option<&'a [u8]>
        requires { IsCut src.now self.now }
        ensures { option_copied result ≡ slice_get (spellings_of src.now self.now) n }
    {
        let span = self.span(n)?;
        let from = span.from as usize;
        let to = span.to as usize;
        Some(&src[from..to])
    }

    /// The comments between token `n - 1` and token `n`, in order: before the first token for 0, and after the
    /// last one for `tokens`.
    pub fn lead(&self, n: u32) -> &[Note]
        requires { n ≤ length (toks_of self.now) }
        ensures { result.now ≡ lead_of self.now n }
    {
        let places = self.tokens.as_slice();
        let end = self.solid.len();
        self.leads
            .between(gap_start(places, n, end), place_of(places, n, end))
    }

    /// Whether an empty line stands directly before token `n`, or before the end for `tokens`.
    ///
    /// It goes back over the blanks and line ends there, so that the calls for all tokens together are linear.
    pub fn blank(&self, n: u32) -> bool
        requires { n ≤ length (toks_of self.now) }
        ensures { result ≡ blank_of self.now n }
    {
        has_empty_line(&self.solid[..place_of(self.tokens.as_slice(), n, self.solid.len())])
    }

    fn piece_of(&self, n: u32) -> Option<Piece>
        ensures { result ≡ slice_get (tokens_of self.now) n }
    {
        let n = n as usize;
        if n < self.tokens.len() {
            let place = self.tokens[n] as usize;
            Some(self.solid[place])
        } else {
            None
        }
    }
}

/// The place behind token `n - 1`, where these are the places of all; the first for 0.
fn gap_start(places: &[u32], n: u32, end: usize) -> usize
    requires { end < 2 ^ 32 }
    ensures { result ≡ leads.gap_start places.now end n }
{
    if n == 0 {
        return 0;
    }
    match places.get(n as usize - 1) {
        Some(place) => *place as usize + 1,
        None => end + 1,
    }
}

/// The place of token `n`, where these are the places of all; an end, where there are not so many.
fn place_of(places: &[u32], n: u32, end: usize) -> usize
    ensures { result ≡ slice_index_or places.now n end }
{
    match places.get(n as usize) {
        Some(place) => *place as usize,
        None => end,
    }
}

/// Puts a piece behind the others, which end at a place, and the blanks between before it.
fn push_behind(at: u32, piece: Piece, pieces: &mut Vec<Piece>) -> Result<(), Memory>
    ensures { OnOk result (pieces.new.items ≡ pieces.old.items ++ (blank_between at piece.span.from ++ piece ∷ [])) }
{
    push_blank(at, piece.span.from, pieces)?;
    pieces.push(piece)?;
    Ok(())
}

/// Puts the blanks from one place to another behind the other pieces.
fn push_blank(from: u32, to: u32, pieces: &mut Vec<Piece>) -> Result<(), Memory>
    ensures { OnOk result (pieces.new.items ≡ pieces.old.items ++ blank_between from to) }
{
    if from != to {
        let span = Span { from, to };
        let kind = Kind::Blank;
        pieces.push(Piece { kind, span })?;
    }
    Ok(())
}
