//! Tests alone: tables of the public calls of the crates below, from the bytes of a source to its text, and from those of a
//! chunk to its listing. What a row says comes from the Lua 5.4 manual, from luac5.4, from the answers of the Lua 5.4 scanner,
//! or is counted by hand. Formatted texts are those of the rules in luf_draft, luf_style and luf_doc.
//!
//! They stand in one crate, so that those below are proved once and not again for their tests.
#![tactic(auto)]

#[cfg(test)]
mod chunks;
#[cfg(test)]
mod comments;
#[cfg(test)]
mod formats;
#[cfg(test)]
mod grammar;
#[cfg(test)]
mod jobs;
#[cfg(test)]
mod lexis;
#[cfg(test)]
mod memory;
#[cfg(test)]
mod minified;
#[cfg(test)]
mod numerals;
#[cfg(test)]
mod outside;
#[cfg(test)]
mod places;
#[cfg(test)]
mod scopes;
#[cfg(test)]
mod sources;
#[cfg(test)]
mod spaces;
#[cfg(test)]
mod strings;
#[cfg(test)]
mod twice;
