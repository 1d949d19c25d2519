// The items of a text: its words, before they are spelled.
ghost use Rattle.std.specs.Prelude.{◌≡◌, ◌++◌, ◌∷◌, [], OnOk};
ghost use Rattle.luf_min.specs.inner.Listed.{before_part};

use luf_lex::{Sign, Word};
use luf_memory::Memory;
use luf_packed::Packed;

/// A word of a text: a token of the source, by its number, or a keyword or a sign.
#[derive(Clone, Copy, Debug)]
pub(crate) enum Item {
    Token(Packed),
    Word(Word),
    Sign(Sign),
}

pub(crate) fn add_token(n: u32, into: &mut Vec<Item>) -> Result<(), Memory>
    ensures { OnOk result (into.new.items ≡ into.old.items ++ Item.Token n ∷ []) }
{
    into.push(Item::Token(Packed::new(n)))?;
    Ok(())
}

pub(crate) fn add_word(word: Word, into: &mut Vec<Item>) -> Result<(), Memory>
    ensures { OnOk result (into.new.items ≡ into.old.items ++ Item.Word word ∷ []) }
{
    into.push(Item::Word(word))?;
    Ok(())
}

pub(crate) fn add_sign(sign: Sign, into: &mut Vec<Item>) -> Result<(), Memory>
    ensures { OnOk result (into.new.items ≡ into.old.items ++ Item.Sign sign ∷ []) }
{
    into.push(Item::Sign(sign))?;
    Ok(())
}

pub(crate) fn add_all(items: &[Item], into: &mut Vec<Item>) -> Result<(), Memory>
    ensures { OnOk result (into.new.items ≡ into.old.items ++ items.now) }
{
    into.extend_from_slice(items)?;
    Ok(())
}

/// What stands before a part of a list: nothing before the first.
pub(crate) fn separate(first: bool, between: Item, into: &mut Vec<Item>) -> Result<(), Memory>
    ensures { OnOk result (into.new.items ≡ into.old.items ++ before_part between first) }
{
    if !first {
        into.push(between)?;
    }
    Ok(())
}
