// Items that are added where no part of the tree has to be entered: names, and what stands around them.
ghost use Rattle.std.specs.Prelude.{◌≡◌, ◌++◌, ◌∷◌, [], OnOk};
ghost use Rattle.luf_lex.specs.declared.token.Sign.TheVariants.{Assign, DoubleColon};
ghost use Rattle.luf_lex.specs.declared.token.Word.TheVariants.{Local, Function, For, In, Goto};
ghost use Rattle.luf_min.specs.inner.Listed.{names_listed, dots_behind, parameters_listed, declared_item, declared_listed, attribute_items, method_items, path_listed};

use crate::item::{Item, add_all, add_sign, add_token, add_word, separate};
use luf_lex::{Sign, Word};
use luf_memory::Memory;
use luf_packed::Packed;
use luf_tree::Declared;

pub(crate) fn add_names(names: &[u32], into: &mut Vec<Item>) -> Result<(), Memory>
    ensures { OnOk result (into.new.items ≡ into.old.items ++ names_listed names.now) }
{
    let mut first = true;
    for name in names {
        separate(first, Item::Sign(Sign::Comma), into)?;
        add_token(*name, into)?;
        first = false;
    }
    Ok(())
}

/// The parameters of a function, in parentheses.
pub(crate) fn add_parameters(
    names: &[u32],
    vararg: bool,
    into: &mut Vec<Item>,
) -> Result<(), Memory>
    ensures { OnOk result (into.new.items ≡ into.old.items ++ parameters_listed names.now vararg) }
{
    add_sign(Sign::LeftParen, into)?;
    add_names(names, into)?;
    add_dots(names, vararg, into)?;
    add_sign(Sign::RightParen, into)
}

/// The `...` behind these parameters.
fn add_dots(names: &[u32], vararg: bool, into: &mut Vec<Item>) -> Result<(), Memory>
    ensures { OnOk result (into.new.items ≡ into.old.items ++ dots_behind names.now vararg) }
{
    match (vararg, names) {
        (false, _) => Ok(()),
        (true, []) => add_sign(Sign::Dots, into),
        (true, [_, ..]) => add_all(&[Item::Sign(Sign::Comma), Item::Sign(Sign::Dots)], into),
    }
}

/// `local` and the names that it declares, with their attributes.
pub(crate) fn add_local(names: &[Declared], into: &mut Vec<Item>) -> Result<(), Memory>
    ensures { OnOk result (into.new.items ≡ into.old.items ++ Item.Word Local ∷ declared_listed names.now) }
{
    add_word(Word::Local, into)?;
    add_all_declared(names, into)
}

fn add_all_declared(names: &[Declared], into: &mut Vec<Item>) -> Result<(), Memory>
    ensures { OnOk result (into.new.items ≡ into.old.items ++ declared_listed names.now) }
{
    let mut first = true;
    for d in names {
        separate(first, Item::Sign(Sign::Comma), into)?;
        add_declared(*d, into)?;
        first = false;
    }
    Ok(())
}

fn add_declared(d: Declared, into: &mut Vec<Item>) -> Result<(), Memory>
    ensures { OnOk result (into.new.items ≡ into.old.items ++ declared_item d) }
{
    add_token(d.name, into)?;
    match d.attribute {
        None => Ok(()),
        Some(name) => add_all(
            &[
                Item::Sign(Sign::Less),
                Item::Token(Packed::new(name)),
                Item::Sign(Sign::Greater),
            ],
            into,
        ),
    }
}

/// `function` and the name of the function: a path, and the method.
pub(crate) fn add_function(
    path: &[u32],
    method: Option<u32>,
    into: &mut Vec<Item>,
) -> Result<(), Memory>
    ensures { OnOk result (into.new.items ≡ into.old.items ++ Item.Word Function ∷ path_listed path.now method) }
{
    add_word(Word::Function, into)?;
    add_path(path, into)?;
    match method {
        None => Ok(()),
        Some(name) => add_all(
            &[Item::Sign(Sign::Colon), Item::Token(Packed::new(name))],
            into,
        ),
    }
}

fn add_path(path: &[u32], into: &mut Vec<Item>) -> Result<(), Memory>
    ensures { OnOk result (into.new.items ≡ into.old.items ++ path_listed path.now None) }
{
    let mut first = true;
    for name in path {
        separate(first, Item::Sign(Sign::Dot), into)?;
        add_token(*name, into)?;
        first = false;
    }
    Ok(())
}

/// `local function` and its name.
pub(crate) fn add_local_function(name: u32, into: &mut Vec<Item>) -> Result<(), Memory>
    ensures { OnOk result (into.new.items ≡ into.old.items ++ Item.Word Local ∷ Item.Word Function ∷ Item.Token name ∷ []) }
{
    let items = [
        Item::Word(Word::Local),
        Item::Word(Word::Function),
        Item::Token(Packed::new(name)),
    ];
    add_all(&items, into)
}

/// `for` with its variable, up to the `=`.
pub(crate) fn add_for(name: u32, into: &mut Vec<Item>) -> Result<(), Memory>
    ensures { OnOk result (into.new.items ≡ into.old.items ++ Item.Word For ∷ Item.Token name ∷ Item.Sign Assign ∷ []) }
{
    let items = [
        Item::Word(Word::For),
        Item::Token(Packed::new(name)),
        Item::Sign(Sign::Assign),
    ];
    add_all(&items, into)
}

/// `for` with its variables, up to the `in`.
pub(crate) fn add_for_in(names: &[u32], into: &mut Vec<Item>) -> Result<(), Memory>
    ensures { OnOk result (into.new.items ≡ into.old.items ++ Item.Word For ∷ (names_listed names.now ++ Item.Word In ∷ [])) }
{
    add_word(Word::For, into)?;
    add_names(names, into)?;
    add_word(Word::In, into)
}

pub(crate) fn add_label(name: u32, into: &mut Vec<Item>) -> Result<(), Memory>
    ensures { OnOk result (into.new.items ≡ into.old.items ++ Item.Sign DoubleColon ∷ Item.Token name ∷ Item.Sign DoubleColon ∷ []) }
{
    let items = [
        Item::Sign(Sign::DoubleColon),
        Item::Token(Packed::new(name)),
        Item::Sign(Sign::DoubleColon),
    ];
    add_all(&items, into)
}

pub(crate) fn add_goto(name: u32, into: &mut Vec<Item>) -> Result<(), Memory>
    ensures { OnOk result (into.new.items ≡ into.old.items ++ Item.Word Goto ∷ Item.Token name ∷ []) }
{
    add_all(
        &[Item::Word(Word::Goto), Item::Token(Packed::new(name))],
        into,
    )
}
