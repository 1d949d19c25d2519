// Numbers for the names of labels.
ghost use Rattle.std.specs.Prelude.{◌≡◌, ◌<◌, ◌^◌, ℕ, length, List, Some, None, IfOk, OnOk, cond, map, unwrap_or};
ghost use Rattle.std.specs.Option.{option_or};
ghost use Rattle.luf_goto.specs.inner.Names.{same_name, name_of, place_in, first_place};

use crate::Memory;
use std::alloc::Global;
use std::collections::BTreeMap;

// A name in a function, by the number of that function and by the name's bytes.
pub type Name<'a> = (u32, &'a [u8]);

// Each name has the place of the first one that is the same. Names that are too many to be numbered have no room.
pub fn number_names(alloc: Global, names: &[Name<'_>]) -> Result<Vec<u32>, Memory>
    ensures numbers { IfOk result (λ numbers. numbers.items ≡ map (first_place (map name_of names.now)) (map name_of names.now)) }
    ensures few { IfOk result (λ numbers. length names.now < 2 ^ 32) }
{
    if names.len() > u32::MAX as usize {
        return Err(Memory);
    }
    let mut first = BTreeMap::new(alloc);
    let mut numbers = Vec::new(alloc);
    for (i, name) in names.iter().enumerate() {
        numbers.push(number(&mut first, *name, i as u32)?)?;
    }
    Ok(numbers)
}

// The number of a name, which gets this one where it has none.
fn number<'a>(first: &mut BTreeMap<Name<'a>, u32>, name: Name<'a>, next: u32) -> Result<u32, Memory>
    ensures number { IfOk result (λ n. n ≡ unwrap_or (place_in first.old (name_of name.entry)) next) }
    ensures kept { OnOk result ((other : ℕ × List ℕ) → place_in first.new other ≡ option_or (place_in first.old other) (cond (same_name other (name_of name.entry)) (Some next) None)) }
{
    match first.get(&name) {
        Some(number) => Ok(*number),
        None => {
            first.insert(name, next)?;
            Ok(next)
        }
    }
}
