// The labels of a chunk, each with the function that holds it.
ghost use Rattle.std.specs.Prelude.{◌≡◌, ℕ, ◌≤◌, ◌++◌, List, length, IfOk, OnOk, nat_lt};
ghost use Rattle.std.specs.List.{filter_map};
ghost use Rattle.std.specs.Option.{option_to_list};
ghost use Rattle.luf_scope.specs.Local.{FunctionAt, function_by, functions_of, last_passing};
ghost use Rattle.luf_scope.specs.Order.{place};
ghost use Rattle.luf_scope.specs.inner.Laid.{AreLaid};
ghost use Rattle.luf_scope.specs.inner.Last.{last_such};
ghost use Rattle.luf_interf.specs.inner.LabelRows.{class_of, row_in, row_of, reaches, class_in, Tells};

use crate::Memory;
use luf_scope::Occurrence;
use std::alloc::Global;

// A label: its function, by a number that is one higher, where 0 is the main function; and the block that holds it.
#[derive(Clone, Copy)]
pub struct LabelRow {
    pub class: u32,
    pub from: u32,
    pub to: u32,
}

// A function, by a number that is one higher, and one past its last token.
#[derive(Clone, Copy)]
pub struct Holder {
    pub class: u32,
    pub to: u32,
}

// What is read of the first occurrences: the labels, how many functions have begun, and a stack of those that may hold
// what comes.
#[derive(Drop)]
struct Reading {
    rows: Vec<LabelRow>,
    functions: u32,
    holders: Vec<Holder>,
}

// The labels in their order. Time is linear, and only labels and the functions that hold a place take memory.
pub fn label_rows(alloc: Global, os: &[Occurrence]) -> Result<Vec<LabelRow>, Memory>
    requires { AreLaid os.now }
    ensures { IfOk result (λ rows. rows.items ≡ filter_map (row_of (functions_of os.now)) os.now) }
{
    let mut reading = Reading {
        rows: Vec::new(alloc),
        functions: 0,
        holders: Vec::new(alloc),
    };
    for o in os {
        reading.add(o)?;
    }
    Ok(reading.rows)
}

impl Reading {
    // One occurrence more.
    fn add(&mut self, o: &Occurrence) -> Result<(), Memory>
        ensures functions { (begun : List FunctionAt) → self.old.functions ≡ length begun → OnOk result (self.new.functions ≡ length (begun ++ option_to_list (function_by o.now))) }
        ensures tells { (begun : List FunctionAt) → (later : ℕ) → self.old.functions ≡ length begun → place o.now ≤ later → Tells self.old.holders.items begun later → OnOk result (Tells self.new.holders.items (begun ++ option_to_list (function_by o.now)) later) }
        ensures rows { (begun : List FunctionAt) → Tells self.old.holders.items begun (place o.now) → OnOk result (self.new.rows.items ≡ self.old.rows.items ++ option_to_list (row_in (class_of (last_passing (λ f. nat_lt (place o.now) f.to) 0 begun)) o.now)) }
    {
        match *o {
            Occurrence::Function { to, .. } => {
                let Some(class) = self.functions.checked_add(1) else {
                    return Err(Memory);
                };
                self.functions = class;
                self.holders.push(Holder { class, to })?;
                Ok(())
            }
            Occurrence::Label { name, from, to, .. } => {
                let class = top(&mut self.holders, name);
                self.rows.push(LabelRow { class, from, to })?;
                Ok(())
            }
            _ => Ok(()),
        }
    }
}

// The last that holds a place; 0 for none. Those above it, which end before, are taken off.
fn top(holders: &mut Vec<Holder>, place: u32) -> u32
    ensures found { result ≡ class_in (last_such (reaches place) holders.old.items) }
    ensures kept { (later : ℕ) → place ≤ later → last_such (reaches later) holders.new.items ≡ last_such (reaches later) holders.old.items }
{
    let mut left = holders.len();
    while left > 0 && holders[left - 1].to <= place {
        left -= 1;
    }
    holders.truncate(left);
    if left == 0 {
        0
    } else {
        holders[left - 1].class
    }
}
