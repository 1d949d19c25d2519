// The labels, gotos, loops and breaks of a chunk, each with the function that holds it.
ghost use Rattle.std.specs.Prelude.{◌≡◌, ◌++◌, map, IfOk, OnOk};
ghost use Rattle.std.specs.List.{filter_map};
ghost use Rattle.std.specs.Option.{option_to_list};
ghost use Rattle.luf_scope.specs.Order as order;
ghost use Rattle.luf_goto.specs.inner.Sites.{IsInOrder, home_of, stop_at, function_extent, jump_of, label_in, goto_in, loop_in, break_in, label_row, goto_row, loop_extent, break_spot};

use crate::Memory;
use crate::holders::{Extent, Spot, last_holders};
use luf_scope::Occurrence;
use std::alloc::Global;

// A label: the token of its name, the number of its function, or later of its name in that function, its block, and
// whether it counts as standing outside the local variables of that block. The main function has the number 0.
#[derive(Clone, Copy)]
pub struct LabelRow {
    pub name: u32,
    pub class: u32,
    pub from: u32,
    pub to: u32,
    pub at_end: bool,
}

// A goto: its token, the token of its label's name, and the number of its function, or later of that name in it.
#[derive(Clone, Copy)]
pub struct GotoRow {
    pub token: u32,
    pub name: u32,
    pub class: u32,
}

// The class of a loop and of a break is the number of the function that holds it.
#[derive(Drop)]
pub struct Sites {
    pub labels: Vec<LabelRow>,
    pub gotos: Vec<GotoRow>,
    pub loops: Vec<Extent>,
    pub breaks: Vec<Spot>,
}

pub fn sites_of(alloc: Global, os: &[Occurrence]) -> Result<Sites, Memory>
    requires { IsInOrder os.now }
    ensures labels { IfOk result (λ s. s.labels.items ≡ filter_map (label_row os.now) os.now) }
    ensures gotos { IfOk result (λ s. s.gotos.items ≡ filter_map (goto_row os.now) os.now) }
    ensures loops { IfOk result (λ s. s.loops.items ≡ filter_map (loop_extent os.now) os.now) }
    ensures breaks { IfOk result (λ s. s.breaks.items ≡ filter_map (break_spot os.now) os.now) }
{
    let jumps = jumps_in(alloc, os)?;
    let homes = homes_of(alloc, os, jumps.as_slice())?;
    let mut s = Sites {
        labels: Vec::new(alloc),
        gotos: Vec::new(alloc),
        loops: Vec::new(alloc),
        breaks: Vec::new(alloc),
    };
    for (i, o) in jumps.iter().enumerate() {
        s.add(o, homes[i])?;
    }
    Ok(s)
}

impl Sites {
    // One occurrence more, of which the function that holds it is known.
    fn add(&mut self, o: &Occurrence, home: u32) -> Result<(), Memory>
        ensures labels { OnOk result (self.new.labels.items ≡ self.old.labels.items ++ option_to_list (label_in home o.now)) }
        ensures gotos { OnOk result (self.new.gotos.items ≡ self.old.gotos.items ++ option_to_list (goto_in home o.now)) }
        ensures loops { OnOk result (self.new.loops.items ≡ self.old.loops.items ++ option_to_list (loop_in home o.now)) }
        ensures breaks { OnOk result (self.new.breaks.items ≡ self.old.breaks.items ++ option_to_list (break_in home o.now)) }
    {
        match *o {
            Occurrence::Label {
                name,
                from,
                to,
                at_end,
            } => {
                self.labels.push(LabelRow {
                    name,
                    class: home,
                    from,
                    to,
                    at_end,
                })?;
                Ok(())
            }
            Occurrence::Goto { token, name } => {
                self.gotos.push(GotoRow {
                    token,
                    name,
                    class: home,
                })?;
                Ok(())
            }
            Occurrence::Loop { from, to } => {
                self.loops.push(Extent {
                    class: home,
                    from,
                    to,
                    rank: 0,
                })?;
                Ok(())
            }
            Occurrence::Break(place) => {
                self.breaks.push(Spot { class: home, place })?;
                Ok(())
            }
            _ => Ok(()),
        }
    }
}

// The labels, gotos, loops and breaks, which are few.
fn jumps_in(alloc: Global, os: &[Occurrence]) -> Result<Vec<Occurrence>, Memory>
    ensures { IfOk result (λ jumps. jumps.items ≡ filter_map jump_of os.now) }
{
    let mut jumps = Vec::new(alloc);
    for o in os {
        if let Some(jump) = jump_of(*o) {
            jumps.push(jump)?;
        }
    }
    Ok(jumps)
}

fn jump_of(o: Occurrence) -> Option<Occurrence>
    ensures { result ≡ jump_of o }
{
    match o {
        Occurrence::Label { .. }
        | Occurrence::Goto { .. }
        | Occurrence::Loop { .. }
        | Occurrence::Break(_) => Some(o),
        _ => None,
    }
}

// For each of these occurrences the function that holds its place.
fn homes_of(alloc: Global, os: &[Occurrence], jumps: &[Occurrence]) -> Result<Vec<u32>, Memory>
    requires order { IsInOrder os.now }
    requires jumps { jumps.now ≡ filter_map jump_of os.now }
    ensures { IfOk result (λ homes. homes.items ≡ map (λ o. home_of os.now (order.place o)) jumps.now) }
{
    let functions = functions_in(alloc, os)?;
    let stops = stops_of(alloc, jumps)?;
    last_holders(alloc, functions.as_slice(), 1, stops.as_slice())
}

fn functions_in(alloc: Global, os: &[Occurrence]) -> Result<Vec<Extent>, Memory>
    ensures { IfOk result (λ functions. functions.items ≡ filter_map function_extent os.now) }
{
    let mut functions = Vec::new(alloc);
    for o in os {
        if let Occurrence::Function { from, to, .. } = *o {
            functions.push(Extent {
                class: 0,
                from,
                to,
                rank: 0,
            })?;
        }
    }
    Ok(functions)
}

fn stops_of(alloc: Global, os: &[Occurrence]) -> Result<Vec<Spot>, Memory>
    ensures { IfOk result (λ stops. stops.items ≡ map stop_at os.now) }
{
    let mut stops = Vec::new(alloc);
    for o in os {
        stops.push(Spot {
            class: 0,
            place: place(o),
        })?;
    }
    Ok(stops)
}

// The token at which an occurrence stands.
fn place(o: &Occurrence) -> u32
    ensures { result ≡ order.place o.now }
{
    match *o {
        Occurrence::Local { name, .. }
        | Occurrence::LocalFunction { name, .. }
        | Occurrence::Parameter { name, .. }
        | Occurrence::LoopVariable { name, .. }
        | Occurrence::Label { name, .. }
        | Occurrence::Reads(name)
        | Occurrence::Assigns(name)
        | Occurrence::Field(name) => name,
        Occurrence::ImplicitSelf { colon, .. } => colon,
        Occurrence::Function { from, .. } | Occurrence::Loop { from, .. } => from,
        Occurrence::Goto { token, .. } | Occurrence::Varargs(token) | Occurrence::Break(token) =>
            token,
    }
}
