// What the names of labels refer to, kept for the tokens that are such names.
ghost use Rattle.std.specs.Prelude.{◌≡◌, ◌<◌, ◌++◌, None, IfOk, OnOk, All, slice_index_or};
ghost use Rattle.std.specs.Option.{option_to_list};
ghost use Rattle.luf_scope.specs.Marks.{mark_at};
ghost use Rattle.luf_scope.specs.Order as order;
ghost use Rattle.luf_goto.specs.inner.Marking.{marks_from, mark_of, label_after, goto_after, IsMarkable};
ghost use Rattle.luf_goto.specs.inner.Sites.{IsInOrder};

use crate::Memory;
use luf_scope::{JumpRole, Marks, Occurrence};
use std::alloc::Global;
use std::marker::Model;

/// What the names of labels refer to. Contracts see the list of the tokens that are such names, in order, each with its
/// role. Only these tokens take memory.
#[derive(Debug, Drop)]
pub struct Jumps {
    roles: Marks<JumpRole>,
}

impl Model for Jumps {
    ghost use Rattle.std.specs.Prelude.{ℕ, List};
    ghost use Rattle.luf_scope.specs.declared.jump.JumpRole.{JumpRole};

    ghost Value = { List (ℕ × JumpRole) };

    ghost view = { λ j. j.roles };
}

impl Jumps {
    /// What a token is, if it is the name of a label, at the label or in a `goto`.
    pub fn at(&self, token: u32) -> Option<JumpRole>
        ensures { result ≡ mark_at self.now token }
    {
        self.roles.at(token)
    }

    /// The roles of the names of labels, where this is the number of the label that each goto goes to.
    pub(crate) fn of(
        alloc: Global,
        os: &[Occurrence],
        targets: &[Option<u32>],
    ) -> Result<Jumps, Memory>
        requires { IsInOrder os.now }
        ensures { IfOk result (λ j. j ≡ marks_from targets.now 0 0 os.now) }
    {
        let mut marking = Marking {
            roles: Marks::new(alloc),
            label: 0,
            goto: 0,
        };
        for o in os {
            marking.mark(o, targets)?;
        }
        Ok(Jumps {
            roles: marking.roles,
        })
    }
}

// The roles so far, and how many labels and gotos there were.
#[derive(Drop)]
struct Marking {
    roles: Marks<JumpRole>,
    label: u32,
    goto: usize,
}

impl Marking {
    // One occurrence more. Labels that are too many to be numbered have no room.
    fn mark(&mut self, o: &Occurrence, targets: &[Option<u32>]) -> Result<(), Memory>
        requires behind { All (λ m. m.0 < order.place o.now) self.old.roles }
        requires markable { IsMarkable o.now }
        requires count { self.old.goto < 18446744073709551615 }
        ensures roles { OnOk result (self.new.roles ≡ self.old.roles ++ option_to_list (mark_of targets.now self.old.label self.old.goto o.now)) }
        ensures label { OnOk result (self.new.label ≡ label_after self.old.label o.now) }
        ensures goto { OnOk result (self.new.goto ≡ goto_after self.old.goto o.now) }
    {
        match *o {
            Occurrence::Label { name, .. } => {
                self.roles.add(name, JumpRole::Label(self.label))?;
                let Some(next) = self.label.checked_add(1) else {
                    return Err(Memory);
                };
                self.label = next;
                Ok(())
            }
            Occurrence::Goto { name, .. } => {
                let target = target_at(targets, self.goto);
                self.goto += 1;
                match target {
                    Some(n) => self.roles.add(name, JumpRole::Goto(n)),
                    None => Ok(()),
                }
            }
            _ => Ok(()),
        }
    }
}

fn target_at(targets: &[Option<u32>], goto: usize) -> Option<u32>
    ensures { result ≡ slice_index_or targets.now goto None }
{
    match targets.get(goto) {
        Some(target) => *target,
        None => None,
    }
}
