// What each token is to the names of a chunk, and its local variables.
ghost use Rattle.std.specs.Prelude.{◌≡◌};
ghost use Rattle.luf_scope.specs.Links.{role_at};

use crate::{Binder, Marks, Role};
use std::marker::Model;

/// The role of each token, and the local variables. Only the tokens that have a role take memory.
#[derive(Debug, Drop)]
pub struct Links {
    tokens: u32,
    roles: Marks<Role>,
    binders: Vec<Binder>,
}

impl Model for Links {
    ghost use Rattle.luf_scope.specs.Links.{NameTable};

    ghost Value = { NameTable };

    ghost view = { λ l. record { tokens = l.tokens; roles = l.roles; binders = l.binders.items } };
}

impl Links {
    pub(crate) fn of(tokens: u32, roles: Marks<Role>, binders: Vec<Binder>) -> Links
        ensures { result ≡ record { tokens = tokens; roles = roles; binders = binders.items } }
    {
        Links {
            tokens,
            roles,
            binders,
        }
    }

    /// What token `token` is; None from the number of tokens on.
    pub fn at(&self, token: u32) -> Option<Role>
        ensures { result ≡ role_at self.now token }
    {
        if token >= self.tokens {
            return None;
        }
        match self.roles.at(token) {
            Some(role) => Some(role),
            None => Some(Role::Plain),
        }
    }

    /// The local variables, by their numbers.
    pub fn binders(&self) -> &[Binder]
        ensures { result.now ≡ self.now.binders }
    {
        self.binders.as_slice()
    }
}
