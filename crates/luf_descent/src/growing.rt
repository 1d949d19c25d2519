// A list that takes no more memory than its items.
ghost use Rattle.std.specs.Prelude.{◌≡◌, [], ◌∷◌, ◌++◌, OnOk, OnErr};

use sqlite_items::Items;
use std::alloc::{AllocError, Global};
use std::marker::Model;

/// Up to so many items a list takes room for one more alone.
const FEW: usize = 4;

/// A list of the tree while it is read. Most have one item or two: at first it takes room for one more at a time.
#[derive(Debug, Drop)]
pub struct Growing<T> {
    items: Vec<T>,
}

impl<T> Model for Growing<T> {
    ghost use Rattle.std.specs.Prelude.{List};
    ghost use Rattle.std.specs.Coded.{coded_list};

    ghost Value = { List T };

    ghost coded = { coded_list T.code };

    ghost view = { λ it. it.items.items };
}

impl<T> Growing<T> {
    pub fn new(alloc: Global) -> Growing<T>
        ensures { result ≡ [] }
    {
        Growing {
            items: Vec::new(alloc),
        }
    }
}

impl<T: Drop> Growing<T> {
    pub fn push(&mut self, item: T) -> Result<(), AllocError>
        ensures ok { OnOk result (self.new ≡ self.old ++ item ∷ []) }
        ensures err { OnErr result (self.new ≡ self.old) }
    {
        if self.items.len() < FEW {
            self.items.reserve_exact(1)?;
        }
        self.items.push(item)?;
        Ok(())
    }

    /// The items, with room for no more.
    pub fn exact(self) -> Items<T>
        ensures { result ≡ self }
    {
        let Growing { mut items } = self;
        items.shrink_to_fit();
        Items::from_vec(items)
    }
}
