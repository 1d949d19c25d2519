// Laws of the order, each on an empty function.
ghost use Rattle.std.specs.Prelude.{◌≡◌, ◌<◌, ◌↔◌, ℕ, List};
ghost use Rattle.luf_name.specs.Order.{IsName, IsBefore, IsNth, number_of};

/// The numbers of names rise in the order of the names.
pub fn names_rise()
    ensures { (name other : List ℕ) → IsName name → IsName other → (IsBefore name other ↔ (number_of name < number_of other)) }
{}

/// A number has at most one name.
pub fn one_name()
    ensures { (n : ℕ) (name other : List ℕ) → IsNth name n → IsNth other n → name ≡ other }
{}

/// Each number has a name.
pub fn none_left_out()
    ensures { (n : ℕ) → (name : List ℕ) × IsNth name n }
{}
