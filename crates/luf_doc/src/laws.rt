// Laws of the layout.
ghost use Rattle.std.specs.Prelude.{◌≡◌, ◌+◌, ◌≤◌, ◌<◌, ◌⊎◌, ℕ, List, false, true};
ghost use Rattle.luf_doc.specs.declared.page.Page.{Page};
ghost use Rattle.luf_doc.specs.Document.{Document, group};
ghost use Rattle.luf_doc.specs.Flat.{flat, forces};
ghost use Rattle.luf_doc.specs.Layout.{Piece, Mode, outside, flat_group, broken_group, column_of, lay, pieces, joined, layout};

/// The bytes of a layout are its pieces, joined.
pub fn layout_joined()
    ensures { (page : Page) (d : Document) → layout page d ≡ joined page (pieces page d) }
{}

/// A group inside a flat group is flat.
pub fn flat_inside()
    ensures { (page : Page) (level after : ℕ) (inner : Document) (done : List Piece) → lay page flat_group level after (group inner) done ≡ lay page flat_group level after inner done }
{}

/// A group in which nothing forces, and which fits with its lead, is flat.
pub fn flat_where_it_fits()
    ensures { (page : Page) (mode : Mode) (level after : ℕ) (inner : Document) (done : List Piece) → forces inner ≡ false → column_of page done + flat inner after ≤ page.width → lay page mode level after (group inner) done ≡ lay page flat_group level after inner done }
{}

/// A group in no flat group, in which something forces, or which does not fit with its lead, is broken.
pub fn broken_elsewhere()
    ensures outside { (page : Page) (level after : ℕ) (inner : Document) (done : List Piece) → (forces inner ≡ true) ⊎ (page.width < column_of page done + flat inner after) → lay page outside level after (group inner) done ≡ lay page broken_group level after inner done }
    ensures broken { (page : Page) (level after : ℕ) (inner : Document) (done : List Piece) → (forces inner ≡ true) ⊎ (page.width < column_of page done + flat inner after) → lay page broken_group level after (group inner) done ≡ lay page broken_group level after inner done }
{}
