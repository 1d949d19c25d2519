// Laws of the document that is read again.
ghost use Rattle.std.specs.Prelude.{◌≡◌, ℕ, Bool, List, [], ◌++◌, false, true, reverse};
ghost use Rattle.luf_doc.specs.declared.page.Page.{Page};
ghost use Rattle.luf_doc.specs.Document.{Document};
ghost use Rattle.luf_doc.specs.Layout.{pieces, layout};
ghost use Rattle.luf_again.specs.Reread.{reread_whole};
ghost use Rattle.luf_again.specs.Formed.{IsFormed};
ghost use Rattle.luf_again.specs.Apart.{IsApart, IsClosed};
ghost use Rattle.luf_again.specs.Tells.{Tells, untold, notes_of, notes_told};
ghost use Rattle.luf_again.specs.Shown.{shown};
ghost use Rattle.luf_again.specs.Unflagged.{unflagged};
ghost use Rattle.luf_again.specs.Beside.{AllBeside};
ghost use Rattle.luf_again.specs.Lexed.{IsHead, Lexed, ReadsAt};
ghost use Rattle.luf_lex.specs.declared.token.Piece.{Piece as CutPiece};

/// The layout of the document that is read again is the layout, piece for piece.
pub fn layout_again()
    ensures pieces { (short : List ℕ → Bool) (page : Page) (d : Document) → IsFormed short false false d → pieces page (reread_whole short page d) ≡ pieces page d }
    ensures layout { (short : List ℕ → Bool) (page : Page) (d : Document) → IsFormed short false false d → layout page (reread_whole short page d) ≡ layout page d }
{}

/// Only flags change when a document is read again: those of notes, and the empty lines of gaps.
pub fn flags_alone()
    ensures { (short : List ℕ → Bool) (page : Page) (d : Document) → unflagged (reread_whole short page d) ≡ unflagged d }
{}

/// What the text shows of comments and empty lines, token by token, is what the document that is read again tells.
pub fn text_tells()
    ensures { (short : List ℕ → Bool) (page : Page) (d : Document) → IsApart true d → IsClosed d → Tells (reread_whole short page d) untold (shown short (pieces page d)) }
{}

/// The comments that the text shows, with their flags, are the notes of the document that is read again, in order.
pub fn notes_again()
    ensures { (short : List ℕ → Bool) (page : Page) (d : Document) → IsApart true d → IsClosed d → notes_told (shown short (pieces page d)).sights [] ≡ notes_of (reread_whole short page d) [] }
{}

/// Pieces stand side by side so that a cut of the text finds them.
pub fn pieces_stand_beside()
    ensures { (short : List ℕ → Bool) (page : Page) (d : Document) → IsApart true d → IsFormed short false false d → AllBeside short (reverse (pieces page d)) }
{}

/// Where a cut of the text has its pieces, what it says before each token, and before the end, is what the text shows.
pub fn cut_reads()
    ensures { (short : List ℕ → Bool) (page : Page) (d : Document) (source : List ℕ) (head body : List CutPiece) (n : ℕ) → IsApart true d → IsFormed short false false d → IsHead head → Lexed source [] (pieces page d) body → ReadsAt short source (head ++ body) n (shown short (pieces page d)) }
{}
