// Laws of the document of a text.
ghost use Rattle.std.specs.Prelude.{ℕ, List};
ghost use Rattle.luf_conf.specs.declared.settings.Options.{Options};
ghost use Rattle.luf_style.specs.Styled.{IsFormatted, choices_of};
ghost use Rattle.luf_twice.specs.Again.{FilledAgain, GapsAgain};
ghost use Rattle.luf_twice.specs.Ready.{DocumentIsReady};
ghost use Rattle.luf_twice.specs.Twice.{TwiceIsOnce};

/// A draft that is filled to a document is filled, with the gaps of the document that is read again, to that document.
pub fn filled_again()
    ensures { FilledAgain }
{}

/// The gaps of the text are those of the document that is read again.
pub fn gaps_again()
    ensures { GapsAgain }
{}

/// The document of a source has what its layout needs for these laws.
pub fn document_is_ready()
    ensures { DocumentIsReady }
{}

/// A text that is formatted and read as what it was written of is the formatted text of itself.
pub fn twice_is_once()
    ensures { TwiceIsOnce }
{}

/// A formatted text is the formatted text of itself, under the same options.
pub fn formatted_once()
    ensures { (o : Options) (source text : List ℕ) → IsFormatted (choices_of o) source text → IsFormatted (choices_of o) text text }
{}
