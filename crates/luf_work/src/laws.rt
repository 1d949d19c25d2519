// Laws of the texts of a source and of the causes of a refusal: a source has one of the two, and one only.
ghost use Rattle.std.specs.Prelude.{◌≡◌, ℕ, List};
ghost use Rattle.luf_min.specs.Minified.{IsMinified};
ghost use Rattle.luf_conf.specs.declared.settings.Options.{Options};
ghost use Rattle.luf_style.specs.Styled.{IsFormatted, choices_of};
ghost use Rattle.luf_work.specs.Format.{IsFormatAccepted, IsFormatRefusal};
ghost use Rattle.luf_work.specs.List.{IsListing, IsListAccepted, IsListRefusal};
ghost use Rattle.luf_work.specs.Minify.{IsMinifyAccepted, IsMinifyRefusal};
ghost use Rattle.luf_work.specs.Refusals.{IsSourceRefusal};
ghost use Rattle.luf_work.specs.Source.{IsAccepted};
ghost use Rattle.luf_work.specs.declared.refusal.Refusal.{Refusal};

/// A source has at most one minified text.
pub fn one_text()
    ensures { (source text other : List ℕ) → IsMinified source text → IsMinified source other → text ≡ other }
{}

/// A source that every job accepts has no cause for which every job refuses it.
pub fn source_not_refused()
    ensures { (source : List ℕ) (refusal : Refusal) → IsAccepted source → IsSourceRefusal source refusal → ⊥ }
{}

/// A source has at most one cause for which every job refuses it.
pub fn one_source_refusal()
    ensures { (source : List ℕ) (refusal other : Refusal) → IsSourceRefusal source refusal → IsSourceRefusal source other → refusal ≡ other }
{}

/// A source that `minify` accepts has no cause of a refusal.
pub fn accepted_not_refused()
    ensures { (source : List ℕ) (refusal : Refusal) → IsMinifyAccepted source → IsMinifyRefusal source refusal → ⊥ }
{}

/// A source has at most one cause of a refusal by `minify`.
pub fn one_refusal()
    ensures { (source : List ℕ) (refusal other : Refusal) → IsMinifyRefusal source refusal → IsMinifyRefusal source other → refusal ≡ other }
{}

/// An input has at most one listing.
pub fn one_listing()
    ensures { (source text other : List ℕ) → IsListing source text → IsListing source other → text ≡ other }
{}

/// An input that `list` accepts has no cause of a refusal by it.
pub fn list_accepted_not_refused()
    ensures { (source : List ℕ) (refusal : Refusal) → IsListAccepted source → IsListRefusal source refusal → ⊥ }
{}

/// An input has at most one cause of a refusal by `list`.
pub fn one_list_refusal()
    ensures { (source : List ℕ) (refusal other : Refusal) → IsListRefusal source refusal → IsListRefusal source other → refusal ≡ other }
{}

/// A source has at most one formatted text under the same options.
pub fn one_formatted_text()
    ensures { (o : Options) (source text other : List ℕ) → IsFormatted (choices_of o) source text → IsFormatted (choices_of o) source other → text ≡ other }
{}

/// A source that `format` accepts has no cause of a refusal by it.
pub fn format_accepted_not_refused()
    ensures { (o : Options) (source : List ℕ) (refusal : Refusal) → IsFormatAccepted o source → IsFormatRefusal o source refusal → ⊥ }
{}

/// A source has at most one cause of a refusal by `format`.
pub fn one_format_refusal()
    ensures { (o : Options) (source : List ℕ) (refusal other : Refusal) → IsFormatRefusal o source refusal → IsFormatRefusal o source other → refusal ≡ other }
{}
