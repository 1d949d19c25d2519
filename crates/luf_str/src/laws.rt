//! Laws of the definitions, each on an empty function.

ghost use Rattle.std.specs.Prelude.{◌≡◌, ℕ, List, [], ◌++◌, Option};
ghost use Rattle.luf_str.specs.declared.ends.ShortEnd.{ShortEnd};
ghost use Rattle.luf_str.specs.LongEnd.{IsLongEnd};
ghost use Rattle.luf_str.specs.Requote.{IsRequoted};
ghost use Rattle.luf_str.specs.ShortEnd.{IsShortEnd};
ghost use Rattle.luf_str.specs.Spelling.{IsStringSpelling};
ghost use Rattle.luf_str.specs.Value.{IsValue, FirstBad};

/// A string has at most one value.
pub fn one_value()
    ensures { (spelling value other : List ℕ) → IsValue spelling value → IsValue spelling other → value ≡ other }
{}

/// A string with a bad escape has no value.
pub fn value_excludes_bad()
    ensures { (spelling value : List ℕ) (at : ℕ) → IsValue spelling value → FirstBad spelling at → ⊥ }
{}

/// A string has at most one first bad escape.
pub fn one_bad_place()
    ensures { (spelling : List ℕ) (at other : ℕ) → FirstBad spelling at → FirstBad spelling other → at ≡ other }
{}

/// What has a value is a spelling.
pub fn value_spelled()
    ensures { (spelling value : List ℕ) → IsValue spelling value → IsStringSpelling spelling }
{}

/// No spelling is a proper front of another.
pub fn spellings_apart()
    ensures { (spelling more : List ℕ) → IsStringSpelling spelling → IsStringSpelling (spelling ++ more) → more ≡ [] }
{}

/// A string has at most one spelling in other quotes.
pub fn one_requoted()
    ensures { (spelling requoted other : List ℕ) (q : ℕ) → IsRequoted spelling q requoted → IsRequoted spelling q other → requoted ≡ other }
{}

/// A string in quotes with which a text begins ends in one way at most.
pub fn one_short_end()
    ensures { (text : List ℕ) (one other : ShortEnd) → IsShortEnd text one → IsShortEnd text other → one ≡ other }
{}

/// A long string with which a text begins ends in one way at most.
pub fn one_long_end()
    ensures { (text : List ℕ) (one other : Option ℕ) → IsLongEnd text one → IsLongEnd text other → one ≡ other }
{}
