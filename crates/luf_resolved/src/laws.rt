// Laws of what a source resolves to.
ghost use Rattle.luf_resolved.specs.ResolvedLaws.{BareResolvesAlike, OneMeaning, WrittenHasNoFault, WrittenResolvesAlike};

/// With one tree a source resolves to one program.
pub fn one_meaning()
    ensures { OneMeaning }
{}

/// A chunk resolves to what its bare program by ranks resolves to.
pub fn bare_resolves_alike()
    ensures { BareResolvesAlike }
{}

/// A text that is written of a chunk resolves to what the chunk resolves to.
pub fn written_resolves_alike()
    ensures { WrittenResolvesAlike }
{}

/// A text that is written of a chunk without scope faults has none, as it is read.
pub fn written_has_no_fault()
    ensures { WrittenHasNoFault }
{}
