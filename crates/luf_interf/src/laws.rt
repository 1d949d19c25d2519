// Laws of new names.
ghost use Rattle.luf_interf.specs.RenamingLaws.{CapturedOrAlike, LeastIsFree, LeastNamesExist, LeastNamesHaveNoFault, LeastNamesKeepJumps, LeastNamesKeepRoles, LeastNamesResolveAlike, OneNaming};

/// Whatever the naming, a reference means what it meant exactly where nothing captures it.
pub fn captured_or_alike()
    ensures { CapturedOrAlike }
{}

/// Under least names nothing is captured.
pub fn least_is_free()
    ensures { LeastIsFree }
{}

/// The least names of a source are one.
pub fn one_naming()
    ensures { OneNaming }
{}

/// Under least names each token has the role that it had.
pub fn least_names_keep_roles()
    ensures { LeastNamesKeepRoles }
{}

/// Under least names each goto goes to the label that it went to, where each has one.
pub fn least_names_keep_jumps()
    ensures { LeastNamesKeepJumps }
{}

/// A chunk under least names resolves to what it resolved to, where each goto has a label.
pub fn least_names_resolve_alike()
    ensures { LeastNamesResolveAlike }
{}

/// A source without scope faults has none under least names.
pub fn least_names_have_no_fault()
    ensures { LeastNamesHaveNoFault }
{}

/// Each source has least names.
pub fn least_names_exist()
    ensures { LeastNamesExist }
{}
