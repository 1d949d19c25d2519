// Laws of what a chunk says of names.
ghost use Rattle.luf_scope.specs.Nesting.{LabelBlocksAreNested};
ghost use Rattle.luf_scope.specs.Order.{OccurrencesAreOrdered};

/// What a chunk says stands in the order of its tokens, and of two scopes the later one ends before the earlier begins,
/// lies in it, or begins behind it.
pub fn occurrences_are_ordered()
    ensures { OccurrencesAreOrdered }
{}

/// A block, or a function, that holds a label holds the block of that label, and of two blocks of labels that overlap
/// the later one ends in the other.
pub fn label_blocks_are_nested()
    ensures { LabelBlocksAreNested }
{}
