// Laws of what is written of a bare program.
ghost use Rattle.luf_bare.specs.Rank.{RanksCount, RanksInOrder};
ghost use Rattle.luf_bare.specs.RankedAgain.{OneRanking, RankedAgain};
ghost use Rattle.luf_bare.specs.ReadBack.{OneDepth, SignificantAreWritten, TextIsRead, WrittenIsRead};

/// Chunks of one bare program are nested equally deep.
pub fn one_depth()
    ensures { OneDepth }
{}

/// Each text of a program is read as that program, with parentheses round the same arguments, and what its tree drops
/// is what was added.
pub fn text_is_read()
    ensures { TextIsRead }
{}

/// The significant tokens of a chunk are what is written of its bare program with nothing added.
pub fn significant_are_written()
    ensures { SignificantAreWritten }
{}

/// What is written of a chunk, with any choices, is read as the same program, with the same significant tokens.
pub fn written_is_read()
    ensures { WrittenIsRead }
{}

/// A significant token stands before a place exactly where its rank is less.
pub fn ranks_in_order()
    ensures { RanksInOrder }
{}

/// The rank of a significant token is its number among the significant tokens.
pub fn ranks_count()
    ensures { RanksCount }
{}

/// Chunks of one bare program have one bare program by ranks.
pub fn one_ranking()
    ensures { OneRanking }
{}

/// What is read of a text that is written of a chunk has the same bare program by ranks.
pub fn ranked_again()
    ensures { RankedAgain }
{}
