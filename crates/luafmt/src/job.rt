//! The jobs that commands come to.
ghost use Rattle.std.specs.Prelude.{◌≡◌};
ghost use Rattle.luafmt.specs.Job.{manner_of};

use luf_conf::Options;
use luf_plan::Manner;

/// What a run does with each of its sources.
#[derive(Clone, Copy, Debug, PartialEq, Eq)]
pub enum Job {
    /// Lays it out under these options.
    Format(Options, Manner),
    /// Writes its minified text.
    Minify,
    /// Says whether it is accepted.
    Check,
    /// Writes its listing.
    List,
}

impl Job {
    // What becomes of its texts.
    pub(crate) fn manner(self) -> Manner
        ensures { result ≡ manner_of self }
    {
        match self {
            Job::Format(_, manner) => manner,
            Job::Minify | Job::Check | Job::List => Manner::Show,
        }
    }
}
