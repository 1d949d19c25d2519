// The commands, their words, and how many files each takes.
ghost use Rattle.std.specs.Prelude.{◌≡◌, ◌↔◌, IsTrue, MatchOption};
ghost use Rattle.luf_plan.specs.Command.{command_word, TakesFiles};
ghost use Rattle.luf_plan.specs.declared.command.Command.{Command as Meant};

/// What a run is to do.
#[derive(Clone, Copy, Debug, PartialEq, Eq)]
pub enum Command {
    /// Lays out a source.
    Format,
    /// Writes the minified text of a source.
    Minify,
    /// Says whether a source is accepted.
    Check,
    /// Writes the listing of a chunk.
    List,
}

/// What becomes of the text of a source.
#[derive(Clone, Copy, Debug, PartialEq, Eq)]
pub enum Manner {
    /// It is written.
    Show,
    /// It is compared with the source.
    Compare,
    /// It takes the place of the source, where it is another.
    Rewrite,
}

impl Command {
    // The word that names it.
    pub(crate) fn word(self) -> &'static str
        ensures { result.now ≡ command_word self }
    {
        match self {
            Command::Format => "format",
            Command::Minify => "minify",
            Command::Check => "check",
            Command::List => "list",
        }
    }

    // Whether so many files may be named.
    pub(crate) fn takes_files(self, manner: Manner, count: usize) -> bool
        ensures { IsTrue result ↔ TakesFiles self manner count }
    {
        match self {
            Command::Format => takes_formatted(manner, count),
            Command::Minify | Command::List => count <= 1,
            Command::Check => true,
        }
    }
}

// Whether `format` takes so many files.
fn takes_formatted(manner: Manner, count: usize) -> bool
    ensures { IsTrue result ↔ TakesFiles Meant.Format manner count }
{
    match manner {
        Manner::Show => count <= 1,
        Manner::Compare | Manner::Rewrite => count >= 1,
    }
}

// The command that a word names, if it names one.
pub(crate) fn named(word: &[u8]) -> Option<Command>
    ensures { MatchOption result ((command : Meant) → command_word command ≡ word.now → ⊥) (λ command. command_word command ≡ word.now) }
{
    match word {
        b"format" => Some(Command::Format),
        b"minify" => Some(Command::Minify),
        b"check" => Some(Command::Check),
        b"list" => Some(Command::List),
        _ => None,
    }
}
