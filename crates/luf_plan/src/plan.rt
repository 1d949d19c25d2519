// What the words of a run mean.
ghost use Rattle.std.specs.Prelude.{◌≡◌, ◌≢◌, ◌↔◌, [], map, option_map, codes, false, string_bytes, unwrap_or, Some, IfOk, IsErrOf, IsTrue, MatchOption};
ghost use Rattle.clap.specs.Faults.{fault_of};
ghost use Rattle.clap.specs.Matches.{first_value, found_of, matched_of, raw_values};
ghost use Rattle.clap.specs.Simple.{app_of, with_rule};
ghost use Rattle.clap.specs.Walk.{rule_of};
ghost use Rattle.luf_plan.specs.declared.command.Command.{Command as Meant};
ghost use Rattle.luf_plan.specs.Plan.{planned, Mean, AreNoCommand, HasFlag, config_in, file_rule, files_in, flag_rule, of_format, simple_command, with_flags as spec_with_flags};
ghost use Rattle.luf_plan.specs.inner.Chosen.{IsChosen, NothingChosen};

use crate::command::{Command, Manner, named};
use clap::error::ErrorKind;
use clap::{Arg, ArgAction, ArgMatches, Command as Simple, Error};
use std::alloc::{AllocError, Global};

/// A command, what becomes of its texts, the name of a file of options, and the names of its files. Where none is named, it
/// reads the input.
#[derive(Drop)]
pub struct Plan<'a> {
    /// What the run is to do.
    pub command: Command,
    /// What becomes of its texts.
    pub manner: Manner,
    /// The name of a file of options.
    pub config: Option<&'a str>,
    /// The names of its files.
    pub files: Vec<&'a str>,
}

/// Why there is no plan.
#[derive(Clone, Copy, Debug, PartialEq, Eq)]
pub enum NoPlan {
    /// The words mean none.
    Usage,
    /// No memory was found.
    NoMemory,
}

impl From<AllocError> for NoPlan {
    ghost use Rattle.luf_plan.specs.declared.plan.NoPlan.TheVariants.{NoMemory};

    ghost from_gives = { λ _ e. e ≡ NoMemory };

    fn from(_: AllocError) -> NoPlan {
        NoPlan::NoMemory
    }
}

impl From<Error> for NoPlan {
    ghost use Rattle.std.specs.Prelude.{◌↔◌};
    ghost use Rattle.clap.specs.Words.{kind_of};
    ghost use Rattle.clap.specs.declared.error.kind.ErrorKind.TheVariants.{OutOfMemory};
    ghost use Rattle.luf_plan.specs.declared.plan.NoPlan.TheVariants.{NoMemory};

    ghost from_gives = { λ error e. (e ≡ NoMemory) ↔ (kind_of error ≡ OutOfMemory) };

    fn from(error: Error) -> NoPlan {
        match error.kind() {
            ErrorKind::OutOfMemory => NoPlan::NoMemory,
            _ => NoPlan::Usage,
        }
    }
}

/// The plan that the words mean.
pub fn plan_of<'a>(alloc: Global, words: &'a [String]) -> Result<Plan<'a>, NoPlan>
    ensures plan { IfOk result (λ plan. Mean (map string_bytes words.entry.now) (planned plan.command plan.manner plan.config plan.files.items)) }
    ensures usage { IsErrOf result NoPlan.Usage → AreNoCommand (map string_bytes words.entry.now) }
{
    let Some(word) = words.first() else {
        return Err(NoPlan::Usage);
    };
    let Some(command) = named(word.as_bytes()) else {
        return Err(NoPlan::Usage);
    };
    let args = match args_of(alloc, command, words) {
        Ok(args) => args,
        Err(e) => return Err(e),
    };
    let Some(manner) = chosen(args.check, args.write) else {
        return Err(NoPlan::Usage);
    };
    if command.takes_files(manner, args.files.len()) {
        Ok(Plan {
            command,
            manner,
            config: args.config,
            files: args.files,
        })
    } else {
        Err(NoPlan::Usage)
    }
}

// What becomes of the texts, by the two flags.
fn chosen(check: bool, write: bool) -> Option<Manner>
    ensures { MatchOption result (NothingChosen check write) (IsChosen check write) }
{
    match (check, write) {
        (false, false) => Some(Manner::Show),
        (true, false) => Some(Manner::Compare),
        (false, true) => Some(Manner::Rewrite),
        (true, true) => None,
    }
}

// What stands behind the word of a command.
#[derive(Drop)]
struct Args<'a> {
    check: bool,
    write: bool,
    config: Option<&'a str>,
    files: Vec<&'a str>,
}

// What stands behind the word of a command, as `clap` reads it.
fn args_of<'a>(alloc: Global, command: Command, words: &'a [String]) -> Result<Args<'a>, NoPlan>
    ensures taken { IfOk result (λ args. fault_of (simple_command command) (map string_bytes words.entry.now) ≡ []) }
    ensures check { IfOk result (λ args. IsTrue args.check ↔ HasFlag command (map string_bytes words.entry.now) (codes "check")) }
    ensures write { IfOk result (λ args. IsTrue args.write ↔ HasFlag command (map string_bytes words.entry.now) (codes "write")) }
    ensures config { IfOk result (λ args. option_map (λ s. s.now) args.config ≡ config_in command (map string_bytes words.entry.now)) }
    ensures files { IfOk result (λ args. map (λ s. s.now) args.files.items ≡ files_in command (map string_bytes words.entry.now)) }
    ensures usage { IsErrOf result NoPlan.Usage → fault_of (simple_command command) (map string_bytes words.entry.now) ≢ [] }
{
    let simple = with_rules(alloc, command, Simple::new(alloc, command.word()))?;
    let matches = match simple.try_get_matches_from(words) {
        Ok(matches) => matches,
        Err(e) => return Err(NoPlan::from(e)),
    };
    let files = files_of(alloc, &matches)?;
    Ok(Args {
        check: is_true(value_of(command, &matches, "check")),
        write: is_true(value_of(command, &matches, "write")),
        config: value_of(command, &matches, "config"),
        files,
    })
}

// What `clap` is told of a command behind its word.
fn with_rules<'a>(
    alloc: Global,
    command: Command,
    simple: Simple<'a>,
) -> Result<Simple<'a>, AllocError>
    ensures { IfOk result (λ more. app_of more ≡ with_rule (spec_with_flags command (app_of simple.entry)) file_rule) }
{
    let file = Arg::new(alloc, "FILE").num_args(0..);
    match command {
        Command::Format => with_flags(alloc, simple)?.arg(file),
        Command::Minify | Command::Check | Command::List => simple.arg(file),
    }
}

// The option and the flags of `format`.
fn with_flags<'a>(alloc: Global, simple: Simple<'a>) -> Result<Simple<'a>, AllocError>
    ensures { IfOk result (λ more. app_of more ≡ spec_with_flags Meant.Format (app_of simple.entry)) }
{
    let config = Arg::new(alloc, "config").long("config");
    simple
        .arg(config)?
        .arg(flag_of(alloc, "check"))?
        .arg(flag_of(alloc, "write"))
}

// A flag of this name.
fn flag_of<'a>(alloc: Global, name: &'a str) -> Arg<'a>
    ensures rule { rule_of result ≡ flag_rule name.entry.now }
    ensures own { result.global ≡ false }
{
    Arg::new(alloc, name).long(name).action(ArgAction::SetTrue)
}

// The values of FILE.
fn files_of<'a>(alloc: Global, matches: &ArgMatches<'a>) -> Result<Vec<&'a str>, AllocError>
    ensures { IfOk result (λ files. map (λ s. s.now) files.items ≡ unwrap_or (option_map raw_values (matched_of (found_of matches.now) (codes "FILE"))) []) }
{
    match matches.get_strs("FILE") {
        Some(files) => Vec::from_slice(alloc, files),
        None => Ok(Vec::new(alloc)),
    }
}

// The value of an option or of a flag, which only `format` has.
fn value_of<'a>(command: Command, matches: &ArgMatches<'a>, id: &str) -> Option<&'a str>
    ensures { option_map (λ s. s.now) result ≡ of_format command (first_value (found_of matches.now) id.now) }
{
    match command {
        Command::Format => matches.get_str(id),
        Command::Minify | Command::Check | Command::List => None,
    }
}

// Whether this is the value of a flag that is given.
fn is_true(value: Option<&str>) -> bool
    ensures { IsTrue result ↔ (option_map (λ s. s.now) value.entry ≡ Some (codes "true")) }
{
    match value {
        Some(text) => text == "true",
        None => false,
    }
}
