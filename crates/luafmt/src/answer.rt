//! What a source comes to, before any of it is written.
ghost use Rattle.std.specs.Prelude.{◌≡◌, ◌≢◌, ◌⊎◌, ◌++◌, ℕ, List, [], codes, string_bytes, option_map, Some, None, Ok, Err, IfOk, IfErr, OnOk, OnErr, IsErrOf};
ghost use Rattle.luf_io.specs.Count.{Rose};
ghost use Rattle.luf_io.specs.Files.{FileMap, IsMissing};
ghost use Rattle.luafmt.specs.Job.{manner_of, Writes, Refuses};
ghost use Rattle.luafmt.specs.Line.{line_of, refusal_line as spec_refusal_line};
ghost use Rattle.luafmt.specs.Outcome.{input as of_input, file, Holds, Comes};
ghost use Rattle.luafmt.specs.inner.InRange.{IsInRange};

use crate::job::Job;
use crate::line::{differs_line, refusal_line};
use crate::status::Status;
use luf_io::{FileFault, Files, ReadErr, Source, read_all};
use luf_memory::Memory;
use luf_plan::Manner;
use luf_work::{Refusal, SOURCE_LIMIT, check_bytes, format_bytes, list_bytes, minify_bytes};
use std::alloc::Global;
use std::marker::Model;

// The status of a source, what is to go to `out` and to `errs`, and what its file is to hold, where that is to change.
#[derive(Drop)]
pub(crate) struct Answer {
    pub(crate) status: Status,
    pub(crate) out: Vec<u8>,
    pub(crate) errs: String,
    pub(crate) rewritten: Option<Vec<u8>>,
}

impl Model for Answer {
    ghost use Rattle.std.specs.Prelude.{string_bytes, option_map};
    ghost use Rattle.luafmt.specs.Outcome.{Turn};

    ghost Value = { Turn };

    ghost view = { λ a. record { status = a.status; out = a.out.items; errs = string_bytes a.errs; rewritten = option_map (λ bytes. bytes.items) a.rewritten } };
}

// Why a source has no answer.
pub(crate) enum Halt {
    Fault,
    NoMemory,
}

impl From<Memory> for Halt {
    ghost use Rattle.std.specs.Prelude.{◌≡◌};
    ghost use Rattle.luafmt.specs.declared.answer.Halt.TheVariants.{NoMemory};

    ghost from_gives = { λ _ h. h ≡ NoMemory };

    fn from(_: Memory) -> Halt {
        Halt::NoMemory
    }
}

// The answer to the input, which is read whole.
pub(crate) fn answer_input<I: Source>(
    alloc: Global,
    job: Job,
    input: &mut I,
) -> Result<Answer, Halt>
    requires range { IsInRange job }
    ensures comes { IfOk result (λ a. (contents : List ℕ)
        × Holds (I.left input.old) None of_input contents × Comes job (codes "-") contents a) }
    ensures calm { OnOk result (I.faults input.new ≡ I.faults input.old) }
    ensures fault { IsErrOf result Halt.Fault → Rose (I.faults input.old) (I.faults input.new) }
    ensures no_memory { IsErrOf result Halt.NoMemory → I.faults input.new ≡ I.faults input.old }
{
    let mut source = Vec::new(alloc);
    match read_all(alloc, input, SOURCE_LIMIT, &mut source) {
        Ok(()) => Ok(answered(alloc, job, "-", &source)?),
        Err(ReadErr::TooLarge) => Ok(refused(alloc, "-", Refusal::TooLarge)?),
        Err(ReadErr::Fault) => Err(Halt::Fault),
        Err(ReadErr::Memory) => Err(Halt::NoMemory),
    }
}

// The answer to a file, which is fetched whole.
pub(crate) fn answer_file<F: Files>(
    alloc: Global,
    job: Job,
    name: &str,
    files: &mut F,
) -> Result<Answer, Halt>
    requires range { IsInRange job }
    ensures comes { IfOk result (λ a. (contents : List ℕ)
        × Holds None (F.told files.old) (file name.now) contents × Comes job name.now contents a) }
    ensures calm { OnOk result (F.fetch_faults files.new ≡ F.fetch_faults files.old) }
    ensures fault { IsErrOf result Halt.Fault
        → IsMissing (F.told files.old) name.now ⊎ Rose (F.fetch_faults files.old) (F.fetch_faults files.new) }
    ensures no_memory { IsErrOf result Halt.NoMemory → F.fetch_faults files.new ≡ F.fetch_faults files.old }
    ensures kept { (F.told files.new ≡ F.told files.old) × (F.replace_faults files.new ≡ F.replace_faults files.old) }
{
    let mut source = Vec::new(alloc);
    match files.fetch(alloc, name, SOURCE_LIMIT, &mut source) {
        Ok(true) => Ok(answered(alloc, job, name, &source)?),
        Ok(false) => Ok(refused(alloc, name, Refusal::TooLarge)?),
        Err(FileFault::Failed) => Err(Halt::Fault),
        Err(FileFault::Memory) => Err(Halt::NoMemory),
    }
}

// The answer of a job to a source of this name.
fn answered(alloc: Global, job: Job, name: &str, source: &[u8]) -> Result<Answer, Memory>
    requires range { IsInRange job }
    ensures { IfOk result (Comes job name.now source.now) }
{
    let mut text = Vec::new(alloc);
    match write_text(alloc, job, source, &mut text) {
        Ok(()) => accepted(alloc, job, name, source, text),
        Err(refusal) => refused(alloc, name, refusal),
    }
}

// Appends the text of a source.
fn write_text(alloc: Global, job: Job, source: &[u8], into: &mut Vec<u8>) -> Result<(), Refusal>
    requires range { IsInRange job }
    ensures ok { OnOk result ((text : List ℕ) × Writes job source.now text × (into.new.items ≡ into.old.items ++ text)) }
    ensures refused { IfErr result (λ refusal. refusal ≢ Refusal.Memory → Refuses job source.now refusal) }
{
    match job {
        Job::Format(options, _) => format_bytes(alloc, source, &options, into),
        Job::Minify => minify_bytes(alloc, source, into),
        Job::Check => check_bytes(alloc, source),
        Job::List => list_bytes(alloc, source, into),
    }
}

// The answer to a source that is accepted, with this text.
fn accepted(
    alloc: Global,
    job: Job,
    name: &str,
    source: &[u8],
    text: Vec<u8>,
) -> Result<Answer, Memory>
    requires written { Writes job source.now text.items }
    ensures { IfOk result (Comes job name.now source.now) }
{
    match job.manner() {
        Manner::Show => Ok(done(alloc, text, None)),
        Manner::Compare => compared(alloc, job, name, source, &text),
        Manner::Rewrite => Ok(rewritten(alloc, job, name, source, text)),
    }
}

// The answer to a source that is compared with its text.
fn compared(
    alloc: Global,
    job: Job,
    name: &str,
    source: &[u8],
    text: &[u8],
) -> Result<Answer, Memory>
    requires manner { manner_of job ≡ Manner.Compare }
    requires written { Writes job source.now text.now }
    ensures { IfOk result (Comes job name.now source.now) }
{
    if text == source {
        return Ok(done(alloc, Vec::new(alloc), None));
    }
    Ok(Answer {
        status: Status::Differs,
        out: Vec::new(alloc),
        errs: differs_line(alloc, name)?,
        rewritten: None,
    })
}

// The answer to a source whose text takes its place.
fn rewritten(alloc: Global, job: Job, name: &str, source: &[u8], text: Vec<u8>) -> Answer
    requires manner { manner_of job ≡ Manner.Rewrite }
    requires written { Writes job source.now text.items }
    ensures { Comes job name.now source.now result }
{
    let same = text.as_slice() == source;
    if same {
        done(alloc, Vec::new(alloc), None)
    } else {
        done(alloc, Vec::new(alloc), Some(text))
    }
}

// A source that is done, with what goes to `out`, and what its file is to hold.
fn done(alloc: Global, out: Vec<u8>, rewritten: Option<Vec<u8>>) -> Answer
    ensures { result ≡ record { status = Status.Done; out = out.items; errs = []; rewritten = option_map (λ bytes. bytes.items) rewritten } }
{
    Answer {
        status: Status::Done,
        out,
        errs: String::new(alloc),
        rewritten,
    }
}

// The answer to a source that is refused. Want of memory has none.
fn refused(alloc: Global, name: &str, refusal: Refusal) -> Result<Answer, Memory>
    ensures { IfOk result (λ a. (line : List ℕ) × (spec_refusal_line name.now refusal ≡ Some line)
        × (a ≡ record { status = Status.Refused; out = []; errs = line_of line; rewritten = None })) }
{
    Ok(Answer {
        status: Status::Refused,
        out: Vec::new(alloc),
        errs: refusal_line(alloc, name, refusal)?,
        rewritten: None,
    })
}
