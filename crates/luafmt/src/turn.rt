//! The sources of a plan, one after another.
ghost use Rattle.std.specs.Prelude.{◌≡◌, ◌≢◌, ◌⊎◌, ◌∷◌, ℕ, List, [], map, take, Option, None, IfOk, IfErr, OnOk, OnErr, IsErrOf};
ghost use Rattle.luf_io.specs.Count.{Rose};
ghost use Rattle.luf_io.specs.Files.{CountsReplace, FileMap};
ghost use Rattle.luf_io.specs.Sink.{Appends};
ghost use Rattle.luafmt.specs.Counts.{counts};
ghost use Rattle.luafmt.specs.Outcome.{input as of_input, file, or_next, origins, rewritten_by};
ghost use Rattle.luafmt.specs.inner.Ended.{world, Through, Halted, Ended};
ghost use Rattle.luafmt.specs.inner.InRange.{IsInRange};

use crate::answer::{Answer, Halt, answer_file, answer_input};
use crate::job::Job;
use crate::status::Status;
use luf_io::{FileFault, Files, Sink, Source, WriteErr, write_all};
use luf_plan::Plan;
use std::alloc::Global;

// Takes the sources of a plan in turn, and answers how the run ends.
pub(crate) fn take_turns<F: Files, I: Source, O: Sink, E: Sink>(
    alloc: Global,
    plan: &Plan,
    job: Job,
    files: &mut F,
    input: &mut I,
    out: &mut O,
    errs: &mut E,
) -> Status
    requires range { IsInRange job }
    ensures ended { Ended job (I.left input.old) (origins (map (λ s. s.now) plan.now.files.items))
        (world (F.told files.old) (O.written out.old) (E.written errs.old) (counts (I.faults input.old) (F.fetch_faults files.old) (F.replace_faults files.old) (O.faults out.old) (E.faults errs.old)))
        (world (F.told files.new) (O.written out.new) (E.written errs.new) (counts (I.faults input.new) (F.fetch_faults files.new) (F.replace_faults files.new) (O.faults out.new) (E.faults errs.new)))
        result }
    ensures named { map (λ s. s.now) plan.now.files.items ≢ [] → input.new ≡ input.old }
    ensures unnamed { map (λ s. s.now) plan.now.files.items ≡ [] → files.new ≡ files.old }
{
    let names = plan.files.as_slice();
    if names.is_empty() {
        return take_input(alloc, job, input, out, errs);
    }
    take_files(alloc, job, names, files, out, errs)
}

// The turn of the input alone. Files are not touched: whatever they tell and count, stays.
fn take_input<I: Source, O: Sink, E: Sink>(
    alloc: Global,
    job: Job,
    input: &mut I,
    out: &mut O,
    errs: &mut E,
) -> Status
    requires range { IsInRange job }
    ensures { (told : Option FileMap) (fetches replaces : ℕ) → Ended job (I.left input.old) (of_input ∷ [])
        (world told (O.written out.old) (E.written errs.old) (counts (I.faults input.old) fetches replaces (O.faults out.old) (E.faults errs.old)))
        (world told (O.written out.new) (E.written errs.new) (counts (I.faults input.new) fetches replaces (O.faults out.new) (E.faults errs.new)))
        result }
{
    match answer_input(alloc, job, input) {
        Ok(answer) => match write(&answer, out, errs) {
            Ok(()) => answer.status,
            Err(WriteErr::Fault) => Status::WriteFault,
        },
        Err(Halt::Fault) => Status::ReadFault,
        Err(Halt::NoMemory) => Status::NoMemory,
    }
}

// The turns of files.
fn take_files<F: Files, O: Sink, E: Sink>(
    alloc: Global,
    job: Job,
    names: &[&str],
    files: &mut F,
    out: &mut O,
    errs: &mut E,
) -> Status
    requires range { IsInRange job }
    ensures { (left : Option (List ℕ)) (faults : ℕ) → Ended job left (map file (map (λ s. s.now) names.now))
        (world (F.told files.old) (O.written out.old) (E.written errs.old) (counts faults (F.fetch_faults files.old) (F.replace_faults files.old) (O.faults out.old) (E.faults errs.old)))
        (world (F.told files.new) (O.written out.new) (E.written errs.new) (counts faults (F.fetch_faults files.new) (F.replace_faults files.new) (O.faults out.new) (E.faults errs.new)))
        result }
{
    let mut status = Status::Done;
    for name in names {
        match take_file(alloc, job, name, files, out, errs) {
            Ok(next) => status = status.or_next(next),
            Err(end) => return end,
        }
    }
    status
}

// The turn of one file. On `Err` the run is to end at once, with this status.
fn take_file<F: Files, O: Sink, E: Sink>(
    alloc: Global,
    job: Job,
    name: &str,
    files: &mut F,
    out: &mut O,
    errs: &mut E,
) -> Result<Status, Status>
    requires range { IsInRange job }
    ensures ok { IfOk result (λ status. (left : Option (List ℕ)) (faults : ℕ) → Through job left (file name.now ∷ [])
        (world (F.told files.old) (O.written out.old) (E.written errs.old) (counts faults (F.fetch_faults files.old) (F.replace_faults files.old) (O.faults out.old) (E.faults errs.old)))
        (world (F.told files.new) (O.written out.new) (E.written errs.new) (counts faults (F.fetch_faults files.new) (F.replace_faults files.new) (O.faults out.new) (E.faults errs.new)))
        status) }
    ensures err { IfErr result (λ status. (left : Option (List ℕ)) (faults : ℕ) → Halted job left (file name.now ∷ [])
        (world (F.told files.old) (O.written out.old) (E.written errs.old) (counts faults (F.fetch_faults files.old) (F.replace_faults files.old) (O.faults out.old) (E.faults errs.old)))
        (world (F.told files.new) (O.written out.new) (E.written errs.new) (counts faults (F.fetch_faults files.new) (F.replace_faults files.new) (O.faults out.new) (E.faults errs.new)))
        status) }
{
    let answer = match answer_file(alloc, job, name, files) {
        Ok(answer) => answer,
        Err(Halt::Fault) => return Err(Status::ReadFault),
        Err(Halt::NoMemory) => return Err(Status::NoMemory),
    };
    match rewrite(alloc, name, &answer, files) {
        Ok(()) => match write(&answer, out, errs) {
            Ok(()) => Ok(answer.status),
            Err(WriteErr::Fault) => Err(Status::WriteFault),
        },
        Err(FileFault::Failed) => Err(Status::WriteFault),
        Err(FileFault::Memory) => Err(Status::NoMemory),
    }
}

// Gives a file what it is to hold, where that is to change.
fn rewrite<F: Files>(
    alloc: Global,
    name: &str,
    answer: &Answer,
    files: &mut F,
) -> Result<(), FileFault>
    ensures ok { OnOk result (F.told files.new ≡ rewritten_by (file name.now) answer.now.rewritten (F.told files.old)) }
    ensures err { OnErr result (F.told files.new ≡ F.told files.old) }
    ensures failed { IsErrOf result FileFault.Failed → answer.now.rewritten ≢ None }
    ensures counted { CountsReplace result (F.replace_faults files.old) (F.replace_faults files.new) }
    ensures other { F.fetch_faults files.new ≡ F.fetch_faults files.old }
{
    match &answer.rewritten {
        Some(bytes) => files.replace(alloc, name, bytes),
        None => Ok(()),
    }
}

// Writes an answer whole.
fn write<O: Sink, E: Sink>(answer: &Answer, out: &mut O, errs: &mut E) -> Result<(), WriteErr>
    ensures out { OnOk result (Appends (O.written out.old) answer.now.out (O.written out.new)) }
    ensures errs { OnOk result (Appends (E.written errs.old) answer.now.errs (E.written errs.new)) }
    ensures calm { OnOk result
        ((O.faults out.new ≡ O.faults out.old) × (E.faults errs.new ≡ E.faults errs.old)) }
    ensures part { OnErr result ((n : ℕ) × (m : ℕ)
        × Appends (O.written out.old) (take n answer.now.out) (O.written out.new)
        × Appends (E.written errs.old) (take m answer.now.errs) (E.written errs.new)) }
    ensures fault { OnErr result
        (Rose (O.faults out.old) (O.faults out.new) ⊎ Rose (E.faults errs.old) (E.faults errs.new)) }
{
    write_all(out, &answer.out)?;
    write_all(errs, answer.errs.as_bytes())
}
