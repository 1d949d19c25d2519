//! The top call, from the words of a command to its status.
ghost use Rattle.std.specs.Prelude.{◌≡◌, ◌≢◌, ◌⊎◌, ◌∷◌, ℕ, List, [], None, take, map, string_bytes};
ghost use Rattle.luf_conf.specs.declared.settings.Options.{Options};
ghost use Rattle.luf_io.specs.Sink.{Appends};
ghost use Rattle.luf_plan.specs.Plan.{Plan as Planned, planned, Mean, AreNoCommand};
ghost use Rattle.luf_plan.specs.declared.command.Command.TheVariants as command;
ghost use Rattle.luf_plan.specs.declared.command.Manner.{Manner};
ghost use Rattle.luf_plan.specs.declared.command.Manner.TheVariants as manner;
ghost use Rattle.luf_work.specs.Format.{KeepsSource};
ghost use Rattle.luf_work.specs.Minify.{KeepsProgram};
ghost use Rattle.luafmt.specs.Config.{AreOptionsOf};
ghost use Rattle.luafmt.specs.Counts.{counts, CouldNotRead, CouldNotWrite, ReadsAreCalm, WritesAreCalm, NoneRose};
ghost use Rattle.luafmt.specs.Keeps.{Keeps};
ghost use Rattle.luafmt.specs.Outcome.{Origin, Outcome, Turn, Comes, IsOutcome, IsBegun, AreTold, IsMissingAtTurn, RanThrough, Holds, origins};
ghost use Rattle.luafmt.specs.inner.Ended.{world, RunEnded};
ghost use Rattle.luafmt.specs.declared.job.Job.TheVariants as job;

use crate::config::{NoJob, job_of};
use crate::status::Status;
use crate::turn::take_turns;
use luf_io::{Files, Sink, Source, WriteErr, write_all};
use luf_plan::{NoPlan, Plan, plan_of};
use std::alloc::Global;

/// Runs the command that the words after the program's name mean, over its files in the order given, or over the input
/// where none is named. For each source it writes the text of the command to `out`, or the line of a refusal to `errs`;
/// nothing of a source is written before its whole text is there. Under `--check` it writes a line for a source that is not
/// its own text, and under `--write` it replaces such a source by its text. A source that is refused or that differs ends
/// nothing: the next is handled. The status is that of the first source that is not `Done`. A file of options is read before
/// any source, and where it is refused its line is all that is written.
///
/// A fault of `input` or of a fetch gives `ReadFault`, one of `out`, `errs` or a replacement gives `WriteFault`, and want of
/// memory gives `NoMemory`. Each ends the run at once, and writes no line: what the sources before came to stays, and
/// `WriteFault` may leave a part of a text or of a line behind it.
pub fn run<F: Files, I: Source, O: Sink, E: Sink>(
    alloc: Global,
    words: &[String],
    files: &mut F,
    input: &mut I,
    out: &mut O,
    errs: &mut E,
) -> Status
    // A run that nothing cut short has written its whole outcome.
    ensures outcome { RanThrough result → (w : Outcome)
        × IsOutcome (map string_bytes words.now) (I.left input.old) (F.told files.old) w
        × (result ≡ w.status)
        × Appends (O.written out.old) w.out (O.written out.new)
        × Appends (E.written errs.old) w.errs (E.written errs.new)
        × (F.told files.new ≡ w.files) }

    // What `minify` writes is the same program.
    ensures text { result ≡ Status.Done → (plan : Planned) → Mean (map string_bytes words.now) plan → plan.command ≡ command.Minify
        → (source : Origin) × (contents : List ℕ) × (text : List ℕ)
        × (origins plan.files ≡ source ∷ [])
        × Holds (I.left input.old) (F.told files.old) source contents
        × KeepsProgram contents text
        × Appends (O.written out.old) text (O.written out.new) }

    // What `format` writes is the same program, under the options that the words name; and so is whatever a turn of it shows, or
    // puts in the place of its file.
    ensures formatted { result ≡ Status.Done → (plan : Planned) → Mean (map string_bytes words.now) plan → plan.command ≡ command.Format → plan.manner ≡ manner.Show
        → (o : Options) × (source : Origin) × (contents : List ℕ) × (text : List ℕ)
        × AreOptionsOf plan.config (F.told files.old) o
        × (origins plan.files ≡ source ∷ [])
        × Holds (I.left input.old) (F.told files.old) source contents
        × KeepsSource o contents text
        × Appends (O.written out.old) text (O.written out.new) }
    ensures kept { (o : Options) (m : Manner) (name contents : List ℕ) (turn : Turn) → Comes (job.Format o m) name contents turn → Keeps o contents turn }

    // The words alone decide on `Usage`, and on what is read. At `Config` no source is read.
    ensures usage { result ≡ Status.Usage → AreNoCommand (map string_bytes words.now) }
    ensures no_command { AreNoCommand (map string_bytes words.now)
        → (result ≡ Status.Usage) ⊎ (result ≡ Status.WriteFault) ⊎ (result ≡ Status.NoMemory) }
    ensures unread { AreNoCommand (map string_bytes words.now) → (input.new ≡ input.old) × (files.new ≡ files.old) }
    ensures named { (plan : Planned) → Mean (map string_bytes words.now) plan → plan.files ≢ [] → input.new ≡ input.old }
    ensures unnamed { (plan : Planned) → Mean (map string_bytes words.now) plan → plan.files ≡ [] → plan.config ≡ None → files.new ≡ files.old }
    ensures config { result ≡ Status.Config → input.new ≡ input.old }

    // Each fault has its cause, and a count of faults stays at every other answer.
    ensures read_fault { result ≡ Status.ReadFault → CouldNotRead (map string_bytes words.now) (I.left input.old) (F.told files.old)
        (counts (I.faults input.old) (F.fetch_faults files.old) (F.replace_faults files.old) (O.faults out.old) (E.faults errs.old))
        (counts (I.faults input.new) (F.fetch_faults files.new) (F.replace_faults files.new) (O.faults out.new) (E.faults errs.new)) }
    ensures write_fault { result ≡ Status.WriteFault → CouldNotWrite (map string_bytes words.now)
        (counts (I.faults input.old) (F.fetch_faults files.old) (F.replace_faults files.old) (O.faults out.old) (E.faults errs.old))
        (counts (I.faults input.new) (F.fetch_faults files.new) (F.replace_faults files.new) (O.faults out.new) (E.faults errs.new)) }
    ensures read_calm { result ≢ Status.ReadFault → ReadsAreCalm
        (counts (I.faults input.old) (F.fetch_faults files.old) (F.replace_faults files.old) (O.faults out.old) (E.faults errs.old))
        (counts (I.faults input.new) (F.fetch_faults files.new) (F.replace_faults files.new) (O.faults out.new) (E.faults errs.new)) }
    ensures write_calm { result ≢ Status.WriteFault → WritesAreCalm
        (counts (I.faults input.old) (F.fetch_faults files.old) (F.replace_faults files.old) (O.faults out.old) (E.faults errs.old))
        (counts (I.faults input.new) (F.fetch_faults files.new) (F.replace_faults files.new) (O.faults out.new) (E.faults errs.new)) }

    // A run that was cut short has written what its first sources come to, and at `WriteFault` a part of it.
    ensures stopped { (result ≡ Status.ReadFault) ⊎ (result ≡ Status.NoMemory) → (w : Outcome)
        × IsBegun (map string_bytes words.now) (I.left input.old) (F.told files.old) w
        × Appends (O.written out.old) w.out (O.written out.new)
        × Appends (E.written errs.old) w.errs (E.written errs.new)
        × (F.told files.new ≡ w.files) }
    ensures part { result ≡ Status.WriteFault → (w : Outcome) × (n : ℕ) × (m : ℕ)
        × IsBegun (map string_bytes words.now) (I.left input.old) (F.told files.old) w
        × Appends (O.written out.old) (take n w.out) (O.written out.new)
        × Appends (E.written errs.old) (take m w.errs) (E.written errs.new)
        × (F.told files.new ≡ w.files) }

    // Where all is told and no count rises, the status is that of every outcome, but for want of memory: each command is done
    // on sources that it accepts, and a file that is missing is a `ReadFault`.
    ensures complete { (w : Outcome) → IsOutcome (map string_bytes words.now) (I.left input.old) (F.told files.old) w → AreTold (map string_bytes words.now) (I.left input.old) (F.told files.old)
        → NoneRose
        (counts (I.faults input.old) (F.fetch_faults files.old) (F.replace_faults files.old) (O.faults out.old) (E.faults errs.old))
        (counts (I.faults input.new) (F.fetch_faults files.new) (F.replace_faults files.new) (O.faults out.new) (E.faults errs.new))
        → (result ≡ w.status) ⊎ (result ≡ Status.NoMemory) }
    ensures missing { IsMissingAtTurn (map string_bytes words.now) (I.left input.old) (F.told files.old)
        → NoneRose
        (counts (I.faults input.old) (F.fetch_faults files.old) (F.replace_faults files.old) (O.faults out.old) (E.faults errs.old))
        (counts (I.faults input.new) (F.fetch_faults files.new) (F.replace_faults files.new) (O.faults out.new) (E.faults errs.new))
        → (result ≡ Status.ReadFault) ⊎ (result ≡ Status.NoMemory) }
{
    match plan_of(alloc, words) {
        Ok(plan) => run_plan(alloc, &plan, files, input, out, errs),
        Err(NoPlan::Usage) => match write_all(errs, b"luafmt: Usage\n") {
            Ok(()) => Status::Usage,
            Err(WriteErr::Fault) => Status::WriteFault,
        },
        Err(NoPlan::NoMemory) => Status::NoMemory,
    }
}

// Runs a plan: first its file of options, if it names one, and then its sources.
fn run_plan<F: Files, I: Source, O: Sink, E: Sink>(
    alloc: Global,
    plan: &Plan,
    files: &mut F,
    input: &mut I,
    out: &mut O,
    errs: &mut E,
) -> Status
    ensures ended { RunEnded (planned plan.now.command plan.now.manner plan.now.config plan.now.files.items) (I.left input.old)
        (world (F.told files.old) (O.written out.old) (E.written errs.old) (counts (I.faults input.old) (F.fetch_faults files.old) (F.replace_faults files.old) (O.faults out.old) (E.faults errs.old)))
        (world (F.told files.new) (O.written out.new) (E.written errs.new) (counts (I.faults input.new) (F.fetch_faults files.new) (F.replace_faults files.new) (O.faults out.new) (E.faults errs.new)))
        result }
    ensures named { map (λ s. s.now) plan.now.files.items ≢ [] → input.new ≡ input.old }
    ensures unnamed { map (λ s. s.now) plan.now.files.items ≡ [] → plan.now.config ≡ None → files.new ≡ files.old }
    ensures config { result ≡ Status.Config → input.new ≡ input.old }
{
    match job_of(alloc, plan, files) {
        Ok(job) => take_turns(alloc, plan, job, files, input, out, errs),
        Err(NoJob::Refused(line)) => match write_all(errs, &line) {
            Ok(()) => Status::Config,
            Err(WriteErr::Fault) => Status::WriteFault,
        },
        Err(NoJob::Fault) => Status::ReadFault,
        Err(NoJob::NoMemory) => Status::NoMemory,
    }
}
