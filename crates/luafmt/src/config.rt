//! What a plan does with its sources, under the options that its words name.
ghost use Rattle.std.specs.Prelude.{◌≡◌, Some, None, option_map, IfOk, IfErr, OnOk};
ghost use Rattle.luf_conf.specs.Answers.{TellsOptions};
ghost use Rattle.luf_conf.specs.Settings.{AreInRange};
ghost use Rattle.luf_plan.specs.Plan.{planned};
ghost use Rattle.luafmt.specs.Config.{AreOptionsOf, IsJob};
ghost use Rattle.luafmt.specs.inner.InRange.{IsInRange};
ghost use Rattle.luafmt.specs.inner.NoJob.{IsNoJob, IsToldWhy};

use crate::job::Job;
use crate::line::{config_line, large_line};
use luf_conf::{Options, options};
use luf_io::{FileFault, Files};
use luf_memory::Memory;
use luf_plan::{Command, Plan};
use std::alloc::Global;

// The most bytes of a file of options.
const OPTIONS_LIMIT: usize = 65_536;

// Why a plan has no job.
#[derive(Drop)]
pub(crate) enum NoJob {
    // Its file of options is refused, as this line tells.
    Refused(Vec<u8>),
    // Its file of options could not be read.
    Fault,
    NoMemory,
}

impl From<Memory> for NoJob {
    ghost use Rattle.std.specs.Prelude.{◌≡◌};
    ghost use Rattle.luafmt.specs.declared.config.NoJob.TheVariants.{NoMemory};

    ghost from_gives = { λ _ e. e ≡ NoMemory };

    fn from(_: Memory) -> NoJob {
        NoJob::NoMemory
    }
}

// The job of a plan. Where it names a file of options, that is fetched.
pub(crate) fn job_of<F: Files>(alloc: Global, plan: &Plan, files: &mut F) -> Result<Job, NoJob>
    ensures job { IfOk result (IsJob (planned plan.now.command plan.now.manner plan.now.config plan.now.files.items) (F.told files.old)) }
    ensures range { IfOk result IsInRange }
    ensures none { IfErr result (IsNoJob (F.told files.old) (option_map (λ s. s.now) plan.now.config) (F.fetch_faults files.old) (F.fetch_faults files.new)) }
    ensures calm { OnOk result (F.fetch_faults files.new ≡ F.fetch_faults files.old) }
    ensures kept { (F.told files.new ≡ F.told files.old) × (F.replace_faults files.new ≡ F.replace_faults files.old) }
    ensures unnamed { plan.now.config ≡ None → files.new ≡ files.old }
{
    match plan.command {
        Command::Format => match options_of(alloc, plan.config, files) {
            Ok(options) => Ok(Job::Format(options, plan.manner)),
            Err(e) => Err(e),
        },
        Command::Minify => Ok(Job::Minify),
        Command::Check => Ok(Job::Check),
        Command::List => Ok(Job::List),
    }
}

// The options of a file of this name, or the usual ones.
fn options_of<F: Files>(
    alloc: Global,
    config: Option<&str>,
    files: &mut F,
) -> Result<Options, NoJob>
    ensures ok { IfOk result (AreOptionsOf (option_map (λ s. s.now) config.entry) (F.told files.old)) }
    ensures range { IfOk result AreInRange }
    ensures none { IfErr result (IsNoJob (F.told files.old) (option_map (λ s. s.now) config.entry) (F.fetch_faults files.old) (F.fetch_faults files.new)) }
    ensures calm { OnOk result (F.fetch_faults files.new ≡ F.fetch_faults files.old) }
    ensures kept { (F.told files.new ≡ F.told files.old) × (F.replace_faults files.new ≡ F.replace_faults files.old) }
    ensures unnamed { config.entry ≡ None → files.new ≡ files.old }
{
    match config {
        Some(name) => fetched(alloc, name, files),
        None => Ok(Options::usual()),
    }
}

// The options of a file of this name.
fn fetched<F: Files>(alloc: Global, name: &str, files: &mut F) -> Result<Options, NoJob>
    ensures ok { IfOk result (AreOptionsOf (Some name.now) (F.told files.old)) }
    ensures none { IfErr result (IsNoJob (F.told files.old) (Some name.now) (F.fetch_faults files.old) (F.fetch_faults files.new)) }
    ensures calm { OnOk result (F.fetch_faults files.new ≡ F.fetch_faults files.old) }
    ensures kept { (F.told files.new ≡ F.told files.old) × (F.replace_faults files.new ≡ F.replace_faults files.old) }
{
    let mut text = Vec::new(alloc);
    match files.fetch(alloc, name, OPTIONS_LIMIT, &mut text) {
        Ok(true) => told(alloc, name, &text),
        Ok(false) => Err(NoJob::Refused(large_line(alloc, name)?)),
        Err(FileFault::Failed) => Err(NoJob::Fault),
        Err(FileFault::Memory) => Err(NoJob::NoMemory),
    }
}

// The options that the text of a file of options tells, or the line of its refusal.
fn told(alloc: Global, name: &str, text: &[u8]) -> Result<Options, NoJob>
    ensures ok { IfOk result (TellsOptions text.now) }
    ensures none { IfErr result (IsToldWhy name.now text.now) }
{
    match options(alloc, text) {
        Ok(options) => Ok(options),
        Err(e) => Err(NoJob::Refused(config_line(alloc, name, &e)?)),
    }
}
