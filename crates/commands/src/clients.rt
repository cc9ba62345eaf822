//! Clients over the stack of some settings, in threads of their own, and what comes of them in print.

ghost use Rattle.std.specs.Prelude.{◌≡◌, ◌≤◌, ◌++◌, ◌∷◌, ◌↔◌, [], OnOk, IfErr, IfOk, IsTrue, false, true};
ghost use Rattle.std.specs.Io.KnownBytes.{Appends};
ghost use Rattle.disk.specs.SparseDisk.{shown};
ghost use Rattle.traced.specs.Entries.{labels_of};
ghost use Rattle.traced.specs.Sizes.{AreSizes, sizes_of};
ghost use Rattle.host.specs.Closing.{act_count, is_act};
ghost use Rattle.settings.specs.InRange.{AreInRange};
ghost use Rattle.rounds.specs.Tallies.{IsTallied};
ghost use Rattle.commands.specs.Clients.{HasRoom, IsClientsFault, IsOutputFault, IsRunOver, IsUntold, PrintsTally, is_whole, tally_line, verdict_on};
ghost use Rattle.settings.specs.declared.ConfigFault.TheVariants.{OutOfRange};
ghost use Rattle.commands.specs.declared.faults.Error.TheVariants.{Startup};
ghost use Rattle.startup.specs.declared.faults.Error.TheVariants.{Settings};
ghost use Rattle.startup.specs.Started.{rules_over};

use crate::faults::Error;
use compose::{LAST_BUSY_RETURN, LONGEST_REQUEST};
use disk::SparseDisk;
use machine::Label;
use rounds::{Disk, Done, Plan, RoundsFault, Tally, run};
use script::ScriptFault;
use settings::{Config, ConfigFault};
use srb::DeviceLabel;
use startup::{Verdict, fault_of, read_settings, start_apart};
use std::alloc::Global;
use std::io;
use std::io::{Read, Write};
use std::sync::Wait;
use std::thread::Threads;
use traced::{StackSizes, TraceEntry};

/// What clients are asked to do: so many threads, from 1 to 32, make so many rounds each.
#[derive(Clone, Copy)]
pub struct Load {
    pub threads: u16,
    pub rounds: u16,
}

/// What came of the clients.
#[derive(Drop)]
pub struct Outcome {
    /// Passed where each call succeeded, each read gave what was written, and the trace has as many acts as there are
    /// entries.
    pub verdict: Verdict,
    /// What is left of the rounds.
    pub done: Done<SparseDisk>,
}

/// Runs clients on partition 0 of a stack over a disk in memory, as many as are asked for, each for the rounds that are
/// asked for. Writes what came of them: how many calls succeeded, and how many reads gave other bytes than were
/// written. Returns what is left of the run, with the verdict on it.
///
/// # Errors
///
/// The first of these that fits: the settings can't be read, or are refused; no stack of the settings could be started;
/// there is no partition, or more clients than sectors of partition 0 or than requests may be open; `out` failed.
/// Where memory was refused or a thread could not be started, a step's error for want of memory stands in place of any
/// of them.
pub fn clients<C: Read + Drop, O: Write, R: Threads + Wait + Sync>(
    rt: &R,
    alloc: Global,
    config: C,
    load: Load,
    out: &mut O,
) -> Result<Outcome, Error>
    requires { (1 ≤ load.threads) × (load.threads ≤ 32) }
    ensures printed { IfOk result (λ o. PrintsTally load.threads load.rounds o.done.tally (O.contents out.old) (O.contents out.new)) }
    ensures verdict { IfOk result (λ o. o.verdict ≡ verdict_on load.threads load.rounds o.done.tally (is_whole (labels_of o.done.trace.items) o.done.entries.items)) }
    ensures tallied { IfOk result (λ o. IsTallied load.threads load.rounds o.done.trace.items o.done.tally) }
    ensures run { IfOk result (λ o. IsRunOver (C.remaining config) (labels_of o.done.trace.items) o.done.entries.items (shown o.done.medium).sectors) }
    ensures fault { IfErr result (IsClientsFault (C.remaining config) load.threads) }
    ensures untold { IfErr result (IsUntold (O.contents out.old) (O.contents out.new)) }
{
    let Load { threads, rounds } = load;
    let config = read_settings(alloc, config)?;
    let has_room = has_room(&config, threads);
    let sizes = sizes_for(&config);
    let slots = config.open_requests as usize;
    let plan = Plan {
        clients: threads,
        rounds,
        depth: config.depth,
        write_protected: config.write_protected,
    };
    let (stack, disk) = start_apart(alloc, config)?;
    if !has_room {
        return Err(out_of_range());
    }
    let over = Disk {
        stack,
        medium: disk,
        sizes,
        slots,
    };
    let done = match run(rt, alloc, over, plan) {
        Ok(done) => done,
        Err(RoundsFault::NoMemory) => return Err(Error::NoMemory),
        Err(RoundsFault::NoPartition) => return Err(out_of_range()),
    };
    let verdict = verdict(threads, rounds, &done);
    match write_tally(out, threads, rounds, &done.tally) {
        Ok(()) => Ok(Outcome { verdict, done }),
        Err(error) => Err(output_fault(&error)),
    }
}

/// Returns the fault of settings that have no room for the clients.
fn out_of_range() -> Error
    ensures { result ≡ Startup (Settings OutOfRange) }
{
    Error::Startup(startup::Error::Settings(ConfigFault::OutOfRange))
}

/// Returns the fault of a line that could not be written.
fn output_fault(error: &io::Error) -> Error
    ensures { IsOutputFault result }
{
    fault_of(error, Error::Script(ScriptFault::OutputFailed))
}

/// Whether each client has a sector of partition 0 and may have a request open.
fn has_room(config: &Config, threads: u16) -> bool
    ensures { IsTrue result ↔ HasRoom config.now threads }
{
    match config.partitions.first() {
        Some(partition) => {
            u32::from(threads) <= partition.count && u32::from(threads) <= config.open_requests
        }
        None => false,
    }
}

/// The sizes of the stack of some settings.
fn sizes_for(config: &Config) -> StackSizes
    requires { AreInRange config.now }
    ensures rules { result ≡ sizes_of (rules_over false true config.now) }
    ensures sizes { AreSizes result }
{
    StackSizes {
        sector_size: config.sector_size,
        sectors: config.sectors,
        longest: LONGEST_REQUEST,
        max_transfer: config.max_transfer,
        busy_limit: LAST_BUSY_RETURN,
    }
}

fn write_tally<W: Write>(out: &mut W, threads: u16, rounds: u16, tally: &Tally) -> io::Result<()>
    ensures { OnOk result (Appends (W.contents out.old) (W.contents out.new) (tally_line threads rounds tally.now)) }
{
    let Tally {
        answered,
        differing,
    } = *tally;
    writeln!(
        out,
        "threads {threads} rounds {rounds} answered {answered} differing {differing}"
    )?;
    out.flush()
}

/// Whether the entry of a trace is an act.
fn is_of_act(entry: &TraceEntry) -> bool
    ensures { result ≡ is_act entry.now.label }
{
    matches!(entry.label, Label::Device(DeviceLabel::Act { .. }))
}

/// How many acts stand in a trace.
fn acts_in(trace: &[TraceEntry]) -> usize
    ensures { result ≡ act_count (labels_of trace.now) }
{
    trace.iter().filter(|entry| is_of_act(entry)).count()
}

/// Whether each call succeeded, each read gave what was written, and the trace has an act for each entry.
fn verdict(threads: u16, rounds: u16, done: &Done<SparseDisk>) -> Verdict
    ensures { result ≡ verdict_on threads rounds done.now.tally (is_whole (labels_of done.now.trace.items) done.now.entries.items) }
{
    let calls = 2 * u64::from(threads) * u64::from(rounds);
    let is_whole = acts_in(done.trace.as_slice()) == done.entries.len();
    if done.tally.differing == 0 && done.tally.answered == calls && is_whole {
        Verdict::Passed
    } else {
        Verdict::Failed
    }
}
