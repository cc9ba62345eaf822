//! A session over a disk in a storage.

ghost use Rattle.std.specs.Prelude.{◌≡◌, ◌≢◌, ◌≤◌, ◌<◌, ◌⊎◌, ◌||◌, ℕ, ◌*◌, ◌^◌, List, [], length, map};
ghost use Rattle.std.specs.Prelude.{IfErr, IfOk, IsFalse, IsTrue, Ok, OnOk, None};
ghost use Rattle.std.specs.Result.{result_err};
ghost use Rattle.io_manager.specs.declared.Refusal.TheVariants.{InvalidParameter};
ghost use Rattle.io_manager.specs.declared.Reply.TheVariants.{Handle as HandleReply, Refused};
ghost use Rattle.mbr.specs.Faults.{told_by};
ghost use Rattle.settings.specs.InRange.{AreInRange};
ghost use Rattle.settings.specs.Medium.{extent_of, extents_of, table_sector};
ghost use Rattle.volume.specs.Opening.{IsOn};
ghost use Rattle.volume.specs.Shown.{extent_at};
ghost use Rattle.file_disk.specs.Calls.{ReadsAll, Since};
ghost use Rattle.file_disk.specs.Transfers.{DiskView, SyncsAfter};
ghost use Rattle.machine_laws.specs.Reached.{OpeningsAreReached};
ghost use Rattle.machine_laws.specs.WriteLaws.{RunsKeepLengths};
ghost use Rattle.serving.specs.Keeping.{AnsweredIsKept, AreCommandsByHand, AnsweredIsKeptMeanwhile, FlushedIsKept, FlushedIsKeptMeanwhile};
ghost use Rattle.serving.specs.Keeping.{SecuredIsKept, SecuredIsKeptMeanwhile, StaysOverSessions, UntouchedIsKept, UntouchedIsKeptMeanwhile};
ghost use Rattle.serving.specs.Carried.{StandsIn, TellsOn};
ghost use Rattle.serving.specs.Lasting.{ServedAreSessions, ServedMomentsAreSessions};
ghost use Rattle.serving.specs.OnDisk.{Differs, DiffersFrom, HasNoFaults, IsFileSession, IsOpenFault, IsOpenedFor, IsPutFault};
ghost use Rattle.serving.specs.OnDisk.{IsNotStarted, IsStartedOver, IsTableFault, StopsPutting};
ghost use Rattle.serving.specs.Series.{ServedSeriesAreSessions};
ghost use Rattle.serving.specs.Tracing.{TracedAreSessions, TracedMomentsAreSessions, TracesTellSessions};
ghost use Rattle.serving.specs.Traces.{Wrote, shown_to};
ghost use Rattle.serving.specs.declared.faults.Error.TheVariants.{NoMemory, NoPartition};

use crate::faults::{Difference, DiskFault, Error};
use crate::filed::Filed;
use crate::moving::laws_of_entries;
use crate::pens::Pen;
use crate::serving::outcome;
use compose::{Event, Handle, Refusal, Reply, Settings, Stack};
use file_disk::{Failure, FileDisk, Sizes as FileSizes, Storage, read_all, write_all};
use mbr::parse;
use miniport::BookedAdapter;
use nbd::{Ahead, Sizes, serve_over};
use sector::Extent;
use settings::{Config, Partition, table_sector};
use std::alloc::Global;
use std::io::Write;

/// Returns how many bytes the disk of some settings has.
pub fn disk_bytes(config: &Config) -> u64
    requires { AreInRange config.now }
    ensures { result ≡ config.now.sectors * config.now.sector_size }
{
    config.sectors * config.sector_size as u64
}

/// Returns the settings, with write protection where the disk's file can only be read.
pub fn read_only(config: Config, only: bool) -> Config
    requires { AreInRange config }
    ensures in_range { AreInRange result }
    ensures protected { result ≡ record config { write_protected = config.write_protected || only } }
{
    Config {
        write_protected: config.write_protected || only,
        ..config
    }
}

/// Puts the partition table of the settings into sector 0 of a storage, and syncs it.
///
/// # Errors
///
/// [`Error::NoMemory`], before any call; [`DiskFault::NotCreated`] where a call failed, the last that was made.
pub fn put_table<S: Storage>(alloc: Global, storage: &mut S, config: &Config) -> Result<(), Error>
    requires { AreInRange config.now }
    ensures synced { IfOk result (λ _. Since (S.calls storage.old) (S.calls storage.new) (SyncsAfter 0 (table_sector config.now) None)) }
    ensures fault { IfErr result (λ fault. IsPutFault config.now (S.calls storage.old) fault (S.calls storage.new)) }
{
    let sector = table_sector(alloc, config)?;
    match put(storage, sector.as_slice()) {
        Ok(()) => Ok(()),
        Err(_) => Err(Error::Disk(DiskFault::NotCreated)),
    }
}

/// Writes these bytes at the start of a storage, and syncs it.
///
/// # Errors
///
/// The failure of the call that failed.
fn put<S: Storage>(storage: &mut S, bytes: &[u8]) -> Result<(), Failure>
    requires { length bytes.now < 2 ^ 64 }
    ensures synced { OnOk result (Since (S.calls storage.old) (S.calls storage.new) (SyncsAfter 0 bytes.now None)) }
    ensures fault { IfErr result (λ why. Since (S.calls storage.old) (S.calls storage.new) (StopsPutting bytes.now why)) }
{
    write_all(storage, 0, bytes)?;
    storage.sync()
}

/// Returns sector 0 of a storage, whose partitions are those of the settings.
///
/// # Errors
///
/// [`DiskFault::Unreadable`] where a call failed; [`DiskFault::OtherTable`] where it gives other partitions, or none;
/// [`Error::NoMemory`].
fn checked_table<S: Storage>(
    alloc: Global,
    storage: &mut S,
    config: &Config,
) -> Result<Vec<u8>, Error>
    requires { AreInRange config.now }
    ensures long { IfOk result (λ sector. length sector.items ≡ config.now.sector_size) }
    ensures reads { IfOk result (λ sector. Since (S.calls storage.old) (S.calls storage.new) (ReadsAll 0 sector.items)) }
    ensures told { IfOk result (λ sector. told_by config.now.sectors sector.items ≡ Ok (extents_of config.now)) }
    ensures fault { IfErr result (λ fault. IsTableFault config.now (S.calls storage.old) fault (S.calls storage.new)) }
{
    let sector = first_sector(alloc, storage, config)?;
    match compare_table(sector.as_slice(), config) {
        Ok(()) => Ok(sector),
        Err(difference) => Err(Error::Disk(DiskFault::OtherTable(difference))),
    }
}

/// Returns sector 0 of a storage.
///
/// # Errors
///
/// [`DiskFault::Unreadable`] where a call failed; [`Error::NoMemory`].
fn first_sector<S: Storage>(
    alloc: Global,
    storage: &mut S,
    config: &Config,
) -> Result<Vec<u8>, Error>
    requires { AreInRange config.now }
    ensures long { IfOk result (λ sector. length sector.items ≡ config.now.sector_size) }
    ensures reads { IfOk result (λ sector. Since (S.calls storage.old) (S.calls storage.new) (ReadsAll 0 sector.items)) }
    ensures fault { IfErr result (λ fault. IsTableFault config.now (S.calls storage.old) fault (S.calls storage.new)) }
{
    let mut sector = vec![in alloc; 0; config.sector_size as usize]?;
    match read_all(storage, 0, sector.as_mut_slice()) {
        Ok(()) => Ok(sector),
        Err(_) => Err(Error::Disk(DiskFault::Unreadable)),
    }
}

/// Compares what the bytes of sector 0 tell with the partitions of the settings.
///
/// # Errors
///
/// How they differ.
fn compare_table(sector: &[u8], config: &Config) -> Result<(), Difference>
    ensures same { OnOk result (told_by config.now.sectors sector.now ≡ Ok (extents_of config.now)) }
    ensures other { IfErr result (λ _. told_by config.now.sectors sector.now ≢ Ok (extents_of config.now)) }
    ensures differs { IfErr result (Differs (told_by config.now.sectors sector.now) config.now.partitions.items) }
{
    let partitions = config.partitions.as_slice();
    match parse(sector, config.sectors) {
        Ok(found) => compare(found.as_slice(), partitions),
        Err(fault) => Err(Difference::BadTable(fault)),
    }
}

/// Compares extents with the partitions' own, in order.
///
/// # Errors
///
/// How they differ.
fn compare(extents: &[Extent], partitions: &[Partition]) -> Result<(), Difference>
    ensures same { OnOk result (extents.now ≡ map extent_of partitions.now) }
    ensures other { IfErr result (λ _. extents.now ≢ map extent_of partitions.now) }
    ensures differs { IfErr result (DiffersFrom extents.now partitions.now) }
{
    if extents.len() != partitions.len() {
        return Err(Difference::Count {
            found: extents.len() as u64,
            wanted: partitions.len() as u64,
        });
    }
    let mut index = 0;
    while index < partitions.len() {
        let found = extents[index];
        let wanted = extent_of(partitions[index]);
        if !are_same(found, wanted) {
            return Err(Difference::Partition {
                number: index as u64,
                found,
                wanted,
            });
        }
        index += 1;
    }
    Ok(())
}

/// Returns the sectors of a partition.
fn extent_of(partition: Partition) -> Extent
    ensures { result ≡ extent_of partition }
{
    Extent {
        first: partition.first as u64,
        count: partition.count as u64,
    }
}

/// Returns whether two extents are the same.
fn are_same(one: Extent, other: Extent) -> bool
    ensures same { IsTrue result → one ≡ other }
    ensures other { IsFalse result → one ≢ other }
{
    one.first == other.first && one.count == other.count
}

/// Opens a partition, counted from 0, of the disk of the settings in a storage that has as many bytes.
///
/// # Errors
///
/// The first of these that fits. [`DiskFault::HasFaults`] where the settings have bad sectors or rules of `fault`, since
/// a storage has its own faults; [`Error::NoPartition`] where they have no such partition. Both come before any call.
/// [`DiskFault::Unreadable`] where a call failed as sector 0 was read; [`DiskFault::OtherTable`] where it gives other
/// partitions than the settings, or none; [`Error::Startup`] where no stack could be started.
/// [`Error::NoMemory`] may stand in place of any but the first two.
pub fn open_file<S: Storage + Drop, P: Pen + Drop>(
    alloc: Global,
    config: Config,
    partition: u8,
    storage: S,
    pen: P,
) -> Result<Filed<S, P>, Error>
    requires { AreInRange config }
    ensures opened { IfOk result (IsOpenedFor P.keeps config partition (S.calls storage)) }
    ensures untold { IfOk result (λ filed. IsTrue P.keeps → Wrote (P.trace pen) [] filed.carried.trace) }
    ensures fault { IfErr result (λ fault. (spent : S) × IsOpenFault config partition (S.calls storage) fault (S.calls spent)) }
{
    if has_faults(&config) {
        return Err(Error::Disk(DiskFault::HasFaults));
    }
    let (mut storage, mut pen) = (storage, pen);
    let sizes = sizes_of(&config, partition)?;
    let first = checked_table(alloc, &mut storage, &config)?;
    let mut stack = started(alloc, &config, first, &pen)?;
    laws_of_arrays();
    stack.shows_whole();
    let handle = opened(&mut stack, &mut pen, alloc, partition)?;
    let disk = FileDisk::new(
        alloc,
        storage,
        FileSizes {
            sector_size: config.sector_size,
            sectors: config.sectors,
            write_protected: config.write_protected,
        },
    );
    Ok(Filed {
        stack,
        disk,
        pen,
        handle,
        sizes,
        open_requests: config.open_requests,
        kept: Vec::new(alloc),
    })
}

/// Returns whether the settings have bad sectors, or rules.
fn has_faults(config: &Config) -> bool
    ensures some { IsTrue result → ¬ HasNoFaults config.now }
    ensures none { IsFalse result → HasNoFaults config.now }
{
    let bad = config.bad_sectors.as_slice();
    let rules = config.faults.as_slice();
    !(bad.is_empty() && rules.is_empty())
}

/// Returns the bytes of a sector and of a partition, and whether it can be written.
///
/// # Errors
///
/// [`Error::NoPartition`].
fn sizes_of(config: &Config, partition: u8) -> Result<Sizes, Error>
    requires { AreInRange config.now }
    ensures block { IfOk result (λ sizes. sizes.block ≡ config.now.sector_size) }
    ensures bytes { IfOk result (λ sizes. sizes.bytes ≡ (extent_at (extents_of config.now) partition).count * config.now.sector_size) }
    ensures few { IfOk result (λ sizes. sizes.bytes ≤ 2 ^ 63) }
    ensures read_only { IfOk result (λ sizes. sizes.read_only ≡ config.now.write_protected) }
    ensures known { IfOk result (λ _. partition < length (extents_of config.now)) }
    ensures fault { IfErr result (λ fault. (fault ≡ NoPartition) × (length (extents_of config.now) ≤ partition)) }
{
    match config.partitions.as_slice().get(partition as usize) {
        Some(shown) => Ok(Sizes {
            block: config.sector_size,
            bytes: shown.count as u64 * config.sector_size as u64,
            read_only: config.write_protected,
        }),
        None => Err(Error::NoPartition),
    }
}

/// Returns a stack over an adapter of the settings that holds no sectors but the first, and keeps the bytes of labels
/// where the pen wants them.
///
/// # Errors
///
/// Why the stack could not be started.
fn started<P: Pen>(
    alloc: Global,
    config: &Config,
    first: Vec<u8>,
    pen: &P,
) -> Result<Stack<BookedAdapter>, Error>
    requires range { AreInRange config.now }
    requires long { length first.items ≡ config.now.sector_size }
    ensures started { IfOk result (IsStartedOver P.keeps config.now first.items) }
    ensures fault { IfErr result (IsNotStarted config.now first.items) }
{
    let adapter = BookedAdapter::new(
        alloc,
        first,
        config.sectors,
        config.max_transfer,
        config.depth,
    );
    let Ok(adapter) = adapter else {
        return Err(Error::NoMemory);
    };
    let settings = Settings {
        window: config.window,
        open_requests: config.open_requests,
    };
    match Stack::start(alloc, pen.adapter(adapter), settings) {
        Ok(stack) => Ok(stack),
        Err(why) => Err(Error::Startup(startup::Error::Start(why.fault))),
    }
}

/// Returns a handle on a partition.
///
/// # Errors
///
/// [`Error::NoPartition`], [`Error::NoMemory`].
fn opened<P: Pen>(
    stack: &mut Stack<BookedAdapter>,
    pen: &mut P,
    alloc: Global,
    partition: u8,
) -> Result<Handle, Error>
    requires taken { stack.old.labels ≡ [] }
    ensures taken { stack.new.labels ≡ [] }
    ensures rules { stack.new.rules ≡ stack.old.rules }
    ensures stands { (disk : DiskView) → StandsIn (shown_to P.keeps stack.old) disk → StandsIn (shown_to P.keeps stack.new) disk }
    ensures told { TellsOn (shown_to P.keeps stack.old) [] [] (shown_to P.keeps stack.new) }
    ensures wrote { IsTrue stack.old.rules.keeps_bytes → Wrote (P.trace pen.old) [] (P.trace pen.new) }
    ensures same_paused { stack.new.state.paused ≡ stack.old.state.paused }
    ensures on { IfOk result (λ handle. IsOn (shown_to P.keeps stack.new) handle partition) }
    ensures fault { IfErr result (λ fault. (fault ≡ NoMemory) ⊎ ((fault ≡ NoPartition) × (length stack.old.rules.partitions ≤ partition))) }
{
    laws_of_entries();
    let reply = pen.step(stack, alloc, Event::Open { partition });
    handle_in(reply)
}

/// Returns the handle in the reply to an open.
///
/// # Errors
///
/// [`Error::NoPartition`], [`Error::NoMemory`].
fn handle_in(reply: Reply) -> Result<Handle, Error>
    ensures handle { IfOk result (λ handle. reply ≡ HandleReply handle) }
    ensures fault { IfErr result (λ fault. (fault ≡ NoMemory) ⊎ ((fault ≡ NoPartition) × ((bytes : List ℕ) × (reply ≡ Refused InvalidParameter bytes)))) }
{
    match reply {
        Reply::Handle(handle) => Ok(handle),
        Reply::Refused {
            refusal: Refusal::InvalidParameter,
            ..
        } => Err(Error::NoPartition),
        // A new stack has handles and numbers enough.
        _ => Err(Error::NoMemory),
    }
}

/// Says that arrays which are whole at first stay so. It does nothing; its contract is for callers.
fn laws_of_arrays()
    ensures keeps { RunsKeepLengths }
    ensures opens { OpeningsAreReached }
{
    machine_laws::keeps_lengths();
    machine_laws::goes_on();
}

/// Says what a session over a file leaves there: behind a loss of power, what the machine's loss leaves behind what was
/// told; also at any moment of it. It does nothing; its contract is for callers.
pub fn served_are_sessions()
    ensures sessions { ServedAreSessions }
    ensures moments { ServedMomentsAreSessions }
{
    file_sessions::runs_are_sessions();
}

/// Says what a client keeps, by what it was told: a write that was told as done is in the file behind a loss of power
/// once a flush that came behind it was told as done, and at once where it went past volatile caches; until its sector is
/// written again. A sector that no request writes is as it was. The end of the process alone loses nothing that was told
/// as done, where no sync failed since or was under way. So it is after a session, and at any moment of it. Of zeros that
/// a client had written (NBD_CMD_WRITE_ZEROES) it says nothing. It does nothing; its contract is for callers.
pub fn done_is_kept()
    ensures flushed { FlushedIsKept }
    ensures secured { SecuredIsKept }
    ensures untouched { UntouchedIsKept }
    ensures answered { AnsweredIsKept }
    ensures flushed_meanwhile { FlushedIsKeptMeanwhile }
    ensures secured_meanwhile { SecuredIsKeptMeanwhile }
    ensures untouched_meanwhile { UntouchedIsKeptMeanwhile }
    ensures answered_meanwhile { AnsweredIsKeptMeanwhile }
    ensures over_sessions { StaysOverSessions }
{
    served_are_sessions();
    file_sessions::answers_survive();
    file_sessions::runs_are_sessions();
}

/// Which sectors commands write, and which of them sync, worked out by hand.
pub fn commands_by_hand()
    ensures { AreCommandsByHand }
{}

/// Says what a session over a file leaves whose trace is written: the trace has the lines of the labels that were told in
/// it, in order, if all was written; the file has what one without a trace leaves there. It does nothing; its contract is
/// for callers.
pub fn traces_tell_sessions()
    ensures traces { TracesTellSessions }
    ensures sessions { TracedAreSessions }
    ensures moments { TracedMomentsAreSessions }
{
    file_sessions::runs_are_sessions();
}

/// Says that sessions over a file, each over what the last one left there behind a loss of power or the end of the process,
/// also such as were cut off at a moment, are one trace: what was told in each, and a line for how it ended. It does
/// nothing; its contract is for callers.
pub fn served_series_are_sessions()
    ensures { ServedSeriesAreSessions }
{
    served_are_sessions();
    traces_tell_sessions();
    file_sessions::any_arrays_do();
    file_sessions::series_are_sessions();
}

/// Serves a client over a partition of a disk in a file.
///
/// # Errors
///
/// How the session ended, where the client did not leave by the protocol.
pub fn serve_file<S: Storage + Drop, P: Pen + Drop, R: Ahead, W: Write>(
    alloc: Global,
    filed: &mut Filed<S, P>,
    input: &mut R,
    out: &mut W,
) -> Result<(), Error>
    ensures { IsFileSession filed.old (R.remaining input.old) (W.contents out.old) (result_err result) filed.new (W.contents out.new) }
{
    outcome(serve_over(alloc, filed, input, out))
}
