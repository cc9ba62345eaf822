//! The pieces of a stack, moved by the calls of a storage.

ghost use Rattle.std.specs.Prelude.{◌≡◌, ◌⊎◌, ◌≤◌, ◌<◌, ◌*◌, ◌+◌, ◌^◌, false, length, IfOk, IfSome, MatchResult};
ghost use Rattle.adapter.specs.Booking.{Suits};
ghost use Rattle.miniport.specs.Faults.{invalid_request};
ghost use Rattle.file_disk.specs.Asked.{Asks};
ghost use Rattle.file_disk.specs.Calls.{Since};
ghost use Rattle.file_disk.specs.Noting.{full_behind};
ghost use Rattle.file_disk.specs.Transfers.{Carries, IsOfPiece, IsSentOr, LacksMemory, ReadsBytes, Syncs, TellsRoom, Transfers, WritesBytes, entry_moved, full_after, hardware_fault, kind_of, moved_by, read_fault, task_in, write_fault};

use crate::moving::{read_all, write_all};
use crate::record::Record;
use crate::storage::{Failure, Storage};
use cdb::Cdb;
use disk::{Medium, SparseDisk};
use miniport::{MEDIUM_ERROR, check_on, failed_with};
use ntstatus::Sense;
use sector::{Bytes, Extent};
use srb::{Completion, Entry, Kind, Srb};
use std::alloc::Global;
use std::marker::Model;
use std::mem;

/// Sense keys (SPC).
const HARDWARE_ERROR: u8 = 4;

const DATA_PROTECT: u8 = 7;

/// The sizes of a disk.
#[derive(Debug, Clone, Copy, PartialEq, Eq)]
pub struct Sizes {
    /// The bytes of a sector, 512 or 4096.
    pub sector_size: u32,
    /// The number of sectors, from 1 to 2^40.
    pub sectors: u64,
    /// Whether each write fails as WRITE PROTECTED.
    pub write_protected: bool,
}

/// What a command asks of a file.
#[derive(Debug, Clone, Copy, PartialEq, Eq)]
pub enum Task {
    Read,
    /// A write; with `through` it goes past volatile caches.
    Write { through: bool },
    Flush,
}

impl Task {
    fn kind(self) -> Kind
        ensures { result ≡ kind_of self }
    {
        match self {
            Task::Read => Kind::Read,
            Task::Write { .. } => Kind::Write,
            Task::Flush => Kind::Flush,
        }
    }
}

fn extent(first: u64, count: u32) -> Extent
    ensures { result ≡ record { first = first; count = count } }
{
    Extent {
        first,
        count: count as u64,
    }
}

/// Returns what a command asks of a file, and of which sectors. A READ CAPACITY asks nothing of it.
fn task_in(command: Cdb) -> Option<(Task, Extent)>
    ensures { result ≡ task_in command }
{
    match command {
        Cdb::Read10 { lba, count, .. } => Some((Task::Read, extent(lba as u64, count as u32))),
        Cdb::Write10 { lba, count, fua } => Some((
            Task::Write { through: fua },
            extent(lba as u64, count as u32),
        )),
        Cdb::Sync10 { lba, blocks } => Some((Task::Flush, extent(lba as u64, blocks as u32))),
        Cdb::Read16 { lba, count, .. } => Some((Task::Read, extent(lba, count))),
        Cdb::Write16 { lba, count, fua } => {
            Some((Task::Write { through: fua }, extent(lba, count)))
        }
        Cdb::Sync16 { lba, blocks } => Some((Task::Flush, extent(lba, blocks))),
        Cdb::ReadCapacity10 => None,
        Cdb::ReadCapacity16 { .. } => None,
    }
}

/// Returns how a read fails.
fn read_fault() -> Completion
    ensures { result ≡ read_fault }
{
    failed_with(MEDIUM_ERROR, 0x11)
}

/// Returns how a write fails.
fn write_fault(why: Failure) -> Completion
    ensures { result ≡ write_fault why }
{
    match why {
        Failure::Protected => failed_with(DATA_PROTECT, 0x27),
        Failure::Full => space_fault(),
        Failure::Failed => failed_with(MEDIUM_ERROR, 0x0C),
    }
}

/// SPACE ALLOCATION FAILED WRITE PROTECT.
fn space_fault() -> Completion
    ensures { result ≡ write_fault Failure.Full }
{
    let sense = Sense {
        key: DATA_PROTECT,
        asc: 0x27,
        ascq: 0x07,
    };
    Completion {
        sense: Some(sense),
        ..failed_with(DATA_PROTECT, 0x27)
    }
}

/// Returns whether there was no room for the newest of the writes that were refused, behind one that failed in this
/// way.
fn full_behind(full: bool, why: Failure) -> bool
    ensures { result ≡ full_behind full why }
{
    match why {
        Failure::Full => true,
        Failure::Protected => false,
        Failure::Failed => full,
    }
}

/// Returns how a sync fails, and how a piece fails for whose bytes there is no memory.
fn hardware_fault() -> Completion
    ensures { result ≡ hardware_fault }
{
    failed_with(HARDWARE_ERROR, 0x00)
}

/// Returns how an SRB fails that asks nothing of a file.
fn invalid_request() -> Completion
    ensures { result ≡ invalid_request }
{
    Completion {
        srb_status: 0x06,
        scsi_status: 0x00,
        sense: None,
    }
}

/// Syncs the storage.
///
/// # Errors
///
/// A hardware error where the storage failed.
fn flush<S: Storage>(storage: &mut S) -> Result<(), Completion>
    ensures { Since (S.calls storage.old) (S.calls storage.new) (Syncs result) }
{
    match storage.sync() {
        Ok(()) => Ok(()),
        Err(_) => Err(hardware_fault()),
    }
}

/// Writes these bytes, and then syncs with `through`. It notes whether there was room.
///
/// # Errors
///
/// What the call that failed comes to.
fn write<S: Storage>(
    storage: &mut S,
    full: &mut bool,
    offset: u64,
    bytes: &[u8],
    through: bool,
) -> Result<(), Completion>
    requires { offset + length bytes.now < 2 ^ 64 }
    ensures writes { Since (S.calls storage.old) (S.calls storage.new) (WritesBytes through offset bytes.now result) }
    ensures room { Since (S.calls storage.old) (S.calls storage.new) (λ calls. full.new ≡ full_after full.old calls) }
{
    match write_all(storage, offset, bytes) {
        Err(why) => {
            *full = full_behind(*full, why);
            Err(write_fault(why))
        }
        Ok(()) if through => flush(storage),
        Ok(()) => Ok(()),
    }
}

/// What the act of a piece came to.
#[derive(Debug, Drop)]
pub enum Moved {
    /// The piece read these bytes.
    Read(Entry),
    /// The piece wrote what its SRB sends, or flushed.
    Sent,
}

/// A disk whose sectors stand in a storage, one after the other.
#[derive(Drop)]
pub struct FileDisk<S: Storage + Drop> {
    storage: S,
    /// A blank disk of these sizes, by which commands are checked.
    shape: SparseDisk,
    write_protected: bool,
    /// Whether there was no room for the newest of the writes that the storage refused.
    full: bool,
    /// The memory for the bytes of the next piece.
    room: Vec<u8>,
}

impl<S: Storage + Drop> Model for FileDisk<S> {
    ghost use Rattle.disk.specs.SparseDisk.{shown};
    ghost use Rattle.file_disk.specs.Transfers.{DiskView, IsDiskSize, disk_over};

    ghost Value = { DiskView };

    ghost view = { λ d. disk_over (shown d.shape) d.write_protected d.full (S.calls d.storage) };

    ghost invariant = { λ d. IsDiskSize (shown d.shape) };
}

impl<S: Storage + Drop> FileDisk<S> {
    /// A disk of these sizes in a storage that has all its bytes.
    pub fn new(alloc: Global, storage: S, sizes: Sizes) -> FileDisk<S>
        requires size { (sizes.sector_size ≡ 512) ⊎ (sizes.sector_size ≡ 4096) }
        requires few { sizes.sectors ≤ 2 ^ 40 }
        ensures { result ≡ record { sector_size = sizes.sector_size; sectors = sizes.sectors; write_protected = sizes.write_protected; full = false; calls = S.calls storage } }
    {
        FileDisk {
            storage,
            shape: SparseDisk::new(alloc, sizes.sector_size, sizes.sectors, Vec::new(alloc)),
            write_protected: sizes.write_protected,
            full: false,
            room: Vec::new(alloc),
        }
    }

    /// Its sizes.
    pub fn sizes(&self) -> Sizes
        ensures { (result.sector_size ≡ self.now.sector_size) × (result.sectors ≡ self.now.sectors) × (result.write_protected ≡ self.now.write_protected) }
    {
        Sizes {
            sector_size: self.shape.sector_size(),
            sectors: self.shape.sectors(),
            write_protected: self.write_protected,
        }
    }

    /// What an SRB asks of the storage, and of which sectors, if it asks anything.
    pub fn asked(&self, srb: &Srb) -> Option<(Task, Extent)>
        ensures { IfSome result (Asks self.now srb.now) }
    {
        match check_on(&self.shape, self.write_protected, srb) {
            Ok(command) => task_in(command),
            Err(_) => None,
        }
    }

    /// Its storage.
    pub fn storage(&self) -> &S
        ensures { S.calls result.now ≡ self.now.calls }
    {
        &self.storage
    }

    /// The record of the calls so far.
    pub fn record(&self) -> &Record
        ensures { result.now.calls ≡ self.now.calls }
    {
        self.storage.record()
    }

    /// Returns whether the storage had no room for the newest of the writes that it refused.
    pub fn is_full(&self) -> bool
        ensures { result ≡ self.now.full }
    {
        self.full
    }

    /// Makes room for this many bytes. It takes no memory where as much was taken back.
    ///
    /// # Errors
    ///
    /// A hardware error where memory was refused.
    fn take_room(&mut self, count: usize) -> Result<Vec<u8>, Completion>
        ensures room { MatchResult result (λ room. length room.items ≡ count) (λ why. why ≡ hardware_fault) }
        ensures same { self.new ≡ self.old }
    {
        let alloc = *self.room.allocator();
        let mut room = mem::replace(&mut self.room, Vec::new(alloc));
        match room.resize(count, 0) {
            Ok(()) => Ok(room),
            Err(_) => Err(hardware_fault()),
        }
    }

    /// Reads `count` bytes from byte `offset` on.
    ///
    /// # Errors
    ///
    /// A read fault where a call failed, a hardware error where memory was refused.
    fn read(&mut self, offset: u64, count: usize) -> Result<Bytes, Completion>
        requires fits { offset + count < 2 ^ 64 }
        ensures reads { Since self.old.calls self.new.calls (λ calls. ReadsBytes offset count result calls ⊎ LacksMemory result calls) }
        ensures room { TellsRoom self.old self.new }
        ensures after { self.new ≡ record self.old { calls = self.new.calls } }
    {
        let mut room = self.take_room(count)?;
        match read_all(&mut self.storage, offset, room.as_mut_slice()) {
            Ok(()) => Ok(Bytes::new(room)),
            Err(_) => {
                self.room = room;
                Err(read_fault())
            }
        }
    }

    /// Carries out a task of these sectors, sent with these bytes, and returns what a read brought.
    ///
    /// # Errors
    ///
    /// What the call that failed comes to; a hardware error where memory was refused.
    fn carry_out(
        &mut self,
        task: Task,
        extent: Extent,
        sent: &[u8],
    ) -> Result<Option<Bytes>, Completion>
        requires inside { extent.first + extent.count ≤ self.old.sectors }
        requires long { length sent.now ≤ extent.count * self.old.sector_size }
        ensures does { Carries self.old task extent sent.now (moved_by sent.now result) self.new }
        ensures sent { IfOk result (λ bytes. IsSentOr task bytes) }
        ensures room { TellsRoom self.old self.new }
        ensures after { self.new ≡ record self.old { calls = self.new.calls; full = self.new.full } }
    {
        let offset = extent.first * self.shape.sector_size() as u64;
        match task {
            Task::Read => Ok(Some(self.read(offset, sent.len())?)),
            Task::Write { through } => {
                write(&mut self.storage, &mut self.full, offset, sent, through)?;
                Ok(None)
            }
            Task::Flush => {
                flush(&mut self.storage)?;
                Ok(None)
            }
        }
    }

    /// Carries out what the SRB of a piece asks for, and returns what came of it.
    ///
    /// # Errors
    ///
    /// The first row that fits of the table of the adapter in memory, such as ILLEGAL REQUEST or WRITE PROTECTED, where
    /// the SRB asks for what a disk doesn't carry out; SRB_STATUS_INVALID_REQUEST for a READ CAPACITY, which only
    /// a start sends. MEDIUM ERROR where a read or a write failed, or DATA PROTECT where the file can't be
    /// written or has no room; HARDWARE ERROR where a sync failed or memory for a read was refused.
    pub fn transfer(&mut self, tag: u8, piece: u128, srb: &Srb) -> Result<Moved, Completion>
        ensures transfers { Transfers self.old tag piece srb.now (entry_moved tag piece srb.now result) self.new }
        ensures suits { Suits self.old.sector_size self.old.sectors srb.now (entry_moved tag piece srb.now result) }
        ensures of_piece { IsOfPiece tag piece (entry_moved tag piece srb.now result) }
        ensures after { self.new ≡ record self.old { calls = self.new.calls; full = self.new.full } }
    {
        let command = check_on(&self.shape, self.write_protected, srb)?;
        let Some((task, extent)) = task_in(command) else {
            return Err(invalid_request());
        };
        match self.carry_out(task, extent, srb.data.as_slice())? {
            Some(bytes) => Ok(Moved::Read(Entry {
                piece,
                tag,
                extent,
                kind: task.kind(),
                bytes,
            })),
            None => Ok(Moved::Sent),
        }
    }

    /// Takes the memory of an entry back, for the next piece.
    pub fn take_back(&mut self, entry: Entry)
        ensures { self.new ≡ self.old }
    {
        self.room = entry.bytes.into_spare();
    }
}
