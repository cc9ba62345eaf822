//! What comes of pieces over a storage in memory, and over a file.

ghost use Rattle.std.specs.Prelude.{◌<◌, ◌^◌};

use crate::adapters::{SCSI, srb_of};
use crate::expect::{same, same_at};
use file_disk::{
    DiskFile, Failure, FileDisk, MemoryFile, Moved, Sizes, Storage, read_all, write_all,
};
use ntstatus::Sense;
use srb::{Completion, Srb};
use std::alloc::Global;
use std::fs;
use std::fs::OpenOptions;
use std::process::Abort;
use std::test::Fail;

/// What a storage of 7s does: it serves, by 100 bytes at most; its call after so many fails; it ends within sector 1; it can't be
/// written; or it has no room.
#[derive(Clone, Copy)]
enum How {
    Serves,
    FailsAt(u64),
    IsShort,
    IsProtected,
    IsFull,
}

use How::{FailsAt, IsFull, IsProtected, IsShort, Serves};

fn storage(alloc: Global, how: How) -> Result<MemoryFile, Fail> {
    let length = if let IsShort = how { 700 } else { 2048 };
    let file = MemoryFile::new(vec![in alloc; 7; length]?).in_steps(100);
    Ok(match how {
        Serves | IsShort => file,
        FailsAt(before) => file.failing(before),
        IsProtected => file.write_protected(),
        IsFull => file.full(),
    })
}

/// The code of a ten-byte block of sector 1 and its second byte; the flags and the number of bytes of an SRB, all 9.
type Command = (u8, u8, u8, usize);

const READ: Command = (0x28, 0, 64, 512);

const WRITE: Command = (0x2A, 0, 128, 512);

const THROUGH: Command = (0x2A, 8, 128, 512);

const SYNC: Command = (0x35, 0, 0, 0);

fn srb(alloc: Global, command: Command) -> Result<Srb, Fail>
    requires { command.3 < 2 ^ 20 }
{
    let (code, option, flags, count) = command;
    let block = [code, option, 0, 0, 0, 1, 0, 0, 1, 0];
    srb_of(alloc, SCSI, flags, &block, count, 9)
}

/// What a piece comes to: the first byte that it read, nothing where it sent its bytes, or how it failed: the status of its
/// SRB, and the key and the code of its sense.
type Told = Result<Option<u8>, (u8, u8, u8, u8)>;

fn told(outcome: &Result<Moved, Completion>) -> Told {
    match outcome {
        Ok(Moved::Read(entry)) => Ok(entry.bytes.as_slice().first().copied()),
        Ok(Moved::Sent) => Ok(None),
        Err(completion) => Err(match completion.sense {
            Some(sense) => (completion.srb_status, sense.key, sense.asc, sense.ascq),
            None => (completion.srb_status, 0, 0, 0),
        }),
    }
}

/// Has a disk over a storage in memory carry out a command, and checks what comes of it.
fn comes_to(
    rt: &impl Abort,
    alloc: Global,
    disk: &mut FileDisk<MemoryFile>,
    command: Command,
    want: Told,
) -> Result<(), Fail> {
    assert!(rt; command.3 <= 1024);
    let outcome = disk.transfer(0, 1, &srb(alloc, command)?);
    same_at(rt, &told(&outcome), &want, &command);
    if let Ok(Moved::Read(entry)) = outcome {
        disk.take_back(entry);
    }
    Ok(())
}

const SIZES: Sizes = Sizes {
    sector_size: 512,
    sectors: 4,
    write_protected: false,
};

/// Commands one after the other, and what comes of each.
const CARRIED_OUT: &[(Command, Told)] = &[
    (READ, Ok(Some(7))),
    (WRITE, Ok(None)),
    (READ, Ok(Some(9))),
    (THROUGH, Ok(None)),
    (SYNC, Ok(None)),
    ((0x25, 0, 64, 8), Err((0x06, 0, 0, 0))),
    ((0x28, 0, 64, 1024), Err((0x06, 0, 0, 0))),
];

/// Six calls write the sector, and the seventh syncs.
const FAILURES: &[(How, Command, (u8, u8, u8, u8))] = &[
    (FailsAt(3), READ, (0x84, 3, 0x11, 0)),
    (IsShort, READ, (0x84, 3, 0x11, 0)),
    (IsShort, WRITE, (0x84, 3, 0x0C, 0)),
    (FailsAt(5), WRITE, (0x84, 3, 0x0C, 0)),
    (IsProtected, WRITE, (0x84, 7, 0x27, 0)),
    (IsFull, WRITE, (0x84, 7, 0x27, 7)),
    (FailsAt(6), THROUGH, (0x84, 4, 0x00, 0)),
    (FailsAt(0), SYNC, (0x84, 4, 0x00, 0)),
];

/// Checks what comes of a command over a storage that fails so.
fn fails(
    rt: &impl Abort,
    alloc: Global,
    how: How,
    command: Command,
    want: Told,
) -> Result<(), Fail> {
    let mut disk = FileDisk::new(alloc, storage(alloc, how)?, SIZES);
    comes_to(rt, alloc, &mut disk, command, want)?;
    same(rt, &disk.is_full(), &matches!(how, IsFull));
    Ok(())
}

#[test]
fn each_command_is_carried_out_or_fails(rt: HostRuntime) -> Result<(), Fail> {
    let alloc = rt.alloc();
    let mut disk = FileDisk::new(alloc, storage(alloc, Serves)?, SIZES);
    for &(command, want) in CARRIED_OUT {
        comes_to(&rt, alloc, &mut disk, command, want)?;
    }
    for &(how, command, want) in FAILURES {
        fails(&rt, alloc, how, command, Err(want))?;
    }
    Ok(())
}

#[test]
fn a_file_has_what_was_written(rt: HostRuntime) -> Result<(), Fail> {
    fs::write(&rt, "disk.img", vec![in rt.alloc(); 7; 2048]?.as_slice())?;
    let opened = OpenOptions::new()
        .read(true)
        .write(true)
        .open(&rt, "disk.img")?;
    let mut file = DiskFile::new(opened);
    same(&rt, &write_all(&mut file, 512, &[9; 512]), &Ok(()));
    same(&rt, &file.sync(), &Ok(()));
    let mut back = [0; 600];
    same(&rt, &read_all(&mut file, 500, &mut back), &Ok(()));
    let edges = [back[11], back[12], back[523], back[524]];
    same(&rt, &edges, &[7, 9, 9, 7]);
    assert!(rt; read_all(&mut file, 1500, &mut back).is_err());
    let mut protected = DiskFile::new(fs::open(&rt, "disk.img")?);
    let refused = write_all(&mut protected, 0, &[1]);
    same(&rt, &refused, &Err(Failure::Protected));
    fs::remove_file(&rt, "disk.img")?;
    Ok(())
}
