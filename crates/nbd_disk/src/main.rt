//! This program serves a partition of a disk to one NBD client, on standard input and output. The disk is in memory, or
//! in a file.
//!
//! A relay that starts a program for each connection makes it a server: `socat UNIX-LISTEN:disk.sock EXEC:"nbd_disk
//! CONFIG"`.
//!
//! Each client has a disk in memory of its own; a file is locked for one.
//!
//! # Promises
//!
//! What `serving` and `startup` promise, for readers and writers that tell their bytes. Of files, standard input and
//! output nothing is promised.
#![tactic(auto)]

mod found;

ghost use Rattle.std.specs.Prelude.{◌≡◌};
ghost use Rattle.std.specs.Result.{result_err};
ghost use Rattle.settings.specs.InRange.{AreInRange};
ghost use Rattle.serving.specs.OnDisk.{IsFileSession};

use chronicle::Opened;
use file_disk::{DiskFile, Storage};
use found::settings_in;
use nbd::Ahead;
use read_ahead::{Naming, ReadAhead};
use serving::{
    Asked, DiskFault, Error, Filed, Inode, Pen, Silent, Trace, check_apart, command, disk_bytes,
    disks_beside, open_file, put_table, read_only, serve_disk, serve_file, serve_file_beside,
};
use settings::Config;
use startup::{Verdict, ended, fault_of, hold_standard, read_settings};
use std::alloc::{AllocError, Global};
use std::fs::{File, Metadata, OpenOptions, TryLockError};
use std::io::{BufReader, BufWriter, ErrorKind, Read, Seek, SeekFrom, Stdin, Stdout, Write};
use std::marker::Brand;
use std::os::unix::fs::MetadataExt;
use std::process::ExitCode;
use std::sync::Wait;
use std::thread::Threads;
use std::time::Clock;
use std::{env, fs, io};

/// How many bytes of output are written at once. The bytes of a longer read go past this buffer, and the bytes of a
/// long write go past the reader's.
const BUFFER: usize = 65_536;

/// How many bytes of input are read at once: several short writes, or the first bytes of a long one behind the last of
/// another. They are less than half of 128 KiB, so that the others go past the buffer.
const INPUT_BUFFER: usize = 61_440;

/// The bytes of a block that is taken at the start and given back at once, nearly the most that counts there. The C
/// library keeps freed memory of twice as many bytes from then on, and the buffers of a long request are not taken from
/// the system anew each time (mallopt(3), `M_MMAP_THRESHOLD`).
const KEPT: usize = 33_538_048;

/// The file of a disk.
#[derive(Drop)]
struct Image {
    file: File,
    /// How many bytes it has.
    end: u64,
    /// Whether it is open for reading alone.
    read_only: bool,
}

/// Serves as the command line asks for.
fn run<H: Threads + Wait + Clock + Copy + Drop + Send + 'static>(
    rt: &HostRuntime,
    handle: H,
) -> Result<Verdict, Error> {
    let alloc = rt.alloc();
    keep_freed(alloc);
    let words = match env::args(rt) {
        Ok(words) => words.collect::<Vec<String>>(alloc)?,
        Err(error) => return Err(fault_of(&error, Error::Usage)),
    };
    let asked = command(alloc, words.as_slice())?;
    if takes_faults(rt, asked.disk) || takes_faults(rt, asked.trace) {
        // A fault would be said into the disk, or the trace.
        return Ok(Verdict::Failed);
    }
    let config = match asked.config {
        Some(path) => Some(config_file(rt, path)?),
        None => None,
    };
    match asked.disk {
        Some(path) => in_file(rt, handle, path, asked, config),
        None if asked.create || asked.trace.is_some() || asked.beside => Err(Error::Usage),
        None => match config {
            Some(config) => {
                let (mut input, mut out) = standard(rt)?;
                serve_disk(handle, alloc, config, asked.partition, &mut input, &mut out)?;
                Ok(Verdict::Passed)
            }
            None => Err(Error::Usage),
        },
    }
}

/// Returns standard input and output, through buffers.
fn standard(rt: &HostRuntime) -> Result<(BufReader<Stdin>, BufWriter<Stdout>), Error> {
    let alloc = rt.alloc();
    let Ok(input) = BufReader::with_capacity(alloc, INPUT_BUFFER, rt.stdin()) else {
        return Err(Error::NoMemory);
    };
    match BufWriter::with_capacity(alloc, BUFFER, rt.stdout()) {
        Ok(out) => Ok((input, out)),
        Err(_) => Err(Error::NoMemory),
    }
}

/// Serves a disk in a file, as the command line asks for.
fn in_file<H: Threads + Wait + Clock + Copy + Drop + Send + 'static>(
    rt: &HostRuntime,
    handle: H,
    path: &str,
    asked: Asked<'_>,
    config: Option<File>,
) -> Result<Verdict, Error> {
    if asked.beside {
        return beside_in_file(rt, handle, path, asked, config);
    }
    let Some(trace) = asked.trace else {
        let mut filed = filed(rt, path, asked, config, Silent)?;
        return session(rt, handle, &mut filed, asked.create);
    };
    let found = match &config {
        Some(config) => inode_of(config.metadata()),
        None => None,
    };
    let trace = trace_file(rt, trace, path, found)?;
    let pen = Trace::new(rt.alloc(), trace);
    let mut filed = filed(rt, path, asked, config, pen)?;
    let outcome = session(rt, handle, &mut filed, asked.create);
    match (filed.into_pen().into_writer(), outcome) {
        (Some(_), outcome) => outcome,
        (None, Ok(_)) => Err(Error::TraceFailed),
        (None, Err(fault)) => {
            // Nobody is left to hear of a fault of this writer.
            let _ = writeln!(rt.stderr(), "{}", Error::TraceFailed);
            Err(fault)
        }
    }
}

/// Serves a disk in a file with requests side by side, as the command line asks for. No trace is written of it.
fn beside_in_file<H: Threads + Wait + Clock + Copy + Drop + Send + 'static>(
    rt: &HostRuntime,
    handle: H,
    path: &str,
    asked: Asked<'_>,
    config: Option<File>,
) -> Result<Verdict, Error> {
    if asked.trace.is_some() {
        return Err(Error::Usage);
    }
    let alloc = rt.alloc();
    let filed = filed(rt, path, asked, config, Silent)?;
    let threaded = disks_beside(alloc, filed)?;
    let (input, mut out) = standard(rt)?;
    let opened = Opened::new(alloc)?;
    let (outcome, unread) = serve_file_beside::<Brand, Brand, _, _, _, _>(
        handle, opened, threaded, input, &mut out,
    );
    served(outcome, asked.create && unread)
}

/// Serves a client on standard input and output over a disk in a file.
fn session<H: Threads + Wait + Copy + Send + 'static, P: Pen + Drop>(
    rt: &HostRuntime,
    handle: H,
    filed: &mut Filed<DiskFile, P>,
    made: bool,
) -> Result<Verdict, Error> {
    let (input, mut out) = standard(rt)?;
    let (outcome, unread) = serve_ahead::<Brand, _, _, _, _, _>(
        rt.alloc(),
        handle,
        filed,
        input,
        &mut out,
    );
    served(outcome, made && unread)
}

/// Opens the file of a trace, which is no other file of the program, locks it and empties it.
fn trace_file(
    rt: &HostRuntime,
    path: &str,
    disk: &str,
    config: Option<Inode>,
) -> Result<File, Error> {
    let opened = OpenOptions::new().write(true).create(true).open(rt, path);
    let file = match opened {
        Ok(file) => file,
        Err(error) => return Err(failed(rt, path, &error, Error::TraceNotOpened)),
    };
    let Some(found) = inode_of(file.metadata()) else {
        return Err(Error::TraceNotOpened);
    };
    let output = inode_of(fs::metadata(rt, "/dev/stdout"));
    let image = inode_of(fs::metadata(rt, disk));
    let alone = check_apart(found, config, output).is_ok()
        && check_apart(found, image, None).is_ok();
    if !alone || file.try_lock().is_err() {
        return Err(Error::TraceInUse);
    }
    match emptied(&file) {
        Ok(()) => Ok(file),
        Err(error) => Err(failed(rt, path, &error, Error::TraceNotOpened)),
    }
}

/// Empties a file that has bytes.
fn emptied(file: &File) -> io::Result<()> {
    if file.metadata()?.len() == 0 {
        return Ok(());
    }
    file.set_len(0)
}

/// Returns how a run ends behind a session. A file that was made for no client was made all the same.
fn served(outcome: Result<(), Error>, made_alone: bool) -> Result<Verdict, Error> {
    match outcome {
        Ok(()) => Ok(Verdict::Passed),
        Err(Error::InputEnded) if made_alone => Ok(Verdict::Passed),
        Err(fault) => Err(fault),
    }
}

/// Serves a client over a disk in a file, with a second thread that fetches the bytes of long writes. It also returns
/// whether the client sent nothing.
fn serve_ahead<
    J: Naming + Send + Sync + 'static,
    H: Threads + Wait + Copy + Send + 'static,
    S: Storage + Drop,
    P: Pen + Drop,
    I: Ahead + Send + Drop + 'static,
    W: Write,
>(
    alloc: Global,
    handle: H,
    filed: &mut Filed<S, P>,
    input: I,
    out: &mut W,
) -> (Result<(), Error>, bool)
    requires { I.remaining input ≡ J.given }
    ensures { IsFileSession filed.old (I.remaining input) (W.contents out.old) (result_err result.0) filed.new (W.contents out.new) }
{
    let mut input: ReadAhead<J, H, I> = ReadAhead::new(alloc, handle, input);
    let outcome = serve_file(alloc, filed, &mut input, out);
    (outcome, input.is_unread())
}

/// Makes the C library keep freed memory from here on.
fn keep_freed(alloc: Global) {
    let block: Result<Vec<u8>, AllocError> = Vec::with_capacity(alloc, KEPT);
    drop(block);
}

/// Opens the file of the settings.
fn config_file(rt: &HostRuntime, path: &str) -> Result<File, Error> {
    match File::open(rt, path) {
        Ok(config) => Ok(config),
        Err(error) => Err(Error::Startup(fault_of(&error, startup::Error::ConfigUnreadable))),
    }
}

/// Returns which file it is, where that is known.
fn inode_of(found: io::Result<Metadata>) -> Option<Inode> {
    match found {
        Ok(found) => Some(Inode {
            device: found.dev(),
            number: found.ino(),
        }),
        Err(_) => None,
    }
}

/// Whether the file of this path takes what is said of faults.
fn takes_faults(rt: &HostRuntime, disk: Option<&str>) -> bool {
    let Some(path) = disk else {
        return false;
    };
    let Some(faults) = inode_of(fs::metadata(rt, "/dev/stderr")) else {
        return false;
    };
    match inode_of(fs::metadata(rt, path)) {
        Some(disk) => check_apart(disk, Some(faults), None).is_err(),
        None => false,
    }
}

/// Opens a partition of a disk in a file. Without settings the file tells its sizes and its partitions.
fn filed<P: Pen + Drop>(
    rt: &HostRuntime,
    path: &str,
    asked: Asked<'_>,
    config: Option<File>,
    pen: P,
) -> Result<Filed<DiskFile, P>, Error> {
    let Some(config) = config else {
        if asked.create {
            return Err(Error::Usage);
        }
        let opened = opened(rt, path, None, false)?;
        let settings = settings_in(rt.alloc(), &opened.file, opened.end)?;
        return open_in(rt, opened, settings, asked.partition, pen);
    };
    let config_inode = inode_of(config.metadata());
    let settings = read_settings(rt.alloc(), config)?;
    if asked.create {
        return made(rt, path, settings, asked.partition, pen);
    }
    let opened = opened(rt, path, config_inode, settings.write_protected)?;
    open_in(rt, opened, settings, asked.partition, pen)
}

/// Opens a partition of the disk of some settings in a file that was opened.
fn open_in<P: Pen + Drop>(
    rt: &HostRuntime,
    opened: Image,
    settings: Config,
    partition: u8,
    pen: P,
) -> Result<Filed<DiskFile, P>, Error>
    requires { AreInRange settings }
{
    let Image {
        file,
        end: found,
        read_only: only,
    } = opened;
    let wanted = disk_bytes(&settings);
    if found != wanted {
        return Err(Error::Disk(DiskFault::OtherSize { found, wanted }));
    }
    let settings = read_only(settings, only);
    open_file(rt.alloc(), settings, partition, DiskFile::new(file), pen)
}

/// Makes a file for the disk of some settings, and opens a partition of it. Where that fails the file is removed.
fn made<P: Pen + Drop>(
    rt: &HostRuntime,
    path: &str,
    settings: Config,
    partition: u8,
    pen: P,
) -> Result<Filed<DiskFile, P>, Error>
    requires { AreInRange settings }
{
    let storage = created(rt, path, &settings)?;
    let opened = open_file(rt.alloc(), settings, partition, storage, pen);
    if opened.is_err() {
        remove(rt, path);
    }
    opened
}

/// Returns the fault, and says the system's words for it.
fn failed(rt: &HostRuntime, path: &str, error: &io::Error, fault: Error) -> Error {
    // Nobody is left to hear of a fault of this writer.
    let _ = writeln!(rt.stderr(), "nbd_disk: {path}: {error}");
    fault
}

/// Removes a file that was made. Where that fails, it stays.
fn remove(rt: &HostRuntime, path: &str) {
    let _ = fs::remove_file(rt, path);
}

/// Opens and locks the file of a disk, which is no other file of the program.
fn opened(
    rt: &HostRuntime,
    path: &str,
    config: Option<Inode>,
    protected: bool,
) -> Result<Image, Error> {
    let (file, read_only) = open(rt, path, protected)?;
    let Some(disk) = inode_of(file.metadata()) else {
        return Err(Error::Disk(DiskFault::NotOpened));
    };
    check_apart(disk, config, inode_of(fs::metadata(rt, "/dev/stdout")))?;
    lock(&file)?;
    match end_of(&file) {
        Ok(end) => Ok(Image {
            file,
            end,
            read_only,
        }),
        Err(error) => Err(failed(rt, path, &error, Error::Disk(DiskFault::NotOpened))),
    }
}

/// Returns where a file or a block device ends.
fn end_of(file: &File) -> io::Result<u64> {
    let mut file = file;
    file.seek(SeekFrom::End(0))
}

/// Makes a file for the disk. Where it can't be filled, it is removed.
fn created(rt: &HostRuntime, path: &str, config: &Config) -> Result<DiskFile, Error>
    requires { AreInRange config.now }
{
    let file = match File::create_new(rt, path) {
        Ok(file) => file,
        Err(error) => return Err(failed(rt, path, &error, Error::Disk(DiskFault::NotCreated))),
    };
    let filled = filled(rt, path, file, config);
    if filled.is_err() {
        remove(rt, path);
    }
    filled
}

/// Gives a new file as many bytes as the disk, and the partition table of the settings, and syncs it and its folder.
fn filled(rt: &HostRuntime, path: &str, file: File, config: &Config) -> Result<DiskFile, Error>
    requires { AreInRange config.now }
{
    lock(&file)?;
    if let Err(error) = file.set_len(disk_bytes(config)) {
        return Err(failed(rt, path, &error, Error::Disk(DiskFault::NotCreated)));
    }
    let Ok(mut storage) = DiskFile::made(rt.alloc(), file) else {
        return Err(Error::NoMemory);
    };
    put_table(rt.alloc(), &mut storage, config)?;
    match sync_folder(rt, path) {
        Ok(()) => Ok(storage),
        Err(error) => Err(failed(rt, path, &error, Error::Disk(DiskFault::NotCreated))),
    }
}

/// Syncs the folder that a path is in.
fn sync_folder(rt: &HostRuntime, path: &str) -> io::Result<()> {
    let folder = match path.rsplit_once('/') {
        Some(("", _)) => "/",
        Some((folder, _)) => folder,
        None => ".",
    };
    File::open(rt, folder)?.sync_all()
}

/// Opens the file, for reading alone where it can't be written or isn't to be, and says whether it is so.
fn open(rt: &HostRuntime, path: &str, protected: bool) -> Result<(File, bool), Error> {
    let both = OpenOptions::new()
        .read(true)
        .write(!protected)
        .open(rt, path);
    match both {
        Ok(file) => Ok((file, protected)),
        Err(error) if is_refused(&error) => match File::open(rt, path) {
            Ok(file) => Ok((file, true)),
            Err(_) => Err(failed(rt, path, &error, Error::Disk(DiskFault::NotOpened))),
        },
        Err(error) => Err(failed(rt, path, &error, Error::Disk(DiskFault::NotOpened))),
    }
}

/// Whether perhaps only writing was refused.
fn is_refused(error: &io::Error) -> bool {
    matches!(
        error.kind(),
        ErrorKind::PermissionDenied | ErrorKind::ReadOnlyFilesystem
    )
}

/// Locks the file for this process alone.
fn lock(file: &File) -> Result<(), Error> {
    match file.try_lock() {
        Ok(()) => Ok(()),
        Err(TryLockError::WouldBlock) => Err(Error::Disk(DiskFault::InUse)),
        Err(TryLockError::Error(_)) => Err(Error::Disk(DiskFault::NotOpened)),
    }
}

fn main(rt: HostRuntime) -> ExitCode {
    match hold_standard(&rt) {
        // They are held until the run has ended.
        Ok(_standard) => ExitCode::from(ended(run(&rt, rt), &mut rt.stderr())),
        Err(error) => {
            // Nobody is left to hear of a fault of this writer.
            let _ = writeln!(rt.stderr(), "nbd_disk: cannot open /dev/null: {error}");
            ExitCode::FAILURE
        }
    }
}
