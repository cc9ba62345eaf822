//! Why the program `nbd_disk` ends early.

ghost use Rattle.std.specs.Prelude.{◌≡◌};
ghost use Rattle.serving.specs.Faults.{is_usage};
ghost use Rattle.serving.specs.declared.faults.Error.TheVariants.{NoMemory, Startup};

use mbr::MbrFault;
use sector::Extent;
use startup::{Ending, words_for};
use std::alloc::AllocError;
use std::fmt;

/// Why the program ends early. Its text is the line that is said of it.
#[derive(Debug, Clone, Copy, PartialEq, Eq)]
pub enum Error {
    /// The words of the command line ask for nothing that can be served, or for help.
    Usage,
    /// There are no settings, or no stack of them.
    Startup(startup::Error),
    /// The settings have no such partition.
    NoPartition,
    /// The disk in a file can't be served.
    Disk(DiskFault),
    /// The client's bytes are not the protocol, or NBD_OPT_EXPORT_NAME names an export that isn't there.
    Malformed,
    /// The input ended or failed before the client left by the protocol.
    InputEnded,
    /// The trace's file can't be opened.
    TraceNotOpened,
    /// Another process has locked the trace's file, or it is another file of the program.
    TraceInUse,
    /// The trace's file didn't take all.
    TraceFailed,
    /// Output didn't take all of a reply.
    OutputFailed,
    /// Memory was refused.
    NoMemory,
}

/// Why a disk in a file can't be served. Its text stands in the line that is said.
#[derive(Debug, Clone, Copy, PartialEq, Eq)]
pub enum DiskFault {
    /// The file can't be opened.
    NotOpened,
    /// The file can't be made, since there is one already or for another reason, or the table can't be written there.
    NotCreated,
    /// Another process has locked the file.
    InUse,
    /// The file has another number of bytes than the disk of the settings.
    OtherSize { found: u64, wanted: u64 },
    /// Sector 0 can't be read.
    Unreadable,
    /// Sector 0 gives other partitions than the settings, or none.
    OtherTable(Difference),
    /// The settings have bad sectors, or rules by which commands fail.
    HasFaults,
    /// The file is the one that has the settings.
    IsConfig,
    /// The file is the one that takes the output.
    IsOutput,
}

/// How a partition table differs from the partitions of the settings. Its text stands in the line that is said.
#[derive(Debug, Clone, Copy, PartialEq, Eq)]
pub enum Difference {
    /// The table is wrong by itself.
    BadTable(MbrFault),
    /// It has another number of partitions.
    Count {
        found: u64,
        wanted: u64,
    },
    /// The partition of this number, counted from 0, is the first that is another.
    Partition {
        number: u64,
        found: Extent,
        wanted: Extent,
    },
}

impl Ending for Error {
    ghost usage = { is_usage };

    fn is_usage(&self) -> bool {
        matches!(self, Error::Usage)
    }
}

/// The line that the program says, without its end.
impl fmt::Display for Error {
    ghost use Rattle.std.specs.Prelude.{Some};
    ghost use Rattle.serving.specs.Faults.{line_of};

    ghost output = { λ fault. Some (line_of fault) };

    fn fmt<W: fmt::Write>(&self, f: &mut fmt::Formatter<W>) -> fmt::Result {
        match self {
            Error::Usage => f.write_str(
                "usage: nbd_disk CONFIG [PARTITION] [--disk FILE [--create] [--trace TRACE | --beside]] | nbd_disk --disk FILE [--trace TRACE | --beside]",
            ),
            Error::Startup(fault) => write!(f, "nbd_disk: {fault}"),
            Error::NoPartition => f.write_str("nbd_disk: no such partition"),
            Error::Disk(fault) => write!(f, "nbd_disk: {fault}"),
            Error::Malformed => f.write_str("nbd_disk: malformed input"),
            Error::InputEnded => f.write_str("nbd_disk: input ended"),
            Error::TraceNotOpened => f.write_str("nbd_disk: cannot open TRACE"),
            Error::TraceInUse => f.write_str("nbd_disk: TRACE is in use"),
            Error::TraceFailed => f.write_str("nbd_disk: cannot write TRACE"),
            Error::OutputFailed => f.write_str("nbd_disk: output failed"),
            Error::NoMemory => f.write_str("nbd_disk: no memory"),
        }
    }
}

/// What is wrong with a disk in a file, in print.
impl fmt::Display for DiskFault {
    ghost use Rattle.std.specs.Prelude.{Some};
    ghost use Rattle.serving.specs.Faults.{disk_text};

    ghost output = { λ fault. Some (disk_text fault) };

    fn fmt<W: fmt::Write>(&self, f: &mut fmt::Formatter<W>) -> fmt::Result {
        match self {
            DiskFault::NotOpened => f.write_str("cannot open FILE"),
            DiskFault::NotCreated => f.write_str("cannot create FILE"),
            DiskFault::InUse => f.write_str("FILE is in use"),
            DiskFault::OtherSize { found, wanted } => write!(
                f,
                "FILE has {found} bytes, the settings ask for {wanted}"
            ),
            DiskFault::Unreadable => f.write_str("cannot read FILE"),
            DiskFault::OtherTable(difference) => write!(f, "{difference}"),
            DiskFault::HasFaults => f.write_str("bad_sectors and fault are not for a disk in FILE"),
            DiskFault::IsConfig => f.write_str("FILE is CONFIG"),
            DiskFault::IsOutput => f.write_str("FILE is standard output"),
        }
    }
}

/// What a table has, and what the settings ask for, in print.
impl fmt::Display for Difference {
    ghost use Rattle.std.specs.Prelude.{Some};
    ghost use Rattle.serving.specs.Faults.{difference_text};

    ghost output = { λ difference. Some (difference_text difference) };

    fn fmt<W: fmt::Write>(&self, f: &mut fmt::Formatter<W>) -> fmt::Result {
        match self {
            Difference::BadTable(fault) => {
                write!(f, "FILE has a bad partition table: {}", words_for(*fault))
            }
            Difference::Count { found, wanted } => write!(
                f,
                "FILE has {found} partitions, the settings ask for {wanted}"
            ),
            Difference::Partition {
                number,
                found,
                wanted,
            } => write!(
                f,
                "partition {number} of FILE has {} sectors from {} on, the settings ask for {} from {} on",
                found.count, found.first, wanted.count, wanted.first
            ),
        }
    }
}

impl std::error::Error for Error {}

impl From<AllocError> for Error {
    ghost from_gives = { λ _ fault. fault ≡ NoMemory };

    fn from(_error: AllocError) -> Error {
        Error::NoMemory
    }
}

impl From<startup::Error> for Error {
    ghost from_gives = { λ why fault. fault ≡ Startup why };

    fn from(fault: startup::Error) -> Error {
        Error::Startup(fault)
    }
}
