//! A session over the disk of some settings.

ghost use Rattle.std.specs.Prelude.{◌≡◌, IfErr, IfOk};
ghost use Rattle.std.specs.Result.{result_err};
ghost use Rattle.settings.specs.InRange.{AreInRange};
ghost use Rattle.serving.specs.Serving.{IsServed, IsStartFault, fault_of_end, fault_of_open, new_array};

use crate::faults::Error;
use crate::served::Served;
use compose::Refusal;
use disk::SparseDisk;
use miniport::PlannedAdapter;
use nbd::{End, serve};
use settings::Config;
use startup::{open, read_settings};
use std::alloc::Global;
use std::io::{Read, Write};
use std::time::Clock;
use volume::OpenFault;

/// Serves a client over one partition, counted from 0, of the disk of the settings that an input gives. A request whose
/// commands rules delay is answered so many milliseconds later: the clock sleeps that long, of which nothing is promised.
///
/// # Errors
///
/// The first of these that fits, before anything is read or written: the settings can't be read, or are refused; no
/// stack of them could be started; there is no such partition. Where memory was refused, the step's error for that
/// stands in place of any of these. Behind them comes how the session ended, where the client did not leave by the
/// protocol.
pub fn serve_disk<T: Clock + Drop, C: Read + Drop, R: Read, W: Write>(
    clock: T,
    alloc: Global,
    config: C,
    partition: u8,
    input: &mut R,
    out: &mut W,
) -> Result<(), Error>
    ensures served { IsServed (C.remaining config) partition (R.remaining input.old) (W.contents out.old) (result_err result) (R.remaining input.new) (W.contents out.new) }
{
    let config = read_settings(alloc, config)?;
    let mut disk = start(clock, alloc, config, partition)?;
    outcome(serve(alloc, &mut disk, input, out))
}

/// Returns the fault by which the program ends after a session with this end.
pub(crate) fn outcome(end: End) -> Result<(), Error>
    ensures { result_err result ≡ fault_of_end end }
{
    match end {
        End::Left => Ok(()),
        End::Malformed => Err(Error::Malformed),
        End::Input => Err(Error::InputEnded),
        End::Output => Err(Error::OutputFailed),
    }
}

/// Opens a partition of the disk of the settings, as it is before anything was written.
fn start<T: Clock + Drop>(
    clock: T,
    alloc: Global,
    config: Config,
    partition: u8,
) -> Result<Served<PlannedAdapter<SparseDisk>, T>, Error>
    requires { AreInRange config }
    ensures content { IfOk result (λ disk. disk ≡ new_array config partition) }
    ensures fault { IfErr result (IsStartFault config partition) }
{
    let read_only = config.write_protected;
    match open(alloc, config, partition) {
        Ok(volume) => Ok(Served::new(clock, alloc, volume, read_only)),
        Err(fault) => Err(open_fault(fault)),
    }
}

/// Returns the fault of a volume that can't be opened.
fn open_fault(fault: OpenFault) -> Error
    ensures { result ≡ fault_of_open fault }
{
    match fault {
        OpenFault::Start(fault) => Error::Startup(startup::Error::Start(fault)),
        OpenFault::Refused(Refusal::InvalidParameter) => Error::NoPartition,
        // A new stack has handles and numbers enough.
        OpenFault::Refused(_) => Error::NoMemory,
    }
}
