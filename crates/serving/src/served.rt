//! A volume as the array that a server of NBD serves, and that waits as long as its rules say.

ghost use Rattle.std.specs.Prelude.{◌≡◌};
ghost use Rattle.volume.specs.Sparse.{AreZeros};
ghost use Rattle.serving.specs.Serving.{array_of, told_fault};

use adapter::Adapter;
use compose::Refusal;
use nbd::{Array, ArrayFault, Run, Sizes};
use ntstatus::NtStatus;
use sector::Bytes;
use std::alloc::Global;
use std::marker::Model;
use std::thread;
use std::time::{Clock, Duration};
use volume::{Error, SparseVolume, Volume};

/// A volume, served.
#[derive(Drop)]
pub(crate) struct Served<A: Adapter, T: Clock + Drop> {
    /// What a delay is waited out by.
    clock: T,
    volume: SparseVolume<A>,
    /// Whether clients are told that it can't be written.
    read_only: bool,
}

impl<A: Adapter, T: Clock + Drop> Model for Served<A, T> {
    ghost use Rattle.nbd.specs.Content.{Content};
    ghost use Rattle.serving.specs.Serving.{array_of};

    ghost Value = { Content };

    ghost view = { λ s. array_of s.volume.content s.read_only };
}

impl<A: Adapter, T: Clock + Drop> Served<A, T> {
    /// Serves a volume of zeros.
    pub fn new(clock: T, alloc: Global, volume: Volume<A>, read_only: bool) -> Served<A, T>
        requires zeros { AreZeros volume.content.bytes }
        ensures { result ≡ array_of volume.content read_only }
    {
        Served {
            clock,
            volume: SparseVolume::new(alloc, volume),
            read_only,
        }
    }

    /// Waits as many milliseconds as rules delayed the commands of the last call by.
    fn wait(&mut self)
        ensures { self.new ≡ self.old }
    {
        let delay = self.volume.take_delay();
        if delay > 0 {
            thread::sleep(&self.clock, Duration::from_millis(delay));
        }
    }
}

impl<A: Adapter, T: Clock + Drop> Array for Served<A, T> {
    ghost use Rattle.serving.specs.Serving.{may_fail};

    ghost content = { λ s. s };

    ghost fails = { may_fail };

    fn sizes(&self) -> Sizes {
        let sizes = self.volume.sizes();
        Sizes {
            block: sizes.sector_size as u32,
            bytes: sizes.sectors * sizes.sector_size,
            read_only: self.read_only,
        }
    }

    fn read(&mut self, alloc: Global, offset: u64, buffer: Vec<u8>) -> Result<Vec<u8>, ArrayFault> {
        let outcome = self.volume.read(alloc, offset, Bytes::new(buffer));
        self.wait();
        match outcome {
            Ok(bytes) => Ok(bytes.into_vec()),
            Err(fault) => Err(array_fault(fault)),
        }
    }

    fn write(
        &mut self,
        alloc: Global,
        offset: u64,
        bytes: Vec<u8>,
        through: bool,
    ) -> Result<(), ArrayFault> {
        // A write that failed changed nothing outside its own sectors.
        nbd::written_inside();
        let outcome = self.volume.write(alloc, offset, Bytes::new(bytes), through);
        self.wait();
        match outcome {
            Ok(()) => Ok(()),
            Err(fault) => Err(array_fault(fault)),
        }
    }

    fn flush(&mut self, alloc: Global) -> Result<(), ArrayFault> {
        let outcome = self.volume.flush(alloc);
        self.wait();
        match outcome {
            Ok(()) => Ok(()),
            Err(fault) => Err(array_fault(fault)),
        }
    }

    fn run(&self, offset: u64, count: u32) -> Run {
        let run = self.volume.run(offset, count as u64);
        Run {
            count: run.count as u32,
            are_zeros: run.are_zeros,
        }
    }
}

/// Returns the fault of an array that stands for a fault of a volume.
fn array_fault(fault: Error) -> ArrayFault
    ensures { result ≡ told_fault fault }
{
    match fault {
        Error::Refused(Refusal::InsufficientResources) => ArrayFault::NoMemory,
        Error::Failed(NtStatus::InsufficientResources) => ArrayFault::NoMemory,
        Error::Failed(NtStatus::MediaWriteProtected) => ArrayFault::Protected,
        Error::Failed(NtStatus::NoSuchDevice) => ArrayFault::Gone,
        Error::Failed(NtStatus::DeletePending) => ArrayFault::Gone,
        Error::Refused(_) => ArrayFault::Failed,
        Error::Failed(_) => ArrayFault::Failed,
    }
}
