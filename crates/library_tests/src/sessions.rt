//! A session over an array in memory: what the array is told, and what its faults are answered by.

use crate::expect::{same, same_at};
use crate::parts::Part::{Fill, Reply, Request};
use crate::parts::{GO, Part, bytes_of, fill, gone};
use nbd::{Array, ArrayFault, End, MemArray, Run, Sizes, serve};
use std::alloc::{AllocError, Global};
use std::process::Abort;

/// An array that counts what goes past caches, and may fail.
#[derive(Drop)]
pub(crate) struct Counting {
    pub(crate) array: MemArray,
    /// How many writes went past caches.
    pub(crate) through: u32,
    pub(crate) flushes: u32,
    pub(crate) fault: Option<ArrayFault>,
}

impl Array for Counting {
    ghost use Rattle.std.specs.Prelude.{false, if◌then◌else◌, ⊤};

    ghost content = { λ a. record { block = (if a.array.long_blocks then 4096 else 512); bytes = a.array.bytes.items; read_only = false } };

    ghost fails = { λ _ _ _. ⊤ };

    fn sizes(&self) -> Sizes {
        self.array.sizes()
    }

    fn read(&mut self, alloc: Global, offset: u64, buffer: Vec<u8>) -> Result<Vec<u8>, ArrayFault> {
        match self.fault {
            Some(fault) => Err(fault),
            None => self.array.read(alloc, offset, buffer),
        }
    }

    fn write(
        &mut self,
        alloc: Global,
        offset: u64,
        bytes: Vec<u8>,
        through: bool,
    ) -> Result<(), ArrayFault> {
        if through {
            self.through = self.through.saturating_add(1);
        }
        match self.fault {
            Some(fault) => Err(fault),
            None => self.array.write(alloc, offset, bytes, through),
        }
    }

    fn flush(&mut self, alloc: Global) -> Result<(), ArrayFault> {
        self.flushes = self.flushes.saturating_add(1);
        match self.fault {
            Some(fault) => Err(fault),
            None => self.array.flush(alloc),
        }
    }

    fn run(&self, offset: u64, count: u32) -> Run {
        self.array.run(offset, count)
    }
}

/// A write past caches and one that isn't, zeros past caches, a flush and a read.
const FIVE: [Part; 7] = [
    Request(1, 1, 1, 0, 512),
    Fill(7, 512),
    Request(0, 1, 2, 512, 512),
    Fill(8, 512),
    Request(1, 6, 3, 1024, 512),
    Request(0, 3, 4, 0, 0),
    Request(0, 0, 5, 0, 1536),
];

/// The replies where nothing fails.
const SERVED: [Part; 8] = [
    Reply(0, 1),
    Reply(0, 2),
    Reply(0, 3),
    Reply(0, 4),
    Reply(0, 5),
    Fill(7, 512),
    Fill(8, 512),
    Fill(0, 512),
];

/// Faults, and the errors that they are answered by.
static FAULTS: [(ArrayFault, u32); 4] = [
    (ArrayFault::Protected, 1),
    (ArrayFault::Failed, 5),
    (ArrayFault::NoMemory, 12),
    (ArrayFault::Gone, 108),
];

/// The bytes of blocks that are filled with these.
pub(crate) fn blocks(alloc: Global, fillings: &[u8]) -> Result<Vec<u8>, AllocError> {
    let mut bytes = Vec::new(alloc);
    for filling in fillings {
        fill(&mut bytes, *filling, 512)?;
    }
    Ok(bytes)
}

/// Serves the five requests by an array, and compares its answers, what it was told and its blocks.
fn serves(
    rt: &impl Abort,
    alloc: Global,
    fault: Option<ArrayFault>,
    replies: &[Part],
    left: &[u8],
) -> Result<(), AllocError> {
    let client = bytes_of(alloc, &GO, &FIVE)?;
    let wanted = bytes_of(alloc, &gone(2048), replies)?;
    let mut array = Counting {
        array: MemArray {
            bytes: blocks(alloc, &[1, 2, 3, 4])?,
            long_blocks: false,
        },
        through: 0,
        flushes: 0,
        fault,
    };
    let mut out = Vec::new(alloc);
    let end = serve(alloc, &mut array, &mut client.as_slice(), &mut out);
    same(rt, &end, &End::Input);
    same_at(rt, &out.as_slice(), &wanted.as_slice(), &fault);
    same(rt, &array.through, &2);
    same(rt, &array.flushes, &1);
    let left = blocks(alloc, left)?;
    same_at(rt, &array.array.bytes.as_slice(), &left.as_slice(), &fault);
    Ok(())
}

#[test]
fn an_array_is_served_and_its_faults_are_told(rt: HostRuntime) -> Result<(), AllocError> {
    let alloc = rt.alloc();
    serves(&rt, alloc, None, &SERVED, &[7, 8, 0, 4])?;
    for (fault, error) in FAULTS {
        let replies = [
            Reply(error, 1),
            Reply(error, 2),
            Reply(error, 3),
            Reply(error, 4),
            Reply(error, 5),
        ];
        serves(&rt, alloc, Some(fault), &replies, &[1, 2, 3, 4])?;
    }
    Ok(())
}
