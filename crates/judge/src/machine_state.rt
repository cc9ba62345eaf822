//! The state of a machine.

ghost use Rattle.std.specs.Prelude.{◌≡◌, ◌<◌, length, option_copied, slice_get, slice_index_or, IfOk, OnOk, List};
ghost use Rattle.std.specs.List.{remove};
ghost use Rattle.machine.specs.State.{opening};
ghost use Rattle.judge.specs.Taking.{TakesOpen, TakesStarted, with_open, with_started};

use crate::arrays::{Sectors, array_of};
use crate::copies::{Copied, all_copied};
use crate::finding::{place_for, take_piece, take_request};
use crate::open::Open;
use crate::pieces::Started;
use ntstatus::NtStatus;
use std::alloc::{AllocError, Global};
use std::marker::Model;

/// The answer that a refused call is owed.
#[derive(Debug, Clone, Copy)]
pub(crate) struct Debt {
    pub(crate) number: u64,
    pub(crate) status: NtStatus,
}

/// What a machine holds at a moment.
#[derive(Debug, Drop)]
pub struct Machine {
    pub(crate) arrays: Vec<Sectors>,
    pub(crate) next_request: u64,
    pub(crate) next_piece: u128,
    pub(crate) requests: Vec<Open>,
    pub(crate) pieces: Vec<Started>,
    pub(crate) owed: Option<Debt>,
    pub(crate) paused: bool,
    pub(crate) removing: bool,
    pub(crate) removed: bool,
}

impl Model for Machine {
    ghost use Rattle.machine.specs.State.{State};

    ghost Value = { State };

    ghost use Rattle.std.specs.Prelude.{option_map};
    ghost use Rattle.judge.specs.Views.{owed_of};

    ghost view = { λ m. record {
      arrays = m.arrays.items;
      next_request = m.next_request;
      next_piece = m.next_piece;
      requests = m.requests.items;
      pieces = m.pieces.items;
      owed = option_map owed_of m.owed;
      paused = m.paused;
      removing = m.removing;
      removed = m.removed;
    } };
}

impl Machine {
    /// A machine at its start, with these sectors in its partitions.
    pub fn new(alloc: Global, arrays: Vec<Sectors>) -> Machine
        ensures { result ≡ opening arrays.items }
    {
        Machine {
            arrays,
            next_request: 1,
            next_piece: 1,
            requests: Vec::new(alloc),
            pieces: Vec::new(alloc),
            owed: None,
            paused: false,
            removing: false,
            removed: false,
        }
    }

    /// The open requests, in no order that means anything.
    pub fn requests(&self) -> &[Open]
        ensures { result.now ≡ self.now.requests }
    {
        self.requests.as_slice()
    }

    /// The pieces at the adapter, in no order that means anything.
    pub fn pieces(&self) -> &[Started]
        ensures { result.now ≡ self.now.pieces }
    {
        self.pieces.as_slice()
    }

    pub fn is_paused(&self) -> bool
        ensures { result ≡ self.now.paused }
    {
        self.paused
    }

    /// Whether a removal has begun, which may have ended.
    pub fn is_removing(&self) -> bool
        ensures { result ≡ self.now.removing }
    {
        self.removing
    }

    pub fn is_removed(&self) -> bool
        ensures { result ≡ self.now.removed }
    {
        self.removed
    }

    /// Takes the first request of this number out.
    pub(crate) fn take_open(&mut self, number: u64) -> Option<Open>
        ensures { TakesOpen self.old number result self.new }
    {
        take_request(&mut self.requests, number)
    }

    /// Takes the first piece of this number out.
    pub(crate) fn take_started(&mut self, number: u128) -> Option<Started>
        ensures { TakesStarted self.old number result self.new }
    {
        take_piece(&mut self.pieces, number)
    }

    /// Takes the request at this place out.
    pub(crate) fn remove_open(&mut self, at: usize) -> Open
        requires { at < length self.old.requests }
        ensures taken { result ≡ slice_index_or self.old.requests at result }
        ensures rest { self.new ≡ record self.old { requests = remove self.old.requests at } }
    {
        self.requests.remove(at)
    }

    /// The sectors of a partition, where the machine has that partition.
    pub fn sectors(&self, partition: u8) -> Option<&Sectors>
        ensures { option_copied result ≡ slice_get self.now.arrays partition }
    {
        array_of(self.arrays.as_slice(), partition as usize)
    }

    /// Puts a request in its place among the others.
    pub(crate) fn put_open(&mut self, entry: Open) -> Result<(), AllocError>
        ensures { OnOk result (self.new ≡ with_open entry self.old) }
    {
        let at = place_for(self.requests.as_slice(), entry.number());
        self.requests.insert(at, entry)?;
        Ok(())
    }

    /// Puts a piece behind the others.
    pub(crate) fn put_started(&mut self, piece: Started) -> Result<(), AllocError>
        ensures { OnOk result (self.new ≡ with_started piece self.old) }
    {
        self.pieces.push(piece)?;
        Ok(())
    }
}

impl Copied for Machine {
    fn copied(&self, alloc: Global) -> Result<Machine, AllocError> {
        Ok(Machine {
            arrays: all_copied(alloc, self.arrays.as_slice())?,
            next_request: self.next_request,
            next_piece: self.next_piece,
            requests: all_copied(alloc, self.requests.as_slice())?,
            pieces: all_copied(alloc, self.pieces.as_slice())?,
            owed: self.owed,
            paused: self.paused,
            removing: self.removing,
            removed: self.removed,
        })
    }
}
