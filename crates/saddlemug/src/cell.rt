//! Room for what C holds.

ghost use Rattle.std.specs.Prelude.{◌≡◌, ◌⊎◌, Option, Some, None, IsSome, MatchBool, nat_eq};
ghost use Rattle.std.specs.Coded.{coded_option};
ghost use Rattle.ntstatus.specs.Codes.{value_of};
ghost use Rattle.ntstatus.specs.declared.NtStatus.TheVariants.{InsufficientResources};
ghost use Rattle.saddlemug.specs.declared.instance.Instance.{Instance};

use crate::instance::Instance;
use crate::raw_box::RawBox;
use ntstatus::NtStatus;
use std::alloc::Global;
use std::marker::Model;

/// Room for one thing that C holds: empty, or a pointer to it.
#[repr(C)]
#[derive(Drop)]
pub struct Cell {
    at: *mut u8,
    alloc: Global,
    pub ghost held: { Option Instance },
}

impl Model for Cell {
    ghost use Rattle.saddlemug.specs.contracts.instance.Instance.{the_row};
    ghost use Rattle.saddlemug.specs.Cell.{cell_owns};

    ghost also_owns = { λ s. cell_owns the_row s.alloc s.at s.held };
}

impl Cell {
    /// A cell that holds nothing.
    pub fn empty(alloc: Global) -> Cell
        ensures { result.held ≡ None }
    {
        Cell {
            at: std::ptr::null_mut(),
            alloc,
        }
    }

    fn of(loose: RawBox<Instance, Global>) -> Cell
        ensures { result.held ≡ Some loose.value }
    {
        let RawBox { at, alloc } = loose;
        Cell {
            at: at as *mut u8,
            alloc,
        }
    }

    fn into_loose(self) -> RawBox<Instance, Global>
        requires { IsSome self.held }
        ensures { self.held ≡ Some result.value }
    {
        let Cell { at, alloc } = self;
        RawBox {
            at: at as *mut Instance,
            alloc,
        }
    }

    /// Puts something into an empty cell.
    pub fn put(&mut self, held: Box<Instance>)
        requires { self.old.held ≡ None }
        ensures { self.new.held ≡ Some held.value }
    {
        *self = Cell::of(RawBox::of(held));
    }

    /// Puts something into an empty cell, in memory of its own. Returns 0, or the status where memory was refused; the
    /// cell is then still empty.
    pub fn fill(&mut self, alloc: Global, held: Instance) -> u32
        requires { self.old.held ≡ None }
        ensures held { MatchBool (nat_eq result 0) (self.new.held ≡ Some held) (self.new.held ≡ None) }
        ensures status { (result ≡ 0) ⊎ (result ≡ value_of InsufficientResources) }
    {
        match Box::new(alloc, held) {
            Ok(held) => {
                self.put(held);
                0
            }
            Err(_) => NtStatus::InsufficientResources.value(),
        }
    }

    /// Takes out what is there.
    pub fn take(&mut self, alloc: Global) -> Box<Instance>
        requires { IsSome self.old.held }
        ensures taken { self.old.held ≡ Some result.value }
        ensures empty { self.new.held ≡ None }
    {
        std::mem::replace(self, Cell::empty(alloc))
            .into_loose()
            .into_box()
    }
}
