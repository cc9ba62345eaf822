//! A client of a filter: what a filter has beside the calls of a layer.

ghost use Rattle.std.specs.Prelude.{◌≡◌, ◌≤◌, false};
ghost use Rattle.part_tests.specs.Known.{IsKnown};

use crate::session::{Session, assert_wanted};
use crate::steps::Step;
use device::{Device, Hold};
use hold_filter::Filter;
use irp::Driver;
use sector::Extent;
use std::alloc::{AllocError, Global};
use std::process::Abort;

/// A layer that tells how many packets it holds.
pub(crate) trait Holds: Hold {
    fn count_held(&self) -> usize;
}

impl<D: Device> Holds for Filter<D> {
    fn count_held(&self) -> usize {
        self.held()
    }
}

impl<'a, D: Holds> Session<'a, D> {
    fn pause(&mut self) -> bool {
        if self.paused || self.removed {
            return false;
        }
        self.device.pause();
        self.paused = true;
        true
    }

    /// Ends a pause, and checks that nothing that has ended waits then.
    fn resume(&mut self, rt: &impl Abort) -> bool {
        if !self.paused {
            return false;
        }
        let None = self.device.take_done() else {
            panic!(rt; "a packet that has ended waits");
        };
        self.device.resume();
        self.paused = false;
        true
    }

    /// Takes one step, and returns whether it answered what it must.
    fn carry_out_held(
        &mut self,
        rt: &impl Abort,
        alloc: Global,
        step: &Step,
    ) -> Result<bool, AllocError> {
        match step {
            Step::Holds(count) => Ok(self.device.count_held() == *count),
            Step::Pause => Ok(self.pause()),
            Step::Resume => Ok(self.resume(rt)),
            step => self.carry_out(rt, alloc, step),
        }
    }
}

/// Takes all steps in turn, on a filter of which nothing was asked yet.
pub(crate) fn try_all_held<D: Holds>(
    rt: &impl Abort,
    alloc: Global,
    filter: D,
    partitions: &[Extent],
    steps: &[Step],
) -> Result<(), AllocError>
    requires locations { D.stack_size ≤ 4 }
    requires known { IsKnown (D.view filter) partitions.now 1 false false }
{
    let mut session = Session::new(filter, Driver::Filter, partitions);
    for (n, step) in steps.iter().enumerate() {
        let as_wanted = session.carry_out_held(rt, alloc, step)?;
        assert_wanted(rt, n, as_wanted);
    }
    Ok(())
}
