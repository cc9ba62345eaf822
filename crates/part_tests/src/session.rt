//! A client of one layer, each call by the contract of a layer.

ghost use Rattle.std.specs.Prelude.{◌≡◌, ◌≤◌, false};
ghost use Rattle.part_tests.specs.Known.{IsKnown};

use crate::asked::{Form, assert_askable, packet_for};
use crate::steps::{Step, Told, is_told, is_up, request_of};
use device::{Device, Kind, Request, Shown};
use irp::Driver;
use sector::Extent;
use std::alloc::{AllocError, Global};
use std::marker::Model;
use std::process::Abort;

/// A layer, and what its client knows of it.
#[derive(Drop)]
pub(crate) struct Session<'a, D: Shown> {
    pub(crate) device: D,
    form: Form,
    partitions: &'a [Extent],
    /// The next number to be given.
    next: u64,
    /// The spot of each packet's room, by the packet's number.
    spots: [usize; 65],
    pub(crate) paused: bool,
    pub(crate) removed: bool,
}

impl<'a, D: Shown> Model for Session<'a, D> {
    ghost use Rattle.std.specs.Prelude.{◌≡◌, ◌≤◌, ℕ};
    ghost use Rattle.part_tests.specs.Known.{IsKnown};

    ghost Value = { ℕ };

    ghost view = { λ s. s.next };

    ghost invariant = { λ s. record {
      form : s.form.takes_srb ≡ D.takes_srb;
      locations : D.stack_size ≤ 4;
      known : IsKnown (D.view s.device) s.partitions.now s.next s.paused s.removed;
    } };
}

impl<'a, D: Device> Session<'a, D> {
    /// A client of a layer of which nothing was asked yet; its packets have the location of this driver.
    pub(crate) fn new(device: D, driver: Driver, partitions: &'a [Extent]) -> Session<'a, D>
        requires locations { D.stack_size ≤ 4 }
        requires known { IsKnown (D.view device) partitions.now 1 false false }
    {
        Session {
            device,
            form: Form {
                driver,
                takes_srb: D::TAKES_SRB,
            },
            partitions,
            next: 1,
            spots: [0; 65],
            paused: false,
            removed: false,
        }
    }

    /// Sends a request down under the next number. Where memory for it was refused, none goes.
    fn submit(
        &mut self,
        rt: &impl Abort,
        alloc: Global,
        request: &Request,
        byte: u8,
    ) -> Result<(), AllocError> {
        let number = self.next;
        assert!(rt; !self.removed && number < 65);
        let longest = self.device.longest();
        assert_askable(rt, self.partitions, longest, request);
        let irp = packet_for(
            alloc,
            self.form,
            number,
            self.partitions,
            longest,
            request,
            byte,
        )?;
        let room = self.device.reserve(request)?;
        self.spots[number as usize] = room.spot;
        self.device.submit(irp, room);
        self.next = number + 1;
        Ok(())
    }

    /// Makes room for a request, and gives it back.
    fn reserve(&mut self, rt: &impl Abort, request: &Request) -> Result<(), AllocError> {
        let longest = self.device.longest();
        assert_askable(rt, self.partitions, longest, request);
        let room = self.device.reserve(request)?;
        self.device.free(room);
        Ok(())
    }

    /// Whether the earliest label is the one that is wanted.
    fn tells_one(&mut self, want: &Told) -> bool {
        is_told(self.device.take_label(), want)
    }

    fn tells_no_more(&mut self) -> bool {
        self.device.take_label().is_none()
    }

    /// Whether just these labels are there.
    fn tells(&mut self, want: &[Told]) -> bool {
        for told in want {
            if !self.tells_one(told) {
                return false;
            }
        }
        self.tells_no_more()
    }

    /// Acts on a tag. Returns whether no label was left from before and the tag had a piece that did nothing, as is
    /// wanted.
    fn act(&mut self, tag: u8, want: bool) -> bool {
        self.device.take_label().is_none() && self.device.act(tag) == want
    }

    /// Takes the piece of a tag back. Returns whether no label was left from before and there was a piece, as is
    /// wanted.
    fn finish(&mut self, tag: u8, want: bool) -> bool {
        self.device.take_label().is_none() && self.device.finish(tag) == want
    }

    /// Resets the adapter. Returns whether no label was left from before.
    fn reset(&mut self) -> bool {
        if self.device.take_label().is_some() {
            return false;
        }
        self.device.reset();
        true
    }

    fn forget(&mut self) -> bool {
        self.device.forget_labels();
        true
    }

    fn cancel(&mut self, number: u64) -> bool {
        self.device.cancel(number as u128);
        true
    }

    fn cancel_at(&mut self, of: u64, number: u64) -> bool {
        let spot = self.spots[(of % 65) as usize];
        self.device.cancel_at(spot, number as u128);
        true
    }

    fn drain(&mut self) -> bool {
        self.device.drain();
        self.paused = false;
        self.removed = true;
        true
    }

    /// Takes what comes up, gives its room back, and returns whether it is as a step wants it.
    fn comes_up(&mut self, step: &Step) -> bool {
        let takes_srb = self.form.takes_srb;
        let Some((climb, room)) = self.device.take_done() else {
            return matches!(step, Step::NoneDone);
        };
        self.device.free(room);
        is_up(climb, takes_srb, step)
    }

    fn has_sizes(&self, volumes: u8, sectors: &[u64; 3], longest: u64, most: u128) -> bool {
        self.device.volumes() == volumes
            && self.device.sectors(0) == sectors[0]
            && self.device.sectors(1) == sectors[1]
            && self.device.sectors(2) == sectors[2]
            && self.device.longest() == longest
            && self.device.most() == most
    }

    /// Takes a step that ends packets or looks at what there is, and returns whether it answered what it must.
    fn ends(&mut self, step: &Step) -> bool {
        match step {
            Step::Cancel(number) => self.cancel(*number),
            Step::CancelAt(of, number) => self.cancel_at(*of, *number),
            Step::Drain => self.drain(),
            Step::Sizes(volumes, sectors, longest, most) => {
                self.has_sizes(*volumes, sectors, *longest, *most)
            }
            step => self.comes_up(step),
        }
    }

    /// Takes one step that takes no memory, and returns whether it answered what it must. A filter's own step does not.
    fn follows(&mut self, step: &Step) -> bool {
        match step {
            Step::Act(tag, want) => self.act(*tag, !want.is_empty()) && self.tells(want),
            Step::Finish(tag, want) => self.finish(*tag, !want.is_empty()) && self.tells(want),
            Step::Reset(want) => self.reset() && self.tells(want),
            Step::Tells(want) => self.tells(want),
            Step::Forget => self.forget(),
            step => self.ends(step),
        }
    }

    /// Takes one step, and returns whether it answered what it must.
    pub(crate) fn carry_out(
        &mut self,
        rt: &impl Abort,
        alloc: Global,
        step: &Step,
    ) -> Result<bool, AllocError> {
        match step {
            Step::Submit(volume, kind, first, count, byte) => {
                let request = request_of(*volume, *kind, *first, *count);
                self.submit(rt, alloc, &request, *byte)?;
                Ok(true)
            }
            Step::Reserve(volume, kind, first, count) => {
                self.reserve(rt, &request_of(*volume, *kind, *first, *count))?;
                Ok(true)
            }
            step => Ok(self.follows(step)),
        }
    }
}

/// Ends the test, and names the step, where it did not answer what it must.
pub(crate) fn assert_wanted(rt: &impl Abort, n: usize, as_wanted: bool) {
    assert!(rt; as_wanted, "step {n}, counted from 0");
}

/// Takes all steps in turn, on a layer of which nothing was asked yet.
pub(crate) fn try_all<D: Device>(
    rt: &impl Abort,
    alloc: Global,
    device: D,
    driver: Driver,
    partitions: &[Extent],
    steps: &[Step],
) -> Result<(), AllocError>
    requires locations { D.stack_size ≤ 4 }
    requires known { IsKnown (D.view device) partitions.now 1 false false }
{
    let mut session = Session::new(device, driver, partitions);
    for (n, step) in steps.iter().enumerate() {
        let as_wanted = session.carry_out(rt, alloc, step)?;
        assert_wanted(rt, n, as_wanted);
    }
    Ok(())
}
