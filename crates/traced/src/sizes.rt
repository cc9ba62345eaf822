//! The sizes of a stack.

ghost use Rattle.std.specs.Prelude.{◌≡◌, ◌<◌, ◌^◌};
ghost use Rattle.traced.specs.Sizes.{AreSizes};
ghost use Rattle.traced.specs.inside.Sizes.{brought_by, labels_of_call, labels_of_transfer};

use compose::Event;

/// The sizes of a stack, by which the labels of its events are counted.
#[derive(Clone, Copy)]
pub struct StackSizes {
    /// Bytes of a sector.
    pub sector_size: u32,
    /// Sectors of the disk.
    pub sectors: u64,
    /// Sectors of the longest request.
    pub longest: u32,
    /// Sectors of the longest piece.
    pub max_transfer: u32,
    /// Busy returns that end a request.
    pub busy_limit: u32,
}

impl StackSizes {
    /// Returns how many labels an event may bring, now and later, that were not counted before it.
    pub(crate) fn labels_for(&self, event: &Event) -> usize
        requires { AreSizes self.now }
        ensures { result ≡ brought_by self.now event.now }
    {
        match event {
            Event::Read { buffer, .. } => self.labels_of_transfer(buffer.len()),
            Event::Write { bytes, .. } => self.labels_of_transfer(bytes.len()),
            Event::Flush { .. } => self.labels_of_call(1),
            Event::QueryRemove => 2,
            _ => 0,
        }
    }

    // The labels of a read or a write of this many bytes.
    fn labels_of_transfer(&self, bytes: usize) -> usize
        requires { AreSizes self.now }
        ensures { result ≡ labels_of_transfer self.now bytes }
    {
        let sectors = bytes / self.sector_size as usize;
        self.labels_of_call(sectors.min(self.longest as usize))
    }

    // The labels of a request of this many places.
    fn labels_of_call(&self, places: usize) -> usize
        requires few { places < 2 ^ 32 }
        requires sizes { AreSizes self.now }
        ensures { result ≡ labels_of_call self.now places }
    {
        let most = self.max_transfer as usize;
        let last = if places % most == 0 { 0 } else { 1 };
        let restarts = (self.busy_limit as usize).saturating_sub(1);
        3 * (places / most + last) + 2 * restarts + 3
    }
}
