//! What C tells of a piece that it moved, and whether that is of the piece.

ghost use Rattle.std.specs.Prelude.{◌≡◌, MatchOption};
ghost use Rattle.srb.specs.declared.Class.TheVariants.{Bad};
ghost use Rattle.srb.specs.Fate.{class_of};
ghost use Rattle.saddlemug.specs.Over.{completion_of, piece_of};
ghost use Rattle.saddlemug.specs.Suiting.{SuitsAs, SuitsNone, is_asked, lies_within};

use crate::asked::{Asked, asked_in};
use crate::places::PieceBytes;
use ntstatus::Sense;
use srb::{Class, Completion, Kind, Srb};

/// How a piece failed.
#[repr(C)]
#[derive(Clone, Copy, Default)]
pub struct StackCompletion {
    /// The SRB status (WDK: SRB_STATUS).
    pub srb_status: u8,
    /// The SCSI status (SAM: STATUS).
    pub scsi_status: u8,
    /// Whether there are sense data.
    pub has_sense: bool,
    /// The sense key, the additional sense code and its qualifier (SPC).
    pub key: u8,
    pub asc: u8,
    pub ascq: u8,
}

/// What became of a piece.
#[repr(C)]
#[derive(Clone, Copy)]
pub struct StackBooking {
    /// The low and the high 64 bits of the piece's number.
    pub piece_low: u64,
    pub piece_high: u64,
    /// The number of bytes that were moved; not read for a failure.
    pub length: u64,
    pub tag: u8,
    pub failed: bool,
    /// How the piece failed, for a failure.
    pub completion: StackCompletion,
}

/// The sizes of a disk.
#[derive(Clone, Copy)]
pub(crate) struct DiskOf {
    /// The bytes of a sector, 512 or 4096.
    pub(crate) sector_size: u64,
    pub(crate) sectors: u64,
}

impl StackBooking {
    /// The number of the piece.
    pub(crate) fn piece(&self) -> u128
        ensures { result ≡ piece_of self.now }
    {
        (self.piece_high as u128) << 64 | self.piece_low as u128
    }
}

impl StackCompletion {
    /// The completion, where it is neither good nor busy.
    pub(crate) fn failure(&self) -> Option<Completion>
        ensures { MatchOption result (¬ (class_of (completion_of self.now) ≡ Bad (completion_of self.now))) (λ failure. (failure ≡ completion_of self.now) × (class_of failure ≡ Bad failure)) }
    {
        let completion = self.told();
        match completion.class() {
            Class::Good | Class::Busy => None,
            Class::Bad(_) => Some(completion),
        }
    }

    /// The completion.
    pub(crate) fn told(&self) -> Completion
        ensures { result ≡ completion_of self.now }
    {
        Completion {
            srb_status: self.srb_status,
            scsi_status: self.scsi_status,
            sense: self.sense(),
        }
    }

    fn sense(&self) -> Option<Sense>
        ensures { result ≡ (completion_of self.now).sense }
    {
        self.has_sense.then_some(Sense {
            key: self.key,
            asc: self.asc,
            ascq: self.ascq,
        })
    }
}

/// Returns what an SRB asks for, where an entry of all bytes in this place, this many, may be of its act.
pub(crate) fn asked_of(disk: &DiskOf, srb: &Srb, place: &PieceBytes, count: u64) -> Option<Asked>
    ensures { MatchOption result (SuitsNone disk.now srb.now count place.now) (SuitsAs disk.now srb.now count place.now) }
{
    let bytes = place.bytes.as_slice();
    let asked = asked_in(srb.block.as_slice())?;
    (bytes.len() as u64 == count && is_of(disk, srb.data.as_slice(), &asked, bytes)).then_some(
        asked,
    )
}

/// Whether these bytes are of what was asked for with the data of an SRB.
fn is_of(disk: &DiskOf, srb_data: &[u8], asked: &Asked, bytes: &[u8]) -> bool
    ensures { result ≡ is_asked disk.now.sector_size disk.now.sectors srb_data.now bytes.now asked.now }
{
    match asked.kind {
        Kind::Read => is_within(disk, asked, srb_data) && bytes.len() == srb_data.len(),
        Kind::Write => is_within(disk, asked, srb_data) && bytes == srb_data,
        Kind::Flush => srb_data.len() == 0 && bytes.len() == 0,
    }
}

/// Whether the sectors lie in the disk, and have just these bytes.
fn is_within(disk: &DiskOf, asked: &Asked, srb_data: &[u8]) -> bool
    ensures { result ≡ lies_within disk.now.sector_size disk.now.sectors srb_data.now asked.now }
{
    asked.extent.is_within(disk.sectors)
        && srb_data.len() as u128 == asked.extent.count as u128 * disk.sector_size as u128
}
