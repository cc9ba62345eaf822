//! The rules that an act, a fault or a return can break.

use crate::label_rules::Difference;

/// What is asked of an act, and of a fault.
#[derive(Debug, Clone, Copy, PartialEq, Eq)]
pub enum ActRule {
    NoPiece { piece: u128 },
    Before { piece: u128 },
    Length { due: u128, told: u64 },
    /// A write hands over the bytes of its call.
    Write(Difference),
    /// A read brings what stands on the disk.
    Disk(Difference),
    /// The sectors that the judge was given are too few, or of another size.
    NoSectors { piece: u128 },
}

/// What is asked of a return.
#[derive(Debug, Clone, Copy, PartialEq, Eq)]
pub enum ReturnRule {
    NoPiece { piece: u128 },
    /// A piece that comes back good has acted. One that faulted has not.
    GoodWithoutAct { piece: u128 },
    /// A piece that comes back busy has neither acted nor faulted.
    BusyAfterAct { piece: u128 },
    /// SRB_STATUS_SUCCESS and SRB_STATUS_BUSY are no errors.
    GoodCode { piece: u128, srb_status: u8 },
}
