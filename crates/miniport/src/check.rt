//! What is checked of an SRB before its command is carried out.

ghost use Rattle.std.specs.Prelude.{◌≡◌, ◌&&◌, ℕ, List, MatchResult};
ghost use Rattle.miniport.specs.Checking.{disk_with, Fits, IsMisfit, Passes, IsRefused};
ghost use Rattle.miniport.specs.Faults.{flags_for, is_execute, is_write, fits as is_fit};

use crate::completion::{DATA_PROTECT, ILLEGAL_REQUEST, failed_with, not_decoded, was_invalid};
use cdb::{Cdb, Direction, decode};
use sector::Extent;
use srb::{Completion, Srb, SrbFlags, SrbFunction};

/// What decides whether a disk carries out a command, apart from its bad sectors.
#[derive(Clone, Copy, PartialEq, Eq)]
pub(crate) struct Sizes {
    /// Bytes of a sector.
    pub sector_size: u32,
    pub sectors: u64,
    pub write_protected: bool,
}

/// The flags of an SRB whose data have this direction.
fn flags(direction: Direction) -> SrbFlags
    ensures { result.0 ≡ flags_for direction }
{
    match direction {
        Direction::DataIn => SrbFlags::DATA_IN,
        Direction::DataOut => SrbFlags::DATA_OUT,
        Direction::NoData => SrbFlags(0),
    }
}

/// Whether the command is a write, and the disk is write-protected.
fn is_protected(sizes: &Sizes, command: Cdb) -> bool
    ensures { result ≡ (is_write command && sizes.now.write_protected) }
{
    match command.direction() {
        Direction::DataOut => sizes.write_protected,
        Direction::DataIn | Direction::NoData => false,
    }
}

/// Whether the flags and the length of the data are the command's.
fn is_fitting(sizes: &Sizes, srb: &Srb, command: Cdb) -> bool
    ensures { (bad : List ℕ) → result ≡ is_fit (disk_with sizes.now bad) srb.now command }
{
    srb.flags.0 == flags(command.direction()).0
        && srb.data.as_slice().len() as u64 == command.data_length(sizes.sector_size)
}

/// The checks of a command that the SRB's block asks for.
fn check_command(sizes: &Sizes, srb: &Srb, command: Cdb) -> Result<(), Completion>
    ensures { MatchResult result (λ done. Fits sizes.now srb.now command) (IsMisfit sizes.now srb.now command) }
{
    let named = Extent {
        first: command.lba(),
        count: command.blocks() as u64,
    };
    if !named.is_within(sizes.sectors) {
        return Err(failed_with(ILLEGAL_REQUEST, 0x21));
    }
    if !is_fitting(sizes, srb, command) {
        return Err(was_invalid());
    }
    if is_protected(sizes, command) {
        return Err(failed_with(DATA_PROTECT, 0x27));
    }
    Ok(())
}

fn is_for_execution(function: SrbFunction) -> bool
    ensures { result ≡ is_execute function }
{
    match function {
        SrbFunction::ExecuteScsi => true,
        SrbFunction::AbortCommand | SrbFunction::ResetBus => false,
    }
}

/// The command that an SRB asks for, or the completion with which it fails before any sector is looked at.
pub(crate) fn check(sizes: &Sizes, srb: &Srb) -> Result<Cdb, Completion>
    ensures { MatchResult result (Passes sizes.now srb.now) (IsRefused sizes.now srb.now) }
{
    let decoded = decode(srb.block.as_slice());
    if !is_for_execution(srb.function) {
        return Err(was_invalid());
    }
    let command = decoded.map_err(not_decoded)?;
    check_command(sizes, srb, command)?;
    Ok(command)
}
