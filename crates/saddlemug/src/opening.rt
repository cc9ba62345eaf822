//! What settings open.

ghost use Rattle.std.specs.Prelude.{◌≡◌, ◌≢◌, IfErr, IfOk};
ghost use Rattle.ntstatus.specs.declared.NtStatus.TheVariants.{Success};
ghost use Rattle.settings.specs.InRange.{AreInRange};
ghost use Rattle.settings.specs.Settings.{AreSettingsOf};
ghost use Rattle.startup.specs.Started.{IsFirstOf, IsVolumeOf};
ghost use Rattle.saddlemug.specs.Opened.{IsConfigStatus, IsNewStack, IsNewVolume, IsOpenStatus, IsStackStatus, IsStartStatus, IsVolumeStatus};
ghost use Rattle.saddlemug.specs.Statuses.{start_status};

use crate::memory_stack::MemoryStack;
use crate::memory_volume::MemoryVolume;
use crate::status::{refusal_status, start_status};
use compose::StartFault;
use ntstatus::NtStatus;
use settings::{Config, ConfigFault};
use startup::{open, settings_of, start};
use std::alloc::Global;
use volume::OpenFault;

/// Opens a partition, counted from 0, of a disk of zeros with the partition table of a text's settings.
///
/// # Errors
///
/// As [`config_of`], [`start_status`] and [`volume::Volume::open`] say.
pub(crate) fn new_volume(
    alloc: Global,
    text: &[u8],
    partition: u8,
) -> Result<MemoryVolume, NtStatus>
    ensures volume { IfOk result (IsNewVolume text.now partition) }
    ensures fault { IfErr result (λ status. status ≢ Success) }
    ensures why { IfErr result (IsVolumeStatus text.now partition) }
{
    let config = config_of(alloc, text)?;
    volume_of(alloc, config, partition)
}

/// Starts a stack over a disk of zeros with the partition table of a text's settings.
///
/// # Errors
///
/// As [`config_of`] and [`start_status`] say.
pub(crate) fn new_stack(alloc: Global, text: &[u8]) -> Result<MemoryStack, NtStatus>
    ensures stack { IfOk result (IsNewStack text.now) }
    ensures fault { IfErr result (λ status. status ≢ Success) }
    ensures why { IfErr result (IsStackStatus text.now) }
{
    let config = config_of(alloc, text)?;
    stack_of(alloc, config)
}

/// Reads the settings of a text.
///
/// # Errors
///
/// [`NtStatus::InvalidParameter`] where the text gives none; [`NtStatus::InsufficientResources`] where memory was
/// refused.
pub(crate) fn config_of(alloc: Global, text: &[u8]) -> Result<Config, NtStatus>
    ensures settings { IfOk result (AreSettingsOf text.now) }
    ensures in_range { IfOk result AreInRange }
    ensures fault { IfErr result (λ status. status ≢ Success) }
    ensures why { IfErr result (IsConfigStatus text.now) }
{
    match settings_of(alloc, text) {
        Ok(config) => Ok(config),
        Err(ConfigFault::NoMemory) => Err(NtStatus::InsufficientResources),
        Err(_) => Err(NtStatus::InvalidParameter),
    }
}

/// Opens a partition of the disk of some settings.
///
/// # Errors
///
/// As [`start_status`] and [`volume::Volume::open`] say.
pub(crate) fn volume_of(
    alloc: Global,
    config: Config,
    partition: u8,
) -> Result<MemoryVolume, NtStatus>
    requires { AreInRange config }
    ensures volume { IfOk result (IsVolumeOf config partition) }
    ensures fault { IfErr result (λ status. status ≢ Success) }
    ensures why { IfErr result (IsOpenStatus config partition) }
{
    match open(alloc, config, partition) {
        Ok(volume) => Ok(MemoryVolume::new(alloc, volume)),
        Err(OpenFault::Start(fault)) => Err(start_status(fault)),
        Err(OpenFault::Refused(reason)) => Err(refusal_status(reason)),
    }
}

/// Starts a stack over the disk of some settings.
///
/// # Errors
///
/// As [`start_status`] says.
pub(crate) fn stack_of(alloc: Global, config: Config) -> Result<MemoryStack, NtStatus>
    requires { AreInRange config }
    ensures stack { IfOk result (IsFirstOf config) }
    ensures fault { IfErr result (λ status. status ≢ Success) }
    ensures why { IfErr result (IsStartStatus config) }
{
    match start(alloc, config, true) {
        Ok(stack) => Ok(MemoryStack::new(stack)),
        Err(fault) => Err(start_status(fault)),
    }
}
