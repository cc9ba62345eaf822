//! What is opened over the disk of some settings.

ghost use Rattle.std.specs.Prelude.{◌≡◌, IfErr, IfOk, Some, filter};
ghost use Rattle.std.specs.Result.{result_err};
ghost use Rattle.compose.specs.declared.StartFault.TheVariants.{NoMemory, Settings as WrongSettings};
ghost use Rattle.settings.specs.Rules.{slows};
ghost use Rattle.settings.specs.InRange.{AreInRange};
ghost use Rattle.volume.specs.Sparse.{AreZeros};
ghost use Rattle.volume.specs.declared.OpenFault.TheVariants.{Start as NotStarted};
ghost use Rattle.startup.specs.Started.{IsFirstOf, IsOpenFault, IsSlowed, IsStartFault, IsStartOf, IsVolumeOf, limits_of};

use compose::{Settings, Stack, StartFault};
use disk::SparseDisk;
use injection::Rule;
use miniport::PlannedAdapter;
use settings::{Config, has_slowing, new_adapter, slowing};
use std::alloc::Global;
use volume::{OpenFault, Volume};

/// Starts a stack over a disk that is zeros but for its partition table. Commands fail by the rules of the settings, those
/// of the start too. With `keeps_bytes` its labels keep their bytes in memory; without, contracts alone read these.
///
/// # Errors
///
/// [`StartFault::Settings`] just where there is a rule by which commands come back busy or later, since the caller says
/// when a piece comes back; [`StartFault::Mbr`] with what is wrong with the partitions of the settings,
/// [`StartFault::Device`] where the adapter failed a command, [`StartFault::NoMemory`].
pub fn start(
    alloc: Global,
    config: Config,
    keeps_bytes: bool,
) -> Result<Stack<PlannedAdapter<SparseDisk>>, StartFault>
    requires { AreInRange config }
    ensures view { IfOk result (IsStartOf keeps_bytes config) }
    ensures first { IfOk result (IsFirstOf config) }
    ensures fault { IfErr result (IsStartFault config) }
    ensures refused { IsSlowed config → result_err result ≡ Some WrongSettings }
{
    if has_slowing(config.faults.as_slice()) {
        return Err(StartFault::Settings);
    }
    let settings = limits_of(&config);
    let Ok(adapter) = new_adapter(alloc, config, keeps_bytes) else {
        return Err(StartFault::NoMemory);
    };
    let stack = Stack::start(alloc, adapter, settings)?;
    Ok(stack)
}

/// Opens a volume of a partition, counted from 0, over a stack as that of [`start`], whose labels keep no bytes. After the
/// start commands also come back busy, or take longer, by the rules of the settings that say so.
///
/// # Errors
///
/// [`OpenFault::Start`] with the faults of [`start`] but [`StartFault::Settings`]; [`OpenFault::Refused`] as
/// [`Volume::start`] says.
pub fn open(
    alloc: Global,
    config: Config,
    partition: u8,
) -> Result<Volume<PlannedAdapter<SparseDisk>>, OpenFault>
    requires { AreInRange config }
    ensures volume { IfOk result (IsVolumeOf config partition) }
    ensures zeros { IfOk result (λ volume. AreZeros volume.content.bytes) }
    ensures fault { IfErr result (IsOpenFault config partition) }
{
    let settings = limits_of(&config);
    let rules = slowing_of(alloc, &config)?;
    let Ok(adapter) = new_adapter(alloc, config, false) else {
        return Err(OpenFault::Start(StartFault::NoMemory));
    };
    let volume = Volume::start(alloc, adapter, settings, partition)?;
    Ok(volume.with_rules(rules))
}

/// Returns the rules by which commands come back busy or later.
///
/// # Errors
///
/// [`StartFault::NoMemory`].
fn slowing_of(alloc: Global, config: &Config) -> Result<Vec<Rule>, OpenFault>
    ensures rules { IfOk result (λ rules. rules.items ≡ filter slows config.now.faults.items) }
    ensures fault { IfErr result (λ fault. fault ≡ NotStarted NoMemory) }
{
    match slowing(alloc, config.faults.as_slice()) {
        Ok(rules) => Ok(rules),
        Err(_) => Err(OpenFault::Start(StartFault::NoMemory)),
    }
}

/// Returns how many requests may be open and at work.
pub(crate) fn limits_of(config: &Config) -> Settings
    ensures { result ≡ limits_of config.now }
{
    Settings {
        window: config.window,
        open_requests: config.open_requests,
    }
}
