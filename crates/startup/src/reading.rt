//! How settings are read.

ghost use Rattle.std.specs.Prelude.{IfErr, IfOk};
ghost use Rattle.settings.specs.Faults.{IsRefusedFor};
ghost use Rattle.settings.specs.InRange.{AreInRange};
ghost use Rattle.settings.specs.Settings.{AreSettingsOf};
ghost use Rattle.startup.specs.Reading.{AreRead, HasFault, IsAllOf, IsUnread, settings_fault};

use crate::Error;
use crate::ending::fault_of;
use settings::{Config, ConfigFault, document};
use std::alloc::Global;
use std::io;
use std::io::Read;

/// Reads the settings that an input gives.
///
/// # Errors
///
/// [`Error::ConfigUnreadable`] where the input can't be read; [`Error::Settings`] as [`settings_of`] says;
/// [`Error::NoMemory`].
pub fn read_settings<R: Read + Drop>(alloc: Global, input: R) -> Result<Config, Error>
    ensures in_range { IfOk result AreInRange }
    ensures read { IfOk result (AreRead (R.remaining input)) }
    ensures fault { IfErr result IsUnread }
    ensures told { IfErr result (HasFault (R.remaining input)) }
{
    match contents(alloc, input) {
        Ok(text) => Ok(settings_of(alloc, text.as_slice())?),
        Err(error) => Err(fault_of(&error, Error::ConfigUnreadable)),
    }
}

/// Reads the settings of a text.
///
/// # Errors
///
/// As [`document::config`]; [`ConfigFault::NotToml`] where the text is not UTF-8.
pub fn settings_of(alloc: Global, text: &[u8]) -> Result<Config, ConfigFault>
    ensures in_range { IfOk result AreInRange }
    ensures settings { IfOk result (AreSettingsOf text.now) }
    ensures fault { IsRefusedFor (settings_fault text.now) result }
{
    match std::str::from_utf8(text) {
        Ok(text) => document::config(alloc, text),
        Err(_) => Err(ConfigFault::NotToml),
    }
}

/// Reads all bytes of an input.
///
/// # Errors
///
/// The error of the first read that failed, or of memory that was refused.
pub fn contents<R: Read + Drop>(alloc: Global, mut input: R) -> io::Result<Vec<u8>>
    ensures { IfOk result (λ bytes. IsAllOf (R.remaining input) bytes.items) }
{
    let mut bytes = Vec::new(alloc);
    match input.read_to_end(&mut bytes) {
        Ok(_) => Ok(bytes),
        Err(error) => Err(error),
    }
}
