//! What is wrong with a text of settings, as the programs say it.

ghost use Rattle.std.specs.Prelude.{◌≡◌, ◌⊎◌, [], IfOk, MatchOption};
ghost use Rattle.io_manager.specs.Shown.{ManagerView};
ghost use Rattle.compose.specs.declared.StartFault.{StartFault};
ghost use Rattle.settings.specs.InRange.{AreInRange};
ghost use Rattle.startup.specs.Started.{IsFirstOf, IsStartFault};
ghost use Rattle.startup.specs.Texts.{text_of};
ghost use Rattle.startup.specs.declared.faults.Error.TheVariants.{NoMemory, Start};
ghost use Rattle.saddlemug.specs.Names.{IsPut, IsWhyNone, TellsFault};
ghost use Rattle.saddlemug.specs.Opened.{IsNewStack};

use crate::bytes::put;
use settings::Config;
use startup::{Error, settings_of, start};
use std::alloc::Global;
use std::io;
use std::io::Write;

/// Puts into a buffer, as much of it as has room, why no stack of a text's settings can be started. Answers how long
/// that is: 0 where one can be.
#[unsafe(no_mangle)]
pub extern "C" fn saddlemug_settings_words(alloc: Global, settings: &[u8], buffer: &mut [u8]) -> u64
    ensures { TellsFault settings.now buffer.old result buffer.new }
{
    match fault_of(alloc, settings) {
        Some(fault) => tell(alloc, &fault, buffer),
        None => tell_none(buffer),
    }
}

/// Why there is no stack of a text's settings, if there is none.
fn fault_of(alloc: Global, settings: &[u8]) -> Option<Error>
    ensures { MatchOption result ((v : ManagerView) × IsNewStack settings.now v) (IsWhyNone settings.now) }
{
    match settings_of(alloc, settings) {
        Ok(config) => start_fault(alloc, config),
        Err(fault) => Some(Error::Settings(fault)),
    }
}

/// Why there is no stack of these settings, if there is none.
fn start_fault(alloc: Global, config: Config) -> Option<Error>
    requires { AreInRange config }
    ensures { MatchOption result ((v : ManagerView) × IsFirstOf config v) (λ fault. (why : StartFault) × (fault ≡ Start why) × IsStartFault config why) }
{
    match start(alloc, config, true) {
        Ok(_) => None,
        Err(fault) => Some(Error::Start(fault)),
    }
}

/// Puts the text of a fault into the buffer, or that of want of memory for it.
fn tell(alloc: Global, fault: &Error, buffer: &mut [u8]) -> u64
    ensures { IsPut (text_of fault.now) buffer.old result buffer.new ⊎ IsPut (text_of NoMemory) buffer.old result buffer.new }
{
    match text_of(alloc, fault) {
        Ok(text) => put(buffer, text.as_slice()),
        Err(_) => put(buffer, b"no memory"),
    }
}

fn tell_none(buffer: &mut [u8]) -> u64
    ensures { IsPut [] buffer.old result buffer.new }
{
    put(buffer, &[])
}

fn text_of(alloc: Global, fault: &Error) -> io::Result<Vec<u8>>
    ensures { IfOk result (λ text. text.items ≡ text_of fault.now) }
{
    let mut text = Vec::new(alloc);
    write!(text, "{fault}")?;
    Ok(text)
}
