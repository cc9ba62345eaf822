//! The settings of a disk that nobody gave: its file has its sizes and its partitions.

ghost use Rattle.std.specs.Prelude.{IfOk};
ghost use Rattle.settings.specs.InRange.{AreInRange};

use mbr::parse;
use serving::{Difference, DiskFault, Error};
use settings::Config;
use startup::settings_of;
use std::alloc::Global;
use std::fmt::Write;
use std::fs::File;
use std::os::unix::fs::FileExt;

/// The bytes of a sector.
const SECTOR: u64 = 512;

/// Returns the settings of a disk in a file that ends at this byte: those of a CONFIG that tells of its sectors of 512
/// bytes and of the partitions of its table.
///
/// # Errors
///
/// [`DiskFault::Unreadable`] and [`DiskFault::OtherTable`], by the file's first sector; [`Error::Startup`] where there
/// are no such settings.
pub fn settings_in(alloc: Global, file: &File, end: u64) -> Result<Config, Error>
    ensures { IfOk result AreInRange }
{
    let mut first = [0; SECTOR as usize];
    if file.read_exact_at(&mut first, 0).is_err() {
        return Err(Error::Disk(DiskFault::Unreadable));
    }
    let sectors = end / SECTOR;
    let partitions = match parse(&first, sectors) {
        Ok(partitions) => partitions,
        Err(fault) => {
            let difference = Difference::BadTable(fault);
            return Err(Error::Disk(DiskFault::OtherTable(difference)));
        }
    };
    let mut text = String::new(alloc);
    let told = write!(
        text,
        "sector_size = {SECTOR}\nsectors = {sectors}\nmax_transfer = 2048\ndepth = 32\nwindow = 64\n"
    );
    if told.is_err() {
        return Err(Error::NoMemory);
    }
    for extent in partitions.as_slice() {
        let told = write!(
            text,
            "[[partition]]\nfirst = {}\ncount = {}\n",
            extent.first, extent.count
        );
        if told.is_err() {
            return Err(Error::NoMemory);
        }
    }
    match settings_of(alloc, text.as_bytes()) {
        Ok(settings) => Ok(settings),
        Err(fault) => Err(Error::Startup(startup::Error::Settings(fault))),
    }
}
