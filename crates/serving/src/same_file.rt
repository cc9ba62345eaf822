//! What is told as one file and is another.

ghost use Rattle.std.specs.Prelude.{◌≡◌};
ghost use Rattle.std.specs.Result.{result_err};
ghost use Rattle.serving.specs.Faults.{is_same, same_fault};

use crate::faults::{DiskFault, Error};

/// Which file of the system it is: two paths with the same numbers lead to one file.
#[derive(Debug, Clone, Copy)]
pub struct Inode {
    pub device: u64,
    pub number: u64,
}

/// Looks at the file that has a disk, and at those that have the settings and take the output, as far as they are known.
///
/// # Errors
///
/// [`DiskFault::IsConfig`] and [`DiskFault::IsOutput`], where the disk's file is that one.
pub fn check_apart(disk: Inode, config: Option<Inode>, output: Option<Inode>) -> Result<(), Error>
    ensures { result_err result ≡ same_fault disk config output }
{
    if is_same(disk, config) {
        return Err(Error::Disk(DiskFault::IsConfig));
    }
    if is_same(disk, output) {
        return Err(Error::Disk(DiskFault::IsOutput));
    }
    Ok(())
}

/// Returns whether the other file is known, and is the same.
fn is_same(file: Inode, other: Option<Inode>) -> bool
    ensures { result ≡ is_same file other }
{
    match other {
        Some(other) => file.device == other.device && file.number == other.number,
        None => false,
    }
}
