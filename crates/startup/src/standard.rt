//! The standard descriptors of a program that opens files.

use std::fs::File;
use std::io;
use std::rt::Files;

/// The null device, opened so often that none of the descriptors 0, 1 and 2 is free while it is held.
#[derive(Drop)]
pub struct Standard<F: Drop> {
    pub first: F,
    pub second: F,
    pub third: F,
}

/// Takes the standard descriptors that are closed, so that no file that is opened later gets the number of one. The
/// system gives the lowest free number, so that three files are enough. They are opened for reading alone: a write to
/// a closed output still fails.
///
/// # Errors
///
/// The error of the first open that failed. A file that is opened then may take the place of a closed output.
pub fn hold_standard<R: Files>(rt: &R) -> io::Result<Standard<R::File>> {
    let first = null_device(rt)?;
    let second = null_device(rt)?;
    let third = null_device(rt)?;
    Ok(Standard {
        first,
        second,
        third,
    })
}

fn null_device<R: Files>(rt: &R) -> io::Result<R::File> {
    File::open(rt, "/dev/null")
}
