//! A file that may not be there.

ghost use Rattle.std.specs.Prelude.{◌≡◌, MatchResult};
ghost use Rattle.std.specs.IoError.{error_kind};
ghost use Rattle.startup.specs.declared.file_input.Input.TheVariants.{Opened, Refused};

use std::fs::File;
use std::io;
use std::io::{ErrorKind, Read};
use std::rt::Files;

/// A file that was opened, or why it was not opened, which each read of it says.
#[derive(Drop)]
pub enum Input<F: Read + Drop> {
    /// The file was opened, and is read.
    Opened(F),
    /// The file was not opened, and each read of it fails in this way.
    Refused(ErrorKind),
}

impl<F: Read + Drop> Input<F> {
    /// Returns what became of opening a file.
    pub fn of(opened: io::Result<F>) -> Input<F>
        ensures { MatchResult opened (λ file. result ≡ Opened file) (λ error. result ≡ Refused (error_kind error)) }
    {
        match opened {
            Ok(file) => Input::Opened(file),
            Err(error) => Input::Refused(error.kind()),
        }
    }
}

impl<F: Read + Drop> Read for Input<F> {
    ghost use Rattle.startup.specs.Input.{remaining_of};

    ghost remaining = { remaining_of F.remaining };

    fn read(&mut self, buf: &mut [u8]) -> io::Result<usize> {
        match self {
            Input::Opened(file) => file.read(buf),
            Input::Refused(kind) => Err(io::Error::from(*kind)),
        }
    }
}

/// Opens the file at a path for its reads. Where that fails, each read says so, and there is no error here.
pub fn open_input<R: Files>(rt: &R, path: &str) -> Input<R::File> {
    Input::of(File::open(rt, path))
}
