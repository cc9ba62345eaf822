//! What a command asks for.

use cdb::Cdb;
use machine::Kind;
use std::fmt;

/// What a command asks for, in sectors; a flush counts as one.
#[derive(Clone, Copy)]
pub(crate) struct Asked {
    pub kind: Kind,
    pub first: u64,
    pub count: u64,
    pub through: bool,
}

/// Returns what a command asks for, if it is a transfer of some sectors or a flush.
pub(crate) fn asked_by(command: Option<Cdb>) -> Option<Asked> {
    let (kind, first, count, through) = match command? {
        Cdb::Read10 { lba, count, fua } => (Kind::Read, u64::from(lba), u64::from(count), fua),
        Cdb::Write10 { lba, count, fua } => (Kind::Write, u64::from(lba), u64::from(count), fua),
        Cdb::Read16 { lba, count, fua } => (Kind::Read, lba, u64::from(count), fua),
        Cdb::Write16 { lba, count, fua } => (Kind::Write, lba, u64::from(count), fua),
        Cdb::Sync10 { .. } | Cdb::Sync16 { .. } => (Kind::Flush, 0, 1, false),
        _ => return None,
    };
    if count == 0 {
        return None;
    }
    Some(Asked {
        kind,
        first,
        count,
        through,
    })
}

/// A command in words.
#[derive(Clone, Copy)]
pub(crate) struct Command(pub Option<Cdb>);

impl fmt::Display for Command {
    fn fmt<W: fmt::Write>(&self, f: &mut fmt::Formatter<W>) -> fmt::Result {
        f.write_str(word_of(self.0))?;
        match asked_by(self.0) {
            Some(asked) if asked.kind != Kind::Flush => {
                let through = if asked.through { " FUA" } else { "" };
                write!(f, " of {} from {}{through}", asked.count, asked.first)
            }
            _ => Ok(()),
        }
    }
}

fn word_of(command: Option<Cdb>) -> &'static str {
    match command {
        None => "no command",
        Some(Cdb::Read10 { .. }) => "READ(10)",
        Some(Cdb::Write10 { .. }) => "WRITE(10)",
        Some(Cdb::Read16 { .. }) => "READ(16)",
        Some(Cdb::Write16 { .. }) => "WRITE(16)",
        Some(Cdb::Sync10 { .. }) => "SYNCHRONIZE CACHE(10)",
        Some(Cdb::Sync16 { .. }) => "SYNCHRONIZE CACHE(16)",
        Some(Cdb::ReadCapacity10) => "READ CAPACITY(10)",
        Some(Cdb::ReadCapacity16 { .. }) => "READ CAPACITY(16)",
    }
}
