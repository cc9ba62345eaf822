//! A desk at which requests are answered in another order than they were read.

use nbd::{Answer, Desk, End, Happening, ReplyError};
use std::alloc::Global;

/// How far a desk has come.
#[derive(Debug, Clone, Copy, PartialEq, Eq)]
pub enum Stage {
    Fresh,
    OneRead,
    BothRead,
    PassedOn,
    OneTold,
    BothTold,
}

/// A desk at which two requests are read, and the second is answered first.
#[derive(Drop)]
pub struct Told {
    alloc: Global,
    stage: Stage,
    /// How often it was handed memory.
    handed: u64,
}

impl Desk for Told {
    ghost use Rattle.std.specs.Prelude.{◌≡◌, None};
    ghost use Rattle.library_tests.specs.Desks.{said_at};

    ghost remaining = { λ _. None };

    ghost Since = { λ first account desk. account ≡ said_at desk.stage };

    fn next(&mut self) -> Happening {
        match self.stage {
            Stage::Fresh => {
                self.stage = Stage::OneRead;
                Happening::Read
            }
            Stage::OneRead => {
                self.stage = Stage::BothRead;
                Happening::Read
            }
            Stage::BothRead => {
                self.stage = Stage::PassedOn;
                Happening::Idle
            }
            Stage::PassedOn => {
                self.stage = Stage::OneTold;
                Happening::Answered {
                    place: 1,
                    cookie: 8,
                    answer: Answer::Refused(ReplyError::Eio),
                }
            }
            Stage::OneTold => {
                self.stage = Stage::BothTold;
                Happening::Answered {
                    place: 0,
                    cookie: 7,
                    answer: Answer::Data(Vec::new(self.alloc)),
                }
            }
            Stage::BothTold => Happening::Ended(End::Input),
        }
    }

    fn take_back(&mut self, bytes: Vec<u8>) {
        drop(bytes);
        self.handed = self.handed.saturating_add(1);
    }
}

impl Told {
    /// A desk at which nothing has happened yet.
    pub fn new(alloc: Global) -> Told {
        Told {
            alloc,
            stage: Stage::Fresh,
            handed: 0,
        }
    }

    /// How often it was handed memory.
    pub fn handed(&self) -> u64 {
        self.handed
    }
}
