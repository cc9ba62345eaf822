//! How many runs were made, and how many were wrong.

use crate::playing::Told;
use crate::verdicts::Wrong;
use std::fmt;

/// A run of a sweep.
#[derive(Clone, Copy)]
pub enum Case {
    /// The run with this put in before the step of this place, counted from 0, or behind the last.
    Inserted { what: &'static str, before: usize },
    /// The run in which the act of this number fails, counted from 0.
    Failing { act: u64 },
    /// The random run of this seed.
    Seeded { seed: u64 },
}

impl fmt::Display for Case {
    fn fmt<W: fmt::Write>(&self, f: &mut fmt::Formatter<W>) -> fmt::Result {
        match self {
            Case::Inserted { what, before } => write!(f, "{what} before step {before}"),
            Case::Failing { act } => write!(f, "act {act} fails"),
            Case::Seeded { seed } => write!(f, "seed {seed}"),
        }
    }
}

/// What a sweep has counted so far.
#[derive(Clone, Copy)]
pub struct Tally {
    pub runs: u64,
    /// How many runs had a stack that started.
    pub started: u64,
    pub labels: u64,
    pub wrong: u64,
    /// The first wrong run.
    pub first: Option<(Case, Wrong)>,
}

impl Tally {
    /// The tally of no runs.
    pub fn new() -> Tally {
        Tally {
            runs: 0,
            started: 0,
            labels: 0,
            wrong: 0,
            first: None,
        }
    }

    /// Counts one run more.
    pub fn add_run(&mut self, case: Case, told: &Told, wrong: Option<Wrong>) {
        self.started = self.started.saturating_add(told.is_started as u64);
        self.labels = self.labels.saturating_add(told.labels.len() as u64);
        self.add(case, wrong);
    }

    fn add(&mut self, case: Case, wrong: Option<Wrong>) {
        self.runs = self.runs.saturating_add(1);
        if let Some(wrong) = wrong {
            self.wrong = self.wrong.saturating_add(1);
            self.first = self.first.or(Some((case, wrong)));
        }
    }
}
