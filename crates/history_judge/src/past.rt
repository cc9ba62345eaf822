//! What is kept of a sector to tell more of it than its verdict: nothing is promised of it.

use crate::cell::Told;
use crate::trying::{
    Start, Tried, Try, copies, each_sees, judge_all_starts, judge_tries, new_tries,
};
use crate::waits::{Given, copy_of};
use machine::{Kind, Label};
use ntstatus::NtStatus;
use register::{Contents, Sight};
use register_judge::SoFar;
use std::alloc::{AllocError, Global};
use std::collections::VecDeque;
use std::mem::replace;

/// How many sights are kept, at least.
const LEAST: usize = 32;

/// The last sights of a sector, and the registers before them.
#[derive(Drop)]
pub(crate) struct Past {
    last: VecDeque<Given>,
    /// The sector before them, but for requests that were answered DEVICE_BUSY. There is none while all is kept.
    base: Vec<Try>,
    /// The sector behind some of them, which are let go of when there are enough others.
    middle: Vec<Try>,
    /// How many the middle has taken.
    taken: usize,
    /// The writes that have not ended: before the last sights, at the middle, and now.
    open: Vec<u64>,
    open_then: Vec<u64>,
    open_now: Vec<u64>,
    /// Requests that were answered DEVICE_BUSY, among the last sights or behind them.
    busy: Vec<u64>,
    /// Whether there was one. Then there is no middle any more.
    was_busy: bool,
    /// Whether such a write was called before the last sights.
    is_lost: bool,
    /// Whether nothing explains what is kept.
    is_refused: bool,
}

/// The request that is seen.
pub(crate) fn number_in(sight: &Sight) -> u64 {
    match sight {
        Sight::Write { number, .. }
        | Sight::Read { number, .. }
        | Sight::Done { number }
        | Sight::Failed { number } => *number,
    }
}

/// The same once more.
pub(crate) fn given_again(given: &Given) -> Result<Given, AllocError> {
    Ok(Given {
        line: given.line,
        sight: copy_of(&given.sight)?,
    })
}

/// Whether all of these are refused.
fn are_refused(tries: &[Try]) -> bool {
    tries
        .iter()
        .all(|one| matches!(one.seen.so_far(), SoFar::Refused))
}

/// What these began with.
fn starts_of(alloc: Global, tries: &[Try]) -> Result<Vec<Contents>, AllocError> {
    let mut starts = Vec::new(alloc);
    for one in tries {
        starts.push(one.start.share()?)?;
    }
    Ok(starts)
}

/// Takes out the first of these that is the number.
fn take_out(numbers: &mut Vec<u64>, number: u64) {
    for index in 0..numbers.len() {
        if index < numbers.len() && numbers[index] == number {
            numbers.remove(index);
            return;
        }
    }
}

/// Notes which writes are open.
fn note_open(open: &mut Vec<u64>, sight: &Sight) -> Result<(), AllocError> {
    match sight {
        Sight::Write { number, .. } => open.push(*number)?,
        Sight::Done { number } | Sight::Failed { number } => take_out(open, *number),
        Sight::Read { .. } => {}
    }
    Ok(())
}

impl Past {
    /// Nothing.
    pub fn new(alloc: Global) -> Past {
        Past {
            last: VecDeque::new(alloc),
            base: Vec::new(alloc),
            middle: Vec::new(alloc),
            taken: 0,
            open: Vec::new(alloc),
            open_then: Vec::new(alloc),
            open_now: Vec::new(alloc),
            busy: Vec::new(alloc),
            was_busy: false,
            is_lost: false,
            is_refused: false,
        }
    }

    /// Lets go of what was seen first. The tries have taken it.
    fn let_go(&mut self, alloc: Global, tries: &[Try], given: Given) -> Result<(), AllocError> {
        if self.base.is_empty() {
            let starts = starts_of(alloc, tries)?;
            self.base = new_tries(alloc, starts.as_slice())?;
        }
        let number = number_in(&given.sight);
        if self.is_busy(number) {
            if matches!(given.sight, Sight::Failed { .. }) {
                take_out(&mut self.busy, number);
            }
            return Ok(());
        }
        note_open(&mut self.open, &given.sight)?;
        each_sees(alloc, &mut self.base, &given)
    }

    /// Keeps what is seen last.
    fn keep(&mut self, alloc: Global, tries: &[Try], given: Given) -> Result<(), AllocError> {
        note_open(&mut self.open_now, &given.sight)?;
        self.last.push_back(given)?;
        if !self.was_busy || self.last.len() <= LEAST {
            return Ok(());
        }
        match self.last.pop_front() {
            Some(first) => self.let_go(alloc, tries, first),
            None => Ok(()),
        }
    }

    /// Lets go of what the middle has taken, once there are enough others.
    fn cut(&mut self, alloc: Global, tries: &[Try]) -> Result<(), AllocError> {
        if self.was_busy || self.last.len().saturating_sub(self.taken) < LEAST {
            return Ok(());
        }
        for _ in 0..self.taken {
            self.last.pop_front();
        }
        self.taken = self.last.len();
        self.base = replace(&mut self.middle, copies(alloc, tries)?);
        let open_now = Vec::from_slice(alloc, self.open_now.as_slice())?;
        self.open = replace(&mut self.open_then, open_now);
        Ok(())
    }

    /// What is kept once the tries have taken one sight more.
    pub fn push(&mut self, alloc: Global, tries: &[Try], given: Given) -> Result<(), AllocError> {
        if self.is_refused {
            return Ok(());
        }
        self.keep(alloc, tries, given)?;
        self.is_refused = are_refused(tries);
        self.cut(alloc, tries)
    }

    /// The same of all these.
    pub fn push_all(
        &mut self,
        alloc: Global,
        tries: &[Try],
        given: Vec<Given>,
    ) -> Result<(), AllocError> {
        if self.is_refused {
            return Ok(());
        }
        for one in given {
            self.keep(alloc, tries, one)?;
        }
        self.is_refused = are_refused(tries);
        self.cut(alloc, tries)
    }

    /// Notes a label that is for the sector.
    pub fn note(&mut self, told: Told<'_>) -> Result<(), AllocError> {
        let Label::Answer {
            number,
            status: NtStatus::DeviceBusy,
            ..
        } = told.label
        else {
            return Ok(());
        };
        if !matches!(told.kind, Kind::Write) {
            return Ok(());
        }
        self.is_lost = self.is_lost || self.open.as_slice().contains(number);
        self.was_busy = true;
        self.busy.push(*number)?;
        Ok(())
    }

    /// Whether a write was answered DEVICE_BUSY.
    pub fn was_busy(&self) -> bool {
        self.was_busy
    }

    /// Whether such a write may have had an effect before the last sights.
    pub fn is_lost(&self) -> bool {
        self.is_lost
    }

    /// Whether all that was seen is kept.
    pub fn is_whole(&self) -> bool {
        self.base.is_empty()
    }

    /// Whether a request was answered DEVICE_BUSY.
    pub fn is_busy(&self, number: u64) -> bool {
        self.busy.as_slice().contains(&number)
    }

    /// What is kept, and what is seen behind it.
    pub fn given(&self, alloc: Global, known: Vec<Given>) -> Result<Vec<Given>, AllocError> {
        let mut all = Vec::new(alloc);
        for one in self.last.iter() {
            all.push(given_again(one)?)?;
        }
        for one in known {
            all.push(one)?;
        }
        Ok(all)
    }

    /// What would be known of the sector if this were seen of it in place of what is kept.
    pub fn judge(
        &self,
        alloc: Global,
        start: &Start,
        size: u32,
        given: &[Given],
    ) -> Result<Tried, AllocError> {
        if !self.base.is_empty() {
            return judge_tries(alloc, start.any, size, self.base.as_slice(), given);
        }
        if start.any {
            return judge_all_starts(alloc, size, &start.bytes, given);
        }
        let mut starts = Vec::new(alloc);
        starts.push(start.bytes.share()?)?;
        let tries = new_tries(alloc, starts.as_slice())?;
        judge_tries(alloc, false, size, tries.as_slice(), given)
    }
}
