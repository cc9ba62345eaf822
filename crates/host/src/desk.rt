//! The host as the desk of its lanes: a lane's piece acts under the journal's lock alone, and then its act is booked.

ghost use Rattle.std.specs.Prelude.{◌≡◌, IfSome};
ghost use Rattle.srb.specs.declared.Class.TheVariants.{Bad};
ghost use Rattle.srb.specs.Fate.{class_of};

use crate::condvars::Concerned;
use crate::host::Host;
use crate::kept::KeptBook;
use crate::name::HostNaming;
use compose::{Event, Reply};
use disk::Medium;
use lanes::{Desk, Signals, Step, Turn};
use machine::Label;
use srb::{Completion, DeviceLabel};
use std::sync::{Mutex, Wait};

/// What the trace has told of the tags.
#[derive(Drop)]
struct Tags {
    // How many labels were looked at.
    seen: usize,
    // By tag: whether a piece was started of which no lane was told.
    started: [bool; 32],
    removed: bool,
}

impl Tags {
    /// Looks at the labels that have come since the last look.
    fn catch_up<N: HostNaming>(&mut self, book: &KeptBook<N>) {
        for place in self.seen..book.len() {
            match &book.entry(place).label {
                Label::Device(DeviceLabel::Start { tag, .. }) => self.start(*tag),
                Label::Removed => self.removed = true,
                _ => {}
            }
        }
        self.seen = book.len();
    }

    fn start(&mut self, tag: u8) {
        if let Some(started) = self.started.get_mut(usize::from(tag)) {
            *started = true;
        }
    }

    /// Returns what a tag's lane has to do next, if anything. It is told of a piece once.
    fn take(&mut self, tag: u8) -> Option<Step> {
        if let Some(started) = self.started.get_mut(usize::from(tag)) {
            if *started {
                *started = false;
                return Some(Step::Ready);
            }
        }
        if self.removed {
            Some(Step::Ended)
        } else {
            None
        }
    }
}

/// The tags, under a lock that only a holder of the book's lock takes.
#[derive(Drop)]
pub(crate) struct SharedTags {
    tags: Mutex<Tags>,
}

impl SharedTags {
    /// The tags of a trace with no label.
    pub(crate) fn blank() -> SharedTags {
        SharedTags {
            tags: Mutex::new(Tags {
                seen: 0,
                started: [false; 32],
                removed: false,
            }),
        }
    }

    fn take<N: HostNaming, R: Wait>(&self, rt: &R, book: &KeptBook<N>, tag: u8) -> Option<Step> {
        let mut tags = self.tags.lock(rt);
        tags.catch_up(book);
        tags.take(tag)
    }
}

impl<M: Medium, N: HostNaming> Host<M, N> {
    // Lets the piece of a tag act in the journal, under the journal's lock alone. Returns how it failed, where it did.
    fn transfer<R: Wait>(&self, rt: &R, tag: u8) -> Option<Completion>
        ensures { IfSome result (λ completion. class_of completion ≡ Bad completion) }
    {
        let mut journal = self.journal.lock(rt);
        let piece = journal.armed(tag)?.piece;
        match journal.act(&self.words, tag, piece)? {
            Ok(_) => None,
            Err(completion) => Some(completion),
        }
    }

    // Books the act of a tag whose piece failed so in the journal, or acted there.
    fn book_act<R: Wait>(
        &self,
        rt: &R,
        book: &mut KeptBook<N>,
        tag: u8,
        failed: Option<Completion>,
    ) -> Reply
        requires { IfSome failed (λ completion. class_of completion ≡ Bad completion) }
    {
        match failed {
            Some(completion) => book.act_failed(rt, &self.beside(), tag, completion),
            None => self.step_in(rt, book, Event::Act { tag }),
        }
    }

    fn act_in<R: Wait>(
        &self,
        rt: &R,
        book: &mut KeptBook<N>,
        tag: u8,
        failed: Option<Completion>,
    ) -> Concerned
        requires { IfSome failed (λ completion. class_of completion ≡ Bad completion) }
    {
        let from = book.len();
        self.book_act(rt, book, tag, failed);
        Concerned::since(book, from)
    }

    // Books its finish as well.
    fn complete_in<R: Wait>(
        &self,
        rt: &R,
        book: &mut KeptBook<N>,
        tag: u8,
        failed: Option<Completion>,
    ) -> Concerned
        requires { IfSome failed (λ completion. class_of completion ≡ Bad completion) }
    {
        let from = book.len();
        self.book_act(rt, book, tag, failed);
        self.step_in(rt, book, Event::Finish { tag });
        Concerned::since(book, from)
    }
}

impl<M: Medium, N: HostNaming> Desk for Host<M, N> {
    fn next<R: Wait>(&self, rt: &R, tag: u8) -> Step {
        let mut book = self.book.lock(rt);
        for _ in rt.forever() {
            if let Some(step) = self.tags.take(rt, &book, tag) {
                return step;
            }
            book = self.condvars.lane(tag).wait(rt, book);
        }
        unreachable!()
    }

    fn act<R: Wait>(&self, rt: &R, tag: u8) {
        let failed = self.transfer(rt, tag);
        let concerned = self.act_in(rt, &mut self.book.lock(rt), tag, failed);
        self.condvars.notify(rt, concerned);
    }

    fn finish<R: Wait>(&self, rt: &R, tag: u8) {
        self.step(rt, Event::Finish { tag });
    }

    fn act_in_turn<R: Wait>(&self, rt: &R, tag: u8, turn: &Turn) -> bool {
        let failed = self.transfer(rt, tag);
        let taken = turn.try_take();
        let concerned = match &taken {
            Some(_) => self.complete_in(rt, &mut self.book.lock(rt), tag, failed),
            None => self.act_in(rt, &mut self.book.lock(rt), tag, failed),
        };
        self.condvars.notify(rt, concerned);
        taken.is_some()
    }

    fn signal<R: Wait>(&self, rt: &R) {
        self.condvars.notify_worker(rt);
    }

    fn wait_for_signal<R: Wait>(&self, rt: &R, seen: u64) -> Signals {
        self.condvars.wait_for_signal(rt, seen)
    }
}
