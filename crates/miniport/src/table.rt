//! The tags of the adapter in memory, its counts and its record of labels.

ghost use Rattle.std.specs.Prelude.{◌≡◌, ◌≤◌, ◌<◌, ◌^◌, ◌+◌, ◌++◌, ◌∷◌, [], List, ℕ, Some, None, is_some, IsTrue, IfOk, IfSome, length, replicate, get_or, slice_set, map, option_map, All, true, false, vec_len, Ok, MatchBool, MatchOption, if◌then◌else◌};
ghost use Rattle.std.specs.VecDeque.{deque_len, deque_capacity};
ghost use Rattle.srb.specs.declared.DeviceLabel.{DeviceLabel};
ghost use Rattle.miniport.specs.inside.Slots.{Table, ComesBack, Fails, HasNoneUntouched, piece_at, progress_after_reset, labels_by, with_slot, with_new, with_moved, with_failed, with_returned, with_reset, with_reset_at};
ghost use Rattle.miniport.specs.declared.on_tag.OnTag.{OnTag};
ghost use Rattle.miniport.specs.declared.on_tag.Progress.TheVariants.{Untouched, Moved};
ghost use Rattle.miniport.specs.Carrying.{with_data};
ghost use Rattle.miniport.specs.inside.Recorded.{IsKept, IsTellable, told};
ghost use Rattle.miniport.specs.inside.Slots.{Fits, MayBecome, TakesFirst, booked_with, met_of};

use crate::completion::met_reset;
use crate::on_tag::{Booking, OnTag, Progress};
use crate::recorded::{Recorded, recorded_act, tell, tell_all};
use srb::{Booked, Completion, DeviceLabel, Entry, Kind, Srb};
use std::alloc::{AllocError, Global};
use std::collections::VecDeque;
use std::marker::Model;
use std::mem;

/// How many labels may wait to be taken.
const LABELS: usize = 64;

/// How many tags there may be.
const TAGS: usize = 32;

/// The SRB with a copy of the bytes of an entry. The bytes of a write or a flush stand there already.
fn with_copy(srb: Srb, entry: &Entry) -> Srb
    requires { MayBecome entry.now srb.data }
    ensures { result ≡ with_data entry.now.bytes srb }
{
    match entry.kind {
        Kind::Read => {
            let data = srb.data.overwritten(entry.bytes.as_slice());
            Srb { data, ..srb }
        }
        Kind::Write => srb,
        Kind::Flush => srb,
    }
}

/// The SRB with the bytes of an entry of a read, which gets what was the SRB's data. The bytes of a write or a flush
/// stand there already.
fn with_taken(srb: Srb, entry: &mut Entry) -> Srb
    requires { MayBecome entry.old srb.data }
    ensures { result ≡ with_data entry.old.bytes srb }
{
    match entry.kind {
        Kind::Read => {
            let data = mem::replace(&mut entry.bytes, srb.data);
            Srb { data, ..srb }
        }
        Kind::Write => srb,
        Kind::Flush => srb,
    }
}

/// The piece with what is booked of it.
fn with_booking(on_tag: OnTag, what: Booked<'_>) -> OnTag
    requires { Fits what on_tag.srb.data }
    ensures { result ≡ booked_with what.entry on_tag }
{
    let OnTag { srb, .. } = on_tag;
    match what {
        Booked::Copied(entry) => OnTag {
            srb: with_copy(srb, entry),
            booking: Booking::Bytes,
            ..on_tag
        },
        Booked::Taken(entry) => OnTag {
            srb: with_taken(srb, entry),
            booking: Booking::Bytes,
            ..on_tag
        },
        Booked::Sent => OnTag {
            srb,
            booking: Booking::Bytes,
            ..on_tag
        },
        Booked::Failed(completion) => OnTag {
            srb,
            booking: Booking::Failure(completion),
            ..on_tag
        },
    }
}

/// Takes the piece off a tag.
fn taken(slots: &mut Vec<Option<OnTag>>, tag: u8) -> Option<OnTag>
    ensures piece { result ≡ piece_at slots.old.items tag }
    ensures after { slots.new.items ≡ slice_set slots.old.items tag None }
    ensures many { vec_len slots.new ≡ vec_len slots.old }
{
    let index = tag as usize;
    if index < slots.len() {
        slots[index].take()
    } else {
        None
    }
}

/// Puts a piece on a tag.
fn put(slots: &mut Vec<Option<OnTag>>, tag: u8, on_tag: OnTag)
    requires { tag < length slots.old.items }
    ensures after { slots.new.items ≡ slice_set slots.old.items tag (Some on_tag) }
    ensures many { vec_len slots.new ≡ vec_len slots.old }
{
    slots[tag as usize] = Some(on_tag);
}

/// A slot for each tag. Nothing but `new` takes memory.
#[derive(Drop)]
pub(crate) struct TagTable {
    slots: Vec<Option<OnTag>>,
    accepted: u128,
    failures: u128,
    labels: VecDeque<Recorded>,
    keeps_bytes: bool,
}

impl Model for TagTable {
    ghost Value = { Table };

    ghost view = { λ t. record { slots = t.slots.items; accepted = t.accepted; failures = t.failures; labels = map (told t.slots.items) t.labels.items; keeps_bytes = t.keeps_bytes } };

    ghost invariant = { λ t. (vec_len t.slots ≤ 32) × (64 ≤ deque_capacity t.labels) × All (IsTellable t.slots.items) t.labels.items × All (IsKept t.keeps_bytes) t.labels.items };
}

impl TagTable {
    /// No piece on any of the tags.
    pub fn new(alloc: Global, depth: u8) -> Result<TagTable, AllocError>
        requires { depth ≤ 32 }
        ensures { IfOk result (λ t. t ≡ record { slots = replicate depth None; accepted = 0; failures = 0; labels = []; keeps_bytes = true }) }
    {
        let mut slots = Vec::with_capacity(alloc, depth as usize)?;
        for _ in 0..depth {
            slots.push_reserved(None);
        }
        let labels = VecDeque::with_capacity(alloc, LABELS)?;
        Ok(TagTable {
            slots,
            accepted: 0,
            failures: 0,
            labels,
            keeps_bytes: true,
        })
    }

    pub fn keeps_bytes(&self) -> bool
        ensures { result ≡ self.now.keeps_bytes }
    {
        self.keeps_bytes
    }

    /// From now on contracts alone read the bytes of labels.
    pub fn note_bytes(&mut self)
        requires { self.old.labels ≡ [] }
        ensures { self.new ≡ record self.old { keeps_bytes = false } }
    {
        self.labels.clear();
        self.keeps_bytes = false;
    }

    pub fn depth(&self) -> u8
        ensures { result ≡ length self.now.slots }
    {
        self.slots.len() as u8
    }

    pub fn failures(&self) -> u128
        ensures { result ≡ self.now.failures }
    {
        self.failures
    }

    /// Puts a piece on a tag.
    pub fn accept(&mut self, tag: u8, piece: u128, srb: Srb)
        requires below { tag < length self.old.slots }
        requires free { piece_at self.old.slots tag ≡ None }
        requires few { self.old.accepted < 2 ^ 100 }
        requires place { length self.old.labels < 64 }
        ensures { self.new ≡ with_new tag piece srb self.old }
    {
        let block = srb.block.copied();
        self.slots[tag as usize] = Some(OnTag {
            piece,
            srb,
            progress: Progress::Untouched,
            failures_before: self.failures,
            was_reset: false,
            booking: Booking::Nothing,
        });
        self.accepted += 1;
        self.labels
            .push_back_reserved(Recorded::Told(DeviceLabel::Start { piece, tag, block }));
    }

    /// Whether a piece is on a tag.
    pub fn is_in_use(&self, tag: u8) -> bool
        ensures { result ≡ is_some (piece_at self.now.slots tag) }
    {
        self.slots.get(tag as usize).is_some_and(Option::is_some)
    }

    /// The piece on a tag, if it has done nothing yet.
    pub fn untouched(&self, tag: u8) -> Option<&OnTag>
        ensures { MatchOption result (HasNoneUntouched self.now.slots tag) (λ on. (piece_at self.now.slots tag ≡ Some on.now) × (on.now.progress ≡ Untouched)) }
    {
        match self.slots.get(tag as usize) {
            Some(Some(on_tag)) if on_tag.progress == Progress::Untouched => Some(on_tag),
            _ => None,
        }
    }

    /// Books this of the piece on a tag, if the piece has done nothing yet.
    pub fn book(&mut self, tag: u8, what: Booked<'_>)
        requires below { tag < length self.old.slots }
        requires fits { (on : OnTag) → piece_at self.old.slots tag ≡ Some on → Fits what on.srb.data }
        ensures { (on : OnTag) → piece_at self.old.slots tag ≡ Some on → on.progress ≡ Untouched → self.new ≡ with_slot tag (Some (booked_with what.entry on)) (with_slot tag None self.old) }
    {
        if let Some(on_tag) = self.take_untouched(tag) {
            self.place(tag, with_booking(on_tag, what));
        }
    }

    /// Takes the piece off a tag, if it has done nothing yet.
    pub fn take_untouched(&mut self, tag: u8) -> Option<OnTag>
        ensures untouched { MatchOption result (HasNoneUntouched self.old.slots tag) (λ on. (piece_at self.old.slots tag ≡ Some on) × (on.progress ≡ Untouched)) }
        ensures after { MatchOption result (self.new ≡ self.old) (λ on. self.new ≡ with_slot tag None self.old) }
        ensures free { IfSome result (λ on. piece_at self.new.slots tag ≡ None) }
    {
        match self.untouched(tag) {
            None => None,
            Some(_) => taken(&mut self.slots, tag),
        }
    }

    /// Puts back on its tag a piece that was carried out.
    pub fn put_moved(&mut self, tag: u8, on_tag: OnTag)
        requires below { tag < length self.old.slots }
        requires free { piece_at self.old.slots tag ≡ None }
        requires place { length self.old.labels < 64 }
        requires room { IsTrue self.old.keeps_bytes → length on_tag.srb.data ≤ on_tag.srb.for_label }
        requires acted { on_tag.progress ≡ Moved }
        ensures { self.new ≡ with_moved tag on_tag self.old }
    {
        let OnTag { mut srb, piece, .. } = on_tag;
        let room = srb.for_label.take();
        let label = recorded_act(self.keeps_bytes, tag, piece, &srb.data, room);
        self.place(tag, OnTag { srb, ..on_tag });
        self.labels.push_back_reserved(label);
    }

    /// Puts back on its tag a piece that failed.
    pub fn put_failed(&mut self, tag: u8, on_tag: OnTag)
        requires below { tag < length self.old.slots }
        requires free { piece_at self.old.slots tag ≡ None }
        requires place { length self.old.labels < 64 }
        requires countable { self.old.failures < 2 ^ 127 }
        ensures { self.new ≡ with_failed tag on_tag self.old }
    {
        let piece = on_tag.piece;
        self.place(tag, on_tag);
        self.failures += 1;
        self.labels
            .push_back_reserved(Recorded::Told(DeviceLabel::Fault { piece }));
    }

    /// Fails a tag's piece, if it has done nothing yet.
    pub fn fail(&mut self, tag: u8, completion: Completion) -> bool
        requires place { length self.old.labels < 64 }
        requires countable { self.old.failures < 2 ^ 127 }
        ensures { MatchBool result (Fails self.old tag completion self.new) (HasNoneUntouched self.old.slots tag × (self.new ≡ self.old)) }
    {
        let Some(on_tag) = self.take_untouched(tag) else {
            return false;
        };
        let on_tag = OnTag {
            progress: Progress::Failed(completion),
            ..on_tag
        };
        self.put_failed(tag, on_tag);
        true
    }

    fn place(&mut self, tag: u8, on_tag: OnTag)
        requires below { tag < length self.old.slots }
        requires free { piece_at self.old.slots tag ≡ None }
        ensures { self.new ≡ with_slot tag (Some on_tag) self.old }
    {
        put(&mut self.slots, tag, on_tag);
    }

    /// Takes the piece of a tag back, with its completion and its sense data.
    pub fn finish(&mut self, tag: u8) -> Option<(Srb, Completion)>
        requires { length self.old.labels < 64 }
        ensures { MatchOption result ((piece_at self.old.slots tag ≡ None) × (self.new ≡ self.old)) (λ back. ComesBack self.old tag back.0 back.1 self.new) }
    {
        tell_all(&mut self.labels, self.slots.as_slice());
        let on_tag = taken(&mut self.slots, tag)?;
        let completion = on_tag.completion();
        let OnTag { piece, srb, .. } = on_tag;
        let class = completion.class();
        self.labels
            .push_back_reserved(Recorded::Told(DeviceLabel::Return { piece, class }));
        let sense = completion.sense;
        Some((Srb { sense, ..srb }, completion))
    }

    /// Fails each piece that has done nothing yet; all pieces have met a reset.
    pub fn reset(&mut self)
        requires places { length self.old.labels + length self.old.slots ≤ 64 }
        requires countable { self.old.failures < 2 ^ 127 }
        ensures { self.new ≡ with_reset self.old }
    {
        for tag in 0..self.depth() {
            self.reset_at(tag);
        }
    }

    fn reset_at(&mut self, tag: u8)
        requires below { tag < length self.old.slots }
        requires place { length self.old.labels < 64 }
        requires countable { self.old.failures < 2 ^ 127 + 64 }
        ensures { self.new ≡ with_reset_at tag self.old }
    {
        if let Some((piece, progress, was_reset)) = self.met(tag) {
            self.count_reset(was_reset);
            let progress = self.fault_by(piece, progress);
            self.mark_reset(tag, progress);
        }
    }

    /// What a reset has to know of the piece on a tag: its number, what it has done, and whether a reset met it before.
    fn met(&self, tag: u8) -> Option<(u128, Progress, bool)>
        ensures { result ≡ option_map met_of (piece_at self.now.slots tag) }
    {
        match self.slots.get(tag as usize) {
            Some(Some(on_tag)) => Some((on_tag.piece, on_tag.progress, on_tag.was_reset)),
            _ => None,
        }
    }

    /// Notes that the piece on a tag has met a reset, and has done this.
    fn mark_reset(&mut self, tag: u8, progress: Progress)
        requires below { tag < length self.old.slots }
        requires acted { (on : OnTag) → piece_at self.old.slots tag ≡ Some on → on.progress ≡ Moved → progress ≡ Moved }
        ensures { (on : OnTag) → piece_at self.old.slots tag ≡ Some on → self.new ≡ with_slot tag (Some (record on { progress = progress; was_reset = true })) self.old }
    {
        if let Some(on_tag) = taken(&mut self.slots, tag) {
            let on_tag = OnTag {
                progress,
                was_reset: true,
                ..on_tag
            };
            put(&mut self.slots, tag, on_tag);
        }
    }

    /// Counts a failure, unless a reset met the piece before.
    fn count_reset(&mut self, was_reset: bool)
        requires { self.old.failures < 2 ^ 127 + 64 }
        ensures { self.new ≡ record self.old { failures = self.old.failures + (if was_reset then 0 else 1) } }
    {
        if !was_reset {
            self.failures += 1;
        }
    }

    /// Returns what a piece has done after a reset; one that had done nothing faults.
    fn fault_by(&mut self, piece: u128, progress: Progress) -> Progress
        requires { length self.old.labels < 64 }
        ensures progress { result ≡ progress_after_reset progress }
        ensures after { self.new ≡ record self.old { labels = self.old.labels ++ labels_by piece progress } }
    {
        if progress != Progress::Untouched {
            return progress;
        }
        self.labels
            .push_back_reserved(Recorded::Told(DeviceLabel::Fault { piece }));
        Progress::Failed(met_reset())
    }

    /// Takes the earliest label, as memory has it.
    pub fn take_label(&mut self) -> Option<DeviceLabel>
        ensures { MatchOption result ((self.old.labels ≡ []) × (self.new ≡ self.old)) (λ label. TakesFirst self.old label self.new) }
    {
        let label = self.labels.pop_front()?;
        Some(tell(label, self.slots.as_slice()))
    }

    /// Forgets all labels.
    pub fn forget_labels(&mut self)
        ensures { self.new ≡ record self.old { labels = [] } }
    {
        self.labels.clear();
    }
}
