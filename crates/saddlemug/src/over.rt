//! A stack whose sectors C keeps.

ghost use Rattle.std.specs.Prelude.{◌≡◌, ◌≢◌, IfErr, IfOk, IsFalse, IsTrue, MatchOption, MatchResult, None, Some, false, replicate, true};
ghost use Rattle.ntstatus.specs.declared.NtStatus.TheVariants.{Success};
ghost use Rattle.adapter.specs.Booking.{IsArmed};
ghost use Rattle.saddlemug.specs.Places.{HasPiece, place_of};
ghost use Rattle.saddlemug.specs.Over.{BooksTold, IsArmedStatus, IsBookStatus, IsNotArmed, IsNotTold, IsSuited, IsTold, TellsArmed};
ghost use Rattle.saddlemug.specs.Stepping.{IsNotStepped, IsStepStatus, ShowsAnswer, Steps, TellsAnswer, TellsAnswerOf, TellsLabel};

use crate::asked::{Asked, StackArmed, told_armed};
use crate::booking::{DiskOf, StackBooking, asked_of};
use crate::events::{StackEvent, StackReply};
use crate::labels::{StackAnswer, StackLabel};
use crate::places::{PieceBytes, no_places, stand};
use crate::stepping::{first_answer, step_as_told, tell_answer, tell_answer_of, tell_label};
use compose::Stack;
use miniport::BookedAdapter;
use ntstatus::NtStatus;
use sector::Bytes;
use srb::{Booked, Entry, Srb};
use std::alloc::{AllocError, Global};
use std::marker::Model;

/// A stack over an adapter without sectors, with a place for the bytes of each piece of which C was told.
#[derive(Drop)]
pub struct Over {
    stack: Stack<BookedAdapter>,
    /// The place of each tag.
    places: Vec<Option<PieceBytes>>,
    disk: DiskOf,
}

impl Model for Over {
    ghost use Rattle.saddlemug.specs.Over.{OverKept, OverView, over};

    ghost Value = { OverView };

    ghost view = { λ o. over o.stack o.places.items };

    ghost invariant = { λ o. OverKept o.stack o.places.items o.disk };
}

impl Over {
    /// A stack whose places are empty: C was told of no piece.
    pub(crate) fn new(
        alloc: Global,
        stack: Stack<BookedAdapter>,
        disk: DiskOf,
    ) -> Result<Over, AllocError>
        requires apart { IsFalse stack.adapter.faithful }
        requires bytes { IsTrue stack.rules.keeps_bytes }
        requires sector_size { stack.rules.sector_size ≡ disk.sector_size }
        requires sectors { stack.rules.disk_sectors ≡ disk.sectors }
        ensures stack { IfOk result (λ o. o.stack ≡ stack) }
        ensures places { IfOk result (λ o. o.places ≡ replicate 256 None) }
    {
        let places = no_places(alloc)?;
        Ok(Over {
            stack,
            places,
            disk,
        })
    }

    /// Carries an event out, as [`step_as_told`].
    ///
    /// # Errors
    ///
    /// As [`step_as_told`].
    pub(crate) fn step(
        &mut self,
        alloc: Global,
        event: &StackEvent,
        bytes: &[u8],
    ) -> Result<StackReply, NtStatus>
        ensures steps { MatchResult result (λ told. Steps self.old.stack event.now bytes.now told self.new.stack) (λ _. IsNotStepped self.old.stack self.new.stack) }
        ensures places { self.new.places ≡ self.old.places }
        ensures fault { IfErr result (λ status. status ≢ Success) }
        ensures why { IfErr result (IsStepStatus event.now bytes.now) }
    {
        compose::steps_stay_apart();
        compose::steps_keep_rules();
        step_as_told(&mut self.stack, alloc, event, bytes)
    }

    /// Takes the next label, as [`tell_label`].
    pub(crate) fn next_label(&mut self, buffer: &mut [u8]) -> Option<StackLabel>
        ensures told { TellsLabel self.old.stack buffer.old result buffer.new self.new.stack }
        ensures places { self.new.places ≡ self.old.places }
    {
        tell_label(&mut self.stack, buffer)
    }

    /// Tells the next answer, as [`first_answer`].
    pub(crate) fn first_answer(&self) -> Option<StackAnswer>
        ensures { ShowsAnswer self.now.stack result }
    {
        first_answer(&self.stack)
    }

    /// Takes the next answer, as [`tell_answer`].
    pub(crate) fn next_answer(&mut self, buffer: &mut [u8]) -> Option<StackAnswer>
        ensures told { TellsAnswer self.old.stack buffer.old result buffer.new self.new.stack }
        ensures places { self.new.places ≡ self.old.places }
    {
        tell_answer(&mut self.stack, buffer)
    }

    /// Takes the answer of a number, as [`tell_answer_of`].
    pub(crate) fn answer_of(&mut self, number: u64, buffer: &mut [u8]) -> Option<StackAnswer>
        ensures told { TellsAnswerOf self.old.stack number buffer.old result buffer.new self.new.stack }
        ensures places { self.new.places ≡ self.old.places }
    {
        tell_answer_of(&mut self.stack, number, buffer)
    }

    /// Tells of the piece on a tag that could act. Its bytes stand in the tag's place. The first time they are the
    /// SRB's, later what C made of them.
    ///
    /// # Errors
    ///
    /// [`NtStatus::NotFound`] where no piece of the tag could act; [`NtStatus::InsufficientResources`] where memory for
    /// the place was refused. Nothing has changed.
    pub(crate) fn armed(&mut self, alloc: Global, tag: u8) -> Result<StackArmed, NtStatus>
        ensures tells { MatchResult result (λ told. TellsArmed self.old tag told self.new) (λ _. self.new ≡ self.old) }
        ensures fault { IfErr result (λ status. status ≢ Success) }
        ensures why { IfErr result (IsArmedStatus self.old tag) }
    {
        let Some((piece, srb)) = self.stack.armed(tag) else {
            return Err(NtStatus::NotFound);
        };
        let place = &mut self.places[tag as usize];
        match stand(alloc, place, piece, srb.data.as_slice()) {
            Ok(bytes) => Ok(told_armed(piece, srb, bytes)),
            Err(_) => Err(NtStatus::InsufficientResources),
        }
    }

    /// Books what became of a piece that was told, and gives up its place.
    ///
    /// # Errors
    ///
    /// [`NtStatus::NotFound`] where no such piece of the tag could act, or C was not told of it since the tag was last
    /// booked; [`NtStatus::InvalidParameter`] where its bytes have another length, the bytes of a write were changed,
    /// or the completion is good or busy. Nothing has changed.
    pub(crate) fn book(&mut self, booking: &StackBooking) -> Result<(), NtStatus>
        ensures books { MatchResult result (λ _. BooksTold self.old booking.now self.new) (λ _. self.new ≡ self.old) }
        ensures fault { IfErr result (λ status. status ≢ Success) }
        ensures why { IfErr result (IsBookStatus self.old booking.now) }
    {
        match booking.failed {
            true => self.book_failure(booking),
            false => self.book_bytes(booking),
        }
    }

    /// The SRB of a piece, where it is the one on the tag that could act.
    fn armed_as(&self, tag: u8, piece: u128) -> Option<&Srb>
        ensures { MatchOption result (IsNotArmed self.now tag piece) (λ srb. IsArmed self.now.stack.adapter tag piece srb.now × (piece ≢ 0)) }
    {
        match self.stack.armed(tag) {
            Some((armed, srb)) if armed == piece && piece != 0 => Some(srb),
            _ => None,
        }
    }

    /// The place of the tag, where this piece stands there.
    fn place_of(&self, tag: u8, piece: u128) -> Option<&PieceBytes>
        ensures { MatchOption result (¬ HasPiece (place_of self.now.places tag) piece) (λ own. (place_of self.now.places tag ≡ Some own.now) × (own.now.piece ≡ piece)) }
    {
        match &self.places[tag as usize] {
            Some(own) if own.piece == piece => Some(own),
            _ => None,
        }
    }

    /// The SRB of a piece that was told, and its place.
    fn told(&self, tag: u8, piece: u128) -> Option<(&Srb, &PieceBytes)>
        ensures { MatchOption result (IsNotTold self.now tag piece) (λ found. IsTold self.now tag piece found.0.now found.1.now) }
    {
        let srb = self.armed_as(tag, piece)?;
        let own = self.place_of(tag, piece)?;
        Some((srb, own))
    }

    /// Returns what a piece asks for whose bytes C moved.
    ///
    /// # Errors
    ///
    /// As [`Over::book`].
    fn suited(&self, booking: &StackBooking) -> Result<Asked, NtStatus>
        requires moved { booking.now.failed ≡ false }
        ensures suited { IfOk result (IsSuited self.now booking.now) }
        ensures fault { IfErr result (λ status. status ≢ Success) }
        ensures why { IfErr result (IsBookStatus self.now booking.now) }
    {
        self.stack.shows_whole();
        let Some((srb, place)) = self.told(booking.tag, booking.piece()) else {
            return Err(NtStatus::NotFound);
        };
        match asked_of(&self.disk, srb, place, booking.length) {
            Some(asked) => Ok(asked),
            None => Err(NtStatus::InvalidParameter),
        }
    }

    /// Books the bytes in a piece's place.
    ///
    /// # Errors
    ///
    /// As [`Over::book`].
    fn book_bytes(&mut self, booking: &StackBooking) -> Result<(), NtStatus>
        requires moved { booking.now.failed ≡ false }
        ensures books { MatchResult result (λ _. BooksTold self.old booking.now self.new) (λ _. self.new ≡ self.old) }
        ensures fault { IfErr result (λ status. status ≢ Success) }
        ensures why { IfErr result (IsBookStatus self.old booking.now) }
    {
        let Asked { kind, extent, .. } = self.suited(booking)?;
        let tag = booking.tag;
        let piece = booking.piece();
        let Some(PieceBytes { bytes, .. }) = self.places[tag as usize].take() else {
            unreachable!()
        };
        let mut entry = Entry {
            piece,
            tag,
            extent,
            kind,
            bytes: Bytes::new(bytes),
        };
        self.stack.book(tag, piece, Booked::Taken(&mut entry));
        Ok(())
    }

    /// Books how a piece failed.
    ///
    /// # Errors
    ///
    /// As [`Over::book`].
    fn book_failure(&mut self, booking: &StackBooking) -> Result<(), NtStatus>
        requires failed { booking.now.failed ≡ true }
        ensures books { MatchResult result (λ _. BooksTold self.old booking.now self.new) (λ _. self.new ≡ self.old) }
        ensures fault { IfErr result (λ status. status ≢ Success) }
        ensures why { IfErr result (IsBookStatus self.old booking.now) }
    {
        let tag = booking.tag;
        let piece = booking.piece();
        if self.told(tag, piece).is_none() {
            return Err(NtStatus::NotFound);
        }
        let Some(failure) = booking.completion.failure() else {
            return Err(NtStatus::InvalidParameter);
        };
        self.stack.book(tag, piece, Booked::Failed(failure));
        self.places[tag as usize] = None;
        Ok(())
    }
}
