//! What has become of the places of a request.

ghost use Rattle.std.specs.Prelude.{◌≡◌, List, ℕ, IfOk};
ghost use Rattle.machine.specs.State.{Mark, Untouched, Out, Done, Failed, Back};
ghost use Rattle.machine.specs.Cutting.{is_back};
ghost use Rattle.machine.specs.Sending.{is_untouched, is_unsent};
ghost use Rattle.machine.specs.Answering.{is_done, bytes_of_mark};
ghost use Rattle.machine.specs.Settled.{is_out};
ghost use Rattle.judge.specs.Settling.{has_gone};
ghost use Rattle.judge.specs.Ruling.{failure_of};
ghost use Rattle.judge.specs.StartRuling.{sent_as};
ghost use Rattle.judge.specs.Deciding.{ended_by, cause_by, same_status};

use crate::copies::Copied;
use crate::sameness::Compared;
use crate::start_rules::Hindrance;
use ntstatus::NtStatus;
use sector::Bytes;
use std::alloc::{AllocError, Global};
use std::marker::Model;

/// What has become of a place.
#[derive(Debug, Drop)]
enum Marked {
    Untouched,
    Out,
    /// The bytes of its sector.
    Done(Bytes),
    Failed(NtStatus),
    Back,
}

/// A place, which contracts see as its mark.
#[derive(Debug, Drop)]
pub(crate) struct Place {
    marked: Marked,
}

impl Model for Place {
    ghost use Rattle.machine.specs.State.{Mark};

    ghost Value = { Mark };

    ghost use Rattle.judge.specs.Views.{mark_of};

    ghost view = { λ p. mark_of p.marked };
}

/// Whether two statuses are the same.
pub(crate) fn are_same(a: NtStatus, b: NtStatus) -> bool
    ensures { result ≡ same_status a b }
{
    a.value() == b.value()
}

impl Place {
    /// No piece was started for it.
    pub(crate) fn untouched() -> Place
        ensures { result ≡ Untouched }
    {
        Place {
            marked: Marked::Untouched,
        }
    }

    /// A piece of it is at the adapter.
    pub(crate) fn out() -> Place
        ensures { result ≡ Out }
    {
        Place {
            marked: Marked::Out,
        }
    }

    /// A piece acted on it, and came back good.
    pub(crate) fn done(sector: Bytes) -> Place
        ensures { result ≡ Done sector }
    {
        Place {
            marked: Marked::Done(sector),
        }
    }

    /// A piece of it came back bad.
    pub(crate) fn failed(status: NtStatus) -> Place
        ensures { result ≡ Failed status }
    {
        Place {
            marked: Marked::Failed(status),
        }
    }

    /// A piece of it came back busy.
    pub(crate) fn back() -> Place
        ensures { result ≡ Back }
    {
        Place {
            marked: Marked::Back,
        }
    }

    pub(crate) fn is_untouched(&self) -> bool
        ensures { result ≡ is_untouched self.now }
    {
        match self.marked {
            Marked::Untouched => true,
            Marked::Out | Marked::Done(_) | Marked::Failed(_) | Marked::Back => false,
        }
    }

    /// Whether a piece of it came back busy.
    pub(crate) fn is_back(&self) -> bool
        ensures { result ≡ is_back self.now }
    {
        matches!(self.marked, Marked::Back)
    }

    /// Whether it waits to be sent.
    pub(crate) fn is_unsent(&self) -> bool
        ensures { result ≡ is_unsent self.now }
    {
        match self.marked {
            Marked::Untouched | Marked::Back => true,
            Marked::Out | Marked::Done(_) | Marked::Failed(_) => false,
        }
    }

    pub(crate) fn is_out(&self) -> bool
        ensures { result ≡ is_out self.now }
    {
        match self.marked {
            Marked::Out => true,
            Marked::Untouched | Marked::Done(_) | Marked::Failed(_) | Marked::Back => false,
        }
    }

    /// Whether it will not be sent, where its request is worn out by busy returns, or not.
    pub(crate) fn has_gone(&self, worn_out: bool) -> bool
        ensures { result ≡ has_gone worn_out self.now }
    {
        match self.marked {
            Marked::Untouched => false,
            Marked::Back => worn_out,
            Marked::Out | Marked::Done(_) | Marked::Failed(_) => true,
        }
    }

    pub(crate) fn is_done(&self) -> bool
        ensures { result ≡ is_done self.now }
    {
        match self.marked {
            Marked::Done(_) => true,
            Marked::Untouched | Marked::Out | Marked::Failed(_) | Marked::Back => false,
        }
    }

    /// Whether it is done or never will be, where its request was given up or worn out by busy returns, or not.
    pub(crate) fn has_ended(&self, given_up: bool, worn_out: bool) -> bool
        ensures { result ≡ ended_by given_up worn_out self.now }
    {
        match self.marked {
            Marked::Untouched => given_up,
            Marked::Out => false,
            Marked::Done(_) => true,
            Marked::Failed(_) => true,
            Marked::Back => given_up || worn_out,
        }
    }

    /// Whether it gives its request this status, which may be the one that it was given up with.
    pub(crate) fn causes(&self, given_up: bool, worn_out: bool, status: NtStatus) -> bool
        ensures { result ≡ cause_by given_up worn_out status self.now }
    {
        match &self.marked {
            Marked::Untouched => given_up,
            Marked::Out => false,
            Marked::Done(_) => false,
            Marked::Failed(failure) => are_same(status, *failure),
            Marked::Back => given_up || (worn_out && are_same(status, NtStatus::DeviceBusy)),
        }
    }

    /// A number of its own for each thing that may have become of it.
    pub(crate) fn digest(&self) -> u64 {
        match self.marked {
            Marked::Untouched => 0,
            Marked::Out => 1,
            Marked::Done(_) => 2,
            Marked::Failed(_) => 3,
            Marked::Back => 4,
        }
    }

    /// The status by which it failed, if it did.
    pub(crate) fn failure(&self) -> Option<NtStatus>
        ensures { result ≡ failure_of self.now }
    {
        match &self.marked {
            Marked::Failed(failure) => Some(*failure),
            Marked::Untouched | Marked::Out | Marked::Done(_) | Marked::Back => None,
        }
    }

    /// Returns what the place of this number is, where it doesn't wait to be sent.
    pub(crate) fn sent_as(&self, place: u64) -> Hindrance
        ensures { result ≡ sent_as place self.now }
    {
        match self.marked {
            Marked::Done(_) => Hindrance::Done { place },
            Marked::Failed(_) => Hindrance::Failed { place },
            Marked::Untouched | Marked::Out | Marked::Back => Hindrance::Out { place },
        }
    }

    /// The bytes of its sector where it is done, else none.
    pub(crate) fn bytes(&self) -> &[u8]
        ensures { result.now ≡ bytes_of_mark self.now }
    {
        match &self.marked {
            Marked::Done(sector) => sector.as_slice(),
            Marked::Untouched | Marked::Out | Marked::Failed(_) | Marked::Back => &[],
        }
    }
}

impl Copied for Place {
    fn copied(&self, alloc: Global) -> Result<Place, AllocError> {
        let marked = match &self.marked {
            Marked::Untouched => Marked::Untouched,
            Marked::Out => Marked::Out,
            Marked::Done(sector) => Marked::Done(sector.copied(alloc)?),
            Marked::Failed(status) => Marked::Failed(*status),
            Marked::Back => Marked::Back,
        };
        Ok(Place { marked })
    }
}

impl Compared for Place {
    fn is_same(&self, other: &Place) -> bool {
        match (&self.marked, &other.marked) {
            (Marked::Untouched, Marked::Untouched) => true,
            (Marked::Out, Marked::Out) => true,
            (Marked::Done(a), Marked::Done(b)) => a.is_same(b),
            (Marked::Failed(a), Marked::Failed(b)) => are_same(*a, *b),
            (Marked::Back, Marked::Back) => true,
            _ => false,
        }
    }
}
