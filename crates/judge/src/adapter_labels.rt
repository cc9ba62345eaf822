//! What an adapter records: acts, faults and returns.

ghost use Rattle.std.specs.Prelude.{◌≡◌, ◌+◌, IfOk};
ghost use Rattle.std.specs.List.{find};
ghost use Rattle.machine.specs.State.{with_marks};
ghost use Rattle.machine.specs.Sending.{partition_number, one_if_busy};
ghost use Rattle.judge.specs.Deciding.{has_number, sectors_moved};
ghost use Rattle.judge.specs.Picking.{take_out};
ghost use Rattle.judge.specs.Next.{acted_by, acted, arrays_after, faulted_of, faulted, returned_by, returned};
ghost use Rattle.judge.specs.Views.{rules_of, with_busy_returns};

use crate::NoVerdict;
use crate::arrays::Sectors;
use crate::copies::all_copied;
use crate::finding::request_of;
use crate::machine_state::Machine;
use crate::open::Open;
use crate::pieces::Started;
use crate::places::Place;
use crate::rules::MachineRules;
use crate::sectors::{sectors_moved, with_written};
use machine::{ClientRequest, Kind};
use sector::{Bytes, Extent};
use srb::Class;
use std::alloc::{AllocError, Global};
use std::mem;

/// The number of a request's partition.
pub(crate) fn partition_of(q: &ClientRequest) -> usize
    ensures { result ≡ partition_number q.now }
{
    q.partition.unwrap_or(0) as usize
}

/// The arrays after an act on these places of the request. They change by a write, where the machine is faithful.
fn arrays_after(
    alloc: Global,
    rules: &MachineRules,
    arrays: Vec<Sectors>,
    q: &ClientRequest,
    places: Extent,
    sectors: &[Bytes],
) -> Result<Vec<Sectors>, AllocError>
    ensures { IfOk result (λ after. after.items
        ≡ arrays_after (rules_of rules.now) arrays.items q.now places q.now.kind sectors.now) }
{
    match q.kind {
        Kind::Write if rules.faithful => {
            let first = rules.first_sector(q) as u128 + places.first as u128;
            let copy = all_copied(alloc, sectors)?;
            let after = with_written(arrays, partition_of(q), first, copy)?;
            Ok(after)
        }
        Kind::Read | Kind::Write | Kind::Flush => Ok(arrays),
    }
}

impl Machine {
    /// The machine after the act of a piece that was taken out, where its request is open.
    fn acted_with(
        mut self,
        alloc: Global,
        rules: &MachineRules,
        piece: Started,
        bytes: &[u8],
    ) -> Result<Option<Machine>, NoVerdict>
        ensures { IfOk result (λ next. next
            ≡ acted_by (rules_of rules.now) self bytes.now piece self.pieces (find (has_number piece.owner) self.requests)) }
    {
        let arrays = mem::replace(&mut self.arrays, Vec::new(alloc));
        let Some(entry) = request_of(self.requests.as_slice(), piece.owner()) else {
            return Ok(None);
        };
        let q = entry.request();
        let places = piece.places();
        let sectors = sectors_moved(alloc, rules, places.count, q.kind, bytes)?;
        let after = arrays_after(alloc, rules, arrays, q, places, sectors.as_slice())?;
        self.arrays = after;
        self.put_started(piece.acted(sectors))?;
        Ok(Some(self))
    }

    /// The machine after the act of a piece.
    pub(crate) fn acted(
        mut self,
        alloc: Global,
        rules: &MachineRules,
        number: u128,
        bytes: &[u8],
    ) -> Result<Option<Machine>, NoVerdict>
        ensures { IfOk result (λ next. next ≡ acted (rules_of rules.now) self number bytes.now) }
    {
        let Some(piece) = self.take_started(number) else {
            return Ok(None);
        };
        self.acted_with(alloc, rules, piece, bytes)
    }

    /// The machine after the fault of a piece.
    pub(crate) fn faulted(mut self, number: u128) -> Result<Option<Machine>, NoVerdict>
        ensures { IfOk result (λ next. next ≡ faulted self number) }
    {
        let Some(piece) = self.take_started(number) else {
            return Ok(None);
        };
        self.put_started(piece.faulted())?;
        Ok(Some(self))
    }

    /// The machine after the return of a piece that was taken out.
    fn returned_with(
        mut self,
        alloc: Global,
        piece: Started,
        class: &Class,
    ) -> Result<Option<Machine>, NoVerdict>
        ensures { IfOk result (λ next. next ≡ returned_by self class.now piece self.pieces (take_out (has_number piece.owner) self.requests)) }
    {
        let Some(entry) = self.take_open(piece.owner()) else {
            return Ok(None);
        };
        let first = piece.places().first;
        let marks = piece.marks(alloc, class)?;
        self.put_open(given_back(entry, first, marks, class)?)?;
        Ok(Some(self))
    }

    /// The machine after the return of a piece.
    pub(crate) fn returned(
        mut self,
        alloc: Global,
        number: u128,
        class: &Class,
    ) -> Result<Option<Machine>, NoVerdict>
        ensures { IfOk result (λ next. next ≡ returned self number class.now) }
    {
        let Some(piece) = self.take_started(number) else {
            return Ok(None);
        };
        self.returned_with(alloc, piece, class)
    }
}

/// The request after a piece of it came back.
fn given_back(entry: Open, first: u64, marks: Vec<Place>, class: &Class) -> Result<Open, NoVerdict>
    ensures { IfOk result (λ o. o ≡ with_busy_returns (entry.busy_returns + one_if_busy class.now) (with_marks first marks.items entry)) }
{
    let marked = entry.marked(first, marks)?;
    match class {
        Class::Busy => marked.worn(),
        Class::Good | Class::Bad(_) => Ok(marked),
    }
}
