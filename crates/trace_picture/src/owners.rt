//! The request that each piece belongs to: the open one that its start names, or else one that is found by what the command
//! of the piece asks for.
//!
//! Where its start names none a piece belongs to the open request of lowest number that asks for its sectors in this way, has them still to send
//! and isn't cancelled. A request whose last piece ended where this one begins comes first. The first piece of a
//! partition's first request tells where the partition begins. An owner is therefore a guess where requests ask for the
//! same sectors at once.

use crate::command::{Asked, asked_by};
use crate::facts::{Facts, Piece, Request, Step};
use machine::Kind;
use srb::Class;
use std::alloc::AllocError;

/// The bytes of a sector where no act tells them.
const SECTOR: u64 = 512;

/// How well a request fits a piece: not at all; where its partition begins isn't known yet; somewhere inside; or where its
/// last piece ended.
const NOT: u64 = 0;

const FIRST: u64 = 1;

const INSIDE: u64 = 2;

const NEXT: u64 = 3;

/// What is known at a step.
#[derive(Drop)]
struct Search {
    sector_size: u64,
    /// Where each partition begins, once a piece has told it.
    bases: [Option<u64>; 256],
    /// The places of the requests that are open.
    open: Vec<usize>,
}

/// Finds the owner of each piece, and its lane there.
pub(crate) fn find_owners(facts: &mut Facts) -> Result<(), AllocError> {
    let mut search = Search {
        sector_size: sector_size(facts.pieces.as_slice()),
        bases: [None; 256],
        open: Vec::new(facts.alloc),
    };
    for request in facts.requests.iter_mut() {
        request.sent = 0;
        request.taken = 0;
        request.lanes = 0;
    }
    let requests = facts.requests.as_mut_slice();
    let pieces = facts.pieces.as_mut_slice();
    for step in facts.steps.iter() {
        match step {
            Step::Called(place) => search.open.push(*place)?,
            Step::Answered(place) => search.close(*place),
            Step::Started(place) => search.start(*place, pieces, requests),
            Step::CameBack(place) => come_back(*place, pieces, requests),
        }
    }
    Ok(())
}

/// The bytes of a sector, as the first act of some sectors tells them.
fn sector_size(pieces: &[Piece]) -> u64 {
    for piece in pieces.iter() {
        if let Some(asked) = asked_by(piece.command)
            && piece.bytes >= asked.count
        {
            return piece.bytes.checked_div(asked.count).unwrap_or(SECTOR);
        }
    }
    SECTOR
}

/// Frees the lane of the piece at a place. What came back busy is to be sent again.
fn come_back(place: usize, pieces: &[Piece], requests: &mut [Request]) {
    let Some(piece) = pieces.get(place) else {
        return;
    };
    let Some(request) = owner_among(requests, piece.owner) else {
        return;
    };
    request.taken &= !lane_bit(piece.lane);
    if let (Some((_, Class::Busy)), Some(asked)) = (piece.back, asked_by(piece.command)) {
        request.sent = request.sent.saturating_sub(asked.count);
    }
}

fn owner_among(requests: &mut [Request], owner: Option<usize>) -> Option<&mut Request> {
    requests.get_mut(owner?)
}

/// The bit of a lane; none above the 64th.
fn lane_bit(lane: u64) -> u64 {
    if lane < 64 { 1 << lane } else { 0 }
}

impl Search {
    fn close(&mut self, place: usize) {
        self.open.retain(|open| *open != place);
    }

    /// Gives the piece at a place to the request that fits it best, if one does.
    fn start(&mut self, place: usize, pieces: &mut [Piece], requests: &mut [Request]) {
        let Some(piece) = pieces.get_mut(place) else {
            return;
        };
        let Some(asked) = asked_by(piece.command) else {
            return;
        };
        piece.owner = match piece.told {
            Some(number) => self.named(number, requests),
            None => self.best(&asked, requests, piece.start),
        };
        let Some(request) = owner_among(requests, piece.owner) else {
            return;
        };
        self.learn(&asked, request);
        request.sent = request.sent.saturating_add(asked.count);
        piece.lane = u64::from(request.taken.trailing_ones());
        request.taken |= lane_bit(piece.lane);
        request.lanes = request.lanes.max(piece.lane.saturating_add(1));
    }

    /// Learns where the partition of a request begins from its first piece.
    fn learn(&mut self, asked: &Asked, request: &Request) {
        if asked.kind != Kind::Flush && self.base_of(request).is_none() {
            let first = self.sectors(request.offset);
            self.bases[request.partition.unwrap_or(0) as usize] = asked.first.checked_sub(first);
        }
    }

    /// The open request of a number.
    fn named(&self, number: u64, requests: &[Request]) -> Option<usize> {
        for place in self.open.iter() {
            if let Some(request) = requests.get(*place)
                && request.number == number
            {
                return Some(*place);
            }
        }
        None
    }

    /// The open request that fits best, and of these the first.
    fn best(&self, asked: &Asked, requests: &[Request], line: u64) -> Option<usize> {
        let mut best = None;
        let mut fit = NOT;
        for place in self.open.iter() {
            let next = self.fit_at(asked, requests.get(*place), line);
            if next > fit {
                best = Some(*place);
                fit = next;
            }
        }
        best
    }

    /// How well a request fits that isn't cancelled before a line.
    fn fit_at(&self, asked: &Asked, request: Option<&Request>, line: u64) -> u64 {
        match request {
            Some(request) if request.cancel.unwrap_or(line) >= line => self.fit(asked, request),
            _ => NOT,
        }
    }

    fn fit(&self, asked: &Asked, request: &Request) -> u64 {
        if request.kind != asked.kind {
            return NOT;
        }
        match request.kind {
            Kind::Flush if request.sent == 0 => NEXT,
            Kind::Flush => NOT,
            _ if request.through != asked.through => NOT,
            _ => self.fit_transfer(asked, request),
        }
    }

    fn fit_transfer(&self, asked: &Asked, request: &Request) -> u64 {
        let first = self.sectors(request.offset);
        let count = self.sectors(request.length);
        if request.sent.saturating_add(asked.count) > count || asked.first < first {
            return NOT;
        }
        let Some(base) = self.base_of(request) else {
            return if request.sent == 0 { FIRST } else { NOT };
        };
        match asked.first.checked_sub(base.saturating_add(first)) {
            Some(at) if at == request.sent => NEXT,
            Some(at) if at.saturating_add(asked.count) <= count => INSIDE,
            _ => NOT,
        }
    }

    /// Returns where the partition of a request begins, if that is known.
    fn base_of(&self, request: &Request) -> Option<u64> {
        self.bases[request.partition.unwrap_or(0) as usize]
    }

    fn sectors(&self, bytes: u64) -> u64 {
        bytes.checked_div(self.sector_size).unwrap_or(0)
    }
}
