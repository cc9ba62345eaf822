//! What the labels of a trace say of requests, pieces and the device. Only this file knows the labels. Each is told by the
//! line in which it stands.

use cdb::{Cdb, decode};
use machine::{ClientRequest, Kind, Label};
use ntstatus::NtStatus;
use srb::{Class, DeviceLabel};
use std::alloc::{AllocError, Global};
use std::collections::BTreeMap;

/// How a request ended.
#[derive(Clone, Copy)]
pub(crate) struct Answer {
    pub line: u64,
    pub status: NtStatus,
    /// The number of bytes that were moved.
    pub moved: u64,
}

/// A request, from its call on.
#[derive(Clone, Copy)]
pub(crate) struct Request {
    pub number: u64,
    pub partition: Option<u8>,
    pub kind: Kind,
    /// Where it begins, in bytes from the start of the partition.
    pub offset: u64,
    /// Its length, in bytes.
    pub length: u64,
    pub through: bool,
    pub call: u64,
    pub cancel: Option<u64>,
    pub answer: Option<Answer>,
    /// Sectors that its pieces asked for and that have not come back busy; of a flush 1.
    pub sent: u64,
    /// Which lanes its pieces take that are out, a bit each.
    pub taken: u64,
    /// How many lanes its pieces need.
    pub lanes: u64,
}

impl Request {
    /// The line of its answer.
    pub fn end(&self) -> Option<u64> {
        Some(self.answer?.line)
    }

    /// Whether a line is its call, its cancel or its answer.
    pub fn is_in(&self, line: u64) -> bool {
        self.call == line || self.cancel == Some(line) || self.end() == Some(line)
    }
}

/// A piece, from its start on.
#[derive(Clone, Copy)]
pub(crate) struct Piece {
    pub number: u128,
    pub tag: u8,
    /// The command of its block, if the block is one.
    pub command: Option<Cdb>,
    pub start: u64,
    /// The line of its act or its fault, and which it was.
    pub fate: Option<(u64, &'static str)>,
    /// How many bytes it moved.
    pub bytes: u64,
    /// How it came back, if it did, and in which line.
    pub back: Option<(u64, Class)>,
    /// The request that its start names.
    pub told: Option<u64>,
    /// The place of its request among the requests, where that was found.
    pub owner: Option<usize>,
    /// Its lane in the bar of its request.
    pub lane: u64,
}

impl Piece {
    /// The line of its return.
    pub fn end(&self) -> Option<u64> {
        let (line, _) = self.back?;
        Some(line)
    }

    /// Whether a line is its start, its act or fault, or its return.
    pub fn is_in(&self, line: u64) -> bool {
        self.start == line || self.moved_in() == Some(line) || self.end() == Some(line)
    }

    /// The line of its act or its fault.
    fn moved_in(&self) -> Option<u64> {
        let (line, _) = self.fate?;
        Some(line)
    }
}

/// A time in which the device was paused or removed, up to the end of the trace where it has no end.
#[derive(Clone, Copy)]
pub(crate) struct Band {
    pub word: &'static str,
    pub start: u64,
    pub end: Option<u64>,
}

/// What owners are found by: what became of the request or the piece at a place, in the order of the lines.
#[derive(Clone, Copy)]
pub(crate) enum Step {
    Called(usize),
    Started(usize),
    CameBack(usize),
    Answered(usize),
}

/// The label that broke a rule.
#[derive(Drop)]
pub(crate) struct Blamed {
    pub line: u64,
    /// What is said of it, in lines.
    pub said: String,
}

/// All that a picture shows.
#[derive(Drop)]
pub(crate) struct Facts {
    pub alloc: Global,
    /// The first and the last line that are shown, where not all are.
    pub shown: Option<(u64, u64)>,
    pub blamed: Option<Blamed>,
    pub labels: u64,
    /// The line of the last label.
    pub line: u64,
    pub requests: Vec<Request>,
    pub pieces: Vec<Piece>,
    pub bands: Vec<Band>,
    /// The lines of labels that fit no request, no piece and no pause that came before them.
    pub strays: Vec<u64>,
    pub steps: Vec<Step>,
    /// The place of the last request, and of the last piece, of a number.
    request_places: BTreeMap<u128, usize>,
    piece_places: BTreeMap<u128, usize>,
}

impl Facts {
    pub fn new(alloc: Global) -> Facts {
        Facts {
            alloc,
            shown: None,
            blamed: None,
            labels: 0,
            line: 0,
            requests: Vec::new(alloc),
            pieces: Vec::new(alloc),
            bands: Vec::new(alloc),
            strays: Vec::new(alloc),
            steps: Vec::new(alloc),
            request_places: BTreeMap::new(alloc),
            piece_places: BTreeMap::new(alloc),
        }
    }

    /// Adds what the label of a line says. Behind a start the line may name the request of the piece.
    pub fn take(&mut self, line: u64, label: &Label, owner: Option<u64>) -> Result<(), AllocError> {
        self.line = line;
        self.labels = self.labels.saturating_add(1);
        match label {
            Label::Call { number, request } => self.call(*number, request),
            Label::Device(label) => self.take_device(label, owner),
            Label::Answer {
                number,
                status,
                information,
                ..
            } => self.answer(*number, *status, *information),
            Label::Cancel { number } => self.cancel(*number),
            Label::Pause => self.begin("paused"),
            Label::Resume => self.resume(),
            Label::Remove => self.begin("removing"),
            Label::Surprise => self.begin("surprise"),
            Label::Removed => self.begin("removed"),
        }
    }

    /// The request of a piece, where that was found.
    pub fn owner_of(&self, piece: &Piece) -> Option<&Request> {
        self.requests.get(piece.owner?)
    }

    fn take_device(&mut self, label: &DeviceLabel, owner: Option<u64>) -> Result<(), AllocError> {
        match label {
            DeviceLabel::Start { piece, tag, block } => {
                self.start(*piece, *tag, decode(block.as_slice()).ok(), owner)
            }
            DeviceLabel::Act { piece, bytes } => {
                self.end(*piece, "act", bytes.as_slice().len() as u64)
            }
            DeviceLabel::Fault { piece } => self.end(*piece, "fault", 0),
            DeviceLabel::Return { piece, class } => self.come_back(*piece, *class),
        }
    }

    fn call(&mut self, number: u64, request: &ClientRequest) -> Result<(), AllocError> {
        let place = self.requests.len();
        self.request_places.insert(u128::from(number), place)?;
        self.steps.push(Step::Called(place))?;
        self.requests.push(Request {
            number,
            partition: request.partition,
            kind: request.kind,
            offset: request.offset,
            length: request.length,
            through: request.through,
            call: self.line,
            cancel: None,
            answer: None,
            sent: 0,
            taken: 0,
            lanes: 0,
        })?;
        Ok(())
    }

    fn start(
        &mut self,
        number: u128,
        tag: u8,
        command: Option<Cdb>,
        told: Option<u64>,
    ) -> Result<(), AllocError> {
        let place = self.pieces.len();
        self.piece_places.insert(number, place)?;
        self.steps.push(Step::Started(place))?;
        self.pieces.push(Piece {
            number,
            tag,
            command,
            start: self.line,
            fate: None,
            bytes: 0,
            back: None,
            told,
            owner: None,
            lane: 0,
        })?;
        Ok(())
    }

    /// Ends a piece by an act of so many bytes, or by a fault.
    fn end(&mut self, number: u128, word: &'static str, bytes: u64) -> Result<(), AllocError> {
        let line = self.line;
        match self.piece(number) {
            Some((_, piece)) => {
                piece.fate = Some((line, word));
                piece.bytes = bytes;
            }
            None => self.strays.push(line)?,
        }
        Ok(())
    }

    fn come_back(&mut self, number: u128, class: Class) -> Result<(), AllocError> {
        let line = self.line;
        match self.piece(number) {
            Some((place, piece)) => {
                piece.back = Some((line, class));
                self.steps.push(Step::CameBack(place))?;
            }
            None => self.strays.push(line)?,
        }
        Ok(())
    }

    fn cancel(&mut self, number: u64) -> Result<(), AllocError> {
        let line = self.line;
        match self.request(number) {
            Some((_, request)) => request.cancel = Some(line),
            None => self.strays.push(line)?,
        }
        Ok(())
    }

    fn answer(&mut self, number: u64, status: NtStatus, moved: u64) -> Result<(), AllocError> {
        let line = self.line;
        match self.request(number) {
            Some((place, request)) => {
                request.answer = Some(Answer {
                    line,
                    status,
                    moved,
                });
                self.steps.push(Step::Answered(place))?;
            }
            None => self.strays.push(line)?,
        }
        Ok(())
    }

    /// The piece of a number that was started last, where it is out.
    fn piece(&mut self, number: u128) -> Option<(usize, &mut Piece)> {
        let place = *self.piece_places.get(&number)?;
        let piece = self.pieces.get_mut(place)?;
        piece.back.is_none().then_some((place, piece))
    }

    /// The open request of a number.
    fn request(&mut self, number: u64) -> Option<(usize, &mut Request)> {
        let place = *self.request_places.get(&u128::from(number))?;
        let request = self.requests.get_mut(place)?;
        request.answer.is_none().then_some((place, request))
    }

    /// Ends the phase of the device, and says whether it was in one.
    fn end_phase(&mut self) -> bool {
        let line = self.line;
        match self.bands.last_mut() {
            Some(band) if band.end.is_none() => {
                band.end = Some(line);
                true
            }
            _ => false,
        }
    }

    fn begin(&mut self, word: &'static str) -> Result<(), AllocError> {
        self.end_phase();
        self.bands.push(Band {
            word,
            start: self.line,
            end: None,
        })?;
        Ok(())
    }

    fn resume(&mut self) -> Result<(), AllocError> {
        if !self.end_phase() {
            self.strays.push(self.line)?;
        }
        Ok(())
    }
}
