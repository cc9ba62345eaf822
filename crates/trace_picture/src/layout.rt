//! Where everything stands in the picture, in pixels.

use crate::facts::{Facts, Piece, Request};
use crate::words::Name;
use ntstatus::NtStatus;
use std::alloc::AllocError;

/// Up to this many lines the columns are widest, and each request has a row of its own.
const FEW: u64 = 400;
/// The widest column of a line.
const WIDEST: u64 = 18;
/// The narrowest.
const NARROWEST: u64 = 4;
/// Above that many lines the columns share this width, as long as it lasts.
const SHARED: u64 = FEW * WIDEST;
/// The room behind the last line, and for the status of a request.
const STATUS: u64 = 180;
/// The room for the short name of a request.
const SHORT: u64 = 70;
/// Where the rows begin, below the legend and the numbers of the lines.
pub(crate) const HEAD: u64 = 140;
/// The height of the row of a tag, and of a caption.
pub(crate) const ROW: u64 = 26;
/// The height of the bar in such a row.
pub(crate) const BAR: u64 = 20;
/// The height of a piece in the bar of its request, where there are several.
const LANE: u64 = 13;
/// The row of a request that isn't shown.
const NOWHERE: usize = usize::MAX;

/// A row for requests.
#[derive(Clone, Copy)]
pub(crate) struct Row {
    pub y: u64,
    /// The most pieces that stand one below the other.
    lanes: u64,
    /// Up to where it is taken.
    end: u64,
}

/// A rectangle.
#[derive(Clone, Copy)]
pub(crate) struct Bar {
    pub x: u64,
    pub y: u64,
    pub width: u64,
    pub height: u64,
}

/// What is drawn, and where it stands.
#[derive(Clone, Copy)]
pub(crate) struct Scene<'a> {
    pub facts: &'a Facts,
    pub layout: &'a Layout,
}

impl Bar {
    /// The middle of its height.
    pub fn middle(self) -> u64 {
        self.y.saturating_add(self.height / 2)
    }
}

#[derive(Drop)]
pub(crate) struct Layout {
    /// The first line that is shown.
    first: u64,
    /// The last.
    last: u64,
    /// The width of the column of one line.
    pub column: u64,
    /// Where the lines begin, behind the names.
    left: u64,
    /// Whether several requests share a row.
    pub is_shared: bool,
    /// Where the row of each tag is, where there is one.
    pub tags: [Option<u64>; 256],
    /// Where the caption of the requests is.
    pub requests: u64,
    pub rows: Vec<Row>,
    /// The row of each request.
    pub places: Vec<usize>,
    /// Where the rows end.
    pub bottom: u64,
}

impl Layout {
    /// Returns where the parts of a picture stand.
    pub fn of(facts: &Facts) -> Result<Layout, AllocError> {
        let (first, last) = facts.shown.unwrap_or((1, facts.line));
        let last = last.min(facts.line);
        let lines = last.saturating_add(1).saturating_sub(first);
        let mut layout = Layout {
            first,
            last,
            column: column_of(lines),
            left: left_of(facts, lines)?,
            is_shared: lines > FEW,
            tags: [None; 256],
            requests: HEAD,
            rows: Vec::new(facts.alloc),
            places: Vec::new(facts.alloc),
            bottom: HEAD,
        };
        layout.place_tags(facts);
        layout.place_requests(facts)?;
        Ok(layout)
    }

    /// The width of the sheet: at least that of the legend.
    pub fn width(&self) -> u64 {
        self.x_of(self.last).saturating_add(STATUS).max(1000)
    }

    /// Whether a line is shown.
    pub fn has(&self, line: u64) -> bool {
        self.first <= line && line <= self.last
    }

    /// Whether some line is shown from one to another, or to the end of the trace.
    pub fn shows(&self, start: u64, end: Option<u64>) -> bool {
        start <= self.last && self.first <= end.unwrap_or(self.last)
    }

    /// The lines that are shown, from the first to the last.
    pub fn lines(&self) -> (u64, u64) {
        (self.first, self.last)
    }

    /// The middle of the column of a line. What comes before the first line that is shown is at its left, and what comes
    /// behind the last at its right.
    pub fn x_of(&self, line: u64) -> u64 {
        let line = line.min(self.last.saturating_add(1));
        let before = line.saturating_add(1).saturating_sub(self.first);
        self.left.saturating_add(before.saturating_mul(self.column))
    }

    /// The bar from one line to another, or to the end of the trace, in the row that begins at `y`.
    pub fn bar_of(&self, start: u64, end: Option<u64>, y: u64) -> Bar {
        let x = self.x_of(start);
        let right = self.x_of(end.unwrap_or(self.last.saturating_add(1)));
        Bar {
            x,
            y: y.saturating_add(3),
            width: right.saturating_sub(x).max(1),
            height: BAR,
        }
    }

    /// The bar of the request at a place.
    pub fn request_bar(&self, request: &Request, place: usize) -> Option<Bar> {
        let row = self.rows.get(*self.places.get(place)?)?;
        let bar = self.bar_of(request.call, request.end(), row.y);
        let height = height_of(request.lanes);
        Some(Bar { height, ..bar })
    }

    /// The row of a piece's request, if that was found.
    pub fn row_of(&self, piece: &Piece) -> Option<usize> {
        Some(*self.places.get(piece.owner?)?)
    }

    /// The bar of a piece in the bar of its request, if that was found.
    pub fn piece_bar(&self, facts: &Facts, piece: &Piece) -> Option<Bar> {
        let request = facts.owner_of(piece)?;
        let row = self.rows.get(self.row_of(piece)?)?;
        let lane = piece.lane.saturating_mul(LANE);
        let (down, height) = if request.lanes < 2 {
            (3, BAR - 6)
        } else {
            (2, LANE - 1)
        };
        let y = row.y.saturating_add(lane).saturating_add(down);
        let bar = self.bar_of(piece.start, piece.end(), y);
        Some(Bar { height, ..bar })
    }

    /// Places a row for each tag that has pieces, below their caption.
    fn place_tags(&mut self, facts: &Facts) {
        for piece in facts.pieces.iter() {
            if self.shows(piece.start, piece.end()) {
                self.tags[piece.tag as usize] = Some(0);
            }
        }
        let mut y = HEAD + ROW;
        for tag in self.tags.iter_mut() {
            if tag.is_some() {
                *tag = Some(y);
                y = y.saturating_add(ROW);
            }
        }
        self.requests = y;
    }

    /// Gives each request a row, and places the rows below their caption.
    fn place_requests(&mut self, facts: &Facts) -> Result<(), AllocError> {
        for request in facts.requests.iter() {
            let row = if self.shows(request.call, request.end()) {
                self.row_for(request)?
            } else {
                NOWHERE
            };
            self.places.push(row)?;
        }
        let mut y = self.requests.saturating_add(ROW);
        for row in self.rows.iter_mut() {
            row.y = y;
            y = y.saturating_add(height_of(row.lanes)).saturating_add(6);
        }
        self.bottom = y;
        Ok(())
    }

    /// Gives a request the first row that is free.
    fn row_for(&mut self, request: &Request) -> Result<usize, AllocError> {
        let row = first_free(self.rows.as_slice(), self.x_of(request.call));
        let end = self.end_of(request);
        take_row(&mut self.rows, row, request.lanes, end)?;
        Ok(row)
    }

    /// Returns up to where the row of a request is taken: to the end of its status where others may share it.
    fn end_of(&self, request: &Request) -> u64 {
        match request.answer {
            _ if !self.is_shared => u64::MAX,
            Some(answer) if answer.status == NtStatus::Success => self.x_of(answer.line),
            Some(answer) => self.x_of(answer.line).saturating_add(STATUS),
            None => u64::MAX,
        }
    }
}

/// The height of a bar of so many lanes.
fn height_of(lanes: u64) -> u64 {
    lanes.saturating_mul(LANE).saturating_add(3).max(BAR)
}

/// The width of the column of one line, where there are this many.
fn column_of(lines: u64) -> u64 {
    if lines <= FEW {
        return WIDEST;
    }
    (SHARED / lines).max(NARROWEST)
}

/// The width of the column of names, which requests have where each has a row of its own.
fn left_of(facts: &Facts, lines: u64) -> Result<u64, AllocError> {
    let mut letters = 12;
    for request in facts.requests.iter() {
        if lines <= FEW {
            let name = format!(in facts.alloc; "{}", Name(request))?;
            letters = letters.max(name.len() as u64);
        }
    }
    Ok(letters.saturating_mul(7).saturating_add(12))
}

/// Every how many lines a number stands, so that numbers do not touch.
pub(crate) fn step_of(column: u64) -> u64 {
    match column {
        WIDEST => 2,
        10..WIDEST => 5,
        5..10 => 10,
        _ => 20,
    }
}

/// The first row that is free from here on; else the next one.
fn first_free(rows: &[Row], start: u64) -> usize {
    for (number, row) in rows.iter().enumerate() {
        if row.end.saturating_add(SHORT) <= start {
            return number;
        }
    }
    rows.len()
}

/// Takes a row up to here for a request of so many lanes; a new one where that is the next.
fn take_row(rows: &mut Vec<Row>, number: usize, lanes: u64, end: u64) -> Result<(), AllocError> {
    if let Some(row) = rows.get_mut(number) {
        row.lanes = row.lanes.max(lanes);
        row.end = end;
        return Ok(());
    }
    rows.push(Row { y: 0, lanes, end })?;
    Ok(())
}
