//! What is open and at the adapter, in words.

use judge::{Machine, OpenRequest, Started};
use machine::Label;
use std::alloc::{AllocError, Global};

/// A call that has no answer yet.
#[derive(Clone, Copy)]
struct Call {
    /// The number of its request.
    number: u64,
    /// The number of its line, from 1.
    line: u64,
}

/// The calls of a trace that have no answer before the newest label.
#[derive(Drop)]
pub(crate) struct Calls {
    calls: Vec<Call>,
    /// The request of the newest answer. Its call is forgotten with the next label: the answer may be refused.
    answered: Option<u64>,
}

impl Calls {
    pub fn new(alloc: Global) -> Calls {
        Calls {
            calls: Vec::new(alloc),
            answered: None,
        }
    }

    /// Notes a label, of the line of this number.
    pub fn note(&mut self, label: &Label, line: u64) -> Result<(), AllocError> {
        self.forget_answered();
        match label {
            Label::Call { number, .. } => self.add(*number, line),
            Label::Answer { number, .. } => {
                self.answered = Some(*number);
                Ok(())
            }
            _ => Ok(()),
        }
    }

    fn add(&mut self, number: u64, line: u64) -> Result<(), AllocError> {
        self.calls.push(Call { number, line })?;
        Ok(())
    }

    fn forget_answered(&mut self) {
        if let Some(number) = self.answered {
            self.calls.retain(|call| call.number != number);
            self.answered = None;
        }
    }

    /// The number of the line of a request's call.
    pub fn line_of(&self, number: u64) -> Option<u64> {
        for call in self.calls.as_slice() {
            if call.number == number {
                return Some(call.line);
            }
        }
        None
    }

    /// Tells what is open and at the adapter in a machine, each on a line of its own, in the order of their numbers.
    /// Each line has its end before it.
    pub fn tell(
        &self,
        alloc: Global,
        machine: &Machine,
        text: &mut String,
    ) -> Result<(), AllocError> {
        for request in machine.requests() {
            let line = self.open_line(alloc, request)?;
            text.push_str(line.as_str())?;
        }
        for piece in machine.pieces() {
            let line = out_line(alloc, piece)?;
            text.push_str(line.as_str())?;
        }
        Ok(())
    }

    /// Tells what is open and at the adapter in a machine, as two fields of a JSON object, each behind a comma.
    pub fn tell_json(
        &self,
        alloc: Global,
        machine: &Machine,
        text: &mut String,
    ) -> Result<(), AllocError> {
        text.push_str(", \"open\": [")?;
        let mut comma = "";
        for request in machine.requests() {
            let number = request.number();
            let line = self.line_of(number).unwrap_or(0);
            let begun = request.is_started();
            let item = format!(in alloc;
                "{comma}{{\"request\": {number}, \"line\": {line}, \"begun\": {begun}}}"
            )?;
            text.push_str(item.as_str())?;
            comma = ", ";
        }
        text.push_str("], \"out\": [")?;
        comma = "";
        for piece in machine.pieces() {
            let (number, owner, tag) = (piece.number(), piece.owner(), piece.tag());
            let item = format!(in alloc;
                "{comma}{{\"piece\": {number}, \"request\": {owner}, \"tag\": {tag}}}"
            )?;
            text.push_str(item.as_str())?;
            comma = ", ";
        }
        text.push_str("]")?;
        Ok(())
    }

    fn open_line(&self, alloc: Global, request: &OpenRequest) -> Result<String, AllocError> {
        let number = request.number();
        let line = self.line_of(number).unwrap_or(0);
        let state = if request.is_started() {
            "begun"
        } else {
            "waiting"
        };
        format!(in alloc; "\nopen: request {number} of line {line}, {state}")
    }
}

fn out_line(alloc: Global, piece: &Started) -> Result<String, AllocError> {
    let number = piece.number();
    let tag = piece.tag();
    let owner = piece.owner();
    format!(in alloc; "\nout: piece {number} of request {owner}, on tag {tag}")
}
