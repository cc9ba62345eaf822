//! Labels that are left of a trace, numbered so that they are a trace by themselves.

use crate::pruning::{Item, OnTags, number_of, parted, tag_of};
use std::alloc::{AllocError, Global};
use std::collections::BTreeMap;

/// The numbers that requests are given, or pieces, from 1.
#[derive(Drop)]
struct Numbers {
    given: BTreeMap<u128, u128>,
    count: u128,
}

/// A number as far from the one that is due as it was told.
fn shifted(told: u128, due_before: u128, due: u128) -> u128 {
    told.saturating_add(due).saturating_sub(due_before)
}

impl Numbers {
    fn new(alloc: Global) -> Numbers {
        Numbers {
            given: BTreeMap::new(alloc),
            count: 0,
        }
    }

    /// The number of one more that was told this number, where another was due.
    fn more(&mut self, told: u128, due: u128) -> Result<u128, AllocError> {
        self.count = self.count.saturating_add(1);
        let number = shifted(told, due, self.count);
        self.given.insert(told, number)?;
        Ok(number)
    }

    /// The number that was given to what was told this one, where another was due next.
    fn of(&self, told: u128, due: u128) -> u128 {
        match self.given.get(&told) {
            Some(number) => *number,
            None => shifted(told, due, self.count.saturating_add(1)),
        }
    }
}

/// The numbers of requests and pieces, and the tags, of the labels that are left.
#[derive(Drop)]
pub(crate) struct Renumbering {
    alloc: Global,
    /// Whether tags stay as they are told.
    any_tag: bool,
    requests: Numbers,
    pieces: Numbers,
    /// The tags that are given, and those that were told of the same pieces.
    given: OnTags,
    told: OnTags,
}

impl Renumbering {
    pub fn new(alloc: Global, any_tag: bool) -> Renumbering {
        Renumbering {
            alloc,
            any_tag,
            requests: Numbers::new(alloc),
            pieces: Numbers::new(alloc),
            given: OnTags::new(alloc),
            told: OnTags::new(alloc),
        }
    }

    /// Writes a label behind a text.
    pub fn write(&mut self, text: &mut Vec<u8>, item: &Item<'_>) -> Result<(), AllocError> {
        let number = match item.verb {
            "call" => self.requests.more(item.number, item.calls)?,
            "answer" | "cancel" => self.request(item.number, item),
            "act" | "fault" => self.piece(item),
            "return" => {
                self.given.take(item.number);
                self.told.take(item.number);
                self.piece(item)
            }
            "start" => return self.write_start(text, item),
            _ => return self.write_words(text, item.line, ""),
        };
        let verb = item.verb;
        let head = format!(in self.alloc; "{verb} {number}")?;
        self.write_words(text, head.as_str(), item.rest)
    }

    /// The number of a request that a label tells.
    fn request(&self, told: u128, item: &Item<'_>) -> u128 {
        self.requests.of(told, item.calls.saturating_add(1))
    }

    /// The number of the piece that a label tells.
    fn piece(&self, item: &Item<'_>) -> u128 {
        self.pieces.of(item.number, item.starts.saturating_add(1))
    }

    /// Writes words, and ends the line.
    fn write_words(&self, text: &mut Vec<u8>, head: &str, rest: &str) -> Result<(), AllocError> {
        text.extend_from_slice(head.as_bytes())?;
        if !rest.is_empty() {
            text.extend_from_slice(b" ")?;
            text.extend_from_slice(rest.as_bytes())?;
        }
        text.extend_from_slice(b"\n")
    }

    /// Writes a start: its rest is `tag T`, then a block, then `of R`, where it has them.
    fn write_start(&mut self, text: &mut Vec<u8>, item: &Item<'_>) -> Result<(), AllocError> {
        let (_, behind) = parted(item.rest);
        let (_, behind) = parted(behind);
        let (block, owner) = owner_behind(behind);
        let given = self.tag(item);
        self.told.put(item.number, tag_of(item))?;
        self.given.put(item.number, given)?;
        let number = self.pieces.more(item.number, item.starts)?;
        let head = format!(in self.alloc; "start {number} tag {given}")?;
        if owner.is_empty() {
            return self.write_words(text, head.as_str(), block);
        }
        let owner = self.request(number_of(owner), item);
        let space = if block.is_empty() { "" } else { " " };
        let rest = format!(in self.alloc; "{block}{space}of {owner}")?;
        self.write_words(text, head.as_str(), rest.as_str())
    }

    /// The tag of a start: the lowest that is free where it was; that of the piece that was on it; else as it was told.
    fn tag(&self, item: &Item<'_>) -> u128 {
        let told = tag_of(item);
        if self.any_tag {
            return told;
        }
        if item.lowest {
            return self.given.lowest();
        }
        self.given_for(told).unwrap_or(told)
    }

    /// The tag that is given to the piece that was told this one.
    fn given_for(&self, told: u128) -> Option<u128> {
        self.given.tag(self.told.piece(told)?)
    }
}

/// The block and the owner of a start, each empty where it has none.
fn owner_behind(words: &str) -> (&str, &str) {
    let (first, behind) = parted(words);
    if first == "of" {
        return ("", behind);
    }
    let (_, owner) = parted(behind);
    (first, owner)
}
