//! What a line of a script asks of a book or of a host.

use script::{Order, ScriptFault, lines};
use sector::Bytes;
use std::alloc::{AllocError, Global};
use std::process::Abort;

/// The order of a line.
pub(crate) fn order_of(rt: &impl Abort, alloc: Global, line: &str) -> Result<Order, AllocError> {
    match lines(alloc, line) {
        Ok(lines) => match lines.first() {
            Some(line) => Ok(line.order),
            None => panic!(rt; "no order"),
        },
        Err(ScriptFault::NoMemory) => Err(AllocError),
        Err(fault) => panic!(rt; "{fault}"),
    }
}

/// The client that a read, a write or a flush is of: client 0 has handle 1, and client 1 handle 2.
pub(crate) fn client_of(order: Order) -> Option<usize> {
    match order {
        Order::Read { handle, .. } | Order::Write { handle, .. } | Order::Flush { handle } => {
            Some(if handle == 1 { 0 } else { 1 })
        }
        _ => None,
    }
}

/// Equal bytes.
pub(crate) fn bytes(alloc: Global, byte: u8, length: u64) -> Result<Bytes, AllocError> {
    Ok(Bytes::new(vec![in alloc; byte; length as usize]?))
}

/// A tag, or one that no adapter has.
pub(crate) fn tag_of(tag: u64) -> u8 {
    u8::try_from(tag).unwrap_or(u8::MAX)
}
