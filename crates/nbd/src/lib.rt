//! The NBD protocol of a server: the fixed newstyle handshake, and requests with simple replies, or with structured ones
//! for a client of an [`Array`] that asks for them.
//!
//! No contract says when replies are passed on. [`serve`] passes each on at once. [`serve_over`] may pass several on
//! together, but does so before it waits for more bytes of the client.
//!
//! # Promises
//!
//! `serve` is a session (`IsSession`): the handshake tells write protection (NBD_FLAG_READ_ONLY), then come just the
//! replies to the requests read, in order; the array moved by just these, failures within their bytes. In bounds only
//! the array or memory fails (`Fails`), a flush by the array alone (`Flushes`). Who asked for structured replies has them
//! (`reply_in`), and by the context `base:allocation` only zeros are told as zeros (`TellsStatus`). `serve_over`: simple
//! replies alone, over a storage's own relation (`Backing`, `IsSessionOver`). `parse_request`, `command_of`,
//! `parse_option`, `write_reply`, `write_replies` are exact, with one spelling a request (`one_spelling`). `begin` is what
//! comes before the requests (`Opens`, `EndsUnasked`), `serve_beside` just one reply to each request read, by its cookie,
//! in the order of answers (`EndsSince`), for which `take_request` reads; together a whole session (`IsSessionBeside`,
//! `makes_a_session`). Only tested: that a flush and a write past caches reach the array as such, and that zeros are told.
#![tactic(auto)]

mod arrays;
mod backing;
mod beside;
mod carrying;
mod chunks;
mod constants;
mod contexts;
mod dialects;
mod handshake;
mod incoming;
mod laws;
mod memory;
mod options;
mod over;
mod replies;
mod requests;
mod session;
mod standing;
mod status;
mod streams;
mod waiting;

pub use arrays::{Array, ArrayFault, Run, Sizes};
pub use backing::Backing;
pub use beside::{Desk, Happening, serve_beside};
pub use constants::LONGEST;
pub use dialects::Dialect;
pub use handshake::begin;
pub use incoming::{Incoming, begins_whole, take_request};
pub use laws::{makes_a_session, one_spelling, written_inside};
pub use memory::MemArray;
pub use options::{Next, OptionError, Wish, parse_option, write_replies};
pub use over::serve_over;
pub use replies::{Answer, write_reply};
pub use requests::{Command, ReplyError, Request, command_of, parse_request, payload_count};
pub use session::serve;
pub use streams::take_in_two;
pub use waiting::Ahead;

/// How a session ended.
#[derive(Debug, Clone, Copy, PartialEq, Eq)]
pub enum End {
    /// The client left by the protocol: NBD_OPT_ABORT or NBD_CMD_DISC.
    Left,
    /// The client's bytes are not the protocol, or NBD_OPT_EXPORT_NAME names an export that isn't there.
    Malformed,
    /// No more bytes came, or reading failed.
    Input,
    /// Writing failed.
    Output,
}
