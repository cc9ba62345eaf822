//! What an event of a stack asks for, and its refusal for want of memory: for who must know before the step.
//!
//! # Promises
//!
//! The kind is that of the request that a read, a write or a flush would open (`kind` of [`kind_of`]). A refusal gives
//! back just the bytes that the event hands in ([`refused`]).
#![tactic(auto)]

ghost use Rattle.std.specs.Prelude.{◌≡◌, IfSome};
ghost use Rattle.io_manager.specs.declared.Refusal.TheVariants.{InsufficientResources};
ghost use Rattle.io_manager.specs.declared.Reply.TheVariants.{Refused as RefusedReply};
ghost use Rattle.compose.specs.StepLaws.{IsTransferEvent};
ghost use Rattle.asking.specs.Asking.{bytes_of, kind_asked};

use compose::{Event, Refusal, Reply};
use sector::Bytes;
use srb::Kind;
use std::alloc::Global;

/// The kind of the request that an event asks for: that of a read, a write or a flush.
pub fn kind_of(event: &Event) -> Option<Kind>
    ensures transfer { IfSome result (λ _. IsTransferEvent event.now) }
    ensures kind { result ≡ kind_asked event.now }
{
    match event {
        Event::Read { .. } => Some(Kind::Read),
        Event::Write { .. } => Some(Kind::Write),
        Event::Flush { .. } => Some(Kind::Flush),
        _ => None,
    }
}

/// The refusal of an event for want of memory, with the caller's bytes.
pub fn refused(alloc: Global, event: Event) -> Reply
    ensures { result ≡ RefusedReply InsufficientResources (bytes_of event) }
{
    let bytes = match event {
        Event::Read { buffer, .. } => buffer,
        Event::Write { bytes, .. } => bytes,
        _ => Bytes::new(Vec::new(alloc)),
    };
    Reply::Refused {
        refusal: Refusal::InsufficientResources,
        bytes,
    }
}
