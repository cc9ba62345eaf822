//! Requests that are read before those in front of them are answered.

ghost use Rattle.std.specs.Prelude.{◌<◌, IfErr, IfOk};
ghost use Rattle.nbd.specs.Incoming.{IsIncoming};
ghost use Rattle.nbd.specs.Session.{TakesLast};

use crate::End;
use crate::arrays::Sizes;
use crate::requests::{Command, ReplyError, Request, command_of, parse_request, payload_count};
use crate::session::next_request;
use crate::streams::{skip, take_all_in};
use crate::waiting::Ahead;
use std::alloc::Global;

/// A request that was read, with the bytes behind it.
#[derive(Debug, Drop)]
pub struct Incoming {
    pub request: Request,
    /// What it asks for, or why it isn't done.
    pub asked: Result<Command, ReplyError>,
    /// The bytes behind it, where it asks for a command and there are some; else memory with whatever bytes it has.
    pub payload: Vec<u8>,
}

/// Reads a request of an array of these sizes, and the bytes behind it into memory that was kept. Where it isn't done
/// they are passed over.
///
/// # Errors
///
/// [`End::Left`] at NBD_CMD_DISC, [`End::Malformed`], [`End::Input`].
#[tactic(auto, using(crate::proofs::Arriving::arrives_wrong, crate::proofs::Arriving::arrives_unheld, crate::proofs::Arriving::arrives_bare, crate::proofs::Arriving::arrives_whole, crate::proofs::Arriving::ends_within))]
pub fn take_request<R: Ahead>(
    alloc: Global,
    kept: Vec<u8>,
    input: &mut R,
    sizes: Sizes,
) -> Result<Incoming, End>
    requires { 0 < sizes.block }
    ensures taken { IfOk result (IsIncoming sizes (R.remaining input.old) (R.remaining input.new)) }
    ensures ended { IfErr result (TakesLast (R.remaining input.old)) }
{
    let request = next_request(input)?;
    let count = payload_count(request);
    match command_of(request, sizes) {
        Err(error) => {
            skip(input, count)?;
            Ok(Incoming {
                request,
                asked: Err(error),
                payload: kept,
            })
        }
        Ok(command) if count == 0 => Ok(Incoming {
            request,
            asked: Ok(command),
            payload: kept,
        }),
        Ok(command) => {
            let Some(payload) = take_all_in(kept, input, count)? else {
                return Ok(Incoming {
                    request,
                    asked: Err(ReplyError::Enomem),
                    payload: Vec::new(alloc),
                });
            };
            Ok(Incoming {
                request,
                asked: Ok(command),
                payload,
            })
        }
    }
}

/// Whether these bytes begin with a whole request, or with what is none.
pub fn begins_whole(bytes: &[u8]) -> bool {
    let Some((header, rest)) = bytes.split_at_checked(28) else {
        return false;
    };
    match parse_request(header) {
        Some(request) => payload_count(request) as usize <= rest.len(),
        None => true,
    }
}
