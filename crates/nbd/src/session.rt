//! A client's session.

ghost use Rattle.std.specs.Prelude.{◌≡◌, ◌≤◌, length, IfErr, IfOk, MatchResult, OnOk};
ghost use Rattle.std.specs.Io.KnownBytes.{Appends};
ghost use Rattle.nbd.specs.Replies.{outcome_of};
ghost use Rattle.nbd.specs.Chunks.{reply_in};
ghost use Rattle.nbd.specs.Handshake.{IsSession};
ghost use Rattle.nbd.specs.Session.{TakesLast};
ghost use Rattle.nbd.specs.inside.Session.{Ends, IsExchanged, TakesRequest};

use crate::End;
use crate::arrays::Array;
use crate::carrying::serve_request;
use crate::chunks::write_reply_in;
use crate::constants::{LONGEST, NBD_CMD_DISC};
use crate::dialects::Dialect;
use crate::handshake::begin_in;
use crate::replies::Answer;
use crate::requests::{Request, parse_request};
use crate::status::tell_status;
use crate::streams::take;
use std::alloc::Global;
use std::io::{Read, Write};

/// Serves a client: greets it, answers its options, and serves its requests until it leaves, or can't go on.
pub fn serve<R: Read, W: Write, A: Array>(
    alloc: Global,
    array: &mut A,
    input: &mut R,
    out: &mut W,
) -> End
    ensures { IsSession A.fails (A.content array.old) (R.remaining input.old) (W.contents out.old) result (A.content array.new) (W.contents out.new) }
{
    match begin_in(input, out, array.sizes(), Dialect::Simple) {
        Ok(dialect) => serve_requests(alloc, array, input, out, dialect),
        Err(end) => end,
    }
}

/// Serves requests until the client leaves, or can't go on.
fn serve_requests<R: Read, W: Write, A: Array>(
    alloc: Global,
    array: &mut A,
    input: &mut R,
    out: &mut W,
    dialect: Dialect,
) -> End
    ensures { Ends A.fails dialect (A.content array.old) (R.remaining input.old) (W.contents out.old) result (A.content array.new) (W.contents out.new) }
{
    for _ in 0..u64::MAX {
        if let Err(end) = exchange(alloc, array, input, out, dialect) {
            return end;
        }
    }
    End::Input
}

/// Serves one request.
///
/// # Errors
///
/// How the session ends.
fn exchange<R: Read, W: Write, A: Array>(
    alloc: Global,
    array: &mut A,
    input: &mut R,
    out: &mut W,
    dialect: Dialect,
) -> Result<(), End>
    ensures exchanged { OnOk result (IsExchanged A.fails dialect (A.content array.old) (R.remaining input.old) (W.contents out.old) (A.content array.new) (R.remaining input.new) (W.contents out.new)) }
    ensures ended { IfErr result (λ end. Ends A.fails dialect (A.content array.old) (R.remaining input.old) (W.contents out.old) end (A.content array.new) (W.contents out.new)) }
{
    let request = next_request(input)?;
    if dialect.asks_status(request) {
        return tell_status(array, out, request);
    }
    let answer = serve_request(alloc, array, input, request)?;
    tell(out, dialect, request, &answer)?;
    Ok(())
}

/// Takes the next request.
///
/// # Errors
///
/// [`End::Left`] at NBD_CMD_DISC, [`End::Malformed`], [`End::Input`].
pub(crate) fn next_request<R: Read>(input: &mut R) -> Result<Request, End>
    ensures taken { IfOk result (TakesRequest (R.remaining input.old) (R.remaining input.new)) }
    ensures ended { IfErr result (TakesLast (R.remaining input.old)) }
{
    let mut header = [0; 28];
    take(input, &mut header)?;
    match parse_request(&header) {
        None => Err(End::Malformed),
        Some(request) if request.kind == NBD_CMD_DISC => Err(End::Left),
        Some(request) => Ok(request),
    }
}

/// Writes a reply, and passes it on.
///
/// # Errors
///
/// [`End::Output`].
fn tell<W: Write>(
    out: &mut W,
    dialect: Dialect,
    request: Request,
    answer: &Answer,
) -> Result<(), End>
    requires { length (outcome_of answer.now).content ≤ LONGEST }
    ensures told { OnOk result (Appends (W.contents out.old) (W.contents out.new) (reply_in dialect request (outcome_of answer.now))) }
    ensures ended { IfErr result (λ end. end ≡ End.Output) }
{
    let written = write_reply_in(out, dialect, request, answer);
    if written.is_err() || out.flush().is_err() {
        return Err(End::Output);
    }
    Ok(())
}
