//! A client's session over storage whose content isn't shown.

ghost use Rattle.std.specs.Prelude.{◌≡◌, IfErr, IfOk, OnOk};
ghost use Rattle.std.specs.Io.KnownBytes.{Appends};
ghost use Rattle.nbd.specs.Replies.{outcome_of, reply_bytes};
ghost use Rattle.nbd.specs.Over.{IsSessionOver};
ghost use Rattle.nbd.specs.inside.Over.{EndsOver, IsExchangedOver, IsServedOver};

use crate::End;
use crate::backing::Backing;
use crate::handshake::begin;
use crate::replies::{Answer, write_reply};
use crate::requests::{ReplyError, Request, command_of, payload_count};
use crate::session::next_request;
use crate::streams::{skip, take_all_in};
use crate::waiting::{Ahead, pass_on};
use std::alloc::Global;
use std::io::Write;

/// Serves a client as [`serve`](crate::serve) does, over storage whose content isn't shown.
///
/// Replies are passed on together while the next two requests are writes without flags that were read ahead whole, but
/// before `input` is asked for more bytes than it has read ahead.
pub fn serve_over<R: Ahead, W: Write, B: Backing>(
    alloc: Global,
    backing: &mut B,
    input: &mut R,
    out: &mut W,
) -> End
    ensures { IsSessionOver B.Carries (B.shape backing.old) backing.old (R.remaining input.old) (W.contents out.old) result backing.new (W.contents out.new) }
{
    match begin(input, out, backing.sizes()) {
        Ok(()) => serve_requests(alloc, backing, input, out),
        Err(end) => end,
    }
}

/// Serves requests until the client leaves, or can't go on.
fn serve_requests<R: Ahead, W: Write, B: Backing>(
    alloc: Global,
    backing: &mut B,
    input: &mut R,
    out: &mut W,
) -> End
    ensures { EndsOver B.Carries (B.shape backing.old) backing.old (R.remaining input.old) (W.contents out.old) result backing.new (W.contents out.new) }
{
    for _ in 0..u64::MAX {
        if let Err(end) = exchange(alloc, backing, input, out) {
            return end;
        }
    }
    End::Input
}

/// Serves one request.
///
/// # Errors
///
/// How the session ends.
fn exchange<R: Ahead, W: Write, B: Backing>(
    alloc: Global,
    backing: &mut B,
    input: &mut R,
    out: &mut W,
) -> Result<(), End>
    ensures exchanged { OnOk result (IsExchangedOver B.Carries (B.shape backing.old) backing.old (R.remaining input.old) (W.contents out.old) backing.new (R.remaining input.new) (W.contents out.new)) }
    ensures ended { IfErr result (λ end. EndsOver B.Carries (B.shape backing.old) backing.old (R.remaining input.old) (W.contents out.old) end backing.new (W.contents out.new)) }
    ensures same { B.shape backing.new ≡ B.shape backing.old }
{
    let request = next_request(input)?;
    let answer = serve_request(alloc, backing, input, request)?;
    tell(input, out, request.cookie, &answer)?;
    keep(backing, answer);
    Ok(())
}

/// Writes a reply, and passes it on or leaves it to those behind it.
///
/// # Errors
///
/// [`End::Output`].
fn tell<R: Ahead, W: Write>(input: &R, out: &mut W, cookie: u64, answer: &Answer) -> Result<(), End>
    ensures told { OnOk result (Appends (W.contents out.old) (W.contents out.new) (reply_bytes cookie (outcome_of answer.now))) }
    ensures ended { IfErr result (λ end. end ≡ End.Output) }
{
    let written = write_reply(out, cookie, answer);
    if written.is_err() || pass_on(input, out).is_err() {
        return Err(End::Output);
    }
    Ok(())
}

/// Hands the memory of an answer back, for the next command.
fn keep<B: Backing>(backing: &mut B, answer: Answer)
    ensures { backing.new ≡ backing.old }
{
    if let Answer::Data(bytes) = answer {
        backing.take_back(bytes);
    }
}

/// Does what a request asks for, if it may be done. The bytes behind it are taken in each case.
///
/// # Errors
///
/// [`End::Input`] where the bytes behind it don't come. The storage is then as it was.
fn serve_request<R: Ahead, B: Backing>(
    alloc: Global,
    backing: &mut B,
    input: &mut R,
    request: Request,
) -> Result<Answer, End>
    ensures served { IfOk result (λ answer. IsServedOver B.Carries (B.shape backing.old) request backing.old (R.remaining input.old) (R.remaining input.new) (outcome_of answer) backing.new) }
    ensures ended { IfErr result (λ end. (end ≡ End.Input) × (backing.new ≡ backing.old)) }
    ensures same { B.shape backing.new ≡ B.shape backing.old }
{
    match command_of(request, backing.sizes()) {
        Err(error) => {
            skip(input, payload_count(request))?;
            Ok(Answer::Refused(error))
        }
        Ok(command) => {
            let count = payload_count(request);
            let kept = kept_for(alloc, backing, count);
            let Some(payload) = take_all_in(kept, input, count)? else {
                return Ok(Answer::Refused(ReplyError::Enomem));
            };
            input.read_on();
            Ok(backing.carry_out(alloc, command, payload))
        }
    }
}

/// Returns memory for the bytes behind a request. Where none come, the storage keeps what it has.
fn kept_for<B: Backing>(alloc: Global, backing: &mut B, count: u32) -> Vec<u8>
    ensures { backing.new ≡ backing.old }
{
    if count == 0 {
        Vec::new(alloc)
    } else {
        backing.lend(alloc)
    }
}
