//! A session whose requests are served side by side.

ghost use Rattle.std.specs.Prelude.{◌≡◌, OnOk};
ghost use Rattle.std.specs.Io.KnownBytes.{Appends};
ghost use Rattle.nbd.specs.Replies.{outcome_of, reply_bytes};
ghost use Rattle.nbd.specs.Desks.{EndsSince, Keeps};

use crate::End;
use crate::replies::{Answer, write_reply};
use std::io;
use std::io::Write;
use std::sync::Wait;

/// What happened at a desk.
#[derive(Debug, Drop)]
pub enum Happening {
    /// A request was read, and is answered later.
    Read,
    /// The request at this place, counted as they were read, is answered.
    Answered {
        place: u64,
        cookie: u64,
        answer: Answer,
    },
    /// Nothing comes for now, and what was written is to be passed on.
    Idle,
    /// The client has left or can't go on, and all that was read is answered.
    Ended(End),
}

/// What reads a client's requests, and has them served side by side.
pub trait Desk {
    ghost use Rattle.std.specs.Prelude.{◌≡◌, ℕ, List, Option};
    ghost use Rattle.nbd.specs.Beside.{Account};
    ghost use Rattle.nbd.specs.Desks.{GoesOn, Keeps};

    /// The bytes that the client has sent and that weren't read.
    ghost remaining: { Self → Option (List ℕ) };

    /// What holds of a desk that stood so at first, by which this was said since, and that stands so now.
    ghost Since: { Self → Account → Self → Type 0 };

    /// Waits for what happens next.
    fn next(&mut self) -> Happening
        ensures { GoesOn remaining Since self.old result self.new };

    /// Takes the memory of an answer that was written, for a later one.
    fn take_back(&mut self, bytes: Vec<u8>)
        ensures unread { remaining self.new ≡ remaining self.old }
        ensures keeps { Keeps Since self.old self.new };
}

/// Writes each answer as it comes, until the client has left or can't go on.
pub fn serve_beside<H: Wait, D: Desk, W: Write>(rt: &H, desk: &mut D, out: &mut W) -> End
    ensures { EndsSince D.Since desk.old (D.remaining desk.old) (W.contents out.old) result desk.new (W.contents out.new) }
{
    for _ in rt.forever() {
        match desk.next() {
            Happening::Read => {}
            Happening::Answered { cookie, answer, .. } => {
                if tell(desk, out, cookie, answer).is_err() {
                    return End::Output;
                }
            }
            Happening::Idle => {
                if out.flush().is_err() {
                    return End::Output;
                }
            }
            Happening::Ended(end) => {
                if out.flush().is_err() {
                    return End::Output;
                }
                return end;
            }
        }
    }
    unreachable!()
}

/// Writes a reply, and hands the memory of its answer back.
///
/// # Errors
///
/// The errors of the writer.
#[tactic(auto, using(crate::proofs::Desking::keeps_none))]
fn tell<D: Desk, W: Write>(desk: &mut D, out: &mut W, cookie: u64, answer: Answer) -> io::Result<()>
    ensures told { OnOk result (Appends (W.contents out.old) (W.contents out.new) (reply_bytes cookie (outcome_of answer))) }
    ensures unread { D.remaining desk.new ≡ D.remaining desk.old }
    ensures keeps { Keeps D.Since desk.old desk.new }
{
    write_reply(out, cookie, &answer)?;
    if let Answer::Data(bytes) = answer {
        desk.take_back(bytes);
    }
    Ok(())
}
