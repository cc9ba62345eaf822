//! A history over several sessions, judged: between two of them power was lost, or the process ended.

ghost use Rattle.std.specs.Prelude.{◌<◌, IfOk};
ghost use Rattle.judging.specs.SessionHistories.{AreOfService};
ghost use Rattle.judging.specs.inside.Saying.{IsSaidOfSessions};

use crate::Error;
use crate::fields::Fields;
use crate::findings::{broken_object, text_of};
use crate::histories::{Listeners, read_service};
use crate::opened::zero_sector;
use crate::progress::Progress;
use crate::reading::{is_ended, next_line, without_end};
use crate::told::{Told, told_whole};
use history_fitting::Service;
use history_loss_judge::SessionHistory;
use machine::Label;
use ntstatus::NtStatus;
use startup::Verdict;
use std::alloc::{AllocError, Global};
use std::io;
use std::io::{BufRead, BufReader, Read, Write};

/// How many bytes are read at once.
const BUFFER: usize = 65_536;

/// The calls and answers of a text, and what ended its sessions.
#[derive(Drop)]
struct Recorded {
    /// Lines count from 1.
    history: SessionHistory,
    /// Whether something was answered DEVICE_BUSY.
    was_busy: bool,
}

/// What is said of such a history.
#[derive(Debug, Clone, Copy)]
pub(crate) enum Said {
    By(history_loss_judge::Verdict),
    /// It passes, and a request was answered DEVICE_BUSY, which can't have acted on all its sectors.
    Busy,
}

/// Judges a history over several sessions, by the sizes and partitions of some settings, or where none are given of the largest
/// disk, from sectors of zeros, and writes what it is, as `judge_history` does. All bytes have to be recorded. A line `lost` says that power was lost, a line `ended` that the process ended; behind it
/// requests count from 1, and none of before is answered.
///
/// # Errors
///
/// The first of these that comes: the settings can't be read, or are refused; the history can't be read, or has a bad
/// line; it has no call and no answer; `out` failed. Where memory was refused, [`Error::NoMemory`].
pub fn judge_session_history<C: Read + Drop, T: Read + Drop, O: Write, W: Write>(
    alloc: Global,
    config: Option<C>,
    history: T,
    json: bool,
    listeners: &mut Listeners<O, W>,
) -> Result<Verdict, Error> {
    let service = read_service(alloc, config)?;
    let Ok(mut input) = BufReader::with_capacity(alloc, BUFFER, history) else {
        return Err(Error::NoMemory);
    };
    let history = no_line(alloc, service)?;
    let recorded = read_sessions(alloc, &mut input, history, &mut listeners.progress)?;
    if recorded.history.count() == 0 {
        return Err(Error::NoLabel);
    }
    let said = judged(alloc, &recorded)?;
    if json {
        let object = object_of(alloc, &recorded, said)?;
        writeln!(listeners.out, "{object}")?;
    } else {
        write_said(&mut listeners.out, &recorded, said)?;
    }
    listeners.out.flush()?;
    Ok(match said {
        Said::By(history_loss_judge::Verdict::Passed) => Verdict::Passed,
        _ => Verdict::Failed,
    })
}

/// What is said of a history.
fn judged(alloc: Global, recorded: &Recorded) -> Result<Said, AllocError>
    ensures { IfOk result (IsSaidOfSessions recorded.now.history) }
{
    let verdict = recorded.history.judge(alloc)?;
    match verdict {
        history_loss_judge::Verdict::Passed if recorded.was_busy => Ok(Said::Busy),
        _ => Ok(Said::By(verdict)),
    }
}

/// A history of a service, from sectors of zeros, with no line.
fn no_line(alloc: Global, service: Service) -> Result<SessionHistory, AllocError>
    requires { 0 < service.sector_size }
    ensures { IfOk result (AreOfService service) }
{
    let start = zero_sector(alloc, service.sector_size)?;
    SessionHistory::new(alloc, service, start.as_slice())
}

impl Recorded {
    /// Takes a line of this number.
    fn with(self, alloc: Global, number: u64, line: &[u8]) -> Result<Recorded, Error> {
        let Recorded { history, was_busy } = self;
        if matches!(line, [b'l', b'o', b's', b't']) {
            let history = history.lost(alloc, number)?;
            return Ok(Recorded { history, was_busy });
        }
        if matches!(line, [b'e', b'n', b'd', b'e', b'd']) {
            let history = history.ended(alloc, number)?;
            return Ok(Recorded { history, was_busy });
        }
        match told_whole(alloc, line)? {
            Told::Line(told) => {
                let busy = is_busy(&told.line.label);
                let history = with_label(alloc, history, number, &told.line.label)?;
                Ok(Recorded {
                    history,
                    was_busy: was_busy || busy,
                })
            }
            Told::Nothing => Ok(Recorded { history, was_busy }),
            Told::BadWord { column } => Err(Error::BadLine {
                line: number,
                column,
            }),
        }
    }
}

/// Whether a label answers DEVICE_BUSY.
fn is_busy(label: &Label) -> bool {
    matches!(
        label,
        Label::Answer {
            status: NtStatus::DeviceBusy,
            ..
        }
    )
}

/// Takes the label of a line, unless it is of the service's device.
fn with_label(
    alloc: Global,
    history: SessionHistory,
    line: u64,
    label: &Label,
) -> Result<SessionHistory, AllocError> {
    if !matches!(label, Label::Call { .. } | Label::Answer { .. }) {
        return Ok(history);
    }
    history.push(alloc, line, label)
}

/// Takes what the lines of an input tell, up to the end or to a label that can't come behind those before it.
fn read_sessions<B: BufRead, W: Write>(
    alloc: Global,
    input: &mut B,
    history: SessionHistory,
    progress: &mut Progress<W>,
) -> Result<Recorded, Error> {
    let mut recorded = Recorded {
        history,
        was_busy: false,
    };
    let mut line = Vec::new(alloc);
    for index in 0..u64::MAX {
        next_line(input, &mut line)?;
        recorded = recorded.with(alloc, index + 1, without_end(line.as_slice()))?;
        progress.say_read(recorded.history.count());
        if !is_ended(line.as_slice()) || recorded.history.misfit().is_some() {
            return Ok(recorded);
        }
    }
    Err(Error::TraceUnreadable)
}

/// The rule of a line at which a sector has no schedule.
const NO_ORDER: &str = "no order of the requests, and nothing that a loss may leave, explains it";

/// Writes what is said of a history.
fn write_said<O: Write>(out: &mut O, recorded: &Recorded, said: Said) -> io::Result<()> {
    match said {
        Said::By(verdict) => write_verdict(out, recorded, verdict),
        Said::Busy => writeln!(
            out,
            "undecided: an answer is DEVICE_BUSY, and its request can't have acted on all its sectors"
        ),
    }
}

/// Writes a verdict.
fn write_verdict<O: Write>(
    out: &mut O,
    recorded: &Recorded,
    verdict: history_loss_judge::Verdict,
) -> io::Result<()> {
    match verdict {
        history_loss_judge::Verdict::Passed => {
            let requests = recorded.history.requests();
            let sectors = recorded.history.sectors();
            writeln!(out, "legal: {requests} requests, {sectors} sectors")
        }
        history_loss_judge::Verdict::Misfit { line, why } => {
            let told = text_of(why);
            writeln!(out, "line {line}: {told}")
        }
        history_loss_judge::Verdict::Refused { sector, line } => writeln!(
            out,
            "line {line}: no order of the requests, and nothing that a loss may leave, explains sector {sector} of the disk"
        ),
        history_loss_judge::Verdict::Undecided { sector } => writeln!(
            out,
            "undecided: sector {sector} of the disk may be in too many states"
        ),
        history_loss_judge::Verdict::Open { sector } => writeln!(
            out,
            "undecided: sector {sector} of the disk is explained only if a flush, or a write with FUA, that did not succeed left it in doubt"
        ),
        history_loss_judge::Verdict::Owing { .. } => writeln!(
            out,
            "undecided: a session ended before the answer of a call that is refused"
        ),
    }
}

/// What is said of a history, as a JSON object.
fn object_of(alloc: Global, recorded: &Recorded, said: Said) -> Result<String, AllocError> {
    match said {
        Said::By(verdict) => verdict_object(alloc, recorded, verdict),
        Said::Busy => undecided_object(alloc, "busy", None),
    }
}

/// That a history is undecided, and why, and which sector, if it is one.
fn undecided_object(alloc: Global, why: &str, sector: Option<u64>) -> Result<String, AllocError> {
    let mut fields = Fields::new(alloc, true);
    if let Some(sector) = sector {
        fields.number("block", Some(sector as u128))?;
    }
    let more = fields.text.as_str();
    format!(in alloc; "{{\"verdict\": \"undecided\", \"why\": \"{why}\"{more}}}")
}

/// A verdict.
fn verdict_object(
    alloc: Global,
    recorded: &Recorded,
    verdict: history_loss_judge::Verdict,
) -> Result<String, AllocError> {
    match verdict {
        history_loss_judge::Verdict::Passed => {
            let requests = recorded.history.requests();
            let sectors = recorded.history.sectors();
            format!(in alloc;
                "{{\"verdict\": \"legal\", \"requests\": {requests}, \"sectors\": {sectors}}}"
            )
        }
        history_loss_judge::Verdict::Misfit { line, why } => {
            let mut fields = Fields::new(alloc, true);
            fields.number("request", Some(recorded.history.stopped() as u128))?;
            broken_object(alloc, line, text_of(why), &fields)
        }
        history_loss_judge::Verdict::Refused { sector, line } => {
            let mut fields = Fields::new(alloc, true);
            fields.number("block", Some(sector as u128))?;
            broken_object(alloc, line, NO_ORDER, &fields)
        }
        history_loss_judge::Verdict::Undecided { sector } => {
            undecided_object(alloc, "states", Some(sector))
        }
        history_loss_judge::Verdict::Open { sector } => {
            undecided_object(alloc, "sync", Some(sector))
        }
        history_loss_judge::Verdict::Owing { .. } => undecided_object(alloc, "owing", None),
    }
}
