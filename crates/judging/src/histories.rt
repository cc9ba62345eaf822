//! A history, judged: what clients saw of a service, calls and answers with their bytes.

ghost use Rattle.std.specs.Prelude.{◌≡◌, ◌<◌, IfOk, option_map};
ghost use Rattle.settings.specs.InRange.{AreInRange};
ghost use Rattle.judging.specs.Histories.{IsLargestDisk, IsOfService, IsServiceBy, IsServiceOf, is_seen, with_line};
ghost use Rattle.judging.specs.inside.Saying.{IsBy, IsSaid};

use crate::Error;
use crate::findings::{Finding, object_of, write_finding};
use crate::opened::{extents, whole_disk, zero_sector};
use crate::progress::Progress;
use crate::reading::{is_ended, next_line, without_end};
use crate::told::{Told, told_by};
use compose::LONGEST_REQUEST;
use history_judge::{History, Place, Refusal, Service};
use machine::Label;
use settings::Config;
use startup::{Verdict, read_settings};
use std::alloc::{AllocError, Global};
use std::io::{BufRead, BufReader, Read, Write};
use trace_reader::Recorded as RecordedLine;

/// How many bytes are read at once.
const BUFFER: usize = 65_536;

/// How many labels are read before they are judged the first time.
const FIRST_LOOK: u64 = 4_096;

/// How a history is judged, and told of.
#[derive(Debug, Clone, Copy)]
pub struct Terms {
    /// Whether each sector may have had any bytes at the start, and not zeros alone.
    pub any_start: bool,
    /// Whether the verdict is told as a JSON object.
    pub json: bool,
}

/// Where it is told what a history is, and how far it was read.
#[derive(Drop)]
pub struct Listeners<O, W> {
    pub out: O,
    pub progress: Progress<W>,
}

/// The calls and answers of a text.
#[derive(Drop)]
pub(crate) struct Recorded {
    /// Lines count from 1.
    pub history: History,
}

/// What is said of a history.
#[derive(Debug, Clone, Copy)]
pub(crate) enum Said {
    By(history_judge::Verdict),
    /// It passes only with the effects of writes on this sector that were answered DEVICE_BUSY, of which none can have acted on
    /// all its sectors.
    Busy(Place),
}

impl Recorded {
    /// What is told of a refusal, if that is said.
    fn refusal(&self, alloc: Global, said: Said) -> Result<Option<Refusal>, AllocError> {
        match said {
            Said::By(history_judge::Verdict::Refused { place, .. }) => {
                self.history.refusal(alloc, place)
            }
            _ => Ok(None),
        }
    }

    /// What is told of it.
    fn finding(&self, alloc: Global) -> Result<Finding, AllocError> {
        let said = judged(alloc, self)?;
        Ok(Finding {
            said,
            refusal: self.refusal(alloc, said)?,
        })
    }
}

/// Judges a history by the sizes and partitions of some settings, or where none are given of the largest disk, from sectors of
/// zeros, or where it is asked for of any bytes, and writes what it is: `legal` with the number of its requests, the first line
/// at which it is explained by no run, or the sector that is undecided. It has passed where it is legal. Bytes that were not
/// recorded may have been any. Lines of the service's device are passed over. A line that can't stand where it does ends the
/// reading; what no order of requests explains ends it when the lines have doubled.
///
/// # Errors
///
/// The first of these that comes: the settings can't be read, or are refused; the history can't be read, or has a bad
/// line; it has no call and no answer; `out` failed. Where memory was refused, [`Error::NoMemory`].
pub fn judge_history<C: Read + Drop, T: Read + Drop, O: Write, W: Write>(
    alloc: Global,
    config: Option<C>,
    history: T,
    terms: Terms,
    listeners: &mut Listeners<O, W>,
) -> Result<Verdict, Error> {
    let service = read_service(alloc, config)?;
    let Ok(mut input) = BufReader::with_capacity(alloc, BUFFER, history) else {
        return Err(Error::NoMemory);
    };
    let history = no_label(alloc, service, terms.any_start)?;
    let history = read_history(alloc, &mut input, history, &mut listeners.progress)?;
    let recorded = Recorded { history };
    if recorded.history.count() == 0 {
        return Err(Error::NoLabel);
    }
    let finding = recorded.finding(alloc)?;
    if terms.json {
        let object = object_of(alloc, &recorded, &finding)?;
        writeln!(listeners.out, "{object}")?;
    } else {
        write_finding(&mut listeners.out, &recorded, &finding)?;
    }
    listeners.out.flush()?;
    Ok(match finding.said {
        Said::By(history_judge::Verdict::Passed) => Verdict::Passed,
        _ => Verdict::Failed,
    })
}

/// What is said of a history. Where it passes, writes that were answered DEVICE_BUSY must be none, or it has to pass without
/// their effects, too.
fn judged(alloc: Global, recorded: &Recorded) -> Result<Said, AllocError>
    ensures { IfOk result (IsSaid recorded.now.history) }
{
    let verdict = recorded.history.judge(alloc)?;
    match verdict {
        history_judge::Verdict::Passed => judged_idle(alloc, recorded, verdict),
        _ => Ok(Said::By(verdict)),
    }
}

/// The same of a history that has this verdict where such writes may have effects.
fn judged_idle(
    alloc: Global,
    recorded: &Recorded,
    verdict: history_judge::Verdict,
) -> Result<Said, AllocError>
    ensures { IfOk result (IsBy verdict) }
{
    match recorded.history.fails_without_busy(alloc)? {
        Some(place) => Ok(Said::Busy(place)),
        None => Ok(Said::By(verdict)),
    }
}

/// A history of a service, from sectors of zeros, or where it is asked for of any bytes, with no label.
fn no_label(alloc: Global, service: Service, any: bool) -> Result<History, AllocError>
    requires { 0 < service.sector_size }
    ensures { IfOk result (IsOfService service any) }
{
    let start = zero_sector(alloc, service.sector_size)?;
    History::new(alloc, service, start.as_slice(), any)
}

/// Takes the calls and answers that the lines of an input tell, up to the end or to where no run explains them. Whether one
/// does is looked at whenever the labels have doubled, and where one can't come behind those before it.
fn read_history<B: BufRead, W: Write>(
    alloc: Global,
    input: &mut B,
    history: History,
    progress: &mut Progress<W>,
) -> Result<History, Error> {
    let mut history = history;
    let mut line = Vec::new(alloc);
    let mut next_look = FIRST_LOOK;
    for index in 0..u64::MAX {
        next_line(input, &mut line)?;
        let number = index + 1;
        match told_by(alloc, without_end(line.as_slice()))? {
            Told::Line(told) => {
                history = with(alloc, history, number, &told)?;
                progress.say_read(history.count());
            }
            Told::Nothing => {}
            Told::BadWord { column } => {
                return Err(Error::BadLine {
                    line: number,
                    column,
                });
            }
        }
        if !is_ended(line.as_slice()) || is_refused(alloc, &history, &mut next_look)? {
            return Ok(history);
        }
    }
    Err(Error::TraceUnreadable)
}

/// Whether clients see a label: it is a call or an answer.
fn is_seen(label: &Label) -> bool
    ensures { result ≡ is_seen label.now }
{
    matches!(label, Label::Call { .. } | Label::Answer { .. })
}

/// Takes the label of a line of this number, unless it is of the service's device.
fn with(
    alloc: Global,
    history: History,
    number: u64,
    told: &RecordedLine,
) -> Result<History, AllocError>
    ensures { IfOk result (λ h. h ≡ with_line told.now history) }
{
    let RecordedLine { line, untold } = told;
    if !is_seen(&line.label) {
        return Ok(history);
    }
    let recorded = !*untold;
    history.push(alloc, number, &line.label, recorded)
}

/// Whether no run explains a history, whatever comes behind it.
fn is_refused(alloc: Global, history: &History, next_look: &mut u64) -> Result<bool, AllocError> {
    if history.misfit().is_some() {
        return Ok(true);
    }
    if history.count() < *next_look {
        return Ok(false);
    }
    *next_look = history.count().saturating_mul(2);
    let verdict = history.judge(alloc)?;
    Ok(matches!(verdict, history_judge::Verdict::Refused { .. }))
}

/// The service that the settings of an input describe, or where there is no input the largest disk.
///
/// # Errors
///
/// The settings can't be read, or are refused. Where memory was refused, [`Error::NoMemory`].
pub(crate) fn read_service<C: Read + Drop>(
    alloc: Global,
    config: Option<C>,
) -> Result<Service, Error>
    ensures sized { IfOk result (λ service. 0 < service.sector_size) }
    ensures service { IfOk result (IsServiceBy (option_map (λ input. C.remaining input) config)) }
{
    match config {
        Some(config) => {
            let config = read_settings(alloc, config)?;
            let service = service_of(alloc, &config)?;
            Ok(service)
        }
        None => {
            let service = largest_disk(alloc)?;
            Ok(service)
        }
    }
}

/// The service that some settings describe.
fn service_of(alloc: Global, config: &Config) -> Result<Service, AllocError>
    requires { AreInRange config.now }
    ensures { IfOk result (IsServiceOf config.now) }
{
    Ok(Service {
        sector_size: config.sector_size,
        partitions: extents(alloc, config.partitions.as_slice())?,
        longest: LONGEST_REQUEST as u64,
    })
}

/// Bytes of a sector where there are no settings.
const SECTOR_SIZE: u32 = 512;

/// The most sectors that settings may give a disk.
const MOST_SECTORS: u64 = 1_099_511_627_776;

/// A service of one partition, which is the largest disk.
fn largest_disk(alloc: Global) -> Result<Service, AllocError>
    ensures { IfOk result IsLargestDisk }
{
    let partitions = whole_disk(alloc, MOST_SECTORS)?;
    let longest = LONGEST_REQUEST as u64;
    Ok(Service {
        sector_size: SECTOR_SIZE,
        partitions,
        longest,
    })
}
