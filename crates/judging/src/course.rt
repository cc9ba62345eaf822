//! What the lines of a trace come to, as far as it was read.

ghost use Rattle.std.specs.Prelude.{◌≡◌, [], IfErr, IfOk, MatchOption, OnOk, length, string_bytes};
ghost use Rattle.std.specs.Io.KnownBytes.{Appends};
ghost use Rattle.judging.specs.Checked.{IsInTable, IsOutputFault, first_known, first_reader, is_call, is_start, partition_of, refused_line, rules_by, tags_for};
ghost use Rattle.judge.specs.Views.{rules_of};
ghost use Rattle.judging.specs.inside.Course.{GoesByLine, GoesOn, HasTried, IsAbsent, IsCounted, IsFit, IsLineRead, IsOpening, IsRefusedFor, IsStop, IsStopByLine, IsStopOf, IsStopped, SaysRefused, Tallies, Tries, broken_as, unjudged};
ghost use Rattle.judging.specs.declared.faults.Error.TheVariants.{NoMemory};

use crate::Error;
use crate::details::Scene;
use crate::fields::Fields;
use crate::misstep::Misstep;
use crate::opened::{Standard, arrays_of, extents_by, rules_of, zeros};
use crate::past::Past;
use crate::progress::Progress;
use crate::told::Told;
use judge::stepwise::{Judge, Refusal};
use judge::{MachineRules, NoVerdict, Rule};
use judge_words::asked::Asked;
use machine::Label;
use srb::DeviceLabel;
use std::alloc::{AllocError, Global};
use std::io;
use std::io::Write;
use trace_line::Line;
use trace_reader::known::Known;
use trace_reader::{Reader, Recorded};
use trace_tags::Tags;

/// What the lines of a trace come to, as far as it was read.
#[derive(Drop)]
pub(crate) enum Course {
    /// They are a run.
    Legal(Trial),
    /// One of them was refused, and that is written.
    Refused(Stop),
}

/// Lines that are a run.
#[derive(Drop)]
pub(crate) struct Trial {
    /// The judge that has taken them.
    pub judge: Judge,
    /// How its lines are read.
    pub reader: Reader,
    /// The counts of their labels.
    pub tally: Tally,
    /// What a refusal tells of them.
    pub past: Past,
    /// Whether a refusal is told as a JSON object.
    pub json: bool,
}

/// The first line that is refused.
#[derive(Clone, Copy)]
pub(crate) struct Stop {
    /// Its number, from 1.
    pub line: u64,
    pub misstep: Misstep,
}

/// How many labels there are, and how many of them are calls and starts of pieces.
#[derive(Clone, Copy)]
pub(crate) struct Tally {
    pub labels: u64,
    pub calls: u64,
    pub starts: u64,
}

impl Tally {
    /// The tally of no label.
    fn none() -> Tally
        ensures { result ≡ record { labels = 0; calls = 0; starts = 0 } }
    {
        Tally {
            labels: 0,
            calls: 0,
            starts: 0,
        }
    }

    /// The tally with one label more.
    fn with(self, label: &Label) -> Tally
        ensures { Tallies self label.now result }
    {
        let calls = if is_call(label) { 1 } else { 0 };
        let starts = if is_start(label) { 1 } else { 0 };
        Tally {
            labels: self.labels.saturating_add(1),
            calls: self.calls.saturating_add(calls),
            starts: self.starts.saturating_add(starts),
        }
    }
}

fn is_call(label: &Label) -> bool
    ensures { result ≡ is_call label.now }
{
    matches!(label, Label::Call { .. })
}

fn is_start(label: &Label) -> bool
    ensures { result ≡ is_start label.now }
{
    matches!(label, Label::Device(DeviceLabel::Start { .. }))
}

/// The partition of a call, if the label is one and its handle is open.
fn partition_of(label: &Label) -> Option<u8>
    ensures { result ≡ partition_of label.now }
{
    match label {
        Label::Call { request, .. } => request.partition,
        _ => None,
    }
}

/// The partition of a call that none of so many is, if the label is one.
#[tactic(auto, using(crate::proofs::Trying::below_none, crate::proofs::Trying::below_some))]
fn absent_of(label: &Label, count: u64) -> Option<u8>
    ensures { MatchOption result (IsInTable count label.now) (IsAbsent count label.now) }
{
    let Some(partition) = partition_of(label) else {
        return None;
    };
    if (partition as u64) < count {
        return None;
    }
    Some(partition)
}

/// The number of partitions.
fn count_of(judge: &Judge) -> u64
    ensures { result ≡ length judge.now.rules.partitions }
{
    let rules = judge.rules();
    rules.partitions.len() as u64
}

/// The tags before the first line, where any free one will do.
fn first_tags(alloc: Global, rules: &MachineRules, asked: Asked) -> Option<Tags>
    ensures { result ≡ tags_for asked (rules_of rules.now).depth }
{
    if asked.any_tag {
        Some(Tags::new(alloc, rules.depth))
    } else {
        None
    }
}

/// What is known of bytes before the first line.
fn known_at_first(alloc: Global, standard: &Standard) -> Result<Known, AllocError>
    ensures { IfOk result (λ known. known ≡ first_known standard.now) }
{
    let partitions = extents_by(alloc, standard)?;
    let config = &standard.config;
    let sectors = zeros(alloc, config, config.sectors)?;
    Ok(Known::new(alloc, config.sector_size, partitions, sectors))
}

/// How the first line is read.
fn first_reader(
    alloc: Global,
    standard: &Standard,
    rules: &MachineRules,
) -> Result<Reader, AllocError>
    ensures { IfOk result (λ reader. (rules_of rules.now).depth ≡ (rules_by standard.now).depth → reader ≡ first_reader standard.now) }
{
    let tags = first_tags(alloc, rules, standard.asked);
    if !standard.asked.gaps {
        return Ok(Reader { tags, known: None });
    }
    let known = known_at_first(alloc, standard)?;
    Ok(Reader {
        tags,
        known: Some(known),
    })
}

impl Trial {
    /// A trial that has taken no line.
    fn opening(alloc: Global, standard: &Standard) -> Result<Trial, Error>
        ensures none { IfOk result (HasTried standard.now []) }
        ensures fault { IfErr result (λ fault. fault ≡ NoMemory) }
    {
        let rules = rules_of(alloc, standard)?;
        let reader = first_reader(alloc, standard, &rules)?;
        let arrays = arrays_of(alloc, standard)?;
        let Ok(judge) = Judge::new(alloc, rules, arrays) else {
            return Err(Error::NoMemory);
        };
        Ok(Trial {
            judge,
            reader,
            tally: Tally::none(),
            past: Past::new(alloc),
            json: standard.asked.json,
        })
    }

    /// Why a line is refused before it is judged: there is no such partition, or it can't be read.
    fn unfit(&self, line: &Recorded) -> Option<Misstep>
        ensures { MatchOption result (IsFit self.now line.now) (IsRefusedFor self.now line.now) }
    {
        let count = count_of(&self.judge);
        if let Some(partition) = absent_of(&line.line.label, count) {
            return Some(Misstep::NoPartition { partition, count });
        }
        if let Some(rule) = self.reader.broken(line) {
            return Some(Misstep::Read(rule));
        }
        None
    }

    /// Returns the line as it is judged.
    fn read(&mut self, alloc: Global, line: Recorded) -> Result<Line, Error>
        ensures read { IfOk result (λ told. IsLineRead self.old line told self.new) }
        ensures fault { IfErr result (λ fault. fault ≡ NoMemory) }
    {
        let told = self.reader.read(alloc, line)?;
        Ok(told)
    }

    /// Why a line is refused that breaks a rule, as it is judged.
    fn broken(&self, rule: Rule) -> Misstep
        ensures { result ≡ broken_as self.now.reader.known rule }
    {
        match self.reader.known {
            Some(_) => Misstep::Blank(rule),
            None => Misstep::Breaks(rule),
        }
    }

    /// What comes of one line more, of this number.
    #[tactic(auto, using(crate::proofs::Trying::output_stops))]
    fn with<O: Write>(
        mut self,
        alloc: Global,
        line: Recorded,
        number: u64,
        out: &mut O,
    ) -> Result<Course, Error>
        ensures tries { IfOk result (Tries self line number (O.contents out.old) (O.contents out.new)) }
        ensures fault { IfErr result (IsStopByLine self number (O.contents out.old) (O.contents out.new)) }
    {
        if let Some(misstep) = self.unfit(&line) {
            let stop = Stop {
                line: number,
                misstep,
            };
            self.past.note_own(&line, self.reader.known.is_some())?;
            return self.stopped(alloc, &line.line, stop, out);
        }
        self.count(&line, number)?;
        let told = self.read(alloc, line)?;
        match self.judge.take_line(alloc, &told) {
            Ok(()) => Ok(Course::Legal(self)),
            Err(Refusal::Breaks(rule)) => {
                let stop = Stop {
                    line: number,
                    misstep: self.broken(rule),
                };
                self.stopped(alloc, &told, stop, out)
            }
            Err(Refusal::NoVerdict(why)) => Err(no_verdict(number, why)),
        }
    }

    /// Writes that this line is refused, and stops there.
    fn stopped<O: Write>(
        self,
        alloc: Global,
        line: &Line,
        stop: Stop,
        out: &mut O,
    ) -> Result<Course, Error>
        ensures stops { IfOk result (IsStopped self.json stop.line stop.misstep (O.contents out.old) (O.contents out.new)) }
        ensures fault { IfErr result IsOutputFault }
    {
        self.say_refused(alloc, line, stop, out)?;
        Ok(Course::Refused(stop))
    }

    /// Counts the label of the line of this number.
    fn count(&mut self, line: &Recorded, number: u64) -> Result<(), Error>
        ensures counted { OnOk result (IsCounted self.old line.now.line.label self.new) }
        ensures fault { IfErr result (λ fault. fault ≡ NoMemory) }
    {
        let label = &line.line.label;
        self.past.note_own(line, self.reader.known.is_some())?;
        self.past
            .note(&self.judge, &self.reader.known, label, number)?;
        self.tally = self.tally.with(label);
        Ok(())
    }

    /// Writes why this line is refused, and flushes it.
    fn say_refused<O: Write>(
        &self,
        alloc: Global,
        line: &Line,
        stop: Stop,
        out: &mut O,
    ) -> Result<(), Error>
        ensures said { OnOk result (SaysRefused self.now.json stop.line stop.misstep (O.contents out.old) (O.contents out.new)) }
        ensures fault { IfErr result IsOutputFault }
    {
        let more = self.told_of(alloc, line, stop.misstep)?;
        write_refused(out, self.json, stop, &more)?;
        out.flush()?;
        Ok(())
    }

    /// What a line is about that is refused, and what is open and out.
    fn told_of(&self, alloc: Global, line: &Line, misstep: Misstep) -> Result<String, AllocError> {
        let scene = Scene {
            judge: &self.judge,
            past: &self.past,
            known: &self.reader.known,
            line,
            misstep,
        };
        let mut fields = Fields::new(alloc, self.json);
        scene.tell(alloc, &mut fields)?;
        let mut text = fields.text;
        self.tell_left(alloc, &mut text)?;
        Ok(text)
    }

    /// Tells what is open and out.
    fn tell_left(&self, alloc: Global, text: &mut String) -> Result<(), AllocError> {
        match self.judge.machines().first() {
            Some(machine) if self.json => self.past.calls.tell_json(alloc, machine, text),
            Some(machine) => self.past.calls.tell(alloc, machine, text),
            None => Ok(()),
        }
    }

    /// What is open and out, and what should have gone before, if that is asked for.
    pub fn left(&self, alloc: Global, asked: Asked) -> Result<String, AllocError> {
        let mut text = String::new(alloc);
        self.tell_left(alloc, &mut text)?;
        if !asked.settled {
            return Ok(text);
        }
        if let Some(undone) = self.judge.undone() {
            let line = if self.json {
                format!(in alloc; ", \"undone\": \"{undone}\"")?
            } else {
                format!(in alloc; "\nundone: {undone}")?
            };
            text.push_str(line.as_str())?;
        }
        Ok(text)
    }
}

impl Course {
    /// The course before any line was read.
    pub fn opening(alloc: Global, standard: &Standard) -> Result<Course, Error>
        ensures none { IfOk result (IsOpening standard.now) }
        ensures fault { IfErr result (λ fault. fault ≡ NoMemory) }
    {
        let trial = Trial::opening(alloc, standard)?;
        Ok(Course::Legal(trial))
    }

    /// Says how many labels are a run, where one more is told.
    pub fn say<W: Write>(&self, told: &Told, progress: &mut Progress<W>) {
        if let (Course::Legal(trial), Told::Line(_)) = (self, told) {
            progress.say(trial.tally.labels);
        }
    }

    /// The course with one line more, which has this number and tells this.
    pub fn after<O: Write>(
        self,
        alloc: Global,
        told: Told,
        line: u64,
        out: &mut O,
    ) -> Result<Course, Error>
        ensures goes { IfOk result (GoesOn self told line (O.contents out.old) (O.contents out.new)) }
        ensures fault { IfErr result (IsStop self told line (O.contents out.old) (O.contents out.new)) }
    {
        match told {
            Told::Line(told) => self.with(alloc, told, line, out),
            Told::Nothing => Ok(self),
            Told::BadWord { column } => Err(Error::BadLine { line, column }),
        }
    }

    /// The course with a line that tells a label.
    fn with<O: Write>(
        self,
        alloc: Global,
        line: Recorded,
        number: u64,
        out: &mut O,
    ) -> Result<Course, Error>
        ensures goes { IfOk result (GoesByLine self line number (O.contents out.old) (O.contents out.new)) }
        ensures fault { IfErr result (IsStopOf self number (O.contents out.old) (O.contents out.new)) }
    {
        match self {
            Course::Legal(trial) => trial.with(alloc, line, number, out),
            Course::Refused(stop) => Ok(Course::Refused(stop)),
        }
    }
}

/// Why there is no verdict on the line of this number.
fn no_verdict(line: u64, why: NoVerdict) -> Error
    ensures { result ≡ unjudged line why }
{
    match why {
        NoVerdict::Readings { readings } => Error::Readings { line, readings },
        NoVerdict::NoMemory => Error::NoMemory,
    }
}

/// Writes why a line is refused, with more behind it.
fn write_refused<O: Write>(out: &mut O, json: bool, stop: Stop, more: &String) -> io::Result<()>
    ensures { OnOk result (Appends (O.contents out.old) (O.contents out.new) (refused_line json stop.line stop.misstep (string_bytes more.now))) }
{
    let Stop { line, misstep } = stop;
    let more = more.as_str();
    if json {
        return writeln!(
            out,
            "{{\"verdict\": \"refused\", \"line\": {line}, \"rule\": \"{misstep}\"{more}}}"
        );
    }
    writeln!(out, "line {line}: {misstep}{more}")
}
