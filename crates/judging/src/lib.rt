//! What the program `stackjudge` can be asked to do, but for its files and its output: whether a trace that was
//! recorded is a run of the machine that some settings describe, what it can be cut down to where it is none, the trace
//! of a script, a picture of a trace, and whether each sector of a history has a schedule.
//!
//! # Promises
//!
//! `read_standard`: an input's settings, whose partitions are a map (`read`), or why not (`fault`). `check` prints
//! `legal` exactly for a trace that can be read and is then a run of the settings' machine, as it is asked (`CanBeRead`,
//! `rules_by`), and passes exactly where for each end that is asked for some state that it leads to has it (`IsLegal`,
//! `Meets`); else it prints the first line that is refused, and the rule (`IsFirstRefused`, `printed`). Without a verdict:
//! why (`fault`), and what was written before (`told`). `cut`: a text is written that is refused for the same as the
//! trace, but for numbers, or only a remark where the trace is a run (`printed`); that it is small is only tested.
//! `record_script`: the labels of a script's steps, or why not (`text`, `fault`). Inside: the service of a history is that of
//! the settings' stack, or without settings the largest disk (`IsServiceBy`), and its sectors begin with zeros, or where that
//! is asked for with any bytes (`IsOfService`, `AreOfService`); each line is taken as it was recorded (`with_line`), and what
//! is said is right (`IsSaid`, `IsSaidOfSessions`); a trace of several sessions is judged by the settings' rules, with its
//! sectors apart (`AreJudged`). How `judge_history`, `judge_session_history` and `check_sessions` read, and what they write,
//! is only tested, and so is what stands behind a verdict's rule or numbers, and pictures and progress.
#![tactic(auto)]

pub mod checking;
mod clashes;
mod course;
pub mod cutting;
mod details;
pub mod drawing;
mod faults;
mod fields;
mod findings;
pub mod histories;
mod left;
mod misstep;
pub mod opened;
mod past;
pub mod progress;
mod pruning;
mod reading;
mod renumbering;
pub mod scripts;
pub mod session_histories;
pub mod sessions;
mod told;

pub use faults::Error;
pub use misstep::Misstep;
