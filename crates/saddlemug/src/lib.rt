//! The stack as a static library for C. Its header is `saddlemug.h`, which says what C has to know.
//!
//! C holds a [`Cell`], which begins as zeros: it is empty. A cell may hold a volume, which is one partition of a disk
//! in memory as an array of bytes, a whole stack, or a judge of runs. Each call is carried out whole, and answers an
//! NTSTATUS. A disk in memory is that of a text of settings, or of a struct.
//!
//! # Promises
//!
//! 0 just where it was done, else why not: `saddlemug_open_into`, `saddlemug_stack_open_into` (`status`),
//! `saddlemug_read` (`reads`), `saddlemug_write` (`writes`, `in_bounds`), `saddlemug_stack_step` (`steps`, `status`). A
//! read, write or flush that was sent tells its request's one answer, with write-through as asked (`answered`); a read
//! or a flush leaves the disk as it was (`same`). What `saddlemug_run` tells as zeros is (`runs`). Labels and answers
//! are told (`told`), also that of a number (`saddlemug_stack_take_answer_of`), or the next one, which stays
//! (`saddlemug_stack_first_answer`), names and what is wrong with settings (`TellsFault`). A disk by numbers is that of
//! settings with these values (`AreTold`). Where nothing is told C's struct or buffer is as it was (`as_it_was`), and
//! so is a buffer behind the bytes that are told (`behind`); an event that isn't carried out leaves the stack as it was
//! (`IsNotStepped`). Over C's own storage: `saddlemug_over_open` (`IsNewOver`, `IsOverStatus`), `saddlemug_over_armed`
//! (`TellsArmed`, `StandsAt`), `saddlemug_over_book`, of just what may be booked (`BooksTold`, `IsBookStatus`). A
//! judge: of the settings' stack (`IsNewJudge`); 0 just where a label or a line is taken (`takes`, by `GoesBy` of
//! referee), with the sentence (`TellsWhy`) and whether anything is left undone (`settled`); a label has its one line
//! (`TellsLine`). The cell goes on holding what is of its kind (`held`). Nothing checks that C passes the right slot
//! and no overlapping arguments. `unsafe`: C's pointer (`RawBox::into_box`) and the exports' names.
#![tactic(auto)]

mod asked;
mod booking;
mod bytes;
mod cell;
mod events;
mod faults;
mod instance;
mod judge_calls;
mod judged;
mod label_kinds;
mod labels;
mod memory_calls;
mod memory_disk;
mod memory_stack;
mod memory_volume;
mod names;
mod opening;
mod opening_over;
mod over;
mod over_calls;
mod places;
mod raw_box;
mod stack_calls;
mod status;
mod stepping;
mod volume_calls;
