//! What stands on a disk after its power was lost, or after the process ended that served it.
//!
//! Beside a run of the machine that moves no sectors stands a table of what each sector may hold: what a read may give
//! now, and what a loss may leave. A flush makes certain what was written before it started; a sync that fails puts
//! every sector in doubt until it is written and synced again. Each function does nothing, and its contract is a law of
//! such tables, or what the definitions come to on small cases.
//!
//! That a storage does what the table says is a premise, and not said here.
//!
//! # Promises
//!
//! A write that was answered SUCCESS is what a loss leaves of its sectors once a flush that was called behind its answer
//! was answered SUCCESS, with no failed sync between (`success_is_left`), and at once where it went past volatile caches
//! (`ThroughIsLeft`); until the sector is written again (`certain_is_left`). Nothing else is left than what was there or
//! was written, each sector whole (`OnlyWritten`).
#![tactic(auto)]

ghost use Rattle.loss.specs.Laws.{
  CertainIsLeft,
  CertainStays,
  FlushIsLeft,
  OnlyWritten,
  OwnIsBrought,
  SuccessIsLeft,
  SuccessIsRead,
  TablesAreOne,
  ThroughIsLeft,
};
ghost use Rattle.loss.specs.Worked.{AreChangedByHand, AreHeldByHand, AreRefutedByHand};

/// A write that was answered SUCCESS is read, and once a flush that was called behind its answer was answered SUCCESS
/// it is what a loss leaves; a write that went past volatile caches is so at once.
pub fn success_is_left()
    ensures read { SuccessIsRead }
    ensures through { ThroughIsLeft }
    ensures flush { FlushIsLeft }
    ensures all { SuccessIsLeft }
    ensures own { OwnIsBrought }
{}

/// What is certain stays so until the sector is written again, and a loss leaves it.
pub fn certain_is_left()
    ensures stays { CertainStays }
    ensures left { CertainIsLeft }
{}

/// Nothing is left but what was there or was written, each sector whole; and what a label does is determined.
pub fn only_written_is_left()
    ensures written { OnlyWritten }
    ensures determined { TablesAreOne }
{}

/// What sectors hold after some changes, worked out by hand.
pub fn works_out()
    ensures held { AreHeldByHand }
    ensures refuted { AreRefutedByHand }
    ensures changes { AreChangedByHand }
{}
