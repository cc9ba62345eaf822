//! What a history over sessions shows of each sector tells whether sessions explain it.
//!
//! A sync is a flush, or a write past volatile caches. One that fails puts all sectors in doubt, at one moment. So where
//! syncs fail no sector can tell by itself whether a history is explained. Here a sync that does not succeed, since it
//! fails or its session ends before its answer, is left out of what a sector shows (`steady_sights_of`): such a flush is
//! taken to change nothing, and such a write no sectors but its own. What then has a schedule in each sector is explained.
//! What has none may yet be explained, by a sync that failed at some moment: that is left open.
//!
//! # Promises
//!
//! A sector that shows what has a schedule as a register, without syncs that do not succeed, has a schedule itself
//! (`shown_are_scheduled`). If so does each sector that calls move, a history that fits is explained by some sessions
//! (`shown_are_explained`). If what some sector shows, with all syncs, has no schedule, none explain it
//! (`refused_have_no_sessions`). Where each sync succeeds, nothing is left out (`synced_are_steady`), and a history is
//! explained exactly where it fits and each sector that calls move shows what has a schedule (`synced_are_exact`). As in
//! history_loss_runs, each sector has an address of 64 bits, a refused call is answered before its session ends, and no
//! answer is DEVICE_BUSY; for the last of these laws, partitions lie on the disk. Different bytes that are read are
//! different values of the register. Why syncs are left out: by hand, a history of which what each sector shows has a
//! schedule, and which no sessions explain, since a flush that stays open fails at one moment (`sync_ties`).
#![tactic(auto)]

ghost use Rattle.history_loss_shown.specs.Laws.{RefusedHaveNoSessions, ShownAreExplained, ShownAreScheduled, SyncedAreExact, SyncedAreSteady};
ghost use Rattle.history_loss_shown.specs.Tied.{IsTiedByHand};
ghost use Rattle.history_loss_shown.specs.Worked.{AreShownByHand};

/// A sector has a schedule if what it shows has one as a register, without syncs that do not succeed.
pub fn shown_are_scheduled()
    ensures { ShownAreScheduled }
{}

/// A history that fits is explained if what each sector shows that calls move has a schedule, without syncs that do not
/// succeed.
pub fn shown_are_explained()
    ensures { ShownAreExplained }
{}

/// A history is explained by no sessions if what some sector shows has no schedule.
pub fn refused_have_no_sessions()
    ensures { RefusedHaveNoSessions }
{}

/// Nothing is left out where each sync succeeds.
pub fn synced_are_steady()
    ensures { SyncedAreSteady }
{}

/// A history in which each sync succeeds is explained exactly where it fits and what each sector shows that calls move has
/// a schedule.
pub fn synced_are_exact()
    ensures { SyncedAreExact }
{}

/// What a sector shows where a sync does not succeed, worked out by hand.
pub fn works_out()
    ensures { AreShownByHand }
{}

/// A sync that is cut off ties sectors: what each shows may have a schedule, and no sessions explain the history.
pub fn sync_ties()
    ensures { IsTiedByHand }
{}
