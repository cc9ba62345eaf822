//! What a sector sees in a session: what it sees alone, each at its place among what all sectors see.

ghost use Rattle.std.specs.Prelude.{◌≡◌, ◌++◌, ◌∷◌, ◌-◌, [], true, false, Bool, OnOk, drop, map, option_to_list, take};
ghost use Rattle.history_loss_kept.specs.Kept.{all_shared, merged, own_sights, shared_sights, sync_seen};
ghost use Rattle.history_loss_kept.specs.declared.Outcome.TheVariants.{Done as IsDone, Failed as HasFailed, Open};
ghost use Rattle.history_loss_kept.specs.declared.Shared.TheVariants.{End};
ghost use Rattle.register_loss.specs.declared.Sight.TheVariants.{Call as CallSight};
ghost use Rattle.history_loss_sector.specs.Seen.{shared_in};
ghost use Rattle.history_loss_sector.specs.inside.Entries.{own_in};

use crate::filling::Marked;
use crate::watched::Watched;
use history_loss_kept::{Outcome, Shared, Wait};
use register_loss::{Sight, What};
use std::alloc::{AllocError, Global};

/// What all sectors see, and the line of its label.
#[derive(Debug, Clone, Copy, PartialEq, Eq)]
pub struct SharedAt {
    pub line: u64,
    pub shared: Shared,
}

/// What is seen of a sync that did not succeed.
fn undone_seen(all: bool, is_flush: bool) -> Option<What>
    ensures open { option_to_list result ≡ sync_seen all is_flush Open }
    ensures failed { option_to_list result ≡ sync_seen all is_flush HasFailed }
{
    match (all, is_flush) {
        (true, true) => Some(What::Flush),
        (true, false) => Some(What::Sync),
        (false, _) => None,
    }
}

/// What is seen of a sync that succeeded.
fn done_seen(is_flush: bool) -> Option<What>
    ensures all { option_to_list result ≡ sync_seen true is_flush IsDone }
    ensures steady { option_to_list result ≡ sync_seen false is_flush IsDone }
{
    if is_flush { Some(What::Flush) } else { None }
}

/// What is seen of a sync.
fn sync_seen(all: bool, is_flush: bool, outcome: Outcome) -> Option<What>
    ensures { option_to_list result ≡ sync_seen all is_flush outcome }
{
    match outcome {
        Outcome::Done => done_seen(is_flush),
        Outcome::Open => undone_seen(all, is_flush),
        Outcome::Failed => undone_seen(all, is_flush),
    }
}

/// Sees the call of a sync, if anything is seen of it.
fn see_sync(
    alloc: Global,
    watched: &mut Watched,
    line: u64,
    number: u64,
    what: Option<What>,
) -> Result<(), AllocError>
    ensures start { watched.new.seen.start ≡ watched.old.seen.start }
    ensures seen { OnOk result (watched.new.seen.sights ≡ watched.old.seen.sights ++ map (CallSight number) (option_to_list what)) }
{
    match what {
        Some(what) => watched.see(alloc, line, &Sight::Call { number, what }),
        None => Ok(()),
    }
}

fn end_of(number: u64, is_success: bool) -> Sight
    ensures { (all : Bool) → result ∷ [] ≡ shared_sights all (End number is_success) }
{
    if is_success {
        Sight::Done { number }
    } else {
        Sight::Failed { number }
    }
}

/// Sees one that all sectors see.
fn see_one(
    alloc: Global,
    all: bool,
    watched: &mut Watched,
    one: &SharedAt,
) -> Result<(), AllocError>
    ensures start { watched.new.seen.start ≡ watched.old.seen.start }
    ensures seen { OnOk result (watched.new.seen.sights ≡ watched.old.seen.sights ++ shared_sights all one.now.shared) }
{
    match one.shared {
        Shared::Call {
            number,
            is_flush,
            outcome,
        } => {
            let what = sync_seen(all, is_flush, outcome);
            see_sync(alloc, watched, one.line, number, what)
        }
        Shared::End { number, is_success } => {
            watched.see(alloc, one.line, &end_of(number, is_success))
        }
    }
}

/// Sees all of these.
fn see_shared(
    alloc: Global,
    all: bool,
    watched: &mut Watched,
    shared: &[SharedAt],
) -> Result<(), AllocError>
    ensures start { watched.new.seen.start ≡ watched.old.seen.start }
    ensures seen { OnOk result (watched.new.seen.sights ≡ watched.old.seen.sights ++ all_shared all (shared_in shared.now)) }
{
    for one in shared {
        see_one(alloc, all, watched, one)?;
    }
    Ok(())
}

/// Those behind so many.
fn rest_of(shared: &[SharedAt], taken: u64) -> &[SharedAt]
    ensures { shared_in result.now ≡ drop taken (shared_in shared.now) }
{
    let from = taken.min(shared.len() as u64) as usize;
    let (_, rest) = shared.split_at(from);
    rest
}

/// Those behind so many, up to so many.
fn between(shared: &[SharedAt], taken: u64, behind: u64) -> &[SharedAt]
    ensures { shared_in result.now ≡ take (behind - taken) (drop taken (shared_in shared.now)) }
{
    let rest = rest_of(shared, taken);
    let count = behind.saturating_sub(taken).min(rest.len() as u64) as usize;
    let (front, _) = rest.split_at(count);
    front
}

/// Sees what the sector sees alone, if it is known.
fn see_own(alloc: Global, watched: &mut Watched, marked: &Marked) -> Result<(), AllocError>
    ensures start { watched.new.seen.start ≡ watched.old.seen.start }
    ensures seen { OnOk result (watched.new.seen.sights ≡ watched.old.seen.sights ++ own_sights marked.now.own.wait) }
{
    match &marked.own.wait {
        Wait::Known(sight) => watched.see(alloc, marked.line, sight),
        Wait::Awaits { .. } => Ok(()),
    }
}

/// Sees what came before one that the sector sees alone, and that.
fn see_up_to(
    alloc: Global,
    all: bool,
    watched: &mut Watched,
    shared: &[SharedAt],
    marked: &Marked,
) -> Result<(), AllocError>
    ensures start { watched.new.seen.start ≡ watched.old.seen.start }
    ensures seen { OnOk result (watched.new.seen.sights ≡ watched.old.seen.sights ++ (all_shared all (shared_in shared.now) ++ own_sights marked.now.own.wait)) }
{
    see_shared(alloc, all, watched, shared)?;
    see_own(alloc, watched, marked)
}

/// Sees what is seen of a session.
pub(crate) fn see_merged(
    alloc: Global,
    all: bool,
    watched: &mut Watched,
    own: &[Marked],
    shared: &[SharedAt],
) -> Result<(), AllocError>
    ensures start { watched.new.seen.start ≡ watched.old.seen.start }
    ensures seen { OnOk result (watched.new.seen.sights ≡ watched.old.seen.sights ++ merged all 0 (own_in own.now) (shared_in shared.now)) }
{
    let mut taken = 0;
    for marked in own {
        let behind = marked.own.behind;
        see_up_to(alloc, all, watched, between(shared, taken, behind), marked)?;
        taken = behind;
    }
    see_shared(alloc, all, watched, rest_of(shared, taken))
}
