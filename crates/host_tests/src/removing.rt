//! A removal beside clients: a read that is held is answered, and one that comes meanwhile is answered or refused.

ghost use Rattle.std.specs.Prelude.{◌≡◌, length};
ghost use Rattle.host.specs.Opening.{IsDiskFor};

use crate::beside::{answer_to, read_at};
use crate::desk::{Company, Keeps, company_of};
use crate::disks::disk;
use crate::expect::same;
use crate::opening::{Ready, open_host, ready_over};
use crate::user::Caller;
use compose::Reply;
use disk::Medium;
use host::HostNaming;
use script::Order;
use std::alloc::{AllocError, Global};
use std::marker::Brand;
use std::process::Abort;
use std::sync::Wait;
use std::test::Fail;
use std::thread::{Threads, join};

/// How the device goes, once a query is granted.
#[derive(Clone, Copy)]
enum Going {
    InOrder,
    PulledOut,
}

// Takes the device away. It returns once no ticket is out.
fn take_away<K: Keeps + Drop>(mut keeper: K, going: Going) -> Reply {
    keeper.take(match going {
        Going::InOrder => Order::Remove,
        Going::PulledOut => Order::SurpriseRemove,
    })
}

// The second client reads, and both wait for their answers.
fn read_on<C: Caller + Drop>(
    alloc: Global,
    mut first: C,
    held: C::Ticket,
    mut second: C,
) -> (Result<String, AllocError>, Result<String, AllocError>)
    requires { C.owner held ≡ C.number first }
{
    let meanwhile = read_at(alloc, &mut second, 0);
    let one = answer_to(alloc, &mut first, Ok(held));
    let two = answer_to(alloc, &mut second, meanwhile);
    (one, two)
}

// The device goes beside two clients on one partition, of which the first has a read that is held.
fn go_beside<K: Keeps + Send + Drop, C: Caller + Send + Drop, R: Threads + Wait + Sync + Abort>(
    rt: &R,
    alloc: Global,
    company: Company<K, C>,
    going: Going,
) -> Result<(), AllocError>
where
    C::Ticket: Send,
{
    let Company {
        mut keeper,
        mut first,
        second,
    } = company;
    let Reply::Ok = keeper.take(Order::QueryRemove) else {
        return Err(AllocError);
    };
    let held = read_at(alloc, &mut first, 0)?;
    let (reply, (one, two)) = join(
        rt,
        || take_away(keeper, going),
        || -> (Result<String, AllocError>, Result<String, AllocError>)
            requires { C.owner held ≡ C.number first }
        { read_on(alloc, first, held, second) },
    );
    assert!(rt; matches!(reply, Reply::Ok));
    same(rt, &one?.as_str(), &"answer 1 DELETE_PENDING 0");
    if let Ok(two) = two {
        same(rt, &two.as_str(), &"answer 2 DELETE_PENDING 0");
    }
    Ok(())
}

// A host of two clients, whose device goes.
fn open_and_go<M: Medium + Send, N: HostNaming + Send + Sync, R: Threads + Wait + Sync + Abort>(
    rt: &R,
    alloc: Global,
    ready: Ready<M>,
    going: Going,
) -> Result<(), AllocError>
    requires named { ready.opened ≡ record { rules = N.rules; opening = N.start; partitions = N.partitions; handles = N.handles; marks = N.marks; slots = N.slots; table = N.table; name = N.name; parts = N.parts; gate = N.gate; keeper = N.keeper } }
    requires histories { ready.histories ≡ record { armings = N.armings; entries = N.entries } }
    requires sectors { (M.view ready.medium).sectors ≡ N.opening }
    requires unfailed { (M.view ready.medium).failures ≡ 0 }
    requires disk { IsDiskFor N.rules (M.view ready.medium) }
    requires depth { N.rules.depth ≡ 2 }
    requires partitions { length N.partitions ≡ 2 }
{
    let (host, keeper, clients) = open_host::<M, N>(alloc, ready, 2)?;
    go_beside(rt, alloc, company_of(rt, &host, keeper, clients), going)
}

fn run_over<M: Medium + Send, R: Threads + Wait + Sync + Abort>(
    rt: &R,
    alloc: Global,
    medium: M,
    going: Going,
) -> Result<(), AllocError> {
    let ready = ready_over(rt, alloc, medium, 2, &[0, 0])?;
    open_and_go::<M, Brand, R>(rt, alloc, ready, going)
}

#[test]
fn goes_beside_a_held_read(rt: HostRuntime) -> Result<(), Fail> {
    for _ in 0..10 {
        run_over(&rt, rt.alloc(), disk(rt.alloc(), &[])?, Going::InOrder)?;
    }
    for _ in 0..100 {
        run_over(&rt, rt.alloc(), disk(rt.alloc(), &[])?, Going::PulledOut)?;
    }
    Ok(())
}
