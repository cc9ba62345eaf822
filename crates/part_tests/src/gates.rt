//! Tests of the gate, and of the queue of completions as it is made.

ghost use Rattle.std.specs.Prelude.{◌≡◌, IfOk};
ghost use Rattle.remove_lock.specs.Gate.{fresh, standing};

use crate::expect::{prints, same};
use lanes::{Completions, NoMemory};
use remove_lock::{AcquireFault, Gate, GateFault, Pass};
use std::alloc::Global;
use std::test::Fail;
use std::thread::join;

fn two(alloc: Global, first: u32, second: u32) -> Result<(Gate, Pass, Pass), GateFault>
    ensures { IfOk result (λ t. (t.1 ≡ standing t.0 (fresh first)) × (t.2 ≡ standing t.0 (fresh second))) }
{
    let (gate, mut passes) = Gate::new(alloc, &[first, second])?;
    let b = passes.pop().ok_or(GateFault::NoMemory)?;
    let a = passes.pop().ok_or(GateFault::NoMemory)?;
    Ok((gate, a, b))
}

// Two passes in turn, of one hold each. The function has no handle, since no call of a gate waits. It returns what went
// wrong.
fn in_turn(gate: &Gate, a: &mut Pass, b: &mut Pass) -> Result<(), &'static str>
    requires { (a.old.gate ≡ gate.now) × (b.old.gate ≡ gate.now) }
{
    if gate.acquire(a).is_err() {
        return Err("no hold at an open gate");
    }
    gate.close_gate(b);
    if gate.drained(b) {
        return Err("drained with a hold");
    }
    if gate.acquire(b) != Err(AcquireFault::DeletePending) {
        return Err("a hold at a closed gate");
    }
    if gate.acquire(a) != Err(AcquireFault::TooManyHolds) {
        return Err("the quota is looked at first");
    }
    gate.release(a);
    if !gate.drained(b) {
        return Err("not drained without a hold");
    }
    Ok(())
}

#[test]
fn drains_once_the_hold_is_released(rt: HostRuntime) -> Result<(), Fail> {
    let (gate, mut a, mut b) = two(rt.alloc(), 1, 1)?;
    same(&rt, &in_turn(&gate, &mut a, &mut b), &Ok(()));
    let Err(fault) = Gate::new(rt.alloc(), &[4_294_967_295, 2]) else {
        panic!(rt; "too large")
    };
    prints(
        &rt,
        rt.alloc(),
        &fault,
        "the quotas add up to more than 2^32 holds",
    )?;
    let text = "the pass has as many holds as its quota";
    prints(&rt, rt.alloc(), &AcquireFault::TooManyHolds, text)?;
    let (_completions, passes) = Completions::new(rt.alloc(), 1, 4)?;
    same(&rt, &passes.len(), &5);
    prints(&rt, rt.alloc(), &NoMemory, "no memory")
}

// Takes and releases a hold many times. Returns the pass and the number of holds taken.
fn churn(gate: &Gate, mut pass: Pass) -> (Pass, u32)
    requires { (pass.gate ≡ gate.now) × (pass.view.holds ≡ 0) }
    ensures { (result.0.gate ≡ gate.now) × (result.0.view.holds ≡ 0) }
{
    let mut taken = 0;
    for _ in 0..10_000u32 {
        if gate.acquire(&mut pass).is_ok() {
            gate.release(&mut pass);
            taken += 1;
        }
    }
    (pass, taken)
}

#[test]
fn drains_after_two_threads(rt: HostRuntime) -> Result<(), Fail> {
    let (gate, a, b) = two(rt.alloc(), 1, 1)?;
    let shared = &gate;
    let ((mut a, first), (_b, second)) = join(&rt, || churn(shared, a), || churn(shared, b));
    assert!(rt; first == 10_000 && second == 10_000);
    gate.close_gate(&mut a);
    assert!(rt; gate.drained(&mut a));
    Ok(())
}
