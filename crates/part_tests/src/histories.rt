//! A test of histories.

ghost use Rattle.std.specs.Prelude.{◌≡◌, ◌∷◌, []};
ghost use Rattle.chronicle.specs.Claims.{AllStand};

use chronicle::{Claims, History, Naming, Opened, Whole};
use std::marker::Brand;
use std::test::Fail;

// Makes every call in one thread. The function has no handle and no allocator, since no call waits or takes memory.
// What it returns claims the second entry, the first, and the second again.
fn in_turn<N: Naming>(
    history: &History<u64, N>,
    whole: &mut Whole<u64, N>,
    first: &u64,
    second: &u64,
) -> Claims<u64, N>
    requires { whole.old ≡ [] }
    ensures whole { whole.new ≡ first.now ∷ second.now ∷ [] }
    ensures claims { result ≡ (1, second.now) ∷ (0, first.now) ∷ (1, second.now) ∷ [] }
    ensures stand { AllStand whole.new result }
{
    let mut claims = whole.no_claims(history);
    whole.add(history, first);
    whole.add(history, second);
    claims.join(history, whole.claim(history, 1, second));
    let again = claims.again(history);
    claims.join(history, whole.claim(history, 0, first));
    claims.join(history, again);
    whole.check(history, &mut claims);
    claims
}

// A new history, and what stands in it.
fn opened_in_turn<N: Naming>(opened: Opened<u64>, first: &u64, second: &u64)
    requires { opened ≡ N.table }
{
    let (history, mut whole) = opened.named::<N>();
    in_turn(&history, &mut whole, first, second);
}

#[test]
fn claims_in_one_thread(rt: HostRuntime) -> Result<(), Fail> {
    opened_in_turn::<Brand>(Opened::new(rt.alloc())?, &5, &7);
    Ok(())
}
