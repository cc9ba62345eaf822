//! Tests of marks.

ghost use Rattle.std.specs.Prelude.{◌≡◌, IfOk};
ghost use Rattle.cancel_marks.specs.Marks.{fresh, standing, starting};

use crate::expect::prints;
use cancel_marks::{Marking, Marks, NoMemory, Seat};
use std::alloc::Global;
use std::test::Fail;
use std::thread::join;

// Two slots, with the owner's seat and another.
fn two(alloc: Global) -> Result<(Marks, Seat, Seat), NoMemory>
    ensures slots { IfOk result (λ t. t.0.1 ≡ 2) }
    ensures owner { IfOk result (λ t. t.1 ≡ standing t.0.0 0 (starting 2)) }
    ensures other { IfOk result (λ t. t.2.table ≡ t.0.0) }
{
    let (marks, mut seats) = Marks::new(alloc, 2, 2)?;
    let other = seats.pop().ok_or(NoMemory)?;
    let owner = seats.pop().ok_or(NoMemory)?;
    Ok((marks, owner, other))
}

// Two seats in turn. The function has no handle, since no call on a table waits. It returns what `mark` and `look`
// answered, in order.
fn in_turn(
    marks: &Marks,
    owner: &mut Seat,
    other: &mut Seat,
) -> ([Marking; 6], [Option<(u64, bool)>; 3])
    requires slots { marks.now.1 ≡ 2 }
    requires owner { owner.old ≡ standing marks.now.0 0 (starting 2) }
    requires other { other.old.table ≡ marks.now.0 }
{
    marks.arm(owner, 0, 5);
    let wrong = marks.mark(other, 0, 4);
    let hit = marks.mark(other, 0, 5);
    let again = marks.mark(other, 0, 5);
    let marked = marks.look(owner, 0);
    marks.retire(owner, 0);
    let retired = marks.mark(other, 0, 5);
    marks.arm(owner, 0, 9);
    let late = marks.mark(other, 0, 5);
    let unmarked = marks.look(owner, 0);
    let past = marks.mark(other, 1, 1 << 62);
    let none = marks.look(owner, 1);
    (
        [wrong, hit, again, retired, late, past],
        [marked, unmarked, none],
    )
}

#[test]
fn marks_only_the_number_in_the_slot(rt: HostRuntime) -> Result<(), Fail> {
    let (marks, mut owner, mut other) = two(rt.alloc())?;
    let (answers, looks) = in_turn(&marks, &mut owner, &mut other);
    let want = [
        Marking::Gone,
        Marking::Marked,
        Marking::Already,
        Marking::Gone,
        Marking::Gone,
        Marking::Gone,
    ];
    assert!(rt; answers == want);
    assert!(rt; looks == [Some((5, true)), Some((9, false)), None]);
    let Err(fault) = Marks::new(rt.alloc(), 1 << 61, 1) else {
        panic!(rt; "more words than there is memory")
    };
    prints(&rt, rt.alloc(), &fault, "no memory")
}

// Marks the number in the first slot.
fn mark_first(marks: &Marks, mut seat: Seat) -> Marking
    requires { (seat.table ≡ marks.now.0) × (marks.now.1 ≡ 2) }
{
    marks.mark(&mut seat, 0, 5)
}

#[test]
fn one_of_two_threads_marks(rt: HostRuntime) -> Result<(), Fail> {
    let (marks, mut owner, other) = two(rt.alloc())?;
    marks.arm(&mut owner, 0, 5);
    let shared = &marks;
    let (a, b) = join(
        &rt,
        || mark_first(shared, owner),
        || mark_first(shared, other),
    );
    let once = [Marking::Marked, Marking::Already];
    assert!(rt; once == [a, b] || once == [b, a]);
    Ok(())
}
