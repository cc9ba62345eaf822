//! A test of the queue with links.

use linked::{Linked, Numbered};
use std::alloc::AllocError;
use std::process::Abort;

/// An item that is its number.
#[derive(Drop)]
struct Item {
    number: u128,
}

impl Numbered for Item {
    ghost number_of = { λ item. item.number };

    fn number(&self) -> u128 {
        self.number
    }
}

/// The spot and the number of the item that leaves first.
fn next(queue: &mut Linked<Item>) -> Option<(usize, u128)> {
    let (spot, item) = queue.pop_front()?;
    Some((spot, item.number))
}

/// Checks that the middle one of the items at the spots 5, 0 and 3 leaves, and then the others in their order.
fn leave_the_middle_first(rt: &impl Abort, queue: &mut Linked<Item>) {
    assert!(rt; queue.find(2) == Some(0));
    assert!(rt; matches!(queue.remove_number(0, 2), Some(Item { number: 2 })));
    assert!(rt; queue.find(2) == None && queue.len() == 2);
    assert!(rt; next(queue) == Some((5, 1)));
    assert!(rt; next(queue) == Some((3, 3)));
    assert!(rt; next(queue) == None);
}

/// Checks that an item at a spot that is used again leaves by its own number alone.
fn use_a_spot_again(rt: &impl Abort, queue: &mut Linked<Item>) -> Result<(), AllocError> {
    queue.cover(0)?;
    assert!(rt; queue.len() == 0);
    queue.push_back_at(0, Item { number: 4 });
    assert!(rt; queue.remove_number(0, 2).is_none());
    assert!(rt; queue.remove_number(0, 4).is_some());
    Ok(())
}

#[test]
fn the_middle_leaves_and_its_spot_is_used_again(rt: HostRuntime) -> Result<(), AllocError> {
    let mut queue = Linked::new(rt.alloc());
    queue.cover(5)?;
    queue.push_back_at(5, Item { number: 1 });
    queue.push_back_at(0, Item { number: 2 });
    queue.push_back_at(3, Item { number: 3 });
    leave_the_middle_first(&rt, &mut queue);
    use_a_spot_again(&rt, &mut queue)
}
