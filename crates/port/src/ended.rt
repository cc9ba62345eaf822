//! The packets that ended and were not taken yet. They are reached by the calls below alone; each walk of them is
//! counted.

ghost use Rattle.std.specs.Prelude.{◌≡◌, ◌<◌, ◌≤◌, ◌+◌, [], ◌∷◌, ◌++◌, IfNone, IfSome, OnOk, length, position, drop};
ghost use Rattle.std.specs.Prelude.{option_to_list, slice_index_or};
ghost use Rattle.std.specs.VecDeque.{deque_len, deque_capacity};
ghost use Rattle.port.specs.inside.TableCalls.{Marks, can_cancel_ended};

use crate::queues::Ended;
use crate::table_calls::{is_cancellable, mark_cancelled};
use linked::Visits;
use std::alloc::{AllocError, Global};
use std::collections::VecDeque;

/// Packets that ended, the one that ended first in front.
#[derive(Drop)]
pub(crate) struct EndedList {
    list: VecDeque<Ended>,
    walks: Visits,
}

impl EndedList {
    /// No packets, and no places.
    pub fn new(alloc: Global) -> EndedList
        ensures items { result.list.items ≡ [] }
        ensures places { deque_capacity result.list ≡ 0 }
    {
        EndedList {
            list: VecDeque::from_vec(Vec::new(alloc)),
            walks: Visits::none(),
        }
    }

    /// Returns how many packets there are.
    pub fn len(&self) -> usize
        ensures { result ≡ deque_len self.now.list }
    {
        self.list.len()
    }

    /// Makes places for so many packets more.
    pub fn reserve(&mut self, additional: usize) -> Result<(), AllocError>
        ensures items { self.new.list.items ≡ self.old.list.items }
        ensures len { deque_len self.new.list ≡ deque_len self.old.list }
        ensures capacity { deque_capacity self.old.list ≤ deque_capacity self.new.list }
        ensures ok { OnOk result (deque_len self.new.list + additional ≤ deque_capacity self.new.list) }
    {
        self.list.reserve(additional)
    }

    /// Adds a packet behind the others.
    pub fn push_back_reserved(&mut self, ended: Ended)
        requires { deque_len self.old.list < deque_capacity self.old.list }
        ensures items { self.new.list.items ≡ self.old.list.items ++ ended ∷ [] }
        ensures len { deque_len self.new.list ≡ deque_len self.old.list + 1 }
        ensures capacity { deque_capacity self.new.list ≡ deque_capacity self.old.list }
        ensures unwalked { self.new.walks.count ≡ self.old.walks.count }
    {
        self.list.push_back_reserved(ended);
    }

    /// Takes the packet that ended first.
    pub fn pop_front(&mut self) -> Option<Ended>
        ensures items { self.old.list.items ≡ option_to_list result ++ self.new.list.items }
        ensures none { IfNone result (deque_len self.old.list ≡ 0) }
        ensures lookup { IfSome result (λ x. x ≡ slice_index_or self.old.list.items 0 x) }
        ensures rest { self.new.list.items ≡ drop 1 self.old.list.items }
        ensures capacity { deque_capacity self.new.list ≡ deque_capacity self.old.list }
    {
        self.list.pop_front()
    }

    /// Walks the packets for the place of the one of this number, where it is not cancelled yet.
    pub fn find(&mut self, number: u128) -> Option<usize>
        ensures found { result ≡ position (can_cancel_ended number) self.old.list.items }
        ensures same { self.new.list ≡ self.old.list }
        ensures walks { self.new.walks.count ≡ self.old.walks.count + 1 }
    {
        self.walks = self.walks.and_one();
        self.list
            .iter()
            .position(|ended| is_cancellable(&ended.irp, number))
    }

    /// Marks the packet of a place as cancelled.
    pub fn mark(&mut self, index: usize)
        requires { index < length self.old.list.items }
        ensures marks { Marks self.old.list.items index self.new.list.items }
        ensures capacity { deque_capacity self.new.list ≡ deque_capacity self.old.list }
        ensures unwalked { self.new.walks.count ≡ self.old.walks.count }
    {
        let Some(ended) = self.list.get_mut(index) else {
            unreachable!()
        };
        mark_cancelled(&mut ended.irp);
    }
}
