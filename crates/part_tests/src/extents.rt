//! Tests of extents, and of bytes that keep their memory.

ghost use Rattle.std.specs.Prelude.{◌≡◌};

use crate::expect::{prints, same};
use sector::{Bytes, Extent, InvalidParameter, LabelRoom, bytes_to_sectors};
use std::process::Abort;
use std::test::Fail;

fn extent(first: u64, count: u64) -> Extent
    ensures { result ≡ record { first = first; count = count } }
{
    Extent { first, count }
}

fn are_cut(rt: &impl Abort) {
    let (low, high) = extent(2048, 100).cut(64);
    same(rt, &low, &extent(2048, 64));
    same(rt, &high, &extent(2112, 36));
    same(rt, &extent(5, 3).shift(2048), &extent(2053, 3));
}

fn share_sectors(rt: &impl Abort) {
    let last = u64::MAX;
    assert!(rt; extent(last, last).overlaps(extent(last - 1, 2)));
    assert!(rt; !extent(2048, 1024).overlaps(extent(3072, 1024)));
    assert!(rt; extent(4095, 1).is_within(4096) && !extent(last, 2).is_within(last));
}

#[test]
fn extents_are_cut_and_share_sectors(rt: HostRuntime) -> Result<(), Fail> {
    are_cut(&rt);
    share_sectors(&rt);
    for (offset, length, want) in [
        (523_776, 512, Ok(extent(1023, 1))),
        (523_776, 1024, Err(InvalidParameter)),
        (511, 512, Err(InvalidParameter)),
    ] {
        same(&rt, &bytes_to_sectors(offset, length, 512, 1024), &want);
    }
    let text = "the bytes are not whole sectors of the disk";
    prints(&rt, rt.alloc(), &InvalidParameter, text)
}

fn are_overwritten_and_emptied(rt: &impl Abort, bytes: Bytes) {
    assert!(rt; bytes.len() == 2);
    let bytes = bytes.overwritten(&[3, 4]);
    same(rt, &bytes.as_slice(), &[3, 4].as_slice());
    let kept = bytes.emptied().into_vec();
    same(rt, &(kept.len(), kept.capacity()), &(0, 2));
}

fn are_kept_behind_none(rt: &impl Abort, bytes: Bytes) {
    let bytes = bytes.emptied();
    same(rt, &bytes.as_slice().len(), &0);
    same(rt, &bytes.into_spare().as_slice(), &[1, 2].as_slice());
}

fn fill_a_room(rt: &impl Abort, room: LabelRoom) {
    let mut room = room;
    let taken = room.take();
    assert!(rt; room.capacity() == 0 && taken.capacity() == 3);
    let bytes = taken.filled(&[5, 6]);
    same(rt, &bytes.as_slice(), &[5, 6].as_slice());
}

/// What stands behind bytes that are emptied is kept, and told to nobody but who takes the memory.
#[test]
fn bytes_keep_their_memory(rt: HostRuntime) -> Result<(), Fail> {
    let alloc = rt.alloc();
    are_overwritten_and_emptied(&rt, Bytes::new(vec![in alloc; 1, 2]?));
    are_kept_behind_none(&rt, Bytes::new(vec![in alloc; 1, 2]?));
    fill_a_room(&rt, LabelRoom::new(alloc, 3)?);
    same(&rt, &LabelRoom::none(alloc).capacity(), &0);
    Ok(())
}
