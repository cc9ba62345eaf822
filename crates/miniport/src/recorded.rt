//! The labels of the adapter in memory, as they are kept until they are taken.

ghost use Rattle.std.specs.Prelude.{◌≡◌, ◌≤◌, ◌++◌, ◌∷◌, Bool, IsTrue, Option, List, [], length, map, All};
ghost use Rattle.std.specs.VecDeque.{deque_len, deque_capacity};
ghost use Rattle.srb.specs.declared.DeviceLabel.TheVariants.{Act};
ghost use Rattle.miniport.specs.declared.on_tag.OnTag.{OnTag};
ghost use Rattle.miniport.specs.declared.recorded.Recorded.{Recorded};
ghost use Rattle.miniport.specs.inside.Recorded.{HasActed, IsKept, IsTellable, Tells, data_of, told, told_of};
ghost use Rattle.miniport.specs.inside.Slots.{piece_at};
ghost use Rattle.srb.specs.Bare.{in_memory};

use crate::on_tag::OnTag;
use noted::Noted;
use sector::{Bytes, LabelRoom};
use srb::DeviceLabel;
use std::collections::VecDeque;

/// A label as it is kept until it is taken.
#[derive(Drop)]
pub(crate) enum Recorded {
    Told(DeviceLabel),
    /// The act of the piece on a tag, whose bytes are the data of the piece's SRB, and the room for them.
    Acted {
        piece: u128,
        tag: u8,
        room: LabelRoom,
    },
    /// The act of a piece, whose bytes contracts alone read, and no room.
    Unkept {
        piece: u128,
        bytes: Noted<u8>,
        room: LabelRoom,
    },
}

/// The data of the piece on a tag, in a room for them.
fn data_in(slots: &[Option<OnTag>], tag: u8, room: LabelRoom) -> Bytes
    requires { length (data_of (piece_at slots.now tag)) ≤ room }
    ensures { result ≡ data_of (piece_at slots.now tag) }
{
    match slots.get(tag as usize) {
        Some(Some(on_tag)) => room.filled(on_tag.srb.data.as_slice()),
        _ => room.filled(&[]),
    }
}

/// The label of an act, with its bytes where they are kept.
fn act_label(label: Recorded, slots: &[Option<OnTag>]) -> DeviceLabel
    requires { IsTellable slots.now label }
    ensures { (keeps : Bool) → IsKept keeps label → result ≡ in_memory keeps (told slots.now label) }
{
    match label {
        Recorded::Told(label) => label,
        Recorded::Acted { piece, tag, room } => DeviceLabel::Act {
            piece,
            bytes: data_in(slots, tag, room),
        },
        Recorded::Unkept { piece, room, .. } => DeviceLabel::Act {
            piece,
            bytes: room.filled(&[]),
        },
    }
}

/// A label as memory has it. Most are handed on without a call.
pub(crate) fn tell(label: Recorded, slots: &[Option<OnTag>]) -> DeviceLabel
    requires { IsTellable slots.now label }
    ensures { (keeps : Bool) → IsKept keeps label → result ≡ in_memory keeps (told slots.now label) }
{
    match label {
        Recorded::Told(label) => label,
        label => act_label(label, slots),
    }
}

/// A label that needs its tag no more.
fn filled(label: Recorded, slots: &[Option<OnTag>]) -> Recorded
    requires { IsTellable slots.now label }
    ensures { result ≡ told_of slots.now label }
{
    match label {
        Recorded::Acted { piece, tag, room } => Recorded::Told(DeviceLabel::Act {
            piece,
            bytes: data_in(slots, tag, room),
        }),
        label => label,
    }
}

/// These bytes, for contracts alone.
fn noted(bytes: &Bytes) -> Noted<u8>
    ensures { result.items ≡ bytes.now }
{
    Noted::none().with(bytes)
}

/// The label of an act, with the room for its bytes where they are kept.
pub(crate) fn recorded_act(
    keeps: bool,
    tag: u8,
    piece: u128,
    bytes: &Bytes,
    room: LabelRoom,
) -> Recorded
    requires room { IsTrue keeps → length bytes.now ≤ room }
    ensures tells { (slots : List (Option OnTag)) → HasActed (piece_at slots tag) → data_of (piece_at slots tag) ≡ bytes.now → Tells slots keeps result (Act piece bytes.now) }
{
    if keeps {
        return Recorded::Acted { piece, tag, room };
    }
    Recorded::Unkept {
        piece,
        bytes: noted(bytes),
        room,
    }
}

/// Has the first label need its tag no more, and puts it behind the others.
fn tell_first(labels: &mut VecDeque<Recorded>, slots: &[Option<OnTag>])
    requires { All (IsTellable slots.now) labels.old.items }
    ensures first { (label : Recorded) (rest : List Recorded) → labels.old.items ≡ label ∷ rest → labels.new.items ≡ rest ++ told_of slots.now label ∷ [] }
    ensures many { deque_len labels.new ≡ deque_len labels.old }
    ensures room { deque_capacity labels.new ≡ deque_capacity labels.old }
{
    if let Some(label) = labels.pop_front() {
        labels.push_back_reserved(filled(label, slots));
    }
}

/// Has all labels need their tags no more.
pub(crate) fn tell_all(labels: &mut VecDeque<Recorded>, slots: &[Option<OnTag>])
    requires { All (IsTellable slots.now) labels.old.items }
    ensures labels { labels.new.items ≡ map (told_of slots.now) labels.old.items }
    ensures room { deque_capacity labels.new ≡ deque_capacity labels.old }
{
    for _ in 0..labels.len() {
        tell_first(labels, slots);
    }
}
