//! Blocks and sense data written out by hand from the tables of SBC and SPC.

use crate::expect::{same, same_at};
use cdb::CdbFault::{InvalidField, ShortCdb, UnknownOpcode};
use cdb::Direction::{DataIn, DataOut, NoData};
use cdb::{Cdb, CdbFault, Direction, decode, decode_sense, encode, encode_sense};
use ntstatus::Sense;
use std::process::Abort;

/// The block of a command, its first sector and the number of its blocks, the direction and the length of its data with
/// sectors of 512 bytes.
type Row = (&'static [u8], u64, u32, Direction, u64);

const BLOCKS: &[Row] = &[
    (
        &[0x28, 8, 0x12, 0x34, 0x56, 0x78, 0, 0x9A, 0xBC, 0],
        0x1234_5678,
        0x9ABC,
        DataIn,
        0x0135_7800,
    ),
    (
        &[0x2A, 0, 0, 0, 8, 0, 0, 0, 64, 0],
        2048,
        64,
        DataOut,
        32_768,
    ),
    (&[0x35, 0, 0, 0, 0, 1, 0, 1, 2, 0], 1, 258, NoData, 0),
    (&[0x25, 0, 0, 0, 0, 0, 0, 0, 0, 0], 0, 0, DataIn, 8),
    (
        &[0x88, 0, 0, 0, 0, 1, 0, 0, 0, 0, 0, 0, 0, 1, 0, 0],
        0x1_0000_0000,
        1,
        DataIn,
        512,
    ),
    (
        &[0x8A, 8, 1, 2, 3, 4, 5, 6, 7, 8, 9, 10, 11, 12, 0, 0],
        0x0102_0304_0506_0708,
        0x090A_0B0C,
        DataOut,
        0x12_1416_1800,
    ),
    (
        &[0x91, 0, 0, 0, 0, 0, 0, 0, 0, 9, 0, 0, 0, 2, 0, 0],
        9,
        2,
        NoData,
        0,
    ),
    (
        &[0x9E, 0x10, 0, 0, 0, 0, 0, 0, 0, 0, 0, 0, 0, 32, 0, 0],
        0,
        0,
        DataIn,
        32,
    ),
];

/// Checks what a block's command tells, and that the command has this block.
fn has_block(rt: &impl Abort, row: &Row) {
    let (block, lba, blocks, direction, length) = *row;
    let Ok(command) = decode(block) else {
        panic!(rt; "{block:?} is refused")
    };
    same(rt, &encode(&command).as_slice(), &block);
    same_at(rt, &command.lba(), &lba, &block);
    same_at(rt, &command.blocks(), &blocks, &block);
    same_at(rt, &command.direction(), &direction, &block);
    same_at(rt, &command.data_length(512), &length, &block);
}

/// Blocks with a fault: too few bytes, another opcode, a protect field that isn't zero, another service action.
const FAULTS: &[(&[u8], CdbFault)] = &[
    (&[0x28, 0x20, 0, 0, 0, 0, 0, 0, 1], ShortCdb),
    (&[0x12], UnknownOpcode),
    (&[0x28, 0x20, 0, 0, 8, 0, 0, 0, 1, 0], InvalidField),
    (
        &[0x9E, 0x11, 0, 0, 0, 0, 0, 0, 0, 0, 0, 0, 0, 0, 0, 0],
        InvalidField,
    ),
];

#[test]
fn blocks_are_those_of_the_standard(rt: HostRuntime) {
    for row in BLOCKS {
        has_block(&rt, row);
    }
    for (block, fault) in FAULTS {
        assert!(rt; decode(block) == Err(*fault), "{block:?}");
    }
    let wide = [0x35, 0xFF, 0, 0, 0, 0, 0xFF, 0, 0, 4, 9];
    let flush = Cdb::Sync10 { lba: 0, blocks: 0 };
    assert!(rt;
        decode(&wide) == Ok(flush),
        "bits and bytes that say nothing"
    );
}

const CODE_24: Sense = Sense {
    key: 5,
    asc: 0x24,
    ascq: 0,
};

const TOLD: &[u8] = &[0x70, 0, 5, 0, 0, 0, 0, 10, 0, 0, 0, 0, 0x24, 0, 0, 0, 0, 0];

/// Bytes, and the sense that they tell; of too few and of a deferred error none. Bits beside a key say nothing.
const SENSES: &[(&[u8], Option<Sense>)] = &[
    (TOLD, Some(CODE_24)),
    (&[0x70, 0, 5, 0, 0, 0, 0, 10, 0, 0, 0, 0, 0x24], None),
    (&[0x71, 0, 5, 0, 0, 0, 0, 10, 0, 0, 0, 0, 0x24, 0], None),
    (
        &[0xF0, 0, 0xE5, 0, 0, 0, 0, 10, 0, 0, 0, 0, 0x24, 0],
        Some(CODE_24),
    ),
];

#[test]
fn sense_has_its_bytes(rt: HostRuntime) {
    same(&rt, &encode_sense(&CODE_24).as_slice(), &TOLD);
    for (bytes, want) in SENSES {
        same_at(&rt, &decode_sense(bytes), want, bytes);
    }
}
