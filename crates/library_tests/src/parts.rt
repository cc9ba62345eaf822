//! The bytes of an NBD stream, by their numbers.

use std::alloc::{AllocError, Global};

/// Numbers of a stream, highest byte first, runs of one byte, and whole headers.
#[derive(Clone, Copy)]
pub(crate) enum Part {
    Short(u16),
    Word(u32),
    Long(u64),
    Fill(u8, usize),
    /// A request: its flags, its kind, its cookie, its offset and its length in bytes.
    Request(u16, u16, u64, u64, u32),
    /// A reply: its error and its cookie.
    Reply(u32, u64),
    /// The front of an option: its code, and how many bytes come behind it.
    Asks(u32, u32),
    /// The front of a reply to an option: the option's code, the reply's kind, and how many bytes come behind it.
    Answers(u32, u32, u32),
    /// The front of a structured reply's last chunk: its kind, its cookie, and how many bytes come behind it.
    Chunk(u16, u64, u32),
    /// The name `base:allocation`.
    Allocation,
}

/// What a client sends to come to its requests: NBD_OPT_GO for the export with the empty name.
pub(crate) const GO: [Part; 6] = [
    Part::Word(3),
    Part::Long(0x4948_4156_454F_5054),
    Part::Word(7),
    Part::Word(6),
    Part::Word(0),
    Part::Short(0),
];

/// What the client of [`GO`] is answered: the greeting, an export of this many bytes, its blocks, and an end.
pub(crate) fn gone(bytes: u64) -> [Part; 22] {
    [
        Part::Long(0x4E42_444D_4147_4943),
        Part::Long(0x4948_4156_454F_5054),
        Part::Short(3),
        Part::Long(0x0003_E889_0455_65A9),
        Part::Word(7),
        Part::Word(3),
        Part::Word(12),
        Part::Short(0),
        Part::Long(bytes),
        Part::Short(77),
        Part::Long(0x0003_E889_0455_65A9),
        Part::Word(7),
        Part::Word(3),
        Part::Word(14),
        Part::Short(3),
        Part::Word(512),
        Part::Word(4096),
        Part::Word(0x0200_0000),
        Part::Long(0x0003_E889_0455_65A9),
        Part::Word(7),
        Part::Word(1),
        Part::Word(0),
    ]
}

/// Adds the bytes of these parts.
pub(crate) fn add(bytes: &mut Vec<u8>, parts: &[Part]) -> Result<(), AllocError> {
    for part in parts {
        match part {
            Part::Short(n) => bytes.extend_from_slice(&n.to_be_bytes())?,
            Part::Word(n) => bytes.extend_from_slice(&n.to_be_bytes())?,
            Part::Long(n) => bytes.extend_from_slice(&n.to_be_bytes())?,
            Part::Fill(byte, count) => fill(bytes, *byte, *count)?,
            Part::Request(flags, kind, cookie, offset, length) => {
                bytes.extend_from_slice(&0x2560_9513_u32.to_be_bytes())?;
                bytes.extend_from_slice(&flags.to_be_bytes())?;
                bytes.extend_from_slice(&kind.to_be_bytes())?;
                bytes.extend_from_slice(&cookie.to_be_bytes())?;
                bytes.extend_from_slice(&offset.to_be_bytes())?;
                bytes.extend_from_slice(&length.to_be_bytes())?;
            }
            Part::Reply(error, cookie) => {
                bytes.extend_from_slice(&0x6744_6698_u32.to_be_bytes())?;
                bytes.extend_from_slice(&error.to_be_bytes())?;
                bytes.extend_from_slice(&cookie.to_be_bytes())?;
            }
            Part::Asks(code, count) => {
                bytes.extend_from_slice(&0x4948_4156_454F_5054_u64.to_be_bytes())?;
                bytes.extend_from_slice(&code.to_be_bytes())?;
                bytes.extend_from_slice(&count.to_be_bytes())?;
            }
            Part::Answers(code, kind, count) => {
                bytes.extend_from_slice(&0x0003_E889_0455_65A9_u64.to_be_bytes())?;
                bytes.extend_from_slice(&code.to_be_bytes())?;
                bytes.extend_from_slice(&kind.to_be_bytes())?;
                bytes.extend_from_slice(&count.to_be_bytes())?;
            }
            Part::Chunk(kind, cookie, count) => {
                bytes.extend_from_slice(&0x668E_33EF_u32.to_be_bytes())?;
                bytes.extend_from_slice(&1_u16.to_be_bytes())?;
                bytes.extend_from_slice(&kind.to_be_bytes())?;
                bytes.extend_from_slice(&cookie.to_be_bytes())?;
                bytes.extend_from_slice(&count.to_be_bytes())?;
            }
            Part::Allocation => bytes.extend_from_slice(b"base:allocation")?,
        }
    }
    Ok(())
}

/// Adds this many bytes of one value.
pub(crate) fn fill(bytes: &mut Vec<u8>, byte: u8, count: usize) -> Result<(), AllocError> {
    for _ in 0..count {
        bytes.push(byte)?;
    }
    Ok(())
}

/// The bytes of some parts, and then of others.
pub(crate) fn bytes_of(
    alloc: Global,
    first: &[Part],
    then: &[Part],
) -> Result<Vec<u8>, AllocError> {
    let mut bytes = Vec::new(alloc);
    add(&mut bytes, first)?;
    add(&mut bytes, then)?;
    Ok(bytes)
}
