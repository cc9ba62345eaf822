//! What the bytes of a request say, and what it asks for.

ghost use Rattle.std.specs.Prelude.{◌≡◌, ◌<◌, ◌≤◌, Ok, MatchOption, IfOk, OnOk, length, Some, None};
ghost use Rattle.std.specs.Result.{result_err};
ghost use Rattle.nbd.specs.Requests.{command_in, extent_fault, flags_fault, IsRequest, IsWithin, payload_count, payload_of};
ghost use Rattle.nbd.specs.Replies.{error_number};
ghost use Rattle.nbd.specs.Status.{status_fault};
ghost use Rattle.nbd.specs.Content.{AreInBounds};

use crate::arrays::Sizes;
use crate::constants::{
    LONGEST, NBD_CMD_DISC, NBD_CMD_FLAG_FUA, NBD_CMD_FLAG_NO_HOLE, NBD_CMD_FLAG_REQ_ONE,
    NBD_CMD_FLUSH, NBD_CMD_READ, NBD_CMD_WRITE, NBD_CMD_WRITE_ZEROES, NBD_EINVAL, NBD_EIO,
    NBD_ENOMEM, NBD_ENOSPC, NBD_EPERM, NBD_ESHUTDOWN, NBD_REQUEST_MAGIC,
};
use byteorder::{BigEndian, ByteOrder};

/// The fields of a request.
#[derive(Debug, Clone, Copy, PartialEq, Eq)]
pub struct Request {
    pub flags: u16,
    /// NBD_CMD_READ, or another.
    pub kind: u16,
    /// The client's name for the request, which the reply repeats.
    pub cookie: u64,
    /// The first byte that it names.
    pub offset: u64,
    /// How many bytes it names.
    pub count: u32,
}

/// What a request asks an array for, in its bounds.
#[derive(Debug, Clone, Copy, PartialEq, Eq)]
pub enum Command {
    /// A read of `count` bytes from byte `offset` on, 32 MiB at most.
    Read {
        offset: u64,
        count: u32,
    },
    /// A write of the `count` bytes behind the request, from byte `offset` on, 32 MiB at most; with `through`,
    /// past volatile caches.
    Write {
        offset: u64,
        count: u32,
        through: bool,
    },
    Flush,
    /// A write of `count` zeros from byte `offset` on, however many; with `through`, past volatile caches.
    WriteZeroes {
        offset: u64,
        count: u32,
        through: bool,
    },
}

/// Why a request was not done.
#[derive(Debug, Clone, Copy, PartialEq, Eq)]
pub enum ReplyError {
    /// The array can't be written.
    Eperm,
    /// The array failed.
    Eio,
    /// Memory was refused.
    Enomem,
    /// The request is not served: it is unknown, has unknown flags or no bytes, is too long or not in whole blocks, or
    /// reads past the end.
    Einval,
    /// The request writes past the end, or the storage has no room for it.
    Enospc,
    /// The array isn't there any more.
    Eshutdown,
}

impl ReplyError {
    /// The number of the error in a reply.
    pub fn number(self) -> u32
        ensures { result ≡ error_number self }
    {
        match self {
            ReplyError::Eperm => NBD_EPERM,
            ReplyError::Eio => NBD_EIO,
            ReplyError::Enomem => NBD_ENOMEM,
            ReplyError::Einval => NBD_EINVAL,
            ReplyError::Enospc => NBD_ENOSPC,
            ReplyError::Eshutdown => NBD_ESHUTDOWN,
        }
    }
}

/// The request that 28 bytes are, or none where they don't begin as one.
pub fn parse_request(bytes: &[u8]) -> Option<Request>
    requires { length bytes.now ≡ 28 }
    ensures { MatchOption result ((r : Request) → IsRequest bytes.now r → ⊥) (λ r. IsRequest bytes.now r) }
{
    if BigEndian::read_u32(bytes) != NBD_REQUEST_MAGIC {
        return None;
    }
    Some(Request {
        flags: BigEndian::read_u16(&bytes[4..]),
        kind: BigEndian::read_u16(&bytes[6..]),
        cookie: BigEndian::read_u64(&bytes[8..]),
        offset: BigEndian::read_u64(&bytes[16..]),
        count: BigEndian::read_u32(&bytes[24..]),
    })
}

/// Returns what a request asks an array of these sizes for.
///
/// # Errors
///
/// [`ReplyError::Einval`] and [`ReplyError::Enospc`], each where its own comment says so.
pub fn command_of(request: Request, sizes: Sizes) -> Result<Command, ReplyError>
    requires { 0 < sizes.block }
    ensures command { result ≡ command_in sizes.block sizes.bytes request }
    ensures within { IfOk result (IsWithin sizes.block sizes.bytes) }
    ensures payload { IfOk result (λ command. payload_count request ≡ payload_of command) }
{
    let Request {
        flags,
        kind,
        offset,
        count,
        ..
    } = request;
    let through = flags & NBD_CMD_FLAG_FUA != 0;
    match kind {
        NBD_CMD_READ => {
            check_flags(flags, NBD_CMD_FLAG_FUA)?;
            check_extent(request, sizes, LONGEST, ReplyError::Einval)?;
            Ok(Command::Read { offset, count })
        }
        NBD_CMD_WRITE => {
            check_flags(flags, NBD_CMD_FLAG_FUA)?;
            check_extent(request, sizes, LONGEST, ReplyError::Enospc)?;
            Ok(Command::Write {
                offset,
                count,
                through,
            })
        }
        NBD_CMD_FLUSH => {
            check_flags(flags, NBD_CMD_FLAG_FUA)?;
            Ok(Command::Flush)
        }
        NBD_CMD_WRITE_ZEROES => {
            check_flags(flags, NBD_CMD_FLAG_FUA | NBD_CMD_FLAG_NO_HOLE)?;
            check_extent(request, sizes, u32::MAX, ReplyError::Enospc)?;
            Ok(Command::WriteZeroes {
                offset,
                count,
                through,
            })
        }
        _ => Err(ReplyError::Einval),
    }
}

/// Looks at a request that asks which bytes of an array of these sizes are known to be zeros.
///
/// # Errors
///
/// [`ReplyError::Einval`] where a flag is set that isn't known, or it names bytes that aren't whole blocks of the array.
pub(crate) fn check_status(request: Request, sizes: Sizes) -> Result<(), ReplyError>
    requires { 0 < sizes.block }
    ensures fault { result_err result ≡ status_fault sizes.block sizes.bytes request }
    ensures in_bounds { OnOk result (AreInBounds sizes.block sizes.bytes request.offset request.count) }
{
    check_flags(request.flags, NBD_CMD_FLAG_FUA | NBD_CMD_FLAG_REQ_ONE)?;
    check_extent(request, sizes, u32::MAX, ReplyError::Einval)?;
    Ok(())
}

/// How many bytes come behind a request.
pub fn payload_count(request: Request) -> u32
    ensures { result ≡ payload_count request }
{
    if request.kind == NBD_CMD_WRITE {
        request.count
    } else {
        0
    }
}

/// Looks at the flags of a request, of which these are known.
///
/// # Errors
///
/// [`ReplyError::Einval`] where a flag is set that isn't known.
fn check_flags(flags: u16, known: u16) -> Result<(), ReplyError>
    ensures { result_err result ≡ flags_fault known flags }
{
    if flags & known != flags {
        return Err(ReplyError::Einval);
    }
    Ok(())
}

/// Looks at the bytes that a request names.
///
/// # Errors
///
/// [`ReplyError::Einval`] where there are no bytes, more than `longest`, or bytes that aren't whole blocks; `beyond`
/// where they go past the end.
fn check_extent(
    request: Request,
    sizes: Sizes,
    longest: u32,
    beyond: ReplyError,
) -> Result<(), ReplyError>
    requires { 0 < sizes.block }
    ensures fault { result_err result ≡ extent_fault sizes.block sizes.bytes longest beyond request }
    ensures in_bounds { OnOk result (AreInBounds sizes.block sizes.bytes request.offset request.count) }
    ensures short { OnOk result (request.count ≤ longest) }
{
    let Request { offset, count, .. } = request;
    if count == 0 || count > longest {
        return Err(ReplyError::Einval);
    }
    if offset % sizes.block as u64 != 0 || count % sizes.block != 0 {
        return Err(ReplyError::Einval);
    }
    if offset > sizes.bytes || count as u64 > sizes.bytes - offset {
        return Err(beyond);
    }
    Ok(())
}
