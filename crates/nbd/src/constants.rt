//! The numbers of the protocol, under the names of its specification.

/// "NBDMAGIC", with which a server begins.
pub(crate) const NBDMAGIC: u64 = 0x4E42_444D_4147_4943;

/// "IHAVEOPT", which follows it, and begins each option.
pub(crate) const IHAVEOPT: u64 = 0x4948_4156_454F_5054;

/// The number that begins each reply to an option.
pub(crate) const NBD_REP_MAGIC: u64 = 0x0003_E889_0455_65A9;

/// The number that begins each request.
pub(crate) const NBD_REQUEST_MAGIC: u32 = 0x2560_9513;

/// The number that begins each simple reply.
pub(crate) const NBD_SIMPLE_REPLY_MAGIC: u32 = 0x6744_6698;

/// The number that begins each chunk of a structured reply.
pub(crate) const NBD_STRUCTURED_REPLY_MAGIC: u32 = 0x668E_33EF;

// Handshake flags.
pub(crate) const NBD_FLAG_FIXED_NEWSTYLE: u16 = 1;

pub(crate) const NBD_FLAG_NO_ZEROES: u16 = 2;

// Client flags.
pub(crate) const NBD_FLAG_C_FIXED_NEWSTYLE: u32 = 1;

pub(crate) const NBD_FLAG_C_NO_ZEROES: u32 = 2;

// Options.
pub(crate) const NBD_OPT_EXPORT_NAME: u32 = 1;

pub(crate) const NBD_OPT_ABORT: u32 = 2;

pub(crate) const NBD_OPT_LIST: u32 = 3;

pub(crate) const NBD_OPT_INFO: u32 = 6;

pub(crate) const NBD_OPT_GO: u32 = 7;

pub(crate) const NBD_OPT_STRUCTURED_REPLY: u32 = 8;

pub(crate) const NBD_OPT_LIST_META_CONTEXT: u32 = 9;

pub(crate) const NBD_OPT_SET_META_CONTEXT: u32 = 10;

// Replies to options.
pub(crate) const NBD_REP_ACK: u32 = 1;

pub(crate) const NBD_REP_SERVER: u32 = 2;

pub(crate) const NBD_REP_INFO: u32 = 3;

pub(crate) const NBD_REP_META_CONTEXT: u32 = 4;

pub(crate) const NBD_REP_ERR_UNSUP: u32 = 0x8000_0001;

pub(crate) const NBD_REP_ERR_INVALID: u32 = 0x8000_0003;

pub(crate) const NBD_REP_ERR_UNKNOWN: u32 = 0x8000_0006;

pub(crate) const NBD_REP_ERR_TOO_BIG: u32 = 0x8000_0009;

// What an NBD_REP_INFO tells.
pub(crate) const NBD_INFO_EXPORT: u16 = 0;

pub(crate) const NBD_INFO_BLOCK_SIZE: u16 = 3;

// Transmission flags.
pub(crate) const NBD_FLAG_HAS_FLAGS: u16 = 1;

pub(crate) const NBD_FLAG_READ_ONLY: u16 = 2;

pub(crate) const NBD_FLAG_SEND_FLUSH: u16 = 4;

pub(crate) const NBD_FLAG_SEND_FUA: u16 = 8;

pub(crate) const NBD_FLAG_SEND_WRITE_ZEROES: u16 = 64;

// Requests.
pub(crate) const NBD_CMD_READ: u16 = 0;

pub(crate) const NBD_CMD_WRITE: u16 = 1;

pub(crate) const NBD_CMD_DISC: u16 = 2;

pub(crate) const NBD_CMD_FLUSH: u16 = 3;

pub(crate) const NBD_CMD_WRITE_ZEROES: u16 = 6;

pub(crate) const NBD_CMD_BLOCK_STATUS: u16 = 7;

// Flags of a request.
pub(crate) const NBD_CMD_FLAG_FUA: u16 = 1;

pub(crate) const NBD_CMD_FLAG_NO_HOLE: u16 = 2;

pub(crate) const NBD_CMD_FLAG_REQ_ONE: u16 = 8;

// Chunks of a structured reply.
pub(crate) const NBD_REPLY_FLAG_DONE: u16 = 1;

pub(crate) const NBD_REPLY_TYPE_OFFSET_DATA: u16 = 1;

pub(crate) const NBD_REPLY_TYPE_BLOCK_STATUS: u16 = 5;

pub(crate) const NBD_REPLY_TYPE_ERROR: u16 = 0x8001;

// What the context `base:allocation` tells of bytes.
pub(crate) const NBD_STATE_HOLE: u32 = 1;

pub(crate) const NBD_STATE_ZERO: u32 = 2;

// Errors of a reply.
pub(crate) const NBD_EPERM: u32 = 1;

pub(crate) const NBD_EIO: u32 = 5;

pub(crate) const NBD_ENOMEM: u32 = 12;

pub(crate) const NBD_EINVAL: u32 = 22;

pub(crate) const NBD_ENOSPC: u32 = 28;

pub(crate) const NBD_ESHUTDOWN: u32 = 108;

/// The most bytes that one NBD_CMD_READ or NBD_CMD_WRITE may name, 32 MiB.
pub const LONGEST: u32 = 0x0200_0000;

/// The most bytes of an option's data that are looked at.
pub(crate) const LONGEST_OPTION: u32 = 0x2000;
