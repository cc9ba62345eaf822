//! Answers, as they were recorded.

use ntstatus::NtStatus;

/// What a label tells of an answer.
#[derive(Clone, Copy)]
pub(crate) struct Answer<'a> {
    /// The number of the request that is answered.
    pub(crate) number: u64,
    pub(crate) status: NtStatus,
    /// The number of bytes that it tells.
    pub(crate) information: u64,
    /// The bytes that it hands back.
    pub(crate) bytes: &'a [u8],
}
