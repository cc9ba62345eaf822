//! The metadata contexts that a client asks for. There is one, `base:allocation`, which tells which bytes are known to be
//! zeros.

ghost use Rattle.std.specs.Prelude.{◌≡◌, ◌≤◌, length, option_map, None, Some};
ghost use Rattle.std.specs.List.{list_any};
ghost use Rattle.nbd.specs.Contexts.{asked_in, is_query_for, text_at, texts_in};

use crate::constants::LONGEST_OPTION;
use crate::options::OptionError;
use byteorder::{BigEndian, ByteOrder};

/// The name of the context.
pub(crate) const ALLOCATION: [u8; 15] = *b"base:allocation";

/// The name of its namespace, which stands for all contexts in it.
const BASE: [u8; 5] = *b"base:";

/// Returns whether the data of NBD_OPT_SET_META_CONTEXT, if it `chooses`, or of NBD_OPT_LIST_META_CONTEXT ask for the
/// context.
///
/// # Errors
///
/// [`OptionError::Invalid`] where the data aren't such, [`OptionError::Unknown`] where they are for another export.
pub(crate) fn parse_contexts(chooses: bool, bytes: &[u8]) -> Result<bool, OptionError>
    requires { length bytes.now ≤ LONGEST_OPTION }
    ensures { result ≡ asked_in chooses bytes.now }
{
    if bytes.len() < 8 {
        return Err(OptionError::Invalid);
    }
    let name = BigEndian::read_u32(bytes) as usize;
    if bytes.len() < 8 + name {
        return Err(OptionError::Invalid);
    }
    if name != 0 {
        return Err(OptionError::Unknown);
    }
    let count = BigEndian::read_u32(&bytes[4..]);
    match find_query(chooses, count, &bytes[8..]) {
        Some(found) => Ok(found || count == 0 && !chooses),
        None => Err(OptionError::Invalid),
    }
}

/// Returns whether one of so many queries asks for the context, or nothing where the bytes aren't just these queries.
fn find_query(chooses: bool, count: u32, bytes: &[u8]) -> Option<bool>
    ensures { result ≡ option_map (list_any (is_query_for chooses)) (texts_in count bytes.now) }
{
    let mut rest = bytes;
    let mut found = false;
    let mut left = count;
    while left > 0 {
        let (text, behind) = split_text(rest)?;
        found |= is_query_for(chooses, text);
        rest = behind;
        left -= 1;
    }
    if rest.is_empty() { Some(found) } else { None }
}

/// Returns the first of some texts, each behind its length, and what stands behind it.
fn split_text(bytes: &[u8]) -> Option<(&[u8], &[u8])>
    ensures { option_map (λ parts. (parts.0.now, parts.1.now)) result ≡ text_at bytes.now }
{
    if bytes.len() < 4 {
        return None;
    }
    let count = BigEndian::read_u32(bytes) as usize;
    if bytes.len() - 4 < count {
        return None;
    }
    Some((&bytes[4..4 + count], &bytes[4 + count..]))
}

/// Whether a query asks for the context.
fn is_query_for(chooses: bool, query: &[u8]) -> bool
    ensures { result ≡ is_query_for chooses query.now }
{
    query == ALLOCATION.as_slice() || !chooses && query == BASE.as_slice()
}
