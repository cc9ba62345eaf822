//! Bytes as hexadecimal digits, many at once.

ghost use Rattle.std.specs.Prelude.{◌≡◌, ◌*◌, IfOk, MatchBool, None, Some, length, option_map};
ghost use Rattle.label_text.specs.inside.Reading.{bytes_in, digit_in, digit_told, digits_in};

use crate::runs::MOST_BYTES;
use std::alloc::{AllocError, Global};

/// The bytes that digits tell, two a byte: some, and no more than a label can have. Those that are more take no memory.
///
/// # Errors
///
/// [`AllocError`] where memory was refused.
pub(crate) fn decoded(alloc: Global, digits: &[u8]) -> Result<Option<Vec<u8>>, AllocError>
    ensures { IfOk result (λ found. option_map (λ v. v.items) found ≡ digits_in digits.now) }
{
    let count = digits.len() / 2;
    if digits.is_empty() || digits.len() % 2 != 0 || count > MOST_BYTES {
        return Ok(None);
    }
    let mut bytes = vec![in alloc; 0; count]?;
    if fill(bytes.as_mut_slice(), digits) {
        Ok(Some(bytes))
    } else {
        Ok(None)
    }
}

/// Puts the bytes of digits into their places. False where a digit is none.
fn fill(bytes: &mut [u8], digits: &[u8]) -> bool
    requires { length digits.now ≡ 2 * length bytes.old }
    ensures { MatchBool result (bytes_in digits.now ≡ Some bytes.new) (bytes_in digits.now ≡ None) }
{
    let mut all = true;
    for at in 0..bytes.len() {
        let high = value(digits[2 * at]);
        let low = value(digits[2 * at + 1]);
        all = all & (high < 16) & (low < 16);
        bytes[at] = high % 16 * 16 + low % 16;
    }
    all
}

/// The value of a hexadecimal digit in lower case; 16 where it is none.
fn value(c: u8) -> u8
    ensures { digit_told result ≡ digit_in c }
{
    VALUES[c as usize]
}

/// By its code, the value of each such digit; 16 where a code is none.
const VALUES: [u8; 256] = [
    16, 16, 16, 16, 16, 16, 16, 16, 16, 16, 16, 16, 16, 16, 16, 16, 16, 16, 16, 16, 16, 16, 16, 16,
    16, 16, 16, 16, 16, 16, 16, 16, 16, 16, 16, 16, 16, 16, 16, 16, 16, 16, 16, 16, 16, 16, 16, 16,
    0, 1, 2, 3, 4, 5, 6, 7, 8, 9, 16, 16, 16, 16, 16, 16, 16, 16, 16, 16, 16, 16, 16, 16, 16, 16,
    16, 16, 16, 16, 16, 16, 16, 16, 16, 16, 16, 16, 16, 16, 16, 16, 16, 16, 16, 16, 16, 16, 16, 10,
    11, 12, 13, 14, 15, 16, 16, 16, 16, 16, 16, 16, 16, 16, 16, 16, 16, 16, 16, 16, 16, 16, 16, 16,
    16, 16, 16, 16, 16, 16, 16, 16, 16, 16, 16, 16, 16, 16, 16, 16, 16, 16, 16, 16, 16, 16, 16, 16,
    16, 16, 16, 16, 16, 16, 16, 16, 16, 16, 16, 16, 16, 16, 16, 16, 16, 16, 16, 16, 16, 16, 16, 16,
    16, 16, 16, 16, 16, 16, 16, 16, 16, 16, 16, 16, 16, 16, 16, 16, 16, 16, 16, 16, 16, 16, 16, 16,
    16, 16, 16, 16, 16, 16, 16, 16, 16, 16, 16, 16, 16, 16, 16, 16, 16, 16, 16, 16, 16, 16, 16, 16,
    16, 16, 16, 16, 16, 16, 16, 16, 16, 16, 16, 16, 16, 16, 16, 16, 16, 16, 16, 16, 16, 16, 16, 16,
    16, 16, 16, 16, 16, 16, 16, 16, 16, 16, 16, 16, 16, 16,
];
