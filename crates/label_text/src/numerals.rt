//! Numbers in decimal digits and bytes in hexadecimal ones, written behind a text.

ghost use Rattle.std.specs.Prelude.{◌≡◌, ◌+◌, ◌*◌, ◌<◌, ◌≤◌, ◌++◌, OnOk, length, take};
ghost use Rattle.std.specs.Fmt.{decimal};
ghost use Rattle.label_text.specs.Runs.{digit_of, hex_bytes, hex_of};

use itoa::Buffer;
use std::alloc::AllocError;

/// Writes a number in decimal digits behind a text.
///
/// # Errors
///
/// [`AllocError`] where the text has no room, and memory for more was refused.
pub fn write_number(text: &mut Vec<u8>, number: u64) -> Result<(), AllocError>
    ensures { OnOk result (text.new.items ≡ text.old.items ++ decimal number) }
{
    if number < 10_000 {
        return write_short(text, number);
    }
    text.extend_from_slice(Buffer::new().format(number).as_bytes())
}

/// Writes the number of a piece, which seldom needs the digits of 128 bits.
pub(crate) fn write_piece(text: &mut Vec<u8>, piece: u128) -> Result<(), AllocError>
    ensures { OnOk result (text.new.items ≡ text.old.items ++ decimal piece) }
{
    match u64::try_from(piece) {
        Ok(short) => write_number(text, short),
        Err(_) => text.extend_from_slice(Buffer::new().format(piece).as_bytes()),
    }
}

/// Writes a number of at most four decimal digits, as most are.
fn write_short(text: &mut Vec<u8>, number: u64) -> Result<(), AllocError>
    requires { number < 10000 }
    ensures { OnOk result (text.new.items ≡ text.old.items ++ decimal number) }
{
    if number >= 1_000 {
        return text.extend_from_slice(&[
            digit(number / 1_000),
            digit(number / 100 % 10),
            digit(number / 10 % 10),
            digit(number % 10),
        ]);
    }
    if number >= 100 {
        return text.extend_from_slice(&[
            digit(number / 100),
            digit(number / 10 % 10),
            digit(number % 10),
        ]);
    }
    if number >= 10 {
        return text.extend_from_slice(&[digit(number / 10), digit(number % 10)]);
    }
    text.extend_from_slice(&[digit(number)])
}

/// A decimal digit.
fn digit(number: u64) -> u8
    requires { number < 10 }
    ensures { result ≡ 48 + number }
{
    b'0' + number as u8
}

/// Writes a byte as two hexadecimal digits.
pub(crate) fn write_byte(text: &mut Vec<u8>, byte: u8) -> Result<(), AllocError>
    ensures { OnOk result (text.new.items ≡ text.old.items ++ hex_of byte) }
{
    text.extend_from_slice(&[digit_of(byte / 16), digit_of(byte % 16)])
}

/// Writes at most sixteen bytes as hexadecimal digits.
pub(crate) fn write_hex(text: &mut Vec<u8>, bytes: &[u8]) -> Result<(), AllocError>
    requires { length bytes.now ≤ 16 }
    ensures { OnOk result (text.new.items ≡ text.old.items ++ hex_bytes bytes.now) }
{
    text.extend_from_slice(&hex_digits(bytes)[..2 * bytes.len()])
}

/// The hexadecimal digits of at most sixteen bytes. What stands behind them says nothing.
fn hex_digits(bytes: &[u8]) -> [u8; 32]
    requires { length bytes.now ≤ 16 }
    ensures { take (2 * length bytes.now) result ≡ hex_bytes bytes.now }
{
    let mut digits = [0; 32];
    let mut at = 0;
    for byte in bytes {
        digits[at] = digit_of(byte / 16);
        digits[at + 1] = digit_of(byte % 16);
        at += 2;
    }
    digits
}

/// The hexadecimal digit of a value below 16.
fn digit_of(value: u8) -> u8
    requires { value < 16 }
    ensures { result ≡ digit_of value }
{
    if value < 10 {
        b'0' + value
    } else {
        b'a' + (value - 10)
    }
}
