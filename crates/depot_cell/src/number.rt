//! Texts of numbers: decimal digits, at most 19 of them, and for an int a minus in front.
//!
//! Leading zeros are read, and `-0` is 0. A plus sign or a space makes a text that is no number.

ghost use Rattle.std.specs.Prelude.{◌≡◌};
ghost use Rattle.depot_cell.specs.Numbers.{int_of, minus_int, number_of, plain_int};

/// The most digits that are read. Nineteen always fit 64 bits.
const MOST_DIGITS: usize = 19;

/// The number of 1 to 19 decimal digits. Takes no memory.
pub fn read_number(bytes: &[u8]) -> Option<u64>
    ensures exact { result ≡ number_of bytes.now }
{
    if bytes.is_empty() || bytes.len() > MOST_DIGITS {
        return None;
    }
    let mut value = 0;
    for &byte in bytes {
        if !byte.is_ascii_digit() {
            return None;
        }
        value = 10 * value + u64::from(byte - b'0');
    }
    Some(value)
}

/// The int of its text. Takes no memory.
pub fn read_int(bytes: &[u8]) -> Option<i64>
    ensures exact { result ≡ int_of bytes.now }
{
    match bytes {
        [b'-', digits @ ..] => minus(digits),
        _ => plain(bytes),
    }
}

fn plain(digits: &[u8]) -> Option<i64>
    ensures exact { result ≡ plain_int digits.now }
{
    match read_number(digits) {
        Some(value) if value < 1 << 63 => Some(value as i64),
        _ => None,
    }
}

fn minus(digits: &[u8]) -> Option<i64>
    ensures exact { result ≡ minus_int digits.now }
{
    match read_number(digits) {
        Some(value) if value <= 1 << 63 => Some(-(value as i128) as i64),
        _ => None,
    }
}
