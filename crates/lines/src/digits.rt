// Bytes as capital hexadecimal digits.
ghost use Rattle.std.specs.Prelude.{◌≡◌, ◌*◌, ◌/◌, ◌%◌, ◌<◌, ◌≤◌, ◌++◌, length, drop, is_none, position, if◌then◌else◌, Ok, Err, nat_lt};
ghost use Rattle.lines.specs.declared.refusal.LineRefusal.TheVariants.{BadDigit};
ghost use Rattle.lines.specs.Digits.{digit_for, value_of, first_bad, digits, line_bytes};

use crate::MOST_DIGITS;
use crate::refusal::LineRefusal;
use arrayvec::ArrayVec;

// The most bytes that a line stands for.
const MOST_BYTES: usize = MOST_DIGITS / 2;

// The value of a digit, 0 to 9 or A to F; any other byte has none. Two comparisons are faster than a match on the
// ranges.
pub fn digit_value(byte: u8) -> Option<u8>
    ensures { result ≡ value_of byte }
{
    let decimal = byte.wrapping_sub(b'0');
    let letter = byte.wrapping_sub(b'A');
    if decimal < 10 {
        Some(decimal)
    } else if letter < 6 {
        Some(letter + 10)
    } else {
        None
    }
}

// The column of the first byte that is no digit.
fn bad_column(line: &[u8]) -> Option<usize>
    ensures { result ≡ position (λ b. is_none (value_of b)) line.now }
{
    line.iter().position(|byte| digit_value(*byte).is_none())
}

// Refuses a line that has a byte which is no digit, with the column of the first.
pub(crate) fn check_digits(line: &[u8]) -> Result<(), LineRefusal>
    requires { length line.now ≤ 64 }
    ensures { result ≡ (if nat_lt (first_bad line.now) (length line.now) then Err (BadDigit (first_bad line.now)) else Ok tt) }
{
    match bad_column(line) {
        // `as` loses nothing: a column is below 64.
        Some(column) => Err(LineRefusal::BadDigit {
            column: column as u16,
        }),
        None => Ok(()),
    }
}

// The bytes that a line of digits stands for. Other bytes were refused before, so no 0 stands in for one.
pub(crate) fn decode(line: &[u8]) -> ArrayVec<u8, MOST_BYTES>
    requires even { length line.now % 2 ≡ 0 }
    requires short { length line.now ≤ 64 }
    ensures { result.items ≡ line_bytes line.now }
{
    let (pairs, _) = line.as_chunks::<2>();
    let mut decoded = ArrayVec::new();
    for [high, low] in pairs {
        let high = digit_value(*high).unwrap_or(0);
        let low = digit_value(*low).unwrap_or(0);
        decoded.push(high * 16 + low);
    }
    decoded
}

// The digit of a value below 16.
fn digit_of(value: u8) -> u8
    requires { value < 16 }
    ensures { result ≡ digit_for value }
{
    if value < 10 {
        b'0' + value
    } else {
        b'A' - 10 + value
    }
}

// Writes bytes as digits to the front of `part`, and leaves the rest of it.
pub(crate) fn encode(bytes: &[u8], part: &mut [u8])
    requires room { 2 * length bytes.now ≤ length part.old }
    ensures { part.new ≡ digits bytes.now ++ drop (2 * length bytes.now) part.old }
{
    // By the index, as nothing is promised of what a slice holds after `as_chunks_mut` or a zip over `iter_mut`.
    for (i, byte) in bytes.iter().enumerate() {
        part[2 * i] = digit_of(*byte / 16);
        part[2 * i + 1] = digit_of(*byte % 16);
    }
}
