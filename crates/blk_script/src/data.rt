// Data in hexadecimal, as it is in fields.
ghost use Rattle.std.specs.Prelude.{◌≡◌, ◌≤◌, ◌/◌, ℕ, true, Ok, length, unwrap_or, IfSome};
ghost use Rattle.hex.specs.Hex.{decode_of, hex_digit_value, pair_value};
ghost use Rattle.blk_script.specs.Fields.{data_field, given};

use crate::LineFault;
use hex::decode_to_slice;

/// No data of a line has more digits.
const LONGEST_DATA: usize = 2097152;

/// The value of each byte as a hexadecimal digit, of either case; 255 for one that is none.
const DIGIT_VALUES: [u8; 256] = [
    255, 255, 255, 255, 255, 255, 255, 255, 255, 255, 255, 255, 255, 255, 255, 255, 255, 255, 255,
    255, 255, 255, 255, 255, 255, 255, 255, 255, 255, 255, 255, 255, 255, 255, 255, 255, 255, 255,
    255, 255, 255, 255, 255, 255, 255, 255, 255, 255, 0, 1, 2, 3, 4, 5, 6, 7, 8, 9, 255, 255, 255,
    255, 255, 255, 255, 10, 11, 12, 13, 14, 15, 255, 255, 255, 255, 255, 255, 255, 255, 255, 255,
    255, 255, 255, 255, 255, 255, 255, 255, 255, 255, 255, 255, 255, 255, 255, 255, 10, 11, 12, 13,
    14, 15, 255, 255, 255, 255, 255, 255, 255, 255, 255, 255, 255, 255, 255, 255, 255, 255, 255,
    255, 255, 255, 255, 255, 255, 255, 255, 255, 255, 255, 255, 255, 255, 255, 255, 255, 255, 255,
    255, 255, 255, 255, 255, 255, 255, 255, 255, 255, 255, 255, 255, 255, 255, 255, 255, 255, 255,
    255, 255, 255, 255, 255, 255, 255, 255, 255, 255, 255, 255, 255, 255, 255, 255, 255, 255, 255,
    255, 255, 255, 255, 255, 255, 255, 255, 255, 255, 255, 255, 255, 255, 255, 255, 255, 255, 255,
    255, 255, 255, 255, 255, 255, 255, 255, 255, 255, 255, 255, 255, 255, 255, 255, 255, 255, 255,
    255, 255, 255, 255, 255, 255, 255, 255, 255, 255, 255, 255, 255, 255, 255, 255, 255, 255, 255,
    255, 255, 255, 255, 255, 255, 255, 255, 255, 255, 255, 255, 255, 255, 255, 255, 255, 255, 255,
    255, 255, 255,
];

/// The bytes that a field of data gives, at the start of the buffer.
pub fn decode_data<'a>(field: &[u8], buffer: &'a mut [u8]) -> Result<&'a [u8], LineFault>
    requires { length field.now ≤ length buffer.old }
    ensures { given (λ bytes. bytes.now) result ≡ data_field field.now }
{
    if field == b"-".as_slice() {
        return Ok(&[]);
    }
    if field.len() > LONGEST_DATA {
        return Err(LineFault::TooLong);
    }
    if field.is_empty() {
        return Err(LineFault::Hex);
    }
    let bytes = &mut buffer[..field.len() / 2];
    if decode_digits(field, bytes) {
        return Ok(bytes);
    }
    match decode_to_slice(field, bytes) {
        Ok(()) => Ok(bytes),
        Err(_) => Err(LineFault::Hex),
    }
}

// Decodes two digits for each byte by the table. False where a byte of the field is no digit or
// their number is odd; then some bytes may be written, and no clause says which.
fn decode_digits(field: &[u8], bytes: &mut [u8]) -> bool
    requires { length bytes.old ≡ length field.now / 2 }
    ensures value { result ≡ true → decode_of field.now ≡ Ok bytes.new }
    ensures length { length bytes.new ≡ length bytes.old }
{
    if field.len() % 2 != 0 {
        return false;
    }
    for i in 0..bytes.len() {
        let Some(byte) = byte_of(field[2 * i], field[2 * i + 1]) else {
            return false;
        };
        bytes[i] = byte;
    }
    true
}

// The byte of two digits, where both are digits.
fn byte_of(high: u8, low: u8) -> Option<u8>
    ensures { (i : ℕ) → IfSome result (λ byte. pair_value high low i ≡ Ok byte) }
{
    let high = digit_value(high);
    let low = digit_value(low);
    if high > 15 {
        return None;
    }
    if low > 15 {
        return None;
    }
    Some(high * 16 + low)
}

// The value of a byte as a digit; 255 where it is none.
fn digit_value(byte: u8) -> u8
    ensures { result ≡ unwrap_or (hex_digit_value byte) 255 }
{
    DIGIT_VALUES[byte as usize]
}
