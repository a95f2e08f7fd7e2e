// Keys, percent-encoded, as they are in fields.
ghost use Rattle.std.specs.Prelude.{◌≡◌, ◌≤◌, length, take};
ghost use Rattle.std.specs.List.{list_all};
ghost use Rattle.hex.specs.Hex.{is_hex_digit};
ghost use Rattle.percent_encoding.specs.Percent as percent;
ghost use Rattle.blk_script.specs.Fields.{is_key_byte, begins_with_hex, are_escapes, is_key_text, key_field, given};

use crate::LineFault;
use percent_encoding::percent_decode;

/// The key that a field gives, at the start of the buffer. A field is one of a script line.
#[tactic(auto, unfolding(crate::specs::Fields::key_field))]
pub fn decode_key<'a>(field: &[u8], buffer: &'a mut [u8]) -> Result<&'a [u8], LineFault>
    requires { length field.now ≤ length buffer.old }
    ensures { given (λ key. key.now) result ≡ key_field field.now }
{
    if !is_key(field) {
        return Err(LineFault::Key);
    }
    let length = decode_into(field, buffer);
    Ok(&buffer[..length])
}

/// Whether a field is one of a key.
#[tactic(auto, unfolding(crate::specs::Fields::key_field))]
pub fn is_key(field: &[u8]) -> bool
    ensures { result ≡ is_key_text field.now }
{
    are_key_bytes(field) && are_escapes(field)
}

// Whether each byte may be in a key field.
fn are_key_bytes(field: &[u8]) -> bool
    ensures { result ≡ list_all is_key_byte field.now }
{
    field.iter().all(|byte| (0x21..=0x7E).contains(byte))
}

// Whether each percent sign is followed by two hexadecimal digits.
fn are_escapes(field: &[u8]) -> bool
    ensures { result ≡ are_escapes field.now }
{
    let mut left = field;
    while let [byte, rest @ ..] = left {
        if *byte == b'%' && !begins_with_hex(rest) {
            return false;
        }
        left = rest;
    }
    true
}

// Whether two hexadecimal digits are in front.
fn begins_with_hex(rest: &[u8]) -> bool
    ensures { result ≡ begins_with_hex rest.now }
{
    match rest {
        [high, low, ..] => is_hex_digit(*high) && is_hex_digit(*low),
        _ => false,
    }
}

// Whether a byte is a hexadecimal digit, of either case.
fn is_hex_digit(byte: u8) -> bool
    ensures { result ≡ is_hex_digit byte }
{
    byte.is_ascii_hexdigit()
}

// Decodes a field into the start of the buffer, and gives the number of its bytes.
fn decode_into(field: &[u8], buffer: &mut [u8]) -> usize
    requires { length field.now ≤ length buffer.old }
    ensures within { result ≤ length buffer.new }
    ensures bytes { take result buffer.new ≡ percent.percent_decode field.now }
{
    let mut length = 0;
    for byte in percent_decode(field) {
        buffer[length] = byte;
        length += 1;
    }
    length
}
