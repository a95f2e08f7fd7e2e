// Numbers in decimal, as they are in fields.
ghost use Rattle.std.specs.Prelude.{◌≡◌, ◌≤◌, ◌<◌, true, MatchOption, IfOk};
ghost use Rattle.blk_script.specs.Fields.{IsNumberOf, IsTooGreat, begins_number, number_field};
ghost use Rattle.blk_script.specs.Line.{handle_field, stream_field, count_field};

use crate::LineFault;

// Whether the first byte may begin a number: only `0` alone begins with 0.
fn begins_number(field: &[u8]) -> bool
    ensures { result ≡ begins_number field.now }
{
    match field {
        [] => false,
        [_] => true,
        [first, ..] => *first != b'0',
    }
}

// What decimal digits say, where it fits.
fn digits_value(field: &[u8]) -> Option<u64>
    ensures { MatchOption result (IsTooGreat field.now) (IsNumberOf field.now) }
{
    let mut value: u64 = 0;
    for byte in field {
        if !byte.is_ascii_digit() {
            return None;
        }
        value = value.checked_mul(10)?.checked_add(u64::from(*byte - b'0'))?;
    }
    Some(value)
}

// A number of at most `most`.
fn read_number(field: &[u8], most: u64) -> Result<u64, LineFault>
    ensures value { result ≡ number_field most field.now }
    ensures within { IfOk result (λ n. n ≤ most) }
{
    if !begins_number(field) {
        return Err(LineFault::Number);
    }
    match digits_value(field) {
        Some(number) if number <= most => Ok(number),
        _ => Err(LineFault::Number),
    }
}

/// The number of a handle.
pub fn read_handle(field: &[u8]) -> Result<u16, LineFault>
    ensures { result ≡ handle_field field.now }
{
    Ok(read_number(field, 65535)? as u16)
}

/// The number of a stream.
pub fn read_stream(field: &[u8]) -> Result<u8, LineFault>
    ensures { result ≡ stream_field field.now }
{
    Ok(read_number(field, 255)? as u8)
}

/// A number of 64 bits.
pub fn read_count(field: &[u8]) -> Result<u64, LineFault>
    ensures { result ≡ count_field field.now }
{
    read_number(field, 18446744073709551615)
}
