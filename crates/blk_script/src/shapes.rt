// What the fields after a word give, by their kinds.
ghost use Rattle.std.specs.Prelude.{◌≡◌, ◌≤◌, ℕ, List, length};
ghost use Rattle.blk_model.specs.Request.{Request};
ghost use Rattle.blk_script.specs.Fields.{fields_left, length_left, given};
ghost use Rattle.blk_script.specs.Line as spec;

use crate::LineFault;
use crate::data::decode_data;
use crate::fields::Fields;
use crate::key::decode_key;
use crate::number::{read_count, read_handle, read_stream};

/// A handle and a key.
pub fn handle_and_key<'a>(
    fields: Fields,
    buffer: &'a mut [u8],
) -> Result<(u16, &'a [u8]), LineFault>
    requires { length_left fields ≤ length buffer.old }
    ensures { (make : ℕ → List ℕ → Request) → given (λ p. make p.0 p.1.now) result ≡ spec.two_fields (spec.handle_and_key make) (fields_left fields.entry) }
{
    let (handle, key) = fields.two()?;
    let handle = read_handle(handle)?;
    let key = decode_key(key, buffer)?;
    Ok((handle, key))
}

/// A handle alone.
pub fn handle_alone(fields: Fields) -> Result<u16, LineFault>
    ensures { (make : ℕ → Request) → given make result ≡ spec.one_field (spec.handle_alone make) (fields_left fields.entry) }
{
    let handle = fields.one()?;
    read_handle(handle)
}

/// A key alone.
pub fn key_alone<'a>(fields: Fields, buffer: &'a mut [u8]) -> Result<&'a [u8], LineFault>
    requires { length_left fields ≤ length buffer.old }
    ensures { (make : List ℕ → Request) → given (λ key. make key.now) result ≡ spec.one_field (spec.key_alone make) (fields_left fields.entry) }
{
    let key = fields.one()?;
    decode_key(key, buffer)
}

/// A number alone.
pub fn number_alone(fields: Fields) -> Result<u64, LineFault>
    ensures { (make : ℕ → Request) → given make result ≡ spec.one_field (spec.number_alone make) (fields_left fields.entry) }
{
    let number = fields.one()?;
    read_count(number)
}

/// A handle and a stream.
pub fn handle_and_stream(fields: Fields) -> Result<(u16, u8), LineFault>
    ensures { (make : ℕ → ℕ → Request) → given (λ p. make p.0 p.1) result ≡ spec.two_fields (spec.handle_and_stream make) (fields_left fields.entry) }
{
    let (handle, stream) = fields.two()?;
    let handle = read_handle(handle)?;
    let stream = read_stream(stream)?;
    Ok((handle, stream))
}

/// A handle, an offset and a count.
pub fn handle_and_range(fields: Fields) -> Result<(u16, u64, u64), LineFault>
    ensures { (make : ℕ → ℕ → ℕ → Request) → given (λ p. make p.0 p.1 p.2) result ≡ spec.three_left (spec.handle_and_range make) fields.entry }
{
    let (handle, offset, count) = fields.three()?;
    let handle = read_handle(handle)?;
    let offset = read_count(offset)?;
    let count = read_count(count)?;
    Ok((handle, offset, count))
}

/// A handle, an offset and data.
pub fn handle_and_data<'a>(
    fields: Fields,
    buffer: &'a mut [u8],
) -> Result<(u16, u64, &'a [u8]), LineFault>
    requires { length_left fields ≤ length buffer.old }
    ensures { (make : ℕ → ℕ → List ℕ → Request) → given (λ p. make p.0 p.1 p.2.now) result ≡ spec.three_left (spec.handle_and_data make) fields.entry }
{
    let (handle, offset, data) = fields.three()?;
    let handle = read_handle(handle)?;
    let offset = read_count(offset)?;
    let bytes = decode_data(data, buffer)?;
    Ok((handle, offset, bytes))
}

/// A handle, a stream, an offset and a count.
pub fn stream_and_range(fields: Fields) -> Result<(u16, u8, u64, u64), LineFault>
    ensures { (make : ℕ → ℕ → ℕ → ℕ → Request) → given (λ p. make p.0 p.1 p.2 p.3) result ≡ spec.four_left (spec.stream_and_range make) fields.entry }
{
    let (handle, stream, offset, count) = fields.four()?;
    let handle = read_handle(handle)?;
    let stream = read_stream(stream)?;
    let offset = read_count(offset)?;
    let count = read_count(count)?;
    Ok((handle, stream, offset, count))
}

/// A handle, a stream, an offset and data.
pub fn stream_and_data<'a>(
    fields: Fields,
    buffer: &'a mut [u8],
) -> Result<(u16, u8, u64, &'a [u8]), LineFault>
    requires { length_left fields ≤ length buffer.old }
    ensures { (make : ℕ → ℕ → ℕ → List ℕ → Request) → given (λ p. make p.0 p.1 p.2 p.3.now) result ≡ spec.four_left (spec.stream_and_data make) fields.entry }
{
    let (handle, stream, offset, data) = fields.four()?;
    let handle = read_handle(handle)?;
    let stream = read_stream(stream)?;
    let offset = read_count(offset)?;
    let bytes = decode_data(data, buffer)?;
    Ok((handle, stream, offset, bytes))
}
