// What the fields after each word say.
ghost use Rattle.std.specs.Prelude.{◌≡◌, ◌≤◌, length};
ghost use Rattle.blk_model.specs.Request.{request_of, to_create, to_open, to_read, to_write, to_size, to_sparse_write, to_sparse_read, to_sparse_range, to_doom, to_doom_key, to_close, to_flush, to_list, to_trim, to_total};
ghost use Rattle.blk_script.specs.Fields.{fields_left, length_left, given};
ghost use Rattle.blk_script.specs.Line.{no_fields, one_field, two_fields, three_fields, four_fields, handle_and_key, handle_alone, key_alone, number_alone, handle_and_stream, handle_and_range, handle_and_data, stream_and_range, stream_and_data};

use crate::fields::Fields;
use crate::{LineFault, shapes};
use blk_model::Command;

/// `create H KEY`
pub fn read_create<'a>(fields: Fields, buffer: &'a mut [u8]) -> Result<Command<'a>, LineFault>
    requires { length_left fields ≤ length buffer.old }
    ensures { given request_of result ≡ two_fields (handle_and_key to_create) (fields_left fields.entry) }
{
    let (handle, key) = shapes::handle_and_key(fields, buffer)?;
    Ok(Command::Create { handle, key })
}

/// `open H KEY`
pub fn read_open<'a>(fields: Fields, buffer: &'a mut [u8]) -> Result<Command<'a>, LineFault>
    requires { length_left fields ≤ length buffer.old }
    ensures { given request_of result ≡ two_fields (handle_and_key to_open) (fields_left fields.entry) }
{
    let (handle, key) = shapes::handle_and_key(fields, buffer)?;
    Ok(Command::Open { handle, key })
}

/// `read H S OFFSET COUNT`
pub fn read_read<'a>(fields: Fields) -> Result<Command<'a>, LineFault>
    ensures { given request_of result ≡ four_fields (stream_and_range to_read) (fields_left fields.entry) }
{
    let (handle, stream, offset, count) = shapes::stream_and_range(fields)?;
    Ok(Command::Read {
        handle,
        stream,
        offset,
        count,
    })
}

/// `write H S OFFSET DATA`, or `cut` with the same fields.
pub fn read_write<'a>(
    fields: Fields,
    buffer: &'a mut [u8],
    cut: bool,
) -> Result<Command<'a>, LineFault>
    requires { length_left fields ≤ length buffer.old }
    ensures { given request_of result ≡ four_fields (stream_and_data (λ h s o d. to_write h s o cut d)) (fields_left fields.entry) }
{
    let (handle, stream, offset, bytes) = shapes::stream_and_data(fields, buffer)?;
    Ok(Command::Write {
        handle,
        stream,
        offset,
        cut,
        bytes,
    })
}

/// `size H S`
pub fn read_size<'a>(fields: Fields) -> Result<Command<'a>, LineFault>
    ensures { given request_of result ≡ two_fields (handle_and_stream to_size) (fields_left fields.entry) }
{
    let (handle, stream) = shapes::handle_and_stream(fields)?;
    Ok(Command::Size { handle, stream })
}

/// `swrite H OFFSET DATA`
pub fn read_sparse_write<'a>(fields: Fields, buffer: &'a mut [u8]) -> Result<Command<'a>, LineFault>
    requires { length_left fields ≤ length buffer.old }
    ensures { given request_of result ≡ three_fields (handle_and_data to_sparse_write) (fields_left fields.entry) }
{
    let (handle, offset, bytes) = shapes::handle_and_data(fields, buffer)?;
    Ok(Command::SparseWrite {
        handle,
        offset,
        bytes,
    })
}

/// `sread H OFFSET COUNT`
pub fn read_sparse_read<'a>(fields: Fields) -> Result<Command<'a>, LineFault>
    ensures { given request_of result ≡ three_fields (handle_and_range to_sparse_read) (fields_left fields.entry) }
{
    let (handle, offset, count) = shapes::handle_and_range(fields)?;
    Ok(Command::SparseRead {
        handle,
        offset,
        count,
    })
}

/// `srange H OFFSET COUNT`
pub fn read_sparse_range<'a>(fields: Fields) -> Result<Command<'a>, LineFault>
    ensures { given request_of result ≡ three_fields (handle_and_range to_sparse_range) (fields_left fields.entry) }
{
    let (handle, offset, count) = shapes::handle_and_range(fields)?;
    Ok(Command::SparseRange {
        handle,
        offset,
        count,
    })
}

/// `doom H`
pub fn read_doom<'a>(fields: Fields) -> Result<Command<'a>, LineFault>
    ensures { given request_of result ≡ one_field (handle_alone to_doom) (fields_left fields.entry) }
{
    let handle = shapes::handle_alone(fields)?;
    Ok(Command::Doom { handle })
}

/// `close H`
pub fn read_close<'a>(fields: Fields) -> Result<Command<'a>, LineFault>
    ensures { given request_of result ≡ one_field (handle_alone to_close) (fields_left fields.entry) }
{
    let handle = shapes::handle_alone(fields)?;
    Ok(Command::Close { handle })
}

/// `flush H`
pub fn read_flush<'a>(fields: Fields) -> Result<Command<'a>, LineFault>
    ensures { given request_of result ≡ one_field (handle_alone to_flush) (fields_left fields.entry) }
{
    let handle = shapes::handle_alone(fields)?;
    Ok(Command::Flush { handle })
}

/// `doomkey KEY`
pub fn read_doom_key<'a>(fields: Fields, buffer: &'a mut [u8]) -> Result<Command<'a>, LineFault>
    requires { length_left fields ≤ length buffer.old }
    ensures { given request_of result ≡ one_field (key_alone to_doom_key) (fields_left fields.entry) }
{
    let key = shapes::key_alone(fields, buffer)?;
    Ok(Command::DoomKey { key })
}

/// `trim BYTES`
pub fn read_trim<'a>(fields: Fields) -> Result<Command<'a>, LineFault>
    ensures { given request_of result ≡ one_field (number_alone to_trim) (fields_left fields.entry) }
{
    let bytes = shapes::number_alone(fields)?;
    Ok(Command::Trim { bytes })
}

/// `list`
pub fn read_list<'a>(fields: Fields) -> Result<Command<'a>, LineFault>
    ensures { given request_of result ≡ no_fields to_list (fields_left fields.entry) }
{
    fields.none()?;
    Ok(Command::List)
}

/// `total`
pub fn read_total<'a>(fields: Fields) -> Result<Command<'a>, LineFault>
    ensures { given request_of result ≡ no_fields to_total (fields_left fields.entry) }
{
    fields.none()?;
    Ok(Command::Total)
}
