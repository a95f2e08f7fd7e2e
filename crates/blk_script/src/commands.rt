// Commands are printed as lines.
ghost use Rattle.std.specs.Prelude.{◌≡◌, ◌<◌, ◌++◌, List, [], ◌∷◌, map, OnOk, OnErr};
ghost use Rattle.std.specs.Option.{option_map};
ghost use Rattle.spec_image.specs.Told.{Rises};
ghost use Rattle.blk_io.specs.Streams.{Appends, GoesOn};
ghost use Rattle.blk_model.specs.Request.{request_of, to_read, to_write, to_size, to_sparse_write};
ghost use Rattle.blk_script.specs.Spelling.{number_text, key_text, field_text, fields_for, line_of};

use crate::print::Field::{self, Data, Key, Number, Word};
use crate::print::print_fields;
use blk_io::{Failed, Sink};
use blk_model::Command;

/// Prints a command in its one spelling, with the end of its line.
#[tactic(auto, unfolding(crate::specs::Spelling::line_of))]
pub fn print_line<K: Sink>(out: &mut K, command: &Command) -> Result<(), Failed>
    ensures steps { OnOk result (K.written out.new ≡ option_map (λ w. w ++ (line_of (request_of command.now) ++ 10 ∷ [])) (K.written out.old)) }
    ensures prefix { Appends (K.written out.old) (K.written out.new) (line_of (request_of command.now) ++ 10 ∷ []) }
    ensures later { GoesOn K.is K.faults out.old out.new }
    ensures failed { OnErr result (Rises (K.faults out.old) (K.faults out.new)) }
{
    match *command {
        Command::Create { handle, key } => print_fields(out, &key_fields("create", handle, key)),
        Command::Open { handle, key } => print_fields(out, &key_fields("open", handle, key)),
        Command::Read {
            handle,
            stream,
            offset,
            count,
        } => print_fields(out, &fields_to_read(handle, stream, offset, count)),
        Command::Write {
            handle,
            stream,
            offset,
            cut,
            bytes,
        } => print_fields(out, &fields_to_write(handle, stream, offset, cut, bytes)),
        Command::Size { handle, stream } => print_fields(out, &fields_to_size(handle, stream)),
        Command::SparseWrite {
            handle,
            offset,
            bytes,
        } => print_fields(out, &fields_to_write_sparse(handle, offset, bytes)),
        Command::SparseRead {
            handle,
            offset,
            count,
        } => print_fields(out, &range_fields("sread", handle, offset, count)),
        Command::SparseRange {
            handle,
            offset,
            count,
        } => print_fields(out, &range_fields("srange", handle, offset, count)),
        Command::Doom { handle } => print_fields(out, &[Word("doom"), Number(handle.into())]),
        Command::DoomKey { key } => print_fields(out, &[Word("doomkey"), Key(key)]),
        Command::Close { handle } => print_fields(out, &[Word("close"), Number(handle.into())]),
        Command::Flush { handle } => print_fields(out, &[Word("flush"), Number(handle.into())]),
        Command::List => print_fields(out, &[Word("list")]),
        Command::Trim { bytes } => print_fields(out, &[Word("trim"), Number(bytes)]),
        Command::Total => print_fields(out, &[Word("total")]),
    }
}

// The fields of a command on a handle and a key.
fn key_fields<'a>(word: &'a str, handle: u16, key: &'a [u8]) -> [Field<'a>; 3]
    ensures { map field_text result ≡ word.now ∷ number_text handle ∷ key_text key.now ∷ [] }
{
    [Word(word), Number(handle.into()), Key(key)]
}

// The fields of the command that asks for the length of a stream.
fn fields_to_size<'a>(handle: u16, stream: u8) -> [Field<'a>; 3]
    ensures { map field_text result ≡ fields_for (to_size handle stream) }
{
    [Word("size"), Number(handle.into()), Number(stream.into())]
}

// The fields of a command on a range of sparse data.
fn range_fields<'a>(word: &'a str, handle: u16, offset: u64, count: u64) -> [Field<'a>; 4]
    ensures { map field_text result ≡ word.now ∷ number_text handle ∷ number_text offset ∷ number_text count ∷ [] }
{
    [
        Word(word),
        Number(handle.into()),
        Number(offset),
        Number(count),
    ]
}

// The fields of a write of sparse data.
fn fields_to_write_sparse<'a>(handle: u16, offset: u64, bytes: &'a [u8]) -> [Field<'a>; 4]
    ensures { map field_text result ≡ fields_for (to_sparse_write handle offset bytes.now) }
{
    [
        Word("swrite"),
        Number(handle.into()),
        Number(offset),
        Data(bytes),
    ]
}

// The fields of a read of a stream.
fn fields_to_read<'a>(handle: u16, stream: u8, offset: u64, count: u64) -> [Field<'a>; 5]
    ensures { map field_text result ≡ fields_for (to_read handle stream offset count) }
{
    [
        Word("read"),
        Number(handle.into()),
        Number(stream.into()),
        Number(offset),
        Number(count),
    ]
}

// The fields of a write of a stream, which ends there where `cut` is true.
fn fields_to_write<'a>(
    handle: u16,
    stream: u8,
    offset: u64,
    cut: bool,
    bytes: &'a [u8],
) -> [Field<'a>; 5]
    ensures { map field_text result ≡ fields_for (to_write handle stream offset cut bytes.now) }
{
    [
        Word(if cut { "cut" } else { "write" }),
        Number(handle.into()),
        Number(stream.into()),
        Number(offset),
        Data(bytes),
    ]
}
