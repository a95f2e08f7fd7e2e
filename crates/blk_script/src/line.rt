// A script line is read into a command.
ghost use Rattle.std.specs.Prelude.{◌≡◌, ◌≤◌, length};
ghost use Rattle.blk_model.specs.Request.{request_of};
ghost use Rattle.blk_script.specs.Fields.{fields_left, length_left, given};
ghost use Rattle.blk_script.specs.Line.{read_text, reading};

use crate::fields::{Fields, first_field};
use crate::words::{Word, word_of};
use crate::{LineFault, readers};
use blk_model::Command;

/// No line has more bytes, its end left aside.
pub const LONGEST_LINE: usize = 2200000;

/// The command that a line gives, or its first parse error. The line comes without its end. The key or the data of the command is decoded into the start of the
/// buffer.
pub fn read_line<'a>(line: &[u8], buffer: &'a mut [u8]) -> Result<Command<'a>, LineFault>
    requires { length line.now ≤ length buffer.old }
    ensures { given request_of result ≡ read_text line.now }
{
    if line.len() > LONGEST_LINE {
        return Err(LineFault::TooLong);
    }
    if line.is_empty() {
        return Err(LineFault::Empty);
    }
    let (word, fields) = first_field(line);
    match word_of(word) {
        Some(word) => read_fields(word, fields, buffer),
        None => Err(LineFault::UnknownWord),
    }
}

// What the fields after a word say.
#[tactic(auto, unfolding(crate::specs::Line::reading))]
fn read_fields<'a>(
    word: Word,
    fields: Fields,
    buffer: &'a mut [u8],
) -> Result<Command<'a>, LineFault>
    requires { length_left fields ≤ length buffer.old }
    ensures { given request_of result ≡ reading word (fields_left fields.entry) }
{
    match word {
        Word::Create => readers::read_create(fields, buffer),
        Word::Open => readers::read_open(fields, buffer),
        Word::Read => readers::read_read(fields),
        Word::Write => readers::read_write(fields, buffer, false),
        Word::Cut => readers::read_write(fields, buffer, true),
        Word::Size => readers::read_size(fields),
        Word::SparseWrite => readers::read_sparse_write(fields, buffer),
        Word::SparseRead => readers::read_sparse_read(fields),
        Word::SparseRange => readers::read_sparse_range(fields),
        Word::Doom => readers::read_doom(fields),
        Word::Close => readers::read_close(fields),
        Word::Flush => readers::read_flush(fields),
        Word::DoomKey => readers::read_doom_key(fields, buffer),
        Word::Trim => readers::read_trim(fields),
        Word::List => readers::read_list(fields),
        Word::Total => readers::read_total(fields),
    }
}
