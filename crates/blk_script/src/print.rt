// Fields are printed: words, numbers, keys and data.
ghost use Rattle.std.specs.Prelude.{◌≡◌, ◌≤◌, ◌<◌, ◌++◌, ◌∷◌, length, map, OnOk, OnErr};
ghost use Rattle.std.specs.Option.{option_map};
ghost use Rattle.hex.specs.Hex.{encode_lower};
ghost use Rattle.spec_image.specs.Told.{Rises};
ghost use Rattle.blk_io.specs.Streams.{Appends, GoesOn};
ghost use Rattle.blk_script.specs.Spelling.{number_text, key_text, data_text, field_text, line};

use blk_io::{Failed, Sink};
use hex::encode_to_slice;
use itoa::Buffer;
use percent_encoding::{AsciiSet, NON_ALPHANUMERIC, ascii_set, percent_encode};

/// How many bytes are turned into digits at once.
const PIECE: usize = 256;

/// The bytes of a key that are printed as escapes: all but letters, digits and six marks.
const ESCAPED: AsciiSet = ascii_set!(
    NON_ALPHANUMERIC
        .remove(b'-')
        .remove(b'.')
        .remove(b'_')
        .remove(b'~')
        .remove(b'/')
        .remove(b':')
);

/// A field of a line.
#[derive(Clone, Copy, Debug, PartialEq, Eq)]
pub enum Field<'a> {
    /// A word, printed as it is.
    Word(&'a str),
    /// A number, in decimal.
    Number(u64),
    /// A key, percent-encoded.
    Key(&'a [u8]),
    /// Data, in hexadecimal; `-` where there is none.
    Data(&'a [u8]),
}

/// Prints a number in decimal.
pub fn print_number<K: Sink>(out: &mut K, number: u64) -> Result<(), Failed>
    ensures steps { OnOk result (K.written out.new ≡ option_map (λ w. w ++ number_text number) (K.written out.old)) }
    ensures prefix { Appends (K.written out.old) (K.written out.new) (number_text number) }
    ensures later { GoesOn K.is K.faults out.old out.new }
    ensures failed { OnErr result (Rises (K.faults out.old) (K.faults out.new)) }
{
    let mut buffer = Buffer::new();
    out.put(buffer.format(number).as_bytes())
}

/// Prints a key, each byte but letters, digits and `-`, `.`, `_`, `~`, `/`, `:` as `%` and two
/// upper-case digits.
pub fn print_key<K: Sink>(out: &mut K, key: &[u8]) -> Result<(), Failed>
    ensures steps { OnOk result (K.written out.new ≡ option_map (λ w. w ++ key_text key.now) (K.written out.old)) }
    ensures prefix { Appends (K.written out.old) (K.written out.new) (key_text key.now) }
    ensures later { GoesOn K.is K.faults out.old out.new }
    ensures failed { OnErr result (Rises (K.faults out.old) (K.faults out.new)) }
{
    for piece in percent_encode(key, ESCAPED) {
        out.put(piece.as_bytes())?;
    }
    Ok(())
}

/// Prints two lower-case hexadecimal digits for each byte, and nothing for no byte.
pub fn print_bytes<K: Sink>(out: &mut K, bytes: &[u8]) -> Result<(), Failed>
    ensures steps { OnOk result (K.written out.new ≡ option_map (λ w. w ++ encode_lower bytes.now) (K.written out.old)) }
    ensures prefix { Appends (K.written out.old) (K.written out.new) (encode_lower bytes.now) }
    ensures later { GoesOn K.is K.faults out.old out.new }
    ensures failed { OnErr result (Rises (K.faults out.old) (K.faults out.new)) }
{
    let mut left = bytes;
    while !left.is_empty() {
        let (piece, rest) = left.split_at(left.len().min(PIECE));
        print_piece(out, piece)?;
        left = rest;
    }
    Ok(())
}

// Prints the digits of a few bytes.
fn print_piece<K: Sink>(out: &mut K, piece: &[u8]) -> Result<(), Failed>
    requires { length piece.now ≤ 256 }
    ensures steps { OnOk result (K.written out.new ≡ option_map (λ w. w ++ encode_lower piece.now) (K.written out.old)) }
    ensures prefix { Appends (K.written out.old) (K.written out.new) (encode_lower piece.now) }
    ensures later { GoesOn K.is K.faults out.old out.new }
    ensures failed { OnErr result (Rises (K.faults out.old) (K.faults out.new)) }
{
    let mut digits = [0; 2 * PIECE];
    let text = &mut digits[..2 * piece.len()];
    encode_to_slice(piece, text).unwrap();
    out.put(text)
}

/// Prints the fields with one space between each two, and the end of the line.
pub fn print_fields<K: Sink>(out: &mut K, fields: &[Field]) -> Result<(), Failed>
    ensures steps { OnOk result (K.written out.new ≡ option_map (λ w. w ++ line (map field_text fields.now)) (K.written out.old)) }
    ensures prefix { Appends (K.written out.old) (K.written out.new) (line (map field_text fields.now)) }
    ensures later { GoesOn K.is K.faults out.old out.new }
    ensures failed { OnErr result (Rises (K.faults out.old) (K.faults out.new)) }
{
    let Some((first, rest)) = fields.split_first() else {
        return out.put(b"\n");
    };
    print_field(out, first)?;
    for field in rest {
        print_further(out, field)?;
    }
    out.put(b"\n")
}

// Prints one more field, after a space.
fn print_further<K: Sink>(out: &mut K, field: &Field) -> Result<(), Failed>
    ensures steps { OnOk result (K.written out.new ≡ option_map (λ w. w ++ 32 ∷ field_text field.now) (K.written out.old)) }
    ensures prefix { Appends (K.written out.old) (K.written out.new) (32 ∷ field_text field.now) }
    ensures later { GoesOn K.is K.faults out.old out.new }
    ensures failed { OnErr result (Rises (K.faults out.old) (K.faults out.new)) }
{
    out.put(b" ")?;
    print_field(out, field)
}

// Prints one field.
fn print_field<K: Sink>(out: &mut K, field: &Field) -> Result<(), Failed>
    ensures steps { OnOk result (K.written out.new ≡ option_map (λ w. w ++ field_text field.now) (K.written out.old)) }
    ensures prefix { Appends (K.written out.old) (K.written out.new) (field_text field.now) }
    ensures later { GoesOn K.is K.faults out.old out.new }
    ensures failed { OnErr result (Rises (K.faults out.old) (K.faults out.new)) }
{
    match *field {
        Field::Word(word) => out.put(word.as_bytes()),
        Field::Number(number) => print_number(out, number),
        Field::Key(key) => print_key(out, key),
        Field::Data(bytes) => print_data(out, bytes),
    }
}

// Prints data, `-` where there is none.
fn print_data<K: Sink>(out: &mut K, bytes: &[u8]) -> Result<(), Failed>
    ensures steps { OnOk result (K.written out.new ≡ option_map (λ w. w ++ data_text bytes.now) (K.written out.old)) }
    ensures prefix { Appends (K.written out.old) (K.written out.new) (data_text bytes.now) }
    ensures later { GoesOn K.is K.faults out.old out.new }
    ensures failed { OnErr result (Rises (K.faults out.old) (K.faults out.new)) }
{
    if bytes.is_empty() {
        return out.put(b"-");
    }
    print_bytes(out, bytes)
}
