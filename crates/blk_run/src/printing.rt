// The lines that are printed. Each is written to the output in pieces, takes no memory, and is flushed at its end.
ghost use Rattle.std.specs.Prelude.{◌≡◌, ◌++◌, ◌≤◌, OnOk, OnErr, drop, length, false};
ghost use Rattle.std.specs.List.{flat_map};
ghost use Rattle.std.specs.Option.{option_map};
ghost use Rattle.spec_image.specs.Told.{Rises};
ghost use Rattle.blk_io.specs.Streams.{Appends, GoesOn};
ghost use Rattle.blk_io.specs.Faults.{damage_of};
ghost use Rattle.blk_io.specs.Texts.{hex_text};
ghost use Rattle.spec_run.specs.Script.{totals_line};
ghost use Rattle.blk_run.specs.Texts.{damage_line, usage_text};

use blk_io::{Damage, Failed, FileId, Sink};
use itoa::Buffer;

// Prints these pieces, one after another, and flushes after the last.
fn print_all<K: Sink>(out: &mut K, pieces: &[&[u8]]) -> Result<(), Failed>
    ensures steps { OnOk result (K.written out.new ≡ option_map (λ w. w ++ flat_map (λ piece. piece.now) pieces.now) (K.written out.old)) }
    ensures prefix { Appends (K.written out.old) (K.written out.new) (flat_map (λ piece. piece.now) pieces.now) }
    ensures later { GoesOn K.is K.faults out.old out.new }
    ensures handed { OnOk result (K.waiting out.new ≡ false) }
    ensures failed { OnErr result (Rises (K.faults out.old) (K.faults out.new)) }
{
    for piece in pieces {
        out.put(piece)?;
    }
    out.flush()
}

/// Prints the usage, on a line.
///
/// Where the output fails, a prefix of the line may have been printed.
pub(crate) fn print_usage<K: Sink>(out: &mut K) -> Result<(), Failed>
    ensures steps { OnOk result (K.written out.new ≡ option_map (λ w. w ++ usage_text) (K.written out.old)) }
    ensures prefix { Appends (K.written out.old) (K.written out.new) usage_text }
    ensures later { GoesOn K.is K.faults out.old out.new }
    ensures handed { OnOk result (K.waiting out.new ≡ false) }
    ensures failed { OnErr result (Rises (K.faults out.old) (K.faults out.new)) }
{
    out.put(b"usage\n")?;
    out.flush()
}

// The eight hexadecimal digits of a word.
fn digits_of(word: u32) -> [u8; 8]
    ensures digits { result ≡ hex_text 8 word }
    ensures eight { length result ≡ 8 }
{
    let mut digits = [0u8; 8];
    match hex::encode_to_slice(word.to_be_bytes(), &mut digits) {
        Ok(()) => digits,
        Err(_) => unreachable!(),
    }
}

/// Prints a failed check, on a line.
///
/// Where the output fails, a prefix of the line may have been printed.
pub fn print_damage<K: Sink>(out: &mut K, damage: Damage) -> Result<(), Failed>
    ensures steps { OnOk result (K.written out.new ≡ option_map (λ w. w ++ damage_line (damage_of damage)) (K.written out.old)) }
    ensures prefix { Appends (K.written out.old) (K.written out.new) (damage_line (damage_of damage)) }
    ensures later { GoesOn K.is K.faults out.old out.new }
    ensures handed { OnOk result (K.waiting out.new ≡ false) }
    ensures failed { OnErr result (Rises (K.faults out.old) (K.faults out.new)) }
{
    let mut number = Buffer::new();
    let mut place = Buffer::new();
    let at = place.format(damage.at).as_bytes();
    let found = digits_of(damage.found);
    match damage.file {
        FileId::Index => print_all(out, &[b"damaged index ", at, b" ", &found, b"\n"]),
        FileId::Block(n) => {
            let n = number.format(n).as_bytes();
            print_all(out, &[b"damaged data_", n, b" ", at, b" ", &found, b"\n"])
        }
        FileId::External(n) => {
            let digits = digits_of(n);
            let name = &digits[left_out(n)..];
            print_all(out, &[b"damaged f_", name, b" ", at, b" ", &found, b"\n"])
        }
    }
}

// How many of the eight digits the name of an external file leaves out: it has at least six.
fn left_out(n: u32) -> usize
    ensures six { drop result (hex_text 8 n) ≡ hex_text 6 n }
    ensures few { result ≤ 2 }
{
    if n < 0x100_0000 {
        2
    } else if n < 0x1000_0000 {
        1
    } else {
        0
    }
}

/// Prints how many items there are, and how many bytes, on a line.
///
/// Where the output fails, a prefix of the line may have been printed.
pub fn print_totals<K: Sink>(out: &mut K, items: u64, bytes: u64) -> Result<(), Failed>
    ensures steps { OnOk result (K.written out.new ≡ option_map (λ w. w ++ totals_line items bytes) (K.written out.old)) }
    ensures prefix { Appends (K.written out.old) (K.written out.new) (totals_line items bytes) }
    ensures later { GoesOn K.is K.faults out.old out.new }
    ensures handed { OnOk result (K.waiting out.new ≡ false) }
    ensures failed { OnErr result (Rises (K.faults out.old) (K.faults out.new)) }
{
    let mut count = Buffer::new();
    let mut sum = Buffer::new();
    let items = count.format(items).as_bytes();
    let bytes = sum.format(bytes).as_bytes();
    print_all(out, &[b"items ", items, b" bytes ", bytes, b"\n"])
}
