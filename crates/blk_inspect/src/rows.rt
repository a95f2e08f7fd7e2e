// Rows that are printed, a line each.
ghost use Rattle.std.specs.Prelude.{◌≡◌, ◌++◌, ℕ, List, OnOk, OnErr, length};
ghost use Rattle.std.specs.List.{flat_map};
ghost use Rattle.std.specs.Option.{option_map};
ghost use Rattle.spec_image.specs.Told.{Rises};
ghost use Rattle.blk_io.specs.Streams.{Appends, GoesOn};
ghost use Rattle.blk_script.specs.Spelling.{data_text};
ghost use Rattle.blk_inspect.specs.Texts.{end_line, word_text};

use blk_io::{Failed, Sink};
use blk_model::Answer;
use blk_script::Field::{Data, Word};
use blk_script::{print_fields, print_reply};

/// Something that is printed as one line.
pub(crate) trait Row {
    /// The printed line.
    ghost text: { Self → List ℕ };

    /// Prints the line, or a prefix of it where the output fails.
    fn print<K: Sink>(&self, out: &mut K) -> Result<(), Failed>
        ensures steps { OnOk result (K.written out.new ≡ option_map (λ w. w ++ text self.now) (K.written out.old)) }
        ensures prefix { Appends (K.written out.old) (K.written out.new) (text self.now) }
        ensures later { GoesOn K.is K.faults out.old out.new }
        ensures failed { OnErr result (Rises (K.faults out.old) (K.faults out.new)) };
}

/// A word with its name.
#[derive(Clone, Copy)]
pub(crate) struct NamedWord {
    pub(crate) name: &'static str,
    pub(crate) word: u32,
}

impl Row for NamedWord {
    ghost use Rattle.blk_inspect.specs.Findings.{word_row_line};

    ghost text = { word_row_line };

    fn print<K: Sink>(&self, out: &mut K) -> Result<(), Failed> {
        let word = bytes_of(self.word);
        print_fields(out, &[Word(self.name), Data(&word)])
    }
}

/// A node, with the address of its record and its dirty flag.
#[derive(Clone, Copy)]
pub(crate) struct NodeRow {
    pub(crate) node: u32,
    pub(crate) contents: u32,
    pub(crate) dirty: u32,
}

impl Row for NodeRow {
    ghost use Rattle.blk_inspect.specs.Findings.{node_row_line};

    ghost text = { node_row_line };

    fn print<K: Sink>(&self, out: &mut K) -> Result<(), Failed> {
        let node = bytes_of(self.node);
        let contents = bytes_of(self.contents);
        let dirty = bytes_of(self.dirty);
        print_fields(
            out,
            &[
                Word("node"),
                Data(&node),
                Word("contents"),
                Data(&contents),
                Word("dirty"),
                Data(&dirty),
            ],
        )
    }
}

/// A record, with the hash of its key.
#[derive(Clone, Copy)]
pub(crate) struct RecordRow {
    pub(crate) entry: u32,
    pub(crate) hash: u32,
}

impl Row for RecordRow {
    ghost use Rattle.blk_inspect.specs.Findings.{record_row_line};

    ghost text = { record_row_line };

    fn print<K: Sink>(&self, out: &mut K) -> Result<(), Failed> {
        let entry = bytes_of(self.entry);
        let hash = bytes_of(self.hash);
        print_fields(
            out,
            &[Word("entry"), Data(&entry), Word("hash"), Data(&hash)],
        )
    }
}

// Prints rows, one after another.
pub(crate) fn print_rows<K: Sink, R: Row>(out: &mut K, rows: &[R]) -> Result<(), Failed>
    ensures steps { OnOk result (K.written out.new ≡ option_map (λ w. w ++ flat_map R.text rows.now) (K.written out.old)) }
    ensures prefix { Appends (K.written out.old) (K.written out.new) (flat_map R.text rows.now) }
    ensures later { GoesOn K.is K.faults out.old out.new }
    ensures failed { OnErr result (Rises (K.faults out.old) (K.faults out.new)) }
{
    for row in rows {
        row.print(out)?;
    }
    Ok(())
}

// Prints rows, and how many they are.
pub(crate) fn print_counted<K: Sink, R: Row>(out: &mut K, rows: &[R]) -> Result<(), Failed>
    ensures steps { OnOk result (K.written out.new ≡ option_map (λ w. w ++ (flat_map R.text rows.now ++ end_line (length rows.now))) (K.written out.old)) }
    ensures prefix { Appends (K.written out.old) (K.written out.new) (flat_map R.text rows.now ++ end_line (length rows.now)) }
    ensures later { GoesOn K.is K.faults out.old out.new }
    ensures failed { OnErr result (Rises (K.faults out.old) (K.faults out.new)) }
{
    print_rows(out, rows)?;
    print_reply(out, &Answer::Listed(rows.len() as u64))
}

// The bytes of a word, the highest first: as data they are printed as its eight digits.
pub(crate) fn bytes_of(word: u32) -> [u8; 4]
    ensures { data_text result ≡ word_text word }
{
    word.to_be_bytes()
}
