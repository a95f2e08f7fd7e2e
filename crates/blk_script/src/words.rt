// The words that commands begin with.
ghost use Rattle.std.specs.Prelude.{◌≡◌, ℕ, List, map};
ghost use Rattle.blk_script.specs.Line.{by_word, command_words};
ghost use Rattle.blk_script.specs.Words.{by_known, word_line};

/// A word that a command begins with.
#[derive(Clone, Copy)]
pub enum Word {
    /// `create`
    Create,
    /// `open`
    Open,
    /// `read`
    Read,
    /// `write`
    Write,
    /// `cut`
    Cut,
    /// `size`
    Size,
    /// `swrite`
    SparseWrite,
    /// `sread`
    SparseRead,
    /// `srange`
    SparseRange,
    /// `doom`
    Doom,
    /// `close`
    Close,
    /// `flush`
    Flush,
    /// `doomkey`
    DoomKey,
    /// `trim`
    Trim,
    /// `list`
    List,
    /// `total`
    Total,
}

/// Each word as it is written.
const WORDS: [(&str, Word); 16] = [
    ("create", Word::Create),
    ("open", Word::Open),
    ("read", Word::Read),
    ("write", Word::Write),
    ("cut", Word::Cut),
    ("size", Word::Size),
    ("swrite", Word::SparseWrite),
    ("sread", Word::SparseRead),
    ("srange", Word::SparseRange),
    ("doom", Word::Doom),
    ("close", Word::Close),
    ("flush", Word::Flush),
    ("doomkey", Word::DoomKey),
    ("trim", Word::Trim),
    ("list", Word::List),
    ("total", Word::Total),
];

/// The word that a field is, where it is one.
pub fn word_of(field: &[u8]) -> Option<Word>
    ensures { (fields : List (List ℕ)) → by_word field.now fields command_words ≡ by_known result fields }
{
    word_in(field, &WORDS)
}

// The word of the first line of the table that has the field.
fn word_in(field: &[u8], table: &[(&str, Word)]) -> Option<Word>
    ensures { (fields : List (List ℕ)) → by_word field.now fields (map word_line table.now) ≡ by_known result fields }
{
    for (text, word) in table {
        if field == text.as_bytes() {
            return Some(*word);
        }
    }
    None
}
