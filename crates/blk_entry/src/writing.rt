// New entries: the key, the record and the node are written.
ghost use Rattle.std.specs.Prelude.{◌≡◌, ◌≤◌, ◌++◌, length, OnErr, OnOk, IsTrue, false, if◌then◌else◌, unwrap_or};
ghost use Rattle.std.specs.Option.{ForSome};
ghost use Rattle.std.specs.List.{All};
ghost use Rattle.spec_image.specs.Bytes.{zeros};
ghost use Rattle.spec_image.specs.Steps.{with_words};
ghost use Rattle.spec_image.specs.Told.{Applies, AppliesPrefix, Passes, Rises};
ghost use Rattle.spec_format.specs.Address.{kind_of, rankings};
ghost use Rattle.spec_format.specs.Headers.{HasWholeIndex};
ghost use Rattle.spec_format.specs.Records as records;
ghost use Rattle.spec_format.specs.Storage.{key_place_bytes};
ghost use Rattle.blk_record.specs.Fields.{IsField};
ghost use Rattle.blk_io.specs.Faults.{IfDamaged, IfDevice};
ghost use Rattle.spec_format.specs.Sealed as sealed;
ghost use Rattle.blk_disk.specs.Tables.{Agrees, stands_among};
ghost use Rattle.blk_entry.specs.Writing.{AreWords, FitsKey, HoldsLongKey, IsShownNew, IsWritten, LiesApart, LoadsAlone, WritesEntryInProgress, entry_bytes, entry_steps, key_steps, new_node, new_record, node_bytes, node_steps, record_steps};

use crate::data::write_ended;
use bitflags::Flags;
use blk_addr::{Addr, RECORD_BLOCK};
use blk_disk::BlockFiles;
use blk_io::{Failed, Fault, Folder};
use blk_record::{
    EntryFlags, EntryMut, EntryView, NodeMut, NodeView, Record, RecordMut, WORD_VALUES,
    super_fast_hash,
};

// How many bytes a block of records has.
const BLOCK: usize = RECORD_BLOCK as usize;

/// What a new entry has beside its key, and the places where it is written.
#[derive(Clone, Copy, Debug)]
pub struct NewEntry {
    /// The blocks of the record, and of a key of at most 927 bytes.
    pub entry: Addr,
    /// The rankings node.
    pub node: Addr,
    /// The storage of a longer key, for one byte more than it has.
    pub long_key: Option<Addr>,
    /// Whether the entry is a part of a sparse one.
    pub child: bool,
    /// The dirty flag of the node, which is 0 in a clean one.
    pub dirty: u32,
    /// The word of the next record in the chain, or 0.
    pub next: u32,
}

/// Writes a new entry: the key with one zero byte after it, then the record, then the node.
///
/// The record has no streams, and the moment is its time and both times of the node. Record and node get their checksums. Four folder calls write the key, the
/// zero byte, the record and the node, each once. Nothing is read, so no failed check is found. The external file of a long key has its length already.
pub fn write_entry<F: Folder>(
    f: &mut F,
    files: &BlockFiles,
    new: &NewEntry,
    key: &[u8],
    moment: u64,
) -> Result<(), Fault>
    requires fits { FitsKey files.now new.now key.now }
    requires agrees { ForSome (F.told f.old).files (Agrees files.now) }
    requires external { ForSome (F.told f.old).files (HoldsLongKey new.now.long_key (length key.now)) }
    requires apart { ForSome (F.told f.old).files (λ _. LiesApart new.now.entry new.now.long_key) }
    ensures written { OnOk result (ForSome (F.told f.new).files (IsWritten new.now key.now moment)) }
    ensures shown { OnOk result (ForSome (F.told f.new).files (IsShownNew new.now key.now moment)) }

    // A plain entry loads by itself. A part has no index yet.
    ensures loads { OnOk result (new.now.child ≡ false → ForSome (F.told f.new).files (LoadsAlone new.now key.now)) }

    ensures agrees { ForSome (F.told f.new).files (Agrees files.now) }
    ensures complete { ForSome (F.told f.old).files HasWholeIndex → ForSome (F.told f.new).files HasWholeIndex }
    ensures steps { OnOk result (Applies (F.told f.old) (F.told f.new) (entry_steps new.now key.now moment)) }
    ensures prefix { AppliesPrefix (F.told f.old) (F.told f.new) (entry_steps new.now key.now moment) }

    // At each word no byte outside the three places has changed, and so the headers are kept.
    ensures stops { ForSome (F.told f.old).files (λ from. Passes (F.told f.old) (F.told f.new) (WritesEntryInProgress new.now (length key.now) from)) }

    // The fields are words, and the places addresses, whatever the answer.
    ensures words { AreWords new.now }

    ensures never { IfDamaged result (λ _. ⊥) }
    ensures later { F.faults f.old ≤ F.faults f.new }
    ensures device { IfDevice result (Rises (F.faults f.old) (F.faults f.new)) }
{
    write_places(f, files, *new, key, moment)?;
    Ok(())
}

// Writes the key and its zero byte, then the record and the node.
fn write_places<F: Folder>(
    folder: &mut F,
    files: &BlockFiles,
    new: NewEntry,
    key: &[u8],
    moment: u64,
) -> Result<(), Failed>
    requires fits { FitsKey files.now new key.now }
    requires agrees { ForSome (F.told folder.old).files (Agrees files.now) }
    requires external { ForSome (F.told folder.old).files (HoldsLongKey new.long_key (length key.now)) }
    ensures steps { OnOk result (Applies (F.told folder.old) (F.told folder.new) (entry_steps new key.now moment)) }
    ensures prefix { AppliesPrefix (F.told folder.old) (F.told folder.new) (entry_steps new key.now moment) }
    ensures words { AreWords new }
    ensures later { F.faults folder.old ≤ F.faults folder.new }
    ensures failed { OnErr result (Rises (F.faults folder.old) (F.faults folder.new)) }
{
    write_key(folder, files, &new, key)?;
    write_records(folder, files, &new, key, moment)
}

// Writes a key at its place, and one zero byte after it.
fn write_key<F: Folder>(
    folder: &mut F,
    files: &BlockFiles,
    new: &NewEntry,
    key: &[u8],
) -> Result<(), Failed>
    requires fits { FitsKey files.now new.now key.now }
    requires agrees { ForSome (F.told folder.old).files (Agrees files.now) }
    requires external { ForSome (F.told folder.old).files (HoldsLongKey new.now.long_key (length key.now)) }
    ensures steps { OnOk result (Applies (F.told folder.old) (F.told folder.new) (key_steps new.now key.now)) }
    ensures prefix { AppliesPrefix (F.told folder.old) (F.told folder.new) (key_steps new.now key.now) }
    ensures agrees { ForSome (F.told folder.new).files (Agrees files.now) }
    ensures later { F.faults folder.old ≤ F.faults folder.new }
    ensures failed { OnErr result (Rises (F.faults folder.old) (F.faults folder.new)) }
{
    match &new.long_key {
        Some(addr) => write_ended(folder, files, *addr, 0, key),
        None => write_ended(folder, files, new.entry, EntryView::SIZE as u32, key),
    }
}

// Writes the record and the node.
fn write_records<F: Folder>(
    folder: &mut F,
    files: &BlockFiles,
    new: &NewEntry,
    key: &[u8],
    moment: u64,
) -> Result<(), Failed>
    requires fits { FitsKey files.now new.now key.now }
    requires agrees { ForSome (F.told folder.old).files (Agrees files.now) }
    ensures steps { OnOk result (Applies (F.told folder.old) (F.told folder.new) (record_steps new.now key.now moment ++ node_steps new.now moment)) }
    ensures prefix { AppliesPrefix (F.told folder.old) (F.told folder.new) (record_steps new.now key.now moment ++ node_steps new.now moment) }
    ensures later { F.faults folder.old ≤ F.faults folder.new }
    ensures failed { OnErr result (Rises (F.faults folder.old) (F.faults folder.new)) }
{
    write_record(folder, files, new, key, moment)?;
    write_node(folder, files, new, moment)
}

// Writes the record, and zeros in the place of a key that lies elsewhere.
fn write_record<F: Folder>(
    folder: &mut F,
    files: &BlockFiles,
    new: &NewEntry,
    key: &[u8],
    moment: u64,
) -> Result<(), Failed>
    requires fits { FitsKey files.now new.now key.now }
    requires agrees { ForSome (F.told folder.old).files (Agrees files.now) }
    ensures steps { OnOk result (Applies (F.told folder.old) (F.told folder.new) (record_steps new.now key.now moment)) }
    ensures prefix { AppliesPrefix (F.told folder.old) (F.told folder.new) (record_steps new.now key.now moment) }
    ensures agrees { ForSome (F.told folder.new).files (Agrees files.now) }
    ensures later { F.faults folder.old ≤ F.faults folder.new }
    ensures failed { OnErr result (Rises (F.faults folder.old) (F.faults folder.new)) }
{
    let bytes = record_of(new, key, moment);
    let front = &bytes[..EntryView::SIZE];
    match &new.long_key {
        Some(_) => files.write_block(folder, new.entry, 0, &bytes),
        None => files.write_block(folder, new.entry, 0, front),
    }
}

// Writes the node.
fn write_node<F: Folder>(
    folder: &mut F,
    files: &BlockFiles,
    new: &NewEntry,
    moment: u64,
) -> Result<(), Failed>
    requires kind { kind_of new.now.node ≡ rankings }
    requires stands { IsTrue (stands_among files.now new.now.node) }
    requires agrees { ForSome (F.told folder.old).files (Agrees files.now) }
    ensures steps { OnOk result (Applies (F.told folder.old) (F.told folder.new) (node_steps new.now moment)) }
    ensures prefix { AppliesPrefix (F.told folder.old) (F.told folder.new) (node_steps new.now moment) }
    ensures later { F.faults folder.old ≤ F.faults folder.new }
    ensures failed { OnErr result (Rises (F.faults folder.old) (F.faults folder.new)) }
{
    let bytes = node_of(new, moment);
    files.write_block(folder, new.node, 0, &bytes)
}

// The bytes of the record, and zeros after them to the end of a block.
fn record_of(new: &NewEntry, key: &[u8], moment: u64) -> [u8; BLOCK]
    requires { length key.now ≤ 32796 }
    ensures bytes { result ≡ entry_bytes (new_record new.now key.now moment) ++ zeros key_place_bytes }
    ensures size { length result ≡ 256 }
{
    let words = [
        (EntryView::HASH as usize, super_fast_hash(key)),
        (EntryView::NEXT as usize, new.next),
        (EntryView::NODE as usize, new.node.word()),
        (
            EntryView::CREATION_TIME as usize,
            (moment % WORD_VALUES) as u32,
        ),
        (
            EntryView::CREATION_TIME as usize + 4,
            (moment / WORD_VALUES) as u32,
        ),
        (EntryView::KEY_LEN as usize, key.len() as u32),
        (EntryView::LONG_KEY as usize, word_of(&new.long_key)),
        (EntryView::FLAGS as usize, flags_of(new.child)),
    ];
    filled_record(&words)
}

// The word of an address, or 0 of none.
fn word_of(addr: &Option<Addr>) -> u32
    ensures { result ≡ unwrap_or addr.now 0 }
{
    match addr {
        Some(addr) => addr.word(),
        None => 0,
    }
}

// The flags of a record.
fn flags_of(child: bool) -> u32
    ensures { result ≡ (if child then records.child else records.plain) }
{
    if child { EntryFlags::CHILD.bits() } else { 0 }
}

// The bytes of the node.
fn node_of(new: &NewEntry, moment: u64) -> [u8; NodeView::SIZE]
    ensures { result ≡ node_bytes (new_node new.now moment) }
{
    let low = (moment % WORD_VALUES) as u32;
    let high = (moment / WORD_VALUES) as u32;
    let words = [
        (NodeView::LAST_USED as usize, low),
        (NodeView::LAST_USED as usize + 4, high),
        (NodeView::LAST_MODIFIED as usize, low),
        (NodeView::LAST_MODIFIED as usize + 4, high),
        (NodeView::CONTENTS as usize, new.entry.word()),
        (NodeView::DIRTY as usize, new.dirty),
    ];
    filled_node(&words)
}

// A record of these words, each at its place, and zeros else, with its checksum.
fn filled_record(words: &[(usize, u32)]) -> [u8; BLOCK]
    requires fields { All (λ word. IsField records.entry_size word.0) words.now }
    ensures { result ≡ sealed.sealed records.entry_seal_place (with_words words.now (zeros 256)) }
{
    let mut bytes = [0; BLOCK];
    fill(&mut EntryMut::new(&mut bytes), words);
    bytes
}

// A node of these words, each at its offset, and zeros else, with its checksum.
fn filled_node(words: &[(usize, u32)]) -> [u8; NodeView::SIZE]
    requires fields { All (λ word. IsField records.node_size word.0) words.now }
    ensures { result ≡ sealed.sealed records.node_seal_place (with_words words.now (zeros 36)) }
{
    let mut bytes = [0; NodeView::SIZE];
    fill(&mut NodeMut::new(&mut bytes), words);
    bytes
}

// Writes words into a record, each at its place, and gives it its checksum.
fn fill<R: RecordMut>(view: &mut R, words: &[(usize, u32)])
    requires fields { All (λ word. IsField R.size word.0) words.now }
    ensures window { R.window_of view.new ≡ sealed.sealed R.seal_place (with_words words.now (R.window_of view.old)) }
    ensures same_reference { R.reference view.new ≡ R.reference view.old }
{
    for (at, value) in words {
        view.set_word(*at, *value);
    }
    view.seal();
}
