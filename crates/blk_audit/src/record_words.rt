// The words of a record, as they are read.
ghost use Rattle.std.specs.Prelude.{◌≡◌, IsTrue, OnOk, length};
ghost use Rattle.std.specs.Option.{ForSome};
ghost use Rattle.spec_image.specs.Image.{Block as block, HasRange};
ghost use Rattle.spec_image.specs.Told.{ReadsOnly};
ghost use Rattle.spec_format.specs.Address.{blocks_256, file_selector, kind_of, place};
ghost use Rattle.spec_format.specs.Records.{entry_size};
ghost use Rattle.blk_io.specs.declared.folder.FileId.TheVariants as FileId;
ghost use Rattle.blk_io.specs.Faults.{IfDamaged, IfDevice, IsShort, UndamagedWhere, OkFor};
ghost use Rattle.blk_disk.specs.Tables.{Agrees, stands_among};
ghost use Rattle.blk_audit.specs.Records.{AreWordsOf, record_words_in};

use blk_addr::Addr;
use blk_disk::BlockFiles;
use blk_entry::four_words;
use blk_io::{Fault, Folder};
use blk_record::{EntryView, Record};

// The place of the state in a record.
const STATE: usize = EntryView::STATE as usize;

/// The words of a record that say what it is, where its chain goes on, and whether its checksum matches or is absent.
#[derive(Clone, Copy, Debug)]
pub struct RecordWords {
    /// Whether its checksum is 0 or the hash of the bytes before it.
    pub checks: bool,
    /// Whether its checksum is 0.
    pub bare: bool,
    /// The hash of the key.
    pub hash: u32,
    /// The word of the next record in the chain, or 0.
    pub next: u32,
    /// The word of the rankings node.
    pub node: u32,
    /// 0 where the entry is live.
    pub state: u32,
    /// The number of the key's bytes.
    pub key_len: u32,
    /// The word of the storage of a long key, or 0.
    pub long_key: u32,
    /// The sizes of the streams in bytes; the last is of no stream.
    pub sizes: [u32; 4],
    /// The words of the storage of the streams, or 0; the last is of no stream.
    pub addrs: [u32; 4],
    /// 1 where the record is of a sparse entry, 2 where it is of a part of one.
    pub flags: u32,
}

/// Reads the words of a record that is there, by one folder call.
///
/// A failed check is a read that gave too few bytes; a folder whose files are those of `files` gives none.
pub fn read_words<F: Folder>(
    folder: &mut F,
    files: &BlockFiles,
    entry: Addr,
) -> Result<RecordWords, Fault>
    requires kind { kind_of entry ≡ blocks_256 }
    requires stands { IsTrue (stands_among files.now entry) }
    ensures words { OkFor result (F.told folder.old) (λ words image. AreWordsOf image entry words) }
    ensures checked { OnOk result (ForSome (F.told folder.old).files (λ image. HasRange image (block (file_selector entry)) (place entry) entry_size)) }
    ensures reads { ReadsOnly F.told F.faults folder.old folder.new (IfDevice result) }
    ensures short { IfDamaged result (IsShort (F.told folder.old) (FileId.Block (file_selector entry)) (place entry) entry_size) }
    ensures untold { UndamagedWhere result (F.told folder.old) (Agrees files.now) }
{
    let mut bytes = [0u8; EntryView::SIZE];
    files.read_block(folder, entry, 0, &mut bytes)?;
    Ok(words_of(&bytes))
}

// The words of a record with these bytes.
pub(crate) fn words_of(window: &[u8]) -> RecordWords
    requires { length window.now ≡ 96 }
    ensures { result ≡ record_words_in window.now }
{
    let view = EntryView::new(window);
    RecordWords {
        checks: view.checks(),
        bare: view.word(EntryView::SEAL) == 0,
        hash: view.word(EntryView::HASH as usize),
        next: view.word(EntryView::NEXT as usize),
        node: view.word(EntryView::NODE as usize),
        state: view.word(STATE),
        key_len: view.word(EntryView::KEY_LEN as usize),
        long_key: view.word(EntryView::LONG_KEY as usize),
        sizes: four_words(&view, EntryView::DATA_SIZE as usize),
        addrs: four_words(&view, EntryView::DATA_ADDR as usize),
        flags: view.word(EntryView::FLAGS as usize),
    }
}
