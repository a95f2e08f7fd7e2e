// The words of the index header that recovery sets: the counters, the version, the session's number, and the crash word.
ghost use Rattle.std.specs.Prelude.{◌≡◌, ◌+◌, ◌%◌, ◌^◌, ◌<◌, ◌≤◌, ℕ, All, None, OnErr, OnOk, length};
ghost use Rattle.std.specs.Option.{ForSome};
ghost use Rattle.spec_image.specs.Bytes.{content, range_at, word_at};
ghost use Rattle.spec_image.specs.Image.{byte, Index as index};
ghost use Rattle.spec_image.specs.Told.{Applies, AppliesPrefix, MakesPartOf, PassesAny, Rises};
ghost use Rattle.spec_format.specs.Headers.{HasWholeIndex, header_length};
ghost use Rattle.spec_format.specs.Sealed.{AreDifferent};
ghost use Rattle.blk_io.specs.Faults.{IfDamaged, IfDevice};
ghost use Rattle.blk_repair.specs.Counters.{HasIndexWords, IsIndexMended, IsNextCounted, IsShortIndexHeader, found_word_steps, index_steps, index_words_steps};
ghost use Rattle.blk_repair.specs.Seals.{HasMendedLinksOf};
ghost use Rattle.blk_repair.specs.RepairClauses.{DoesAll, ForEntry, Leaves, OnImage};

use blk_index::set_word;
use blk_io::{Failed, Fault, FileId, Folder, read_exact};
use blk_record::{IndexHead, WORD_VALUES};
use byteorder::{ByteOrder, LittleEndian};

/// Sets the counters of the index (the number of the items in two words, and the sum of their costs in two words) and the session's number, and then the crash
/// word to 1. The version becomes the one that is made now, and the word in which the first version has the sum becomes 0.
///
/// The header is read by one call, and each word written where it differs. The crash word alone is written in any case,
/// and last, so that the end of an opening is known by it. This takes at most nine folder calls. Too few bytes are
/// corruption.
pub fn mend_index<F: Folder>(
    folder: &mut F,
    items: u32,
    bytes: u64,
    this_id: u32,
) -> Result<(), Fault>
    requires complete { ForSome (F.told folder.old).files HasWholeIndex }
    ensures words { OnOk result (ForSome (F.told folder.new).files (HasIndexWords items bytes this_id)) }
    ensures steps { OnOk result (OnImage F.told folder.old folder.new (DoesAll (index_steps items bytes this_id))) }
    ensures prefix { MakesPartOf (F.told folder.old) (F.told folder.new) (λ from. index_steps items bytes this_id from) }

    // Where the links are repaired they stay so at each word, with the same kept records and recovered contents; in the end the counters count what is kept,
    // and what was repaired of the files and of the checksums is so still.
    ensures mended { OnOk result (ForEntry F.told folder.old folder.new (λ entry. IsNextCounted entry items bytes) (λ entry. Leaves (IsIndexMended entry))) }
    ensures stops { ForEntry F.told folder.old folder.new HasMendedLinksOf (λ entry from old new. PassesAny old new (HasMendedLinksOf entry)) }

    ensures complete { ForSome (F.told folder.new).files HasWholeIndex }

    // The sum fits in its two words.
    ensures fits { bytes < 2 ^ 64 }

    // An observable folder reports no corruption.
    ensures damaged { IfDamaged result (IsShortIndexHeader (F.told folder.new)) }
    ensures untold { IfDamaged result (λ _. (F.told folder.old).files ≡ None) }

    ensures later { F.faults folder.old ≤ F.faults folder.new }
    ensures device { IfDevice result (Rises (F.faults folder.old) (F.faults folder.new)) }
{
    let mut head = [0u8; IndexHead::LEN];
    read_exact(folder, FileId::Index, 0, &mut head)?;
    let words = [
        (IndexHead::SIZES, items),
        (IndexHead::NUM_ENTRIES, items),
        (IndexHead::NUM_BYTES64, (bytes % WORD_VALUES) as u32),
        (IndexHead::NUM_BYTES64 + 4, (bytes / WORD_VALUES) as u32),
        (IndexHead::VERSION_PLACE, IndexHead::VERSION),
        (IndexHead::NUM_BYTES, 0),
        (IndexHead::THIS_ID, this_id),
    ];
    set_words(folder, &head, &words)?;
    set_word(folder, IndexHead::CRASH, 1)?;
    Ok(())
}

// Writes words of the index header, of which these bytes were read, each where it differs. No two have the same offset.
fn set_words<F: Folder>(folder: &mut F, head: &[u8], words: &[(u64, u32)]) -> Result<(), Failed>
    requires size { length head.now ≡ header_length }
    requires read { ForSome (F.told folder.old).files (λ image. head.now ≡ range_at (byte image index) 0 header_length) }
    requires aligned { All (λ (w : ℕ × ℕ). w.0 % 4 ≡ 0) words.now }
    requires inside { All (λ (w : ℕ × ℕ). w.0 < header_length) words.now }
    requires different { AreDifferent words.now }
    requires complete { ForSome (F.told folder.old).files HasWholeIndex }
    ensures steps { OnOk result (OnImage F.told folder.old folder.new (DoesAll (index_words_steps words.now))) }
    ensures prefix { MakesPartOf (F.told folder.old) (F.told folder.new) (λ from. index_words_steps words.now from) }
    ensures complete { ForSome (F.told folder.new).files HasWholeIndex }
    ensures later { F.faults folder.old ≤ F.faults folder.new }
    ensures failed { OnErr result (Rises (F.faults folder.old) (F.faults folder.new)) }
{
    for word in words {
        let found = word_in(head, word.0);
        set_where_other(folder, word.0, found, word.1)?;
    }
    Ok(())
}

// The word at a place of bytes that were read.
fn word_in(bytes: &[u8], at: u64) -> u32
    requires { at + 4 ≤ length bytes.now }
    ensures { result ≡ word_at (content bytes.now) at }
{
    LittleEndian::read_u32(&bytes[at as usize..])
}

// Writes a word of the index header where it differs from the one that was found.
fn set_where_other<F: Folder>(folder: &mut F, at: u64, found: u32, value: u32) -> Result<(), Failed>
    requires aligned { at % 4 ≡ 0 }
    requires inside { at < header_length }
    requires complete { ForSome (F.told folder.old).files HasWholeIndex }
    ensures steps { OnOk result (Applies (F.told folder.old) (F.told folder.new) (found_word_steps at found value)) }
    ensures prefix { AppliesPrefix (F.told folder.old) (F.told folder.new) (found_word_steps at found value) }
    ensures complete { ForSome (F.told folder.new).files HasWholeIndex }
    ensures later { F.faults folder.old ≤ F.faults folder.new }
    ensures failed { OnErr result (Rises (F.faults folder.old) (F.faults folder.new)) }
{
    if found == value {
        return Ok(());
    }
    set_word(folder, at, value)
}
