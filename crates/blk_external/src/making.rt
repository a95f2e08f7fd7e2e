// An external file is made, with the first free number.
ghost use Rattle.std.specs.Prelude.{◌≡◌, ◌⊎◌, ◌+◌, ◌≤◌, ◌<◌, None, OnOk, OnErr, IfOk};
ghost use Rattle.std.specs.Option.{ForSome};
ghost use Rattle.spec_image.specs.Told.{Applies, AppliesPrefix, Stays, Passes, Rises, ReadsOnly};
ghost use Rattle.spec_format.specs.Address.{kind_of, external, external_number};
ghost use Rattle.spec_format.specs.Headers.{HasWholeIndex};
ghost use Rattle.blk_io.specs.Faults.{IfDamaged, IfDevice, IsShort};
ghost use Rattle.blk_external.specs.Numbers.{IsNumber, HasFreeNumber, IsFirstFree, IsSearched, IsLeastExternal};
ghost use Rattle.blk_external.specs.Making.{making, last_number, last_file_place, CreatesPrefix, CreatesInProgress, Creates, AreNumbersUsedUp};

use blk_addr::{Addr, LAST_EXTERNAL};
use blk_io::{Damage, Failed, Fault, FileId, Folder, read_word, write_word};
use blk_record::IndexHead;

/// Makes an empty file with the first free number after the last one, and writes that number to the index.
///
/// The search takes the numbers above the last one in rising order and then goes on at 1. So it begins at 1 where the
/// index has 0, the largest number or a word that is no number. A failed check is a read that gave too few bytes of the
/// last number, or that no number is free; nothing is then written. Where the next number is free, two folder calls
/// find it.
pub fn create<F: Folder>(f: &mut F) -> Result<Addr, Fault>
    requires complete { ForSome (F.told f.old).files HasWholeIndex }
    ensures kind { IfOk result (λ addr. kind_of addr ≡ external) }
    ensures number { IfOk result (λ addr. IsNumber (external_number addr)) }
    ensures first { IfOk result (λ addr. ForSome (F.told f.old).files (λ image. IsFirstFree image (last_number image) (external_number addr))) }
    ensures made { IfOk result (λ addr. ForSome (F.told f.new).files (λ image. Creates image (external_number addr))) }
    ensures complete { ForSome (F.told f.new).files HasWholeIndex }
    ensures steps { IfOk result (λ addr. Applies (F.told f.old) (F.told f.new) (making (external_number addr))) }

    // Where a number is free, and whatever the answer: a prefix of the steps, and before and after each of them all else as it
    // was.
    ensures prefix { ForSome (F.told f.old).files HasFreeNumber → CreatesPrefix (F.told f.old) (F.told f.new) }
    ensures stops { ForSome (F.told f.old).files (λ from. HasFreeNumber from → Passes (F.told f.old) (F.told f.new) (CreatesInProgress from)) }

    ensures damaged { IfDamaged result (λ damage. IsShort (F.told f.old) FileId.Index last_file_place 4 damage ⊎ AreNumbersUsedUp (F.told f.old) damage) }
    ensures unwritten { IfDamaged result (λ _. Stays (F.told f.old) (F.told f.new)) }
    ensures untold { ForSome (F.told f.old).files HasFreeNumber → IfDamaged result (λ _. (F.told f.old).files ≡ None) }
    ensures later { F.faults f.old ≤ F.faults f.new }
    ensures device { IfDevice result (Rises (F.faults f.old) (F.faults f.new)) }
{
    let last = read_word(f, FileId::Index, IndexHead::LAST_FILE)?;
    let Some(number) = first_free(f, last)? else {
        return Err(Fault::Damaged(full(last)));
    };
    make(f, number)?;
    Ok(address_of(number))
}

// No number is free.
fn full(last: u32) -> Damage
    ensures { result ≡ record { file = FileId.Index; at = last_file_place; found = last } }
{
    Damage {
        file: FileId::Index,
        at: IndexHead::LAST_FILE,
        found: last,
    }
}

// The first free number after the last one.
fn first_free<F: Folder>(folder: &mut F, last: u32) -> Result<Option<u32>, Failed>
    ensures number { IfOk result (λ found. ForSome found IsNumber) }
    ensures first { IfOk result (λ found. ForSome (F.told folder.old).files (λ image. IsSearched image last found)) }
    ensures reads { ReadsOnly F.told F.faults folder.old folder.new (OnErr result) }
{
    let end = last.min(LAST_EXTERNAL) + 1;
    match least_free(folder, end, LAST_EXTERNAL + 1)? {
        Some(number) => Ok(Some(number)),
        None => least_free(folder, 1, end),
    }
}

// The least free number from one on and below another.
pub(crate) fn least_free<F: Folder>(
    folder: &mut F,
    low: u32,
    end: u32,
) -> Result<Option<u32>, Failed>
    ensures within { IfOk result (λ found. ForSome found (λ n. (low ≤ n) × (n < end))) }
    ensures least { IfOk result (λ found. ForSome (F.told folder.old).files (λ image. IsLeastExternal image low end found)) }
    ensures reads { ReadsOnly F.told F.faults folder.old folder.new (OnErr result) }
{
    for number in low..end {
        if folder.length(FileId::External(number))?.is_none() {
            return Ok(Some(number));
        }
    }
    Ok(None)
}

// Makes the file of a number.
fn make<F: Folder>(folder: &mut F, number: u32) -> Result<(), Failed>
    requires { ForSome (F.told folder.old).files HasWholeIndex }
    ensures steps { OnOk result (Applies (F.told folder.old) (F.told folder.new) (making number)) }
    ensures prefix { AppliesPrefix (F.told folder.old) (F.told folder.new) (making number) }
    ensures later { F.faults folder.old ≤ F.faults folder.new }
    ensures failed { OnErr result (Rises (F.faults folder.old) (F.faults folder.new)) }
{
    folder.set_len(FileId::External(number), 0)?;
    write_word(folder, FileId::Index, IndexHead::LAST_FILE, number)
}

// The address of a number.
fn address_of(number: u32) -> Addr
    requires { IsNumber number }
    ensures kind { kind_of result ≡ external }
    ensures number { external_number result ≡ number }
{
    Addr::of_external(number)
}
