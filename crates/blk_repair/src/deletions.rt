// The files that nothing names are deleted: block files that aren't linked, and external files that aren't used.
ghost use Rattle.std.specs.Prelude.{◌≡◌, ◌<◌, ◌≤◌, ℕ, None, Ok, OnOk, OnErr, IfOk, false};
ghost use Rattle.std.specs.Option.{ForSome};
ghost use Rattle.spec_image.specs.Image.{has_file, Block as block, External as external};
ghost use Rattle.spec_image.specs.Order.{IsBefore};
ghost use Rattle.spec_image.specs.Told.{Applies, Rises, Stays, ReadsOnly};
ghost use Rattle.blk_io.specs.FileNames.{file_of};
ghost use Rattle.spec_folder.specs.Sound.{OnlyLinked};
ghost use Rattle.blk_disk.specs.declared.tables.BlockFiles.{BlockFiles};
ghost use Rattle.blk_disk.specs.Open.{IsOpen};
ghost use Rattle.blk_repair.specs.Deletions.{DeletesAll, DeletesSome, FindsNext, HasNoExternalAfter, HasOnlyClaimed, IsMidDeletion, deletion_of, is_number_claimed, is_unclaimed, is_unlinked, last_block_file, last_first_file};
ghost use Rattle.blk_repair.specs.Seals.{HasMendedLinksOf};
ghost use Rattle.blk_repair.specs.RepairClauses.{ForEntry, Leaves, StaysWhere, StopsWith, WhereRebuilt};

use blk_addr::{Addr, Claims, LAST_EXTERNAL};
use blk_disk::BlockFiles;
use blk_io::{Failed, FileId, Folder};

// The last of the first four block files, which are always linked.
const LAST_FIRST_FILE: u8 = 3;

/// Deletes each block file that exists and isn't linked.
///
/// This takes one `list` call, and one more for each block file from `data_4` on; each file that is deleted takes a `delete`
/// call. `Failed` comes only where the folder failed in this call; a prefix of the deletions was then made.
pub fn delete_unlinked<F: Folder>(folder: &mut F, files: &BlockFiles) -> Result<(), Failed>
    requires is_open { ForSome (F.told folder.old).files (IsOpen files.now) }
    ensures linked { OnOk result (ForSome (F.told folder.new).files OnlyLinked) }
    ensures steps { OnOk result (DeletesAll (is_unlinked files.now) last_first_file (F.told folder.old) (F.told folder.new)) }
    ensures prefix { DeletesSome (is_unlinked files.now) last_first_file (F.told folder.old) (F.told folder.new) }

    // Where the links are repaired they stay so at each deletion, with the same kept records and recovered contents, and the crash word is unchanged; and what
    // was repaired of the files and of the checksums is so still.
    ensures stops { ForEntry F.told folder.old folder.new HasMendedLinksOf (λ entry. StopsWith (IsMidDeletion entry)) }

    ensures is_open { ForSome (F.told folder.new).files (IsOpen files.now) }

    // Where only linked block files are there, no step is made.
    ensures clean { ForSome (F.told folder.old).files (λ from. OnlyLinked from → Stays (F.told folder.old) (F.told folder.new)) }

    ensures later { F.faults folder.old ≤ F.faults folder.new }
    ensures failed { OnErr result (Rises (F.faults folder.old) (F.faults folder.new)) }
{
    let mut last = LAST_FIRST_FILE;
    while let Some(n) = next_block(folder, last)? {
        delete_block(folder, files, n)?;
        last = n;
    }
    Ok(())
}

/// Deletes each external file that exists and whose number isn't used.
///
/// A number that no address has isn't used. This takes one `list` call, and one more for each external file; each file
/// that is deleted takes a `delete` call. `Failed` comes only where the folder failed in this call; a prefix of the deletions
/// was then made.
pub fn delete_unclaimed<F: Folder>(folder: &mut F, claims: &Claims) -> Result<(), Failed>
    // Where `claims` are the used blocks of what is kept, exactly the external files that it uses are left.
    ensures claimed { OnOk result (WhereRebuilt F.told folder.old folder.new claims.now (λ entry. Leaves (λ from. HasOnlyClaimed))) }
    ensures steps { OnOk result (DeletesAll (is_unclaimed claims.now) last_block_file (F.told folder.old) (F.told folder.new)) }
    ensures prefix { DeletesSome (is_unclaimed claims.now) last_block_file (F.told folder.old) (F.told folder.new) }

    // The links then stay repaired at each deletion, with the same kept records and recovered contents, and the crash word is unchanged; and what was repaired
    // of the files and of the checksums is so still.
    ensures stops { WhereRebuilt F.told folder.old folder.new claims.now (λ entry. StopsWith (IsMidDeletion entry)) }

    ensures is_open { (files : BlockFiles) → ForSome (F.told folder.old).files (IsOpen files) → ForSome (F.told folder.new).files (IsOpen files) }

    // Where only external files that what is kept uses are there already, no step is made.
    ensures clean { WhereRebuilt F.told folder.old folder.new claims.now (λ entry. StaysWhere HasOnlyClaimed) }

    ensures later { F.faults folder.old ≤ F.faults folder.new }
    ensures failed { OnErr result (Rises (F.faults folder.old) (F.faults folder.new)) }
{
    let mut last = FileId::Block(u8::MAX);
    while let Some(number) = next_external(folder, last)? {
        delete_external(folder, claims, number)?;
        last = FileId::External(number);
    }
    Ok(())
}

// The first existing block file after one.
fn next_block<F: Folder>(folder: &mut F, last: u8) -> Result<Option<u8>, Failed>
    ensures after { IfOk result (λ next. ForSome next (λ n. last < n)) }
    ensures next { IfOk result (λ next. ForSome next (λ n. FindsNext (F.told folder.old) (block last) (block n))) }
    ensures none { result ≡ Ok None → ForSome (F.told folder.old).files (λ image. (n : ℕ) → last < n → has_file image (block n) ≡ false) }
    ensures reads { ReadsOnly F.told F.faults folder.old folder.new (OnErr result) }
{
    match folder.list(Some(FileId::Block(last)))? {
        Some(FileId::Block(n)) => Ok(Some(n)),
        _ => Ok(None),
    }
}

// Deletes a block file that isn't linked.
fn delete_block<F: Folder>(folder: &mut F, files: &BlockFiles, n: u8) -> Result<(), Failed>
    ensures steps { OnOk result (Applies (F.told folder.old) (F.told folder.new) (deletion_of (is_unlinked files.now) (block n))) }
    ensures undone { OnErr result (Stays (F.told folder.old) (F.told folder.new)) }
    ensures later { F.faults folder.old ≤ F.faults folder.new }
    ensures failed { OnErr result (Rises (F.faults folder.old) (F.faults folder.new)) }
{
    if files.max_entries(n).is_some() {
        return Ok(());
    }
    folder.delete(FileId::Block(n))
}

// The first existing external file after a file, after which no block file comes.
fn next_external<F: Folder>(folder: &mut F, last: FileId) -> Result<Option<u32>, Failed>
    requires past { IsBefore (file_of last) last_block_file → ⊥ }
    ensures after { IfOk result (λ next. ForSome next (λ number. IsBefore (file_of last) (external number))) }
    ensures next { IfOk result (λ next. ForSome next (λ number. FindsNext (F.told folder.old) (file_of last) (external number))) }
    ensures none { result ≡ Ok None → ForSome (F.told folder.old).files (HasNoExternalAfter (file_of last)) }
    ensures reads { ReadsOnly F.told F.faults folder.old folder.new (OnErr result) }
{
    match folder.list(Some(last))? {
        Some(FileId::External(number)) => Ok(Some(number)),
        _ => Ok(None),
    }
}

// Deletes an external file whose number isn't used.
fn delete_external<F: Folder>(folder: &mut F, claims: &Claims, number: u32) -> Result<(), Failed>
    ensures steps { OnOk result (Applies (F.told folder.old) (F.told folder.new) (deletion_of (is_unclaimed claims.now) (external number))) }
    ensures undone { OnErr result (Stays (F.told folder.old) (F.told folder.new)) }
    ensures later { F.faults folder.old ≤ F.faults folder.new }
    ensures failed { OnErr result (Rises (F.faults folder.old) (F.faults folder.new)) }
{
    if is_claimed(claims, number) {
        return Ok(());
    }
    folder.delete(FileId::External(number))
}

// Whether an external number is one that addresses have, and is used.
fn is_claimed(claims: &Claims, number: u32) -> bool
    ensures { result ≡ is_number_claimed claims.now number }
{
    0 < number && number <= LAST_EXTERNAL && claims.has(Addr::of_external(number))
}
