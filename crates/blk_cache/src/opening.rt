// A folder is opened: it is made or checked, and recovered by its scan.
ghost use Rattle.std.specs.Prelude.{◌≡◌, IfOk, None, OnOk, Some};
ghost use Rattle.std.specs.Option.{ForSome};
ghost use Rattle.spec_image.specs.Told.{Stays, MayWrite};
ghost use Rattle.spec_format.specs.BlockFiles.{IsDamagedBy, IsUsable, IsWellFormed, first_damage};
ghost use Rattle.spec_format.specs.Headers.{HasWholeIndex, IsUnfinished};
ghost use Rattle.blk_io.specs.Faults.{IfDamaged, IfDevice, damage_of, OpaqueIfDamaged, UndamagedWhere};
ghost use Rattle.blk_index.specs.Start.{IsFinished};
ghost use Rattle.blk_disk.specs.Open.{IsOpen};
ghost use Rattle.blk_repair.specs.Repair.{IsRepairable};
ghost use Rattle.blk_scan.specs.Scans.{StandAmong};
ghost use Rattle.blk_cache.specs.Opened.{FromEach, IsJustMade, IsOpenedAs, IsOpeningDamage, MadeBy, MendedBy, MendingBy, OpenedBy, MadeByWords};
ghost use Rattle.blk_cache.specs.Opening.{IfOpenDamaged, IfOpenDevice, IfOpenMemory, OpensFolder, OpensOrBreaksOff, WasMadeAt};

use crate::fault::OpenFault;
use blk_disk::BlockFiles;
use blk_index::{Start, look, make, word};
use blk_io::{Fault, Folder};
use blk_record::IndexHead;
use blk_repair::repair;
use blk_scan::{Scan, scan_files};
use std::alloc::Global;

// What a cache keeps of a folder that was opened: its block files, how many items it has with how many bytes, and the
// number of the session.
#[derive(Drop)]
pub(crate) struct Opened {
    pub(crate) files: BlockFiles,
    pub(crate) items: u64,
    pub(crate) bytes: u64,
    pub(crate) mark: u32,
}

// Opens a folder, which is made where it is uninitialized.
pub(crate) fn open_folder<F: Folder>(
    alloc: Global,
    folder: &mut F,
    moment: u64,
) -> Result<Opened, OpenFault>
    ensures opened { IfOk result (λ opened. ForSome (F.told folder.old).files (λ from. ForSome (F.told folder.new).files (IsOpenedAs from opened))) }
    ensures checked { OnOk result (ForSome (F.told folder.old).files IsUsable) }
    ensures made { OnOk result (ForSome (F.told folder.old).files (λ from. IsUnfinished from → ForSome (F.told folder.new).files (WasMadeAt moment))) }
    ensures stops { ForSome (F.told folder.old).files (λ from. OpensOrBreaksOff from (F.told folder.old) (F.told folder.new)) }
    ensures last { OnOk result (ForSome (F.told folder.old).files (λ from. OpensFolder from (F.told folder.old) (F.told folder.new))) }
    ensures damaged { IfOpenDamaged result (IsOpeningDamage (F.told folder.new)) }
    ensures first { IfOpenDamaged result (λ damage. ForSome (F.told folder.old).files (IsDamagedBy (damage_of damage))) }
    ensures unwritten { ForSome (F.told folder.old).files (λ from. (IsUsable from → ⊥) → Stays (F.told folder.old) (F.told folder.new)) }
    ensures memory { IfOpenMemory result (Stays (F.told folder.old) (F.told folder.new)) }
    ensures writes { MayWrite F.told F.faults folder.old folder.new (IfOpenDevice result) }
{
    match look(folder)? {
        Start::Unfinished => Ok(open_new(alloc, folder, moment)?),
        Start::Finished => open_finished(alloc, folder),
    }
}

// Makes a folder, and opens it.
fn open_new<F: Folder>(alloc: Global, folder: &mut F, moment: u64) -> Result<Opened, Fault>
    requires unfinished { ForSome (F.told folder.old).files IsUnfinished }
    ensures opened { IfOk result (λ opened. ForSome (F.told folder.old).files (λ from. ForSome (F.told folder.new).files (IsOpenedAs from opened))) }
    ensures made { OnOk result (ForSome (F.told folder.old).files (λ _. ForSome (F.told folder.new).files (WasMadeAt moment))) }
    ensures stops { ForSome (F.told folder.old).files (λ from. OpensOrBreaksOff from (F.told folder.old) (F.told folder.new)) }
    ensures last { OnOk result (ForSome (F.told folder.old).files (λ from. OpensFolder from (F.told folder.old) (F.told folder.new))) }
    ensures damaged { IfDamaged result (IsOpeningDamage (F.told folder.new)) }
    ensures untold { OpaqueIfDamaged result (F.told folder.old) }
    ensures writes { MayWrite F.told F.faults folder.old folder.new (IfDevice result) }
{
    make(folder, moment)?;
    open_made(alloc, folder)
}

// Opens a folder that was just made.
fn open_made<F: Folder>(alloc: Global, folder: &mut F) -> Result<Opened, Fault>
    requires complete { ForSome (F.told folder.old).files HasWholeIndex }
    ensures opened { IfOk result (λ opened. FromEach (F.told folder.old) IsJustMade (OpenedBy (F.told folder.new) opened)) }
    ensures made { OnOk result (FromEach (F.told folder.old) IsJustMade (MadeBy (F.told folder.new))) }
    ensures stops { FromEach (F.told folder.old) IsJustMade (MendingBy (F.told folder.old) (F.told folder.new)) }
    ensures last { OnOk result (FromEach (F.told folder.old) IsJustMade (MendedBy (F.told folder.old) (F.told folder.new))) }
    ensures damaged { IfDamaged result (IsOpeningDamage (F.told folder.new)) }
    ensures untold { UndamagedWhere result (F.told folder.old) IsJustMade }
    ensures writes { MayWrite F.told F.faults folder.old folder.new (IfDevice result) }
{
    let files = BlockFiles::load(folder)?;
    mend(folder, files, &Scan::empty(alloc))
}

// Opens a folder whose index is initialized.
fn open_finished<F: Folder>(alloc: Global, folder: &mut F) -> Result<Opened, OpenFault>
    requires complete { ForSome (F.told folder.old).files HasWholeIndex }
    ensures opened { IfOk result (λ opened. FromEach (F.told folder.old) IsFinished (OpenedBy (F.told folder.new) opened)) }
    ensures checked { OnOk result (ForSome (F.told folder.old).files (λ from. IsFinished from → IsWellFormed from)) }
    ensures stops { ForSome (F.told folder.old).files (λ from. IsFinished from → OpensOrBreaksOff from (F.told folder.old) (F.told folder.new)) }
    ensures last { OnOk result (ForSome (F.told folder.old).files (λ from. IsFinished from → OpensFolder from (F.told folder.old) (F.told folder.new))) }
    ensures damaged { IfOpenDamaged result (IsOpeningDamage (F.told folder.new)) }
    ensures first { IfOpenDamaged result (λ damage. FromEach (F.told folder.old) IsFinished (λ from. first_damage from ≡ Some (damage_of damage))) }
    ensures unwritten { FromEach (F.told folder.old) IsFinished (λ from. (IsWellFormed from → ⊥) → Stays (F.told folder.old) (F.told folder.new)) }
    ensures memory { IfOpenMemory result (Stays (F.told folder.old) (F.told folder.new)) }
    ensures writes { MayWrite F.told F.faults folder.old folder.new (IfOpenDevice result) }
{
    let files = BlockFiles::load(folder)?;
    open_loaded(alloc, folder, files)
}

// Opens a folder whose block files were loaded.
fn open_loaded<F: Folder>(
    alloc: Global,
    folder: &mut F,
    files: BlockFiles,
) -> Result<Opened, OpenFault>
    requires is_open { ForSome (F.told folder.old).files (IsOpen files) }
    ensures opened { IfOk result (λ opened. FromEach (F.told folder.old) IsWellFormed (OpenedBy (F.told folder.new) opened)) }
    ensures stops { FromEach (F.told folder.old) IsWellFormed (MendingBy (F.told folder.old) (F.told folder.new)) }
    ensures last { OnOk result (FromEach (F.told folder.old) IsWellFormed (MendedBy (F.told folder.old) (F.told folder.new))) }
    ensures damaged { IfOpenDamaged result (IsOpeningDamage (F.told folder.new)) }
    ensures untold { ForSome (F.told folder.old).files IsWellFormed → IfOpenDamaged result (λ _. (F.told folder.old).files ≡ None) }
    ensures memory { IfOpenMemory result (Stays (F.told folder.old) (F.told folder.new)) }
    ensures writes { MayWrite F.told F.faults folder.old folder.new (IfOpenDevice result) }
{
    let scan = scan_files(alloc, folder, &files)?;
    Ok(mend(folder, files, &scan)?)
}

// Recovers a folder by its scan, and reads the session's number.
fn mend<F: Folder>(folder: &mut F, files: BlockFiles, scan: &Scan) -> Result<Opened, Fault>
    requires stand { StandAmong files scan.now }
    requires is_open { ForSome (F.told folder.old).files (IsOpen files) }
    ensures opened { IfOk result (λ opened. FromEach (F.told folder.old) (IsRepairable scan.now) (OpenedBy (F.told folder.new) opened)) }
    ensures made { OnOk result (FromEach (F.told folder.old) (IsRepairable scan.now) (MadeByWords scan.now (F.told folder.new))) }
    ensures stops { FromEach (F.told folder.old) (IsRepairable scan.now) (MendingBy (F.told folder.old) (F.told folder.new)) }
    ensures last { OnOk result (FromEach (F.told folder.old) (IsRepairable scan.now) (MendedBy (F.told folder.old) (F.told folder.new))) }
    ensures damaged { IfDamaged result (IsOpeningDamage (F.told folder.new)) }
    ensures untold { UndamagedWhere result (F.told folder.old) (IsRepairable scan.now) }
    ensures writes { MayWrite F.told F.faults folder.old folder.new (IfDevice result) }
{
    let mut files = files;
    repair(folder, &mut files, scan)?;
    let mark = word(folder, IndexHead::THIS_ID)?;
    Ok(Opened {
        files,
        items: scan.items(),
        bytes: scan.bytes(),
        mark,
    })
}
