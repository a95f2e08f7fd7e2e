// Records that are taken out of a chain.
ghost use Rattle.std.specs.Prelude.{◌≡◌, ◌≤◌, IfSome, IsTrue, None, OnOk, Some};
ghost use Rattle.std.specs.Option.{ForSome};
ghost use Rattle.spec_image.specs.Told.{MakesPartOf, Rises, Stays, MakesSteps};
ghost use Rattle.spec_format.specs.Address.{blocks_256, kind_of};
ghost use Rattle.blk_io.specs.Faults.{IfDamaged, IfDevice};
ghost use Rattle.spec_format.specs.Sealed.{RecordChecks};
ghost use Rattle.blk_disk.specs.Tables.{stands_among};
ghost use Rattle.blk_chain.specs.ChainClauses.{CommitsUnlink, UnlinkEndsIn, WhereUnlinkable};
ghost use Rattle.blk_chain.specs.Mapping.{LosesOne};
ghost use Rattle.blk_chain.specs.Unlinking.{BeforeChecks, IsSealedAgain, IsUnlinkDamage, IsUnlinked, unlink_steps};
ghost use Rattle.blk_disk.specs.Open.{IsOpen};

use crate::found::Found;
use blk_addr::Addr;
use blk_disk::BlockFiles;
use blk_entry::field;
use blk_index::set_bucket;
use blk_io::{Fault, Folder};
use blk_record::{EntryView, IndexHead};

// Unlinks the record that comes after `before`: the next of `before` becomes that of the record.
fn unlink_behind<F: Folder>(
    folder: &mut F,
    files: &BlockFiles,
    entry: Addr,
    before: Addr,
) -> Result<(), Fault>
    requires kind { kind_of entry ≡ blocks_256 }
    requires stands { IsTrue (stands_among files.now entry) }
    requires kind_before { kind_of before ≡ blocks_256 }
    requires stands_before { IsTrue (stands_among files.now before) }
    requires is_open { ForSome (F.told folder.old).files (IsOpen files.now) }
    ensures unlinked { OnOk result (WhereUnlinkable (F.told folder.old) entry (Some before) (UnlinkEndsIn (F.told folder.new) IsUnlinked)) }
    ensures sealed { OnOk result (ForSome (F.told folder.old).files (λ from. ForSome (F.told folder.new).files (IsSealedAgain from entry (Some before)))) }
    ensures checked { OnOk result (ForSome (F.told folder.old).files (RecordChecks before)) }
    ensures is_open { ForSome (F.told folder.new).files (IsOpen files.now) }
    ensures steps { OnOk result (MakesSteps (F.told folder.old) (F.told folder.new) (λ from. unlink_steps from entry (Some before))) }
    ensures prefix { MakesPartOf (F.told folder.old) (F.told folder.new) (λ from. unlink_steps from entry (Some before)) }
    ensures commits { WhereUnlinkable (F.told folder.old) entry (Some before) (CommitsUnlink (F.told folder.old) (F.told folder.new)) }
    ensures damaged { IfDamaged result (IsUnlinkDamage (F.told folder.old) entry (Some before)) }
    ensures unwritten { IfDamaged result (λ _. Stays (F.told folder.old) (F.told folder.new)) }
    ensures untold { ForSome (F.told folder.old).files (RecordChecks before) → IfDamaged result (λ _. (F.told folder.old).files ≡ None) }
    ensures later { F.faults folder.old ≤ F.faults folder.new }
    ensures device { IfDevice result (Rises (F.faults folder.old) (F.faults folder.new)) }
{
    let next = field(folder, files, entry, EntryView::NEXT)?;
    files.update_sealed(folder, before, &[(EntryView::NEXT, next)])
}

// Unlinks the first record of a chain: the word of its bucket becomes its next.
fn unlink_first<F: Folder>(folder: &mut F, files: &BlockFiles, entry: Addr) -> Result<(), Fault>
    requires kind { kind_of entry ≡ blocks_256 }
    requires stands { IsTrue (stands_among files.now entry) }
    requires is_open { ForSome (F.told folder.old).files (IsOpen files.now) }
    ensures unlinked { OnOk result (WhereUnlinkable (F.told folder.old) entry None (UnlinkEndsIn (F.told folder.new) IsUnlinked)) }
    ensures is_open { ForSome (F.told folder.new).files (IsOpen files.now) }
    ensures steps { OnOk result (MakesSteps (F.told folder.old) (F.told folder.new) (λ from. unlink_steps from entry None)) }
    ensures prefix { MakesPartOf (F.told folder.old) (F.told folder.new) (λ from. unlink_steps from entry None) }
    ensures commits { WhereUnlinkable (F.told folder.old) entry None (CommitsUnlink (F.told folder.old) (F.told folder.new)) }
    ensures damaged { IfDamaged result (IsUnlinkDamage (F.told folder.old) entry None) }
    ensures unwritten { IfDamaged result (λ _. Stays (F.told folder.old) (F.told folder.new)) }
    ensures untold { IfDamaged result (λ _. (F.told folder.old).files ≡ None) }
    ensures later { F.faults folder.old ≤ F.faults folder.new }
    ensures device { IfDevice result (Rises (F.faults folder.old) (F.faults folder.new)) }
{
    let next = field(folder, files, entry, EntryView::NEXT)?;
    let hash = field(folder, files, entry, EntryView::HASH)?;
    set_bucket(folder, (hash % IndexHead::BUCKETS) as u16, next)?;
    Ok(())
}

/// Takes a record out of its chain: what named it, the word of its bucket or the next of the record
/// before it, takes its next.
///
/// One folder call reads the next. At the head of a chain one reads the hash and one writes the word; else the record before is read and changed by
/// `update_sealed`. Too few bytes, or a wrong checksum of the record before, are corruption, and nothing is written.
pub fn unlink<F: Folder>(f: &mut F, files: &BlockFiles, found: &Found) -> Result<(), Fault>
    requires kind { kind_of found.now.entry ≡ blocks_256 }
    requires stands { IsTrue (stands_among files.now found.now.entry) }
    requires kind_before { IfSome found.now.before (λ before. kind_of before ≡ blocks_256) }
    requires stands_before { IfSome found.now.before (λ before. IsTrue (stands_among files.now before)) }
    requires is_open { ForSome (F.told f.old).files (IsOpen files.now) }

    // A record of a whole chain is unlinked, and the chains, a map from keys and child flags to records, have one record less.
    ensures unlinked { OnOk result (WhereUnlinkable (F.told f.old) found.now.entry found.now.before (UnlinkEndsIn (F.told f.new) IsUnlinked)) }
    ensures loses { OnOk result (WhereUnlinkable (F.told f.old) found.now.entry found.now.before (UnlinkEndsIn (F.told f.new) LosesOne)) }

    // The checksum of a record before matched or was absent; that record is the old one with that next, and with its new checksum.
    ensures checked { OnOk result (ForSome (F.told f.old).files (BeforeChecks found.now.before)) }
    ensures sealed { OnOk result (ForSome (F.told f.old).files (λ from. ForSome (F.told f.new).files (IsSealedAgain from found.now.entry found.now.before))) }
    ensures is_open { ForSome (F.told f.new).files (IsOpen files.now) }
    ensures steps { OnOk result (MakesSteps (F.told f.old) (F.told f.new) (λ from. unlink_steps from found.now.entry found.now.before)) }
    ensures prefix { MakesPartOf (F.told f.old) (F.told f.new) (λ from. unlink_steps from found.now.entry found.now.before) }

    // Until that one word is written the chains are the old ones, and from then on the record is unlinked; the checksum of each record matches or is absent, as
    // before.
    ensures commits { WhereUnlinkable (F.told f.old) found.now.entry found.now.before (CommitsUnlink (F.told f.old) (F.told f.new)) }

    // A failed check is a short read or a wrong checksum of the record before, and nothing was written. An observable folder reports one only for such a
    // record.
    ensures damaged { IfDamaged result (IsUnlinkDamage (F.told f.old) found.now.entry found.now.before) }
    ensures unwritten { IfDamaged result (λ _. Stays (F.told f.old) (F.told f.new)) }
    ensures untold { ForSome (F.told f.old).files (BeforeChecks found.now.before) → IfDamaged result (λ _. (F.told f.old).files ≡ None) }

    // An opaque folder stays opaque.

    ensures later { F.faults f.old ≤ F.faults f.new }
    ensures device { IfDevice result (Rises (F.faults f.old) (F.faults f.new)) }
{
    match found.before {
        None => unlink_first(f, files, found.entry),
        Some(before) => unlink_behind(f, files, found.entry, before),
    }
}
