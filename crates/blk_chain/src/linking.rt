// Records that are linked at the head of a chain.
ghost use Rattle.std.specs.Prelude.{◌≡◌, ◌≤◌, IsTrue, None, OnOk};
ghost use Rattle.std.specs.Option.{ForSome};
ghost use Rattle.spec_image.specs.Image.{Block as block, HasRange};
ghost use Rattle.spec_image.specs.Told.{LeavesWhere, MakesPartOf, Rises, Stays, MakesSteps};
ghost use Rattle.spec_format.specs.Address.{blocks_256, file_selector, kind_of, place};
ghost use Rattle.blk_io.specs.declared.folder.FileId.TheVariants as FileId;
ghost use Rattle.blk_io.specs.Faults.{IfDamaged, IfDevice, IsShort};
ghost use Rattle.blk_disk.specs.Tables.{stands_among};
ghost use Rattle.blk_chain.specs.ChainClauses.{CommitsLink};
ghost use Rattle.blk_chain.specs.Linking.{CanBeLinked, IsLinkedInFront, link_front_steps};
ghost use Rattle.blk_chain.specs.Mapping.{GainsOne};
ghost use Rattle.blk_disk.specs.Open.{IsOpen};

use blk_addr::Addr;
use blk_disk::BlockFiles;
use blk_entry::field;
use blk_index::set_bucket;
use blk_io::{Fault, Folder};
use blk_record::{EntryView, IndexHead};

/// Links a record at the head of the chain of its bucket: the word of the bucket names it from then on.
///
/// The record is complete, and its next is the word of the bucket. One folder call reads its hash, and one writes the
/// word. Too few bytes are corruption, and nothing is written.
pub fn link_front<F: Folder>(f: &mut F, files: &BlockFiles, entry: Addr) -> Result<(), Fault>
    requires kind { kind_of entry ≡ blocks_256 }
    requires stands { IsTrue (stands_among files.now entry) }
    requires is_open { ForSome (F.told f.old).files (IsOpen files.now) }

    // A record that can be linked is linked, and the chains, a map from keys and child flags to records, have one record more.
    ensures linked { OnOk result (LeavesWhere (F.told f.old) (F.told f.new) (CanBeLinked entry) (λ from. IsLinkedInFront from entry)) }
    ensures gains { OnOk result (LeavesWhere (F.told f.old) (F.told f.new) (CanBeLinked entry) (λ from. GainsOne from entry)) }
    ensures checked { OnOk result (ForSome (F.told f.old).files (λ image. HasRange image (block (file_selector entry)) (place entry) 4)) }
    ensures is_open { ForSome (F.told f.new).files (IsOpen files.now) }
    ensures steps { OnOk result (MakesSteps (F.told f.old) (F.told f.new) (λ from. link_front_steps from entry)) }
    ensures prefix { MakesPartOf (F.told f.old) (F.told f.new) (λ from. link_front_steps from entry) }

    // Until the word of the bucket is written all is as before, and from then on the record is linked and nothing else has changed.
    ensures commits { ForSome (F.told f.old).files (λ from. CanBeLinked entry from → CommitsLink (F.told f.old) (F.told f.new) entry from) }

    // A failed check is too few bytes, which an observable folder never gives, and nothing was written.
    ensures short { IfDamaged result (IsShort (F.told f.old) (FileId.Block (file_selector entry)) (place entry) 4) }
    ensures unwritten { IfDamaged result (λ _. Stays (F.told f.old) (F.told f.new)) }
    ensures untold { IfDamaged result (λ _. (F.told f.old).files ≡ None) }

    // An opaque folder stays opaque.

    ensures later { F.faults f.old ≤ F.faults f.new }
    ensures device { IfDevice result (Rises (F.faults f.old) (F.faults f.new)) }
{
    let hash = field(f, files, entry, EntryView::HASH)?;
    set_bucket(f, (hash % IndexHead::BUCKETS) as u16, entry.word())?;
    Ok(())
}
