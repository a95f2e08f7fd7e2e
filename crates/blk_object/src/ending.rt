// An object is ended when no handle names it any more.
ghost use Rattle.std.specs.Prelude.{◌≡◌, IsTrue, false, true};
ghost use Rattle.std.specs.Option.{ForSome};
ghost use Rattle.spec_image.specs.Told.{MayWrite};
ghost use Rattle.spec_format.specs.Sealed.{record_size};
ghost use Rattle.spec_folder.specs.View.{list_of};
ghost use Rattle.blk_io.specs.Faults.{IfDamaged, IfDevice, UndamagedWhere};
ghost use Rattle.blk_disk.specs.Damages.{IsFailedRecord};
ghost use Rattle.blk_disk.specs.Open.{IsOpen};
ghost use Rattle.blk_disk.specs.Tables.{is_node_among, is_record_among};
ghost use Rattle.blk_object.specs.Ending.{Cleans, FreesAll, HasFreeable, MayEndObject};
ghost use Rattle.blk_object.specs.FailedChecks.{IsFailedCheck};

use crate::marking::set_dirty_word;
use crate::owning::{free_owned, read_owned};
use blk_addr::Addr;
use blk_disk::BlockFiles;
use blk_handles::OpenObject;
use blk_io::{Fault, Folder};

/// Ends an object that no handle names any more: all that a doomed one has is freed, and of another the dirty flag becomes 0.
///
/// Of a doomed one a folder call reads its places, and each of at most six places takes seven at most. Of another that
/// was changed one call reads its node, and two make the word 0; of one that wasn't nothing is read or written.
pub fn end_object<F: Folder>(
    folder: &mut F,
    files: &BlockFiles,
    object: &OpenObject,
) -> Result<(), Fault>
    requires names { IsTrue (is_record_among files.now object.now.entry) }
    requires stands { IsTrue (is_node_among files.now object.now.node) }
    requires is_open { ForSome (F.told folder.old).files (IsOpen files.now) }
    ensures cleans { object.now.doomed ≡ false → Cleans files.now (F.told folder.old) (F.told folder.new) object.now result }
    ensures frees { object.now.doomed ≡ true → FreesAll (F.told folder.old) (F.told folder.new) object.now.entry result }
    ensures is_open { ForSome (F.told folder.new).files (IsOpen files.now) }
    ensures damaged { IfDamaged result (IsFailedCheck files.now (F.told folder.new)) }
    ensures untold { UndamagedWhere result (F.told folder.old) (MayEndObject object.now.doomed object.now.entry object.now.node) }
    ensures writes { MayWrite F.told F.faults folder.old folder.new (IfDevice result) }
{
    if object.doomed {
        free_entry(folder, files, object.entry)
    } else {
        clean(folder, files, object)
    }
}

// Frees all places of the entry with a record.
fn free_entry<F: Folder>(folder: &mut F, files: &BlockFiles, entry: Addr) -> Result<(), Fault>
    requires names { IsTrue (is_record_among files.now entry) }
    requires is_open { ForSome (F.told folder.old).files (IsOpen files.now) }
    ensures frees { FreesAll (F.told folder.old) (F.told folder.new) entry result }
    ensures is_open { ForSome (F.told folder.new).files (IsOpen files.now) }
    ensures damaged { IfDamaged result (IsFailedCheck files.now (F.told folder.new)) }
    ensures untold { UndamagedWhere result (F.told folder.old) (HasFreeable entry) }
    ensures writes { MayWrite F.told F.faults folder.old folder.new (IfDevice result) }
{
    let owned = read_owned(folder, files, entry)?;
    free_owned(folder, files, &owned)
}

// Sets the dirty flag of an object to 0 where it isn't 0.
fn clean<F: Folder>(folder: &mut F, files: &BlockFiles, object: &OpenObject) -> Result<(), Fault>
    requires stands { IsTrue (is_node_among files.now object.now.node) }
    requires is_open { ForSome (F.told folder.old).files (IsOpen files.now) }
    ensures cleans { Cleans files.now (F.told folder.old) (F.told folder.new) object.now result }
    ensures is_open { ForSome (F.told folder.new).files (IsOpen files.now) }
    ensures damaged { IfDamaged result (IsFailedRecord (F.told folder.old) object.now.node (record_size object.now.node)) }
    ensures cause { IfDamaged result (IsFailedCheck files.now (F.told folder.new)) }
    ensures untold { UndamagedWhere result (F.told folder.old) (λ image. (list_of image).checks object.now.node ≡ true) }
    ensures writes { MayWrite F.told F.faults folder.old folder.new (IfDevice result) }
{
    if object.dirty {
        set_dirty_word(folder, files, object.node, 0)
    } else {
        Ok(())
    }
}
