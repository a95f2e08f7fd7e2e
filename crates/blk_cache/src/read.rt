// The command Read.
ghost use Rattle.std.specs.Prelude.{◌≡◌, IfOk, IfSome, IsTrue, Ok, false};
ghost use Rattle.std.specs.Option.{ForSome};
ghost use Rattle.spec_image.specs.Told.{Stays, MayWrite};
ghost use Rattle.blk_io.specs.Faults.{IfDamaged, IfDevice, UndamagedWhere};
ghost use Rattle.blk_model.specs.Request.{to_read};
ghost use Rattle.blk_model.specs.declared.Answer.TheVariants as answer;
ghost use Rattle.blk_disk.specs.Open.{IsOpen};
ghost use Rattle.blk_disk.specs.Tables.{is_node_among};
ghost use Rattle.blk_lru.specs.Damages.{IsTouchDamage};
ghost use Rattle.blk_lru.specs.Lists.{IsListed};
ghost use Rattle.blk_object.specs.FailedChecks.{IsFailedCheck};
ghost use Rattle.blk_cache.specs.Asking.{early_stream_refusal};
ghost use Rattle.blk_cache.specs.CommandClauses.{DoneBy, ForCall, IsRefused, KeepsAny, SparedBy, StopsBy};
ghost use Rattle.blk_cache.specs.Reading.{IsCommandReadDamage, UsesItem, bytes_there};

use crate::asking::{Asked, NamedStream};
use crate::cache::Cache;
use blk_disk::BlockFiles;
use blk_io::{Fault, Folder};
use blk_lru::touch;
use blk_model::Answer;

impl Cache {
    /// Does all of a Read that writes: the item of its object, where that isn't doomed, is put in front of the LRU list.
    /// The answer is the number of bytes to be printed: those from `offset` on, at most `count`.
    ///
    /// It is refused with `BadHandle` where the name is free, or 4096 or more, `BadStream` where the number of the stream
    /// is 3 or more, and `SparseStream` where the object is sparse and the number isn't 0, the first of these. One folder
    /// call reads the record, and at most 36 access the item.
    pub(crate) fn use_read<F: Folder>(
        &self,
        folder: &mut F,
        handle: u16,
        stream: u8,
        offset: u64,
        count: u64,
        moment: u64,
    ) -> Result<Answer, Fault>
        requires is_open { ForSome (F.told folder.old).files (IsOpen self.now.files) }
        ensures does { ForCall self.now (F.told folder.old) moment (to_read handle stream offset count) (DoneBy self.now (F.told folder.new) result) }
        ensures stops { ForCall self.now (F.told folder.old) moment (to_read handle stream offset count) (StopsBy (F.told folder.new)) }

        // A refusal that the handles and the stream alone decide is given on every folder, and a refusal does nothing.
        ensures refuses { IfSome (early_stream_refusal self.now.handles handle stream) (λ why. result ≡ Ok (answer.Refused why)) }
        ensures quiet { IfOk result (λ answer. IsRefused answer → Stays (F.told folder.old) (F.told folder.new)) }

        ensures spares { ForCall self.now (F.told folder.old) moment (to_read handle stream offset count) (SparedBy (F.told folder.new) result) }
        ensures is_open { ForSome (F.told folder.new).files (IsOpen self.now.files) }

        // An observable folder reports no corruption where the cache keeps a state.
        ensures damaged { IfDamaged result (IsCommandReadDamage self.now.handles self.now.files (F.told folder.old) (F.told folder.new) handle) }
        ensures cause { IfDamaged result (IsFailedCheck self.now.files (F.told folder.new)) }
        ensures untold { UndamagedWhere result (F.told folder.old) (KeepsAny self.now) }
        ensures writes { MayWrite F.told F.faults folder.old folder.new (IfDevice result) }
    {
        let asked = self.ask_stream(folder, handle, stream)?;
        match asked {
            Asked::Refused(why) => Ok(Answer::Refused(why)),
            Asked::Stream(named) => {
                use_item(folder, &self.files, &named, moment)?;
                Ok(Answer::Bytes(bytes_there(named.size, offset, count)))
            }
        }
    }
}

// Puts the item of a live object in front of the LRU list; a doomed one has none.
fn use_item<F: Folder>(
    folder: &mut F,
    files: &BlockFiles,
    object: &NamedStream,
    moment: u64,
) -> Result<(), Fault>
    requires stands { IsTrue (is_node_among files.now object.now.node) }
    requires is_open { ForSome (F.told folder.old).files (IsOpen files.now) }
    ensures uses { UsesItem files.now (F.told folder.old) (F.told folder.new) object.now moment result }
    ensures is_open { ForSome (F.told folder.new).files (IsOpen files.now) }
    ensures damaged { IfDamaged result (IsTouchDamage object.now.node files.now (F.told folder.old) (F.told folder.new)) }
    ensures untold { UndamagedWhere result (F.told folder.old) (λ image. object.now.doomed ≡ false → IsListed object.now.node image) }
    ensures writes { MayWrite F.told F.faults folder.old folder.new (IfDevice result) }
{
    if object.doomed {
        Ok(())
    } else {
        touch(folder, files, object.node, moment)
    }
}

// How many bytes of a stream of so many there are from an offset on, at most `count`.
fn bytes_there(size: u32, offset: u64, count: u64) -> u64
    ensures { result ≡ bytes_there size offset count }
{
    u64::from(size).saturating_sub(offset).min(count)
}
