// The command Size.
ghost use Rattle.std.specs.Prelude.{◌≡◌, IfSome, Ok};
ghost use Rattle.spec_image.specs.Told.{ReadsOnly};
ghost use Rattle.blk_io.specs.Faults.{IfDamaged, IfDevice, UndamagedWhere};
ghost use Rattle.blk_model.specs.Request.{to_size};
ghost use Rattle.blk_model.specs.declared.Answer.TheVariants as answer;
ghost use Rattle.blk_object.specs.FailedChecks.{IsFailedCheck};
ghost use Rattle.blk_cache.specs.Asking.{IsAskDamage, early_stream_refusal};
ghost use Rattle.blk_cache.specs.CommandClauses.{DoneBy, KeepsAny, AtAnyMoment};

use crate::asking::Asked;
use crate::cache::Cache;
use blk_io::{Fault, Folder};
use blk_model::Answer;

impl Cache {
    /// The length in bytes of a stream of the object that a handle names, by one folder call. Nothing is written.
    ///
    /// It is refused with `BadHandle` where the name is free, or 4096 or more, `BadStream` where the number of the stream
    /// is 3 or more, and `SparseStream` where the object is sparse and the number isn't 0, the first of these.
    pub(crate) fn size<F: Folder>(
        &self,
        folder: &mut F,
        handle: u16,
        stream: u8,
    ) -> Result<Answer, Fault>
        ensures does { AtAnyMoment self.now (F.told folder.old) (to_size handle stream) (DoneBy self.now (F.told folder.new) result) }
        ensures reads { ReadsOnly F.told F.faults folder.old folder.new (IfDevice result) }

        // A refusal that the handles and the stream alone decide is given on every folder.
        ensures refuses { IfSome (early_stream_refusal self.now.handles handle stream) (λ why. result ≡ Ok (answer.Refused why)) }

        // An observable folder reports no corruption where the cache keeps a state.
        ensures damaged { IfDamaged result (IsAskDamage self.now.handles (F.told folder.old) handle) }
        ensures cause { IfDamaged result (IsFailedCheck self.now.files (F.told folder.new)) }
        ensures untold { UndamagedWhere result (F.told folder.old) (KeepsAny self.now) }
    {
        let asked = self.ask_stream(folder, handle, stream)?;
        match asked {
            Asked::Refused(why) => Ok(Answer::Refused(why)),
            Asked::Stream(named) => Ok(Answer::Size(u64::from(named.size))),
        }
    }
}
