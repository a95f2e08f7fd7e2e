// The stream of an open object that a request names by a handle.
ghost use Rattle.std.specs.Prelude.{◌≡◌, IfOk, IfSome, Ok};
ghost use Rattle.spec_image.specs.Told.{ReadsOnly};
ghost use Rattle.blk_io.specs.Faults.{IfDamaged, IfDevice, UndamagedWhere};
ghost use Rattle.blk_object.specs.FailedChecks.{IsFailedCheck};
ghost use Rattle.blk_cache.specs.Asking.{IsAskDamage, IsAsked, StandsAmong, early_stream_refusal, keeps_stream};
ghost use Rattle.blk_cache.specs.declared.asking.Asked.TheVariants as asked;
ghost use Rattle.blk_cache.specs.CommandClauses.{ForLayout, KeepsAny};

use crate::cache::Cache;
use blk_addr::Addr;
use blk_entry::read_head;
use blk_io::{Fault, Folder};
use blk_model::Refusal;

/// How many streams an object has.
pub(crate) const STREAMS: u8 = 3;

// The flags of the record of a sparse object.
const SPARSE: u32 = 1;

/// A stream of an open object: the object's record and node, whether it is doomed, and the bytes of the stream.
#[derive(Clone, Copy)]
pub(crate) struct NamedStream {
    pub(crate) entry: Addr,
    pub(crate) node: Addr,
    pub(crate) doomed: bool,
    pub(crate) size: u32,
}

/// The stream that a request names, or why there is none.
#[derive(Clone, Copy)]
pub(crate) enum Asked {
    Refused(Refusal),
    Stream(NamedStream),
}

impl Cache {
    /// The stream with a number of the object that a handle names, by one folder call. Nothing is written.
    ///
    /// It is refused with `BadHandle` where the name is free, or 4096 or more, `BadStream` where the number is 3 or more,
    /// and `SparseStream` where the object is sparse and the number isn't 0, the first of these; the first two are
    /// decided before any folder call. A failed check is one of the object's record.
    pub(crate) fn ask_stream<F: Folder>(
        &self,
        folder: &mut F,
        handle: u16,
        stream: u8,
    ) -> Result<Asked, Fault>
        ensures asked { IfOk result (λ answer. ForLayout self.now (F.told folder.old) (λ state layout. IsAsked state layout handle stream answer)) }
        ensures early { IfSome (early_stream_refusal self.now.handles handle stream) (λ why. result ≡ Ok (asked.Refused why)) }
        ensures stands { IfOk result (StandsAmong self.now.files stream) }
        ensures reads { ReadsOnly F.told F.faults folder.old folder.new (IfDevice result) }
        ensures damaged { IfDamaged result (IsAskDamage self.now.handles (F.told folder.old) handle) }
        ensures cause { IfDamaged result (IsFailedCheck self.now.files (F.told folder.new)) }
        ensures untold { UndamagedWhere result (F.told folder.old) (KeepsAny self.now) }
    {
        if let Some(why) = self.refuses_stream(handle, stream) {
            return Ok(Asked::Refused(why));
        }
        let Some(object) = self.handles.object(handle) else {
            unreachable!();
        };
        let head = read_head(folder, &self.files, object.entry)?;
        if keeps_stream(head.flags, stream) {
            return Ok(Asked::Refused(Refusal::SparseStream));
        }
        Ok(Asked::Stream(NamedStream {
            entry: object.entry,
            node: object.node,
            doomed: object.doomed,
            size: head.sizes[usize::from(stream)],
        }))
    }

    /// Why there is no stream, as far as the names and its number decide.
    pub(crate) fn refuses_stream(&self, handle: u16, stream: u8) -> Option<Refusal>
        ensures { result ≡ early_stream_refusal self.now.handles handle stream }
    {
        if self.handles.object(handle).is_none() {
            Some(Refusal::BadHandle)
        } else if stream >= STREAMS {
            Some(Refusal::BadStream)
        } else {
            None
        }
    }
}

// Whether a record with these flags keeps a stream to itself: that of a sparse entry keeps all but stream 0.
fn keeps_stream(flags: u32, stream: u8) -> bool
    ensures { result ≡ keeps_stream flags stream }
{
    flags == SPARSE && stream > 0
}
