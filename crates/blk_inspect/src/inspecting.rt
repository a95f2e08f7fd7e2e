// A folder is inspected and verified.
ghost use Rattle.std.specs.Prelude.{◌≡◌};
ghost use Rattle.blk_io.specs.Streams.{GoesOn};
ghost use Rattle.std.specs.Option.{ForSome};
ghost use Rattle.spec_image.specs.Told.{Rises, ReadsOnly};
ghost use Rattle.blk_inspect.specs.Inspecting.{AnswersFor, IfInspectDamaged, IfInspectDevice, IfInspectSink, IsInspectDamage, PrintsAt, UnlessSink};
ghost use Rattle.blk_inspect.specs.Texts.{inspect_text, verify_text};

use crate::fault::InspectFault;
use crate::findings::print_findings;
use crate::reading::{Question, find};
use blk_io::{Folder, Sink};
use std::alloc::Global;

/// A part of a folder.
#[derive(Clone, Copy, Debug, PartialEq, Eq)]
pub enum Part {
    /// The header of the index.
    Index,
    /// The header of the block file of a number.
    File(u8),
    /// What an address word names.
    Address(u32),
    /// The nodes of the LRU list, from its front on.
    List,
    /// The records of the chain of a bucket.
    Chain(u16),
    /// The entry record that an address word names.
    Entry(u32),
}

/// Prints a part of a folder. Nothing is written to the folder.
///
/// The headers are checked first. Of an uninitialized folder `unfinished` is printed, alone. The LRU list is the one that the redo of
/// its operation in flight would leave. Everything is read before anything is printed.
///
/// # Errors
///
/// `Damaged` with the first check of the headers that fails; an observable folder reports no other failed check. `Device` where
/// the folder failed in this call, `Sink` where the output did, and `Memory` when out of memory.
pub fn inspect<F: Folder, K: Sink>(
    alloc: Global,
    f: &mut F,
    out: &mut K,
    part: &Part,
) -> Result<(), InspectFault>
    // Exactly this text of the folder is printed, or a prefix of it where the output failed.
    ensures printed { ForSome (F.told f.old).files (λ image. PrintsAt result (inspect_text part.now image) (K.written out.old) (K.written out.new)) }

    // The folder decides the answer, but for failures and out of memory.
    ensures answer { ForSome (F.told f.old).files (AnswersFor result) }

    // When out of memory, and where the folder fails or is corrupt, nothing is printed.
    ensures unprinted { UnlessSink result (K.written out.new ≡ K.written out.old) }

    ensures reads { ReadsOnly F.told F.faults f.old f.new (IfInspectDevice result) }

    // The cause of a failed check, which holds for an opaque folder too.
    ensures cause { IfInspectDamaged result (IsInspectDamage (F.told f.old)) }

    ensures sink_later { GoesOn K.is K.faults out.old out.new }
    ensures sink { IfInspectSink result (Rises (K.faults out.old) (K.faults out.new)) }
{
    let findings = find(alloc, f, &Question::OfPart(*part))?;
    print_findings(out, &findings)?;
    Ok(())
}

/// Prints what a folder holds: how many nodes are kept, each node that is dropped, in the order of the LRU list, and then each record
/// that no walked node names, bucket after bucket and each chain in its order, with the first reason that holds; and, at the end, the items
/// and bytes of what is kept. Nothing is written to the folder.
///
/// The headers are checked first. Of an uninitialized folder `unfinished` is printed, alone. The LRU list is the one that the redo of
/// its operation in flight would leave. Everything is read before anything is printed.
///
/// # Errors
///
/// Those of [`inspect`].
pub fn verify<F: Folder, K: Sink>(alloc: Global, f: &mut F, out: &mut K) -> Result<(), InspectFault>
    // Exactly this text of the folder is printed, or a prefix of it where the output failed.
    ensures printed { ForSome (F.told f.old).files (λ image. PrintsAt result (verify_text image) (K.written out.old) (K.written out.new)) }

    // The folder decides the answer, but for failures and out of memory.
    ensures answer { ForSome (F.told f.old).files (AnswersFor result) }

    // When out of memory, and where the folder fails or is corrupt, nothing is printed.
    ensures unprinted { UnlessSink result (K.written out.new ≡ K.written out.old) }

    ensures reads { ReadsOnly F.told F.faults f.old f.new (IfInspectDevice result) }

    // The cause of a failed check, which holds for an opaque folder too.
    ensures cause { IfInspectDamaged result (IsInspectDamage (F.told f.old)) }

    ensures sink_later { GoesOn K.is K.faults out.old out.new }
    ensures sink { IfInspectSink result (Rises (K.faults out.old) (K.faults out.new)) }
{
    let findings = find(alloc, f, &Question::Verdict)?;
    print_findings(out, &findings)?;
    Ok(())
}
