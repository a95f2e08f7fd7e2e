// What a folder holds is printed.
ghost use Rattle.std.specs.Prelude.{◌≡◌, ◌++◌, OnOk, OnErr, length};
ghost use Rattle.std.specs.List.{flat_map};
ghost use Rattle.std.specs.Option.{option_map};
ghost use Rattle.spec_image.specs.Told.{Rises};
ghost use Rattle.blk_io.specs.Streams.{Appends, GoesOn};
ghost use Rattle.spec_run.specs.Script.{totals_line};
ghost use Rattle.blk_verdict.specs.Reasons.{reason_of};
ghost use Rattle.blk_inspect.specs.Findings.{dropped_line_told, scan_text};
ghost use Rattle.blk_inspect.specs.Texts.{kept_line, name_of_reason, reason_line};

use crate::rows::bytes_of;
use blk_io::{Failed, Sink};
use blk_scan::{Dropped, Scan};
use blk_script::Field::{Data, Number, Word};
use blk_script::print_fields;
use blk_verdict::Reason;

/// Prints how many nodes are kept, each node and record that is dropped with its reason, and the items and bytes of what
/// is kept; or a prefix of these lines where the output fails.
pub(crate) fn print_verdict<K: Sink>(out: &mut K, scan: &Scan) -> Result<(), Failed>
    ensures steps { OnOk result (K.written out.new ≡ option_map (λ w. w ++ scan_text scan.now) (K.written out.old)) }
    ensures prefix { Appends (K.written out.old) (K.written out.new) (scan_text scan.now) }
    ensures later { GoesOn K.is K.faults out.old out.new }
    ensures failed { OnErr result (Rises (K.faults out.old) (K.faults out.new)) }
{
    print_kept(out, scan)?;
    print_all_dropped(out, scan)?;
    print_totals(out, scan.items(), scan.bytes())
}

// Prints how many nodes are kept.
fn print_kept<K: Sink>(out: &mut K, scan: &Scan) -> Result<(), Failed>
    ensures steps { OnOk result (K.written out.new ≡ option_map (λ w. w ++ kept_line (length scan.now.kept.items)) (K.written out.old)) }
    ensures prefix { Appends (K.written out.old) (K.written out.new) (kept_line (length scan.now.kept.items)) }
    ensures later { GoesOn K.is K.faults out.old out.new }
    ensures failed { OnErr result (Rises (K.faults out.old) (K.faults out.new)) }
{
    print_fields(out, &[Word("kept"), Number(scan.items())])
}

// Prints the items and bytes of what is kept.
fn print_totals<K: Sink>(out: &mut K, items: u64, bytes: u64) -> Result<(), Failed>
    ensures steps { OnOk result (K.written out.new ≡ option_map (λ w. w ++ totals_line items bytes) (K.written out.old)) }
    ensures prefix { Appends (K.written out.old) (K.written out.new) (totals_line items bytes) }
    ensures later { GoesOn K.is K.faults out.old out.new }
    ensures failed { OnErr result (Rises (K.faults out.old) (K.faults out.new)) }
{
    print_fields(
        out,
        &[Word("items"), Number(items), Word("bytes"), Number(bytes)],
    )
}

// Prints what is dropped, a line each.
fn print_all_dropped<K: Sink>(out: &mut K, scan: &Scan) -> Result<(), Failed>
    ensures steps { OnOk result (K.written out.new ≡ option_map (λ w. w ++ flat_map dropped_line_told scan.now.dropped.items) (K.written out.old)) }
    ensures prefix { Appends (K.written out.old) (K.written out.new) (flat_map dropped_line_told scan.now.dropped.items) }
    ensures later { GoesOn K.is K.faults out.old out.new }
    ensures failed { OnErr result (Rises (K.faults out.old) (K.faults out.new)) }
{
    let mut next = 0;
    while let Some(one) = scan.dropped_at(next) {
        print_dropped(out, &one)?;
        next += 1;
    }
    Ok(())
}

// Prints a node or a record that is dropped.
fn print_dropped<K: Sink>(out: &mut K, one: &Dropped) -> Result<(), Failed>
    ensures steps { OnOk result (K.written out.new ≡ option_map (λ w. w ++ dropped_line_told one.now) (K.written out.old)) }
    ensures prefix { Appends (K.written out.old) (K.written out.new) (dropped_line_told one.now) }
    ensures later { GoesOn K.is K.faults out.old out.new }
    ensures failed { OnErr result (Rises (K.faults out.old) (K.faults out.new)) }
{
    let place = bytes_of(one.place.word());
    print_why(out, &place, one.reason.number(), name_of(one.reason))
}

// Prints the bytes of a word that is dropped, and the number and the name of its reason.
fn print_why<'a, K: Sink>(
    out: &mut K,
    place: &'a [u8],
    number: u32,
    name: &'a str,
) -> Result<(), Failed>
    ensures steps { OnOk result (K.written out.new ≡ option_map (λ w. w ++ reason_line place.now number name.now) (K.written out.old)) }
    ensures prefix { Appends (K.written out.old) (K.written out.new) (reason_line place.now number name.now) }
    ensures later { GoesOn K.is K.faults out.old out.new }
    ensures failed { OnErr result (Rises (K.faults out.old) (K.faults out.new)) }
{
    print_fields(
        out,
        &[
            Word("dropped"),
            Data(place),
            Number(u64::from(number)),
            Word(name),
        ],
    )
}

// The name of a reason.
fn name_of(reason: Reason) -> &'static str
    ensures { result.now ≡ name_of_reason (reason_of reason) }
{
    match reason {
        Reason::Contents => "Contents",
        Reason::Seal => "Seal",
        Reason::State => "State",
        Reason::Back => "Back",
        Reason::Flags => "Flags",
        Reason::Dirty => "Dirty",
        Reason::KeyLength => "KeyLength",
        Reason::KeyPlace => "KeyPlace",
        Reason::Hash => "Hash",
        Reason::Chain => "Chain",
        Reason::Streams => "Streams",
        Reason::Sparse => "Sparse",
        Reason::Claimed => "Claimed",
        Reason::Name => "Name",
        Reason::Parent => "Parent",
        Reason::Unlisted => "Unlisted",
    }
}
