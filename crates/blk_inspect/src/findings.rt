// What was read of a folder is printed.
ghost use Rattle.std.specs.Prelude.{◌≡◌, ◌++◌, OnOk, OnErr};
ghost use Rattle.std.specs.Option.{option_map};
ghost use Rattle.spec_image.specs.Told.{Rises};
ghost use Rattle.blk_io.specs.Streams.{Appends, GoesOn};
ghost use Rattle.blk_inspect.specs.Findings.{findings_text};
ghost use Rattle.blk_inspect.specs.Texts.{place_line};

use crate::rows::{NamedWord, NodeRow, RecordRow, print_counted, print_rows};
use crate::verdict::print_verdict;
use blk_addr::{Addr, FileId};
use blk_io::{Failed, Sink};
use blk_scan::Scan;
use blk_script::Field::{Number, Word};
use blk_script::print_fields;

/// What was read of a folder, to be printed.
#[derive(Drop)]
pub(crate) enum Findings {
    // Its index is uninitialized.
    Unfinished,
    // What was asked for isn't there.
    Nothing,
    // The words of a header or of a record.
    Words(Vec<NamedWord>),
    // What an address names.
    Place(Addr),
    // The nodes of the LRU list.
    Nodes(Vec<NodeRow>),
    // The records of a chain.
    Records(Vec<RecordRow>),
    // What is held.
    Verdict(Scan),
}

/// Prints what was read, or a prefix of it where the output fails.
pub(crate) fn print_findings<K: Sink>(out: &mut K, findings: &Findings) -> Result<(), Failed>
    ensures steps { OnOk result (K.written out.new ≡ option_map (λ w. w ++ findings_text findings.now) (K.written out.old)) }
    ensures prefix { Appends (K.written out.old) (K.written out.new) (findings_text findings.now) }
    ensures later { GoesOn K.is K.faults out.old out.new }
    ensures failed { OnErr result (Rises (K.faults out.old) (K.faults out.new)) }
{
    match findings {
        Findings::Unfinished => print_fields(out, &[Word("unfinished")]),
        Findings::Nothing => print_fields(out, &[Word("none")]),
        Findings::Words(words) => print_rows(out, words),
        Findings::Place(addr) => print_place(out, *addr),
        Findings::Nodes(rows) => print_counted(out, rows),
        Findings::Records(rows) => print_counted(out, rows),
        Findings::Verdict(scan) => print_verdict(out, scan),
    }
}

// Prints what an address names.
fn print_place<K: Sink>(out: &mut K, addr: Addr) -> Result<(), Failed>
    ensures steps { OnOk result (K.written out.new ≡ option_map (λ w. w ++ place_line addr) (K.written out.old)) }
    ensures prefix { Appends (K.written out.old) (K.written out.new) (place_line addr) }
    ensures later { GoesOn K.is K.faults out.old out.new }
    ensures failed { OnErr result (Rises (K.faults out.old) (K.faults out.new)) }
{
    match addr.file() {
        FileId::Index => unreachable!(),
        FileId::External(number) => {
            print_fields(out, &[Word("external"), Number(u64::from(number))])
        }
        FileId::Block(file) => print_fields(
            out,
            &[
                Word("block"),
                Number(u64::from(addr.kind().number())),
                Number(u64::from(file)),
                Number(u64::from(addr.start())),
                Number(u64::from(addr.blocks())),
            ],
        ),
    }
}
