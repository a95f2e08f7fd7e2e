// The rows of the items of a folder, one for each, are printed.
ghost use Rattle.std.specs.Prelude.{◌≡◌, ◌≤◌, IsTrue, None, OnErr, OnOk, length};
ghost use Rattle.std.specs.Option.{ForSome};
ghost use Rattle.spec_image.specs.Told.{ReadsOnly};
ghost use Rattle.blk_io.specs.Faults.{IfDamaged, IfDevice, UndamagedWhere};
ghost use Rattle.blk_io.specs.Streams.{GoesOn};
ghost use Rattle.spec_format.specs.Address.{blocks_256, kind_of};
ghost use Rattle.spec_folder.specs.Loads.{Loaded};
ghost use Rattle.blk_disk.specs.Tables.{Agrees, is_node_among};
ghost use Rattle.blk_entry.specs.Keys.{IsWordOf, most_key};
ghost use Rattle.spec_format.specs.Names.{read_name};
ghost use Rattle.spec_format.specs.Records.{child};
ghost use Rattle.blk_object.specs.FailedChecks.{IsFailedCheck};
ghost use Rattle.blk_object.specs.ListedParts.{LoadsSomeAt};
ghost use Rattle.blk_object.specs.ListWalks.{WalkEnds};
ghost use Rattle.blk_print.specs.ItemRows.{HasKeptState, IsItemToldBy, ForKeptRows, ForRowAt, ForRowOf};
ghost use Rattle.blk_evict.specs.RoomPrinting.{FailsWhereItRose};
ghost use Rattle.blk_print.specs.PrintCalls.{SaysText, SaysInPart};

use crate::row_printing::{say_part, say_plain, say_sparse};
use blk_addr::Addr;
use blk_disk::BlockFiles;
use blk_entry::{Head, key_piece, read_head, record_damage};
use blk_evict::{EntryKind, kind_said, parent_key};
use blk_io::{Fault, Folder, Sink};
use blk_lru::{MOST_NODES, after, first};
use blk_object::{end_walk, entry_named};
use blk_ranges::read_child_name;
use blk_record::{CHILD, EntryView, NodeView};

/// Prints the rows of the items of the LRU list, a line each, from its front on: of an object its key and the lengths of
/// its streams, and of a part its number and how many bytes it has. Keys and names are read into `name`.
///
/// One folder call finds the first item, and five more are made for each. Nothing is written. After a fault a prefix of
/// the lines is printed. A list that goes on after 131073 nodes is corruption, of the next of the last one.
pub fn print_items<F: Folder, K: Sink>(
    folder: &mut F,
    files: &BlockFiles,
    name: &mut [u8],
    out: &mut K,
    failed: &mut bool,
) -> Result<(), Fault>
    requires buffer { most_key ≤ length name.old }
    ensures printed { OnOk result (ForKeptRows (F.told folder.old) files.now (SaysText failed.old failed.new K.written out.old out.new)) }
    ensures part { ForKeptRows (F.told folder.old) files.now (SaysInPart failed.old K.written out.old out.new) }

    // On every folder it is done only where the list ends.
    ensures ends { OnOk result (ForSome (F.told folder.old).files (WalkEnds files.now NodeView.NEXT None)) }

    ensures failed { FailsWhereItRose failed.old failed.new (K.faults out.old) (K.faults out.new) }
    ensures reads { ReadsOnly F.told F.faults folder.old folder.new (IfDevice result) }
    ensures damaged { IfDamaged result (IsFailedCheck files.now (F.told folder.new)) }
    ensures untold { UndamagedWhere result (F.told folder.old) (HasKeptState files.now) }
    ensures later_out { GoesOn K.is K.faults out.old out.new }
{
    let mut last = None;
    let mut next = first(folder, files)?;
    for _ in 0..MOST_NODES + 1 {
        let Some(node) = next else {
            return Ok(());
        };
        print_row(folder, files, name, node, out, failed)?;
        last = Some(node);
        next = after(folder, files, node)?;
    }
    end_walk(last, NodeView::NEXT, next)
}

// Prints the row of an item, by its record and its key or name, which is read into `name`.
fn print_row<F: Folder, K: Sink>(
    folder: &mut F,
    files: &BlockFiles,
    name: &mut [u8],
    node: Addr,
    out: &mut K,
    failed: &mut bool,
) -> Result<(), Fault>
    requires stands { IsTrue (is_node_among files.now node) }
    requires buffer { most_key ≤ length name.old }
    ensures printed { OnOk result (ForRowAt (F.told folder.old) node (SaysText failed.old failed.new K.written out.old out.new)) }
    ensures unprinted { OnErr result (K.written out.new ≡ K.written out.old) }
    ensures failed { FailsWhereItRose failed.old failed.new (K.faults out.old) (K.faults out.new) }
    ensures reads { ReadsOnly F.told F.faults folder.old folder.new (IfDevice result) }
    ensures damaged { IfDamaged result (IsFailedCheck files.now (F.told folder.new)) }
    ensures untold { ForSome (F.told folder.old).files (Agrees files.now) → UndamagedWhere result (F.told folder.old) (LoadsSomeAt node) }
    ensures later_out { GoesOn K.is K.faults out.old out.new }
{
    let entry = entry_named(folder, files, node)?;
    let head = read_head(folder, files, entry)?;
    let len = key_piece(folder, files, entry, 0, name)?;
    say_row(out, failed, entry, &name[..len], &head)
}

// Prints the row of an item by the words of its record and its key or name. Of a part whose name is none that is
// corruption, of its flags.
fn say_row<K: Sink>(
    out: &mut K,
    failed: &mut bool,
    entry: Addr,
    name: &[u8],
    head: &Head,
) -> Result<(), Fault>
    requires kind { kind_of entry ≡ blocks_256 }
    ensures printed { OnOk result (ForRowOf name.now head.now (SaysText failed.old failed.new K.written out.old out.new)) }
    ensures unprinted { OnErr result (K.written out.new ≡ K.written out.old) }
    ensures failed { FailsWhereItRose failed.old failed.new (K.faults out.old) (K.faults out.new) }
    ensures damaged { IfDamaged result (λ damage. IsWordOf entry EntryView.FLAGS child damage × (read_name name.now ≡ None)) }
    ensures untold { IfDamaged result (λ _. (loaded : Loaded) → IsItemToldBy loaded name.now head.now → ⊥) }
    ensures later { GoesOn K.is K.faults out.old out.new }
    ensures never { IfDevice result ⊥ }
{
    let first = u64::from(head.sizes[0]);
    let second = u64::from(head.sizes[1]);
    let third = u64::from(head.sizes[2]);
    match kind_said(head.flags) {
        EntryKind::Plain => {
            say_plain(out, failed, name, first, second, third);
            Ok(())
        }
        EntryKind::Parent => {
            say_sparse(out, failed, name, first);
            Ok(())
        }
        EntryKind::Part => {
            let Some(child) = read_child_name(name) else {
                return Err(record_damage(entry, EntryView::FLAGS, CHILD));
            };
            let key = parent_key(name, &child);
            say_part(out, failed, key, u64::from(child.part), second);
            Ok(())
        }
    }
}
