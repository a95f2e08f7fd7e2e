// The link words of nodes along which a walk over the LRU list is made, and the end of such a walk.
ghost use Rattle.std.specs.Prelude.{◌≡◌, IfSome, None, OnOk};
ghost use Rattle.spec_format.specs.Address.{kind_of, rankings};
ghost use Rattle.blk_io.specs.Faults.{IfDamaged, IfDevice};
ghost use Rattle.blk_entry.specs.Keys.{IsDamageAt};
ghost use Rattle.blk_object.specs.ListWalks.{IsWordBehind};

use blk_addr::Addr;
use blk_disk::file_of;
use blk_io::{Damage, Fault};
use blk_record::{BlockHead, NodeView, Record};

/// The end of a walk over the LRU list that has passed one node more than a list has: none may lie after the last one.
///
/// One that does is corruption, of the word by which it would be followed: the word at `at`, its next or its prev, of
/// the last node.
pub fn end_walk(last: Option<Addr>, at: u32, next: Option<Addr>) -> Result<(), Fault>
    requires kind { IfSome last (λ node. kind_of node ≡ rankings) }
    ensures ended { OnOk result (IfSome last (λ _. next ≡ None)) }
    ensures damaged { IfDamaged result (IsWordBehind last at next) }
    ensures never { IfDevice result ⊥ }
{
    let Some(node) = last else {
        return Ok(());
    };
    let Some(found) = next else {
        return Ok(());
    };
    Err(node_damage(node, at, found.word()))
}

/// The failed check of a word of a node: the word at a place in it, with what was found there.
pub fn node_damage(node: Addr, at: u32, found: u32) -> Fault
    requires kind { kind_of node ≡ rankings }
    ensures { IsDamageAt node at found result }
{
    let front = BlockHead::HEADER_LEN + u64::from(node.start()) * NodeView::SIZE as u64;
    Fault::Damaged(Damage {
        file: file_of(node),
        at: front + u64::from(at),
        found,
    })
}
