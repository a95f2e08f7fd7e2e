// The part of a folder that arguments name.
ghost use Rattle.std.specs.Prelude.{◌≡◌};
ghost use Rattle.blk_args.specs.Inspected.{part_named, part_numbered};

use crate::numbers::{read_address, read_few};
use blk_inspect::Part;

/// The part that an argument names.
#[tactic(auto, unfolding(crate::specs::Inspected::part_named))]
pub fn part_named(name: &[u8]) -> Option<Part>
    ensures { result ≡ part_named name.now }
{
    if name == b"index".as_slice() {
        Some(Part::Index)
    } else if name == b"list".as_slice() {
        Some(Part::List)
    } else {
        None
    }
}

/// The part that an argument names with a number or an address after it.
#[tactic(auto, unfolding(crate::specs::Inspected::part_numbered))]
pub fn part_numbered(name: &[u8], value: &[u8]) -> Option<Part>
    ensures { result ≡ part_numbered name.now value.now }
{
    if name == b"file".as_slice() {
        Some(Part::File(read_few(value, 255)? as u8))
    } else if name == b"address".as_slice() {
        Some(Part::Address(read_address(value)?))
    } else if name == b"chain".as_slice() {
        Some(Part::Chain(read_few(value, 65535)? as u16))
    } else if name == b"entry".as_slice() {
        Some(Part::Entry(read_address(value)?))
    } else {
        None
    }
}
