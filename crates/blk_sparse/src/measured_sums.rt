// The sums of what a write adds, over the parts in range.
ghost use Rattle.std.specs.Prelude.{◌≡◌, ◌<◌, ◌+◌, ◌^◌};
ghost use Rattle.blk_sparse.specs.Measuring.{IsOne, IsTwo, one_if_none};

use crate::measuring::{Measured, Piece};
use blk_addr::Addr;

// The sums where one part is in range.
pub(crate) fn measured_one(piece: &Piece) -> Measured
    requires light { piece.now.charged + piece.now.bytes < 2 ^ 35 }
    ensures { IsOne piece.now result }
{
    Measured {
        first: piece.node,
        second: None,
        charged: piece.charged,
        bytes: piece.bytes,
        items: one_if_none(&piece.node),
    }
}

// The sums where two parts are in range.
pub(crate) fn measured_two(front: &Piece, back: &Piece) -> Measured
    requires front { front.now.charged + front.now.bytes < 2 ^ 35 }
    requires back { back.now.charged + back.now.bytes < 2 ^ 35 }
    ensures { IsTwo front.now back.now result }
{
    Measured {
        first: front.node,
        second: back.node,
        charged: front.charged + back.charged,
        bytes: front.bytes + back.bytes,
        items: one_if_none(&front.node) + one_if_none(&back.node),
    }
}

// 1 where there is no node, else 0.
fn one_if_none(node: &Option<Addr>) -> u64
    ensures { result ≡ one_if_none node.now }
{
    match node {
        Some(_) => 0,
        None => 1,
    }
}
