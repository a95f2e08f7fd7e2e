// The preconditions of linking can be met: two folders that meet them.
ghost use Rattle.blk_chain.specs.LinkExamples.{FirstCanBeLinked, NextCanBeLinked};

/// The precondition of `link_front` can be met: by a record in a folder that was just made, and by one whose chain has an entry already.
pub fn records_can_be_linked()
    ensures first { FirstCanBeLinked }
    ensures next { NextCanBeLinked }
{}
