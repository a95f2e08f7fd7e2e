// What a search finds where some items of a state are out, or none: laws, each the contract of a function with an empty body.
ghost use Rattle.blk_object.specs.FindingOut.{LeftItemsAreFound, ListedItemsAreFound, PartlyOutCanBeSearched};

/// While items are removed each hash chain can be searched, and a search for the key of an item that is left, with its child flag, finds its record. Where a
/// folder keeps a state, the record of each listed item is found.
pub fn left_items_are_found()
    ensures searched { PartlyOutCanBeSearched }
    ensures left { LeftItemsAreFound }
    ensures listed { ListedItemsAreFound }
{}
