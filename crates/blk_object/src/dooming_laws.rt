// What an object that a handle names is while it is doomed: laws, each the contract of a function with an empty body.
ghost use Rattle.blk_object.specs.UnlinkedLoads.{CountedLessKeepsUnlinked, FreedWordsKeepUnlinked, HeldOutObjectsAreCounted, TakenOutItemsKeepUnlinked};

/// The main item of an object, which is unlinked while its parts are removed after it, still loads when an item is taken out, other unlinked addresses are
/// freed, or the counters are lowered. When its items are out and uncounted and its record is that of a doomed entry, the folder keeps the state in which the
/// object is doomed.
pub fn held_objects_are_doomed()
    ensures taken { TakenOutItemsKeepUnlinked }
    ensures freed { FreedWordsKeepUnlinked }
    ensures counted { CountedLessKeepsUnlinked }
    ensures ends { HeldOutObjectsAreCounted }
{}
