// The laws of new entries, each the contract of a function with an empty body.
ghost use Rattle.blk_entry.specs.Covering.{NewClaimsAreSingle, NewPlacesAreCovered, NewPlacesAreShownApart};
ghost use Rattle.blk_entry.specs.Parts.{WrittenPartsLoad};

/// The node, the record and the long key of a new entry lie in the blocks and files that it uses, none of which is used twice; a change inside them changes the
/// view only there.
pub fn new_entries_are_shown_apart()
    ensures covered { NewPlacesAreCovered }
    ensures apart { NewPlacesAreShownApart }
    ensures single { NewClaimsAreSingle }
{}

/// A new part whose streams are stored is loaded as a part after one update of its record, which sets their sizes and addresses with a new checksum.
pub fn written_parts_load()
    ensures load { WrittenPartsLoad }
{}
