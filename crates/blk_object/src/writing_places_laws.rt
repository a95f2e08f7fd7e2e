// What the places of a stream that is written are to a state that is kept, as the contract of a function with an empty body.
ghost use Rattle.blk_object.specs.WritingPlaces.{FilledPlacesAreUnlinked, FillingFindsTheSame, FreedPlacesAreRemoved};

/// While a place is allocated and filled recovery gives the same durable contents; when it is filled its address is unlinked, and an old address that is freed
/// has no blocks or file any more.
pub fn filled_places_are_unlinked()
    ensures finds { FillingFindsTheSame }
    ensures unlinked { FilledPlacesAreUnlinked }
    ensures removed { FreedPlacesAreRemoved }
{}
