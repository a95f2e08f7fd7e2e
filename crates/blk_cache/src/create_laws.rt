//! The laws of a Create, each the contract of a function with an empty body.
ghost use Rattle.blk_cache.specs.CreatingLaws.{CreatesHaveRoom, CreatesWantRoomForOneItem};

/// After all evictions of a Create that isn't refused, there is space for its object.
pub fn creates_have_room()
    ensures wants { CreatesWantRoomForOneItem }
    ensures has { CreatesHaveRoom }
{}
