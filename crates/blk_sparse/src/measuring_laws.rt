// A write adds what was measured: lemmas, each the contract of a function with an empty body.
ghost use Rattle.blk_sparse.specs.Measuring.{WritesRaiseAsMeasured};

/// A write to a sparse object raises its cost and the number of its items by what was measured of the parts in range.
pub fn writes_raise_as_measured()
    ensures { WritesRaiseAsMeasured }
{}
