// What a SparseWrite asks of space: laws, each the contract of a function with an empty body.
ghost use Rattle.blk_cache.specs.SparseWriting.{MeasuredPartsAreCovered, SparseWritesRaiseAsMeasured};

/// A SparseWrite raises the cost and the number of items of the state by what was measured, and by the index of parts where its object is plain. The measured
/// parts in its range lie at the measured nodes, and pin what was measured of them.
pub fn sparse_writes_are_measured()
    ensures covered { MeasuredPartsAreCovered }
    ensures raised { SparseWritesRaiseAsMeasured }
{}
