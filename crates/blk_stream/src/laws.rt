// The laws of streams, each the contract of a function with an empty body.
ghost use Rattle.blk_stream.specs.Loading.{WrittenStreamsLoad};
ghost use Rattle.blk_stream.specs.Shown.{DroppedStreamsAreEmpty, DropsAreShownInside};

/// Dropping the streams of an entry changes the view only in its record and in the blocks or files of its streams; the entry has three empty streams then.
pub fn drops_are_shown_inside()
    ensures inside { DropsAreShownInside }
    ensures empty { DroppedStreamsAreEmpty }
{}

/// After a write of a stream, the entry loads with the same streams but for this one, which has its bytes after the write.
pub fn written_streams_load()
    ensures { WrittenStreamsLoad }
{}
