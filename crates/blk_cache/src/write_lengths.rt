// The length of a stream once bytes are written over it.
ghost use Rattle.std.specs.Prelude.{◌≡◌, ◌≤◌, ◌+◌, ◌-◌, length};
ghost use Rattle.spec_folder.specs.Entries.{most_stream_bytes};
ghost use Rattle.blk_stream.specs.Writing.{size_after};

// The length of a stream of so many bytes once these are written over it from an offset on.
#[tactic(auto, unfolding(blk_stream::specs::Writing::size_after))]
pub(crate) fn length_after(cut: bool, size: u32, offset: u64, bytes: &[u8]) -> u64
    requires most { offset + length bytes.now ≤ most_stream_bytes }
    ensures { result ≡ size_after cut size offset (length bytes.now) }
{
    let end = offset + bytes.len() as u64;
    if cut { end } else { end.max(u64::from(size)) }
}

// By how many bytes the stream is longer after the write.
pub(crate) fn rise(cut: bool, size: u32, offset: u64, bytes: &[u8]) -> u64
    requires most { offset + length bytes.now ≤ most_stream_bytes }
    ensures { result ≡ size_after cut size offset (length bytes.now) - size }
{
    length_after(cut, size, offset, bytes).saturating_sub(u64::from(size))
}
