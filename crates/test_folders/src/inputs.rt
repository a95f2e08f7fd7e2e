// The inputs of sessions, given by pieces.
use blk_io::NoMemory;
use std::alloc::Global;

/// An input by pieces: lines, after each of which so many data bytes 0x7A come.
pub type Pieces<'a> = &'a [(&'a [u8], usize)];

// Adds so many data bytes to a line.
fn add_data(text: &mut Vec<u8>, count: usize) -> Result<(), NoMemory> {
    for _ in 0..count {
        text.extend_from_slice(b"7a")?;
    }
    Ok(())
}

/// The text of an input.
pub fn text_of(alloc: Global, pieces: Pieces<'_>) -> Result<Vec<u8>, NoMemory> {
    let mut text = Vec::new(alloc);
    for (lines, count) in pieces {
        text.extend_from_slice(lines)?;
        add_data(&mut text, *count)?;
    }
    Ok(text)
}
