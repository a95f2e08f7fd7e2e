// The index and the block files of an opaque folder.
use blk_io::{Failed, FileId, Folder, SilentFolder, write_word};

// The length of a whole index, and that of each block file, which has 36864 bytes of blocks.
pub(crate) const INDEX_LEN: u64 = 262512;

pub(crate) const SIZE: u64 = 45056;

// Makes an index of zeros, and the first four block files, each with so many blocks and no allocation.
pub(crate) fn put_all<F: Folder>(f: &mut SilentFolder<F>, blocks: [u32; 4]) -> Result<(), Failed> {
    f.set_len(FileId::Index, INDEX_LEN)?;
    put_files(f, SIZE, blocks)
}

// Makes the first four block files of a length, each with so many blocks and no allocation.
pub(crate) fn put_files<F: Folder>(
    f: &mut SilentFolder<F>,
    length: u64,
    blocks: [u32; 4],
) -> Result<(), Failed> {
    let [nodes, small, middle, large] = blocks;
    for (number, size, blocks) in [
        (0, 36, nodes),
        (1, 256, small),
        (2, 1024, middle),
        (3, 4096, large),
    ] {
        put_file(f, number, length, [size, 0, blocks])?;
    }
    Ok(())
}

// Makes a block file of a length, with these words in its header from the size of its blocks on.
fn put_file<F: Folder>(
    f: &mut SilentFolder<F>,
    number: u8,
    length: u64,
    words: [u32; 3],
) -> Result<(), Failed> {
    let file = FileId::Block(number);
    f.set_len(file, length)?;
    write_word(f, file, 0, 0xC104_CAC3)?;
    write_word(f, file, 4, 0x20000)?;
    write_word(f, file, 8, u32::from(number))?;
    for (at, word) in [12, 16, 20].iter().zip(words) {
        write_word(f, file, *at, word)?;
    }
    Ok(())
}
