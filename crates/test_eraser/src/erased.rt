// What is freed, cut and deleted is full of zeros then, and nothing else has changed.
use crate::files::{HEADER_LEN, MAP, OLD, block_file, folder_with, is_full_of};
use crate::same::{assert_same, assert_same_at};
use blk_eraser::Eraser;
use blk_io::{Failed, FileId, Folder};
use std::alloc::Global;
use std::test::Fail;

const BLOCKS: FileId = FileId::Block(1);

const EXTERNAL: FileId = FileId::External(1);

// Which of the first eight blocks are full of zeros, a bit for each; or none, where one is full of neither zeros nor the old byte.
fn blank_blocks<F: Folder>(f: &mut F, size: u16) -> Result<Option<u8>, Failed> {
    let mut blank = 0u8;
    for b in 0..8u32 {
        let at = HEADER_LEN as u64 + u64::from(b) * u64::from(size);
        if is_full_of(f, BLOCKS, at, usize::from(size), 0)? {
            blank |= 1 << b;
        } else if !is_full_of(f, BLOCKS, at, usize::from(size), OLD)? {
            return Ok(None);
        }
    }
    Ok(Some(blank))
}

// Writes a byte of the map over another: which blocks are full of zeros then.
fn after_map(alloc: Global, size: u16, old: u8, new: u8) -> Result<Option<u8>, Fail> {
    let bytes = block_file(alloc, size, old, 8 * usize::from(size))?;
    let mut f = Eraser::new(folder_with(alloc, BLOCKS, &bytes)?);
    f.write_at(BLOCKS, MAP, &[new])?;
    Ok(blank_blocks(&mut f.into_inner(), size)?)
}

#[test]
fn freed_blocks_of_each_size_are_zeros(rt: HostRuntime) -> Result<(), Fail> {
    for size in [36, 256, 1024, 4096] {
        // All that are marked, none, a run of four, some that stay marked beside others that become so.
        for (old, new, blank) in [
            (0xFF, 0x00, 0xFF),
            (0xFF, 0xFF, 0x00),
            (0x3C, 0x00, 0x3C),
            (0xB5, 0xA6, 0x11),
            (0x00, 0xFF, 0x00),
        ] {
            assert_same_at(
                &rt,
                after_map(rt.alloc(), size, old, new)?,
                Some(blank),
                format_args!("{size} {old}"),
            );
        }
    }
    Ok(())
}

#[test]
fn a_block_that_the_file_cuts_is_erased_as_far_as_it_goes(rt: HostRuntime) -> Result<(), Fail> {
    let bytes = block_file(rt.alloc(), 256, 0x0F, 700)?;
    let mut f = Eraser::new(folder_with(rt.alloc(), BLOCKS, &bytes)?);
    f.write_at(BLOCKS, MAP, &[0x01])?;
    let mut inner = f.into_inner();
    assert_same(&rt, inner.length(BLOCKS)?, Some(HEADER_LEN as u64 + 700));
    assert!(rt; is_full_of(&mut inner, BLOCKS, HEADER_LEN as u64, 256, OLD)?);
    assert!(rt; is_full_of(&mut inner, BLOCKS, HEADER_LEN as u64 + 256, 444, 0)?);
    Ok(())
}

#[test]
fn a_write_beside_the_map_erases_nothing(rt: HostRuntime) -> Result<(), Fail> {
    let bytes = block_file(rt.alloc(), 256, 0xFF, 2048)?;
    let mut f = Eraser::new(folder_with(rt.alloc(), BLOCKS, &bytes)?);
    f.write_at(BLOCKS, 16, &[1, 2, 3, 4])?;
    f.write_at(BLOCKS, HEADER_LEN as u64, &[OLD; 16])?;
    assert_same(&rt, blank_blocks(&mut f.into_inner(), 256)?, Some(0));
    Ok(())
}

#[test]
fn a_header_is_written_into_a_file_of_zeros(rt: HostRuntime) -> Result<(), Fail> {
    let bytes = block_file(rt.alloc(), 0, 0, 0)?;
    let header = block_file(rt.alloc(), 256, 0x0F, 0)?;
    let mut f = Eraser::new(folder_with(rt.alloc(), BLOCKS, &bytes)?);
    assert_same(&rt, f.write_at(BLOCKS, 0, &header), Ok(()));
    let mut inner = f.into_inner();

    // The length, the header and the write.
    assert_same(&rt, inner.calls(), 3);
    assert!(rt; is_full_of(&mut inner, BLOCKS, MAP, 1, 0x0F)?);
    Ok(())
}

#[test]
fn external_files_are_zeros_before_they_go(rt: HostRuntime) -> Result<(), Fail> {
    let mut bytes = Vec::new(rt.alloc());
    bytes.resize(10_001, OLD)?;
    let mut f = Eraser::new(folder_with(rt.alloc(), EXTERNAL, &bytes)?);
    f.set_len(EXTERNAL, 5001)?;
    assert_same(&rt, f.length(EXTERNAL)?, Some(5001));
    f.set_len(EXTERNAL, 6000)?;
    assert!(rt; is_full_of(&mut f, EXTERNAL, 4000, 1001, OLD)?);
    f.delete(EXTERNAL)?;
    let mut inner = f.into_inner();
    assert_same(&rt, inner.length(EXTERNAL)?, None);
    Ok(())
}
