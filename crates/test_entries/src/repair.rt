// The LRU list that is made that of the kept nodes, in an opaque folder in memory.
use crate::lru::{self, NODES, Shown};
use crate::same::assert_same;
use blk_disk::BlockFiles;
use blk_io::{Fault, FileId, write_word};
use blk_record::IndexHead;
use blk_repair::mend_list;
use std::test::Fail;

// Repairs the list of the three nodes, whose tail is lost, and of which the first and the last are kept, and shows it then.
fn mended_list(f: &mut lru::Silent, files: &BlockFiles) -> Result<Shown, Fault> {
    let Some((zero, one, two)) = lru::three(files) else {
        return Err(Fault::Device);
    };
    write_word(f, FileId::Index, IndexHead::TAILS, 0)?;
    mend_list(f, files, &[two, one, zero], &[two, zero])?;
    lru::shown(f)
}

#[test]
fn list_is_made_that_of_the_kept_nodes(rt: HostRuntime) -> Result<(), Fail> {
    let [zero, _, two] = NODES;
    let (mut f, files) = lru::listing(rt.alloc(), &NODES)?;
    let list = ([two, zero, 0, 2], [zero, 0, zero], [two, two, two]);
    assert_same(&rt, mended_list(&mut f, &files), Ok(list));
    Ok(())
}
