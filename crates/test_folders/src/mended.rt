// The folder of all kinds of entries, repaired once or changed.
use crate::folders::{Change, change_all};
use crate::stopping::{Mem, again, empty};
use crate::worked::make_all;
use blk_audit::ScanFault;
use blk_disk::BlockFiles;
use blk_io::{Folder, SilentFolder};
use blk_repair::repair;
use blk_scan::{Scan, scan_files};
use std::alloc::Global;
use std::test::Fail;

// The folder of all kinds of entries: as it is made, where every checksum is 0, or repaired once, where each record has its checksum.
fn whole(alloc: Global, sealed: bool) -> Result<Mem, Fail> {
    let mut f = empty(alloc);
    make_all(alloc, &mut f)?;
    if sealed {
        mend(alloc, &mut f)?;
    }
    Ok(f)
}

/// That folder with some changes, where so many more steps pass.
pub fn changed(alloc: Global, sealed: bool, changes: &[Change], steps: u64) -> Result<Mem, Fail> {
    let mut f = whole(alloc, sealed)?;
    change_all(&mut f, changes)?;
    Ok(again(f, steps))
}

/// Checks the folder and repairs it. Gives what the consistency check found.
pub fn mend<F: Folder>(alloc: Global, f: &mut SilentFolder<F>) -> Result<Scan, ScanFault> {
    let mut files = BlockFiles::load(f)?;
    let scan = scan_files(alloc, f, &files)?;
    repair(f, &mut files, &scan)?;
    Ok(scan)
}
