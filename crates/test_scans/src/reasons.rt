// The consistency check of a folder of all kinds of entries, as it is and with changes.
use crate::cases::{Case, TABLES};
use blk_io::{MemFolder, SilentFolder};
use blk_scan::{Scan, scan_folder};
use std::alloc::Global;
use std::test::Fail;
use test_folders::folders::{Mem, OPERATION, TRANSACTION, audited, change_all, dropped_at};
use test_folders::worked::{N, make_all};

// How many bytes the folder has as it is: 22247 of its keys and 32872 of its streams.
const BYTES: u64 = 55119;

// Whether exactly these are dropped, in this order.
fn are_dropped(scan: &Scan, dropped: &[(u32, u32)]) -> bool {
    for (i, one) in dropped.iter().enumerate() {
        if dropped_at(scan, i) != *one {
            return false;
        }
    }
    dropped_at(scan, dropped.len()) == (0, 0)
}

// The folder.
fn folder(alloc: Global) -> Result<Mem, Fail> {
    let mut f = SilentFolder::new(MemFolder::without_trail(alloc));
    make_all(alloc, &mut f)?;
    Ok(f)
}

// Whether exactly these nodes are kept, in this order.
fn are_kept(scan: &Scan, nodes: &[u32]) -> bool {
    let mut same = scan.kept_nodes().len() == nodes.len();
    for (node, word) in scan.kept_nodes().iter().zip(nodes) {
        if node.word() != *word {
            same = false;
        }
    }
    same
}

// Whether all of the folder is kept as it is.
fn is_kept(alloc: Global) -> Result<bool, Fail> {
    let mut f = folder(alloc)?;
    let scan = scan_folder(alloc, &mut f)?;
    Ok(scan.bytes() == BYTES && are_kept(&scan, &N) && are_dropped(&scan, &[]))
}

// Whether so many are kept and these are dropped.
fn is_so(alloc: Global, case: Case) -> Result<bool, Fail> {
    let mut f = folder(alloc)?;
    let (changes, kept, dropped) = case;
    change_all(&mut f, changes)?;
    let scan = audited(alloc, &mut f)?;
    Ok(scan.items() == kept && are_dropped(&scan, dropped))
}

#[test]
fn what_is_damaged_is_dropped_for_its_reason(rt: HostRuntime) -> Result<(), Fail> {
    assert!(rt; is_kept(rt.alloc())?, "as it is");
    for (table, cases) in TABLES.iter().enumerate() {
        for (i, case) in cases.iter().enumerate() {
            assert!(rt; is_so(rt.alloc(), *case)?, "{table}, {i}");
        }
    }
    Ok(())
}
