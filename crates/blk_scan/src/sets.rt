// Records as sets of addresses.
ghost use Rattle.std.specs.Prelude.{◌≡◌, ℕ, IfOk, map};
ghost use Rattle.std.specs.BTreeSet.{contains};
ghost use Rattle.std.specs.Ordering.{nat_cmp};
ghost use Rattle.spec_format.specs.BlockFiles.{is_among};

use blk_addr::{Addr, NoMemory};
use blk_verdict::Loaded;
use std::alloc::Global;
use std::collections::BTreeSet;

// The addresses of some kept records, in their order.
pub(crate) fn entries_of(alloc: Global, records: &[Loaded]) -> Result<Vec<Addr>, NoMemory>
    ensures { IfOk result (λ entries. entries.items ≡ map (λ said. said.entry) records.now) }
{
    let mut entries = Vec::new(alloc);
    for record in records {
        entries.push(record.entry)?;
    }
    Ok(entries)
}

// The set of some addresses.
pub(crate) fn set_of(alloc: Global, addresses: &[Addr]) -> Result<BTreeSet<u32>, NoMemory>
    ensures { IfOk result (λ set. (w : ℕ) → contains nat_cmp set w ≡ is_among addresses.now w) }
{
    let mut set = BTreeSet::new(alloc);
    for address in addresses {
        set.insert(address.word())?;
    }
    Ok(set)
}
