// Why a scan does not succeed.
use blk_addr::NoMemory;
use blk_io::{Damage, Fault};

/// Why a folder is not scanned.
#[derive(Clone, Copy, Debug, PartialEq, Eq)]
pub enum ScanFault {
    /// The folder failed.
    Device,
    /// What the folder holds failed a check.
    Damaged(Damage),
    /// Out of memory.
    Memory,
}

impl From<Fault> for ScanFault {
    ghost use Rattle.std.specs.Prelude.{◌≡◌};
    ghost use Rattle.blk_audit.specs.Faults.{scan_fault};

    ghost from_gives = { λ fault scan. scan ≡ scan_fault fault };

    fn from(fault: Fault) -> Self {
        match fault {
            Fault::Device => ScanFault::Device,
            Fault::Damaged(damage) => ScanFault::Damaged(damage),
        }
    }
}

impl From<NoMemory> for ScanFault {
    ghost use Rattle.std.specs.Prelude.{◌≡◌};
    ghost use Rattle.blk_audit.specs.declared.fault.ScanFault.TheVariants.{Memory};

    ghost from_gives = { λ _ fault. fault ≡ Memory };

    fn from(_: NoMemory) -> Self {
        ScanFault::Memory
    }
}
