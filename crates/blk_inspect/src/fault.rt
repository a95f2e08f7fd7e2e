// Why a folder is not inspected.
use blk_audit::ScanFault;
use blk_io::{Damage, Failed};

/// Why a folder is not inspected.
#[derive(Clone, Copy, Debug, PartialEq, Eq)]
pub enum InspectFault {
    /// The folder failed.
    Device,
    /// What the folder holds failed a check.
    Damaged(Damage),
    /// The output failed.
    Sink,
    /// Out of memory.
    Memory,
}

impl From<ScanFault> for InspectFault {
    ghost use Rattle.std.specs.Prelude.{◌≡◌};
    ghost use Rattle.blk_inspect.specs.Inspecting.{inspect_fault};

    ghost from_gives = { λ fault inspect. inspect ≡ inspect_fault fault };

    fn from(fault: ScanFault) -> Self {
        match fault {
            ScanFault::Device => InspectFault::Device,
            ScanFault::Damaged(damage) => InspectFault::Damaged(damage),
            ScanFault::Memory => InspectFault::Memory,
        }
    }
}

impl From<Failed> for InspectFault {
    ghost use Rattle.std.specs.Prelude.{◌≡◌};
    ghost use Rattle.blk_inspect.specs.declared.fault.InspectFault.TheVariants.{Sink};

    ghost from_gives = { λ _ fault. fault ≡ Sink };

    fn from(_: Failed) -> Self {
        InspectFault::Sink
    }
}
