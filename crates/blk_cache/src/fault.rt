// Why a cache is not opened, and why a command has no answer.
use blk_addr::NoMemory;
use blk_audit::ScanFault;
use blk_io::{Damage, Fault};

/// Why a cache is not opened.
#[derive(Clone, Copy, Debug, PartialEq, Eq)]
pub enum OpenFault {
    /// The folder failed.
    Device,
    /// What the folder holds failed a check.
    Damaged(Damage),
    /// Out of memory. Nothing was written.
    Memory,
}

impl From<Fault> for OpenFault {
    ghost use Rattle.std.specs.Prelude.{◌≡◌};
    ghost use Rattle.blk_cache.specs.Opening.{of_fault};

    ghost from_gives = { λ fault opening. opening ≡ of_fault fault };

    fn from(fault: Fault) -> Self {
        match fault {
            Fault::Device => OpenFault::Device,
            Fault::Damaged(damage) => OpenFault::Damaged(damage),
        }
    }
}

impl From<ScanFault> for OpenFault {
    ghost use Rattle.std.specs.Prelude.{◌≡◌};
    ghost use Rattle.blk_cache.specs.Opening.{of_scan_fault};

    ghost from_gives = { λ fault opening. opening ≡ of_scan_fault fault };

    fn from(fault: ScanFault) -> Self {
        match fault {
            ScanFault::Device => OpenFault::Device,
            ScanFault::Damaged(damage) => OpenFault::Damaged(damage),
            ScanFault::Memory => OpenFault::Memory,
        }
    }
}

impl From<NoMemory> for OpenFault {
    ghost use Rattle.std.specs.Prelude.{◌≡◌};
    ghost use Rattle.blk_cache.specs.declared.fault.OpenFault.TheVariants.{Memory};

    ghost from_gives = { λ _ fault. fault ≡ Memory };

    fn from(_: NoMemory) -> Self {
        OpenFault::Memory
    }
}

/// Why a command has no answer.
#[derive(Clone, Copy, Debug, PartialEq, Eq)]
pub enum StepFault {
    /// The folder failed.
    Device,
    /// The output failed. The command is done, and noted.
    Sink,
    /// What the folder holds failed a check, which it doesn't where the folder is observable.
    Damaged(Damage),
}

impl From<Fault> for StepFault {
    ghost use Rattle.std.specs.Prelude.{◌≡◌};
    ghost use Rattle.blk_cache.specs.Stepping.{of_step_fault};

    ghost from_gives = { λ fault stepping. stepping ≡ of_step_fault fault };

    fn from(fault: Fault) -> Self {
        match fault {
            Fault::Device => StepFault::Device,
            Fault::Damaged(damage) => StepFault::Damaged(damage),
        }
    }
}
