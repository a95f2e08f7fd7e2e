// Why a call on a folder did not succeed.
ghost use Rattle.std.specs.Prelude.{◌≡◌, ◌==◌, map};
ghost use Rattle.std.specs.Option.{option_map};
ghost use Rattle.spec_image.specs.Checks.{check_found, first_of};
ghost use Rattle.blk_io.specs.FileNames.{file_of};
ghost use Rattle.blk_io.specs.Faults.{damage_of};

use crate::{Failed, FileId};
use std::error::Error;
use std::fmt;

/// A check that failed on bytes that were read.
#[derive(Clone, Copy, Debug, PartialEq, Eq)]
pub struct Damage {
    /// The file that was read.
    pub file: FileId,
    /// The place of what was checked, in bytes.
    pub at: u64,
    /// The word found there, or how many bytes there were where they are too few.
    pub found: u32,
}

impl fmt::Display for Damage {
    ghost use Rattle.std.specs.Prelude.{Some};
    ghost use Rattle.blk_io.specs.Faults.{damage_of};
    ghost use Rattle.blk_io.specs.Texts.{damage_text};

    ghost output = { λ damage. Some (damage_text (damage_of damage)) };

    #[tactic(auto, using(crate::proofs::Padding::padded_text), unfolding(crate::specs::Texts::damage_text, crate::specs::Texts::hex_text))]
    fn fmt<W: fmt::Write>(&self, f: &mut fmt::Formatter<W>) -> fmt::Result {
        let file = self.file;
        let at = self.at;
        let found = self.found;
        write!(f, "damaged {file} {at} {found:08x}")
    }
}

impl Error for Damage {}

/// Why a call did not succeed.
#[derive(Clone, Copy, Debug, PartialEq, Eq)]
pub enum Fault {
    /// The folder failed.
    Device,
    /// A check of what is in the folder failed.
    Damaged(Damage),
}

impl fmt::Display for Fault {
    ghost use Rattle.std.specs.Prelude.{Some};
    ghost use Rattle.blk_io.specs.Texts.{fault_text};

    ghost output = { λ fault. Some (fault_text fault) };

    fn fmt<W: fmt::Write>(&self, f: &mut fmt::Formatter<W>) -> fmt::Result {
        match self {
            Fault::Device => Failed.fmt(f),
            Fault::Damaged(damage) => damage.fmt(f),
        }
    }
}

impl Error for Fault {}

impl From<Failed> for Fault {
    ghost use Rattle.std.specs.Prelude.{◌≡◌};
    ghost use Rattle.blk_io.specs.declared.fault.Fault.TheVariants.{Device};

    ghost from_gives = { λ _ fault. fault ≡ Device };

    fn from(_: Failed) -> Self {
        Fault::Device
    }
}

impl From<Damage> for Fault {
    ghost use Rattle.std.specs.Prelude.{◌≡◌};
    ghost use Rattle.blk_io.specs.declared.fault.Fault.TheVariants.{Damaged};

    ghost from_gives = { λ damage fault. fault ≡ Damaged damage };

    fn from(damage: Damage) -> Self {
        Fault::Damaged(damage)
    }
}

/// A check of the word at a place of a file: the failed check, where it doesn't hold.
pub fn check(file: FileId, at: u64, found: u32, holds: bool) -> Option<Damage>
    ensures { option_map damage_of result ≡ check_found (file_of file) at found holds }
{
    if holds {
        None
    } else {
        Some(Damage { file, at, found })
    }
}

/// A check that the word at a place of a file is this one.
pub fn check_is(file: FileId, at: u64, found: u32, wanted: u32) -> Option<Damage>
    ensures { option_map damage_of result ≡ check_found (file_of file) at found (found == wanted) }
{
    check(file, at, found, found == wanted)
}

/// The first of these checks that failed: each found corruption or none.
pub fn first_failed(checks: &[Option<Damage>]) -> Option<Damage>
    ensures { option_map damage_of result ≡ first_of (map (option_map damage_of) checks.now) }
{
    for check in checks {
        if let Some(damage) = check {
            return Some(*damage);
        }
    }
    None
}
