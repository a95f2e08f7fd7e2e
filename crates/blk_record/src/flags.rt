// The flags of entry records.
ghost use Rattle.std.specs.Prelude.{⊤, [], ◌∷◌, codes};

use bitflags::{Flag, Flags, bitflag_items};

/// The word of flags of a sparse entry, whose data is in parts.
pub const PARENT: u32 = 1;

/// The word of flags of a part.
pub const CHILD: u32 = 2;

/// The flags of an entry record. A clause speaks of their word.
///
/// A `PARENT` is the record of a sparse entry, whose data is in parts; a `CHILD` is the record of such a part.
#[derive(Clone, Copy, PartialEq, Eq, Debug)]
pub struct EntryFlags(u32);

bitflag_items! {
    impl EntryFlags: u32 {
        const PARENT = 1;
        const CHILD = 2;
    }
}

impl Flags for EntryFlags {
    type Bits = u32;

    ghost exact = { ⊤ };

    ghost table = { (codes "PARENT", 1) ∷ (codes "CHILD", 2) ∷ [] };

    ghost set_of = { λ flags. flags.0 };

    fn flags<'a>() -> &'a [Flag<EntryFlags>] {
        EntryFlags::FLAGS
    }

    fn bits(&self) -> u32 {
        self.0
    }

    fn from_bits_retain(bits: u32) -> EntryFlags {
        EntryFlags(bits)
    }
}
