// The kinds of addresses.
ghost use Rattle.std.specs.Prelude.{◌≡◌, ◌==◌, ◌<◌, Some, None, IfSome, if◌then◌else◌};
ghost use Rattle.spec_format.specs.Address as address;
ghost use Rattle.spec_format.specs.Address.{external};
ghost use Rattle.blk_addr.specs.Kind.{kind_number};

/// What an address names: an external file, or blocks of a size. Each has its number in address words.
#[derive(Clone, Copy, PartialEq, Eq, Debug)]
pub enum Kind {
    /// a file of its own
    External = 0,
    /// rankings nodes of 36 bytes
    Rankings = 1,
    /// blocks of 256 bytes
    B256 = 2,
    /// blocks of 1024 bytes
    B1K = 3,
    /// blocks of 4096 bytes
    B4K = 4,
}

impl Kind {
    /// The number that address words have for the kind, from 0 to 4.
    pub fn number(self) -> u32
        ensures { result ≡ kind_number self }
    {
        self as u32
    }

    /// How many bytes one block has, where addresses of the kind name blocks.
    #[tactic(auto, unfolding(spec_format::specs::Address::block_size))]
    pub fn block_size(self) -> Option<u32>
        ensures size { result ≡ (if kind_number self == external then None else Some (address.block_size (kind_number self))) }
        ensures some { IfSome result (λ size. 0 < size) }
    {
        match self {
            Kind::External => None,
            Kind::Rankings => Some(36),
            Kind::B256 => Some(256),
            Kind::B1K => Some(1024),
            Kind::B4K => Some(4096),
        }
    }
}
