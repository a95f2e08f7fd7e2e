// Which file the operating system says that a name or a descriptor has.
ghost use Rattle.std.specs.Prelude.{◌≡◌, ◌↔◌, IsTrue};

use std::fs::Metadata;
use std::os::unix::fs::MetadataExt;

/// Which file the operating system says that a name or a descriptor has.
#[derive(Clone, Copy)]
pub struct Identity {
    is_regular: bool,
    // How many names the file has.
    links: u64,
    device: u64,
    // The number of the file on the device.
    number: u64,
}

impl Identity {
    /// The identity of the file that has this metadata.
    pub fn of(metadata: &Metadata) -> Self {
        Identity {
            is_regular: metadata.is_file(),
            links: metadata.nlink(),
            device: metadata.dev(),
            number: metadata.ino(),
        }
    }

    /// Whether it can be a cache file: a regular file that has one name, on this device.
    pub fn is_own(&self, device: u64) -> bool
        ensures { IsTrue result ↔ (IsTrue self.now.is_regular × (self.now.links ≡ 1) × (self.now.device ≡ device)) }
    {
        self.is_regular && self.links == 1 && self.device == device
    }

    /// Whether it is the other file.
    pub fn is_same(&self, other: &Identity) -> bool
        ensures { IsTrue result ↔ ((self.now.device ≡ other.now.device) × (self.now.number ≡ other.now.number)) }
    {
        self.device == other.device && self.number == other.number
    }
}
