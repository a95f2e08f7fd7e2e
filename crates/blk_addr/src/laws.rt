//! Laws of addresses.
ghost use Rattle.std.specs.Prelude.{◌≡◌, Some};

use crate::Addr;

/// The word of an address gives that address again.
pub fn from_word_of_word(addr: Addr) -> Option<Addr>
    ensures { result ≡ Some addr }
{
    Addr::from_word(addr.word())
}
