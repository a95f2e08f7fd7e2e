// The checksums of records.
ghost use Rattle.std.specs.Prelude.{◌≡◌, ◌+◌, ◌≤◌, length};
ghost use Rattle.spec_image.specs.Steps.{with_word};
ghost use Rattle.spec_format.specs.Records.{checks, seal_of};

use crate::hash::super_fast_hash;
use crate::words::{put_word, word};

// Whether the word at a place is 0 or the hash of the bytes before it.
pub(crate) fn is_sealed(window: &[u8], at: usize) -> bool
    requires { at + 4 ≤ length window.now }
    ensures { result ≡ checks at window.now }
{
    let seal = word(window, at);
    seal == 0 || seal == super_fast_hash(&window[..at])
}

// Writes the hash of the bytes before a place there.
pub(crate) fn put_seal(window: &mut [u8], at: usize)
    requires { at + 4 ≤ length window.old }
    ensures { window.new ≡ with_word at (seal_of at window.old) window.old }
{
    let seal = super_fast_hash(&window[..at]);
    put_word(window, at, seal);
}
