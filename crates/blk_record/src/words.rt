// The little endian numbers in a window of bytes.
ghost use Rattle.std.specs.Prelude.{◌≡◌, ◌+◌, ◌≤◌, length};
ghost use Rattle.spec_image.specs.Bytes.{content, half_at, long_at, word_at};
ghost use Rattle.spec_image.specs.Steps.{with_word};

use byteorder::{ByteOrder, LittleEndian};

/// How many values a word has: a time of two words is its low word and so many times its high word.
pub const WORD_VALUES: u64 = 0x1_0000_0000;

// The number of the two bytes from a place on.
pub(crate) fn half(window: &[u8], at: usize) -> u16
    requires { at + 2 ≤ length window.now }
    ensures { result ≡ half_at (content window.now) at }
{
    LittleEndian::read_u16(&window[at..])
}

// The number of the four bytes from a place on.
pub(crate) fn word(window: &[u8], at: usize) -> u32
    requires { at + 4 ≤ length window.now }
    ensures { result ≡ word_at (content window.now) at }
{
    LittleEndian::read_u32(&window[at..])
}

// The number of the eight bytes from a place on.
pub(crate) fn long(window: &[u8], at: usize) -> u64
    requires { at + 8 ≤ length window.now }
    ensures { result ≡ long_at (content window.now) at }
{
    LittleEndian::read_u64(&window[at..])
}

// Writes a word at a place.
pub(crate) fn put_word(window: &mut [u8], at: usize, value: u32)
    requires { at + 4 ≤ length window.old }
    ensures { window.new ≡ with_word at value window.old }
{
    LittleEndian::write_u32(&mut window[at..], value);
}
