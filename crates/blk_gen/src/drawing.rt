// What is drawn from a sequence of numbers.
ghost use Rattle.std.specs.Prelude.{◌≡◌, ◌+◌, ◌<◌, ◌≤◌, ◌++◌, length, take};
ghost use Rattle.blk_gen.specs.Draws.{next_value, draw_at, turn_behind, value_behind, generated_key};

use itoa::Buffer;

// A value of the sequence is the one before it times this factor, plus this summand, modulo 2^64.
const FACTOR: u64 = 6_364_136_223_846_793_005;

const MORE: u64 = 1_442_695_040_888_963_407;

// How many lower bits of a value a draw leaves out.
const LEFT_OUT: u32 = 33;

/// A sequence of draws, by the value that it has come to.
#[derive(Clone, Copy, Debug, PartialEq, Eq)]
pub struct Draws {
    pub value: u64,
}

/// What an iteration of the generator works on.
#[derive(Clone, Copy, Debug, PartialEq, Eq)]
pub struct Turn {
    /// The number in its key, below 1000.
    pub key_number: u16,
    /// The stream that it writes and reads, 0 to 2.
    pub stream: u8,
    /// How many bytes it writes, at most 20000.
    pub byte_count: u16,
}

impl Draws {
    /// The sequence of a seed.
    pub fn new(seed: u64) -> Draws
        ensures { result.value ≡ seed }
    {
        Draws { value: seed }
    }

    /// The next draw, a number of 31 bits.
    pub fn draw(&mut self) -> u32
        ensures value { self.new.value ≡ next_value self.old.value }
        ensures drawn { result ≡ draw_at (next_value self.old.value) }
    {
        self.value = self.value.wrapping_mul(FACTOR).wrapping_add(MORE);
        (self.value >> LEFT_OUT) as u32
    }

    /// What the next iteration works on, by three draws.
    pub fn turn(&mut self) -> Turn
        ensures value { self.new.value ≡ value_behind self.old.value }
        ensures drawn { result ≡ turn_behind self.old.value }
        ensures key { result.key_number < 1000 }
        ensures stream { result.stream < 3 }
        ensures few { result.byte_count ≤ 20000 }
    {
        let key_number = (self.draw() % 1000) as u16;
        let stream = (self.draw() % 3) as u8;
        let byte_count = (self.draw() % 20001) as u16;
        Turn {
            key_number,
            stream,
            byte_count,
        }
    }
}

impl Turn {
    /// The key of the iteration, at the start of the buffer: `k`, and its number in decimal.
    pub fn key<'a>(&self, buffer: &'a mut [u8; 4]) -> &'a [u8]
        requires { self.now.key_number < 1000 }
        ensures { result.now ≡ generated_key self.now.key_number }
    {
        let mut numerals = Buffer::new();
        let digits = numerals.format(self.key_number).as_bytes();
        let end = put(buffer, 0, b"k");
        let end = put(buffer, end, digits);
        &buffer[..end]
    }
}

// Puts bytes after what is in front, and gives where they end.
fn put(buffer: &mut [u8], at: usize, bytes: &[u8]) -> usize
    requires { at + length bytes.now ≤ length buffer.old }
    ensures within { result ≡ at + length bytes.now }
    ensures bytes { take result buffer.new ≡ take at buffer.old ++ bytes.now }
    ensures length { length buffer.new ≡ length buffer.old }
{
    let end = at + bytes.len();
    buffer[at..end].copy_from_slice(bytes);
    end
}
