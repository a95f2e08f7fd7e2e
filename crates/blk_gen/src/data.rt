// The bytes that an iteration writes.
ghost use Rattle.std.specs.Prelude.{◌≡◌, length};
ghost use Rattle.blk_gen.specs.Draws.{generated_byte, generated_bytes};

/// Fills the bytes with those that the iteration with this number writes, which are counted up from the number, modulo
/// 256.
pub fn fill(number: u32, bytes: &mut [u8])
    ensures { bytes.new ≡ generated_bytes number (length bytes.old) }
{
    for (place, byte) in bytes.iter_mut().enumerate() {
        *byte = byte_at(number, place);
    }
}

// The byte of an iteration at a place.
fn byte_at(number: u32, place: usize) -> u8
    ensures { result ≡ generated_byte number place }
{
    ((number % 256) as u8).wrapping_add((place % 256) as u8)
}
