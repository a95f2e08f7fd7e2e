// The hash of keys and records.
ghost use Rattle.std.specs.Prelude.{◌≡◌, ◌≤◌, length, slice_index};
ghost use Rattle.spec_format.specs.Hash.{half, hash as hash_of, mixed, of_bytes, of_four, of_one, of_three, of_two, signed};

/// The hash of a key, or of a record's bytes before its checksum.
pub fn super_fast_hash(bytes: &[u8]) -> u32
    ensures { result ≡ hash_of bytes.now }
{
    if bytes.is_empty() {
        return 0;
    }
    let mut hash = (bytes.len() & 0xFFFF_FFFF) as u32;
    let mut rest = bytes;
    while let [a, b, c, d, more @ ..] = rest {
        hash = mix_four(hash, [*a, *b, *c, *d]);
        rest = more;
    }
    mix_last(mix_rest(hash, rest))
}

// The little endian number of two bytes.
fn number(low: u8, high: u8) -> u32
    ensures { result ≡ half low high }
{
    u32::from(u16::from_le_bytes([low, high]))
}

// A byte as a number from -128 to 127, in a word.
fn signed_byte(byte: u8) -> u32
    ensures { result ≡ signed byte }
{
    if byte < 128 {
        u32::from(byte)
    } else {
        u32::from(byte).wrapping_sub(256)
    }
}

fn mix_four(hash: u32, group: [u8; 4]) -> u32
    ensures { result ≡ of_four hash (slice_index group 0) (slice_index group 1) (slice_index group 2) (slice_index group 3) }
{
    let sum = hash.wrapping_add(number(group[0], group[1]));
    let shifted = (number(group[2], group[3]) << 11) ^ sum;
    let hash = (sum << 16) ^ shifted;
    hash.wrapping_add(hash >> 11)
}

// Up to three bytes after the groups of four.
fn mix_rest(hash: u32, rest: &[u8]) -> u32
    requires { length rest.now ≤ 3 }
    ensures { result ≡ of_bytes hash rest.now }
{
    match rest {
        [a, b, c] => mix_three(hash, *a, *b, *c),
        [a, b] => mix_two(hash, *a, *b),
        [a] => mix_one(hash, *a),
        _ => hash,
    }
}

fn mix_three(hash: u32, a: u8, b: u8, c: u8) -> u32
    ensures { result ≡ of_three hash a b c }
{
    let sum = hash.wrapping_add(number(a, b));
    let hash = (sum ^ (sum << 16)) ^ (signed_byte(c) << 18);
    hash.wrapping_add(hash >> 11)
}

fn mix_two(hash: u32, a: u8, b: u8) -> u32
    ensures { result ≡ of_two hash a b }
{
    let sum = hash.wrapping_add(number(a, b));
    let hash = sum ^ (sum << 11);
    hash.wrapping_add(hash >> 17)
}

fn mix_one(hash: u32, a: u8) -> u32
    ensures { result ≡ of_one hash a }
{
    let sum = hash.wrapping_add(signed_byte(a));
    let hash = sum ^ (sum << 10);
    hash.wrapping_add(hash >> 1)
}

// The mixing after all bytes.
fn mix_last(hash: u32) -> u32
    ensures { result ≡ mixed hash }
{
    let hash = hash ^ (hash << 3);
    let hash = hash.wrapping_add(hash >> 5);
    let hash = hash ^ (hash << 4);
    let hash = hash.wrapping_add(hash >> 17);
    let hash = hash ^ (hash << 25);
    hash.wrapping_add(hash >> 6)
}
