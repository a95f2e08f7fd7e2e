// The head of a sparse index.
ghost use Rattle.std.specs.Prelude.{◌≡◌, ◌<◌, ◌≤◌, ◌↔◌, length, IsSome, IfSome};
ghost use Rattle.spec_image.specs.Bytes.{content};
ghost use Rattle.spec_format.specs.SparseIndex.{last_block_len_of, last_block_of, parent_key_len_of, sparse_signature_of, sparse_head_length, sparse_magic_of, zeros_of};

use crate::words::{long, word};
use std::marker::Model;

/// A view of the head of a sparse index, over a window that has at least 64 bytes.
#[derive(Debug, Drop)]
pub struct SparseHead<'a> {
    window: &'a [u8],
}

impl<'a> Model for SparseHead<'a> {
    ghost use Rattle.std.specs.Prelude.{ℕ, List, ◌≤◌, length};
    ghost use Rattle.spec_format.specs.SparseIndex.{sparse_head_length};

    ghost Value = { List ℕ };

    ghost view = { λ head. head.window.now };

    ghost invariant = { λ head. sparse_head_length ≤ length head.window.now };
}

impl<'a> SparseHead<'a> {
    /// How many bytes are before the bitmap.
    pub const LEN: usize = 64;

    /// The view of a window that has the bytes.
    pub fn new(window: &'a [u8]) -> SparseHead<'a>
        requires { sparse_head_length ≤ length window.now }
        ensures { result ≡ window.now }
    {
        SparseHead { window }
    }

    /// The view of a window, or `None` where it has fewer than 64 bytes.
    pub fn over(window: &'a [u8]) -> Option<SparseHead<'a>>
        ensures enough { IsSome result ↔ (sparse_head_length ≤ length window.now) }
        ensures same { IfSome result (λ head. head ≡ window.now) }
    {
        if window.len() < Self::LEN {
            return None;
        }
        Some(SparseHead::new(window))
    }

    /// The generation, which parts share with their parent.
    pub fn signature(&self) -> i64
        ensures { result ≡ sparse_signature_of (content self.now) }
    {
        long(self.window, 0).cast_signed()
    }

    /// The magic number.
    pub fn magic(&self) -> u32
        ensures { result ≡ sparse_magic_of (content self.now) }
    {
        word(self.window, 8)
    }

    /// The length of the parent's key, in bytes.
    pub fn parent_key_len(&self) -> u32
        ensures { result ≡ parent_key_len_of (content self.now) }
    {
        word(self.window, 12)
    }

    /// The partial block, or -1.
    pub fn last_block(&self) -> i32
        ensures { result ≡ last_block_of (content self.now) }
    {
        word(self.window, 16).cast_signed()
    }

    /// The length of the partial block, in bytes.
    pub fn last_block_len(&self) -> u32
        ensures { result ≡ last_block_len_of (content self.now) }
    {
        word(self.window, 20)
    }

    /// One of 10 words that are to be 0.
    pub fn zeros(&self, i: usize) -> u32
        requires { i < 10 }
        ensures { result ≡ zeros_of (content self.now) i }
    {
        word(self.window, 24 + 4 * i)
    }
}
