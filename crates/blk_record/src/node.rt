// Views of rankings nodes.
ghost use Rattle.std.specs.Prelude.{◌≡◌, ◌≤◌, ◌↔◌, length, IsSome, IfSome};
ghost use Rattle.spec_format.specs.Records.{node_size, node_seal_place};

use crate::record::{Record, RecordMut};
use crate::seals::{is_sealed, put_seal};
use crate::words::{put_word, word};

// The number of the record's bytes, and the place of its checksum.
const SIZE: usize = 36;

const SEAL: usize = 32;

/// A view of a rankings node, over a window that has at least its 36 bytes.
#[derive(Debug, Drop)]
pub struct NodeView<'a> {
    window: &'a [u8],
    ghost enough: { node_size ≤ length window.now },
}

impl<'a> NodeView<'a> {
    ghost use Rattle.blk_record.specs.Views.{node_window};

    /// The place of the moment of the last use, which takes two words.
    pub const LAST_USED: u32 = 0;

    /// The place of the moment of the last change, which takes two words.
    pub const LAST_MODIFIED: u32 = 8;

    /// The place of the address of the next node of the LRU list.
    pub const NEXT: u32 = 16;

    /// The place of the address of the node before.
    pub const PREV: u32 = 20;

    /// The place of the address of the node's record.
    pub const CONTENTS: u32 = 24;

    /// The place of the dirty flag: 0, or the number of the session that made the object dirty.
    pub const DIRTY: u32 = 28;

    /// The view of a window that has the bytes.
    pub fn new(window: &'a [u8]) -> NodeView<'a>
        requires { node_size ≤ length window.now }
        ensures { node_window result ≡ window.now }
    {
        NodeView { window }
    }

    /// The view of a window, or `None` where it has fewer than 36 bytes.
    pub fn over(window: &'a [u8]) -> Option<NodeView<'a>>
        ensures enough { IsSome result ↔ (node_size ≤ length window.now) }
        ensures same { IfSome result (λ view. node_window view ≡ window.now) }
    {
        if window.len() < SIZE {
            return None;
        }
        Some(NodeView::new(window))
    }
}

impl<'a> Record for NodeView<'a> {
    ghost use Rattle.blk_record.specs.Views.{node_window};

    ghost size = { node_size };

    ghost seal_place = { node_seal_place };

    ghost window_of = { node_window };

    const SIZE: usize = SIZE;

    const SEAL: usize = SEAL;

    fn bytes(&self) -> &[u8] {
        &self.window[..SIZE]
    }

    fn word(&self, at: usize) -> u32 {
        word(self.window, at)
    }

    fn checks(&self) -> bool {
        is_sealed(self.window, SEAL)
    }
}

/// A view of a rankings node that is written, over a window that has at least its 36 bytes.
#[derive(Debug, Drop)]
pub struct NodeMut<'a> {
    window: &'a mut [u8],
    ghost enough: { node_size ≤ length window.now },
}

impl<'a> NodeMut<'a> {
    ghost use Rattle.blk_record.specs.Views.{node_mut_window, node_mut_reference};

    /// The view of a window that has the bytes.
    pub fn new(window: &'a mut [u8]) -> NodeMut<'a>
        requires { node_size ≤ length window.old }
        ensures same { node_mut_window result ≡ window.old }
        ensures same_reference { node_mut_reference result ≡ window.entry.ghost_name }
    {
        NodeMut { window }
    }

    /// The view of a window, or `None` where it has fewer than 36 bytes.
    pub fn over(window: &'a mut [u8]) -> Option<NodeMut<'a>>
        ensures enough { IsSome result ↔ (node_size ≤ length window.old) }
        ensures same { IfSome result (λ view. node_mut_window view ≡ window.old) }
        ensures same_reference { IfSome result (λ view. node_mut_reference view ≡ window.entry.ghost_name) }
    {
        if window.len() < SIZE {
            return None;
        }
        Some(NodeMut::new(window))
    }
}

impl<'a> Record for NodeMut<'a> {
    ghost use Rattle.blk_record.specs.Views.{node_mut_window};

    ghost size = { node_size };

    ghost seal_place = { node_seal_place };

    ghost window_of = { node_mut_window };

    const SIZE: usize = SIZE;

    const SEAL: usize = SEAL;

    fn bytes(&self) -> &[u8] {
        &self.window[..SIZE]
    }

    fn word(&self, at: usize) -> u32 {
        word(self.window, at)
    }

    fn checks(&self) -> bool {
        is_sealed(self.window, SEAL)
    }
}

impl<'a> RecordMut for NodeMut<'a> {
    ghost use Rattle.std.proofs.Common.{refl};
    ghost use Rattle.blk_record.specs.Views.{node_mut_reference, node_mut_with};

    ghost reference = { node_mut_reference };

    ghost with_bytes = { node_mut_with };

    fn set_word(&mut self, at: usize, value: u32) {
        put_word(self.window, at, value);
    }

    fn unseal(&mut self) {
        put_word(self.window, SEAL, 0);
    }

    fn seal(&mut self) {
        put_seal(self.window, SEAL);
    }

    fn field_mut(&mut self, at: usize) -> &mut [u8] {
        &mut self.window[at..at + 4]
    }

    ghost window_with = { λ view at bytes. refl };

    ghost reference_with = { λ view at bytes. refl };
}
