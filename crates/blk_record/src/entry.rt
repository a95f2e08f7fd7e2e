// Views of entry records.
ghost use Rattle.std.specs.Prelude.{◌≡◌, ◌≤◌, ◌↔◌, length, IsSome, IfSome};
ghost use Rattle.spec_format.specs.Records.{entry_size, entry_seal_place};

use crate::record::{Record, RecordMut};
use crate::seals::{is_sealed, put_seal};
use crate::words::{put_word, word};

// The number of the record's bytes, and the place of its checksum.
const SIZE: usize = 96;

const SEAL: usize = 92;

/// A view of an entry record, over a window that has at least its 96 bytes.
#[derive(Debug, Drop)]
pub struct EntryView<'a> {
    window: &'a [u8],
    ghost enough: { entry_size ≤ length window.now },
}

impl<'a> EntryView<'a> {
    ghost use Rattle.blk_record.specs.Views.{entry_window};

    /// The place of the hash of the key.
    pub const HASH: u32 = 0;

    /// The place of the address of the next record of the chain.
    pub const NEXT: u32 = 4;

    /// The place of the address of the rankings node.
    pub const NODE: u32 = 8;

    /// The place of the state.
    pub const STATE: u32 = 20;

    /// The place of the creation time.
    pub const CREATION_TIME: u32 = 24;

    /// The place of the key's length.
    pub const KEY_LEN: u32 = 32;

    /// The place of the address of a key that lies elsewhere.
    pub const LONG_KEY: u32 = 36;

    /// The place of the first of the 4 lengths of the streams.
    pub const DATA_SIZE: u32 = 40;

    /// The place of the first of the 4 addresses of the streams.
    pub const DATA_ADDR: u32 = 56;

    /// The place of the flags.
    pub const FLAGS: u32 = 72;

    /// The view of a window that has the bytes.
    pub fn new(window: &'a [u8]) -> EntryView<'a>
        requires { entry_size ≤ length window.now }
        ensures { entry_window result ≡ window.now }
    {
        EntryView { window }
    }

    /// The view of a window, or `None` where it has fewer than 96 bytes.
    pub fn over(window: &'a [u8]) -> Option<EntryView<'a>>
        ensures enough { IsSome result ↔ (entry_size ≤ length window.now) }
        ensures same { IfSome result (λ view. entry_window view ≡ window.now) }
    {
        if window.len() < SIZE {
            return None;
        }
        Some(EntryView::new(window))
    }
}

impl<'a> Record for EntryView<'a> {
    ghost use Rattle.blk_record.specs.Views.{entry_window};

    ghost size = { entry_size };

    ghost seal_place = { entry_seal_place };

    ghost window_of = { entry_window };

    const SIZE: usize = SIZE;

    const SEAL: usize = SEAL;

    fn bytes(&self) -> &[u8] {
        &self.window[..SIZE]
    }

    fn word(&self, at: usize) -> u32 {
        word(self.window, at)
    }

    fn checks(&self) -> bool {
        is_sealed(self.window, SEAL)
    }
}

/// A view of an entry record that is written, over a window that has at least its 96 bytes.
#[derive(Debug, Drop)]
pub struct EntryMut<'a> {
    window: &'a mut [u8],
    ghost enough: { entry_size ≤ length window.now },
}

impl<'a> EntryMut<'a> {
    ghost use Rattle.blk_record.specs.Views.{entry_mut_window, entry_mut_reference};

    /// The view of a window that has the bytes.
    pub fn new(window: &'a mut [u8]) -> EntryMut<'a>
        requires { entry_size ≤ length window.old }
        ensures same { entry_mut_window result ≡ window.old }
        ensures same_reference { entry_mut_reference result ≡ window.entry.ghost_name }
    {
        EntryMut { window }
    }

    /// The view of a window, or `None` where it has fewer than 96 bytes.
    pub fn over(window: &'a mut [u8]) -> Option<EntryMut<'a>>
        ensures enough { IsSome result ↔ (entry_size ≤ length window.old) }
        ensures same { IfSome result (λ view. entry_mut_window view ≡ window.old) }
        ensures same_reference { IfSome result (λ view. entry_mut_reference view ≡ window.entry.ghost_name) }
    {
        if window.len() < SIZE {
            return None;
        }
        Some(EntryMut::new(window))
    }
}

impl<'a> Record for EntryMut<'a> {
    ghost use Rattle.blk_record.specs.Views.{entry_mut_window};

    ghost size = { entry_size };

    ghost seal_place = { entry_seal_place };

    ghost window_of = { entry_mut_window };

    const SIZE: usize = SIZE;

    const SEAL: usize = SEAL;

    fn bytes(&self) -> &[u8] {
        &self.window[..SIZE]
    }

    fn word(&self, at: usize) -> u32 {
        word(self.window, at)
    }

    fn checks(&self) -> bool {
        is_sealed(self.window, SEAL)
    }
}

impl<'a> RecordMut for EntryMut<'a> {
    ghost use Rattle.std.proofs.Common.{refl};
    ghost use Rattle.blk_record.specs.Views.{entry_mut_reference, entry_mut_with};

    ghost reference = { entry_mut_reference };

    ghost with_bytes = { entry_mut_with };

    fn set_word(&mut self, at: usize, value: u32) {
        put_word(self.window, at, value);
    }

    fn unseal(&mut self) {
        put_word(self.window, SEAL, 0);
    }

    fn seal(&mut self) {
        put_seal(self.window, SEAL);
    }

    fn field_mut(&mut self, at: usize) -> &mut [u8] {
        &mut self.window[at..at + 4]
    }

    ghost window_with = { λ view at bytes. refl };

    ghost reference_with = { λ view at bytes. refl };
}
