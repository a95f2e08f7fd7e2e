// Valid addresses in the linked block files.
ghost use Rattle.std.specs.Prelude.{IfSome, IsTrue, ◌≡◌, ◌≢◌, ◌+◌, ◌*◌, ◌^◌, ◌<◌, ◌==◌, Some, None, length, slice_get, if◌then◌else◌};
ghost use Rattle.std.specs.Option.{option_map};
ghost use Rattle.spec_image.specs.Image.{Image};
ghost use Rattle.spec_format.specs.Address as address;
ghost use Rattle.spec_format.specs.Address.{blocks_256, external, file_selector, kind_of, place, byte_size, rankings};
ghost use Rattle.spec_format.specs.BlockFiles.{is_among, stands_in_blocks, kind_among};
ghost use Rattle.spec_format.specs.Standing as standing;
ghost use Rattle.blk_addr.specs.Kind.{kind_number};
ghost use Rattle.blk_disk.specs.Tables.{Agrees, all_files, blocks_of, files_of, is_node_among, is_record_among, names_among, stands_among};

use crate::heads::block_size;
use crate::tables::{BlockFiles, KINDS};
use blk_addr::{Addr, FileId, Kind};
use blk_record::BlockHead;

// The byte at which the blocks of an address begin.
pub(crate) fn place_of(addr: Addr) -> u64
    requires { kind_of addr ≢ external }
    ensures place { result ≡ place addr }
    ensures small { result < 2 ^ 32 }
{
    BlockHead::HEADER_LEN + u64::from(addr.start()) * u64::from(block_size(addr.kind()))
}

/// The number of bytes of the blocks of an address.
pub fn room_of(addr: Addr) -> u64
    requires { kind_of addr ≢ external }
    ensures room { result ≡ byte_size addr }
    ensures small { result < 2 ^ 32 }
{
    u64::from(addr.blocks()) * u64::from(block_size(addr.kind()))
}

impl BlockFiles {
    /// The number of linked files of a kind; 0 of external files.
    pub fn count(&self, kind: Kind) -> u8
        ensures { result ≡ length (files_of self.now (kind_number kind)) }
    {
        self.len(kind) as u8
    }

    /// One of the linked files of a kind, in the order of the links, counted from 0.
    pub fn file_at(&self, kind: Kind, i: u8) -> Option<u8>
        ensures { result ≡ slice_get (files_of self.now (kind_number kind)) i }
    {
        self.files(kind).get(usize::from(i)).copied()
    }

    /// The number of blocks of a file, where it is linked.
    pub fn max_entries(&self, file: u8) -> Option<u32>
        ensures { result ≡ (if is_among (all_files self.now) file then Some (blocks_of self.now file) else None) }
    {
        if self.has(file) {
            Some(self.blocks(file))
        } else {
            None
        }
    }

    /// Whether an address is one of blocks that are there: their file is linked and of the kind,
    /// and all are below its number of blocks and end inside it.
    pub fn stands(&self, addr: Addr) -> bool
        ensures among { result ≡ stands_among self.now addr }
        ensures block_kind { IsTrue result → kind_of addr ≢ external }
        ensures in_folder { (image : Image) → Agrees self.now image → result ≡ stands_in_blocks image addr }
    {
        let FileId::Block(file) = addr.file() else {
            return false;
        };
        self.stands_in(file, addr)
    }

    /// The node that a word names, where the word is the address of one and its block is there.
    pub fn node(&self, word: u32) -> Option<Addr>
        ensures node { result ≡ (if is_node_among self.now word then Some word else None) }
        ensures kind { IfSome result (λ addr. kind_of addr ≡ rankings) }
        ensures stands { IfSome result (λ addr. IsTrue (stands_among self.now addr)) }
    {
        self.named(word, Kind::Rankings)
    }

    /// The entry record that a word names, where the word is the address of one and its blocks are there.
    pub fn entry(&self, word: u32) -> Option<Addr>
        ensures entry { result ≡ (if is_record_among self.now word then Some word else None) }
        ensures kind { IfSome result (λ addr. kind_of addr ≡ blocks_256) }
        ensures stands { IfSome result (λ addr. IsTrue (stands_among self.now addr)) }
    {
        self.named(word, Kind::B256)
    }

    // The address of blocks of a kind that a word names, where they are there.
    #[tactic(auto, unfolding(crate::specs::Tables::names_among))]
    fn named(&self, word: u32, kind: Kind) -> Option<Addr>
        ensures named { result ≡ (if names_among self.now (kind_number kind) word then Some word else None) }
        ensures kind { IfSome result (λ addr. kind_of addr ≡ kind_number kind) }
        ensures stands { IfSome result (λ addr. IsTrue (stands_among self.now addr)) }
    {
        let Some(addr) = Addr::from_word(word) else {
            return None;
        };
        if addr.kind() == kind && self.stands(addr) {
            Some(addr)
        } else {
            None
        }
    }

    // Whether the blocks of an address are in its file.
    #[tactic(auto, unfolding(spec_format::specs::Standing::stands_as_blocks))]
    fn stands_in(&self, file: u8, addr: Addr) -> bool
        requires blocks { kind_of addr ≢ external }
        requires file { file ≡ file_selector addr }
        ensures { result ≡ stands_among self.now addr }
    {
        let linked = self.is_linked_as(file, addr.kind());
        let below = addr.start() + addr.blocks() <= self.blocks(file);
        let inside = place_of(addr) + room_of(addr) <= self.length(file);
        linked && below && inside
    }

    // Whether a file is linked as one of a kind.
    fn is_linked_as(&self, file: u8, kind: Kind) -> bool
        ensures { result ≡ standing.is_linked_as (kind_among (files_of self.now) file) (kind_number kind) }
    {
        match self.linked_as(file) {
            Some(linked) => linked == kind,
            None => false,
        }
    }

    // The kind as which a file is linked.
    pub(crate) fn linked_as(&self, file: u8) -> Option<Kind>
        ensures block_kind { IfSome result (λ kind. kind_number kind ≢ external) }
        ensures kind { option_map kind_number result ≡ kind_among (files_of self.now) file }
    {
        let found = KINDS.iter().find(|kind| self.has_in(**kind, file));
        found.copied()
    }

    // Whether a file is among those of a kind.
    pub(crate) fn has_in(&self, kind: Kind, file: u8) -> bool
        ensures { result ≡ is_among (files_of self.now (kind_number kind)) file }
    {
        self.files(kind).contains(&file)
    }
}
