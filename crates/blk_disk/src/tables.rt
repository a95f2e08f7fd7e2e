// The table of block files in memory.
ghost use Rattle.std.specs.Prelude.{ℕ, ◌≡◌, ◌≢◌, ◌<◌, ◌≤◌, ◌+◌, [], ◌++◌, ◌==◌, length, IsTrue, false, true, slice_index};
ghost use Rattle.std.specs.List.{IsDistinct};
ghost use Rattle.std.proofs.Props.{props};
ghost use Rattle.spec_format.specs.Address.{external};
ghost use Rattle.spec_format.specs.BlockFiles.{is_among, is_block_count, most_files};
ghost use Rattle.blk_addr.specs.Kind.{kind_number};

use arrayvec::ArrayVec;
use blk_addr::{BLOCK_FILES, Kind};

/// The most files of one kind.
pub const MOST_FILES: usize = 60;

// The kinds of the linked files, in the order in which they are loaded.
pub(crate) const KINDS: [Kind; 4] = [Kind::Rankings, Kind::B256, Kind::B1K, Kind::B4K];

/// The linked block files: their numbers, by kind and in the order of the links, and what is
/// known of each.
#[derive(Debug, Drop)]
pub struct BlockFiles {
    rankings: ArrayVec<u8, MOST_FILES>,
    b256: ArrayVec<u8, MOST_FILES>,
    b1k: ArrayVec<u8, MOST_FILES>,
    b4k: ArrayVec<u8, MOST_FILES>,
    // The number of blocks and the length in bytes of each linked file.
    blocks: [u32; BLOCK_FILES],
    lengths: [u64; BLOCK_FILES],
    ghost all_blocks: { length blocks ≡ 256 },
    ghost all_lengths: { length lengths ≡ 256 },
    // No number occurs twice, in one kind or in two.
    ghost once: { IsDistinct (λ m n. m == n) (rankings.items ++ b256.items ++ b1k.items ++ b4k.items) } by { Prim.hlevel props },
    // Each linked file has a number of blocks that files may have.
    ghost counts: { (n : ℕ) → is_among (rankings.items ++ b256.items ++ b1k.items ++ b4k.items) n ≡ true → is_block_count (slice_index blocks n) ≡ true },
}

impl BlockFiles {
    ghost use Rattle.blk_disk.specs.Tables.{all_files, blocks_of, files_of, length_in, Enlarges, HoldsNone, Joins, Resizes};

    // No files.
    pub(crate) fn none() -> BlockFiles
        ensures { HoldsNone result }
    {
        BlockFiles {
            rankings: ArrayVec::new(),
            b256: ArrayVec::new(),
            b1k: ArrayVec::new(),
            b4k: ArrayVec::new(),
            blocks: [0; BLOCK_FILES],
            lengths: [0; BLOCK_FILES],
        }
    }

    /// The numbers of the linked files of a kind, in the order of the links; none of external files.
    #[tactic(auto, unfolding(crate::specs::Tables::files_of))]
    pub fn files(&self, kind: Kind) -> &[u8]
        ensures files { result.now ≡ files_of self.now (kind_number kind) }
        ensures most { length result.now ≤ most_files }
    {
        match kind {
            Kind::External => &[],
            Kind::Rankings => self.rankings.as_slice(),
            Kind::B256 => self.b256.as_slice(),
            Kind::B1K => self.b1k.as_slice(),
            Kind::B4K => self.b4k.as_slice(),
        }
    }

    // Whether a file is linked.
    pub(crate) fn has(&self, file: u8) -> bool
        ensures { result ≡ is_among (all_files self.now) file }
    {
        KINDS.iter().any(|kind| self.has_in(*kind, file))
    }

    // The number of linked files of a kind, as a size.
    pub(crate) fn len(&self, kind: Kind) -> usize
        ensures most { result ≤ most_files }
        ensures len { result ≡ length (files_of self.now (kind_number kind)) }
    {
        self.files(kind).len()
    }

    // The number of blocks of a linked file.
    #[tactic(auto, unfolding(crate::specs::Tables::blocks_of))]
    pub(crate) fn blocks(&self, file: u8) -> u32
        ensures { result ≡ blocks_of self.now file }
    {
        self.blocks[usize::from(file)]
    }

    // The length of a linked file in bytes.
    #[tactic(auto, unfolding(crate::specs::Tables::length_in))]
    pub(crate) fn length(&self, file: u8) -> u64
        ensures { result ≡ length_in self.now file }
    {
        self.lengths[usize::from(file)]
    }

    // Sets the length of a linked file in the table.
    pub(crate) fn set_length(&mut self, file: u8, size: u64)
        ensures { Resizes self.old self.new file size }
    {
        self.lengths[usize::from(file)] = size;
    }

    // Sets the number of blocks and the length of a linked file in the table.
    pub(crate) fn enlarge(&mut self, file: u8, blocks: u32, size: u64)
        requires { IsTrue (is_block_count blocks) }
        ensures { Enlarges self.old self.new file blocks size }
    {
        self.blocks[usize::from(file)] = blocks;
        self.lengths[usize::from(file)] = size;
    }

    // Loads a file, which isn't linked yet, as the last one of its kind.
    pub(crate) fn join(&mut self, kind: Kind, file: u8, blocks: u32, size: u64)
        requires block_kind { kind_number kind ≢ external }
        requires room { length (files_of self.old (kind_number kind)) < most_files }
        requires fresh { is_among (all_files self.old) file ≡ false }
        requires count { IsTrue (is_block_count blocks) }
        ensures { Joins self.old self.new (kind_number kind) file blocks size }
    {
        self.blocks[usize::from(file)] = blocks;
        self.lengths[usize::from(file)] = size;
        match kind {
            Kind::External => unreachable!(),
            Kind::Rankings => self.rankings.push(file),
            Kind::B256 => self.b256.push(file),
            Kind::B1K => self.b1k.push(file),
            Kind::B4K => self.b4k.push(file),
        }
    }
}
