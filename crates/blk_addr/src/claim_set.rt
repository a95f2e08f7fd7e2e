// Used blocks: the blocks and external files that have an owner.
ghost use Rattle.std.specs.Prelude.{◌≡◌, ◌≢◌, ℕ, ◌+◌, ◌*◌, ◌≤◌, ◌++◌, ◌&&◌, ◌==◌, List, [], ◌∷◌, true, false, not, slice_index, vec_len, count_by, IsTrue, IfOk, OnOk, OnErr, if◌then◌else◌};
ghost use Rattle.std.specs.BTreeSet.{contains};
ghost use Rattle.std.specs.Ordering.{nat_cmp};
ghost use Rattle.spec_format.specs.Address.{is_address, kind_of, external, external_number, file_selector};
ghost use Rattle.spec_format.specs.Claims.{BlockOf, claims_of, claims_of_all, has_claim, overlap, is_in_file};
ghost use Rattle.blk_addr.specs.Bits.{bits_of_files};

use crate::bitmap::Bitmap;
use crate::no_memory::NoMemory;
use crate::{Addr, fields};
use std::alloc::Global;
use std::collections::BTreeSet;

/// How many block files words can name: `data_0` to `data_255`.
pub const BLOCK_FILES: usize = 256;

/// The blocks and external numbers of added addresses, no two of which share one, with the number
/// of addresses of each block file. The blocks take 2 MiB at most.
#[derive(Drop)]
pub struct Claims {
    // block b of file f is the number f * 65536 + b
    blocks: Bitmap,
    externals: BTreeSet<u32>,
    allocations: [u32; BLOCK_FILES],
    // each count is at most the number of used blocks
    ghost counted: { (file : ℕ) → slice_index allocations file ≤ bits_of_files blocks.bytes.items },
}

impl Claims {
    ghost use Rattle.blk_addr.specs.Claims.{IsClaimsOf, IsUnchanged, Adds, is_claimed, contains_claim, allocations_in, is_added};

    /// No used blocks.
    pub fn new(alloc: Global) -> Claims
        ensures { IsClaimsOf result [] }
    {
        Claims {
            blocks: Bitmap::new(alloc),
            externals: BTreeSet::new(alloc),
            allocations: no_allocations(),
        }
    }

    /// Whether a block or the number of the address is used.
    pub fn has(&self, addr: Addr) -> bool
        ensures test { result ≡ is_claimed self.now addr }
        ensures listed { (words : List ℕ) → IsClaimsOf self.now words → result ≡ overlap (claims_of_all words) (claims_of addr) }
    {
        if addr.is_external() {
            self.externals.contains(&addr.external_number())
        } else {
            self.blocks.has_any(addr.first_number(), addr.blocks())
        }
    }

    /// Whether a block of a block file is used. No address names a block from 65536 on.
    pub fn has_block(&self, file: u8, block: u32) -> bool
        ensures test { result ≡ contains_claim self.now (BlockOf file block) }
        ensures listed { (words : List ℕ) → IsClaimsOf self.now words → result ≡ has_claim (claims_of_all words) (BlockOf file block) }
    {
        block < fields::BLOCKS_OF_FILE
            && self
                .blocks
                .has(u32::from(file) * fields::BLOCKS_OF_FILE + block)
    }

    /// Adds the address and its used blocks, unless one of these is there: then nothing changes. Gives whether it was
    /// added.
    pub fn add(&mut self, addr: Addr) -> Result<bool, NoMemory>
        ensures told { IfOk result (λ added. added ≡ not (is_claimed self.old addr)) }
        ensures added { result ≡ Ok true → Adds self.old self.new addr }
        ensures kept { result ≡ Ok false → self.new ≡ self.old }

        // Only a new address takes memory.
        ensures failed { OnErr result (IsUnchanged self.old self.new) }
        ensures free { OnErr result (is_claimed self.old addr ≡ false) }

        // An added address joins the list of added addresses.
        ensures listed { (words : List ℕ) → IsClaimsOf self.old words → IsClaimsOf self.new (words ++ (if is_added result then addr ∷ [] else [])) }
    {
        if self.has(addr) {
            return Ok(false);
        }
        if addr.is_external() {
            self.add_external(addr)?;
        } else {
            self.add_blocks(addr)?;
        }
        Ok(true)
    }

    /// The number of added addresses of a block file.
    pub fn allocations(&self, file: u8) -> u32
        ensures count { result ≡ allocations_in self.now file }
        ensures listed { (words : List ℕ) → IsClaimsOf self.now words → result ≡ count_by (is_in_file file) words }
    {
        self.allocations[file as usize]
    }

    // Adds an external number.
    pub(crate) fn add_external(&mut self, addr: Addr) -> Result<(), NoMemory>
        requires address { IsTrue (is_address addr) }
        requires kind { kind_of addr ≡ external }
        ensures ok { OnOk result (Adds self.old self.new addr) }
        ensures err { OnErr result (IsUnchanged self.old self.new) }
        ensures blocks { self.new.blocks ≡ self.old.blocks }
    {
        self.externals.insert(addr.external_number())?;
        Ok(())
    }

    // Takes an external number away, which counts as an address of no block file.
    pub(crate) fn remove_external(&mut self, addr: Addr)
        requires kind { kind_of addr ≡ external }
        ensures numbers { (m : ℕ) → contains nat_cmp self.new.externals m ≡ (contains nat_cmp self.old.externals m && not (m == external_number addr)) }
        ensures blocks { self.new.blocks ≡ self.old.blocks }
        ensures counts { self.new.allocations ≡ self.old.allocations }
    {
        self.externals.remove(&addr.external_number());
    }

    // Adds the blocks of an address.
    fn add_blocks(&mut self, addr: Addr) -> Result<(), NoMemory>
        requires address { IsTrue (is_address addr) }
        requires kind { kind_of addr ≢ external }
        requires absent { is_claimed self.old addr ≡ false }
        ensures ok { OnOk result (Adds self.old self.new addr) }
        ensures err { OnErr result (IsUnchanged self.old self.new) }
    {
        self.reserve_blocks(addr)?;
        self.insert_blocks(addr);
        Ok(())
    }

    // Makes space for the blocks of the file of an address.
    pub(crate) fn reserve_blocks(&mut self, addr: Addr) -> Result<(), NoMemory>
        ensures same { IsUnchanged self.old self.new }
        ensures room { OnOk result (file_selector addr * 65536 + 65536 ≤ 8 * vec_len self.new.blocks.bytes) }
        ensures longer { vec_len self.old.blocks.bytes ≤ vec_len self.new.blocks.bytes }
    {
        let file = addr.file_selector();
        self.blocks
            .reserve((file as u32 + 1) * fields::BLOCKS_OF_FILE)?;
        Ok(())
    }

    // Adds an address of blocks, for which there is space.
    pub(crate) fn insert_blocks(&mut self, addr: Addr)
        requires address { IsTrue (is_address addr) }
        requires kind { kind_of addr ≢ external }
        requires absent { is_claimed self.old addr ≡ false }
        requires room { file_selector addr * 65536 + 65536 ≤ 8 * vec_len self.old.blocks.bytes }
        ensures added { Adds self.old self.new addr }
        ensures longer { vec_len self.old.blocks.bytes ≤ vec_len self.new.blocks.bytes }
    {
        let file = addr.file_selector();
        self.blocks.insert_all(addr.first_number(), addr.blocks());
        self.allocations[file as usize] += 1;
    }
}

// No allocations in each file.
fn no_allocations() -> [u32; BLOCK_FILES]
    ensures { (file : ℕ) → slice_index result file ≡ 0 }
{
    [0; BLOCK_FILES]
}
