// Addresses as a type: a word that is an address.
ghost use Rattle.std.specs.Prelude.{◌≡◌, ◌≢◌, ◌+◌, ◌*◌, ◌%◌, ◌^◌, ◌<◌, ◌≤◌, ◌==◌, Some, None, IsTrue, if◌then◌else◌};
ghost use Rattle.spec_format.specs.Address.{is_address, kind_of, first_block, block_count, file_selector, external_number, external, rankings, block_word, external_word};
ghost use Rattle.blk_addr.specs.Kind.{kind_number};
ghost use Rattle.blk_addr.specs.FileId.{file_of_word};

use crate::fields;
use crate::file_id::FileId;
use crate::kinds::Kind;
use std::marker::Model;

/// The address of blocks in a block file, or of an external file. In clauses it is its word.
#[derive(Clone, Copy, PartialEq, Eq, Debug)]
pub struct Addr {
    word: u32,
}

impl Model for Addr {
    ghost use Rattle.std.specs.Prelude.{ℕ, IsTrue};
    ghost use Rattle.spec_format.specs.Address.{is_address};

    ghost Value = { ℕ };

    ghost view = { λ a. a.word };

    ghost invariant = { λ a. IsTrue (is_address a.word) };

    ghost inverse = { λ w. record { word = w } };
}

impl Addr {
    /// The address that the word is, if it is one.
    pub fn from_word(word: u32) -> Option<Addr>
        ensures { result ≡ (if is_address word then Some word else None) }
    {
        if fields::is_address(word) {
            Some(Addr { word })
        } else {
            None
        }
    }

    /// The address of so many blocks of a file, from a first one on. They lie in one group of four.
    pub fn of_blocks(kind: Kind, file: u8, start: u32, count: u32) -> Addr
        requires blocks { kind_number kind ≢ external }
        requires some { 0 < count }
        requires group { start % 4 + count ≤ 4 }
        requires small { start < 65536 }
        requires node { kind_number kind ≡ rankings → count ≡ 1 }
        ensures { result ≡ block_word (kind_number kind) file start count }
    {
        Addr {
            word: fields::block_word(kind.number(), file, start, count),
        }
    }

    /// The address of the external file of a number.
    pub fn of_external(number: u32) -> Addr
        requires some { 0 < number }
        requires small { number < 2 ^ 28 }
        ensures { result ≡ external_word number }
    {
        Addr {
            word: fields::external_word(number),
        }
    }

    /// The word, which `from_word` takes for this address.
    pub fn word(self) -> u32
        ensures word { result ≡ self }
        ensures address { IsTrue (is_address result) }
    {
        self.word
    }

    /// What the address names.
    #[tactic(auto, using(crate::proofs::AddressFields::kind_of_address))]
    pub fn kind(self) -> Kind
        ensures { kind_number result ≡ kind_of self }
    {
        match fields::kind_number(self.word) {
            fields::EXTERNAL => Kind::External,
            fields::RANKINGS => Kind::Rankings,
            fields::BLOCKS_256 => Kind::B256,
            fields::BLOCKS_1K => Kind::B1K,
            _ => Kind::B4K,
        }
    }

    /// The file in which the blocks are, or the external file.
    #[tactic(auto, unfolding(crate::specs::FileId::file_of_word))]
    pub fn file(self) -> FileId
        ensures { result ≡ file_of_word self }
    {
        if self.is_external() {
            FileId::External(self.external_number())
        } else {
            FileId::Block(self.file_selector())
        }
    }

    /// The number of the first block; 0 of an external address.
    pub fn start(self) -> u32
        ensures { result ≡ (if kind_of self == external then 0 else first_block self) }
    {
        if self.is_external() {
            0
        } else {
            fields::first_block(self.word)
        }
    }

    /// The number of blocks, 1 to 4; 0 of an external address.
    pub fn blocks(self) -> u32
        ensures { result ≡ (if kind_of self == external then 0 else block_count self) }
    {
        if self.is_external() {
            0
        } else {
            fields::block_count(self.word)
        }
    }

    pub(crate) fn is_external(self) -> bool
        ensures test { result ≡ (kind_of self == external) }
        ensures address { IsTrue (is_address self) }
    {
        fields::kind_number(self.word) == fields::EXTERNAL
    }

    pub(crate) fn external_number(self) -> u32
        ensures { result ≡ external_number self }
    {
        fields::external_number(self.word)
    }

    // The number of the first block, where block b of file f is the number f * 65536 + b.
    #[tactic(auto, using(crate::proofs::AddressFields::blocks_of_address, crate::proofs::AddressFields::file_selector_small))]
    pub(crate) fn first_number(self) -> u32
        requires { kind_of self ≢ external }
        ensures number { result ≡ file_selector self * 65536 + first_block self }
        ensures inside { result + block_count self ≤ (file_selector self + 1) * 65536 }
        ensures most { result + block_count self ≤ 2 ^ 24 }
    {
        let file = fields::file_selector(self.word);
        file as u32 * fields::BLOCKS_OF_FILE + fields::first_block(self.word)
    }

    pub(crate) fn file_selector(self) -> u8
        ensures { result ≡ file_selector self }
    {
        fields::file_selector(self.word)
    }
}
