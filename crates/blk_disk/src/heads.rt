// The headers of block files, read and checked.
ghost use Rattle.std.specs.Prelude.{◌≡◌, ◌≢◌, ◌+◌, ◌-◌, ◌<◌, ◌≤◌, ◌∷◌, ◌++◌, [], length, IfOk, IsTrue, Some};
ghost use Rattle.std.specs.Option.{ForSome, option_map};
ghost use Rattle.spec_image.specs.Bytes.{content, word_at};
ghost use Rattle.spec_image.specs.Checks.{first_of};
ghost use Rattle.spec_image.specs.Told.{ReadsOnly};
ghost use Rattle.spec_format.specs.Address as address;
ghost use Rattle.spec_format.specs.Address.{external};
ghost use Rattle.spec_format.specs.BlockFiles as block_files;
ghost use Rattle.blk_addr.specs.Kind.{kind_number};
ghost use Rattle.blk_io.specs.Faults.{IfDamaged, IfDevice, damage_of};
ghost use Rattle.blk_disk.specs.Tables.{all_files, files_of};
ghost use Rattle.blk_disk.specs.Loading.{HasRoom, IsFresh, IsHeaderDamage, AnswersFileHeader, MayBeNext, AnswersNextHead, files_left, header_checks, next_of, IsHeaderFault, first_header_damage};

use crate::tables::{BlockFiles, MOST_FILES};
use blk_addr::Kind;
use blk_io::{Damage, Fault, FileId, Folder, check, check_is, first_failed};
use blk_record::BlockHead;

// The numbers that a link may have.
const FIRST_LINK: u16 = 4;

const LAST_LINK: u16 = 255;

// A file grows by so many blocks, but for the last time.
pub(crate) const GROWTH: u32 = 1024;

const MOST_WHOLE_BLOCKS: u32 = 64512;

// What the header of a block file says, and the length of the file.
#[derive(Clone, Copy, Debug)]
pub struct Head {
    pub next: Option<u8>,
    pub blocks: u32,
    pub size: u64,
}

// How many bytes a block of a kind has.
#[tactic(auto, unfolding(spec_format::specs::Address::block_size))]
pub(crate) fn block_size(kind: Kind) -> u32
    requires { kind_number kind ≢ external }
    ensures size { result ≡ address.block_size (kind_number kind) }
    ensures most { result ≤ 4096 }
{
    match kind {
        Kind::Rankings => 36,
        Kind::B256 => 256,
        Kind::B1K => 1024,
        Kind::External | Kind::B4K => 4096,
    }
}

// Whether a file may have so many blocks.
#[tactic(auto, unfolding(spec_format::specs::BlockFiles::is_block_count))]
fn is_block_count(blocks: u32) -> bool
    ensures { result ≡ block_files.is_block_count blocks }
{
    (blocks % GROWTH == 0 && blocks <= MOST_WHOLE_BLOCKS) || blocks == BlockHead::MOST_BLOCKS
}

// The word of a header that has the numbers of the file and of the next one.
fn numbers_word(head: &BlockHead<'_>) -> u32
    ensures { result ≡ word_at (content head.now) 8 }
{
    u32::from(head.this_file()) + 0x1_0000 * u32::from(head.next_file())
}

impl BlockFiles {
    // Reads and checks the header of the next file of a kind.
    pub(crate) fn read_head<F: Folder>(
        &self,
        folder: &mut F,
        kind: Kind,
        n: u8,
    ) -> Result<Head, Fault>
        requires { kind_number kind ≢ external }
        ensures room { IfOk result (λ head. HasRoom (length (files_of self.now (kind_number kind)) + 1) head.next) }
        ensures number { IfOk result (λ head. MayBeNext (kind_number kind) head.next) }
        ensures fresh { IfOk result (λ head. IsFresh (all_files self.now ++ n ∷ []) head.next) }
        ensures count { IfOk result (λ head. IsTrue (block_files.is_block_count head.blocks)) }
        ensures read { ForSome (F.told folder.old).files (λ image. AnswersNextHead self.now image (kind_number kind) n result) }
        ensures cause { IfDamaged result (IsHeaderDamage (F.told folder.old) self.now (kind_number kind) n) }
        ensures reads { ReadsOnly F.told F.faults folder.old folder.new (IfDevice result) }
    {
        let mut window = [0u8; BlockHead::LEN];
        let file = FileId::Block(n);
        let given = folder.read_at(file, 0, &mut window)?;
        let size = folder.length(file)?.unwrap_or(0);
        let Some(head) = BlockHead::over(&window) else {
            unreachable!();
        };
        self.judge(&head, kind, n, given, size)
    }

    // Checks a header, of which so many bytes were given, of a file of this length. Where the file has all bytes of its
    // header and too few came, that is the failed check.
    fn judge(
        &self,
        head: &BlockHead<'_>,
        kind: Kind,
        n: u8,
        given: usize,
        size: u64,
    ) -> Result<Head, Fault>
        requires { kind_number kind ≢ external }
        ensures room { IfOk result (λ head. HasRoom (length (files_of self.now (kind_number kind)) + 1) head.next) }
        ensures number { IfOk result (λ head. MayBeNext (kind_number kind) head.next) }
        ensures fresh { IfOk result (λ head. IsFresh (all_files self.now ++ n ∷ []) head.next) }
        ensures count { IfOk result (λ head. IsTrue (block_files.is_block_count head.blocks)) }
        ensures judged { AnswersFileHeader (first_header_damage self.now (kind_number kind) n head.now size) (content head.now) size given result }
        ensures cause { IfDamaged result (IsHeaderFault self.now (kind_number kind) n head.now size given) }
        ensures device { IfDevice result ⊥ }
    {
        if BlockHead::HEADER_LEN <= size && given < BlockHead::LEN {
            return Err(Fault::Damaged(Damage {
                file: FileId::Block(n),
                at: 0,
                found: given as u32,
            }));
        }
        if let Some(damage) = self.header_damage(head, kind, n, size) {
            return Err(Fault::Damaged(damage));
        }
        let next = next_file(head.next_file());
        let blocks = head.max_entries();
        Ok(Head { next, blocks, size })
    }

    // The first check of a header that fails.
    fn header_damage(&self, head: &BlockHead<'_>, kind: Kind, n: u8, size: u64) -> Option<Damage>
        requires { kind_number kind ≢ external }
        ensures { option_map damage_of result ≡ first_of (header_checks self.now (kind_number kind) n (content head.now) size) }
    {
        let low = (size % 0x1_0000_0000) as u32;
        let numbers = numbers_word(head);
        let blocks = head.max_entries();
        let file = FileId::Block(n);
        first_failed(&[
            check(
                file,
                BlockHead::HEADER_LEN,
                low,
                BlockHead::HEADER_LEN <= size,
            ),
            check_is(file, BlockHead::MAGIC_PLACE, head.magic(), BlockHead::MAGIC),
            check_is(
                file,
                BlockHead::VERSION_PLACE,
                head.version(),
                BlockHead::VERSION,
            ),
            check(
                file,
                BlockHead::THIS_FILE,
                numbers,
                head.this_file() == u16::from(n),
            ),
            check(
                file,
                BlockHead::THIS_FILE,
                numbers,
                self.is_link(kind, n, head.next_file()),
            ),
            check_is(
                file,
                BlockHead::ENTRY_SIZE,
                head.entry_size(),
                block_size(kind),
            ),
            check(file, BlockHead::MAX_ENTRIES, blocks, is_block_count(blocks)),
        ])
    }

    // Whether the next file of a file may be this one.
    #[tactic(auto, unfolding(spec_format::specs::BlockFiles::is_link))]
    fn is_link(&self, kind: Kind, n: u8, next: u16) -> bool
        ensures { result ≡ block_files.is_link (all_files self.now ++ n ∷ []) (files_left self.now (kind_number kind)) next }
    {
        next == 0
            || (FIRST_LINK <= next
                && next <= LAST_LINK
                && !self.is_met(n, next as u8)
                && self.len(kind) + 1 < MOST_FILES)
    }

    // Whether a file is among those that are met with file n.
    #[tactic(auto, using(spec_format::proofs::Among::is_among_more))]
    fn is_met(&self, n: u8, file: u8) -> bool
        ensures { result ≡ block_files.is_among (all_files self.now ++ n ∷ []) file }
    {
        self.has(file) || n == file
    }
}

// The next file, by its number in a header.
fn next_file(next: u16) -> Option<u8>
    requires { next < 256 }
    ensures { result ≡ next_of next }
{
    if next == 0 { None } else { Some(next as u8) }
}
