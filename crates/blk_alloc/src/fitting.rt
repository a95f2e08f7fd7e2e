// The blocks to which counters and hints lead.
ghost use Rattle.std.specs.Prelude.{◌≡◌, ◌≢◌, ◌≤◌, ◌<◌, ◌+◌, ◌*◌, ℕ, min, true, None, IfOk, IfSome, length, slice_index};
ghost use Rattle.std.specs.Option.{ForSome};
ghost use Rattle.spec_image.specs.Image.{Block as block, byte};
ghost use Rattle.spec_image.specs.Told.{ReadsOnly};
ghost use Rattle.spec_format.specs.Address.{external};
ghost use Rattle.spec_format.specs.BlockFiles.{is_among, most_blocks};
ghost use Rattle.spec_format.specs.Headers.{empty_of};
ghost use Rattle.spec_format.specs.Maps.{group_size, EmptyAgrees};
ghost use Rattle.blk_addr.specs.Kind.{kind_number};
ghost use Rattle.blk_io.specs.Faults.{IfDamaged, IfDevice, OkFor, UndamagedWhere};
ghost use Rattle.blk_disk.specs.Tables.{Agrees, all_files, blocks_of, files_of};
ghost use Rattle.blk_alloc.specs.Fitting.{HasNoRoom, IsFit, IsPlace, IsFittingDamage, IsGroupSought, HasMapWord, IsAtHint, IsFoundByHint, IsFoundIn, IsLeastCounted};
ghost use Rattle.blk_alloc.specs.Allocating.{AreCounted, HaveNoRoom, most_map_words};
ghost use Rattle.blk_alloc.specs.Clauses.{FoundFor, NotFoundFor};

use crate::blocks::{Blocks, Found};
use crate::counters::Counters;
use crate::layout::BITS_OF_WORD;
use crate::searching::{first_met, least_of_group};
use blk_addr::{GROUP, Kind};
use blk_disk::{BlockFiles, Steps};
use blk_io::{Damage, Fault, FileId, Folder, read_word};
use blk_record::BlockHead;
use std::sync::ledger::Ledger;

// The place of the first hint.
pub(crate) const HINTS: u64 = BlockHead::EMPTY + 16;

// The number of blocks of a file, which a map has space for.
pub(crate) fn blocks_in(files: &BlockFiles, file: u8) -> u32
    ensures number { file < 256 }
    ensures most { result ≤ most_blocks }
    ensures blocks { is_among (all_files files.now) file ≡ true → result ≡ min (blocks_of files.now file) most_blocks }
{
    match files.max_entries(file) {
        Some(blocks) => blocks.min(BlockHead::MOST_BLOCKS),
        None => 0,
    }
}

// Which word of `empty` counts the groups with the shortest free run that is long enough for so many blocks, of those runs that some group has.
fn sought(empty: &[u32; 4], count: u32) -> Option<u32>
    requires four { length empty.now ≡ 4 }
    requires some { 0 < count }
    ensures sought { IfSome result (IsLeastCounted empty.now count) }
    ensures none { result ≡ None → (j : ℕ) → j < 4 → count ≤ j + 1 → slice_index empty.now j ≡ 0 }
{
    for i in count - 1..4 {
        if empty[i as usize] > 0 {
            return Some(i);
        }
    }
    None
}

// The failed check of a counter that counts a group which the map doesn't have.
fn miscount(file: u8, i: u32, found: u32) -> Damage
    ensures { result ≡ record { file = FileId.Block file; at = 24 + 4 * i; found = found } }
{
    Damage {
        file: FileId::Block(file),
        at: BlockHead::EMPTY + 4 * u64::from(i),
        found,
    }
}

// The blocks of a file to which hint i leads, of which `counted` groups have a longest free run of i + 1.
pub(crate) fn find_by_hint<F: Folder, L: Ledger>(
    folder: &mut F,
    files: &BlockFiles,
    kind: Kind,
    blocks: Blocks,
    i: u32,
    counted: u32,
    steps: &mut Steps<L>,
) -> Result<Found, Fault>
    requires block_kind { kind_number kind ≢ external }
    requires some { 0 < blocks.count }
    requires enough { blocks.count ≤ i + 1 }
    requires few { blocks.count ≤ group_size }
    requires small { i < 4 }
    requires number { blocks.file < 256 }
    requires linked { is_among (files_of files.now (kind_number kind)) blocks.file ≡ true }
    requires counts { 0 < counted }
    requires counted { ForSome (F.told folder.old).files (λ image. counted ≡ empty_of (byte image (block blocks.file)) i) }
    ensures found { OkFor result (F.told folder.old) (IsFoundByHint files.now blocks.file blocks.count i) }
    ensures word { OkFor result (F.told folder.old) (HasMapWord blocks.file) }
    ensures place { IfOk result (λ found. IsPlace files.now (kind_number kind) blocks.count found.place) }
    ensures file { IfOk result (λ found. (found.place.file ≡ blocks.file) × (found.i ≡ i)) }
    ensures most { steps.new ≤ steps.old + most_map_words files.now blocks.file }
    ensures once { OkFor result (F.told folder.old) (λ found image. IsAtHint files.now blocks.file i found.place.start image → steps.new ≡ steps.old + 1) }
    ensures cause { IfDamaged result (IsFittingDamage files.now (kind_number kind) (F.told folder.old)) }
    ensures untold { UndamagedWhere result (F.told folder.old) (λ image. Agrees files.now image × EmptyAgrees image blocks.file) }
    ensures reads { ReadsOnly F.told F.faults folder.old folder.new (IfDevice result) }
{
    let file = blocks.file;
    let count = blocks.count;
    let hint = read_word(folder, FileId::Block(file), HINTS + 4 * u64::from(i))?;
    let Some(group) = first_met(folder, files, file, hint, i + 1, steps)? else {
        return Err(Fault::Damaged(miscount(file, i, counted)));
    };
    let word = group.word;
    let bytes = word.to_le_bytes();
    let start = BITS_OF_WORD * group.number + least_of_group(&bytes, group.place, count);
    let place = Blocks { file, start, count };
    Ok(Found { place, i, word })
}

// The blocks of a file to which its counters and hints lead, where it has space for so many.
fn find_in_file<F: Folder, L: Ledger>(
    folder: &mut F,
    files: &BlockFiles,
    kind: Kind,
    file: u8,
    count: u32,
    steps: &mut Steps<L>,
) -> Result<Option<Found>, Fault>
    requires block_kind { kind_number kind ≢ external }
    requires some { 0 < count }
    requires few { count ≤ group_size }
    requires linked { is_among (files_of files.now (kind_number kind)) file ≡ true }
    ensures full { NotFoundFor result (F.told folder.old) (λ image. HasNoRoom image count file) }
    ensures fit { FoundFor result (F.told folder.old) (IsFoundIn files.now file count) }
    ensures word { FoundFor result (F.told folder.old) (HasMapWord file) }
    ensures place { IfOk result (λ found. IfSome found (λ x. IsPlace files.now (kind_number kind) count x.place × (x.place.file ≡ file) × (x.i < 4))) }
    ensures none { IfOk result (λ found. found ≡ None → steps.new ≡ steps.old) }
    ensures most { steps.new ≤ steps.old + most_map_words files.now file }
    ensures once { FoundFor result (F.told folder.old) (λ x image. IsAtHint files.now file x.i x.place.start image → steps.new ≡ steps.old + 1) }
    ensures cause { IfDamaged result (IsFittingDamage files.now (kind_number kind) (F.told folder.old)) }
    ensures untold { UndamagedWhere result (F.told folder.old) (λ image. Agrees files.now image × EmptyAgrees image file) }
    ensures reads { ReadsOnly F.told F.faults folder.old folder.new (IfDevice result) }
{
    let counters = Counters::read(folder, file)?;
    let empty = counters.empty;
    let Some(i) = sought(&empty, count) else {
        return Ok(None);
    };
    let start = 0;
    let blocks = Blocks { file, start, count };
    let found = find_by_hint(folder, files, kind, blocks, i, empty[i as usize], steps)?;
    Ok(Some(found))
}

// The blocks of the first file of a kind that has space for so many, by its counters and hints.
pub(crate) fn find<F: Folder, L: Ledger>(
    folder: &mut F,
    files: &BlockFiles,
    kind: Kind,
    count: u32,
    steps: &mut Steps<L>,
) -> Result<Option<Found>, Fault>
    requires block_kind { kind_number kind ≢ external }
    requires some { 0 < count }
    requires few { count ≤ group_size }
    requires agrees { ForSome (F.told folder.old).files (Agrees files.now) }
    ensures full { NotFoundFor result (F.told folder.old) (HaveNoRoom files.now (kind_number kind) count) }
    ensures fit { FoundFor result (F.told folder.old) (λ x image. IsFit image (files_of files.now (kind_number kind)) count x.place) }
    ensures sought { FoundFor result (F.told folder.old) (λ x image. IsGroupSought image x.place.file count x.i) }
    ensures word { FoundFor result (F.told folder.old) (λ x. HasMapWord x.place.file x) }
    ensures place { IfOk result (λ found. IfSome found (λ x. IsPlace files.now (kind_number kind) count x.place × (x.i < 4))) }
    ensures none { IfOk result (λ found. found ≡ None → steps.new ≡ steps.old) }
    ensures most { IfOk result (λ found. IfSome found (λ x. steps.new ≤ steps.old + most_map_words files.now x.place.file)) }
    ensures once { FoundFor result (F.told folder.old) (λ x image. IsAtHint files.now x.place.file x.i x.place.start image → steps.new ≡ steps.old + 1) }
    ensures cause { IfDamaged result (IsFittingDamage files.now (kind_number kind) (F.told folder.old)) }
    ensures untold { UndamagedWhere result (F.told folder.old) (AreCounted files.now (kind_number kind)) }
    ensures reads { ReadsOnly F.told F.faults folder.old folder.new (IfDevice result) }
{
    for k in 0..files.count(kind) {
        let Some(file) = files.file_at(kind, k) else {
            unreachable!();
        };
        if let Some(found) = find_in_file(folder, files, kind, file, count, steps)? {
            return Ok(Some(found));
        }
    }
    Ok(None)
}
