// The search of a map from a hint on.
ghost use Rattle.std.specs.Prelude.{◌≡◌, ◌≢◌, ◌≤◌, ◌<◌, ◌+◌, ◌*◌, ◌/◌, ◌%◌, ℕ, true, None, IfOk, IfSome};
ghost use Rattle.spec_image.specs.Bytes.{word_bytes};
ghost use Rattle.spec_image.specs.Told.{ReadsOnly};
ghost use Rattle.spec_format.specs.BlockFiles.{is_among};
ghost use Rattle.spec_format.specs.Maps as maps;
ghost use Rattle.spec_format.specs.Maps.{group_size};
ghost use Rattle.blk_addr.specs.Bits.{has_bit};
ghost use Rattle.blk_io.specs.Faults.{IfDamaged, IfDevice, UndamagedWhere};
ghost use Rattle.blk_disk.specs.Tables.{Agrees, all_files, blocks_of};
ghost use Rattle.blk_alloc.specs.Fitting.{IsLeastOfGroup, IsMapWord, IsShortSearch, HasNoRun, IsGroupOf, IsHintedGroup, IsMetFirst};
ghost use Rattle.blk_alloc.specs.Clauses.{FoundFor, NotFoundFor};

use crate::layout::BITS_OF_WORD;
use crate::map::{is_place, longest_run};
use blk_addr::GROUP;
use blk_disk::{BlockFiles, Steps};
use blk_io::{Fault, Folder};
use std::sync::ledger::Ledger;

// The groups of a word of a map.
const GROUPS_OF_WORD: u32 = 8;

// A group of a file, by the number of its word in the map and its own in it, with the word.
#[derive(Clone, Copy)]
pub(crate) struct Group {
    pub number: u32,
    pub place: u32,
    pub word: u32,
}

// The first of the eight groups of a map word, from `first` on, whose longest free run is `run`.
fn group_in(bytes: &[u8], first: u32, run: u32) -> Option<u32>
    ensures found { IfSome result (λ i. (first ≤ i) × (i < 8) × (maps.longest_run (has_bit bytes.now) i ≡ run)) }
    ensures none { result ≡ None → (i : ℕ) → first ≤ i → i < 8 → maps.longest_run (has_bit bytes.now) i ≢ run }
    ensures before { IfSome result (λ i. (k : ℕ) → first ≤ k → k < i → maps.longest_run (has_bit bytes.now) k ≢ run) }
{
    for i in first..GROUPS_OF_WORD {
        if longest_run(bytes, i) == run {
            return Some(i);
        }
    }
    None
}

// The group of a word at which a step of the search begins: in its first word that of the hint, else 0.
fn first_in(turn: u32, start: u32) -> u32
    ensures begins { turn ≡ 0 → result ≡ start % 8 }
    ensures goes_on { 0 < turn → result ≡ 0 }
{
    if turn == 0 { start % GROUPS_OF_WORD } else { 0 }
}

// The first block of a group from which so many free blocks follow; the longest free run of the group is that long.
pub(crate) fn least_of_group(bytes: &[u8], group: u32, count: u32) -> u32
    requires few { count ≤ group_size }
    requires some { 0 < count }
    requires small { group < 8 }
    requires room { count ≤ maps.longest_run (has_bit bytes.now) group }
    ensures group { result / group_size ≡ group }
    ensures least { IsLeastOfGroup (has_bit bytes.now) count result }
{
    for b in GROUP * group..GROUP * group + GROUP {
        if is_place(bytes, b, count) {
            return b;
        }
    }
    unreachable!()
}

// The first group of a file, from a hint on and around the end, whose longest free run is `run`, or `None` where there is none.
pub(crate) fn first_met<F: Folder, L: Ledger>(
    folder: &mut F,
    files: &BlockFiles,
    file: u8,
    hint: u32,
    run: u32,
    steps: &mut Steps<L>,
) -> Result<Option<Group>, Fault>
    requires linked { is_among (all_files files.now) file ≡ true }
    ensures met { FoundFor result (F.told folder.old) (IsMetFirst files.now file hint run) }
    ensures word { FoundFor result (F.told folder.old) (λ group image. IsMapWord image file group.number group.word) }
    ensures run { IfOk result (λ found. IfSome found (λ group. maps.longest_run (has_bit (word_bytes group.word)) group.place ≡ run)) }
    ensures place { IfOk result (λ found. IfSome found (IsGroupOf files.now file)) }
    ensures none { NotFoundFor result (F.told folder.old) (HasNoRun files.now file run) }
    ensures most { steps.new ≤ steps.old + (blocks_of files.now file / 32 + 1) }
    ensures once { FoundFor result (F.told folder.old) (λ group image. IsHintedGroup files.now file hint group → steps.new ≡ steps.old + 1) }
    ensures cause { IfDamaged result (IsShortSearch files.now file (F.told folder.old)) }
    ensures untold { UndamagedWhere result (F.told folder.old) (Agrees files.now) }
    ensures reads { ReadsOnly F.told F.faults folder.old folder.new (IfDevice result) }
{
    let Some(blocks) = files.max_entries(file) else {
        unreachable!();
    };
    let words = blocks / BITS_OF_WORD;
    if words == 0 {
        return Ok(None);
    }
    let start = hint % (GROUPS_OF_WORD * words);
    for turn in 0..words + 1 {
        let number = (start / GROUPS_OF_WORD + turn) % words;
        let word = files.map_word(folder, file, number, steps)?;
        let bytes = word.to_le_bytes();
        if let Some(place) = group_in(&bytes, first_in(turn, start), run) {
            return Ok(Some(Group {
                number,
                place,
                word,
            }));
        }
    }
    Ok(None)
}
