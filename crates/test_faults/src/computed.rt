// An opaque folder, whose words are computed from their place.
ghost use Rattle.spec_image.specs.Order.{IsAfter};
ghost use Rattle.spec_image.specs.Told.{Rises};
ghost use Rattle.blk_io.specs.FileNames.{file_of};
ghost use Rattle.blk_io.specs.Untold.{untold, untold_agrees, untold_bytes};
ghost use Rattle.std.specs.Option.{ForSome, option_map};
ghost use Rattle.std.specs.Prelude.{◌≡◌, ◌≤◌, length, OnErr, IfOk};

use blk_io::{Failed, FileId, Folder};
use test_folders::folders::{HEAD, Mem, OPERATION, TAIL, TRANSACTION};

// Where the table of the index begins, and what is not checked of the header of a block file at the opening.
const TABLE: u64 = 368;

const COUNTERS: u64 = 24;

// A folder that passes each call on. Once it is hostile, the bytes that it gives are computed from their place, but for those that are
// checked at the opening; some reads give less than there is, and some calls fail.
#[derive(Drop)]
pub(crate) struct Computed {
    inner: Mem,
    seed: u64,
    is_hostile: bool,
    calls: u64,
    faults: u64,
}

impl Computed {
    // A folder that passes each call on, with a number from which it computes what it gives once it is hostile.
    pub(crate) fn over(inner: Mem, seed: u64) -> Computed {
        Computed {
            inner,
            seed,
            is_hostile: false,
            calls: 0,
            faults: 0,
        }
    }

    // From now on it is hostile.
    pub(crate) fn turn(&mut self) {
        self.is_hostile = true;
    }

    // Counts a call. Gives whether it is to fail: where the folder is hostile each third, for every other seed.
    fn is_failing(&mut self) -> bool
        ensures { self.new.faults ≡ self.old.faults }
    {
        self.calls = self.calls.wrapping_add(1);
        self.is_hostile && self.seed % 2 == 1 && self.calls % 3 == 0
    }
}

// A number that is computed from two.
fn mixed(seed: u64, value: u64) -> u64 {
    let once = (seed ^ value).wrapping_mul(0x9E37_79B9_7F4A_7C15);
    let twice = (once ^ (once >> 29)).wrapping_mul(0xBF58_476D_1CE4_E5B9);
    twice ^ (twice >> 32)
}

// A word of a file: none, one that names a node, a record, data or an external file of few, a small number, or any other.
fn word_of(seed: u64, file: FileId, word: u64) -> u32 {
    let kind = match file {
        FileId::Index => 1,
        FileId::Block(_) => 2,
        FileId::External(_) => 3,
    };
    let number = mixed(mixed(mixed(seed, kind), u64::from(file.number())), word);
    let few = (number >> 8 & 31) as u32;
    match number % 16 {
        0..=4 => 0,
        5..=7 => 0x9000_0000 | few,
        8..=9 => 0xA001_0000 | few,
        10 => 0xB002_0000 | few,
        11 => 0x8000_0001 | few,
        12..=14 => few,
        _ => (number >> 32) as u32,
    }
}

// A byte of a word.
fn byte_of(word: u32, place: u64) -> u8 {
    let [first, second, third, fourth] = word.to_le_bytes();
    match place % 4 {
        0 => first,
        1 => second,
        2 => third,
        _ => fourth,
    }
}

// Whether the byte is one that is checked at the opening.
fn is_checked(file: FileId, place: u64) -> bool {
    match file {
        FileId::Index => {
            let word = place.wrapping_sub(place % 4);
            let is_counter = [8, 12, 48, 52, 268].contains(&word);
            place < TABLE && !is_counter && ![HEAD, TAIL, TRANSACTION, OPERATION].contains(&word)
        }
        FileId::Block(_) => place < COUNTERS,
        FileId::External(_) => false,
    }
}

// Puts the computed bytes of a file over some bytes, from a place on.
fn fill(seed: u64, file: FileId, at: u64, bytes: &mut [u8]) {
    let mut place = at;
    for byte in bytes.iter_mut() {
        if !is_checked(file, place) {
            *byte = byte_of(word_of(seed, file, place / 4), place);
        }
        place = place.wrapping_add(1);
    }
}

impl Folder for Computed {
    ghost told = { λ _. untold };

    ghost faults = { λ folder. folder.faults };

    ghost agrees = { λ folder. untold_agrees };

    ghost are_bytes = { λ folder. untold_bytes };

    fn length(&mut self, file: FileId) -> Result<Option<u64>, Failed>
        ensures later { self.old.faults ≤ self.new.faults }
        ensures failed { OnErr result (Rises self.old.faults self.new.faults) }
    {
        let fails = self.is_failing();
        counted(self.inner.length(file), fails, &mut self.faults)
    }

    fn read_at(&mut self, file: FileId, at: u64, out: &mut [u8]) -> Result<usize, Failed>
        ensures within { IfOk result (λ n. n ≤ length out.old) }
        ensures later { self.old.faults ≤ self.new.faults }
        ensures failed { OnErr result (Rises self.old.faults self.new.faults) }
    {
        let fails = self.is_failing();
        let given = counted(self.inner.read_at(file, at, out), fails, &mut self.faults)?;
        if !self.is_hostile {
            return Ok(given);
        }
        fill(self.seed, file, at, &mut out[..given]);
        let is_short = mixed(self.seed, at) % 200 == 0;
        Ok(if is_short { given / 2 } else { given })
    }

    fn write_at(&mut self, file: FileId, at: u64, bytes: &[u8]) -> Result<(), Failed>
        ensures later { self.old.faults ≤ self.new.faults }
        ensures failed { OnErr result (Rises self.old.faults self.new.faults) }
    {
        let fails = self.is_failing();
        counted(
            self.inner.write_at(file, at, bytes),
            fails,
            &mut self.faults,
        )
    }

    fn set_len(&mut self, file: FileId, length: u64) -> Result<(), Failed>
        ensures later { self.old.faults ≤ self.new.faults }
        ensures failed { OnErr result (Rises self.old.faults self.new.faults) }
    {
        let fails = self.is_failing();
        counted(self.inner.set_len(file, length), fails, &mut self.faults)
    }

    fn delete(&mut self, file: FileId) -> Result<(), Failed>
        ensures later { self.old.faults ≤ self.new.faults }
        ensures failed { OnErr result (Rises self.old.faults self.new.faults) }
    {
        let fails = self.is_failing();
        counted(self.inner.delete(file), fails, &mut self.faults)
    }

    fn list(&mut self, after: Option<FileId>) -> Result<Option<FileId>, Failed>
        ensures after { IfOk result (λ next. ForSome next (λ file. IsAfter (option_map file_of after) (file_of file))) }
        ensures later { self.old.faults ≤ self.new.faults }
        ensures failed { OnErr result (Rises self.old.faults self.new.faults) }
    {
        let fails = self.is_failing();
        counted(self.inner.list(after), fails, &mut self.faults)
    }

    fn note(&mut self, answered: u64) -> Result<(), Failed>
        ensures later { self.old.faults ≤ self.new.faults }
        ensures failed { OnErr result (Rises self.old.faults self.new.faults) }
    {
        let fails = self.is_failing();
        counted(self.inner.note(answered), fails, &mut self.faults)
    }
}

// What a folder answered, or a failure in its place; with its failure counted.
fn counted<T: Drop>(answer: Result<T, Failed>, fails: bool, faults: &mut u64) -> Result<T, Failed>
    ensures later { faults.old ≤ faults.new }
    ensures failed { OnErr result (Rises faults.old faults.new) }
    ensures answer { IfOk result (λ value. answer ≡ Ok value) }
{
    if fails || answer.is_err() {
        *faults = faults.saturating_add(1);
        return Err(Failed);
    }
    answer
}
