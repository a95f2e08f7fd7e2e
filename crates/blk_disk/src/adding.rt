// A block file is added.
ghost use Rattle.std.specs.Prelude.{◌≡◌, ◌≢◌, ◌+◌, ◌<◌, ◌≤◌, length, IfOk, OnOk, OnErr};
ghost use Rattle.std.specs.Option.{ForSome};
ghost use Rattle.spec_image.specs.Image.{HasRange, Block as block};
ghost use Rattle.spec_image.specs.Told.{Applies, AppliesPrefix, Rises, StopsFrom};
ghost use Rattle.spec_format.specs.Address.{external, header_size};
ghost use Rattle.spec_format.specs.BlockFiles.{most_files};
ghost use Rattle.blk_addr.specs.Kind.{kind_number};
ghost use Rattle.blk_disk.specs.Tables.{Agrees, all_files, files_of, Joins};
ghost use Rattle.spec_format.specs.Growth.{StaysWholeOutside};
ghost use Rattle.blk_disk.specs.Growth as growth;
ghost use Rattle.blk_disk.specs.Growth.{IsLeastFileNumber, add_steps, addition_of, link_steps, file_steps};

use crate::heads::block_size;
use crate::load::first_file;
use crate::tables::BlockFiles;
use blk_addr::Kind;
use blk_io::{Failed, FileId, Folder, write_run};
use blk_record::BlockHead;

// The first number that new files may have.
const FIRST_NUMBER: u8 = 4;

impl BlockFiles {
    /// Adds a file with no blocks as the last one of a kind that has fewer than 60, and gives its number.
    ///
    /// The number is the least from 4 that no linked file has. The file gets the length 0, then 8192 and its header,
    /// and then the `next_file` of the last file of the kind names it. `Failed` comes only where the folder failed in
    /// this call; a prefix of the steps was then made.
    pub fn add_file<F: Folder>(&mut self, f: &mut F, kind: Kind) -> Result<u8, Failed>
        requires block_kind { kind_number kind ≢ external }
        requires room { length (files_of self.old (kind_number kind)) < most_files }
        requires agrees { ForSome (F.told f.old).files (Agrees self.old) }
        ensures number { IfOk result (λ n. n ≡ growth.free_number self.old) }
        ensures least { IfOk result (IsLeastFileNumber self.old) }
        ensures steps { OnOk result (Applies (F.told f.old) (F.told f.new) (add_steps self.old (kind_number kind))) }
        ensures prefix { AppliesPrefix (F.told f.old) (F.told f.new) (add_steps self.old (kind_number kind)) }
        ensures kept { IfOk result (λ n. Joins self.old self.new (kind_number kind) n 0 header_size) }
        ensures same { OnErr result (self.new ≡ self.old) }
        ensures agrees { OnOk result (ForSome (F.told f.new).files (Agrees self.new)) }

        // At each word nothing else has changed, the files have grown at most, and the
        // headers are kept.
        ensures stops { StopsFrom (F.told f.old) (F.told f.new) (StaysWholeOutside (addition_of self.old (kind_number kind))) }

        ensures later { F.faults f.old ≤ F.faults f.new }
        ensures failed { OnErr result (Rises (F.faults f.old) (F.faults f.new)) }
    {
        let n = self.free_number();
        make_file(f, kind, n)?;
        link_file(f, self.last_file(kind), n)?;
        self.join(kind, n, 0, BlockHead::HEADER_LEN);
        Ok(n)
    }

    // The least number from 4 that no linked file has.
    fn free_number(&self) -> u8
        ensures number { result ≡ growth.free_number self.now }
        ensures least { IsLeastFileNumber self.now result }
    {
        // One of these is free, as they are one more than the linked files.
        let end = FIRST_NUMBER + self.total() + 1;
        for n in FIRST_NUMBER..end {
            if !self.has(n) {
                return n;
            }
        }
        unreachable!()
    }

    // The number of linked files of all kinds.
    #[tactic(auto, unfolding(crate::specs::Tables::all_files))]
    fn total(&self) -> u8
        ensures total { result ≡ length (all_files self.now) }
        ensures most { result ≤ 240 }
    {
        let nodes_and_small = self.len(Kind::Rankings) + self.len(Kind::B256);
        let large = self.len(Kind::B1K) + self.len(Kind::B4K);
        (nodes_and_small + large) as u8
    }

    // The last file of a kind, or the number of its first where the table has none.
    #[tactic(auto, unfolding(crate::specs::Growth::last_file))]
    fn last_file(&self, kind: Kind) -> u8
        requires { kind_number kind ≢ external }
        ensures { result ≡ growth.last_file self.now (kind_number kind) }
    {
        self.files(kind).last().copied().unwrap_or(first_file(kind))
    }
}

// Makes a file with a header and no blocks. The four fields that aren't 0 lie side by side, and are written by one call.
fn make_file<F: Folder>(folder: &mut F, kind: Kind, n: u8) -> Result<(), Failed>
    requires { kind_number kind ≢ external }
    ensures steps { OnOk result (Applies (F.told folder.old) (F.told folder.new) (file_steps (kind_number kind) n)) }
    ensures prefix { AppliesPrefix (F.told folder.old) (F.told folder.new) (file_steps (kind_number kind) n) }
    ensures later { F.faults folder.old ≤ F.faults folder.new }
    ensures failed { OnErr result (Rises (F.faults folder.old) (F.faults folder.new)) }
{
    let file = FileId::Block(n);
    folder.set_len(file, 0)?;
    folder.set_len(file, BlockHead::HEADER_LEN)?;
    let words = [
        BlockHead::MAGIC,
        BlockHead::VERSION,
        u32::from(n),
        block_size(kind),
    ];
    write_run(folder, file, 0, &words)
}

// Writes the number of a file as the next one of another.
fn link_file<F: Folder>(folder: &mut F, last: u8, n: u8) -> Result<(), Failed>
    requires { ForSome (F.told folder.old).files (λ image. HasRange image (block last) 10 2) }
    ensures steps { OnOk result (Applies (F.told folder.old) (F.told folder.new) (link_steps last n)) }
    ensures prefix { AppliesPrefix (F.told folder.old) (F.told folder.new) (link_steps last n) }
    ensures later { F.faults folder.old ≤ F.faults folder.new }
    ensures failed { OnErr result (Rises (F.faults folder.old) (F.faults folder.new)) }
{
    folder.write_at(
        FileId::Block(last),
        BlockHead::NEXT_FILE,
        &u16::from(n).to_le_bytes(),
    )
}
