// The block files of a folder are loaded, one after another along the links.
ghost use Rattle.std.specs.Prelude.{◌≡◌, ◌≢◌, ◌+◌, ◌-◌, ◌<◌, [], length, OnOk, IfOk, Some, None, false};
ghost use Rattle.std.specs.Option.{ForSome};
ghost use Rattle.spec_image.specs.Told.{ReadsOnly};
ghost use Rattle.spec_format.specs.Address.{external};
ghost use Rattle.spec_format.specs.BlockFiles.{first_block_damage, is_among, most_files};
ghost use Rattle.blk_addr.specs.Kind.{kind_number};
ghost use Rattle.blk_io.specs.Faults.{IfDamaged, IfDevice, damage_of};
ghost use Rattle.blk_disk.specs.Tables.{all_files, files_of};
ghost use Rattle.blk_disk.specs.Loading.{AreNumbered, LoadsAs, Follows, HasRoom, IsFresh, IsHeaderDamage, IsLoadDamage, KeepsOthers, MayBeNext, TakesUp};

use crate::tables::BlockFiles;
use blk_addr::Kind;
use blk_io::{Fault, Folder};

impl BlockFiles {
    /// Checks the headers of the block files, and loads them into a table.
    ///
    /// They are `data_0` to `data_3`, and after each the files along its links. The error names the first check that
    /// fails. `Device` comes only where the folder failed in this call.
    pub fn load<F: Folder>(f: &mut F) -> Result<BlockFiles, Fault>
        ensures loaded { ForSome (F.told f.old).files (LoadsAs result) }

        // The cause of a failed check, which holds for an opaque folder too.
        ensures cause { IfDamaged result (IsLoadDamage (F.told f.old)) }

        ensures reads { ReadsOnly F.told F.faults f.old f.new (IfDevice result) }
    {
        let mut files = BlockFiles::none();
        files.follow(f, Kind::Rankings)?;
        files.follow(f, Kind::B256)?;
        files.follow(f, Kind::B1K)?;
        files.follow(f, Kind::B4K)?;
        Ok(files)
    }

    // Loads the files of a kind. Those of the kinds before it are loaded already.
    fn follow<F: Folder>(&mut self, folder: &mut F, kind: Kind) -> Result<(), Fault>
        requires block_kind { kind_number kind ≢ external }
        requires empty { files_of self.old (kind_number kind) ≡ [] }
        requires begun { ForSome (F.told folder.old).files (λ image. Follows self.old image (kind_number kind - 1) None) }
        requires numbers { AreNumbered (all_files self.old) (kind_number kind - 1) }
        ensures followed { OnOk result (ForSome (F.told folder.new).files (λ image. Follows self.new image (kind_number kind) None)) }
        ensures numbers { OnOk result (AreNumbered (all_files self.new) (kind_number kind)) }
        ensures others { OnOk result (KeepsOthers self.old self.new (kind_number kind)) }
        ensures damaged { IfDamaged result (λ damage. ForSome (F.told folder.old).files (λ image. first_block_damage image ≡ Some (damage_of damage))) }
        ensures cause { IfDamaged result (IsLoadDamage (F.told folder.old)) }
        ensures reads { ReadsOnly F.told F.faults folder.old folder.new (IfDevice result) }
    {
        let mut next = Some(first_file(kind));
        while let Some(n) = next {
            next = self.link(folder, kind, n)?;
        }
        Ok(())
    }

    // Loads the next file of a kind, which isn't linked yet, and gives the one after it.
    fn link<F: Folder>(&mut self, folder: &mut F, kind: Kind, n: u8) -> Result<Option<u8>, Fault>
        requires block_kind { kind_number kind ≢ external }
        requires room { length (files_of self.old (kind_number kind)) < most_files }
        requires fresh { is_among (all_files self.old) n ≡ false }
        requires next { ForSome (F.told folder.old).files (λ image. Follows self.old image (kind_number kind) (Some n)) }
        ensures linked { IfOk result (λ next. ForSome (F.told folder.new).files (λ image. Follows self.new image (kind_number kind) next)) }
        ensures room { IfOk result (HasRoom (length (files_of self.new (kind_number kind)))) }
        ensures number { IfOk result (MayBeNext (kind_number kind)) }
        ensures fresh { IfOk result (IsFresh (all_files self.new)) }
        ensures taken { OnOk result (TakesUp self.old self.new n) }
        ensures longer { OnOk result (length (files_of self.new (kind_number kind)) ≡ length (files_of self.old (kind_number kind)) + 1) }
        ensures others { OnOk result (KeepsOthers self.old self.new (kind_number kind)) }
        ensures damaged { IfDamaged result (λ damage. ForSome (F.told folder.old).files (λ image. first_block_damage image ≡ Some (damage_of damage))) }
        ensures cause { IfDamaged result (IsHeaderDamage (F.told folder.old) self.old (kind_number kind) n) }
        ensures reads { ReadsOnly F.told F.faults folder.old folder.new (IfDevice result) }
    {
        let head = self.read_head(folder, kind, n)?;
        self.join(kind, n, head.blocks, head.size);
        Ok(head.next)
    }
}

// The first file of a kind.
pub(crate) fn first_file(kind: Kind) -> u8
    requires { kind_number kind ≢ external }
    ensures { result ≡ kind_number kind - 1 }
{
    match kind {
        Kind::External | Kind::Rankings => 0,
        Kind::B256 => 1,
        Kind::B1K => 2,
        Kind::B4K => 3,
    }
}
