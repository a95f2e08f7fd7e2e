// The bytes of an external file.
ghost use Rattle.std.specs.Prelude.{◌≡◌, ◌⊎◌, ◌≤◌, [], ◌∷◌, None, length, OnOk, OnErr};
ghost use Rattle.std.specs.Option.{ForSome};
ghost use Rattle.spec_image.specs.Bytes.{range_at};
ghost use Rattle.spec_image.specs.Image.{HasRange, byte};
ghost use Rattle.spec_image.specs.Steps.{SetLength, Delete, words};
ghost use Rattle.spec_image.specs.Told.{Applies, AppliesPrefix, Stays, Rises, ReadsOnly, LeavesFrom, StopsFrom};
ghost use Rattle.spec_image.specs.Footprint.{range, whole};
ghost use Rattle.spec_format.specs.Address.{kind_of, external, external_number};
ghost use Rattle.blk_io.specs.FileNames.{file_of};
ghost use Rattle.blk_io.specs.Faults.{IfDamaged, IfDevice, UndamagedWhere};
ghost use Rattle.blk_external.specs.Changes.{ChangesExternal, IsOverwritten, IsResized};
ghost use Rattle.blk_external.specs.Numbers.{named_file};
ghost use Rattle.blk_external.specs.Reading.{IsFew};

use blk_addr::Addr;
use blk_io::{Damage, Failed, Fault, FileId, Folder};

/// Reads bytes from a place on into the whole of `out`.
///
/// Too few bytes are corruption: the error has the place of the read, and, as its word, how many bytes there were, modulo 2^32.
pub fn read<F: Folder>(f: &mut F, addr: Addr, at: u64, out: &mut [u8]) -> Result<(), Fault>
    requires kind { kind_of addr ≡ external }
    ensures bytes { OnOk result (ForSome (F.told f.old).files (λ image. out.new ≡ range_at (byte image (named_file addr)) at (length out.old))) }
    ensures checked { OnOk result (ForSome (F.told f.old).files (λ image. HasRange image (named_file addr) at (length out.old) ⊎ (length out.old ≡ 0))) }
    ensures reads { ReadsOnly F.told F.faults f.old f.new (IfDevice result) }

    // Too few bytes, which an observable folder gives only where the file is too short.
    ensures few { IfDamaged result (IsFew (F.told f.old) (external_number addr) at (length out.old)) }
    ensures untold { UndamagedWhere result (F.told f.old) (λ image. HasRange image (named_file addr) at (length out.old)) }
{
    let file = name_of(addr);
    let given = f.read_at(file, at, out)?;
    if given < out.len() {
        let found = (given % 0x1_0000_0000) as u32;
        return Err(Fault::Damaged(Damage { file, at, found }));
    }
    Ok(())
}

/// Writes over bytes from a place on, one word after another.
pub fn write<F: Folder>(f: &mut F, addr: Addr, at: u64, bytes: &[u8]) -> Result<(), Failed>
    requires kind { kind_of addr ≡ external }
    requires inside { ForSome (F.told f.old).files (λ image. HasRange image (named_file addr) at (length bytes.now)) }
    ensures steps { OnOk result (Applies (F.told f.old) (F.told f.new) (words (named_file addr) at bytes.now)) }
    ensures file { OnOk result (LeavesFrom (F.told f.old) (F.told f.new) (IsOverwritten addr at bytes.now)) }

    ensures prefix { AppliesPrefix (F.told f.old) (F.told f.new) (words (named_file addr) at bytes.now) }

    // At each word all other bytes of the file, and all other files, are as before.
    ensures stops { StopsFrom (F.told f.old) (F.told f.new) (ChangesExternal (range (named_file addr) at (length bytes.now)) (external_number addr)) }

    ensures later { F.faults f.old ≤ F.faults f.new }
    ensures failed { OnErr result (Rises (F.faults f.old) (F.faults f.new)) }
{
    f.write_at(name_of(addr), at, bytes)
}

/// Gives the file this length, and makes it where there is none. New bytes are 0.
pub fn resize<F: Folder>(f: &mut F, addr: Addr, length: u64) -> Result<(), Failed>
    requires kind { kind_of addr ≡ external }
    ensures steps { OnOk result (Applies (F.told f.old) (F.told f.new) (SetLength (named_file addr) length ∷ [])) }
    ensures prefix { AppliesPrefix (F.told f.old) (F.told f.new) (SetLength (named_file addr) length ∷ []) }
    ensures undone { OnErr result (Stays (F.told f.old) (F.told f.new)) }
    ensures file { OnOk result (LeavesFrom (F.told f.old) (F.told f.new) (IsResized addr length)) }

    // Before and after the step all other files are as before.
    ensures stops { StopsFrom (F.told f.old) (F.told f.new) (ChangesExternal (whole (named_file addr)) (external_number addr)) }

    ensures later { F.faults f.old ≤ F.faults f.new }
    ensures failed { OnErr result (Rises (F.faults f.old) (F.faults f.new)) }
{
    f.set_len(name_of(addr), length)
}

/// Removes the file, if it is there.
pub fn delete<F: Folder>(f: &mut F, addr: Addr) -> Result<(), Failed>
    requires kind { kind_of addr ≡ external }
    ensures steps { OnOk result (Applies (F.told f.old) (F.told f.new) (Delete (named_file addr) ∷ [])) }
    ensures prefix { AppliesPrefix (F.told f.old) (F.told f.new) (Delete (named_file addr) ∷ []) }
    ensures undone { OnErr result (Stays (F.told f.old) (F.told f.new)) }
    ensures file { OnOk result (ForSome (F.told f.new).files (λ image. image (named_file addr) ≡ None)) }

    // Before and after the step all other files are as before.
    ensures stops { StopsFrom (F.told f.old) (F.told f.new) (ChangesExternal (whole (named_file addr)) (external_number addr)) }

    ensures later { F.faults f.old ≤ F.faults f.new }
    ensures failed { OnErr result (Rises (F.faults f.old) (F.faults f.new)) }
{
    f.delete(name_of(addr))
}

// The name of an external file.
pub(crate) fn name_of(addr: Addr) -> FileId
    requires { kind_of addr ≡ external }
    ensures { file_of result ≡ named_file addr }
{
    match addr.file() {
        blk_addr::FileId::External(number) => FileId::External(number),
        _ => unreachable!(),
    }
}
