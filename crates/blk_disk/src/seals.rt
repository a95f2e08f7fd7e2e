// The size and the checksum of a record, by its kind.
ghost use Rattle.std.specs.Prelude.{◌≡◌, ◌≤◌, length};
ghost use Rattle.blk_addr.specs.Kind.{kind_number};
ghost use Rattle.blk_record.specs.Fields.{IsField};
ghost use Rattle.blk_disk.specs.Unsealed as unsealed;
ghost use Rattle.spec_format.specs.Sealed.{seal_by_kind, size_by_kind};

use blk_addr::Kind;
use blk_record::{EntryView, NodeView, Record, super_fast_hash};

// The number of the bytes of a record.
#[tactic(auto, unfolding(spec_format::specs::Sealed::size_by_kind))]
pub(crate) fn size_of(kind: Kind) -> usize
    ensures size { result ≡ size_by_kind (kind_number kind) }
    ensures most { result ≤ 96 }
{
    match kind {
        Kind::Rankings => NodeView::SIZE,
        _ => EntryView::SIZE,
    }
}

// The place of the checksum in a record.
#[tactic(auto, unfolding(spec_format::specs::Sealed::seal_by_kind))]
pub(crate) fn seal_of(kind: Kind) -> u32
    ensures place { result ≡ seal_by_kind (kind_number kind) }
    ensures most { result ≤ 92 }
{
    match kind {
        Kind::Rankings => 32,
        _ => 92,
    }
}

// The checksum of a record, where it is wrong.
#[tactic(auto, unfolding(spec_format::specs::Sealed::size_by_kind, spec_format::specs::Sealed::seal_by_kind))]
pub(crate) fn wrong_seal(kind: Kind, bytes: &[u8]) -> Option<u32>
    requires { length bytes.now ≡ size_by_kind (kind_number kind) }
    ensures { result ≡ unsealed.wrong_seal (seal_by_kind (kind_number kind)) bytes.now }
{
    match kind {
        Kind::Rankings => {
            let Some(node) = NodeView::over(bytes) else {
                unreachable!();
            };
            wrong_seal_at(&node, NodeView::SEAL)
        }
        _ => {
            let Some(entry) = EntryView::over(bytes) else {
                unreachable!();
            };
            wrong_seal_at(&entry, EntryView::SEAL)
        }
    }
}

// The checksum of a record that has it at this place, where it is wrong.
fn wrong_seal_at<R: Record>(view: &R, at: usize) -> Option<u32>
    requires place { at ≡ R.seal_place }
    requires inside { IsField R.size at }
    ensures { result ≡ unsealed.wrong_seal at (R.window_of view.now) }
{
    if view.checks() {
        None
    } else {
        Some(view.word(at))
    }
}

// The hash of a record, where its checksum isn't that.
#[tactic(auto, unfolding(spec_format::specs::Sealed::size_by_kind, spec_format::specs::Sealed::seal_by_kind))]
pub(crate) fn missing_seal(kind: Kind, bytes: &[u8]) -> Option<u32>
    requires { length bytes.now ≡ size_by_kind (kind_number kind) }
    ensures { result ≡ unsealed.missing_seal (seal_by_kind (kind_number kind)) bytes.now }
{
    match kind {
        Kind::Rankings => missing_seal_at(&NodeView::new(bytes), NodeView::SEAL),
        _ => missing_seal_at(&EntryView::new(bytes), EntryView::SEAL),
    }
}

// The hash of a record that has its checksum at this place, where the checksum isn't that.
fn missing_seal_at<R: Record>(view: &R, at: usize) -> Option<u32>
    requires inside { IsField R.size at }
    ensures { result ≡ unsealed.missing_seal at (R.window_of view.now) }
{
    let seal = super_fast_hash(&view.bytes()[..at]);
    if view.word(at) == seal {
        None
    } else {
        Some(seal)
    }
}
