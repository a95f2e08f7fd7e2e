// What a cache keeps.
ghost use Rattle.std.specs.Prelude.{◌≡◌, length};
ghost use Rattle.blk_cache.specs.BoundNames.{AreBoundAmong};
ghost use Rattle.blk_evict.specs.NameBuffer.{name_buffer_len};

use blk_disk::BlockFiles;
use blk_handles::Handles;
use blk_model::Limits;

/// A cache: what it has in memory of its folder and of its clients' handles.
///
/// All its memory is taken when it is opened.
#[derive(Drop)]
pub struct Cache {
    pub(crate) limits: Limits,
    // The items and the bytes that count against the limits.
    pub(crate) items: u64,
    pub(crate) bytes: u64,
    // The sum of the costs of the open objects, each as a main item.
    pub(crate) open_bytes: u64,
    pub(crate) handles: Handles,
    pub(crate) files: BlockFiles,
    // The dirty flag of what is dirty: the number of the session.
    pub(crate) mark: u32,
    // How many notes this cache has made, or the last value of a u64.
    pub(crate) notes: u64,
    // A buffer for the key of a parent and the name of a part.
    pub(crate) name: Vec<u8>,
    ghost stand: { AreBoundAmong files handles },
    ghost room: { length name.items ≡ name_buffer_len },
}
