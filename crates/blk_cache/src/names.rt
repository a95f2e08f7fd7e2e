// The memory that a session takes for handles and keys.
ghost use Rattle.std.specs.Prelude.{◌≡◌, IfOk, length};
ghost use Rattle.blk_handles.specs.Bindings.{all_free};
ghost use Rattle.blk_evict.specs.NameBuffer.{name_buffer_len};

use blk_addr::NoMemory;
use blk_entry::LONGEST_NAME;
use blk_handles::Handles;
use blk_ranges::LONGEST_KEY;
use std::alloc::Global;

// How many bytes the key buffer has: the key of a parent, and after it the name of a part.
const NAME_BUFFER_LEN: usize = LONGEST_KEY as usize + LONGEST_NAME as usize;

// The table of handles, and the key buffer.
#[derive(Drop)]
pub(crate) struct Names {
    pub(crate) handles: Handles,
    pub(crate) room: Vec<u8>,
}

// Takes the memory for the names of a session: all handle names are free.
pub(crate) fn take_memory(alloc: Global) -> Result<Names, NoMemory>
    ensures free { IfOk result (λ names. names.handles ≡ all_free) }
    ensures room { IfOk result (λ names. length names.room.items ≡ name_buffer_len) }
{
    let handles = Handles::new(alloc)?;
    let mut room = Vec::new(alloc);
    room.resize(NAME_BUFFER_LEN, 0)?;
    Ok(Names { handles, room })
}
