// Where the streams of a record lie.
ghost use Rattle.std.specs.Prelude.{◌≡◌, ◌==◌, ◌<◌, IfOk, IsOk, OnOk, Some, true, length, unwrap_or};
ghost use Rattle.spec_format.specs.Address.{blocks_256, is_address, kind_of};
ghost use Rattle.spec_format.specs.Records.{entry_size};
ghost use Rattle.blk_addr.specs.Kind.{kind_number};
ghost use Rattle.blk_io.specs.Faults.{IfDamaged, IfDevice};
ghost use Rattle.blk_entry.specs.Keys as keys;
ghost use Rattle.blk_stream.specs.StreamClauses.{address_in, size_in};
ghost use Rattle.blk_stream.specs.Streams.{IsMisplacedStreamBy, IsStoredAt, address_place, may_keep, size_place, stored_by};

use blk_addr::{Addr, Kind, blocks_for, kind_for};
use blk_disk::BlockFiles;
use blk_entry::record_damage;
use blk_io::Fault;
use blk_model::MOST_STREAM;
use blk_record::{EntryView, Record};

// The storage of a stream: how many bytes there are, and where they lie, if there are any.
#[derive(Clone, Copy)]
pub(crate) struct Stored {
    pub(crate) size: u32,
    pub(crate) addr: Option<Addr>,
}

// Bytes that are written over a stream of a record: from which offset on, and whether the stream ends with them.
#[derive(Clone, Copy)]
pub(crate) struct StreamWrite<'a> {
    pub(crate) entry: Addr,
    pub(crate) stream: u8,
    pub(crate) offset: u32,
    pub(crate) cut: bool,
    pub(crate) bytes: &'a [u8],
}

// What a record says of a stream: its size, and the word of its address.
#[derive(Clone, Copy)]
pub(crate) struct StreamWords {
    pub(crate) size: u32,
    pub(crate) word: u32,
}

// The place of the size of a stream in a record.
pub(crate) fn size_at(stream: u8) -> u32
    requires { stream < 3 }
    ensures { result ≡ size_place stream }
{
    EntryView::DATA_SIZE + 4 * u32::from(stream)
}

// The place of the address of a stream in a record.
pub(crate) fn addr_at(stream: u8) -> u32
    requires { stream < 3 }
    ensures { result ≡ address_place stream }
{
    EntryView::DATA_ADDR + 4 * u32::from(stream)
}

// Where a stream lies by the bytes of its record.
pub(crate) fn stored_in(
    files: &BlockFiles,
    entry: Addr,
    stream: u8,
    bytes: &[u8],
) -> Result<Stored, Fault>
    requires stream { stream < 3 }
    requires kind { kind_of entry ≡ blocks_256 }
    requires size { length bytes.now ≡ entry_size }
    ensures stored { IfOk result (IsStoredAt (size_in bytes.now stream) (address_in bytes.now stream)) }
    ensures keeps { OnOk result (may_keep files.now (size_in bytes.now stream) (address_in bytes.now stream) ≡ true) }
    ensures right { may_keep files.now (size_in bytes.now stream) (address_in bytes.now stream) ≡ true → IsOk result }
    ensures damaged { IfDamaged result (IsMisplacedStreamBy files.now entry stream (size_in bytes.now stream) (address_in bytes.now stream)) }
    ensures never { IfDevice result ⊥ }
{
    let view = EntryView::new(bytes);
    let size = view.word(size_at(stream) as usize);
    let word = view.word(addr_at(stream) as usize);
    place_of(files, entry, stream, size, word)
}

// Where a stream with this size and this address word lies.
pub(crate) fn place_of(
    files: &BlockFiles,
    entry: Addr,
    stream: u8,
    size: u32,
    word: u32,
) -> Result<Stored, Fault>
    requires stream { stream < 3 }
    requires kind { kind_of entry ≡ blocks_256 }
    ensures stored { IfOk result (IsStoredAt size word) }
    ensures keeps { OnOk result (may_keep files.now size word ≡ true) }
    ensures right { may_keep files.now size word ≡ true → IsOk result }
    ensures damaged { IfDamaged result (IsMisplacedStreamBy files.now entry stream size word) }
    ensures never { IfDevice result ⊥ }
{
    if size > MOST_STREAM {
        return Err(record_damage(entry, size_at(stream), size));
    }
    if size == 0 {
        return no_place(files, entry, stream, word);
    }
    match storage(files, size, word) {
        Some(addr) => Ok(Stored {
            size,
            addr: Some(addr),
        }),
        None => Err(record_damage(entry, addr_at(stream), word)),
    }
}

// No place, of no bytes, where the address word is 0.
fn no_place(files: &BlockFiles, entry: Addr, stream: u8, word: u32) -> Result<Stored, Fault>
    requires stream { stream < 3 }
    requires kind { kind_of entry ≡ blocks_256 }
    ensures stored { IfOk result (IsStoredAt 0 word) }
    ensures keeps { OnOk result (may_keep files.now 0 word ≡ true) }
    ensures right { may_keep files.now 0 word ≡ true → IsOk result }
    ensures damaged { IfDamaged result (IsMisplacedStreamBy files.now entry stream 0 word) }
    ensures never { IfDevice result ⊥ }
{
    // Only the contract needs the block files: the proof knows what they say of the folder once they are named here.
    let _files = files;
    if word != 0 {
        return Err(record_damage(entry, addr_at(stream), word));
    }
    Ok(Stored {
        size: 0,
        addr: None,
    })
}

// The address that a word is, where it stores data of a size.
fn storage(files: &BlockFiles, size: u32, word: u32) -> Option<Addr>
    requires { 0 < size }
    ensures { result ≡ stored_by files.now size word }
{
    let addr = Addr::from_word(word)?;
    if stores(files, addr, size) {
        Some(addr)
    } else {
        None
    }
}

// Whether an address is the storage of data of a size, and is valid where it is one of blocks.
fn stores(files: &BlockFiles, addr: Addr, size: u32) -> bool
    requires address { is_address addr ≡ true }
    requires some { 0 < size }
    ensures { result ≡ keys.stores files.now size addr }
{
    if !is_of(addr, kind_for(size)) {
        return false;
    }
    is_of(addr, Kind::External) || (addr.blocks() == blocks_for(size) && files.stands(addr))
}

// The word of an address, and 0 of none.
pub(crate) fn word_of(addr: Option<Addr>) -> u32
    ensures { result ≡ unwrap_or addr 0 }
{
    match addr {
        Some(addr) => addr.word(),
        None => 0,
    }
}

// Whether an address is of a kind.
pub(crate) fn is_of(addr: Addr, kind: Kind) -> bool
    ensures { result ≡ (kind_of addr == kind_number kind) }
{
    addr.kind() == kind
}
