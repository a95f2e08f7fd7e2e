// Whether the map and the counters of a file are those of the used blocks already.
ghost use Rattle.std.specs.Prelude.{◌≡◌, ◌≤◌, length, IsTrue};
ghost use Rattle.spec_image.specs.Bytes.{content};
ghost use Rattle.spec_format.specs.Headers.{block_fields_length};
ghost use Rattle.blk_alloc.specs.Rebuilding.{AreBitsOf, HasMarksOf, HasTheseCounters};
ghost use Rattle.blk_alloc.specs.Clauses.{ForHeader};

use crate::claimed::count_runs;
use crate::map::is_marked;
use blk_addr::Claims;
use blk_record::BlockHead;

// Whether the fields of a header have these counters.
fn has_counters(fields: &[u8], allocations: u32, empty: &[u32; 4]) -> bool
    requires four { length empty.now ≡ 4 }
    requires fields { block_fields_length ≤ length fields.now }
    ensures same { IsTrue result → HasTheseCounters (content fields.now) allocations empty.now }
    ensures found { HasTheseCounters (content fields.now) allocations empty.now → IsTrue result }
{
    let head = BlockHead::new(fields);
    let found = [
        head.num_entries(),
        head.empty(0),
        head.empty(1),
        head.empty(2),
        head.empty(3),
    ];
    found == [allocations, empty[0], empty[1], empty[2], empty[3]]
}

// Whether the first so many blocks of a map are marked just where those of a file are used.
fn has_claimed(map: &[u8], claims: &Claims, file: u8, blocks: u32) -> bool
    ensures same { IsTrue result → AreBitsOf claims.now file blocks map.now }
    ensures found { AreBitsOf claims.now file blocks map.now → IsTrue result }
{
    for b in 0..blocks {
        if is_marked(map, b) != claims.has_block(file, b) {
            return false;
        }
    }
    true
}

// Whether the map and the counters that were read of a file are those of the used blocks, by so many groups.
pub(crate) fn is_right(claims: &Claims, file: u8, groups: u32, map: &[u8], fields: &[u8]) -> bool
    requires few { groups ≤ 16224 }
    requires fields { block_fields_length ≤ length fields.now }
    ensures same { IsTrue result → ForHeader file groups map.now fields.now (λ image. HasMarksOf claims.now image file) }
    ensures found { ForHeader file groups map.now fields.now (λ image. HasMarksOf claims.now image file → IsTrue result) }
{
    if !has_claimed(map, claims, file, BlockHead::MOST_BLOCKS) {
        return false;
    }
    let mut empty = [0u32; 4];
    count_runs(map, groups, &mut empty);
    has_counters(fields, claims.allocations(file), &empty)
}
