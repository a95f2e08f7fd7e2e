// Maps and names with values from outside: the description of the forms, and a second
// implementation of the rule.
ghost use Rattle.std.specs.Prelude.{◌≡◌, ◌≤◌, ◌<◌, length};
ghost use Rattle.std.specs.Int.{cast_unsigned, w64};
ghost use Rattle.blk_model.specs.Sizes.{longest_key, part_count, signatures};
ghost use Rattle.blk_ranges.specs.PartMaps.{IsPartMap};

use crate::same::assert_same;
use blk_ranges::{
    ChildName, ParentHead, ParentMap, PartMap, child_name, child_of, has_part_bit, place_of_part,
    read_child_name, with_part_bit,
};
use std::alloc::{AllocError, Global};
use std::test::Fail;

// Sixty writes in no order over one part.
const WRITES: [(u32, u32); 60] = [
    (616448, 617472),
    (405492, 405493),
    (405493, 405693),
    (405693, 410693),
    (233279, 233979),
    (574463, 577463),
    (577463, 578963),
    (238865, 298865),
    (904704, 905727),
    (432128, 432129),
    (432129, 433629),
    (245760, 246785),
    (178845, 238845),
    (238844, 239844),
    (239844, 240044),
    (240043, 240044),
    (239944, 244944),
    (72710, 73410),
    (859648, 860672),
    (860672, 860872),
    (860872, 865872),
    (617473, 617474),
    (1046334, 1048576),
    (756736, 757236),
    (1034240, 1034241),
    (1034241, 1035241),
    (837401, 897401),
    (527360, 528385),
    (32982, 33682),
    (26623, 29623),
    (181248, 184248),
    (1041324, 1048576),
    (328704, 331704),
    (270571, 271271),
    (784383, 785408),
    (785407, 785607),
    (430778, 439778),
    (439678, 439878),
    (1038336, 1039359),
    (1011200, 1048576),
    (178176, 179200),
    (179100, 179300),
    (179300, 180300),
    (947380, 947381),
    (744448, 744449),
    (844855, 853855),
    (853855, 854855),
    (829439, 832439),
    (832339, 832340),
    (348160, 349183),
    (225722, 226422),
    (226422, 226446),
    (868864, 869364),
    (396355, 405355),
    (387073, 388096),
    (930816, 931840),
    (931840, 933340),
    (535040, 538040),
    (538039, 538040),
    (538040, 539040),
];

// The words of the map after them.
const WORDS: [u32; 32] = [
    0xC000000, 0x0, 0x0, 0x0, 0x0, 0xFFFFC000, 0xFFFFFFFF, 0xFFFFFFFF, 0xFFFFFFFF, 0x7, 0x6, 0x0,
    0x1F7F0, 0x1FE0, 0x0, 0x0, 0x3808, 0x1E0000, 0x4000000, 0x0, 0x0, 0x0, 0x0, 0x40000000, 0x0,
    0xFFFC0C00, 0xFFFFFFFF, 0xFFF, 0x6000, 0x0, 0xF0000000, 0xFFFFFFFF,
];

// The runs after them.
const RUNS: [(u32, u32); 15] = [
    (26624, 2048),
    (178176, 119808),
    (328704, 2048),
    (397312, 7168),
    (405504, 5120),
    (431104, 8192),
    (527360, 1024),
    (535552, 3488),
    (574464, 4096),
    (616448, 1024),
    (784384, 1024),
    (829440, 2048),
    (837632, 59392),
    (930816, 2048),
    (1011712, 36864),
];

// Notes writes, the first of them first.
fn note_all(map: &mut PartMap, writes: &[(u32, u32)])
    requires { IsPartMap map.old }
    ensures { IsPartMap map.new }
{
    for (from, to) in writes {
        if *from < *to && *to <= 1_048_576 {
            map.note_write(*from, *to);
        }
    }
}

// The first run from a place on.
fn run_from(map: &PartMap, place: u32) -> (u32, u32)
    requires { IsPartMap map.now }
{
    map.present_run(place.min(1_048_576), 1_048_576)
}

#[test]
fn sixty_writes_are_noted(rt: HostRuntime) {
    let mut map = PartMap::new(7, 1);
    note_all(&mut map, &WRITES);
    assert_same(&rt, map.blocks, WORDS);
    assert_same(&rt, (map.partial_block, map.partial_len), (526, 416));
    let mut end = 0;
    for (start, length) in RUNS {
        assert_same(&rt, run_from(&map, end), (start, length));
        end = start.saturating_add(length);
    }
    assert_same(&rt, run_from(&map, end), (end, 0));
}

#[test]
fn a_write_over_two_parts_is_noted_in_both(rt: HostRuntime) {
    assert_same(&rt, child_of(1_048_076), (0, 1_048_076));
    assert_same(&rt, child_of(1_048_576), (1, 0));
    assert_same(&rt, child_of(68_719_476_736), (65536, 0));
    let empty = PartMap::new(5, 1);
    let mut first = empty;
    first.note_write(1_048_076, 1_048_576);
    assert_same(&rt, first, empty);
    let mut second = empty;
    second.note_write(0, 1000);
    assert_same(
        &rt,
        (second.blocks[0], second.partial_block, second.partial_len),
        (0, 0, 1000),
    );
    assert_same(&rt, second.present_run(0, 1_048_576), (0, 1000));
    second.note_write(1000, 1024);
    assert_same(
        &rt,
        (second.blocks[0], second.partial_block, second.partial_len),
        (1, -1, 0),
    );
}

#[test]
fn a_run_goes_over_a_whole_part(rt: HostRuntime) {
    let mut map = PartMap::new(5, 1);
    assert_same(&rt, map.present_run(3, 1_048_576), (3, 0));
    map.note_write(0, 1_048_576);
    assert_same(&rt, map.present_run(0, 1_048_576), (0, 1_048_576));
    assert_same(&rt, map.present_run(1_048_576, 1_048_576), (1_048_576, 0));
}

// Whether a name is printed so, and read again.
fn is_name(
    alloc: Global,
    key: &[u8],
    signature: i64,
    part: u32,
    name: &[u8],
) -> Result<bool, AllocError>
    requires some { 1 ≤ length key.now }
    requires short { length key.now ≤ longest_key }
    requires signature { cast_unsigned w64 signature < signatures }
    requires part { part < part_count }
{
    let mut out = Vec::new(alloc);
    out.resize(32796, 0)?;
    let end = child_name(key, signature, part, &mut out);
    let said = ChildName {
        key_len: key.len(),
        signature,
        part,
    };
    Ok(&out[..end] == name && read_child_name(name) == Some(said))
}

#[test]
fn names_are_printed_and_read(rt: HostRuntime) -> Result<(), Fail> {
    assert!(rt; is_name(rt.alloc(), b"v", 100, 0, b"Range_v:64:0")?);
    assert!(rt; is_name(rt.alloc(), b"v", 100, 1, b"Range_v:64:1")?);
    assert!(rt; is_name(rt.alloc(), b"v", 0, 65535, b"Range_v:0:ffff")?);
    assert!(rt;
        is_name(
            rt.alloc(),
            b"v",
            i64::MAX,
            10,
            b"Range_v:7fffffffffffffff:a"
        )?
    );
    assert!(rt; is_name(rt.alloc(), b"a:64:1", 255, 16, b"Range_a:64:1:ff:10")?);
    Ok(())
}

#[test]
fn the_longest_name_is_printed_and_read(rt: HostRuntime) -> Result<(), Fail> {
    let mut key = Vec::new(rt.alloc());
    key.resize(32768, b'k')?;
    let mut out = Vec::new(rt.alloc());
    out.resize(32796, 0)?;
    assert_same(&rt, child_name(&key, i64::MAX, 65535, &mut out), 32796);
    let name = ChildName {
        key_len: 32768,
        signature: i64::MAX,
        part: 65535,
    };
    assert_same(&rt, read_child_name(&out), Some(name));
    Ok(())
}

#[test]
fn other_bytes_are_no_names(rt: HostRuntime) {
    for bytes in [
        b"Range_v:6A:0".as_slice(),
        b"Range_v:64:A".as_slice(),
        b"Range_v:064:0".as_slice(),
        b"Range_v:64:00".as_slice(),
        b"Range_v::0".as_slice(),
        b"Range_v:64:".as_slice(),
        b"Range_v:64:10000".as_slice(),
        b"Range_v:+64:0".as_slice(),
        b"Range_v:64:+1".as_slice(),
        b"Range_v:64:-1".as_slice(),
        b"Range_v:8000000000000000:0".as_slice(),
        b"Range_v:10000000000000064:0".as_slice(),
        b"Range_:64:0".as_slice(),
        b"range_v:64:0".as_slice(),
        b"Range_v:64".as_slice(),
        b"Range_v".as_slice(),
        b"".as_slice(),
    ] {
        assert_same(&rt, read_child_name(bytes), None);
    }
}

#[test]
fn maps_are_printed_and_read(rt: HostRuntime) {
    let mut map = PartMap::new(7, 1);
    map.note_write(5 * 1024, 6 * 1024 + 77);
    let mut out = [0; 192];
    map.print(&mut out);
    assert_same(
        &rt,
        [out[0], out[8], out[9], out[10], out[11]],
        [7, 0xC3, 0xCA, 0x03, 0xC1],
    );
    assert_same(
        &rt,
        [out[12], out[16], out[20], out[64], out[65]],
        [1, 6, 77, 32, 0],
    );
    assert_same(&rt, PartMap::read(&out), Some(map));
    out[16] = 5;
    assert_same(&rt, PartMap::read(&out), None);
    PartMap::new(7, 1).print(&mut out);
    assert_same(
        &rt,
        [out[16], out[17], out[18], out[19], out[20]],
        [255, 255, 255, 255, 0],
    );
}

#[test]
fn a_parent_has_its_parts(rt: HostRuntime) -> Result<(), Fail> {
    let head = ParentHead {
        signature: 100,
        key_len: 1,
    };
    let mut front = [0; 64];
    head.print(&mut front);
    assert_same(&rt, ParentHead::read(&front), Some(head));
    let mut bytes = Vec::from_slice(rt.alloc(), &front)?;
    bytes.resize(8256, 0)?;
    assert_same(&rt, place_of_part(9), 65);
    bytes[65] = with_part_bit(bytes[65], 9);
    assert!(rt; has_part_bit(bytes[65], 9) && !has_part_bit(bytes[65], 8));
    let read = ParentMap::read(&bytes);
    assert!(rt; read.is_some());
    let Some(mut map) = read else {
        return Ok(());
    };
    map.insert(65535);
    assert!(rt; map.has(9) && map.has(65535) && !map.has(8));
    assert_same(
        &rt,
        (map.head, map.parts[1], map.parts[8191]),
        (head, 2, 128),
    );
    let mut out = [0; 8256];
    map.print(&mut out);
    assert_same(&rt, ParentMap::read(&out), Some(map));
    Ok(())
}
