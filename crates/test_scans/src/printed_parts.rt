// What is printed of the parts of a folder.
use crate::printed_entries::{
    IEV, PARENT, STREAMS, all_entries, cut, holds, no_entries, shows, twins,
};
use crate::same::assert_same_at;
use blk_inspect::{InspectFault, Part};
use blk_io::{MemFolder, SilentFolder};
use std::test::Fail;
use test_folders::folders::Change::Index;
use test_folders::folders::{OPERATION, TRANSACTION, change_all};

// The parts of a folder with no entry.
const OF_NONE: [(Part, &str); 7] = [
    (
        Part::Index,
        "magic c103cac3\nversion 00030000\nnum_entries 00000000\nnum_bytes 00000000\nlast_file 00000000\nthis_id 00000001\nstats 00000000\ntable_len 00010000\ncrash 00000000\nexperiment 00000000\nsize 00000000\nhead 00000000\ntail 00000000\ntransaction 00000000\noperation 00000000\n",
    ),
    (
        Part::File(3),
        "magic c104cac3\nversion 00020000\nthis_file 00000003\nnext_file 00000000\nentry_size 00001000\nnum_entries 00000000\nmax_entries 00000000\nempty0 00000000\nempty1 00000000\nempty2 00000000\nempty3 00000000\nhint0 00000000\nhint1 00000000\nhint2 00000000\nhint3 00000000\nupdating 00000000\n",
    ),
    (Part::File(4), "none\n"),
    (Part::Address(0xA101_0004), "block 2 1 4 2\n"),
    (Part::Address(0x8000_0001), "external 1\n"),
    (Part::Address(0xA401_0000), "none\n"),
    (Part::List, "end 0\n"),
];

// The parts of the folder of all entries.
const OF_ALL: [(Part, &str); 5] = [
    (
        Part::List,
        "node 90000000 contents a0010000 dirty 00000000\nnode 90000001 contents a0010001 dirty 00000000\nnode 90000002 contents a0010004 dirty 00000000\nnode 90000003 contents a0010008 dirty 00000000\nnode 90000004 contents a0010009 dirty 00000000\nnode 90000005 contents a1010018 dirty 00000000\nnode 90000006 contents a001001c dirty 00000000\nnode 90000007 contents a001001d dirty 00000000\nend 8\n",
    ),
    (
        Part::Chain(0xAF82),
        "entry a0010001 hash fe0daf82\nentry a0010000 hash 9554af82\nend 2\n",
    ),
    (Part::Chain(0xAF83), "end 0\n"),
    (
        Part::Entry(STREAMS),
        "hash 019d191a\nnext 00000000\nrankings_node 90000002\nstate 00000000\nkey_len 00000007\nlong_key 00000000\nsize0 0000012c\nsize1 00000bb8\nsize2 00004e20\nsize3 00000000\naddr0 a1010014\naddr1 b2020004\naddr2 80000001\naddr3 00000000\nflags 00000000\nself_hash 00000000\n",
    ),
    (Part::Entry(0xA001_0040), "none\n"),
];

#[test]
fn the_parts_of_a_folder_are_printed(rt: HostRuntime) -> Result<(), Fail> {
    for (part, text) in OF_NONE {
        let mut f = no_entries(rt.alloc())?;
        assert!(rt; shows(rt.alloc(), &mut f, part, text)?, "{text}");
    }
    let mut f = no_entries(rt.alloc())?;
    assert!(rt; holds(rt.alloc(), &mut f, "kept 0\nitems 0 bytes 0\n")?);
    for (part, text) in OF_ALL {
        let mut f = all_entries(rt.alloc())?;
        assert!(rt; shows(rt.alloc(), &mut f, part, text)?, "{text}");
    }
    Ok(())
}

#[test]
fn an_unfinished_folder_is_told_alone(rt: HostRuntime) -> Result<(), Fail> {
    for part in [
        Part::Index,
        Part::File(0),
        Part::Address(IEV),
        Part::List,
        Part::Chain(0),
        Part::Entry(PARENT),
    ] {
        let mut f = SilentFolder::new(MemFolder::without_trail(rt.alloc()));
        assert!(rt; shows(rt.alloc(), &mut f, part, "unfinished\n")?);
    }
    let mut f = SilentFolder::new(MemFolder::without_trail(rt.alloc()));
    assert!(rt; holds(rt.alloc(), &mut f, "unfinished\n")?);
    Ok(())
}

#[test]
fn of_two_records_of_one_key_the_first_is_kept(rt: HostRuntime) -> Result<(), Fail> {
    let mut f = twins(rt.alloc())?;
    let text = "kept 1\ndropped 90000001 14 Name\nitems 1 bytes 3\n";
    assert!(rt; holds(rt.alloc(), &mut f, text)?);
    Ok(())
}

#[test]
fn the_list_is_that_of_the_completed_operation(rt: HostRuntime) -> Result<(), Fail> {
    // The second node is being taken out.
    let mut f = twins(rt.alloc())?;
    change_all(
        &mut f,
        &[Index(OPERATION, 2), Index(TRANSACTION, 0x9000_0001)],
    )?;
    let list = "node 90000000 contents a0010000 dirty 00000000\nend 1\n";
    assert!(rt; shows(rt.alloc(), &mut f, Part::List, list)?);
    let verdict = "kept 1\ndropped a0010001 16 Unlisted\nitems 1 bytes 3\n";
    assert!(rt; holds(rt.alloc(), &mut f, verdict)?);
    Ok(())
}

#[test]
fn a_sink_that_fails_has_a_front(rt: HostRuntime) -> Result<(), Fail> {
    let text = "kept 1\ndropped 90000001 14 Name\nitems 1 bytes 3\n";
    for call in 1..20u64 {
        let mut f = twins(rt.alloc())?;
        let (answer, is_front) = cut(rt.alloc(), &mut f, call, text)?;
        assert!(rt; is_front, "call {call}");
        assert_same_at(
            &rt,
            answer,
            Err(InspectFault::Sink),
            format_args!("call {call}"),
        );
    }
    Ok(())
}
