// A folder that is acquired alone, or beside readers.
use crate::folders::{look, new_folder, read, take, write_four};
use crate::same::assert_same;
use blk_host::{Access, Held, NotHeld, RealFolder};
use blk_io::{FileId, Folder};
use std::fs;
use std::time::{Duration, Instant};

// Whether the folder at a path is refused, as another program has it.
fn is_held(rt: HostRuntime, path: &str, access: Access) -> bool {
    matches!(take(rt, path, access), Err(NotHeld::Elsewhere))
}

#[test]
fn a_folder_is_had_alone_or_beside_readers(rt: HostRuntime) -> Result<(), NotHeld> {
    let path = new_folder(rt, "held")?;
    let path = path.as_str();
    let alone = take(rt, path, Access::Alone)?;
    assert!(rt;
        alone.writes() && is_held(rt, path, Access::Alone) && is_held(rt, path, Access::Shared)
    );
    drop(alone);
    let reader = take(rt, path, Access::Shared)?;
    assert!(rt; !reader.writes() && is_held(rt, path, Access::Alone));
    let other = take(rt, path, Access::Shared)?;
    drop(reader);
    assert!(rt; is_held(rt, path, Access::Alone));
    drop(other);
    assert!(rt; !is_held(rt, path, Access::Alone));
    Ok(fs::remove_dir_all(&rt, path)?)
}

#[test]
fn a_held_folder_is_waited_for(rt: HostRuntime) -> Result<(), NotHeld> {
    let path = new_folder(rt, "waits")?;
    let path = path.as_str();
    let held = take(rt, path, Access::Alone)?;
    let start = Instant::now(&rt)?;
    let wait = Duration::from_millis(120);
    let second = Held::take(&rt, path, Access::Alone, wait);
    assert!(rt; matches!(second, Err(NotHeld::Elsewhere)));
    assert!(rt; start.elapsed(&rt)? >= wait);
    drop(held);
    assert!(rt; Held::take(&rt, path, Access::Alone, wait).is_ok());
    Ok(fs::remove_dir_all(&rt, path)?)
}

#[test]
fn a_shared_folder_is_read_alone(rt: HostRuntime) -> Result<(), NotHeld> {
    let path = new_folder(rt, "shared")?;
    let path = path.as_str();
    let mut folder = look(rt, path)?;
    assert!(rt; write_four(&mut folder).is_ok());
    drop(folder);
    let mut folder = RealFolder::new(rt, rt.alloc(), take(rt, path, Access::Shared)?)?;
    assert_same(
        &rt,
        read(&mut folder, FileId::Index, 1),
        Ok((3, [0, 97, 98, 9, 9, 9, 9, 9])),
    );
    assert!(rt; folder.write_at(FileId::Index, 0, b"x").is_err());
    assert!(rt; folder.set_len(FileId::Index, 9).is_err());
    assert!(rt; folder.set_len(FileId::Block(3), 0).is_err());
    let bytes = fs::read(&rt, "index")?;
    assert!(rt; bytes.as_slice() == b"\0\0ab".as_slice() && !fs::exists(&rt, "data_3")?);
    Ok(fs::remove_dir_all(&rt, path)?)
}
