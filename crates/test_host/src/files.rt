// The files of a real folder.
use crate::folders::{HIGH, LOW, Machine, look, new_folder, read, write_four};
use crate::same::{assert_same, assert_same_at};
use blk_io::{Failed, FileId, Folder};
use std::io::ErrorKind;
use std::os::unix::fs::{PermissionsExt, symlink};
use std::{fs, io};

// The first files of a folder in their order, and none after the last.
fn listed(folder: &mut Machine) -> Result<[Option<FileId>; 5], Failed> {
    let mut files = [None; 5];
    let mut last = None;
    for file in &mut files {
        last = folder.list(last)?;
        *file = last;
    }
    Ok(files)
}

// Makes an empty file by each name.
fn make_each(rt: HostRuntime, names: &[&str; 10]) -> io::Result<()> {
    for name in names {
        fs::write(&rt, *name, "")?;
    }
    Ok(())
}

#[test]
fn cache_files_have_exact_names(rt: HostRuntime) -> io::Result<()> {
    let path = new_folder(rt, "exact")?;
    let held = look(rt, path.as_str())?;
    let names = [
        "index",
        "data_10",
        "f_00a0ff",
        "f_fffffff",
        "Index",
        "data_01",
        "data_256",
        "f_000000",
        "f_0000A0",
        "f_10000000",
    ];
    make_each(rt, &names)?;
    drop(held);
    let files = [
        Some(FileId::Index),
        Some(FileId::Block(10)),
        Some(FileId::External(41215)),
        Some(HIGH),
        None,
    ];
    assert_same(&rt, listed(&mut look(rt, path.as_str())?), Ok(files));
    fs::remove_dir_all(&rt, path.as_str())
}

// What is read of two files that are there, and of one that isn't.
fn bytes_of(folder: &mut Machine) -> Result<[(usize, [u8; 8]); 3], Failed> {
    let low = read(folder, LOW, 1)?;
    let high = read(folder, HIGH, 4)?;
    Ok([low, high, read(folder, FileId::Block(4), 0)?])
}

// Deletes a file twice, and gives the next one before it.
fn without(folder: &mut Machine, file: FileId, before: FileId) -> Result<Option<FileId>, Failed> {
    folder.delete(file)?;
    folder.delete(file)?;
    folder.list(Some(before))
}

// The lengths of a file after it was given these.
fn lengths_given(
    folder: &mut Machine,
    file: FileId,
    given: [u64; 3],
) -> [Result<Option<u64>, Failed>; 3] {
    given.map(|length| folder.set_len(file, length).and(folder.length(file)))
}

#[test]
fn a_real_folder_keeps_its_files(rt: HostRuntime) -> io::Result<()> {
    let path = new_folder(rt, "keeps")?;
    let mut folder = look(rt, path.as_str())?;
    assert!(rt; listed(&mut folder) == Ok([None; 5]) && write_four(&mut folder).is_ok());
    drop(folder);

    // Another look at the same folder sees the same files, in their order.
    let mut folder = look(rt, path.as_str())?;
    let block = FileId::Block(255);
    let files = [
        Some(FileId::Index),
        Some(block),
        Some(LOW),
        Some(HIGH),
        None,
    ];
    assert_same(&rt, listed(&mut folder), Ok(files));
    assert_same(&rt, folder.length(FileId::Index), Ok(Some(4)));
    let bytes = [
        (5, [0, 97, 98, 99, 0, 9, 9, 9]),
        (2, [118, 117, 9, 9, 9, 9, 9, 9]),
        (0, [9; 8]),
    ];
    assert_same(&rt, bytes_of(&mut folder), Ok(bytes));
    assert_same(&rt, without(&mut folder, LOW, block), Ok(Some(HIGH)));
    assert_same(
        &rt,
        lengths_given(&mut folder, block, [4096, 4096, 0]),
        [Ok(Some(4096)), Ok(Some(4096)), Ok(Some(0))],
    );
    fs::remove_dir_all(&rt, path.as_str())
}

// The lengths of two files after their folder is removed, of which the last one is still open, and of one that isn't made there.
fn lengths(folder: &mut Machine) -> [Result<Option<u64>, Failed>; 3] {
    let last = folder.length(FileId::External(2));
    let first = folder.length(FileId::External(1));
    let made = folder.set_len(FileId::Index, 8);
    [last, first, made.and(folder.length(FileId::Index))]
}

#[test]
fn a_failure_of_the_machine_is_answered(rt: HostRuntime) -> io::Result<()> {
    let path = new_folder(rt, "fails")?;
    let mut folder = look(rt, path.as_str())?;
    let first = folder.set_len(FileId::External(1), 4);
    let second = folder.set_len(FileId::External(2), 4);
    assert!(rt; first.is_ok() && second.is_ok());
    fs::remove_dir_all(&rt, path.as_str())?;

    // The one file is still open, and the other one is deleted.
    assert_same(
        &rt,
        lengths(&mut folder),
        [Ok(Some(4)), Err(Failed), Err(Failed)],
    );
    assert_same(&rt, folder.length(FileId::Index), Ok(None));
    assert!(rt; look(rt, path.as_str()).is_err());
    Ok(())
}

#[test]
fn a_file_that_came_later_is_not_taken(rt: HostRuntime) -> io::Result<()> {
    let alloc = rt.alloc();
    let path = new_folder(rt, "later")?;
    let mut folder = look(rt, path.as_str())?;
    let text = path.as_str();
    let later = format!(in alloc; "{text}/data_1")?;
    fs::write(&rt, later.as_str(), "kept")?;
    assert!(rt; folder.set_len(FileId::Block(1), 0).is_err());
    assert_same(&rt, folder.length(FileId::Block(1)), Ok(None));
    let kept = fs::read_to_string(&rt, later)?;
    assert_same(&rt, kept.as_str(), "kept");
    fs::remove_dir_all(&rt, text)
}

// Who may do what with the four files: the bits of their modes.
fn modes(rt: HostRuntime, names: &[&str; 4]) -> io::Result<[u32; 4]> {
    let mut modes = [0; 4];
    for (mode, name) in modes.iter_mut().zip(names) {
        *mode = fs::metadata(&rt, *name)?.permissions().mode() & 0o7777;
    }
    Ok(modes)
}

#[test]
fn a_made_file_is_its_owners(rt: HostRuntime) -> io::Result<()> {
    let path = new_folder(rt, "mode")?;
    let path = path.as_str();
    let mut folder = look(rt, path)?;
    let is_written = write_four(&mut folder).is_ok();
    drop(folder);
    assert!(rt; is_written);
    let names = ["index", "data_255", "f_000001", "f_fffffff"];
    assert_same(&rt, modes(rt, &names)?, [0o600; 4]);
    fs::remove_dir_all(&rt, path)
}

// Whether a folder is acquired where a file has a second name, where it has one name again, and where a link names it.
fn is_had(rt: HostRuntime, path: &str) -> io::Result<[bool; 3]> {
    fs::write(&rt, "elsewhere", "kept")?;
    fs::hard_link(&rt, "elsewhere", "data_1")?;
    let twice = look(rt, path).is_ok();
    fs::remove_file(&rt, "elsewhere")?;
    let once = look(rt, path).is_ok();
    symlink(&rt, "data_1", "data_2")?;
    Ok([twice, once, look(rt, path).is_ok()])
}

#[test]
fn a_second_name_is_refused(rt: HostRuntime) -> io::Result<()> {
    let path = new_folder(rt, "names")?;
    let path = path.as_str();
    drop(look(rt, path)?);
    assert_same(&rt, is_had(rt, path)?, [false, true, false]);
    fs::remove_dir_all(&rt, path)
}

// Replaces the file with a name by another one, under a link or a second name.
fn put_in_place(rt: HostRuntime, name: &str, is_link: bool) -> io::Result<()> {
    fs::remove_file(&rt, name)?;
    fs::write(&rt, "elsewhere", "kept")?;
    if is_link {
        symlink(&rt, "elsewhere", name)
    } else {
        fs::hard_link(&rt, "elsewhere", name)
    }
}

// What a folder answers whose least external file was replaced: its length, and whether it and the greatest one can be written.
fn answers(folder: &mut Machine) -> (Result<Option<u64>, Failed>, [bool; 2]) {
    let length = folder.length(LOW);
    let low = folder.write_at(LOW, 0, b"lost").is_ok();
    let high = folder.write_at(HIGH, 0, b"kept").is_ok();
    (length, [low, high])
}

// The same of a folder at a path, in which the file is replaced now.
fn swapped(
    rt: HostRuntime,
    path: &str,
    is_link: bool,
) -> io::Result<(Result<Option<u64>, Failed>, [bool; 2])> {
    let mut folder = look(rt, path)?;
    let made = folder.set_len(LOW, 4).and(folder.set_len(HIGH, 4));
    let placed = put_in_place(rt, "f_000001", is_link);
    // The other external file is open, so this one is opened again.
    let answered = answers(&mut folder);
    drop(folder);
    if made.is_err() {
        return Err(io::Error::from(ErrorKind::Other));
    }
    placed?;
    Ok(answered)
}

#[test]
fn a_file_put_in_place_is_not_opened(rt: HostRuntime) -> io::Result<()> {
    for is_link in [true, false] {
        let path = new_folder(rt, "swapped")?;
        let path = path.as_str();
        let answered = swapped(rt, path, is_link)?;
        assert_same_at(
            &rt,
            answered,
            (Err(Failed), [false, true]),
            format_args!("a link: {is_link}"),
        );
        let kept = fs::read_to_string(&rt, "elsewhere")?;
        assert_same(&rt, kept.as_str(), "kept");
        fs::remove_dir_all(&rt, path)?;
    }
    Ok(())
}
