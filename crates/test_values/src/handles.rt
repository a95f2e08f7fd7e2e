// Names bound and released, and objects opened and closed.

ghost use Rattle.std.specs.Prelude.{◌≡◌, IsTrue};
ghost use Rattle.std.specs.Option.{ForSome};

use crate::same::{assert_same, assert_same_at};
use blk_addr::{Addr, Kind};
use blk_handles::{Handles, NAMES, OpenObject, Released};
use std::test::Fail;

// The record and the node of the object with a number.
fn entry(number: u16) -> Addr {
    Addr::of_blocks(Kind::B256, 1, u32::from(number), 1)
}

fn node(number: u16) -> Addr {
    Addr::of_blocks(Kind::Rankings, 0, u32::from(number), 1)
}

// The object with a number as it was opened.
fn opened(number: u16, names: u16) -> OpenObject {
    OpenObject {
        entry: entry(number),
        node: node(number),
        names,
        doomed: false,
        dirty: false,
    }
}

// Binds a name to the object with a number, where it is free, and the object has its node.
fn bind(handles: &mut Handles, name: u16, number: u16) -> Option<()> {
    let entry = entry(number);
    let node = node(number);
    if name >= NAMES || handles.object(name).is_some() {
        return None;
    }
    if !has_node(handles.object_of(entry), node) {
        return None;
    }
    handles.bind(name, entry, node, false);
    Some(())
}

// Whether an object, if there is one, has the node.
fn has_node(object: Option<OpenObject>, node: Addr) -> bool
    ensures { IsTrue result → ForSome object (λ o. o.node ≡ node) }
{
    match object {
        Some(object) => object.node == node,
        None => true,
    }
}

// Releases a name, where it is bound.
fn release(handles: &mut Handles, name: u16) -> Option<Released> {
    if handles.object(name).is_none() {
        return None;
    }
    Some(handles.release(name))
}

// Binds all names to object 7, and gives how many objects are open, and those of the last name and of one past it.
fn share(handles: &mut Handles) -> Option<(usize, Option<OpenObject>, Option<OpenObject>)> {
    for name in 0..NAMES {
        bind(handles, name, 7)?;
    }
    Some((
        handles.open_objects(),
        handles.object(4095),
        handles.object(4096),
    ))
}

// Releases all names but the first, and says whether another name is left each time.
fn release_more(handles: &mut Handles) -> Option<bool> {
    for name in 1..NAMES {
        if release(handles, name)? != Released::More {
            return Some(false);
        }
    }
    Some(true)
}

// Releases the first name: whether object 7 is pinned before and after it, and what it leaves.
fn release_last(handles: &mut Handles) -> Option<(bool, Released, bool, usize)> {
    let before = handles.is_pinned(entry(7));
    let released = release(handles, 0)?;
    let behind = handles.is_pinned(entry(7));
    Some((before, released, behind, handles.open_objects()))
}

#[test]
fn an_object_closes_with_the_last_of_4096_names(rt: HostRuntime) -> Result<(), Fail> {
    let mut handles = Handles::new(rt.alloc())?;
    let shared = Some((1, Some(opened(7, 4096)), None));
    assert_same(&rt, share(&mut handles), shared);
    assert_same(&rt, release_more(&mut handles), Some(true));
    let last = Some((true, Released::Last(opened(7, 1)), false, 0));
    assert_same(&rt, release_last(&mut handles), last);
    Ok(())
}

// Binds each name to an object of its own, from a number on, and gives how many are open.
fn open_all(handles: &mut Handles, start: u16) -> Option<usize> {
    for name in 0..NAMES {
        bind(handles, name, start.wrapping_add(name))?;
    }
    Some(handles.open_objects())
}

// Whether a name is the only one of the object with a number, and closes it.
fn closes(handles: &mut Handles, name: u16, number: u16) -> Option<bool> {
    let object = opened(number, 1);
    let found = handles.object_of(object.entry);
    let released = release(handles, name)?;
    Some(found == Some(object) && released == Released::Last(object))
}

// Releases each of those names, and gives how many objects are open.
fn close_all(handles: &mut Handles, start: u16) -> Option<usize> {
    for name in 0..NAMES {
        if !closes(handles, name, start.wrapping_add(name))? {
            return None;
        }
    }
    Some(handles.open_objects())
}

#[test]
fn as_many_objects_as_names_are_open_at_once(rt: HostRuntime) -> Result<(), Fail> {
    let mut handles = Handles::new(rt.alloc())?;
    // three times, so that the memory of closed objects is used again
    for start in [0, 30000, 10000] {
        assert_same(&rt, open_all(&mut handles, start), Some(4096));
        assert_same(&rt, close_all(&mut handles, start), Some(0));
    }
    Ok(())
}

// Binds a name to object 1, which is doomed, as object 2 isn't, and two names to object 2, whose record is
// one of its own. Gives whether each was open.
fn doom_and_succeed(handles: &mut Handles) -> Option<[bool; 2]> {
    bind(handles, 0, 1)?;
    let doomed = [handles.doom_entry(entry(1)), handles.doom_entry(entry(2))];
    bind(handles, 1, 2)?;
    bind(handles, 2, 2)?;
    Some(doomed)
}

// Makes object 2 dirty by its first name, and gives the object by its other one.
fn mark_by_another_name(handles: &mut Handles) -> Option<OpenObject> {
    handles.object(1)?;
    handles.mark(1, false, true);
    handles.object(2)
}

// Releases a name of each of the two, and says which of them are pinned then.
fn release_both(handles: &mut Handles) -> Option<(Released, Released, [bool; 2])> {
    let second = release(handles, 1)?;
    let first = release(handles, 0)?;
    let pinned = [handles.is_pinned(entry(1)), handles.is_pinned(entry(2))];
    Some((second, first, pinned))
}

// Object 1 with one name, doomed, and object 2 with two, which is dirty.
fn doomed() -> OpenObject {
    OpenObject {
        entry: entry(1),
        node: node(1),
        names: 1,
        doomed: true,
        dirty: false,
    }
}

fn successor() -> OpenObject {
    OpenObject {
        entry: entry(2),
        node: node(2),
        names: 2,
        doomed: false,
        dirty: true,
    }
}

#[test]
fn a_doomed_object_and_its_successor_are_open(rt: HostRuntime) -> Result<(), Fail> {
    let mut handles = Handles::new(rt.alloc())?;
    assert_same(&rt, doom_and_succeed(&mut handles), Some([true, false]));
    assert_same(&rt, handles.object(0), Some(doomed()));
    assert_same(&rt, mark_by_another_name(&mut handles), Some(successor()));
    let released = (Released::More, Released::Last(doomed()), [false, true]);
    assert_same(&rt, release_both(&mut handles), Some(released));
    Ok(())
}

// Binds a name, and gives the least that is free.
fn least_with(handles: &mut Handles, name: u16) -> Option<u16> {
    bind(handles, name, 3)?;
    handles.least_name()
}

#[test]
fn the_least_name_is_told(rt: HostRuntime) -> Result<(), Fail> {
    let mut handles = Handles::new(rt.alloc())?;
    assert!(rt; handles.least_name().is_none());
    for name in [4095, 4000, 17, 1, 0] {
        assert_same_at(&rt, least_with(&mut handles, name), Some(name), name);
    }
    Ok(())
}
