// The end of a session whose handles are open.
use crate::same::assert_same;
use std::test::Fail;
use test_folders::stopping::empty;
use test_sessions::sessions::{LIMITS, Session, held};

#[test]
fn the_bound_names_are_closed_one_after_another(rt: HostRuntime) -> Result<(), Fail> {
    let mut session = Session::over(rt.alloc(), empty(rt.alloc()), LIMITS)?;
    session.run(&[b"create 7 a", b"create 3 b", b"open 9 a"])?;
    for _ in 0..3 {
        assert!(rt; session.cache.has_names());
        assert!(rt; session.cache.close_next(&mut session.f, 100)?);
    }
    assert!(rt; !session.cache.has_names());
    assert!(rt; !session.cache.close_next(&mut session.f, 100)?);
    assert_same(&rt, session.out.written(), b"ok\nok\nok\n");
    let (items, bytes, _) = held(rt.alloc(), session.f)?;
    assert_same(&rt, (items, bytes), (2, 2));
    Ok(())
}
