//! Who got each mutex at its last ranks.
use ro_takers::{MOST_APART, Takers};
use std::test::Fail;

#[test]
fn tells_who_got_which_of_two_mutexes(rt: HostRuntime) -> Result<(), Fail> {
    let mut takers = Takers::new(rt.alloc());
    takers.reserve()?;
    takers.enter();
    takers.note(0, 2, 7);
    takers.reserve()?;
    takers.enter();
    takers.note(1, 1, 255);
    takers.note(0, 3, 4);
    assert_eq!(rt; takers.rank(0), 3);
    assert_eq!(rt; takers.taker(0, 0), Some(7));
    assert_eq!(rt; takers.taker(0, 1), Some(7));
    assert_eq!(rt; takers.taker(0, 2), Some(4));
    assert_eq!(rt; takers.taker(0, 3), None);
    assert_eq!(rt; takers.rank(1), 1);
    assert_eq!(rt; takers.taker(1, 0), Some(255));
    assert_eq!(rt; takers.taker(1, 1), None);
    // up to a rank that it has, it isn't got
    takers.note(0, 3, 5);
    takers.note(0, 1, 5);
    assert_eq!(rt; takers.rank(0), 3);
    assert_eq!(rt; takers.taker(0, 2), Some(4));
    Ok(())
}

// with one rank more, the first one's place is another's
#[test]
fn keeps_the_last_1024_ranks(rt: HostRuntime) -> Result<(), Fail> {
    let mut takers = Takers::new(rt.alloc());
    takers.reserve()?;
    takers.enter();
    takers.note(0, 1, 1);
    takers.note(0, MOST_APART - 1, 2);
    takers.note(0, MOST_APART, 3);
    assert_eq!(rt; takers.taker(0, 0), Some(1));
    assert_eq!(rt; takers.taker(0, 1022), Some(2));
    assert_eq!(rt; takers.taker(0, 1023), Some(3));
    takers.note(0, 1025, 4);
    assert_eq!(rt; takers.rank(0), 1025);
    assert_eq!(rt; takers.taker(0, 1), Some(2));
    assert_eq!(rt; takers.taker(0, 1023), Some(3));
    assert_eq!(rt; takers.taker(0, 1024), Some(4));
    assert_eq!(rt; takers.taker(0, 1025), None);
    takers.note(0, 3000, 5);
    assert_eq!(rt; takers.taker(0, 1976), Some(5));
    assert_eq!(rt; takers.taker(0, 2999), Some(5));
    assert_eq!(rt; takers.taker(0, 3000), None);
    Ok(())
}
