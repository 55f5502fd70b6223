//! Who owns which mutex, and how many there are.
use ro_mutex::{Entered, Locked, MutexTable, Tried, Unlocked};
use std::test::Fail;

#[test]
fn locks_and_frees(rt: HostRuntime) -> Result<(), Fail> {
    let mut table = MutexTable::new(rt.alloc())?;
    assert_eq!(rt; table.unlock(8, 0), Unlocked::NotOwner);
    assert_eq!(rt; table.owner(8), None);
    assert_eq!(rt; table.lock(8, 1), Locked::Got);
    assert_eq!(rt; table.lock(8, 1), Locked::Deadlock);
    assert_eq!(rt; table.lock(8, 2), Locked::Held);
    assert_eq!(rt; table.trylock(8, 1), Tried::Busy);
    assert_eq!(rt; table.trylock(8, 2), Tried::Busy);
    assert_eq!(rt; table.unlock(8, 2), Unlocked::NotOwner);
    assert_eq!(rt; table.owner(8), Some(Some(1)));
    assert_eq!(rt; table.unlock(8, 1), Unlocked::Freed);
    assert_eq!(rt; table.owner(8), Some(None));
    assert_eq!(rt; table.unlock(8, 1), Unlocked::NotOwner);
    assert_eq!(rt; table.trylock(8, 2), Tried::Got);
    assert_eq!(rt; table.owner(8), Some(Some(2)));
    Ok(())
}

// one that is there stays as it is, held or free
#[test]
fn enters_what_is_not_there(rt: HostRuntime) -> Result<(), Fail> {
    let mut table = MutexTable::new(rt.alloc())?;
    assert_eq!(rt; table.enter(8), Entered::Added);
    assert_eq!(rt; table.owner(8), Some(None));
    assert_eq!(rt; table.owner(12), None);
    assert_eq!(rt; table.enter(8), Entered::Known);
    assert_eq!(rt; table.unlock(8, 1), Unlocked::NotOwner);
    assert_eq!(rt; table.lock(8, 1), Locked::Got);
    assert_eq!(rt; table.enter(8), Entered::Known);
    assert_eq!(rt; table.owner(8), Some(Some(1)));
    assert_eq!(rt; table.lock(12, 2), Locked::Got);
    assert_eq!(rt; table.enter(12), Entered::Known);
    assert_eq!(rt; table.owner(12), Some(Some(2)));
    Ok(())
}

#[test]
fn enters_256_addresses(rt: HostRuntime) -> Result<(), Fail> {
    let mut table = MutexTable::new(rt.alloc())?;
    for place in 0..256u32 {
        assert_eq!(rt; table.enter(4 * place), Entered::Added, "{place}");
    }
    assert_eq!(rt; table.enter(2000), Entered::Full);
    assert_eq!(rt; table.owner(2000), None);
    assert_eq!(rt; table.lock(2000, 0), Locked::Full);
    assert_eq!(rt; table.trylock(2000, 0), Tried::Full);
    assert_eq!(rt; table.enter(1020), Entered::Known);
    assert_eq!(rt; table.lock(1020, 0), Locked::Got);
    Ok(())
}

#[test]
fn holds_256_addresses(rt: HostRuntime) -> Result<(), Fail> {
    let mut table = MutexTable::new(rt.alloc())?;
    for place in 0..256u32 {
        assert_eq!(rt; table.lock(4 * place, 0), Locked::Got, "{place}");
    }
    assert_eq!(rt; table.lock(2000, 0), Locked::Full);
    assert_eq!(rt; table.trylock(2000, 0), Tried::Full);
    // a freed address keeps its place
    assert_eq!(rt; table.unlock(40, 0), Unlocked::Freed);
    assert_eq!(rt; table.lock(2000, 0), Locked::Full);
    assert_eq!(rt; table.lock(40, 3), Locked::Got);
    Ok(())
}
