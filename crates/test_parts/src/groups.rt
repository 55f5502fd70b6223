//! Which threads stand still in every replica.
use ro_group::Groups;
use std::test::Fail;

#[test]
fn waits_for_every_replica(rt: HostRuntime) -> Result<(), Fail> {
    let mut groups = Groups::new(rt.alloc(), 3)?;
    groups.note(0, 15);
    groups.note(2, 15);
    assert!(rt; groups.stopped(0, 15));
    assert!(rt; !groups.stopped(1, 15));
    assert!(rt; !groups.ready(15));
    groups.note(1, 15);
    assert!(rt; groups.ready(15));
    assert!(rt; !groups.ready(14));
    // what is noted or cancelled twice counts once
    groups.note(1, 15);
    groups.cancel(2, 15);
    groups.cancel(2, 15);
    assert!(rt; !groups.ready(15));
    groups.note(2, 15);
    assert!(rt; groups.ready(15));
    groups.release(15);
    assert!(rt; !groups.stopped(0, 15));
    assert!(rt; !groups.stopped(2, 15));
    assert!(rt; !groups.ready(15));
    Ok(())
}
