//! A heap of many timers.
use due_timers::Timers;
use std::test::*;

#[test]
fn million_timers(rt: HostRuntime) -> Result<(), Fail> {
    let mut timers = Timers::new(rt.alloc());
    assert!(rt; timers.reserve(1_000_000, 1_000_000).is_ok());
    for i in 0..1_000_000u64 {
        timers.add(i as u32, i, i * 7919 % 1_000_000);
    }
    for deadline in 0..1_000_000u64 {
        assert!(rt; timers.least() == Some(deadline));
        match timers.take_due(deadline) {
            Some(item) => assert!(rt; u64::from(item) * 7919 % 1_000_000 == deadline),
            None => assert!(rt; false, "nothing is due at {deadline}"),
        }
    }
    assert!(rt; timers.least().is_none());
    drop(timers);
    Ok(())
}
