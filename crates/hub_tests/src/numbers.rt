use number_set::NumberSet;
use std::test::Fail;

/// The numbers of the set, one digit for each, in the order in which they came.
fn digits(set: &NumberSet) -> u64 {
    let mut all = 0u64;
    for number in set.as_slice() {
        all = all.wrapping_mul(10).wrapping_add(*number as u64);
    }
    all
}

#[test]
fn numbers_come_once(rt: HostRuntime) -> Result<(), Fail> {
    let mut set = NumberSet::new(rt.alloc());
    assert!(rt; digits(&set) == 0 && set.room() == 0);
    set.reserve(6)?;
    set.insert(4);
    set.insert(1);
    set.insert(4);
    set.insert(5);
    set.insert(1);
    assert!(rt; digits(&set) == 415);
    set.reserve(9)?;
    set.insert(8);
    assert!(rt; digits(&set) == 4158);
    set.clear();
    assert!(rt; digits(&set) == 0 && set.room() >= 9);
    set.insert(8);
    set.insert(4);
    assert!(rt; digits(&set) == 84);
    Ok(())
}
