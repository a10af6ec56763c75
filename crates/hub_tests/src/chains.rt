use slot_chains::Chains;
use std::test::Fail;

/// The slots of the chain, one digit for each, from the first to the last.
fn digits(chains: &Chains, key: usize) -> u64 {
    let mut all = 0u64;
    let mut at = chains.first(key);
    for _ in 0..9 {
        match at {
            None => return all,
            Some(slot) => {
                all = all.wrapping_mul(10).wrapping_add(slot as u64);
                at = chains.after(slot);
            }
        }
    }
    all
}

#[test]
fn slots_come_and_go(rt: HostRuntime) -> Result<(), Fail> {
    let mut chains = Chains::new(rt.alloc());
    assert_eq!(rt; chains.first(2), None);
    assert_eq!(rt; chains.after(9), None);
    chains.reserve(10, 3)?;
    chains.push(2, 5);
    chains.push(0, 1);
    chains.push(2, 9);
    chains.push(2, 4);
    chains.push(0, 7);
    assert_eq!(rt; digits(&chains, 0), 17);
    assert_eq!(rt; digits(&chains, 1), 0);
    assert_eq!(rt; digits(&chains, 2), 594);
    assert_eq!(rt; chains.before(4), Some(9));
    assert_eq!(rt; chains.before(5), None);
    chains.remove(2, 9);
    chains.remove(0, 1);
    chains.push(0, 9);
    assert_eq!(rt; digits(&chains, 0), 79);
    assert_eq!(rt; digits(&chains, 2), 54);
    chains.remove(2, 5);
    chains.remove(2, 4);
    assert_eq!(rt; digits(&chains, 2), 0);
    chains.push(1, 4);
    assert_eq!(rt; digits(&chains, 1), 4);
    Ok(())
}
