//! Lists.
use http_messages::Sequence;
use std::alloc::{AllocError, Global};

/// Whether these are the numbers that were kept, and none is behind them.
fn are_kept(numbers: &Sequence<u32>) -> bool {
    numbers.len() == 5
        && numbers.items() == [3, 1, 4, 1, 5].as_slice()
        && numbers.get(2).copied() == Some(4)
        && numbers.get(5).is_none()
}

/// Whether two numbers are kept behind three others, and the first two once those behind them are cut off.
fn keeps_numbers(alloc: Global) -> Result<bool, AllocError> {
    let mut numbers = Sequence::from_vec(vec![in alloc; 3u32, 1, 4]?);
    let is_pushed = numbers.push(1).is_ok() && numbers.push(5).is_ok();
    let is_kept = is_pushed && are_kept(&numbers);
    numbers.truncate(2);
    let left = numbers.into_vec();
    Ok(is_kept && left.as_slice() == [3, 1].as_slice())
}

/// Whether an empty list keeps the bytes that it is given in two parts.
fn keeps_bytes(alloc: Global) -> bool {
    let mut text: Sequence<u8> = Sequence::new(alloc);
    text.is_empty()
        && text.extend_from_slice(b"ab").is_ok()
        && text.extend_from_slice(b"c").is_ok()
        && text.items() == b"abc".as_slice()
        && !text.is_empty()
}

#[test]
fn keeps_its_elements_in_order(rt: HostRuntime) {
    assert!(rt; keeps_bytes(rt.alloc()));
    assert!(rt; keeps_numbers(rt.alloc()) == Ok(true));
}
