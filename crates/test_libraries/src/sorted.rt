//! A map of many chunks: keys that come in ascending, descending and scattered order, and half of them taken out again.

use nn_sorted::SortedMap;
use std::alloc::Global;
use std::process::Abort;
use std::test::Fail;

const COUNT: u32 = 10_000;

#[test]
fn ascending_keys(rt: HostRuntime) -> Result<(), Fail> {
    lives(&rt, rt.alloc(), 1)
}

#[test]
fn descending_keys(rt: HostRuntime) -> Result<(), Fail> {
    lives(&rt, rt.alloc(), 9_999)
}

#[test]
fn scattered_keys(rt: HostRuntime) -> Result<(), Fail> {
    lives(&rt, rt.alloc(), 7_919)
}

// The n-th key is n times this number, modulo the count.
fn lives(rt: &impl Abort, alloc: Global, step: u32) -> Result<(), Fail> {
    let mut map = SortedMap::new(alloc);
    fill(&mut map, step)?;
    assert_eq!(rt; map.len(), 10_000);
    assert!(rt; has_each(&map, 1));
    assert_eq!(rt; in_order(&map), Some(10_000));
    take_odd(&mut map);
    assert_eq!(rt; map.len(), 5_000);
    assert!(rt; has_each(&map, 2));
    assert_eq!(rt; in_order(&map), Some(5_000));
    fill(&mut map, step)?;
    assert_eq!(rt; map.len(), 10_000);
    assert!(rt; has_each(&map, 1));
    Ok(())
}

// Each key has twice itself as its value.
fn fill(map: &mut SortedMap<u32, u32>, step: u32) -> Result<(), Fail> {
    for n in 0..COUNT {
        let key = n.wrapping_mul(step) % COUNT;
        let Ok(_before) = map.insert(key, key.wrapping_mul(2)) else {
            return Err(Fail::new("memory was refused"));
        };
    }
    Ok(())
}

fn take_odd(map: &mut SortedMap<u32, u32>) {
    for key in 0..COUNT {
        if key % 2 == 1 {
            let _value = map.remove(&key);
        }
    }
}

// Whether each multiple of this number is a key with its value.
fn has_each(map: &SortedMap<u32, u32>, step: u32) -> bool {
    for key in 0..COUNT {
        if key % step.max(1) == 0 && map.get(&key).copied() != Some(key.wrapping_mul(2)) {
            return false;
        }
    }
    true
}

// How many entries there are, if their keys ascend.
fn in_order(map: &SortedMap<u32, u32>) -> Option<u32> {
    let mut count = 0u32;
    let mut next = 0;
    for (key, _value) in map.iter() {
        if *key < next {
            return None;
        }
        next = key.saturating_add(1);
        count = count.saturating_add(1);
    }
    Some(count)
}
