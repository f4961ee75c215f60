//! Maps of numbers: each call once with ample memory, and copies that are left alone.
use crate::assertions::assert_same;
use shared_map::SharedMap;
use std::alloc::{AllocError, Global};

/// How many keys there are.
const KEYS: u64 = 200;

/// Returns a map of the squares of the first numbers, put in an order that is not theirs.
fn squares(alloc: Global) -> Result<SharedMap<u64, u64>, AllocError> {
    let mut map = SharedMap::new(alloc);
    for i in 0..KEYS {
        let key = i.wrapping_mul(77) % KEYS;
        map.insert(key, key.wrapping_mul(key))?;
    }
    Ok(map)
}

/// Returns how many of the entries have the key that is their place.
fn in_place(entries: &[&(u64, u64)]) -> usize {
    let mut count: usize = 0;
    for (place, entry) in entries.iter().enumerate() {
        if entry.0 == place as u64 {
            count = count.saturating_add(1);
        }
    }
    count
}

/// Returns how many entries are in place, and how many there are from 5 to before 8.
fn found(alloc: Global) -> Result<[usize; 2], AllocError> {
    let map = squares(alloc)?;
    let all = in_place(map.all(alloc)?.as_slice());
    let few = map.between(alloc, &5, &8)?.len();
    Ok([all, few])
}

#[test]
fn what_was_put_is_found_in_order(rt: HostRuntime) {
    assert_same(&rt, &found(rt.alloc()), &Ok([200, 3]));
}

/// How many entries a map has, and what is found of 9, of 10 and of 200.
type Seen = (usize, [Option<u64>; 3]);

/// Returns what is seen of a map.
fn seen(map: &SharedMap<u64, u64>) -> Seen {
    let (nine, ten) = (map.get(&9).copied(), map.get(&10).copied());
    (map.len(), [nine, ten, map.get(&200).copied()])
}

/// Removes 9 and puts another value for 10. It returns what is seen then, and what is seen of a copy that was made before.
fn copied(alloc: Global) -> Result<(Seen, Seen), AllocError> {
    let mut map = squares(alloc)?;
    let copy = map.try_copy()?;
    map.remove(&9)?;
    map.insert(10, 0)?;
    Ok((seen(&map), seen(&copy)))
}

#[test]
fn a_copy_is_left_alone(rt: HostRuntime) {
    assert_same(
        &rt,
        &copied(rt.alloc()),
        &Ok((
            (199, [None, Some(0), None]),
            (200, [Some(81), Some(100), None]),
        )),
    );
}
