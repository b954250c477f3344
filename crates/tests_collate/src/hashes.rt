//! Hashes are put in, taken out and found again, few and many.

ghost use Rattle.std.specs.Prelude.{◌<◌};

use assertions::assert_same;
use collate_lists::hash_list::HashList;
use collate_lists::hashing::{FIXED_SEED, hash_of};
use std::alloc::{AllocError, Global};
use std::test::Fail;

// by powers of the point modulo 4,294,967,291, in Python
#[test]
fn ok_hash_of(rt: HostRuntime) {
    assert_same!(rt; hash_of(7, b""), 1);
    assert_same!(rt; hash_of(7, b"a"), 99);
    assert_same!(rt; hash_of(7, b"ab"), 786);
    assert_same!(rt; hash_of(FIXED_SEED, b"ab"), 1_578_635_678);
    assert_same!(rt; hash_of(FIXED_SEED, b"a name of more than eight bytes"), 3_108_687_587);
}

/// Puts a hash after the others, once there is room.
fn put(list: &mut HashList, hash: usize) -> Result<(), AllocError>
    requires { 0 < hash }
{
    list.reserve()?;
    list.push(hash);
    Ok(())
}

#[test]
fn ok_push(rt: HostRuntime) -> Result<(), Fail> {
    let mut list = HashList::new(rt.alloc(), FIXED_SEED);
    assert_same!(rt; list.last_before(7, 3), None);
    put(&mut list, 7)?;
    put(&mut list, 5)?;
    put(&mut list, 7)?;
    assert_same!(rt; list.last_before(7, 3), Some(2));
    assert_same!(rt; list.last_before(7, 2), Some(0));
    assert_same!(rt; list.last_before(7, 0), None);
    assert_same!(rt; list.last_before(16, 3), None);
    if !list.is_empty() {
        list.take_out(0);
    }
    assert_same!(rt; list.last_before(7, 3), Some(2));
    assert_same!(rt; list.last_before(7, 2), None);
    list.drop_empty();
    assert_same!(rt; list.last_before(5, 2), Some(0));
    assert_same!(rt; list.last_before(7, 2), Some(1));
    Ok(())
}

#[test]
fn ok_reserve(rt: HostRuntime) -> Result<(), Fail> {
    let mut list = HashList::new(rt.alloc(), FIXED_SEED);
    list.reserve()?;
    assert!(rt; list.is_empty());
    list.push(3);
    list.reserve()?;
    assert_same!(rt; list.len(), 1);
    assert_same!(rt; list.last_before(3, 1), Some(0));
    Ok(())
}

#[test]
fn ok_same_before(rt: HostRuntime) -> Result<(), Fail> {
    let mut list = HashList::new(rt.alloc(), FIXED_SEED);
    for hash in [7, 16, 7, 25] {
        put(&mut list, hash + 1)?;
    }
    assert_same!(rt; list.last_before(8, 4), Some(2));
    if let Some(place) = list.last_before(8, list.len()) {
        assert_same!(rt; list.same_before(place), Some(0));
    }
    Ok(())
}

/// The last place before an end at which a number stands, looked for one by one.
fn plain_last(plain: &[usize], hash: usize, end: usize) -> Option<usize> {
    let mut last = None;
    for (place, other) in plain.iter().enumerate() {
        if place < end && *other == hash {
            last = Some(place);
        }
    }
    last
}

/// So many hashes, of few values, some of them taken out.
fn put_in(alloc: Global, count: usize) -> Result<(HashList, Vec<usize>), AllocError> {
    let mut list = HashList::new(alloc, FIXED_SEED);
    let mut plain = Vec::new(alloc);
    for step in 0..count {
        let hash = step.wrapping_mul(step) % 37 + 1;
        put(&mut list, hash)?;
        plain.push(hash)?;
    }
    for step in 0..count {
        if step % 3 == 1 && step < plain.len() && step < list.len() {
            plain[step] = 0;
            list.take_out(step);
        }
    }
    Ok((list, plain))
}

/// Whether each hash is found before each of some ends.
fn are_found(list: &HashList, plain: &[usize]) -> bool {
    for hash in 1..40 {
        for end in [0, 1, 7, 100, 255, 300, 700] {
            if hash > 0 && list.last_before(hash, end) != plain_last(plain, hash, end) {
                return false;
            }
        }
    }
    true
}

#[test]
fn ok_many(rt: HostRuntime) -> Result<(), Fail> {
    let (mut list, mut plain) = put_in(rt.alloc(), 500)?;
    assert!(rt; are_found(&list, plain.as_slice()));
    list.drop_empty();
    plain.retain(|hash| *hash > 0);
    assert!(rt; are_found(&list, plain.as_slice()));
    Ok(())
}
