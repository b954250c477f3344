//! Lines put in order, and looked through.

use crate::letters::{NAMES, order_of};
use assertions::assert_same;
use collate_sort::Direction;
use collate_sort::list::LineList;
use collate_sort::order::LineOrder;
use std::alloc::{AllocError, Global};
use std::test::Fail;

/// A list of the names.
fn names_by<'o>(alloc: Global, order: &'o LineOrder) -> Result<LineList<'o>, AllocError> {
    let mut list = LineList::new(alloc, order);
    for name in NAMES {
        list.add(name, None)?;
    }
    Ok(list)
}

/// Whether a list has just these lines.
fn holds(list: &LineList<'_>, expected: &[&[u8]]) -> bool {
    if list.len() != expected.len() {
        return false;
    }
    for (place, line) in expected.iter().enumerate() {
        if list.get(place) != Some(*line) {
            return false;
        }
    }
    true
}

#[test]
fn ok_add(rt: HostRuntime) -> Result<(), Fail> {
    let order = order_of(rt.alloc(), Direction::Ascending)?;
    let mut list = LineList::new(rt.alloc(), &order);
    assert!(rt; list.is_empty());
    assert_same!(rt; list.held(), 0);
    list.add(b"co", None)?;
    list.add(b"1 co", Some(b"ab"))?;
    assert!(rt; holds(&list, &[b"co", b"1 co"]));
    assert!(rt; list.held() > 0);
    list.clear();
    assert!(rt; list.is_empty());
    Ok(())
}

#[test]
fn ok_sort(rt: HostRuntime) -> Result<(), Fail> {
    let order = order_of(rt.alloc(), Direction::Ascending)?;
    let mut list = names_by(rt.alloc(), &order)?;
    list.sort()?;
    let expected: [&[u8]; 15] = [
        b"",
        b"ab",
        b"\xE1\xBA\xA1\xCC\x81b",
        b"a\xCC\x81\xCC\xA3b",
        b"\xC3\xA1\xCC\xA3b",
        b"abe",
        b"ba",
        b"b\xC3\xA1",
        b"ba\xCC\x81",
        b"b\xC3\xA1",
        b"bab",
        b"be",
        b"cab",
        b"co",
        b"tb",
    ];
    assert!(rt; holds(&list, &expected));
    Ok(())
}

#[test]
fn equal_lines_stay_where_the_greatest_is_first(rt: HostRuntime) -> Result<(), Fail> {
    let order = order_of(rt.alloc(), Direction::Descending)?;
    let mut list = names_by(rt.alloc(), &order)?;
    list.sort()?;
    let expected: [&[u8]; 15] = [
        b"tb",
        b"co",
        b"cab",
        b"be",
        b"bab",
        b"b\xC3\xA1",
        b"ba\xCC\x81",
        b"b\xC3\xA1",
        b"ba",
        b"abe",
        b"\xE1\xBA\xA1\xCC\x81b",
        b"a\xCC\x81\xCC\xA3b",
        b"\xC3\xA1\xCC\xA3b",
        b"ab",
        b"",
    ];
    assert!(rt; holds(&list, &expected));
    Ok(())
}

#[test]
fn ok_sort_unique(rt: HostRuntime) -> Result<(), Fail> {
    let order = order_of(rt.alloc(), Direction::Ascending)?;
    let mut list = names_by(rt.alloc(), &order)?;
    list.sort_unique()?;
    let expected: [&[u8]; 11] = [
        b"",
        b"ab",
        b"\xE1\xBA\xA1\xCC\x81b",
        b"abe",
        b"ba",
        b"b\xC3\xA1",
        b"bab",
        b"be",
        b"cab",
        b"co",
        b"tb",
    ];
    assert!(rt; holds(&list, &expected));
    Ok(())
}

#[test]
fn first_unordered_is_found(rt: HostRuntime) -> Result<(), Fail> {
    let order = order_of(rt.alloc(), Direction::Ascending)?;
    let mut list = LineList::new(rt.alloc(), &order);
    list.add(b"ab", None)?;
    list.add(b"b\xC3\xA1", None)?;
    list.add(b"ba\xCC\x81", None)?;
    assert_same!(rt; list.first_unordered(false), None);
    assert_same!(rt; list.first_unordered(true), Some(2));
    list.add(b"ba", None)?;
    assert_same!(rt; list.first_unordered(false), Some(3));
    Ok(())
}

#[test]
fn ok_write_key(rt: HostRuntime) -> Result<(), Fail> {
    let order = order_of(rt.alloc(), Direction::Ascending)?;
    let mut list = LineList::new(rt.alloc(), &order);
    list.add(b"b\xC3\xA1", None)?;
    list.add(b"x", Some(b"ba\xCC\x81"))?;
    let mut key = Vec::new(rt.alloc());
    order.write_key(b"b\xC3\xA1", &mut key)?;
    assert_eq!(rt; list.key(0), Some(key.as_slice()));
    assert_eq!(rt; list.key(1), Some(key.as_slice()));
    assert_eq!(rt; list.key(2), None);
    assert!(rt; order.direction() == Direction::Ascending);
    Ok(())
}
