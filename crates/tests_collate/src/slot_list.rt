//! Places with their fronts are put in, taken out and lent in parts, few and many.

use assertions::assert_same;
use collate_lists::fronts::Front;
use collate_lists::slot_list::SlotList;
use collate_lists::windows::FrontedSlot;
use std::alloc::{AllocError, Global};
use std::cmp::Ordering;
use std::test::Fail;

/// A front of a slot's own.
fn front_of(slot: usize) -> Front {
    Front::new(&slot.to_be_bytes())
}

/// A slot with a front of its own.
fn placed(slot: usize) -> FrontedSlot {
    let front = front_of(slot);
    FrontedSlot { front, slot }
}

/// Whether a slot with its front is this one.
fn is_slot(found: Option<FrontedSlot>, slot: usize) -> bool {
    let mut count = 0;
    match found {
        Some(placed) => {
            let ordering = placed.front.compare(&front_of(slot), &mut count);
            placed.slot == slot && ordering == Ordering::Equal
        }
        None => false,
    }
}

#[test]
fn ok_insert(rt: HostRuntime) -> Result<(), Fail> {
    let mut list = SlotList::new(rt.alloc());
    assert!(rt; list.is_empty());
    list.insert(0, placed(7))?;
    list.insert(0, placed(5))?;
    list.insert(1, placed(6))?;
    assert_same!(rt; list.len(), 3);
    assert!(rt; is_slot(list.at(0), 5));
    assert!(rt; is_slot(list.at(1), 6));
    assert!(rt; is_slot(list.at(2), 7));
    assert!(rt; list.at(3).is_none());
    assert!(rt; is_slot(Some(list.remove(1)), 6));
    assert!(rt; is_slot(list.at(1), 7));
    Ok(())
}

/// Whether two lists are the same.
fn are_same(list: &SlotList, plain: &[usize]) -> bool {
    for (rank, slot) in plain.iter().enumerate() {
        if !is_slot(list.at(rank), *slot) {
            return false;
        }
    }
    list.len() == plain.len()
}

/// Whether each rank is in the part that is lent for it, wherever it is looked for first.
fn are_lent(list: &SlotList, plain: &[usize], first: usize, last: usize) -> bool {
    for (rank, slot) in plain.iter().enumerate() {
        let window = list.around(rank, first, last);
        if rank < window.start {
            return false;
        }
        match window.slots.get(rank - window.start) {
            Some(placed) if placed.slot == *slot => {}
            _ => return false,
        }
    }
    list.around(plain.len(), first, last).slots.is_empty()
}

/// In how many parts a list is lent.
fn count_parts(list: &SlotList) -> usize {
    let mut last = None;
    let mut parts: usize = 0;
    for rank in 0..list.len() {
        let part = Some(list.around(rank, 0, usize::MAX).part);
        if part != last {
            parts = parts.saturating_add(1);
        }
        last = part;
    }
    parts
}

/// So many slots, put in all over, in parts and in one piece.
fn put_in(alloc: Global, count: usize) -> Result<(SlotList, Vec<usize>), AllocError> {
    let mut list = SlotList::new(alloc);
    let mut plain = Vec::new(alloc);
    for slot in 0..count {
        let rank = slot.wrapping_mul(7919) % (plain.len() + 1);
        if rank <= list.len() {
            list.insert(rank, placed(slot))?;
        }
        plain.insert(rank, slot)?;
    }
    Ok((list, plain))
}

/// Takes so many slots out all over, and tells whether they were the same.
fn take_out(list: &mut SlotList, plain: &mut Vec<usize>, count: usize) -> bool {
    for step in 0..count {
        if plain.is_empty() {
            return false;
        }
        let rank = step.wrapping_mul(7919) % plain.len();
        if list.len() <= rank || !is_slot(Some(list.remove(rank)), plain.remove(rank)) {
            return false;
        }
    }
    true
}

#[test]
fn ok_push(rt: HostRuntime) -> Result<(), Fail> {
    let mut list = SlotList::new(rt.alloc());
    let mut plain = Vec::new(rt.alloc());
    for slot in 0..2000 {
        list.push(placed(slot))?;
        plain.push(slot)?;
    }
    assert!(rt; are_same(&list, plain.as_slice()));
    assert_same!(rt; count_parts(&list), 4);
    Ok(())
}

#[test]
fn lists_are_split_and_let_go(rt: HostRuntime) -> Result<(), Fail> {
    let (mut list, mut plain) = put_in(rt.alloc(), 3000)?;
    assert!(rt; are_same(&list, &plain));
    assert!(rt; take_out(&mut list, &mut plain, 2900));
    assert_same!(rt; list.len(), 100);
    assert!(rt; are_same(&list, &plain));
    assert!(rt; take_out(&mut list, &mut plain, 100));
    assert!(rt; list.is_empty());
    Ok(())
}

#[test]
fn parts_are_joined(rt: HostRuntime) -> Result<(), Fail> {
    let (mut list, mut plain) = put_in(rt.alloc(), 60_000)?;
    assert!(rt; count_parts(&list) > 128, "more than a block of ranks");
    assert!(rt; are_same(&list, &plain));
    assert!(rt; take_out(&mut list, &mut plain, 59_000));
    assert!(rt;
        count_parts(&list) < 7,
        "1,000 slots, two parts hold 385 at least"
    );
    assert!(rt; are_same(&list, &plain));
    assert!(rt; 500 <= list.len());
    list.insert(500, placed(9))?;
    assert!(rt; is_slot(list.at(500), 9));
    Ok(())
}

#[test]
fn parts_are_lent(rt: HostRuntime) -> Result<(), Fail> {
    let (list, plain) = put_in(rt.alloc(), 3000)?;
    assert!(rt; are_lent(&list, &plain, 0, usize::MAX));
    assert!(rt; are_lent(&list, &plain, 3, 5));
    assert!(rt; are_lent(&list, &plain, 7, 2));
    Ok(())
}

#[test]
fn fronts_compare_as_bytes(rt: HostRuntime) -> Result<(), Fail> {
    let mut count = 0;
    let ordering = Front::new(b"ab").compare(&Front::new(b"b"), &mut count);
    assert_same!(rt; ordering, Ordering::Less);
    assert_same!(rt; count, 1);
    let ordering = Front::new(b"ab\x00c").compare(&Front::new(b"ab"), &mut count);
    assert_same!(rt; ordering, Ordering::Greater);
    assert_same!(rt; count, 2);
    let ordering = Front::new(b"abcdefghi").compare(&Front::new(b"abcdefghj"), &mut count);
    assert_same!(rt; ordering, Ordering::Equal);
    assert_same!(rt; count, 2);
    Ok(())
}
