//! Lists in a row, and the edits of one.

ghost use Rattle.std.specs.Prelude.{◌≡◌, ◌+◌, ◌-◌, ◌<◌, ◌≤◌, [], All, drop, length, take, Some, insert, remove, slice_get, slice_index, slice_set, vec_capacity};
ghost use Rattle.collate_lists.specs.Lists.{joined, lengths, rank_of, starts_of, raised, lowered, renumbered, AreRoomy};
ghost use Rattle.collate_lists.specs.Parts.{AreJoinable};

use crate::windows::FrontedSlot;

/// How many values a list holds at most. Each has memory for so many.
pub(crate) const FULL: usize = 512;

/// How many are left in a list that was full and is now two.
pub(crate) const HALF: usize = 256;

/// Puts a value at an index of a list.
pub(crate) fn put(lists: &mut Vec<Vec<FrontedSlot>>, part: usize, index: usize, value: FrontedSlot)
    requires room { AreRoomy lists.old.items }
    requires part { part < length lists.old.items }
    requires index { index ≤ slice_index (lengths lists.old.items) part }
    requires space { slice_index (lengths lists.old.items) part < FULL }
    ensures values { joined lists.new.items ≡ insert (joined lists.old.items) (rank_of lists.old.items part index) value }
    ensures starts { starts_of lists.new.items ≡ raised (part + 1) (starts_of lists.old.items) }
    ensures room { AreRoomy lists.new.items }
{
    let list = &mut lists[part];
    let _ = list.insert(index, value);
}

/// Takes the value at an index of a list out, and answers it.
pub(crate) fn take_out(lists: &mut Vec<Vec<FrontedSlot>>, part: usize, index: usize) -> FrontedSlot
    requires room { AreRoomy lists.old.items }
    requires part { part < length lists.old.items }
    requires index { index < slice_index (lengths lists.old.items) part }
    ensures value { slice_get (joined lists.old.items) (rank_of lists.old.items part index) ≡ Some result }
    ensures values { joined lists.new.items ≡ remove (joined lists.old.items) (rank_of lists.old.items part index) }
    ensures starts { starts_of lists.new.items ≡ lowered (part + 1) (starts_of lists.old.items) }
    ensures count { length lists.new.items ≡ length lists.old.items }
    ensures room { AreRoomy lists.new.items }
{
    let list = &mut lists[part];
    list.remove(index)
}

/// Moves the second half of a full list into an empty one, which has memory for a full one.
fn cut(list: &mut Vec<FrontedSlot>, empty: Vec<FrontedSlot>) -> Vec<FrontedSlot>
    requires full { length list.old.items ≡ FULL }
    requires empty { empty.items ≡ [] }
    requires memory { FULL ≤ vec_capacity empty }
    ensures lower { list.new.items ≡ take HALF list.old.items }
    ensures upper { result.items ≡ drop HALF list.old.items }
    ensures lower_memory { vec_capacity list.new ≡ vec_capacity list.old }
    ensures upper_memory { FULL ≤ vec_capacity result }
{
    let mut upper = empty;
    let _ = upper.extend_from_slice(&list[HALF..]);
    list.truncate(HALF);
    upper
}

/// Moves the second half of a full list into a list of its own after it. An empty one is given for it, and there is room.
pub(crate) fn halve(lists: &mut Vec<Vec<FrontedSlot>>, part: usize, empty: Vec<FrontedSlot>)
    requires room { AreRoomy lists.old.items }
    requires part { part < length lists.old.items }
    requires full { slice_index (lengths lists.old.items) part ≡ FULL }
    requires empty { empty.items ≡ [] }
    requires memory { FULL ≤ vec_capacity empty }
    requires space { length lists.old.items < vec_capacity lists.old }
    ensures values { joined lists.new.items ≡ joined lists.old.items }
    ensures starts { starts_of lists.new.items ≡ insert (starts_of lists.old.items) (part + 1) (slice_index (starts_of lists.old.items) part + HALF) }
    ensures lengths { lengths lists.new.items ≡ insert (slice_set (lengths lists.old.items) part HALF) (part + 1) HALF }
    ensures room { AreRoomy lists.new.items }
{
    let upper = cut(&mut lists[part], empty);
    let _ = lists.insert(part + 1, upper);
}

/// Makes a list one with the list after it, within the memory that it has.
pub(crate) fn join(lists: &mut Vec<Vec<FrontedSlot>>, part: usize)
    requires room { AreRoomy lists.old.items }
    requires few { AreJoinable lists.old.items part }
    ensures values { joined lists.new.items ≡ joined lists.old.items }
    ensures starts { starts_of lists.new.items ≡ remove (starts_of lists.old.items) (part + 1) }
    ensures room { AreRoomy lists.new.items }
{
    let upper = lists.remove(part + 1);
    let list = &mut lists[part];
    let _ = list.extend_from_slice(upper.as_slice());
}

/// Lets go of a list with no values.
pub(crate) fn let_go(lists: &mut Vec<Vec<FrontedSlot>>, part: usize)
    requires room { AreRoomy lists.old.items }
    requires part { part < length lists.old.items }
    requires empty { slice_index (lengths lists.old.items) part ≡ 0 }
    ensures values { joined lists.new.items ≡ joined lists.old.items }
    ensures starts { starts_of lists.new.items ≡ remove (starts_of lists.old.items) part }
    ensures room { AreRoomy lists.new.items }
{
    let _ = lists.remove(part);
}

/// Puts in place of each value of a list the number that stands at it.
fn renumber_list(list: &mut Vec<FrontedSlot>, numbers: &[usize])
    requires { All (λ value. value.slot < length numbers.now) list.old.items }
    ensures values { list.new.items ≡ renumbered numbers.now list.old.items }
    ensures memory { vec_capacity list.new ≡ vec_capacity list.old }
{
    for value in list.iter_mut() {
        value.slot = numbers[value.slot];
    }
}

/// Puts in place of each value the number that stands at it.
pub(crate) fn renumber(lists: &mut Vec<Vec<FrontedSlot>>, numbers: &[usize])
    requires room { AreRoomy lists.old.items }
    requires numbers { All (λ value. value.slot < length numbers.now) (joined lists.old.items) }
    ensures values { joined lists.new.items ≡ renumbered numbers.now (joined lists.old.items) }
    ensures starts { starts_of lists.new.items ≡ starts_of lists.old.items }
    ensures room { AreRoomy lists.new.items }
{
    for part in 0..lists.len() {
        renumber_list(&mut lists[part], numbers);
    }
}
