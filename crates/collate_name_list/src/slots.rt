//! The slots of a list of names, and binary search among the full ones.

ghost use Rattle.std.specs.Prelude.{◌≡◌, ℕ, ◌+◌, ◌*◌, ◌-◌, ◌^◌, ◌<◌, ◌≤◌, ◌↔◌, false, length, true, Some, None, IfSome, IfNone, IsTrue, slice_get, slice_index_or};
ghost use Rattle.std.specs.Cmp.Lexicographic.{slice_cmp};
ghost use Rattle.std.specs.List.{All, Contains};
ghost use Rattle.std.specs.List.Sorted.{IsPartitionedBy};
ghost use Rattle.std.specs.Option.{option_copied};
ghost use Rattle.std.specs.Ordering.{nat_cmp};
ghost use Rattle.collate_lists.specs.Search.{IsRankOf, stands_before};
ghost use Rattle.collate_lists.specs.Hashes.{hash_of};
ghost use Rattle.collate_name_list.specs.StoredNames.{names_of};
ghost use Rattle.collate_lists.specs.Fronts.{IsFrontOf};
ghost use Rattle.collate_lists.specs.Windows.{shows};
ghost use Rattle.collate_name_list.specs.Slots.{AreFronted, IsFull, IsSpan, compared, entries, entry_at, hashes_in, slots_of, slots_by_key, sought_key};

use crate::index_key::IndexKey;
use collate_lists::fronts::Front;
use collate_lists::hash_list::HashList;
use collate_lists::slot_list::SlotList;
use collate_lists::windows::{FrontedSlot, Window};
use std::cmp::Ordering;

/// A name that is kept, with its key.
pub struct Stored {
    pub bytes: Vec<u8>,
    pub key: IndexKey,
}

// (let go of as one, and not part by part, so that what owns one is proved sooner)
impl Drop for Stored {
    fn drop(self) {
        let Stored { bytes: _, key: _ } = self;
    }
}

/// What is looked for among slots in order of their keys.
#[derive(Drop)]
pub enum Sought<'a> {
    /// A key.
    Key(&'a IndexKey),
    /// A key and the slot that has it.
    Slot(&'a IndexKey, usize),
}

/// What stands in a slot; `None` also past the last slot.
pub fn stored_in(slots: &[Option<Stored>], slot: usize) -> Option<&Stored>
    ensures { option_copied result ≡ slice_index_or slots.now slot None }
{
    slots.get(slot)?.as_ref()
}

/// The key in a full slot.
pub fn key_in(slots: &[Option<Stored>], slot: usize) -> &IndexKey
    requires { IsFull slots.now slot }
    ensures { result.now ≡ (entry_at slots.now slot).key }
{
    match stored_in(slots, slot) {
        Some(stored) => &stored.key,
        None => unreachable!(),
    }
}

/// Whether a full slot has a name.
fn has_name(slots: &[Option<Stored>], slot: usize, name: &[u8]) -> bool
    requires { IsFull slots.now slot }
    ensures { IsTrue result ↔ ((entry_at slots.now slot).name ≡ name.now) }
{
    match stored_in(slots, slot) {
        Some(stored) => stored.bytes.as_slice() == name,
        None => unreachable!(),
    }
}

/// The front of what is looked for.
fn front_sought(sought: &Sought<'_>) -> Front
    ensures { IsFrontOf result (sought_key sought.now) }
{
    match sought {
        Sought::Key(key) | Sought::Slot(key, _) => key.front(),
    }
}

/// How what stands in a full slot compares with what is looked for, by all of its bytes. The count goes up by one, unless
/// it is the greatest `usize`.
fn compare_whole(
    slots: &[Option<Stored>],
    slot: usize,
    sought: &Sought<'_>,
    count: &mut usize,
) -> Ordering
    requires { IsFull slots.now slot }
    ensures order { result ≡ compared slots.now sought.now slot }
    ensures grown { count.old ≤ count.new }
    ensures few { count.new ≤ count.old + 1 }
    ensures some { 0 < count.new }
{
    // (read, so that the proof knows its range)
    let _before = *count;
    match stored_in(slots, slot) {
        Some(stored) => match sought {
            Sought::Key(key) => stored.key.compare(key, count),
            Sought::Slot(key, other) => stored.key.compare(key, count).then(slot.cmp(other)),
        },
        None => unreachable!(),
    }
}

/// How what stands in a full slot compares with what is looked for: by their fronts where these differ, and then the slot
/// isn't read. The count goes up by one, unless it is the greatest `usize`.
pub fn compare(
    slots: &[Option<Stored>],
    placed: FrontedSlot,
    sought: &Sought<'_>,
    front: &Front,
    count: &mut usize,
) -> Ordering
    requires full { IsFull slots.now placed.slot }
    requires stored { IsFrontOf placed.front (entry_at slots.now placed.slot).key }
    requires sought { IsFrontOf front.now (sought_key sought.now) }
    ensures order { result ≡ compared slots.now sought.now placed.slot }
    ensures grown { count.old ≤ count.new }
    ensures few { count.new ≤ count.old + 1 }
    ensures some { 0 < count.new }
{
    // (read, so that the proof knows its range)
    let _before = *count;
    match placed.front.compare(front, count) {
        Ordering::Equal => compare_whole(slots, placed.slot, sought, count),
        ordering => ordering,
    }
}

/// The part of slots in which a rank is: this one, if the rank is in it.
pub fn window_around<'a>(
    ranked: &'a SlotList,
    window: Window<'a>,
    rank: usize,
    first: usize,
    last: usize,
) -> Window<'a>
    requires rank { rank < length ranked.now }
    requires shown { shows ranked.now window.start window.slots.now }
    ensures shown { shows ranked.now result.start result.slots.now }
    ensures from { result.start ≤ rank }
    ensures before { rank < result.start + length result.slots.now }
{
    if window.start <= rank && rank - window.start < window.slots.len() {
        window
    } else {
        ranked.around(rank, first, last)
    }
}

/// The slot at a rank that is in a part of slots, which begins at another rank.
pub fn slot_in(part: &[FrontedSlot], start: usize, rank: usize) -> FrontedSlot
    requires from { start ≤ rank }
    requires before { rank < start + length part.now }
    ensures { slice_get part.now (rank - start) ≡ Some result }
{
    match part.get(rank - start) {
        Some(placed) => *placed,
        None => unreachable!(),
    }
}

/// Whether an element that compares so stands before the rank that is looked for.
fn stands_before(ordering: Ordering, past_equal: bool) -> bool
    ensures { result ≡ stands_before past_equal ordering }
{
    match ordering {
        Ordering::Less => true,
        Ordering::Equal => past_equal,
        Ordering::Greater => false,
    }
}

/// What a search has still to look at: ranks from one on and before another, and the parts of a list in which they are.
#[derive(Clone, Copy)]
pub struct Span {
    pub low: usize,
    pub high: usize,
    pub first: usize,
    pub last: usize,
}

/// The first rank of a slot that isn't below what is looked for, or, past equal ones, of one above it: one of a span, all
/// before which stand before it, and none from whose end on.
fn rank_within(
    slots: &[Option<Stored>],
    ranked: &SlotList,
    sought: &Sought<'_>,
    past_equal: bool,
    span: Span,
    count: &mut usize,
) -> usize
    requires full { All (IsFull slots.now) (slots_of ranked.now) }
    requires fronts { AreFronted slots.now ranked.now }
    requires parted { IsPartitionedBy (λ slot. stands_before past_equal (compared slots.now sought.now slot)) (slots_of ranked.now) }
    requires span { IsSpan (compared slots.now sought.now) past_equal (slots_of ranked.now) span.low span.high }
    ensures bound { result ≤ length (slots_of ranked.now) }
    ensures from { span.low ≤ result }
    ensures rank { IsRankOf (compared slots.now sought.now) past_equal (slots_of ranked.now) result }
    ensures grown { count.old ≤ count.new }
    ensures few { (digits : ℕ) → length (slots_of ranked.now) < 2 ^ digits → count.new ≤ count.old + digits }
{
    let front = front_sought(sought);
    let Span {
        low: start,
        high: end,
        mut first,
        mut last,
    } = span;
    let (mut low, mut high) = (start, end);
    let mut window = ranked.around(low, first, last);
    'halves: while low < high {
        let middle = low + (high - low) / 2;
        window = window_around(ranked, window, middle, first, last);
        let placed = slot_in(window.slots, window.start, middle);
        if stands_before(compare(slots, placed, sought, &front, count), past_equal) {
            low = middle + 1;
            first = window.part;
        } else {
            high = middle;
            last = window.part;
        }
    }
    low
}

/// All ranks of a list.
fn whole(ranked: &SlotList) -> Span
    ensures low { result.low ≡ 0 }
    ensures high { result.high ≡ length ranked.now }
{
    Span {
        low: 0,
        high: ranked.len(),
        first: 0,
        last: usize::MAX,
    }
}

/// The first rank of a slot that isn't below what is looked for, or, past equal ones, of one above it.
pub fn rank_of_sought(
    slots: &[Option<Stored>],
    ranked: &SlotList,
    sought: &Sought<'_>,
    past_equal: bool,
    count: &mut usize,
) -> usize
    requires full { All (IsFull slots.now) (slots_of ranked.now) }
    requires fronts { AreFronted slots.now ranked.now }
    requires parted { IsPartitionedBy (λ slot. stands_before past_equal (compared slots.now sought.now slot)) (slots_of ranked.now) }
    ensures bound { result ≤ length (slots_of ranked.now) }
    ensures rank { IsRankOf (compared slots.now sought.now) past_equal (slots_of ranked.now) result }
    ensures grown { count.old ≤ count.new }
    ensures few { (digits : ℕ) → length (slots_of ranked.now) < 2 ^ digits → count.new ≤ count.old + digits }
{
    rank_within(slots, ranked, sought, past_equal, whole(ranked), count)
}

/// The first rank of a slot that isn't below what is looked for, and where the first one above it is: a span that begins
/// with the one and has the other in it or at its end.
fn span_of(
    slots: &[Option<Stored>],
    ranked: &SlotList,
    sought: &Sought<'_>,
    count: &mut usize,
) -> Span
    requires full { All (IsFull slots.now) (slots_of ranked.now) }
    requires fronts { AreFronted slots.now ranked.now }
    requires parted { IsPartitionedBy (λ slot. stands_before false (compared slots.now sought.now slot)) (slots_of ranked.now) }
    requires parted_past { IsPartitionedBy (λ slot. stands_before true (compared slots.now sought.now slot)) (slots_of ranked.now) }
    ensures rank { IsRankOf (compared slots.now sought.now) false (slots_of ranked.now) result.low }
    ensures span { IsSpan (compared slots.now sought.now) true (slots_of ranked.now) result.low result.high }
    ensures grown { count.old ≤ count.new }
    ensures few { (digits : ℕ) → length (slots_of ranked.now) < 2 ^ digits → count.new ≤ count.old + digits }
    ensures some { 0 < length (slots_of ranked.now) → 0 < count.new }
{
    let front = front_sought(sought);
    let mut span = whole(ranked);
    let mut high = span.high;
    let mut last = span.last;
    let mut window = ranked.around(0, span.first, last);
    'halves: while span.low < high {
        let middle = span.low + (high - span.low) / 2;
        window = window_around(ranked, window, middle, span.first, last);
        let placed = slot_in(window.slots, window.start, middle);
        match compare(slots, placed, sought, &front, count) {
            Ordering::Less => {
                span.low = middle + 1;
                span.first = window.part;
            }
            Ordering::Equal => {
                high = middle;
                last = window.part;
            }
            Ordering::Greater => {
                high = middle;
                last = window.part;
                span.high = middle;
                span.last = window.part;
            }
        }
    }
    span
}

/// The ranks in the order of keys of the slots that have a key: from the first on, and before the second.
pub fn range_of_key(
    slots: &[Option<Stored>],
    by_key: &SlotList,
    key: &IndexKey,
    count: &mut usize,
) -> (usize, usize)
    requires order { slots_of by_key.now ≡ slots_by_key slots.now }
    requires fronts { AreFronted slots.now by_key.now }
    ensures ordered { result.0 ≤ result.1 }
    ensures bound { result.1 ≤ length (slots_of by_key.now) }
    ensures start { IsRankOf (λ slot. slice_cmp nat_cmp (entry_at slots.now slot).key key.now) false (slots_of by_key.now) result.0 }
    ensures end { IsRankOf (λ slot. slice_cmp nat_cmp (entry_at slots.now slot).key key.now) true (slots_of by_key.now) result.1 }
    ensures few { (digits : ℕ) → length (slots_of by_key.now) < 2 ^ digits → count.new ≤ count.old + 2 * digits }
    ensures some { 0 < length (slots_of by_key.now) → 0 < count.new }
{
    let sought = Sought::Key(key);
    let span = span_of(slots, by_key, &sought, count);
    let end = rank_within(slots, by_key, &sought, true, span, count);
    (span.low, end)
}

/// The first rank in the order of keys of a slot whose key isn't below a key, or, past equal ones, is above it.
pub fn rank_of_key(
    slots: &[Option<Stored>],
    by_key: &SlotList,
    key: &IndexKey,
    past_equal: bool,
    count: &mut usize,
) -> usize
    requires order { slots_of by_key.now ≡ slots_by_key slots.now }
    requires fronts { AreFronted slots.now by_key.now }
    ensures bound { result ≤ length (slots_of by_key.now) }
    ensures rank { IsRankOf (λ slot. slice_cmp nat_cmp (entry_at slots.now slot).key key.now) past_equal (slots_of by_key.now) result }
    ensures grown { count.old ≤ count.new }
    ensures few { (digits : ℕ) → length (slots_of by_key.now) < 2 ^ digits → count.new ≤ count.old + digits }
{
    rank_of_sought(slots, by_key, &Sought::Key(key), past_equal, count)
}

/// The rank of a full slot in the order of keys.
pub fn rank_of_slot(slots: &[Option<Stored>], by_key: &SlotList, slot: usize) -> usize
    requires order { slots_of by_key.now ≡ slots_by_key slots.now }
    requires fronts { AreFronted slots.now by_key.now }
    requires full { IsFull slots.now slot }
    ensures { slice_get (slots_of by_key.now) result ≡ Some slot }
{
    let mut count = 0;
    match stored_in(slots, slot) {
        Some(stored) => {
            let sought = Sought::Slot(&stored.key, slot);
            rank_of_sought(slots, by_key, &sought, false, &mut count)
        }
        None => unreachable!(),
    }
}

/// The slot of a name, whose hash is given, if the name is there. The slots of one hash are gone through once.
pub fn slot_of_name(
    slots: &[Option<Stored>],
    hashes: &HashList,
    hash: usize,
    name: &[u8],
) -> Option<usize>
    requires hashes { hashes.now.hashes ≡ hashes_in hashes.now.seed slots.now }
    requires hash { hash ≡ hash_of hashes.now.seed name.now }
    requires positive { 0 < hash }
    ensures full { IfSome result (IsFull slots.now) }
    ensures name { IfSome result (λ slot. (entry_at slots.now slot).name ≡ name.now) }
    ensures absent { IfNone result (¬ Contains (names_of (entries slots.now)) name.now) }
{
    let mut found = hashes.last_before(hash, slots.len());
    'names: while let Some(slot) = found {
        if has_name(slots, slot, name) {
            return Some(slot);
        }
        found = hashes.same_before(slot);
    }
    None
}
