//! Chains of slots, one for each bucket: the last slot of the bucket, and from each slot the last one before it.

ghost use Rattle.std.specs.Prelude.{◌≡◌, ℕ, ◌+◌, ◌-◌, ◌%◌, ◌<◌, ◌≤◌, [], ◌∷◌, ◌++◌, All, IfNone, IfSome, OnOk, filter, length, slice_index, slice_set};
ghost use Rattle.collate_lists.specs.Hashes.{is_hash};
ghost use Rattle.collate_lists.specs.Chains.{befores_of, hashes_of, room_in, IsIn, IsLinked, IsLinkedTo};

use std::alloc::{AllocError, Global};

/// A hash at a slot, and the last slot before it whose hash is in the same bucket.
#[derive(Clone, Copy)]
pub(crate) struct Link {
    /// The hash; 0 once it was taken out.
    pub(crate) hash: usize,
    /// That slot, counted from 1; 0 if there is none.
    pub(crate) before: usize,
}

/// The bucket of a hash, of so many.
fn bucket_of(hash: usize, buckets: usize) -> usize
    requires { 0 < buckets }
    ensures bucket { result ≡ hash % buckets }
    ensures within { result < buckets }
{
    hash % buckets
}

/// Puts a slot into the chain of its hash, if it has one; those before it are in theirs.
pub(crate) fn put_in(heads: &mut Vec<usize>, links: &mut Vec<Link>, slot: usize)
    requires slot { slot < length links.old.items }
    requires buckets { 0 < length heads.old.items }
    requires linked { IsLinkedTo heads.old.items links.old.items slot }
    ensures linked { IsLinkedTo heads.new.items links.new.items (slot + 1) }
    ensures hashes { hashes_of links.new.items ≡ hashes_of links.old.items }
    ensures buckets { length heads.new.items ≡ length heads.old.items }
    ensures slots { length links.new.items ≡ length links.old.items }
{
    let hash = links[slot].hash;
    if hash > 0 {
        let bucket = bucket_of(hash, heads.len());
        let before = heads[bucket];
        links[slot] = Link { hash, before };
        heads[bucket] = slot + 1;
    }
}

/// Puts all slots into the chains of their hashes.
pub(crate) fn relink(heads: &mut Vec<usize>, links: &mut Vec<Link>)
    requires empty { All (λ head. head ≡ 0) heads.old.items }
    requires room { length links.old.items ≤ length heads.old.items }
    ensures linked { IsLinked heads.new.items links.new.items }
    ensures hashes { hashes_of links.new.items ≡ hashes_of links.old.items }
    ensures buckets { length heads.new.items ≡ length heads.old.items }
{
    'slots: for slot in 0..links.len() {
        put_in(heads, links, slot);
    }
}

/// Makes twice as many buckets as slots, and a few more.
fn rebuild(alloc: Global, heads: &mut Vec<usize>, links: &mut Vec<Link>) -> Result<(), AllocError>
    requires linked { IsLinked heads.old.items links.old.items }
    ensures linked { IsLinked heads.new.items links.new.items }
    ensures hashes { hashes_of links.new.items ≡ hashes_of links.old.items }
    ensures room { OnOk result (length links.new.items < length heads.new.items) }
{
    let buckets = links.len().saturating_mul(2).saturating_add(9);
    let mut more = Vec::from_elem(alloc, 0, buckets)?;
    relink(&mut more, links);
    *heads = more;
    Ok(())
}

/// Makes buckets for one slot more, if there are as many slots as buckets.
fn make_buckets(
    alloc: Global,
    heads: &mut Vec<usize>,
    links: &mut Vec<Link>,
) -> Result<(), AllocError>
    requires linked { IsLinked heads.old.items links.old.items }
    ensures linked { IsLinked heads.new.items links.new.items }
    ensures hashes { hashes_of links.new.items ≡ hashes_of links.old.items }
    ensures room { OnOk result (length links.new.items < length heads.new.items) }
{
    if links.len() >= heads.len() {
        rebuild(alloc, heads, links)
    } else {
        Ok(())
    }
}

/// Gives memory back that is more than four times what the slots need. If memory for fewer buckets is refused, they
/// stay as many.
fn shrink(alloc: Global, heads: &mut Vec<usize>, links: &mut Vec<Link>)
    requires linked { IsLinked heads.old.items links.old.items }
    ensures linked { IsLinked heads.new.items links.new.items }
    ensures hashes { hashes_of links.new.items ≡ hashes_of links.old.items }
{
    if links.capacity() / 4 > links.len() {
        links.shrink_to_fit();
    }
    if heads.len() / 4 > links.len().saturating_add(9) {
        let _ = rebuild(alloc, heads, links);
    }
}

/// Makes room for one slot more, once memory that is left over was given back. An error if memory is refused.
pub(crate) fn reserve(
    alloc: Global,
    heads: &mut Vec<usize>,
    links: &mut Vec<Link>,
) -> Result<(), AllocError>
    requires linked { IsLinked heads.old.items links.old.items }
    ensures linked { IsLinked heads.new.items links.new.items }
    ensures hashes { hashes_of links.new.items ≡ hashes_of links.old.items }
    ensures room { OnOk result (0 < room_in heads.new links.new) }
{
    shrink(alloc, heads, links);
    make_buckets(alloc, heads, links)?;
    links.reserve(1)
}

/// Puts a hash after the others. There is room.
pub(crate) fn push(heads: &mut Vec<usize>, links: &mut Vec<Link>, hash: usize)
    requires linked { IsLinked heads.old.items links.old.items }
    requires room { 0 < room_in heads.old links.old }
    ensures linked { IsLinked heads.new.items links.new.items }
    ensures pushed { hashes_of links.new.items ≡ hashes_of links.old.items ++ hash ∷ [] }
{
    let slot = links.len();
    links.push_reserved(Link { hash, before: 0 });
    put_in(heads, links, slot);
}

/// The last slot before an end at which a hash stands: looked for from a slot in its bucket on, counted from 1. None
/// from that slot up to the end has the hash.
fn walk(heads: &[usize], links: &[Link], from: usize, hash: usize, end: usize) -> Option<usize>
    requires linked { IsLinked heads.now links.now }
    requires hash { 0 < hash }
    requires upto { from ≤ length links.now }
    requires first { 0 < from → IsIn (length heads.now) (hash % length heads.now) (slice_index (hashes_of links.now) (from - 1)) }
    requires past { (slot : ℕ) → from ≤ slot → slot < end → slice_index (hashes_of links.now) slot ≡ hash → ⊥ }
    ensures before { IfSome result (λ slot. slot < end) }
    ensures there { IfSome result (λ slot. slice_index (hashes_of links.now) slot ≡ hash) }
    ensures last { IfSome result (λ slot. (later : ℕ) → slot < later → later < end → slice_index (hashes_of links.now) later ≡ hash → ⊥) }
    ensures none { IfNone result ((slot : ℕ) → slot < end → slice_index (hashes_of links.now) slot ≡ hash → ⊥) }
{
    let mut slot = from;
    'chain: while slot > 0 {
        let link = links[slot - 1];
        if link.hash == hash && slot <= end {
            return Some(slot - 1);
        }
        slot = link.before;
    }
    None
}

/// The last slot before an end at which a hash stands.
pub(crate) fn last_before(heads: &[usize], links: &[Link], hash: usize, end: usize) -> Option<usize>
    requires linked { IsLinked heads.now links.now }
    requires hash { 0 < hash }
    ensures before { IfSome result (λ slot. slot < end) }
    ensures there { IfSome result (λ slot. slice_index (hashes_of links.now) slot ≡ hash) }
    ensures last { IfSome result (λ slot. (later : ℕ) → slot < later → later < end → slice_index (hashes_of links.now) later ≡ hash → ⊥) }
    ensures none { IfNone result ((slot : ℕ) → slot < end → slice_index (hashes_of links.now) slot ≡ hash → ⊥) }
{
    if heads.is_empty() {
        return None;
    }
    let from = heads[bucket_of(hash, heads.len())];
    walk(heads, links, from, hash, end)
}

/// The last slot before another one at which the same hash stands.
pub(crate) fn same_before(heads: &[usize], links: &[Link], slot: usize) -> Option<usize>
    requires linked { IsLinked heads.now links.now }
    requires within { slot < length links.now }
    requires full { 0 < slice_index (hashes_of links.now) slot }
    ensures before { IfSome result (λ other. other < slot) }
    ensures there { IfSome result (λ other. slice_index (hashes_of links.now) other ≡ slice_index (hashes_of links.now) slot) }
    ensures last { IfSome result (λ other. (later : ℕ) → other < later → later < slot → slice_index (hashes_of links.now) later ≡ slice_index (hashes_of links.now) slot → ⊥) }
    ensures none { IfNone result ((other : ℕ) → other < slot → slice_index (hashes_of links.now) other ≡ slice_index (hashes_of links.now) slot → ⊥) }
{
    let Link { hash, before } = links[slot];
    walk(heads, links, before, hash, slot)
}

/// The slot after another one in the chain of a bucket, which both are in: looked for from one on, counted from 1.
fn slot_behind(heads: &[usize], links: &[Link], from: usize, slot: usize, bucket: usize) -> usize
    requires linked { IsLinked heads.now links.now }
    requires from { slot + 1 < from }
    requires upto { from ≤ length links.now }
    requires first { IsIn (length heads.now) bucket (slice_index (hashes_of links.now) (from - 1)) }
    requires last { IsIn (length heads.now) bucket (slice_index (hashes_of links.now) slot) }
    ensures behind { slot < result }
    ensures within { result < length links.now }
    ensures bucket { IsIn (length heads.now) bucket (slice_index (hashes_of links.now) result) }
    ensures next { slice_index (befores_of links.now) result ≡ slot + 1 }
{
    let mut next = from;
    'chain: while links[next - 1].before > slot + 1 {
        next = links[next - 1].before;
    }
    next - 1
}

/// Takes a hash out of its chain, and puts 0 in its slot.
pub(crate) fn take_out(heads: &mut Vec<usize>, links: &mut Vec<Link>, slot: usize)
    requires linked { IsLinked heads.old.items links.old.items }
    requires slot { slot < length links.old.items }
    ensures linked { IsLinked heads.new.items links.new.items }
    ensures hashes { hashes_of links.new.items ≡ slice_set (hashes_of links.old.items) slot 0 }
{
    let Link { hash, before } = links[slot];
    if hash == 0 {
        return;
    }
    let bucket = bucket_of(hash, heads.len());
    let last = heads[bucket];
    if last == slot + 1 {
        heads[bucket] = before;
        links[slot].hash = 0;
    } else {
        let behind = slot_behind(heads.as_slice(), links.as_slice(), last, slot, bucket);
        links[behind].before = before;
        links[slot].hash = 0;
    }
}

/// Drops the slots with no hash.
pub(crate) fn drop_empty(heads: &mut Vec<usize>, links: &mut Vec<Link>)
    requires { IsLinked heads.old.items links.old.items }
    ensures linked { IsLinked heads.new.items links.new.items }
    ensures hashes { hashes_of links.new.items ≡ filter is_hash (hashes_of links.old.items) }
{
    links.retain(|link| link.hash > 0);
    heads.fill(0);
    relink(heads, links);
}
