//! Hashes in a list, each at a slot of its own, and the last slot of a hash before another one, found without going
//! through the list. Begin with `HashList::new` and `hashing::hash_of`.

ghost use Rattle.std.specs.Prelude.{◌≡◌, ℕ, ◌+◌, ◌<◌, ◌==◌, [], ◌∷◌, ◌++◌, IfNone, IfSome, OnOk, filter, length, slice_index, slice_set};
ghost use Rattle.collate_lists.specs.Hashes.{hash_of, is_hash};

use crate::chains::{Link, drop_empty, last_before, push, reserve, same_before, take_out};
use crate::hashing::hash_of;
use std::alloc::{AllocError, Global};
use std::marker::Model;

/// A list of hashes, each above 0; 0 stands at the slots whose hash was taken out. A contract sees the list, the seed of the
/// hashes, and for how many more there is room (`Listed`).
#[derive(Drop)]
pub struct HashList {
    alloc: Global,
    seed: u64,
    /// For each bucket the last slot whose hash is in it, counted from 1; 0 if there is none.
    heads: Vec<usize>,
    links: Vec<Link>,
}

impl Model for HashList {
    ghost use Rattle.collate_lists.specs.Chains.{hashes_of, room_in, IsLinked};
    ghost use Rattle.collate_lists.specs.Listed.{Listed};

    ghost Value = { Listed };

    ghost view = { λ inside. record { seed = inside.seed; hashes = hashes_of inside.links.items; room = room_in inside.heads inside.links } };

    ghost invariant = { λ inside. IsLinked inside.heads.items inside.links.items };
}

impl HashList {
    /// A list with no hashes, of texts under a seed. It asks for no memory.
    pub fn new(alloc: Global, seed: u64) -> HashList
        ensures hashes { result.hashes ≡ [] }
        ensures seed { result.seed ≡ seed }
    {
        HashList {
            alloc,
            seed,
            heads: Vec::new(alloc),
            links: Vec::new(alloc),
        }
    }

    /// The hash of a text under the seed of the list (`hashing::hash_of`).
    pub fn hash_of(&self, bytes: &[u8]) -> usize
        ensures hash { result ≡ hash_of self.now.seed bytes.now }
        ensures positive { 0 < result }
    {
        hash_of(self.seed, bytes)
    }

    /// How many slots there are.
    pub fn len(&self) -> usize
        ensures { result ≡ length self.now.hashes }
    {
        self.links.len()
    }

    /// Whether there are none.
    pub fn is_empty(&self) -> bool
        ensures { result ≡ (length self.now.hashes == 0) }
    {
        self.links.len() == 0
    }

    /// The last slot before an end at which a hash stands. It asks for no memory, and goes through the hashes of one
    /// bucket: a few, unless the hashes were chosen to be in one.
    pub fn last_before(&self, hash: usize, end: usize) -> Option<usize>
        requires hash { 0 < hash }
        ensures before { IfSome result (λ slot. slot < end) }
        ensures there { IfSome result (λ slot. slice_index self.now.hashes slot ≡ hash) }
        ensures last { IfSome result (λ slot. (later : ℕ) → slot < later → later < end → slice_index self.now.hashes later ≡ hash → ⊥) }
        ensures none { IfNone result ((slot : ℕ) → slot < end → slice_index self.now.hashes slot ≡ hash → ⊥) }
    {
        last_before(self.heads.as_slice(), self.links.as_slice(), hash, end)
    }

    /// The last slot before another one at which the same hash stands. It asks for no memory, and goes on in the bucket
    /// from there: who looks at all slots of a hash goes through its bucket once.
    pub fn same_before(&self, slot: usize) -> Option<usize>
        requires within { slot < length self.now.hashes }
        requires full { 0 < slice_index self.now.hashes slot }
        ensures before { IfSome result (λ other. other < slot) }
        ensures there { IfSome result (λ other. slice_index self.now.hashes other ≡ slice_index self.now.hashes slot) }
        ensures last { IfSome result (λ other. (later : ℕ) → other < later → later < slot → slice_index self.now.hashes later ≡ slice_index self.now.hashes slot → ⊥) }
        ensures none { IfNone result ((other : ℕ) → other < slot → slice_index self.now.hashes other ≡ slice_index self.now.hashes slot → ⊥) }
    {
        same_before(self.heads.as_slice(), self.links.as_slice(), slot)
    }

    /// Makes room for one hash more. Memory that is left over, as once many were dropped, is given back first. An error if
    /// memory is refused; the hashes are as before either way.
    pub fn reserve(&mut self) -> Result<(), AllocError>
        ensures same { self.new.hashes ≡ self.old.hashes }
        ensures seed { self.new.seed ≡ self.old.seed }
        ensures room { OnOk result (0 < self.new.room) }
    {
        reserve(self.alloc, &mut self.heads, &mut self.links)
    }

    /// Puts a hash after the others. It asks for no memory: `reserve` makes room.
    pub fn push(&mut self, hash: usize)
        requires hash { 0 < hash }
        requires room { 0 < self.old.room }
        ensures hashes { self.new.hashes ≡ self.old.hashes ++ hash ∷ [] }
        ensures seed { self.new.seed ≡ self.old.seed }
    {
        push(&mut self.heads, &mut self.links, hash);
    }

    /// Takes the hash at a slot out: 0 stands there from then on. It asks for no memory.
    pub fn take_out(&mut self, slot: usize)
        requires { slot < length self.old.hashes }
        ensures hashes { self.new.hashes ≡ slice_set self.old.hashes slot 0 }
        ensures seed { self.new.seed ≡ self.old.seed }
    {
        take_out(&mut self.heads, &mut self.links, slot);
    }

    /// Drops the slots whose hash was taken out. It asks for no memory.
    pub fn drop_empty(&mut self)
        ensures hashes { self.new.hashes ≡ filter is_hash self.old.hashes }
        ensures seed { self.new.seed ≡ self.old.seed }
    {
        drop_empty(&mut self.heads, &mut self.links);
    }
}
