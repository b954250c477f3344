//! Names with their keys, no name twice: in order of their keys, those of one key as they arrived.

ghost use Rattle.std.specs.Prelude.{◌≡◌, ℕ, ◌+◌, ◌*◌, ◌^◌, ◌<◌, ◌≤◌, ◌↔◌, ◌==◌, List, [], ◌∷◌, ◌++◌, false, true, length, Err, IfNone, IfSome, OnOk, OnErr, IsTrue, slice_get};
ghost use Rattle.std.specs.Cmp.Lexicographic.{slice_cmp};
ghost use Rattle.std.specs.List.{Contains};
ghost use Rattle.std.specs.Option.{option_copied};
ghost use Rattle.std.specs.Ordering.{nat_cmp};
ghost use Rattle.collate_lists.specs.Search.{IsRankOf};
ghost use Rattle.collate_name_list.specs.StoredNames.{AreDistinct, names_of, rekeyed, sorted, without};

use crate::arrived::Arrived;
use crate::errors::AddError;
use crate::index_key::IndexKey;
use crate::keys::reorder;
use crate::room::{drop_empty, numbers_of};
use crate::slots::{
    Stored, key_in, range_of_key, rank_of_key, rank_of_slot, slot_of_name, stored_in,
};
use collate_lists::hash_list::HashList;
use collate_lists::slot_list::SlotList;
use collate_lists::windows::FrontedSlot;
use std::alloc::{AllocError, Global};
use std::marker::Model;

/// By how much half of the slots must be more than the names, before the empty ones are dropped.
const SPARE_SLOTS: usize = 64;

/// Names with their keys, no name twice. A contract sees them as they arrived; a rank counts them in order of their keys,
/// those of one key as they arrived.
pub struct NameList {
    alloc: Global,
    /// In order of arrival; a slot is empty once its name is removed.
    slots: Vec<Option<Stored>>,
    /// The full slots, in order of their keys.
    by_key: SlotList,
    /// The hash of each slot's name.
    hashes: HashList,
}

// (let go of as one, and not part by part, so that what owns one is proved sooner)
impl Drop for NameList {
    fn drop(self) {
        let NameList {
            alloc: _,
            slots: _,
            by_key: _,
            hashes: _,
        } = self;
    }
}

impl Model for NameList {
    ghost use Rattle.std.specs.Prelude.{List};
    ghost use Rattle.collate_name_list.specs.StoredNames.{StoredName};

    ghost Value = { List StoredName };

    ghost use Rattle.collate_name_list.specs.Slots.{names_inside, IsKept};

    ghost view = { names_inside };

    ghost invariant = { IsKept };
}

impl NameList {
    /// A list with no names. They are looked up by hashes under a seed, which no answer shows; but who knows it can choose
    /// names so that one look-up goes through all of them. It asks for no memory.
    pub fn new(alloc: Global, seed: u64) -> NameList
        ensures { result ≡ [] }
    {
        NameList {
            alloc,
            slots: Vec::new(alloc),
            by_key: SlotList::new(alloc),
            hashes: HashList::new(alloc, seed),
        }
    }

    /// How many names there are.
    pub fn len(&self) -> usize
        ensures { result ≡ length self.now }
    {
        self.by_key.len()
    }

    /// Whether there are none.
    pub fn is_empty(&self) -> bool
        ensures { result ≡ (length self.now == 0) }
    {
        self.by_key.len() == 0
    }

    /// Whether a name is there, byte for byte. It asks for no memory.
    pub fn contains(&self, name: &[u8]) -> bool
        ensures { IsTrue result ↔ Contains (names_of self.now) name.now }
    {
        slot_of_name(
            self.slots.as_slice(),
            &self.hashes,
            self.hashes.hash_of(name),
            name,
        )
        .is_some()
    }

    /// Adds a name with its key, as the newest. It is `Duplicate` if the name is there already, byte for byte, and `Memory`
    /// if memory is refused; the list is then as before. The count goes up by one for each comparison of keys.
    pub fn add(&mut self, name: &[u8], key: IndexKey, count: &mut usize) -> Result<(), AddError>
        ensures added { OnOk result (self.new ≡ self.old ++ record { key = key; name = name.now } ∷ []) }
        ensures new { OnOk result (¬ Contains (names_of self.old) name.now) }
        ensures duplicate { result ≡ Err AddError.Duplicate → Contains (names_of self.old) name.now }
        ensures unchanged { OnErr result (self.new ≡ self.old) }
        ensures grown { count.old ≤ count.new }
        ensures few { (digits : ℕ) → length self.old < 2 ^ digits → count.new ≤ count.old + digits }
    {
        self.make_room();
        self.append(name, key, count)
    }

    /// Removes a name, and says whether it was there. It asks for no memory.
    pub fn remove(&mut self, name: &[u8]) -> bool
        ensures removed { self.new ≡ without name.now self.old }
        ensures found { IsTrue result ↔ Contains (names_of self.old) name.now }
    {
        let slots = self.slots.as_slice();
        match slot_of_name(slots, &self.hashes, self.hashes.hash_of(name), name) {
            Some(slot) => {
                let keyed = rank_of_slot(slots, &self.by_key, slot);
                self.by_key.remove(keyed);
                self.hashes.take_out(slot);
                self.slots[slot] = None;
                true
            }
            None => false,
        }
    }

    /// The first rank of a name whose key isn't below a key, or, past equal ones, is above it. The count goes up by one for
    /// each comparison of keys: by as many at most as the number of names has binary digits.
    pub fn rank(&self, key: &IndexKey, past_equal: bool, count: &mut usize) -> usize
        ensures bound { result ≤ length (sorted self.now) }
        ensures rank { IsRankOf (λ e. slice_cmp nat_cmp e.key key.now) past_equal (sorted self.now) result }
        ensures grown { count.old ≤ count.new }
        ensures few { (digits : ℕ) → length (sorted self.now) < 2 ^ digits → count.new ≤ count.old + digits }
    {
        rank_of_key(self.slots.as_slice(), &self.by_key, key, past_equal, count)
    }

    /// The ranks of the names with a key: from the first on, and before the second. The count goes up by one for each
    /// comparison of keys: by twice as many at most as the number of names has binary digits, and, from 0 on, by one at
    /// least if there are names.
    pub fn range(&self, key: &IndexKey, count: &mut usize) -> (usize, usize)
        ensures ordered { result.0 ≤ result.1 }
        ensures bound { result.1 ≤ length (sorted self.now) }
        ensures start { IsRankOf (λ e. slice_cmp nat_cmp e.key key.now) false (sorted self.now) result.0 }
        ensures end { IsRankOf (λ e. slice_cmp nat_cmp e.key key.now) true (sorted self.now) result.1 }
        ensures few { (digits : ℕ) → length (sorted self.now) < 2 ^ digits → count.new ≤ count.old + 2 * digits }
        ensures some { 0 < length (sorted self.now) → 0 < count.new }
    {
        range_of_key(self.slots.as_slice(), &self.by_key, key, count)
    }

    /// The key of a name, if the name is there, byte for byte. It asks for no memory.
    pub fn key_of(&self, name: &[u8]) -> Option<&IndexKey>
        ensures stored { IfSome result (λ key. Contains self.now (record { key = key.now; name = name.now })) }
        ensures absent { IfNone result (¬ Contains (names_of self.now) name.now) }
    {
        let slots = self.slots.as_slice();
        match slot_of_name(slots, &self.hashes, self.hashes.hash_of(name), name) {
            Some(slot) => Some(key_in(slots, slot)),
            None => None,
        }
    }

    /// The name at a rank, counted from 0; `None` past the last.
    pub fn get(&self, rank: usize) -> Option<&[u8]>
        ensures { option_copied result ≡ slice_get (names_of (sorted self.now)) rank }
    {
        let placed = self.by_key.at(rank)?;
        let stored = stored_in(self.slots.as_slice(), placed.slot)?;
        Some(stored.bytes.as_slice())
    }

    /// The names with their keys, as they arrived.
    pub fn arrived(&self) -> Arrived<'_>
        ensures { result ≡ self.now }
    {
        Arrived {
            left: self.slots.as_slice(),
        }
    }

    /// Gives names other keys, in the order of their arrival: where there is one, in the place of the old one. The new order
    /// is made beside the old one: names that keep their keys stand as they stood, and only the others are looked for. An
    /// error if memory is refused; the names then have their old keys. The count goes up by one for each comparison of keys.
    pub fn rekey(
        &mut self,
        keys: Vec<Option<IndexKey>>,
        count: &mut usize,
    ) -> Result<(), AllocError>
        requires { length keys.items ≡ length self.old }
        ensures rekeyed { OnOk result (self.new ≡ rekeyed keys.items self.old) }
        ensures unchanged { OnErr result (self.new ≡ self.old) }
    {
        let numbers = numbers_of(self.alloc, self.slots.as_slice())?;
        self.by_key.renumber(numbers.as_slice());
        self.hashes.drop_empty();
        drop_empty(&mut self.slots);
        self.by_key = reorder(self.alloc, &mut self.slots, keys, &self.by_key, count)?;
        Ok(())
    }

    /// No name is there twice: it does nothing, and its contract says so.
    pub fn keep_promise(&self)
        ensures { AreDistinct self.now }
    {
        let _ = &self.slots;
    }

    /// Adds a name with its key in a new slot. All growths come first.
    fn append(&mut self, name: &[u8], key: IndexKey, count: &mut usize) -> Result<(), AddError>
        ensures added { OnOk result (self.new ≡ self.old ++ record { key = key; name = name.now } ∷ []) }
        ensures new { OnOk result (¬ Contains (names_of self.old) name.now) }
        ensures duplicate { result ≡ Err AddError.Duplicate → Contains (names_of self.old) name.now }
        ensures unchanged { OnErr result (self.new ≡ self.old) }
        ensures grown { count.old ≤ count.new }
        ensures few { (digits : ℕ) → length self.old < 2 ^ digits → count.new ≤ count.old + digits }
    {
        let slots = self.slots.as_slice();
        let hash = self.hashes.hash_of(name);
        if slot_of_name(slots, &self.hashes, hash, name).is_some() {
            return Err(AddError::Duplicate);
        }
        let keyed = rank_of_key(slots, &self.by_key, &key, true, count);
        let bytes = Vec::from_slice(self.alloc, name)?;
        self.slots.reserve(1)?;
        self.hashes.reserve()?;
        let slot = self.slots.len();
        let front = key.front();
        self.by_key.insert(keyed, FrontedSlot { front, slot })?;
        self.hashes.push(hash);
        self.slots.push_reserved(Some(Stored { bytes, key }));
        Ok(())
    }

    /// Drops the empty slots once they are most of all, if the little memory that this takes is granted. The names stay.
    fn make_room(&mut self)
        ensures { self.new ≡ self.old }
    {
        let is_sparse = self.by_key.len().saturating_add(SPARE_SLOTS) < self.slots.len() / 2;
        if is_sparse && let Ok(numbers) = numbers_of(self.alloc, self.slots.as_slice()) {
            self.by_key.renumber(numbers.as_slice());
            self.hashes.drop_empty();
            drop_empty(&mut self.slots);
        }
    }
}
