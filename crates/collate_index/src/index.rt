//! An index: names in collation order, found by binary search over their stored keys.

ghost use Rattle.std.specs.Prelude.{◌≡◌, ℕ, ◌*◌, ◌^◌, ◌<◌, ◌≤◌, ◌==◌, true, false, List, All, length, Err, IfErr, IfOk, OnOk, OnErr, slice_get, slice_range};
ghost use Rattle.std.specs.Char.{IsScalar};
ghost use Rattle.std.specs.List.{Contains};
ghost use Rattle.std.specs.Option.{option_copied};
ghost use Rattle.icu_collator.specs.CollatorAnswers.{key_by, order_by};
ghost use Rattle.icu_collator.specs.KeyBytes.{key_of_text};
ghost use Rattle.icu_collator.specs.Order.{collation_order};
ghost use Rattle.collate_lines.specs.Lines.{records_of};
ghost use Rattle.collate_records.specs.Files.{IsAcceptedWithin};
ghost use Rattle.collate_rules.specs.Meaning.{collation_of};
ghost use Rattle.collate_lists.specs.Names.{equal_names, names_between};
ghost use Rattle.collate_index.specs.Catalogue.{AreDistinct, meaning_in, opened, options_in, order_of, reloaded, sorted_names, with_name, without_name};
ghost use Rattle.collate_index.specs.Keys.{IsKeyOf};
ghost use Rattle.collate_index.specs.Reloads.{AreKeysMade, IsRefused};

use crate::FIXED_SEED;
use crate::asked::Asked;
use crate::collators::collator_of;
use crate::names::Names;
pub use crate::reload::ReloadError;
use crate::reload::{keys_by, renew};
use collate_lines::limits::Limits;
pub use collate_name_list::errors::AddError;
use collate_name_list::index_key::IndexKey;
use collate_name_list::name_list::NameList;
use collate_records::records::Records;
use icu_collator::{Collator, CollatorBorrowed};
use icu_collator_types::options::{CollatorOptions, CollatorPreferences};
use std::alloc::{AllocError, Global};
use std::marker::Model;
use std::ops::Range;
use thiserror::Error;

/// Names in collation order under records and options, each with its sort key. Names that compare as equal stand as they
/// arrived, and no name occurs twice.
pub struct Index {
    alloc: Global,
    records: Records,
    asked: Asked,
    collator: Collator<'static>,
    names: NameList,
}

// (let go of as one, and not part by part, so that what owns one is proved sooner)
impl Drop for Index {
    fn drop(self) {
        let Index {
            alloc: _,
            records: _,
            asked: _,
            collator: _,
            names: _,
        } = self;
    }
}

impl Model for Index {
    ghost use Rattle.collate_index.specs.Catalogue.{Catalogue};

    ghost Value = { Catalogue };

    ghost use Rattle.collate_index.specs.Index.{catalogue_of, IsKept};

    ghost view = { catalogue_of };

    ghost invariant = { IsKept };
}

/// The bytes of a name are not in the index.
#[derive(Clone, Copy, Debug, PartialEq, Eq, Error)]
#[error("the name is not in the index")]
pub struct Absent;

impl Index {
    /// An index with no names, over records, preferences and options; what these leave open the records' settings decide.
    ///
    /// Errors: `AllocError` where memory is refused, and for nothing else.
    pub fn new(
        alloc: Global,
        records: Records,
        preferences: &CollatorPreferences<'_>,
        options: &CollatorOptions,
    ) -> Result<Index, AllocError>
        ensures { IfOk result (λ index. index ≡ opened records preferences.now options.now) }
    {
        Index::with_seed(alloc, records, preferences, options, FIXED_SEED)
    }

    /// The index that `new` opens, but its names are looked up by hashes under this seed. No answer shows the seed: it concerns
    /// time alone. Who doesn't know it can't choose names whose hashes are one; so take a random one where names come from
    /// others. `new` has a seed that everyone knows.
    ///
    /// Errors: `AllocError` where memory is refused, and for nothing else.
    #[tactic(auto, unfolding(collate_lists::specs::Names::in_order))]
    pub fn with_seed(
        alloc: Global,
        records: Records,
        preferences: &CollatorPreferences<'_>,
        options: &CollatorOptions,
        seed: u64,
    ) -> Result<Index, AllocError>
        ensures { IfOk result (λ index. index ≡ opened records preferences.now options.now) }
    {
        records.keep_rules();
        let asked = Asked::new(*options, preferences);
        let collator = collator_of(alloc, &records, *preferences, *options)?;
        Ok(Index {
            alloc,
            records,
            asked,
            collator,
            names: NameList::new(alloc, seed),
        })
    }

    /// Adds a name, after all names that aren't above it (README.md, "The program"). It is `Duplicate` if the same bytes
    /// are there already, and `Memory` if memory is refused; the index is then as before. A name that compares as equal
    /// but has other bytes is another name.
    pub fn add(&mut self, name: &[u8]) -> Result<(), AddError>
        ensures added { OnOk result (self.new ≡ with_name name.now self.old) }
        ensures new { OnOk result (¬ Contains self.old.arrivals name.now) }
        ensures duplicate { result ≡ Err AddError.Duplicate → Contains self.old.arrivals name.now }
        ensures unchanged { OnErr result (self.new ≡ self.old) }
    {
        let mut keys = 0;
        let key = self.make_key(name, &mut keys)?;
        let mut comparisons = 0;
        self.names.add(name, key, &mut comparisons)
    }

    /// Removes the name with these bytes; the others stay as they stand. A name that is added again arrives anew. It
    /// takes no memory.
    ///
    /// Errors: `Absent` where the bytes aren't there; the index is then as before.
    pub fn remove(&mut self, name: &[u8]) -> Result<(), Absent>
        ensures removed { OnOk result (self.new ≡ without_name name.now self.old) }
        ensures present { OnOk result (Contains self.old.arrivals name.now) }
        ensures absent { OnErr result (¬ Contains self.old.arrivals name.now) }
        ensures unchanged { OnErr result (self.new ≡ self.old) }
    {
        if !self.names.contains(name) {
            return Err(Absent);
        }
        self.names.remove(name);
        Ok(())
    }

    /// Reads a records file (docs/RECORDS.md) within the limits of the index's records, and puts its records in the place of
    /// those of the index; the names stay as they arrived, and stand in the order of the new records. One key is made for each
    /// touched name, which reaches a changed character by the old records' mapping steps, or, where a setting changed, one for
    /// each name; the others keep theirs. The answer is how many.
    ///
    /// Errors: `Record` with the first fault of a file that isn't accepted, `Memory` where memory is refused; the index is
    /// then as before.
    pub fn reload(&mut self, bytes: &[u8]) -> Result<usize, ReloadError>
        ensures accepted { OnOk result (IsAcceptedWithin self.old.limits bytes.now) }
        ensures reloaded { OnOk result (self.new ≡ reloaded (records_of bytes.now) self.old) }
        ensures made { IfOk result (λ made. AreKeysMade self.old (records_of bytes.now) made) }
        ensures refused { IfErr result (IsRefused self.old.limits bytes.now) }
        ensures unchanged { OnErr result (self.new ≡ self.old) }
    {
        let records = Records::read_within(self.alloc, bytes, self.records.limits())?;
        records.keep_rules();
        let preferences = self.asked.preferences();
        let collator = collator_of(self.alloc, &records, preferences, self.asked.options)?;
        let mut made = 0;
        let keys = keys_by(
            self.alloc,
            &self.records,
            &self.names,
            &self.asked,
            &records,
            &collator,
            &mut made,
        )?;
        renew(&mut self.names, keys, made)?;
        self.records = records;
        self.collator = collator;
        Ok(made)
    }

    /// The ranks of the names that compare as equal to a name, `0..0` if there are none, and how many comparisons of
    /// keys that took: at most twice as many as the number of names has binary digits, and one at least if there are
    /// names (docs/DECISIONS.md, "Index"). A key is made only for a name that isn't there.
    ///
    /// Errors: `AllocError` where memory is refused.
    pub fn find(&self, name: &[u8]) -> Result<Found, AllocError>
        ensures bound { IfOk result (λ found. (found.names.start ≤ found.names.end) × (found.names.end ≤ length (sorted_names self.now))) }
        ensures names { IfOk result (λ found. slice_range (sorted_names self.now) found.names.start found.names.end ≡ equal_names (order_of self.now) name.now (sorted_names self.now)) }
        ensures none { IfOk result (λ found. found.names.start ≡ found.names.end → found.names.end ≡ 0) }
        ensures few { IfOk result (λ found. (digits : ℕ) → length (sorted_names self.now) < 2 ^ digits → found.comparisons ≤ 2 * digits) }
        ensures some { IfOk result (λ found. 0 < length (sorted_names self.now) → 0 < found.comparisons) }
    {
        match self.names.key_of(name) {
            Some(key) => Ok(self.found(name, key)),
            None => {
                let mut keys = 0;
                let key = self.make_key(name, &mut keys)?;
                Ok(self.found(name, &key))
            }
        }
    }

    /// The ranks of the names that are neither below the first of two names nor above the last, `0..0` if there are none,
    /// as where the first is above the last.
    ///
    /// Errors: `AllocError` where memory is refused.
    pub fn between(&self, first: &[u8], last: &[u8]) -> Result<Range<usize>, AllocError>
        ensures bound { IfOk result (λ ranks. (ranks.start ≤ ranks.end) × (ranks.end ≤ length (sorted_names self.now))) }
        ensures names { IfOk result (λ ranks. slice_range (sorted_names self.now) ranks.start ranks.end ≡ names_between (order_of self.now) first.now last.now (sorted_names self.now)) }
        ensures none { IfOk result (λ ranks. ranks.start ≡ ranks.end → ranks.end ≡ 0) }
    {
        let mut keys = 0;
        let lowest = self.make_key(first, &mut keys)?;
        let highest = self.make_key(last, &mut keys)?;
        let mut comparisons = 0;
        let start = self.names.rank(&lowest, false, &mut comparisons);
        let end = self.names.rank(&highest, true, &mut comparisons);
        Ok(range_between(start, end))
    }

    /// The name at a rank of the order, counted from 0; `None` past the last.
    pub fn get(&self, i: usize) -> Option<&[u8]>
        ensures { option_copied result ≡ slice_get (sorted_names self.now) i }
    {
        self.names.get(i)
    }

    /// The limits within which records files are read, reloaded ones too.
    pub fn limits(&self) -> Limits
        ensures { result ≡ self.now.limits }
    {
        self.records.limits()
    }

    /// The names in order, equal ones as they arrived (README.md, "The program").
    pub fn list(&self) -> Names<'_>
        ensures { result ≡ sorted_names self.now }
    {
        Names {
            index: self,
            next: 0,
        }
    }

    /// The number of names, none of which occurs twice.
    pub fn len(&self) -> usize
        ensures sorted { result ≡ length (sorted_names self.now) }
        ensures arrived { result ≡ length self.now.arrivals }
        ensures distinct { AreDistinct self.now.arrivals }
    {
        self.names.keep_promise();
        self.names.len()
    }

    /// Whether there are no names.
    pub fn is_empty(&self) -> bool
        ensures { result ≡ (length self.now.arrivals == 0) }
    {
        self.names.is_empty()
    }

    /// The collator of the records, preferences and options, lent: texts have the keys and the order that the records
    /// give them.
    pub fn collator(&self) -> CollatorBorrowed<'_>
        ensures keys { (text : List ℕ) → All IsScalar text
            → key_by result text ≡ key_of_text (collation_of self.now.records) (options_in self.now) text }
        ensures orders { (x y : List ℕ) → All IsScalar x → All IsScalar y
            → order_by result x y ≡ collation_order (collation_of self.now.records) (options_in self.now) x y }
    {
        self.collator.as_borrowed()
    }

    /// What a search by the key of a name finds.
    fn found(&self, name: &[u8], key: &IndexKey) -> Found
        requires { IsKeyOf (meaning_in self.now) name.now key.now }
        ensures bound { (result.names.start ≤ result.names.end) × (result.names.end ≤ length (sorted_names self.now)) }
        ensures names { slice_range (sorted_names self.now) result.names.start result.names.end ≡ equal_names (order_of self.now) name.now (sorted_names self.now) }
        ensures none { result.names.start ≡ result.names.end → result.names.end ≡ 0 }
        ensures few { (digits : ℕ) → length (sorted_names self.now) < 2 ^ digits → result.comparisons ≤ 2 * digits }
        ensures some { 0 < length (sorted_names self.now) → 0 < result.comparisons }
    {
        let mut comparisons = 0;
        let (start, end) = self.names.range(key, &mut comparisons);
        let names = range_between(start, end);
        Found { names, comparisons }
    }

    /// The key of a name. The count goes up by one where it is made.
    fn make_key(&self, name: &[u8], count: &mut usize) -> Result<IndexKey, AllocError>
        ensures { IfOk result (IsKeyOf (meaning_in self.now) name.now) }
    {
        IndexKey::make(self.alloc, &self.collator(), name, count)
    }
}

/// The ranks from a start to an end, and none as `0..0`, also where the end is before the start.
fn range_between(start: usize, end: usize) -> Range<usize>
    ensures range { result.start ≤ result.end }
    ensures bound { result.end ≤ end }
    ensures same { (names : List (List ℕ)) → start ≤ end → slice_range names result.start result.end ≡ slice_range names start end }
    ensures none { result.start ≡ result.end → result.end ≡ 0 }
    ensures turned { end ≤ start → result.end ≡ 0 }
{
    if start < end { start..end } else { 0..0 }
}

/// What a search has found.
#[derive(Clone, Debug, Drop)]
pub struct Found {
    /// The ranks of the equal names in the order; `0..0` if there are none.
    pub names: Range<usize>,
    /// How many comparisons of keys were made.
    pub comparisons: usize,
}
