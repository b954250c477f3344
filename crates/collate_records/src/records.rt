//! What an accepted records file says of characters.

ghost use Rattle.std.specs.Bool.{OnFalse, OnTrue};
ghost use Rattle.std.specs.Prelude.{◌≡◌, ◌≤◌, ◌↔◌, ◌∷◌, ℕ, [], All, IfOk, IsTrue, MatchBool, false, map};
ghost use Rattle.std.specs.Char.{IsScalar};
ghost use Rattle.icu_normalizer_core.specs.BorrowedMeaning.{borrowed_meaning};
ghost use Rattle.icu_normalizer_core.specs.Canonical.{IsCanonical, IsComposing, IsDecomposing};
ghost use Rattle.icu_normalizer_core.specs.CanonicalFaults.{IsAccepted};
ghost use Rattle.icu_normalizer_core.specs.CanonicalMaps.{AreMeaning};
ghost use Rattle.icu_normalizer_core.specs.CanonicalMeaning.{lists_of, meaning};
ghost use Rattle.icu_normalizer_core.specs.Decoding.{utf8_chars};
ghost use Rattle.icu_normalizer_core.specs.Properties.{mapped_to};
ghost use Rattle.icu_normalizer_core.specs.Sameness.{AreSameCanonical};
ghost use Rattle.collate_lines.specs.Record.{said};
ghost use Rattle.collate_rules.specs.Accepted.{AreAccepted};
ghost use Rattle.collate_rules.specs.Meaning.{canonical_of, collation_of, class_of, step_of, pair_of};
ghost use Rattle.collate_rules.specs.Rules.{names_in};
ghost use Rattle.collate_records.specs.Changes.{AreSettingsEqual, IsChanged, IsUnchanged};
ghost use Rattle.collate_records.specs.Files.{IsReadFrom, IsReadWithin};
ghost use Rattle.collate_records.specs.Maps.{maps_of};
ghost use Rattle.collate_records.specs.Reaching.{ReachesNone, ReachesOne, brought_within};

use crate::canonical_data::{canonical_data, canonical_tables, copied};
use crate::changes::{are_said_alike, are_same_mappings, are_settings_equal};
use crate::reader::read_records;
use collate_compile::set_lines::file_settings;
use collate_lines::limits::Limits;
use collate_lines::record::Record;
use collate_lines::rule::RecordsError;
use icu_collator_types::options::FileSettings;
use icu_normalizer_core::canonical::{CanonicalBorrowed, CanonicalData, CanonicalTables};
use icu_normalizer_core::decoding::decode_utf8;
use icu_normalizer_core::properties::Decomposed;
use std::alloc::{AllocError, Global};
use std::marker::Model;

// No chain of mapping steps is longer than there are code points.
const MOST_STEPS: u32 = 0x11_0000;

/// What an accepted records file says of characters: a list of lines and the limits within which they were read, as its
/// contracts see it, with canonical tables and data made of them (docs/RECORDS.md). The lines of records are always accepted:
/// `keep_rules` says so.
pub struct Records {
    limits: Limits,
    records: Vec<Record>,
    tables: CanonicalTables<'static>,
    canonical: CanonicalData<'static>,
}

// (let go of as one, and not part by part, so that what owns one is proved sooner)
impl Drop for Records {
    fn drop(self) {
        let Records {
            limits: _,
            records: _,
            tables: _,
            canonical: _,
        } = self;
    }
}

impl Model for Records {
    ghost use Rattle.std.specs.Prelude.{map};
    ghost use Rattle.collate_lines.specs.Record.{said};
    ghost use Rattle.collate_records.specs.Files.{FileRecords};

    ghost Value = { FileRecords };

    ghost use Rattle.collate_records.specs.Kept.{IsKept};

    ghost view = { λ r. record { limits = r.limits; lines = map said r.records.items } };

    ghost invariant = { IsKept };
}

impl Records {
    /// Reads a records file (docs/RECORDS.md) within `Limits::STANDARD`. It is accepted exactly if no line breaks a rule; the
    /// records are what those of its lines say that say something, in their order.
    ///
    /// Errors: `Fault` with the first fault of any other file, in the order of faults, its line counted from 1; `Memory`
    /// where memory is refused.
    pub fn read(alloc: Global, bytes: &[u8]) -> Result<Records, RecordsError>
        ensures { IsReadFrom bytes.now result }
    {
        Records::read_within(alloc, bytes, Limits::STANDARD)
    }

    /// Reads a records file as `read` does, but within these limits, which the records keep.
    ///
    /// Errors: those of `read`; a file that passes the limits is refused by the rule `limit`, or, past the most bytes, by
    /// `grammar`.
    pub fn read_within(alloc: Global, bytes: &[u8], limits: Limits) -> Result<Records, RecordsError>
        ensures { IsReadWithin limits bytes.now result }
    {
        let records = read_records(alloc, bytes, limits)?;
        let tables = canonical_tables(alloc, &records, limits.code_points)?;
        let canonical = canonical_data(alloc, &tables)?;
        Ok(Records {
            limits,
            records,
            tables,
            canonical,
        })
    }

    /// The limits within which the file was read.
    pub fn limits(&self) -> Limits
        ensures { result ≡ self.now.limits }
    {
        self.limits
    }

    /// The lines of records are those of an accepted file: each is in the grammar, none offends against a rule, and they
    /// name no more code points than the limits let them. So they give canonical data, for decomposing and for composing
    /// (docs/RECORDS.md; UAX 15).
    ///
    /// It computes nothing: its contract is what every holder of records knows.
    #[tactic(auto, using(crate::proofs::reading::ReadingAcceptedLemmas::accepted_decompose, crate::proofs::reading::ReadingAcceptedLemmas::accepted_compose))]
    pub fn keep_rules(&self)
        ensures accepted { AreAccepted self.now.lines }
        ensures few { names_in self.now.lines ≤ self.now.limits.code_points }
        ensures canonical { IsDecomposing (canonical_of self.now.lines) }
        ensures composing { IsComposing (canonical_of self.now.lines) }
    {
        let _ = &self.records;
    }

    /// What the lines of the file say.
    pub(crate) fn lines(&self) -> &[Record]
        ensures same { map said result.now ≡ self.now.lines }
        ensures accepted { AreAccepted (map said result.now) }
        ensures few { names_in (map said result.now) ≤ self.now.limits.code_points }
    {
        self.keep_rules();
        &self.records
    }

    /// What the file sets of the options (docs/RECORDS.md): what a line says, else the default.
    pub fn settings(&self) -> FileSettings
        ensures { let collation = collation_of self.now.lines in result ≡ collation.options }
    {
        file_settings(&self.records)
    }

    /// What the file says of classes and mappings, with what is built in, as canonical data: classes, mappings, full lists
    /// and composed pairs of characters (UAX 15). Borrowing takes no memory, nor does any look-up in them.
    pub fn canonical(&self) -> CanonicalBorrowed<'_>
        ensures same { AreSameCanonical (borrowed_meaning result) (canonical_of self.now.lines) }
        ensures steps { (c : ℕ) → IsScalar c → (borrowed_meaning result).step c ≡ step_of self.now.lines c }
        ensures pairs { (a b : ℕ) → IsScalar a → IsScalar b → (borrowed_meaning result).pair a b ≡ pair_of self.now.lines a b }
        ensures canonical { IsCanonical (borrowed_meaning result) }
    {
        self.canonical.as_borrowed()
    }

    /// A copy of the canonical tables of the lines, which pass every check. `AllocError` where memory is refused.
    pub(crate) fn copied_tables(
        &self,
        alloc: Global,
    ) -> Result<CanonicalTables<'static>, AllocError>
        ensures means { IfOk result (λ tables. AreMeaning (maps_of self.now.lines) (meaning tables)) }
        ensures accepted { IfOk result (λ tables. IsAccepted (lists_of tables)) }
    {
        copied(alloc, &self.tables)
    }

    /// The canonical combining class of a character: what is built in, else what a line says, else
    /// 0 (UAX 15; docs/RECORDS.md lists what is built in).
    pub fn class(&self, c: char) -> u8
        ensures { result ≡ class_of self.now.lines c }
    {
        self.canonical().class(c)
    }

    /// The canonical mapping of a character, one step: what is built in, else what a line says,
    /// else none (UAX 15; docs/RECORDS.md lists what is built in).
    pub fn mapping(&self, c: char) -> Decomposed
        ensures { mapped_to result ≡ step_of self.now.lines c }
    {
        self.canonical().step(c).unwrap_or(Decomposed::Default)
    }

    /// Whether two files say different things of a character: its class, its mapping, the range that holds it, its digit,
    /// or the elements of a text that begins with it, after some prefix. It takes no memory.
    pub fn changed(&self, other: &Records, c: char) -> bool
        ensures { MatchBool result (IsChanged self.now.lines other.now.lines c) (IsUnchanged self.now.lines other.now.lines c) }
    {
        if self.class(c) != other.class(c) {
            return true;
        }
        if !are_same_mappings(self.mapping(c), other.mapping(c)) {
            return true;
        }
        !are_said_alike(self.lines(), other.lines(), c)
    }

    /// Whether two files have the same settings, by value: where none is set the default counts, compressible leads are a
    /// set, and reordering says which lead stands in the place of each. It takes no memory.
    pub fn settings_equal(&self, other: &Records) -> bool
        ensures { IsTrue result ↔ AreSettingsEqual self.now.lines other.now.lines }
    {
        are_settings_equal(&self.records, &other.records)
    }

    /// Whether a text, its bytes read as UTF-8, reaches a character of which a test says yes: mapping steps, none
    /// included, bring it in. What is damaged reads as U+FFFD. It takes no memory.
    pub fn reaches<F: Fn(char) -> bool + Drop>(&self, text: &[u8], is_one: F) -> bool
        requires { F.IsAlwaysCallable is_one }
        ensures { MatchBool result (ReachesOne (step_of self.now.lines) (F.post is_one) (utf8_chars text.now)) (ReachesNone (step_of self.now.lines) (F.post is_one) (utf8_chars text.now)) }
    {
        self.keep_rules();
        for c in decode_utf8(text) {
            if self.reaches_within(c, MOST_STEPS, &is_one) {
                return true;
            }
        }
        false
    }

    /// Whether at most so many steps, one after another, bring such a character in for a character. It calls itself only where
    /// a step brings in two characters, and so no deeper than a full list is long.
    fn reaches_within<F: Fn(char) -> bool>(&self, c: char, steps: u32, is_one: &F) -> bool
        requires { F.IsAlwaysCallable is_one.now }
        ensures one { OnTrue result (ReachesOne (step_of self.now.lines) (F.post is_one.now) (c ∷ [])) }
        ensures none { OnFalse result (All (λ d. F.post is_one.now d false) (brought_within (step_of self.now.lines) steps c)) }
    {
        let mut c = c;
        let mut steps = steps;
        while !is_one(c) {
            if steps == 0 {
                return false;
            }
            match self.mapping(c) {
                Decomposed::Default => return false,
                Decomposed::Singleton(d) => {
                    c = d;
                    steps -= 1;
                }
                Decomposed::Expansion(d, e) => {
                    return self.reaches_within(d, steps - 1, is_one)
                        || self.reaches_within(e, steps - 1, is_one);
                }
            }
        }
        true
    }
}
