//! What is counted of lines, for the limits of a records file.

ghost use Rattle.std.specs.Prelude.{◌≡◌, ◌+◌, ◌*◌, ◌<◌, ◌≤◌, ◌↔◌, ◌++◌, ◌∷◌, [], List, map, IsTrue, OnOk};
ghost use Rattle.collate_lines.specs.Record.{Record as PlainRecord, said};
ghost use Rattle.collate_rules.specs.Limits.{AreCounted, AreSmall, PassLimits, PassRoom};
ghost use Rattle.collate_rules.specs.Rules.{IsLong, element_room, is_beside, is_range};

use crate::mapped::Mapped;
use crate::names::Names;
use collate_lines::limits::Limits;
use collate_lines::record::Record;
use std::alloc::{AllocError, Global};

/// The most characters of a compatibility mapping or a text, and the most elements, that a line lists (docs/RECORDS.md).
const LIST_LIMIT: usize = 8;

/// The most aligned blocks of 512 code points that tables have room for.
const WIDE_BLOCK_LIMIT: usize = 700;

/// The most aligned blocks of 16 code points from U+10000 on.
const NARROW_BLOCK_LIMIT: usize = 11_000;

/// The most elements, with one for each text, range and digit.
const ELEMENT_LIMIT: usize = 520_000;

/// The most texts of several characters or after a prefix.
const BESIDE_LIMIT: usize = 3_600;

/// The most characters of full lists, of one kind.
const FULL_LIST_LIMIT: usize = 16_000;

/// What is counted of lines: what they name, and how many ranges, lines that say something, elements, texts beside those of
/// one character alone, and characters of full lists there are.
#[derive(Drop)]
pub(crate) struct Counts {
    pub(crate) names: Names,
    pub(crate) ranges: usize,
    pub(crate) records: usize,
    pub(crate) elements: usize,
    pub(crate) beside: usize,
    pub(crate) canonical: usize,
    pub(crate) mappings: usize,
}

impl Counts {
    /// No line yet.
    pub(crate) fn new(alloc: Global) -> Counts
        ensures { (records : List PlainRecord) → AreCounted records [] result }
    {
        Counts {
            names: Names::new(alloc),
            ranges: 0,
            records: 0,
            elements: 0,
            beside: 0,
            canonical: 0,
            mappings: 0,
        }
    }

    /// Counts one line more.
    pub(crate) fn add(&mut self, mapped: &Mapped<'_>, given: &Record) -> Result<(), AllocError>
        requires { AreSmall self.old }
        ensures ranges { OnOk result (self.new.ranges ≤ self.old.ranges + 1) }
        ensures counted { (lines : List PlainRecord) → AreCounted (map said mapped.now.lines.now) lines self.old
            → OnOk result (AreCounted (map said mapped.now.lines.now) (lines ++ said given.now ∷ []) self.new) }
    {
        self.names.add_line(given)?;
        self.ranges += usize::from(is_range(given));
        self.records += usize::from(given.says_something());
        self.elements += element_room(given);
        self.beside += usize::from(is_beside(given));
        self.canonical += mapped.canonical_room(given);
        self.mappings += mapped.mapping_room(given);
        Ok(())
    }

    /// Whether they pass limits, or the last line lists too much.
    pub(crate) fn pass(&self, limits: Limits, given: &Record) -> bool
        requires { self.now.ranges ≤ 11002 }
        ensures { IsTrue result ↔ PassLimits limits self.now (said given.now) }
    {
        is_past(self.names.characters.len(), self.ranges, limits.code_points)
            || self.records > limits.records
            || self.pass_room()
            || is_long(given)
    }

    /// Whether they pass what tables have room for.
    fn pass_room(&self) -> bool
        requires { self.now.ranges ≤ 11002 }
        ensures { IsTrue result ↔ PassRoom self.now }
    {
        is_past(self.names.wide.len(), 3 * self.ranges, WIDE_BLOCK_LIMIT)
            || is_past(self.names.narrow.len(), 3 * self.ranges, NARROW_BLOCK_LIMIT)
            || self.elements > ELEMENT_LIMIT
            || self.beside > BESIDE_LIMIT
            || self.canonical > FULL_LIST_LIMIT
            || self.mappings > FULL_LIST_LIMIT
    }
}

/// Whether two numbers together pass a limit.
fn is_past(number: usize, other: usize, limit: usize) -> bool
    ensures { IsTrue result ↔ (limit < number + other) }
{
    number > limit || other > limit - number
}

/// Whether a line is a range.
fn is_range(given: &Record) -> bool
    ensures { result ≡ is_range (said given.now) }
{
    matches!(given, Record::Range(_))
}

/// Whether a line gives elements to a text of several characters, or to one after a prefix.
fn is_beside(given: &Record) -> bool
    ensures { result ≡ is_beside (said given.now) }
{
    match given {
        Record::Weights { prefix, text, .. } => {
            !matches!((prefix.as_slice(), text.as_slice()), ([], [_]))
        }
        _ => false,
    }
}

/// How many elements a line gives, and one for what it says them of.
fn element_room(given: &Record) -> usize
    ensures { result ≡ element_room (said given.now) }
{
    match given {
        Record::Weights { elements, .. } => 1 + elements.len(),
        Record::Range(_) | Record::Digit { .. } => 1,
        _ => 0,
    }
}

/// Whether a line lists more characters or elements than it may.
fn is_long(given: &Record) -> bool
    ensures { IsTrue result ↔ IsLong (said given.now) }
{
    match given {
        Record::Kmap { mapping, .. } => mapping.len() > LIST_LIMIT,
        Record::Weights { text, elements, .. } => {
            text.len() > LIST_LIMIT || elements.len() > LIST_LIMIT
        }
        _ => false,
    }
}
