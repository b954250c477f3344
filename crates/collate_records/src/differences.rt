//! What two records files say differently of characters, with what is looked up for that noted once.

ghost use Rattle.std.specs.Prelude.{◌≡◌, ◌↔◌, ◌∷◌, ◌++◌, ◌||◌, ◌==◌, ℕ, [], List, map, IfNone, IfOk, IfSome, IsTrue, MatchBool, OnOk};
ghost use Rattle.std.specs.BTreeSet.{contains};
ghost use Rattle.std.specs.Ordering.{nat_cmp};
ghost use Rattle.collate_lines.specs.Record.{Record as PlainRecord, said};
ghost use Rattle.collate_records.specs.Changes.{GivesSame, IsChanged, IsSaidAlike, IsUnchanged};
ghost use Rattle.collate_records.specs.Differences.{AreDiffering, DiffersAlone};
ghost use Rattle.collate_rules.specs.Meaning.{recorded_in};

use crate::changes::{are_same_elements, are_same_mappings, are_same_ranges};
use crate::noted_file::NotedFile;
use crate::records::Records;
use collate_lines::record::Record;
use std::alloc::{AllocError, Global};
use std::collections::BTreeSet;
use std::marker::Model;

/// Two records files, their lines noted once, to be asked what they say differently of characters. Contracts see the lines
/// of both.
pub struct Differences<'a> {
    before: &'a Records,
    after: &'a Records,
    noted_before: NotedFile<'a>,
    noted_after: NotedFile<'a>,
    /// The characters with which texts begin that the files record otherwise.
    differing: BTreeSet<char>,
}

// (let go of as one, and not part by part, so that what owns one is proved sooner)
impl Drop for Differences<'_> {
    fn drop(self) {
        let Differences {
            before: _,
            after: _,
            noted_before: _,
            noted_after: _,
            differing: _,
        } = self;
    }
}

impl<'a> Model for Differences<'a> {
    ghost use Rattle.collate_records.specs.Differences.{TwoFiles};

    ghost Value = { TwoFiles };

    ghost use Rattle.collate_records.specs.KeptDifferences.{files_inside, IsKept};

    ghost view = { files_inside };

    ghost invariant = { IsKept };
}

impl<'a> Differences<'a> {
    /// Notes the lines of two files, each a few times, however many characters are asked for then. `AllocError` where memory
    /// is refused.
    pub fn new(
        alloc: Global,
        before: &'a Records,
        after: &'a Records,
    ) -> Result<Differences<'a>, AllocError>
        ensures { IfOk result (λ differences. differences ≡ record { before = before.now.lines; after = after.now.lines }) }
    {
        let noted_before = NotedFile::new(alloc, before.lines())?;
        let noted_after = NotedFile::new(alloc, after.lines())?;
        let differing = differing(alloc, &noted_before, &noted_after)?;
        Ok(Differences {
            before,
            after,
            noted_before,
            noted_after,
            differing,
        })
    }

    /// The first of the two.
    pub fn before(&self) -> &'a Records
        ensures { result.now.lines ≡ self.now.before }
    {
        self.before
    }

    /// Whether the files say different things of a character: its class, its mapping, the range that holds it, its digit,
    /// or the elements of a text that begins with it, after some prefix. It takes no memory, and goes over no lines but
    /// those of ranges.
    pub fn changed(&self, c: char) -> bool
        ensures { MatchBool result (IsChanged self.now.before self.now.after c) (IsUnchanged self.now.before self.now.after c) }
    {
        if self.before.class(c) != self.after.class(c) {
            return true;
        }
        if !are_same_mappings(self.before.mapping(c), self.after.mapping(c)) {
            return true;
        }
        !self.are_said_alike(c)
    }

    /// Whether the files have the same range that holds a character, the same digit, and record the same of each text that
    /// begins with it.
    fn are_said_alike(&self, c: char) -> bool
        ensures { IsTrue result ↔ IsSaidAlike self.now.before self.now.after c }
    {
        if !are_same_ranges(self.noted_before.range_of(c), self.noted_after.range_of(c)) {
            return false;
        }
        if self.noted_before.digit_of(c) != self.noted_after.digit_of(c) {
            return false;
        }
        !self.differing.contains(&c)
    }
}

/// The characters with which texts begin that two files record otherwise. `AllocError` where memory is refused.
fn differing<'a>(
    alloc: Global,
    before: &NotedFile<'a>,
    after: &NotedFile<'a>,
) -> Result<BTreeSet<char>, AllocError>
    ensures { let a = map said before.now.lines.now in let b = map said after.now.lines.now in IfOk result (λ differing. AreDiffering a b (a ++ b) differing) }
{
    let mut differing = BTreeSet::new(alloc);
    note_lines(&mut differing, before, after, before.lines)?;
    note_lines(&mut differing, before, after, after.lines)?;
    Ok(differing)
}

/// Notes the characters with which texts of lines begin that two files record otherwise. `AllocError` where memory is refused.
fn note_lines<'a>(
    differing: &mut BTreeSet<char>,
    before: &NotedFile<'a>,
    after: &NotedFile<'a>,
    lines: &'a [Record],
) -> Result<(), AllocError>
    ensures { let a = map said before.now.lines.now in let b = map said after.now.lines.now
        in (done : List PlainRecord) → AreDiffering a b done differing.old → OnOk result (AreDiffering a b (done ++ map said lines.now) differing.new) }
{
    for line in lines {
        note_line(differing, before, after, line)?;
    }
    Ok(())
}

/// Notes the character with which the text of a line begins, if two files record that otherwise. `AllocError` where memory is
/// refused.
fn note_line<'a>(
    differing: &mut BTreeSet<char>,
    before: &NotedFile<'a>,
    after: &NotedFile<'a>,
    line: &'a Record,
) -> Result<(), AllocError>
    ensures { let a = map said before.now.lines.now in let b = map said after.now.lines.now
        in (done : List PlainRecord) → AreDiffering a b done differing.old → OnOk result (AreDiffering a b (done ++ said line.now ∷ []) differing.new) }
{
    match differing_character(before, after, line) {
        Some(c) => {
            put(differing, c)?;
            Ok(())
        }
        None => Ok(()),
    }
}

/// Notes a character. `AllocError` where memory is refused.
fn put(noted: &mut BTreeSet<char>, character: char) -> Result<(), AllocError>
    ensures { OnOk result ((c : ℕ) → contains nat_cmp noted.new c ≡ (contains nat_cmp noted.old c || (c == character))) }
{
    noted.insert(character)?;
    Ok(())
}

/// The character with which the text of a line begins, if two files record that otherwise.
fn differing_character<'a>(
    before: &NotedFile<'a>,
    after: &NotedFile<'a>,
    line: &'a Record,
) -> Option<char>
    ensures none { IfNone result ((c : ℕ) → GivesSame (map said before.now.lines.now) (map said after.now.lines.now) c (said line.now)) }
    ensures one { IfSome result (λ c. DiffersAlone (map said before.now.lines.now) (map said after.now.lines.now) (said line.now) c) }
{
    match line {
        Record::Weights { prefix, text, .. } => {
            if are_recorded_alike(before, after, prefix, text) {
                None
            } else {
                text.first().copied()
            }
        }
        _ => None,
    }
}

/// Whether two files record the same of a text after a prefix.
fn are_recorded_alike<'a>(
    before: &NotedFile<'a>,
    after: &NotedFile<'a>,
    prefix: &'a [char],
    text: &'a [char],
) -> bool
    ensures { IsTrue result ↔ (recorded_in (map said before.now.lines.now) prefix.now text.now ≡ recorded_in (map said after.now.lines.now) prefix.now text.now) }
{
    are_same_elements(before.recorded(prefix, text), after.recorded(prefix, text))
}
