//! The characters from which two texts may be read, and the index where reading begins.

ghost use Rattle.std.specs.Prelude.{◌≡◌, false, true};
ghost use Rattle.icu_collator_types.specs.Options.{is_numeric, is_shifted};
ghost use Rattle.icu_collator.specs.Boundaries.{GoesOn};
ghost use Rattle.icu_collator.specs.Collators.{source_collation};
ghost use Rattle.icu_collator.specs.Fronts.{IsPlaceToBegin};
ghost use Rattle.icu_collator.specs.ReadingStarts.{IsOpenPassage, IsReadingStart};

use super::next::{first_of_full, is_safe};
use super::places::{PassageKind, PassageTest, place_to_begin};
use crate::encodings::Characters;
use icu_collator_core::checked::CheckedTables;
use icu_collator_types::options::{
    AlternateHandling, CollationNumericOrdering, ResolvedCollatorOptions,
};

/// How many characters before a first difference are looked at first.
const SEARCHED: usize = 16;

/// How many are looked at then, by their full lists.
const SEARCHED_BY_LISTS: usize = 64;

/// The test of characters by one read each: open are those from which texts may be read that decomposing leaves alone, where
/// nothing is shifted and no number is sought, and all others are closed.
#[derive(Clone, Copy, Debug)]
struct OwnPassages<'d> {
    /// The tables that the characters are read by.
    checked: &'d CheckedTables<'d>,
}

impl PassageTest for OwnPassages<'_> {
    ghost use Rattle.icu_collator.specs.Boundaries.{GoesOn};
    ghost use Rattle.icu_collator.specs.Collators.{source_collation};
    ghost use Rattle.icu_collator.specs.ReadingStarts.{IsOpenPassage};

    ghost passes = { λ test c. IsOpenPassage (source_collation test.checked.now) c };

    ghost goes_on = { λ test c. GoesOn (source_collation test.checked.now).canonical (source_collation test.checked.now).weights c };

    fn passage(&self, c: char) -> PassageKind {
        if is_own_passage(self.checked, c) {
            PassageKind::Open
        } else {
            PassageKind::Closed
        }
    }
}

/// The test of characters by their full lists.
#[derive(Clone, Copy, Debug)]
struct Passages<'d> {
    /// The tables that the characters are read by.
    checked: &'d CheckedTables<'d>,
}

impl PassageTest for Passages<'_> {
    ghost use Rattle.icu_collator.specs.Boundaries.{GoesOn};
    ghost use Rattle.icu_collator.specs.Collators.{source_collation};
    ghost use Rattle.icu_collator.specs.ReadingStarts.{IsOpenPassage};

    ghost passes = { λ test c. IsOpenPassage (source_collation test.checked.now) c };

    ghost goes_on = { λ test c. GoesOn (source_collation test.checked.now).canonical (source_collation test.checked.now).weights c };

    fn passage(&self, c: char) -> PassageKind {
        if !goes_on(self.checked, c) {
            return PassageKind::Closed;
        }
        if is_passage(self.checked, c) {
            PassageKind::Open
        } else {
            PassageKind::GoesOn
        }
    }
}

/// Whether a character is one from which texts may be read: reading may begin at it, and decomposing leaves it alone.
fn is_own_passage(checked: &CheckedTables<'_>, c: char) -> bool
    ensures { result ≡ true → IsOpenPassage (source_collation checked.now) c }
{
    if c == '\u{303}' {
        return false;
    }
    checked.canonical().keep_promise();
    checked.is_own_beginning(c)
}

/// Whether with no character of a full list a prefix is recorded.
fn goes_on(checked: &CheckedTables<'_>, c: char) -> bool
    ensures { result ≡ true → GoesOn (source_collation checked.now).canonical (source_collation checked.now).weights c }
{
    for d in checked.canonical().full_list(c) {
        if !checked.is_unprefixed(d) {
            return false;
        }
    }
    true
}

/// Whether a character that goes on is one from which texts may be read: reading may begin at it.
fn is_passage(checked: &CheckedTables<'_>, c: char) -> bool
    ensures { result ≡ true → GoesOn (source_collation checked.now).canonical (source_collation checked.now).weights c → IsOpenPassage (source_collation checked.now) c }
{
    match first_of_full(checked.canonical(), c) {
        Some(first) => first != '\u{303}' && is_safe(checked, c),
        None => false,
    }
}

/// Whether nothing is shifted.
fn is_unshifted(handling: AlternateHandling) -> bool
    ensures { result ≡ true → is_shifted handling ≡ false }
{
    match handling {
        AlternateHandling::NonIgnorable => true,
        AlternateHandling::Shifted => false,
    }
}

/// Whether no number is sought.
fn is_unnumbered(ordering: CollationNumericOrdering) -> bool
    ensures { result ≡ true → is_numeric ordering ≡ false }
{
    match ordering {
        CollationNumericOrdering::False => true,
        CollationNumericOrdering::True => false,
    }
}

/// Whether a common front may be left out, as far as the tables and the options say.
fn may_skip(checked: &CheckedTables<'_>, options: &ResolvedCollatorOptions) -> bool
    ensures forward { result ≡ true → (source_collation checked.now).backward ≡ false }
    ensures undotted { result ≡ true → (source_collation checked.now).weights.dot_above ≡ false }
    ensures unshifted { result ≡ true → is_shifted options.now.alternate_handling ≡ false }
    ensures unnumbered { result ≡ true → is_numeric options.now.numeric ≡ false }
{
    if checked.tables().metadata.backward_second_level() {
        return false;
    }
    if checked.tables().metadata.lithuanian_dot_above() {
        return false;
    }
    if !is_unshifted(options.alternate_handling) {
        return false;
    }
    is_unnumbered(options.numeric)
}

/// The last index within the first `common` characters from which on three stand one after another that decomposing leaves
/// alone, and from which texts may be read; 0 where there is none among the last `searched` of these.
fn own_index<T: Characters>(
    checked: &CheckedTables<'_>,
    text: T,
    common: usize,
    searched: usize,
) -> usize
    ensures { IsPlaceToBegin (IsOpenPassage (source_collation checked.now)) (GoesOn (source_collation checked.now).canonical (source_collation checked.now).weights) (T.characters text) common result }
{
    let passages = OwnPassages { checked };
    place_to_begin(text.chars(), common, searched, &passages)
}

/// The last index within the first `common` characters from which on three stand from which texts may be read, with none
/// between them that has a prefix; 0 where there is none among the last `searched` of these.
fn index_among<T: Characters>(
    checked: &CheckedTables<'_>,
    text: T,
    common: usize,
    searched: usize,
) -> usize
    ensures { IsPlaceToBegin (IsOpenPassage (source_collation checked.now)) (GoesOn (source_collation checked.now).canonical (source_collation checked.now).weights) (T.characters text) common result }
{
    let passages = Passages { checked };
    place_to_begin(text.chars(), common, searched, &passages)
}

/// The same, where at first a few characters are looked at, and by one read each; then all, by their full lists: what two
/// texts have in common takes memory only from the last such index on.
fn index_near_or_far<T: Characters>(checked: &CheckedTables<'_>, text: T, common: usize) -> usize
    ensures { IsPlaceToBegin (IsOpenPassage (source_collation checked.now)) (GoesOn (source_collation checked.now).canonical (source_collation checked.now).weights) (T.characters text) common result }
{
    let near = own_index(checked, text, common, SEARCHED);
    if near != 0 || common <= SEARCHED {
        return near;
    }
    let searched = index_among(checked, text, common, SEARCHED_BY_LISTS);
    if searched != 0 || common <= SEARCHED_BY_LISTS {
        return searched;
    }
    index_among(checked, text, common, common)
}

/// The index from which texts have to be read that begin with the same `common` characters as this text: 0 where the
/// secondaries are read backward, where a dot above may be dropped, where elements are shifted, and where numbers are
/// sought. No memory is taken.
pub(crate) fn reading_start<T: Characters>(
    checked: &CheckedTables<'_>,
    options: &ResolvedCollatorOptions,
    text: T,
    common: usize,
) -> usize
    ensures { IsReadingStart (source_collation checked.now) options.now (T.characters text) common result }
{
    checked.canonical().keep_promise();
    if !may_skip(checked, options) {
        return 0;
    }
    index_near_or_far(checked, text, common)
}
