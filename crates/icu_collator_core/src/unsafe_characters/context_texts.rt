//! The characters that the texts of a context make unsafe. A node of its units that many jumps share is
//! looked at once for each character that stands at the index that is asked for.

ghost use Rattle.std.specs.Prelude.{◌≡◌, ℤ, OnOk};
ghost use Rattle.std.specs.Int.{cast_unsigned, w32};
ghost use Rattle.std.specs.List.{Contains};
ghost use Rattle.icu_collator_core.specs.declared.check.walks.Reading.{Reading};
ghost use Rattle.icu_collator_core.specs.declared.check.walks.Reading.TheVariants.{Whole};
ghost use Rattle.icu_collator_core.specs.declared.unsafe_characters.context_texts.Met.{Met};
ghost use Rattle.icu_collator_core.specs.declared.unsafe_characters.context_texts.Side.TheVariants.{Behind};
ghost use Rattle.icu_collator_core.specs.TableMeaning.{pools_of};
ghost use Rattle.icu_collator_core.specs.UnsafeWords.{ContextGives, ContextMakesUnsafe, ReadingGives};
ghost use Rattle.icu_collator_core.specs.WeightLists.{Grows};

use crate::check::walks::{Reading, TextTest, UnitFold};
use crate::table_words::contexts::units_of;
use crate::table_words::fields::index_of;
use crate::table_words::word_elements::has_elements;
use crate::tables::CollationData;
use icu_char16trie::{KeyFold, fold_keys};
use std::alloc::{AllocError, Global};

/// On which side of a character the texts of a context stand.
#[derive(Clone, Copy, Debug)]
pub(super) enum Side {
    /// After it: all of their characters are unsafe.
    Behind,
    /// Before this character, which is unsafe.
    Before(char),
}

/// What was met so far in a text.
#[derive(Clone, Copy, Debug)]
pub(super) struct Met {
    /// How many characters, up to eight.
    count: usize,
    /// The one that is asked for, once it was met.
    character: u32,
}

/// The test for texts of at most seven characters that have so many, the last of which is asked for.
#[derive(Drop)]
struct MeetingTest {
    many: usize,
}

impl TextTest for MeetingTest {
    ghost use Rattle.icu_collator_core.specs.TextFolds.{has_met, met_with};

    type Folded = Met;

    ghost onward = { λ meeting. met_with meeting.many };

    ghost test = { λ meeting. has_met meeting.many };

    fn fold_character(&self, before: Met, c: char) -> Met {
        let count = if before.count <= 7 {
            before.count + 1
        } else {
            before.count
        };
        let character = if count == self.many {
            c as u32
        } else {
            before.character
        };
        Met { count, character }
    }

    fn passes(&self, met: Met) -> bool {
        met.count <= 7 && self.many <= met.count
    }

    fn is_same(&self, one: Met, other: Met) -> bool {
        one.count == other.count && one.character == other.character
    }
}

/// The fold of the units of keys by the characters that they spell.
#[derive(Drop)]
struct MeetingFold<'t> {
    units: UnitFold<'t, MeetingTest>,
}

impl<'t> KeyFold for MeetingFold<'t> {
    ghost use Rattle.icu_collator_core.specs.KeyTexts.{read_small};
    ghost use Rattle.icu_collator_core.specs.TextFolds.{met_with};

    type Folded = Reading<Met>;

    ghost onward = { λ meeting. read_small (met_with meeting.units.test.now.many) };

    fn fold_unit(&self, folded: Reading<Met>, unit: u16) -> Reading<Met> {
        self.units.fold_unit(folded, unit)
    }

    fn is_same(&self, one: Reading<Met>, other: Reading<Met>) -> bool {
        self.units.is_same(one, other)
    }
}

/// One character more, unless the last one is the same.
fn gather_character(characters: &mut Vec<u32>, c: u32) -> Result<(), AllocError>
    ensures { OnOk result (Grows (λ d. d ≡ c) characters.old.items characters.new.items) }
{
    let count = characters.len();
    if count > 0 && characters[count - 1] == c {
        return Ok(());
    }
    characters.push(c)?;
    Ok(())
}

/// The character that was met in a text, if it has so many characters and its word has elements.
fn gather_met(
    characters: &mut Vec<u32>,
    source: &CollationData<'_>,
    test: &MeetingTest,
    met: Met,
    word: u32,
) -> Result<(), AllocError>
    ensures { OnOk result (Grows (ReadingGives (pools_of source.now) test.now.many (Whole met) word) characters.old.items characters.new.items) }
{
    if !has_elements(source, word) {
        return Ok(());
    }
    if !test.passes(met) {
        return Ok(());
    }
    gather_character(characters, met.character)?;
    Ok(())
}

/// The same of what the units of a key come to.
fn gather_reading(
    characters: &mut Vec<u32>,
    source: &CollationData<'_>,
    test: &MeetingTest,
    reading: Reading<Met>,
    word: u32,
) -> Result<(), AllocError>
    ensures { OnOk result (Grows (ReadingGives (pools_of source.now) test.now.many reading word) characters.old.items characters.new.items) }
{
    match reading {
        Reading::Whole(met) => {
            gather_met(characters, source, test, met, word)?;
            Ok(())
        }
        Reading::Half(_, _) => Ok(()),
        Reading::Broken => Ok(()),
    }
}

/// The characters that were met in what the units of keys come to, if they have so many characters and their words have
/// elements.
fn gather_readings(
    characters: &mut Vec<u32>,
    source: &CollationData<'_>,
    test: &MeetingTest,
    readings: &Vec<(Reading<Met>, i32)>,
) -> Result<(), AllocError>
    ensures { OnOk result (Grows (λ d. (one : Reading Met × ℤ) × Contains readings.now.items one × ReadingGives (pools_of source.now) test.now.many one.0 (cast_unsigned w32 one.1) d) characters.old.items characters.new.items) }
{
    for index in 0..readings.len() {
        let entry = &readings[index];
        gather_reading(characters, source, test, entry.0, entry.1.cast_unsigned())?;
    }
    Ok(())
}

/// The last of so many characters of each text of a context that a word names, if the text has them and its word has
/// elements; where none are asked for, the first is there for all texts. Where its units break the grammar of unit tries,
/// there are none.
fn gather_last_of(
    alloc: Global,
    characters: &mut Vec<u32>,
    source: &CollationData<'_>,
    many: usize,
    first: u32,
    word: u32,
) -> Result<(), AllocError>
    ensures { OnOk result (Grows (ContextGives (pools_of source.now) many first word) characters.old.items characters.new.items) }
{
    let units = units_of(&source.contexts, index_of(word));
    let test = MeetingTest { many };
    let fold = MeetingFold {
        units: UnitFold { test: &test },
    };
    let start = Met {
        count: 0,
        character: first,
    };
    let found = fold_keys(alloc, &units, &fold, Reading::Whole(start))?;
    match found {
        Some(readings) => {
            gather_readings(characters, source, &test, &readings)?;
            Ok(())
        }
        None => Ok(()),
    }
}

/// All characters of the texts of a context that a word names, if their words have elements.
fn gather_all(
    alloc: Global,
    characters: &mut Vec<u32>,
    source: &CollationData<'_>,
    word: u32,
) -> Result<(), AllocError>
    ensures { OnOk result (Grows (ContextMakesUnsafe (pools_of source.now) Behind word) characters.old.items characters.new.items) }
{
    for index in 0..7usize {
        gather_last_of(alloc, characters, source, index + 1, 0, word)?;
    }
    Ok(())
}

/// The characters that the context that a word names makes unsafe. Where its units break the grammar of unit tries, there are
/// none.
pub(super) fn gather_context(
    alloc: Global,
    characters: &mut Vec<u32>,
    source: &CollationData<'_>,
    side: Side,
    word: u32,
) -> Result<(), AllocError>
    ensures { OnOk result (Grows (ContextMakesUnsafe (pools_of source.now) side word) characters.old.items characters.new.items) }
{
    match side {
        Side::Behind => {
            gather_all(alloc, characters, source, word)?;
            Ok(())
        }
        Side::Before(c) => {
            gather_last_of(alloc, characters, source, 0, c as u32, word)?;
            Ok(())
        }
    }
}
