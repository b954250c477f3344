//! Whether a full list stands inside the tables, is short enough, has no item that is mapped or no character, begins
//! with no mark, and is the lists of what canonical mappings leave.

ghost use Rattle.std.specs.Prelude.{◌≡◌, ◌↔◌, true, false, IsTrue, All, take, flat_map};
ghost use Rattle.std.specs.Char.{IsScalar};
ghost use Rattle.icu_normalizer_core.specs.CanonicalFaults.{begins_with_mark};
ghost use Rattle.icu_normalizer_core.specs.CanonicalWords.{states_list};
ghost use Rattle.icu_normalizer_core.specs.CanonicalMeaning.{lists_of, meaning};
ghost use Rattle.icu_normalizer_core.specs.Compatibility.{IsUnbound};
ghost use Rattle.icu_normalizer_core.specs.CompatibilityFaults.{OffendsWordList, IsOwnItem, HasOtherItem};
ghost use Rattle.icu_normalizer_core.specs.CompatibilityWalks.{AreLettersOwn};
ghost use Rattle.icu_normalizer_core.specs.Settled.{left_items};
ghost use Rattle.icu_normalizer_core.specs.Words.{word_lists, full_in};

use crate::built_in::{built_in_compatibility_step, built_in_step};
use crate::canonical::canonical_words::{Words, states_list};
use crate::canonical::check::full_lists::begins_with_mark;
use crate::canonical::check::left::Left;
use crate::canonical::full_list::full_list;
use crate::canonical::{CanonicalTables, FullList};

/// Whether a number is a character that is its own full list.
fn is_own_item(words: Words<'_>, item: u32) -> bool
    ensures { IsTrue result ↔ IsOwnItem (word_lists words.entry) item }
{
    match char::from_u32(item) {
        Some(c) => words.full_start(c).is(&Left::one(item)),
        None => false,
    }
}

/// Whether each jamo is its own full list.
pub(super) fn are_letters_own(words: Words<'_>) -> bool
    ensures { result ≡ true → AreLettersOwn (word_lists words.entry) }
{
    for code in 0x1100..0x1200u32 {
        if !is_own_item(words, code) {
            return false;
        }
    }
    true
}

/// Whether each number is a character that is its own full list.
fn are_own_items(words: Words<'_>, items: &[u32]) -> bool
    ensures good { result ≡ true → HasOtherItem (word_lists words.entry) items.now → ⊥ }
    ensures bad { result ≡ false → HasOtherItem (word_lists words.entry) items.now }
{
    for item in items {
        if !is_own_item(words, *item) {
            return false;
        }
    }
    true
}

/// The first nine characters of the full lists of characters, one after another.
fn joined_start(words: Words<'_>, list: FullList<'_>) -> Left
    ensures { left_items result ≡ take 9 (flat_map (full_in (word_lists words.entry)) list.entry) }
{
    let mut left = Left::none();
    for c in list {
        left = left.joined(words.full_start(c));
    }
    left
}

/// Whether no mapping is built in of a character.
fn is_unbound(c: u32) -> bool
    ensures { IsTrue result ↔ IsUnbound c }
{
    built_in_step(c).is_none() && built_in_compatibility_step(c).is_none()
}

/// Whether a list that a word states for a character without a built-in mapping begins with a mark.
fn is_bad_start(tables: &CanonicalTables<'_>, c: u32, word: u32, full: &Left) -> bool
    ensures { IsTrue result ↔ (IsUnbound c × (states_list word ≡ true) × (begins_with_mark (meaning tables.now) (left_items full.now) ≡ true)) }
{
    is_unbound(c) && states_list(word) && begins_with_mark(tables, full)
}

/// Whether nothing is wrong with the full list of a character.
pub(super) fn has_good_list(tables: &CanonicalTables<'_>, words: Words<'_>, c: char) -> bool
    requires { All IsScalar ((meaning tables.now).full c) }
    ensures good { result ≡ true → OffendsWordList (lists_of tables.now) (word_lists words.entry) c → ⊥ }
    ensures bad { result ≡ false → OffendsWordList (lists_of tables.now) (word_lists words.entry) c }
{
    let word = words.word(c);
    if !words.is_inside(word) {
        return false;
    }
    let full = words.full_start(c);
    if full.count > 8 {
        return false;
    }
    if !are_own_items(words, &full.characters[..full.count]) {
        return false;
    }
    if is_bad_start(tables, c as u32, word, &full) {
        return false;
    }
    full.is(&joined_start(words, full_list(tables, c)))
}
