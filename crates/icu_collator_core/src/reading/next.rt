//! The reading of the next character of a text, whatever it is: special, a number, a dot above that is dropped, or a text.

ghost use Rattle.std.specs.Prelude.{◌≡◌, ◌&&◌, ◌||◌, ◌==◌, ◌+◌, ◌<◌, ◌≤◌, ◌∷◌, Some, None, true, false, IfOk, IfSome, IfNone, drop, is_some, length};
ghost use lib.Utf8.{scalars};
ghost use Rattle.smallvec.specs.SmallVec.{small_vec_len};
ghost use Rattle.icu_collator_core.specs.Defaults.{special_primary};
ghost use Rattle.icu_collator_core.specs.ElementLists.{unpacked};
ghost use Rattle.icu_collator_core.specs.Elements.{is_before_accent, placed};
ghost use Rattle.icu_collator_core.specs.ReadSources.{IsAloneAnywhere, canonical_by, weights_by};
ghost use Rattle.icu_collator_core.specs.ReadSteps.{IsRead};
ghost use Rattle.icu_collator_core.specs.ReadWords.{AreSaidBy, table_word};
ghost use Rattle.icu_collator_core.specs.TableMeaning.{digit_by};
ghost use Rattle.icu_collator_core.specs.TableSettings.{has_bit};

use super::accents::is_accent_at;
use super::checked_words::checked_word;
use super::digits::read_number;
use super::mark_runs::{begins_long_run, read_marks};
use crate::sound::SoundTables;
use crate::table_words::counting_words::CountingWord;
use crate::table_words::defaults::special_primary;
use crate::tables::CollationTables;
use icu_collator_types::elements::CollationElement;
use smallvec::SmallVec;
use std::alloc::AllocError;

/// Whether a character is a dot above that is dropped, by what stands after it from an index of a list on.
fn is_dropped(tables: &CollationTables<'_>, c: char, list: &[char], behind: usize) -> bool
    requires { behind ≤ length list.now }
    ensures { result ≡ (has_bit 6 tables.now.metadata.bits && (c == 0x307) && is_before_accent (drop behind (placed list.now))) }
{
    tables.metadata.lithuanian_dot_above() && c == '\u{307}' && is_accent_at(list, behind)
}

/// The lead byte of a number that begins with the character of a word, where digits count and it is one.
fn number_lead(entry: CountingWord<'_>, numeric: Option<u8>) -> Option<u8>
    ensures some { IfSome result (λ lead. (numeric ≡ Some lead) × (is_some (digit_by (table_word entry.entry)) ≡ true)) }
    ensures none { IfNone result ((is_some numeric && is_some (digit_by (table_word entry.entry))) ≡ false) }
{
    let lead = numeric?;
    if entry.digit().is_some() {
        Some(lead)
    } else {
        None
    }
}

/// The element of a character, if nothing that stands before or after it changes it, by the tables alone.
pub(crate) fn find_alone(sound: &SoundTables<'_>, c: char) -> Option<CollationElement>
    ensures { IfSome result (λ bits. IsAloneAnywhere sound.now c bits) }
{
    if c == '\u{307}' || special_primary(c as u32).is_some() {
        return None;
    }
    let element = checked_word(sound, c).alone_element(c)?;
    Some(element)
}

/// Reads a character that is neither special nor a digit that counts. Fails only if memory is refused.
fn read_uncounted(
    sound: &SoundTables<'_>,
    numeric: Option<u8>,
    entry: CountingWord<'_>,
    c: char,
    list: &mut SmallVec<char, 64>,
    index: usize,
    ready: &mut SmallVec<CollationElement, 32>,
) -> Result<usize, AllocError>
    requires inside { index < small_vec_len list.old }
    requires here { drop index list.old.items ≡ c ∷ drop (index + 1) list.old.items }
    requires characters { scalars list.old.items ≡ true }
    requires said { AreSaidBy (weights_by numeric sound.now) (table_word entry) c }
    requires ordinary { special_primary c ≡ None }
    requires uncounted { (is_some numeric && is_some (digit_by (table_word entry))) ≡ false }
    ensures read { IfOk result (λ next. IsRead (canonical_by sound.now) (weights_by numeric sound.now) (is_some numeric) list.old.items index (unpacked ready.old.items) list.new.items next (unpacked ready.new.items)) }
    ensures kept { scalars list.new.items ≡ true }
    ensures same_length { small_vec_len list.new ≡ small_vec_len list.old }
    ensures onward { IfOk result (λ next. index < next) }
    ensures within { IfOk result (λ next. next ≤ small_vec_len list.old) }
{
    sound.keep_promise();
    if is_dropped(sound.tables(), c, list, index + 1) {
        return Ok(index + 1);
    }
    let next = entry.read_text(sound.canonical(), c, list, index, ready)?;
    Ok(next)
}

/// Reads a character that isn't special. Fails only if memory is refused.
fn read_ordinary(
    sound: &SoundTables<'_>,
    numeric: Option<u8>,
    c: char,
    list: &mut SmallVec<char, 64>,
    index: usize,
    ready: &mut SmallVec<CollationElement, 32>,
) -> Result<usize, AllocError>
    requires inside { index < small_vec_len list.old }
    requires here { drop index list.old.items ≡ c ∷ drop (index + 1) list.old.items }
    requires characters { scalars list.old.items ≡ true }
    requires ordinary { special_primary c ≡ None }
    ensures read { IfOk result (λ next. IsRead (canonical_by sound.now) (weights_by numeric sound.now) (is_some numeric) list.old.items index (unpacked ready.old.items) list.new.items next (unpacked ready.new.items)) }
    ensures kept { scalars list.new.items ≡ true }
    ensures same_length { small_vec_len list.new ≡ small_vec_len list.old }
    ensures onward { IfOk result (λ next. index < next) }
    ensures within { IfOk result (λ next. next ≤ small_vec_len list.old) }
{
    sound.keep_promise();
    let entry = checked_word(sound, c);
    match number_lead(entry, numeric) {
        Some(lead) => {
            let next = read_number(sound, lead, list, index, ready)?;
            Ok(next)
        }
        None => {
            let next = read_uncounted(sound, numeric, entry, c, list, index, ready)?;
            Ok(next)
        }
    }
}

/// Reads the character at an index of a list, with what is read with it: appends its elements, and answers where what is
/// left begins. Marks that join a text are moved in front of those left between. Fails only if memory is refused.
fn read_character(
    sound: &SoundTables<'_>,
    numeric: Option<u8>,
    list: &mut SmallVec<char, 64>,
    index: usize,
    ready: &mut SmallVec<CollationElement, 32>,
) -> Result<usize, AllocError>
    requires inside { index < small_vec_len list.old }
    requires characters { scalars list.old.items ≡ true }
    ensures read { IfOk result (λ next. IsRead (canonical_by sound.now) (weights_by numeric sound.now) (is_some numeric) list.old.items index (unpacked ready.old.items) list.new.items next (unpacked ready.new.items)) }
    ensures kept { scalars list.new.items ≡ true }
    ensures same_length { small_vec_len list.new ≡ small_vec_len list.old }
    ensures onward { IfOk result (λ next. index < next) }
    ensures within { IfOk result (λ next. next ≤ small_vec_len list.old) }
{
    sound.keep_promise();
    let c = list[index];
    match special_primary(c as u32) {
        Some(primary) => {
            ready.push(CollationElement::new_from_primary(primary))?;
            Ok(index + 1)
        }
        None => {
            let next = read_ordinary(sound, numeric, c, list, index, ready)?;
            Ok(next)
        }
    }
}

/// Reads the character at an index of a list, with what is read with it, or all of a long run of marks: appends the
/// elements, and answers where what is left begins. Marks that join a text are moved in front of those left between.
/// Fails only if memory is refused.
pub(crate) fn read_next(
    sound: &SoundTables<'_>,
    numeric: Option<u8>,
    list: &mut SmallVec<char, 64>,
    index: usize,
    ready: &mut SmallVec<CollationElement, 32>,
) -> Result<usize, AllocError>
    requires inside { index < small_vec_len list.old }
    requires characters { scalars list.old.items ≡ true }
    ensures read { IfOk result (λ next. IsRead (canonical_by sound.now) (weights_by numeric sound.now) (is_some numeric) list.old.items index (unpacked ready.old.items) list.new.items next (unpacked ready.new.items)) }
    ensures kept { scalars list.new.items ≡ true }
    ensures same_length { small_vec_len list.new ≡ small_vec_len list.old }
    ensures onward { IfOk result (λ next. index < next) }
    ensures within { IfOk result (λ next. next ≤ small_vec_len list.old) }
{
    if begins_long_run(sound.canonical(), list, index) {
        let end = read_marks(sound, list, index, ready)?;
        return Ok(end);
    }
    let next = read_character(sound, numeric, list, index, ready)?;
    Ok(next)
}
