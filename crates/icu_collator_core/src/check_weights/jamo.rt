//! Whether the words of Hangul jamo keep the rules.

ghost use Rattle.std.specs.Prelude.{◌≡◌, ◌<◌, MatchOption, length};
ghost use Rattle.icu_collator_core.specs.WeightFaults.{AreSoundJamo, IsJamoFault, is_sound_jamo, jamo_count};

use super::own::own_primary;
use super::spelled::is_sound_lone;
use super::unpacked_elements::stated_element;
use crate::table_words::fields::states_element;
use crate::tables::CollationTables;

/// How many jamo there are.
const JAMO_COUNT: usize = 256;

/// Whether the word of a jamo states an element that keeps the rules, or the one that the jamo has by itself.
#[tactic(auto, unfolding(crate::specs::WeightFaults::is_sound_jamo))]
fn is_sound_jamo(tables: &CollationTables<'_>, index: usize) -> bool
    requires count { length tables.now.jamo.ce32s ≡ jamo_count }
    requires inside { index < jamo_count }
    ensures { result ≡ is_sound_jamo tables.now index }
{
    let word = tables.jamo.ce32s.at(index);
    if !states_element(word) {
        return false;
    }
    let Some(element) = stated_element(word) else {
        return false;
    };
    let own = own_primary(0x1100 + index as u32);
    is_sound_lone(&tables.special_primaries, Some(own), element)
}

/// The least index of a jamo whose word states no sound element, `None` where there is none. Of a table that
/// doesn't have as many words as there are jamo it is the end, or that of as many words.
pub(crate) fn jamo_fault(tables: &CollationTables<'_>) -> Option<usize>
    ensures { MatchOption result (AreSoundJamo tables.now) (IsJamoFault tables.now) }
{
    let count = tables.jamo.ce32s.len();
    if count != JAMO_COUNT {
        return Some(count.min(JAMO_COUNT));
    }
    for index in 0..JAMO_COUNT {
        if !is_sound_jamo(tables, index) {
            return Some(index);
        }
    }
    None
}
