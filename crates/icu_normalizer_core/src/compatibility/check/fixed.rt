//! Whether a character has the full list that is fixed for it.

ghost use Rattle.std.specs.Prelude.{◌≡◌, true, false, Option, option_map};
ghost use Rattle.icu_normalizer_core.specs.Compatibility.{fixed_list};
ghost use Rattle.icu_normalizer_core.specs.CompatibilityFaults.{OffendsFixed};
ghost use Rattle.icu_normalizer_core.specs.Settled.{left_items};
ghost use Rattle.icu_normalizer_core.specs.Words.{word_lists};

use crate::built_in::built_in_compatibility_step;
use crate::canonical::canonical_words::Words;
use crate::canonical::check::built_in::{built_in_full, step_characters};
use crate::canonical::check::left::Left;

/// The full list that is fixed for a character: by a built-in mapping, or itself below U+00A0.
#[tactic(auto, unfolding(crate::specs::Compatibility::fixed_list))]
pub(super) fn fixed_list(c: u32) -> Option<Left>
    ensures { option_map left_items result ≡ fixed_list c }
{
    match built_in_full(c) {
        Some(list) => Some(list),
        None => {
            if c < 0xa0 {
                return Some(Left::one(c));
            }
            match built_in_compatibility_step(c) {
                Some(step) => Some(step_characters(step)),
                None => None,
            }
        }
    }
}

/// Whether the full list of a character is the one that is fixed for it, if one is.
pub(super) fn is_fixed(words: Words<'_>, c: char) -> bool
    ensures good { result ≡ true → OffendsFixed (word_lists words.entry) c → ⊥ }
    ensures bad { result ≡ false → OffendsFixed (word_lists words.entry) c }
{
    match fixed_list(c as u32) {
        None => true,
        Some(list) => words.full_start(c).is(&list),
    }
}
