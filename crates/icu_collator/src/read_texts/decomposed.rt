//! Reading of a text: it is decomposed, its elements are read, and those that count are kept.

ghost use Rattle.std.specs.Prelude.{◌≡◌, ℕ, List, false, true, IfOk};
ghost use Rattle.std.specs.Iterator.{IsFinite};
ghost use lib.Utf8.{scalars};
ghost use Rattle.icu_normalizer_core.specs.Iter.{Spells};
ghost use Rattle.icu_collator_types.specs.Options.{is_at_least, is_shifted};
ghost use Rattle.icu_collator_types.specs.declared.options.Strength.TheVariants.{Identical};
ghost use Rattle.icu_collator.specs.Collators.{source_collation};
ghost use Rattle.icu_collator.specs.TextsRead.{IsReadList, IsReadOf, numeric_by};

use super::texts::OwnedText;
use crate::levels::counted_elements::{counted, variable_end};
use icu_collator_core::checked::CheckedTables;
use icu_collator_core::elements::whole_texts::{decomposed_list, list_elements};
use icu_collator_types::options::{
    AlternateHandling, CollationNumericOrdering, ResolvedCollatorOptions, Strength,
};
use smallvec::SmallVec;
use std::alloc::{AllocError, Global};

/// The lead byte of numbers, where digits count.
pub(crate) fn numeric_lead(
    checked: &CheckedTables<'_>,
    options: &ResolvedCollatorOptions,
) -> Option<u8>
    ensures { result ≡ numeric_by checked.now options.now }
{
    match options.numeric {
        CollationNumericOrdering::False => None,
        CollationNumericOrdering::True => Some(checked.tables().special_primaries.numeric_primary),
    }
}

/// Whether nothing is shifted.
pub(crate) fn is_unshifted(options: &ResolvedCollatorOptions) -> bool
    ensures { result ≡ true → is_shifted options.now.alternate_handling ≡ false }
{
    match options.alternate_handling {
        AlternateHandling::NonIgnorable => true,
        AlternateHandling::Shifted => false,
    }
}

/// The characters of a decomposed list, at strength `Identical`. Fails only if memory is refused.
fn kept_characters(
    alloc: Global,
    strength: Strength,
    list: &[char],
) -> Result<SmallVec<char, 64>, AllocError>
    ensures { IfOk result (λ kept. is_at_least strength Identical ≡ true → kept.items ≡ list.now) }
{
    if strength.is_at_least(Strength::Identical) {
        let kept = SmallVec::from_slice(alloc, list)?;
        Ok(kept)
    } else {
        Ok(SmallVec::new(alloc))
    }
}

/// What is read of a decomposed list. Fails only if memory is refused.
fn read_list(
    alloc: Global,
    checked: &CheckedTables<'_>,
    options: &ResolvedCollatorOptions,
    list: SmallVec<char, 64>,
) -> Result<OwnedText, AllocError>
    requires { scalars list.items ≡ true }
    ensures { IfOk result (λ text. IsReadList (source_collation checked.now) options.now list.items text.elements.items text.variable_end text.characters.items) }
{
    let characters = kept_characters(alloc, options.strength, &list)?;
    let numeric = numeric_lead(checked, options);
    let elements = list_elements(alloc, checked, numeric, list)?;
    let variable_end = variable_end(checked, options);
    let elements = counted(alloc, elements, variable_end)?;
    Ok(OwnedText {
        elements,
        variable_end,
        characters,
    })
}

/// What is read of the text that an iterator gives. Fails only if memory is refused.
pub(crate) fn read_text<I: Iterator<Item = char> + Drop>(
    alloc: Global,
    checked: &CheckedTables<'_>,
    options: &ResolvedCollatorOptions,
    chars: I,
) -> Result<OwnedText, AllocError>
    requires can { I.can_next chars }
    requires finite { IsFinite (I.remaining chars) }
    ensures { IfOk result (λ text. (cs : List ℕ) → Spells I.next_gives chars cs → IsReadOf (source_collation checked.now) options.now cs text.elements.items text.variable_end text.characters.items) }
{
    let list = decomposed_list(alloc, checked.canonical(), chars)?;
    let text = read_list(alloc, checked, options, list)?;
    Ok(text)
}
