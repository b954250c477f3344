//! What collators over a provider answer, beside what its tables mean.

use crate::answers::{Answer, answered};
use crate::choices::{COUNT, Choice, choice_at};
use crate::texts::{ReadText, read_latin1_texts, read_texts};
use icu_collator::{Collator, CollatorBorrowed, CollatorError};
use icu_collator_core::checked::CheckedTables;
use icu_collator_core::tables::CollationTables;
use icu_normalizer_core::canonical::{CanonicalData, CanonicalTables};
use samples_icu_collator::held::HeldCollation;
use samples_icu_collator::levels::order_of_levels;
use samples_icu_collator::unsafe_characters::{Both, is_plainly_unsafe, unsafe_by_records};
use samples_icu_normalizer::encoded_texts::{Encoded, LATIN1_TEXTS, TEXTS};
use std::alloc::Global;
use std::cmp::Ordering;

/// Whether two texts compare so, in each encoding.
fn are_ordered(
    alloc: Global,
    collator: &CollatorBorrowed<'_>,
    left: &Encoded,
    right: &Encoded,
    order: Ordering,
) -> bool {
    let (bytes, others) = (left.text.as_bytes(), right.text.as_bytes());
    let of_texts = collator.compare(alloc, left.text.as_str(), right.text.as_str());
    let of_bytes = collator.compare_utf8(alloc, bytes, others);
    let of_units = collator.compare_utf16(alloc, left.units.as_slice(), right.units.as_slice());
    let order = Some(order);
    of_texts.ok() == order && of_bytes.ok() == order && of_units.ok() == order
}

/// Whether a text has this key, in each encoding.
fn has_key(alloc: Global, collator: &CollatorBorrowed<'_>, text: &Encoded, key: &[u8]) -> bool {
    let mut of_text = Vec::new(alloc);
    let mut of_bytes = Vec::new(alloc);
    let mut of_units = Vec::new(alloc);
    let bytes = text.text.as_bytes();
    collator
        .write_sort_key_to(alloc, text.text.as_str(), &mut of_text)
        .is_ok()
        && collator
            .write_sort_key_utf8_to(alloc, bytes, &mut of_bytes)
            .is_ok()
        && collator
            .write_sort_key_utf16_to(alloc, text.units.as_slice(), &mut of_units)
            .is_ok()
        && of_text.as_slice() == key
        && of_bytes.as_slice() == key
        && of_units.as_slice() == key
}

/// A collator under the options of a choice, and the tables that it is over.
#[derive(Clone, Copy)]
struct Asked<'t> {
    alloc: Global,
    tables: &'t CollationTables<'t>,
    collator: CollatorBorrowed<'t>,
    choice: Choice,
}

impl Asked<'_> {
    /// The call that is wrong on a text and the one after it, if one.
    fn wrong_on_pair(&self, text: &ReadText, next: &ReadText) -> Option<&'static str> {
        let Asked {
            alloc,
            tables,
            collator,
            choice,
        } = *self;
        let meant = text.meaning(alloc, tables, &choice);
        let Some((meant, of_next)) = meant.zip(next.meaning(alloc, tables, &choice)) else {
            return Some("memory");
        };
        let order = order_of_levels(&meant.levels, &of_next.levels);
        let reverse = order.reverse();
        if !are_ordered(alloc, &collator, &text.text, &next.text, order)
            || !are_ordered(alloc, &collator, &next.text, &text.text, reverse)
        {
            return Some("compare");
        }
        if !has_key(alloc, &collator, &text.text, meant.key.as_slice()) {
            return Some("key");
        }
        None
    }

    /// Whether two texts compare as the tables mean, the first in Latin-1, the second in Latin-1 and in UTF-16.
    fn are_latin1_ordered(
        &self,
        latin1: (&[u8], &[u8]),
        text: &ReadText,
        next: &ReadText,
    ) -> Option<bool> {
        let Asked {
            alloc,
            tables,
            collator,
            choice,
        } = *self;
        let meant = text.meaning(alloc, tables, &choice)?;
        let of_next = next.meaning(alloc, tables, &choice)?;
        let order = Some(order_of_levels(&meant.levels, &of_next.levels));
        let (bytes, others) = latin1;
        let units = next.text.units.as_slice();
        Some(
            collator.compare_latin1(alloc, bytes, others).ok() == order
                && collator.compare_latin1_utf16(alloc, bytes, units).ok() == order,
        )
    }

    /// Whether all texts in Latin-1 compare as the tables mean.
    fn all_latin1_are_ordered(&self, texts: &[ReadText]) -> bool {
        let bytes = LATIN1_TEXTS.iter().zip(LATIN1_TEXTS.iter().skip(1));
        let texts = texts.iter().zip(texts.iter().skip(1));
        for ((one, other), (text, next)) in bytes.zip(texts) {
            if self.are_latin1_ordered((one, other), text, next) != Some(true) {
                return false;
            }
        }
        true
    }

    /// The call that is wrong on one of the texts, if one.
    fn wrong_call(&self, texts: &[ReadText], latin1: &[ReadText]) -> Option<&'static str> {
        for (text, next) in texts.iter().zip(texts.iter().skip(1)) {
            let wrong = self.wrong_on_pair(text, next);
            if wrong.is_some() {
                return wrong;
            }
        }
        if self.all_latin1_are_ordered(latin1) {
            None
        } else {
            Some("compare_latin1")
        }
    }
}

/// Whether each character of the texts is unsafe where it should be.
fn all_are_unsafe(
    alloc: Global,
    canonical: &CanonicalTables<'_>,
    tables: &CheckedTables<'_>,
) -> bool {
    let both = Both {
        canonical,
        collation: tables.tables(),
    };
    let Some(unsafe_characters) = unsafe_by_records(alloc, both) else {
        return false;
    };
    TEXTS.iter().all(|text| {
        text.chars().all(|c| {
            is_plainly_unsafe(alloc, both, unsafe_characters.as_slice(), c)
                == Some(tables.is_unsafe(c))
        })
    })
}

/// The canonical data of a provider.
fn canonical_of(alloc: Global, held: &HeldCollation<'static>) -> Option<CanonicalData<'static>> {
    let trie = held.canonical.trie.clone(alloc).ok();
    let scalars16 = held.canonical.scalars16.clone(alloc).ok();
    let scalars24 = held.canonical.scalars24.clone(alloc).ok();
    let steps = held.canonical.steps.clone(alloc).ok();
    let pairs = held.canonical.pairs.clone(alloc).ok();
    let ((trie, pairs), (steps, (scalars16, scalars24))) = trie
        .zip(pairs)
        .zip(steps.zip(scalars16.zip(scalars24)))?;
    let tables = CanonicalTables {
        trie,
        scalars16,
        scalars24,
        steps,
        pairs,
    };
    CanonicalData::try_new(alloc, tables).ok()
}

/// The checked tables of a provider.
fn checked_of(alloc: Global, held: &HeldCollation<'static>) -> Option<CheckedTables<'static>> {
    let canonical = canonical_of(alloc, held);
    let tables: Option<CollationTables<'static>> = held.tables.clone(alloc).ok();
    let (canonical, tables) = canonical.zip(tables)?;
    CheckedTables::try_new(alloc, canonical, tables).ok()
}

/// A collator over a provider, under a choice of options.
fn collator_under<'a>(
    alloc: Global,
    held: &'a HeldCollation<'static>,
    choice: Choice,
) -> Result<Collator<'a>, CollatorError> {
    Collator::try_new_unstable(alloc, held, choice.preferences(), choice.given_options())
}

/// The call of a collator under a choice of options that is wrong on texts, if one.
fn wrong_under(
    alloc: Global,
    held: &HeldCollation<'static>,
    choice: Choice,
    texts: &[ReadText],
    latin1: &[ReadText],
) -> Option<&'static str> {
    match collator_under(alloc, held, choice) {
        Ok(collator) => {
            let asked = Asked {
                alloc,
                tables: &held.tables,
                collator: collator.as_borrowed(),
                choice,
            };
            asked.wrong_call(texts, latin1)
        }
        Err(_) => Some("another refusal"),
    }
}

/// The call that is wrong under one of the choices, if one. Of the tables it changes what they say of secondaries.
fn wrong_call(alloc: Global, held: &mut HeldCollation<'static>) -> Option<&'static str> {
    let Some(tables) = checked_of(alloc, held) else {
        return Some("checked tables");
    };
    if !all_are_unsafe(alloc, &held.canonical, &tables) {
        return Some("is_unsafe");
    }
    let texts = read_texts(alloc, &held.canonical, &tables);
    let Some((texts, latin1)) = texts.zip(read_latin1_texts(alloc, &held.canonical, &tables)) else {
        return Some("elements");
    };
    for index in 0..COUNT {
        let Some(choice) = choice_at(index) else {
            return Some("no choice");
        };
        held.tables.metadata = choice.metadata(held.tables.metadata);
        let wrong = wrong_under(alloc, held, choice, texts.as_slice(), latin1.as_slice());
        if wrong.is_some() {
            return wrong;
        }
    }
    None
}

/// What collators over a provider do, under each choice of options. Whether they are refused isn't for the options to
/// say.
pub fn collator_answer(alloc: Global, held: &mut HeldCollation<'static>) -> Answer<CollatorError> {
    let Some(choice) = choice_at(0) else {
        return Answer::Misread("no choice");
    };
    if let Err(error) = collator_under(alloc, held, choice) {
        return Answer::Refused(error);
    }
    let metadata = held.tables.metadata;
    let wrong = wrong_call(alloc, held);
    held.tables.metadata = metadata;
    answered(wrong)
}
