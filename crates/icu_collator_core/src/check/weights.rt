//! Words of characters that spell what breaks a rule on weights.

ghost use Rattle.std.specs.Prelude.{◌↔◌, IsTrue, IfOk, MatchOption};
ghost use Rattle.icu_collator_types.specs.ElementWords.{has_tag};
ghost use Rattle.icu_collator_core.specs.Pools.{lone_word, unprefixed_word};
ghost use Rattle.icu_collator_core.specs.TableFaults.{AllPassIn, IsFirstRefused};
ghost use Rattle.icu_collator_core.specs.TableMeaning.{pools_of};
ghost use Rattle.icu_collator_core.specs.WeightFaults.{is_sound_in_context};
ghost use Rattle.icu_collator_core.specs.WordForms.{ValuesPass};
ghost use Rattle.icu_collator_core.specs.WordWeights.{HasSoundWords, HasWeights};

use super::layers::Layer;
use super::refused_characters::{CharacterTest, first_refused};
use super::runs::behind_unrecorded;
use super::values::{ValueTest, values_pass};
use crate::check_weights::{is_sound_word, own_primary};
use crate::table_words::fields::{has_tag, index_of};
use crate::table_words::lone_words::{lone_word, unprefixed_word};
use crate::tables::{CollationData, CollationSpecialPrimaries, CollationTables};
use icu_collator_types::elements::Tag;
use std::alloc::{AllocError, Global};

/// The test for words of contexts that spell what keeps the rules.
#[derive(Drop)]
struct SoundWords<'d, 'a> {
    special: &'d CollationSpecialPrimaries<'a>,
    source: &'d CollationData<'a>,
    c: char,
}

impl<'d, 'a> ValueTest for SoundWords<'d, 'a> {
    ghost use Rattle.icu_collator_core.specs.TableMeaning.{pools_of};
    ghost use Rattle.icu_collator_core.specs.WeightFaults.{is_sound_in_context};

    ghost test = { λ words. is_sound_in_context words.special.now (pools_of words.source.now) words.c };

    fn passes(&self, word: u32) -> bool {
        is_sound_word(self.special, self.source, None, self.c as u32, word)
    }
}

/// Whether the values of the context that a word names are such words.
fn are_sound_values(
    alloc: Global,
    special: &CollationSpecialPrimaries<'_>,
    source: &CollationData<'_>,
    c: char,
    word: u32,
) -> Result<bool, AllocError>
    ensures { IfOk result (λ all. IsTrue all ↔ ValuesPass (pools_of source.now) (is_sound_in_context special.now (pools_of source.now) c) word) }
{
    let test = SoundWords { special, source, c };
    let all = values_pass(alloc, &source.contexts, index_of(word), &test)?;
    Ok(all)
}

/// The same where the word has a tag.
fn are_sound_where(
    alloc: Global,
    special: &CollationSpecialPrimaries<'_>,
    source: &CollationData<'_>,
    c: char,
    tag: Tag,
    word: u32,
) -> Result<bool, AllocError>
    ensures { IfOk result (λ yes. IsTrue yes ↔ (IsTrue (has_tag tag word) → ValuesPass (pools_of source.now) (is_sound_in_context special.now (pools_of source.now) c) word)) }
{
    if !has_tag(word, tag) {
        return Ok(true);
    }
    let all = are_sound_values(alloc, special, source, c, word)?;
    Ok(all)
}

/// Whether the word of a character and those in its contexts spell what keeps the rules.
fn has_sound_words(
    alloc: Global,
    special: &CollationSpecialPrimaries<'_>,
    source: &CollationData<'_>,
    c: char,
    word: u32,
) -> Result<bool, AllocError>
    ensures { IfOk result (λ yes. IsTrue yes ↔ HasSoundWords special.now (pools_of source.now) c word) }
{
    let lone = lone_word(source, word);
    let own = Some(own_primary(c as u32));
    if !is_sound_word(special, source, own, c as u32, lone) {
        return Ok(false);
    }
    let unprefixed = unprefixed_word(source, word);
    let suffixes = are_sound_where(alloc, special, source, c, Tag::Contraction, unprefixed)?;
    if !suffixes {
        return Ok(false);
    }
    let prefixes = are_sound_where(alloc, special, source, c, Tag::Prefix, word)?;
    Ok(prefixes)
}

/// The test for characters whose words spell what keeps the rules.
#[derive(Drop)]
struct WeightTest<'d, 'a> {
    special: &'d CollationSpecialPrimaries<'a>,
}

impl<'d, 'a> CharacterTest for WeightTest<'d, 'a> {
    ghost use Rattle.icu_collator_core.specs.WordWeights.{HasWeights};

    ghost Passes = { λ weights layer source c. HasWeights weights.special.now layer source c };

    fn passes(
        &self,
        alloc: Global,
        _layer: Layer,
        source: &CollationData<'_>,
        c: char,
    ) -> Result<bool, AllocError> {
        let word = source.trie.get(c);
        let yes = has_sound_words(alloc, self.special, source, c, word)?;
        Ok(yes)
    }

    fn next_code(&self, layer: Layer, source: &CollationData<'_>, code: u32) -> u32 {
        behind_unrecorded(layer, source, code)
    }
}

/// The first character with a word that spells what breaks a rule on weights, `None` where there is none. Fails only if
/// memory is refused.
pub(crate) fn first_weight_fault(
    alloc: Global,
    tables: &CollationTables<'_>,
) -> Result<Option<char>, AllocError>
    ensures { IfOk result (λ found. MatchOption found (AllPassIn tables.now (HasWeights tables.now.special_primaries)) (IsFirstRefused tables.now (HasWeights tables.now.special_primaries))) }
{
    let test = WeightTest {
        special: &tables.special_primaries,
    };
    let found = first_refused(alloc, tables, &test)?;
    Ok(found)
}
