//! Contexts: a default word, and a unit trie of what stands beside a character.

ghost use Rattle.std.specs.Prelude.{◌≡◌, ℕ, ◌+◌, ◌*◌, ◌/◌, ◌%◌, ◌^◌, ◌<◌, ◌≤◌, ◌++◌, ◌∷◌, [], List, All, IfOk, OnOk, length, map, Option, Some, None};
ghost use Rattle.std.specs.Int.{cast_signed, w32};
ghost use Rattle.icu_char16trie.specs.WrittenUnits.{keyed};
ghost use Rattle.icu_collator_types.specs.declared.elements.Element.{Element};
ghost use Rattle.icu_collator_core.specs.Pools.{index_of};
ghost use Rattle.collate_words.specs.ContextKeys.{AreKeysOf, AreKeysOnce, FitsContext, HasFields, HasKeys, IsContext, pair_of};
ghost use Rattle.collate_words.specs.Entries.{said_beside};
ghost use Rattle.collate_words.specs.Fits.{AreBeside, HasRoom, IsBeside};
ghost use Rattle.collate_words.specs.Growth.{Grows, GrowsFor, IsFrontOf};
ghost use Rattle.collate_words.specs.OwnWords.{IsOwnWord};
ghost use Rattle.collate_words.specs.PartSayings.{saying_before, saying_behind};
ghost use Rattle.collate_words.specs.Sayings.{Saying, element_sum};
ghost use Rattle.collate_words.specs.Written.{SaysOf};

use crate::entry::{Beside, SuffixFlags};
use crate::pools::{Pools, naming};
use crate::units::units_of_key;
use icu_char16trie::laws::values_stay_in_longer_units;
use icu_char16trie::{WriteUnitsError, write_units};
use std::alloc::{AllocError, Global};

/// What the words of contexts have in their low byte.
const PREFIX: u32 = 0xc8;

const CONTRACTION: u32 = 0xc9;

/// The units of what stands beside a character, and the word of the character there.
#[derive(Drop)]
pub struct ContextKey {
    /// The units: one to 14.
    pub units: Vec<u16>,
    /// The word.
    pub word: u32,
}

/// Keys and words, as the writer of unit tries takes them.
fn pairs_of(alloc: Global, keys: &[ContextKey]) -> Result<Vec<(&[u16], i32)>, AllocError>
    ensures { IfOk result
        (λ pairs. keyed pairs.items ≡ map (λ key. (key.units.items, cast_signed w32 key.word)) keys.now) }
{
    let mut pairs = Vec::new(alloc);
    for key in keys {
        pairs.push((key.units.as_slice(), key.word.cast_signed()))?;
    }
    Ok(pairs)
}

/// Appends a default word and the units of a trie.
fn append_context(contexts: &mut Vec<u16>, default: u32, units: &[u16]) -> Result<(), AllocError>
    ensures grows { IsFrontOf contexts.old.items contexts.new.items }
    ensures size { length contexts.new.items ≤ length contexts.old.items + (2 + length units.now) }
    ensures units { OnOk result
        (contexts.new.items ≡ contexts.old.items ++ (default / 2 ^ 16 ∷ default % 2 ^ 16 ∷ units.now)) }
{
    contexts.push((default / 0x1_0000) as u16)?;
    contexts.push((default % 0x1_0000) as u16)?;
    contexts.extend_from_slice(units)?;
    Ok(())
}

/// What is left of the errors of the writer of unit tries where keys are sorted, and neither empty nor too long.
fn out_of_memory(error: WriteUnitsError) -> AllocError
    requires { error ≡ WriteUnitsError.Memory }
{
    match error {
        WriteUnitsError::Memory => AllocError,
        _ => unreachable!(),
    }
}

/// The units of a unit trie of different keys with their words, in whatever order they are given.
fn units_of_keys(alloc: Global, keys: &mut Vec<ContextKey>) -> Result<Vec<u16>, AllocError>
    requires some { 0 < length keys.old.items }
    requires few { length keys.old.items ≤ 2 ^ 19 }
    requires fit { All FitsContext keys.old.items }
    requires once { AreKeysOnce keys.old.items }
    ensures keys { IfOk result (λ units. HasKeys units.items (map pair_of keys.old.items)) }
    ensures size { IfOk result (λ units. length units.items ≤ 143 * length keys.old.items) }
{
    keys.sort_unstable_by(|a, b| a.units.as_slice().cmp(b.units.as_slice()));
    let pairs = pairs_of(alloc, keys.as_slice())?;
    match write_units(alloc, pairs.as_slice()) {
        Ok(units) => Ok(units),
        Err(error) => Err(out_of_memory(error)),
    }
}

/// The word of a context of suffixes.
fn contraction_word(index: usize, flags: SuffixFlags) -> u32
    requires { index < 2 ^ 19 }
    ensures fields { HasFields result index 0xc9 flags.all_begin flags.one_ends flags.one_holds }
    ensures fits { result < 2 ^ 32 }
{
    let all_begin = u32::from(flags.all_begin) << 9;
    let one_ends = u32::from(flags.one_ends) << 10;
    let one_holds = u32::from(flags.one_holds) << 11;
    naming(index, all_begin + one_ends + one_holds + CONTRACTION)
}

/// The word of a context of prefixes.
fn prefix_word(index: usize) -> u32
    requires { index < 2 ^ 19 }
    ensures index { index_of result ≡ index }
    ensures low { result % 2 ^ 8 ≡ 0xc8 }
    ensures fits { result < 2 ^ 32 }
{
    naming(index, PREFIX)
}

impl Pools {
    /// Writes the words of what stands beside a character, and gives the keys.
    fn write_keys(
        &mut self,
        alloc: Global,
        besides: &[Beside<'_>],
        backward: bool,
    ) -> Result<Vec<ContextKey>, AllocError>
        requires beside { All (IsBeside 7) (map said_beside besides.now) }
        requires room { HasRoom self.old (element_sum (map said_beside besides.now)) (length besides.now) }
        ensures grows { Grows self.old self.new }
        ensures contexts { self.new.contexts ≡ self.old.contexts }
        ensures size { GrowsFor (element_sum (map said_beside besides.now)) 0 self.old self.new }
        ensures count { IfOk result (λ keys. length keys.items ≡ length besides.now) }
        ensures fit { IfOk result (λ keys. All FitsContext keys.items) }
        ensures says { IfOk result
            (λ keys. AreKeysOf self.new backward (map said_beside besides.now) (map pair_of keys.items)) }
    {
        let mut keys = Vec::new(alloc);
        for beside in besides {
            let word = self.write_own(Some(beside.elements), None)?;
            let units = units_of_key(alloc, beside.characters, backward)?;
            keys.push(ContextKey { units, word })?;
        }
        Ok(keys)
    }

    /// Writes a context, and gives its index.
    fn write_context(
        &mut self,
        alloc: Global,
        default: u32,
        mut keys: Vec<ContextKey>,
    ) -> Result<usize, AllocError>
        requires some { 0 < length keys.items }
        requires few { length keys.items ≤ 2 ^ 19 }
        requires fit { All FitsContext keys.items }
        requires once { AreKeysOnce keys.items }
        ensures grows { Grows self.old self.new }
        ensures ces { self.new.ces ≡ self.old.ces }
        ensures ce32s { self.new.ce32s ≡ self.old.ce32s }
        ensures size { length self.new.contexts ≤ length self.old.contexts + (2 + 143 * length keys.items) }
        ensures index { IfOk result (λ index. index ≡ length self.old.contexts) }
        ensures says { IfOk result (λ index. IsContext self.new.contexts index default (map pair_of keys.items)) }
    {
        let units = units_of_keys(alloc, &mut keys)?;
        let index = self.contexts.len();
        append_context(&mut self.contexts, default, units.as_slice())?;
        Ok(index)
    }

    /// The word of a character with others after it, over its word alone.
    pub(crate) fn write_suffixes(
        &mut self,
        alloc: Global,
        own: u32,
        suffixes: &[Beside<'_>],
        flags: SuffixFlags,
    ) -> Result<u32, AllocError>
        requires beside { AreBeside 7 (map said_beside suffixes.now) }
        requires room { HasRoom self.old (element_sum (map said_beside suffixes.now)) (length suffixes.now) }
        ensures grows { Grows self.old self.new }
        ensures size { GrowsFor (element_sum (map said_beside suffixes.now)) (length suffixes.now) self.old self.new }
        ensures says { IfOk result (λ word. (alone : Option (List Element)) (offset : Option ℕ)
            → IsOwnWord self.old own alone offset
            → SaysOf self.new word (saying_behind alone offset (map said_beside suffixes.now) flags)) }
    {
        if suffixes.is_empty() {
            return Ok(own);
        }
        let keys = self.write_keys(alloc, suffixes, false)?;
        let index = self.write_context(alloc, own, keys)?;
        Ok(contraction_word(index, flags))
    }

    /// The word of a character with others before it, over its word where no prefix counts.
    pub(crate) fn write_prefixes(
        &mut self,
        alloc: Global,
        behind: u32,
        prefixes: &[Beside<'_>],
    ) -> Result<u32, AllocError>
        requires beside { AreBeside 3 (map said_beside prefixes.now) }
        requires room { HasRoom self.old (element_sum (map said_beside prefixes.now)) (length prefixes.now) }
        ensures grows { Grows self.old self.new }
        ensures size { GrowsFor (element_sum (map said_beside prefixes.now)) (length prefixes.now) self.old self.new }
        ensures says { IfOk result (λ word. (saying : Saying)
            → SaysOf self.old behind saying → saying.prefixes ≡ [] → saying.digit ≡ None
            → SaysOf self.new word (saying_before saying (map said_beside prefixes.now))) }
    {
        if prefixes.is_empty() {
            return Ok(behind);
        }
        values_stay_in_longer_units();
        let keys = self.write_keys(alloc, prefixes, true)?;
        let index = self.write_context(alloc, behind, keys)?;
        Ok(prefix_word(index))
    }
}
