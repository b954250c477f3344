//! Words that need no look at other characters, and the words of digits over them.

ghost use Rattle.std.specs.Prelude.{◌≡◌, ◌+◌, ◌%◌, ◌^◌, ◌<◌, ◌≤◌, ◌==◌, true, None, [], ◌++◌, length, map, IsTrue, IfOk, IfSome, OnOk};
ghost use Rattle.std.specs.List.{list_all};
ghost use Rattle.std.specs.Option.{is_some, option_copied};
ghost use Rattle.collate_words.specs.DigitWords.{IsDigitOver};
ghost use Rattle.collate_words.specs.Fits.{AreFit, HasRoom, fits_bits};
ghost use Rattle.collate_words.specs.Growth.{Grows, GrowsFor, IsFrontOf};
ghost use Rattle.collate_words.specs.OwnWords.{IsOwnWord};
ghost use Rattle.collate_words.specs.Sayings.{own_room};
ghost use Rattle.collate_words.specs.ShortWords.{States, bits_of, case_byte, fits_word, has_long_primary, has_long_secondary, is_narrow, word_of};

use crate::pools::{Pools, naming};
use icu_collator_types::elements::{COMMON_WEIGHT, Element};
use std::alloc::AllocError;

/// The word that says that there is no element.
const NO_ELEMENT: u32 = 0;

/// The low byte of a word that is a primary of three bytes.
const LONG_PRIMARY: u32 = 0xc1;

/// The low byte of a word that is a secondary of two bytes and a tertiary of one.
const LONG_SECONDARY: u32 = 0xc2;

/// The low byte of a word that names a list of words.
const EXPANSION_OF_WORDS: u32 = 0xc5;

/// The low byte of a word that names a list of elements.
const EXPANSION_OF_ELEMENTS: u32 = 0xc6;

/// The low byte of the word of a digit.
const DIGIT: u32 = 0xca;

/// The low byte of the word of a character in a range.
const OFFSET: u32 = 0xce;

/// The word of a character whose primary its code point gives.
const IMPLICIT: u32 = 0xcf;

/// Case, and the first byte of the tertiary below.
fn case_byte(element: &Element) -> u32
    ensures { result ≡ case_byte element.now }
{
    (u32::from(element.case) << 6) + u32::from(element.tertiary >> 8)
}

/// Whether an element has a primary of two bytes, a secondary of one and a tertiary of one.
fn is_narrow(element: &Element) -> bool
    ensures { result ≡ is_narrow element.now }
{
    element.primary % 0x1_0000 == 0
        && element.secondary % 0x100 == 0
        && element.tertiary % 0x100 == 0
}

/// Whether an element has a primary of three bytes, with common weights.
fn has_long_primary(element: &Element) -> bool
    ensures { result ≡ has_long_primary element.now }
{
    element.primary != 0
        && element.primary % 0x100 == 0
        && element.secondary == COMMON_WEIGHT
        && element.case == 0
        && element.tertiary == COMMON_WEIGHT
}

/// Whether an element has a secondary of two bytes and a tertiary of one, and no primary.
fn has_long_secondary(element: &Element) -> bool
    ensures { result ≡ has_long_secondary element.now }
{
    element.primary == 0 && element.tertiary % 0x100 == 0
}

/// The word that states an element by itself, if one does.
#[tactic(auto, unfolding(crate::specs::ShortWords::word_of))]
pub fn short_word(element: &Element) -> Option<u32>
    requires { fits_bits element.now ≡ true }
    ensures test { is_some result ≡ fits_word element.now }
    ensures says { IfSome result (λ word. States word element.now) }
    ensures word { IfSome result (λ word. word ≡ word_of element.now) }
{
    let byte = case_byte(element);
    if element.quaternary != 0 {
        None
    } else if is_narrow(element) {
        Some(element.primary + u32::from(element.secondary) + byte)
    } else if has_long_primary(element) {
        Some(element.primary + LONG_PRIMARY)
    } else if has_long_secondary(element) {
        Some((u32::from(element.secondary) << 16) + (byte << 8) + LONG_SECONDARY)
    } else {
        None
    }
}

/// The 64 bits of an element.
#[tactic(auto, unfolding(crate::specs::ShortWords::bits_of))]
fn bits_of(element: &Element) -> u64
    requires { fits_bits element.now ≡ true }
    ensures { result ≡ bits_of element.now }
{
    (u64::from(element.primary) << 32)
        + (u64::from(element.secondary) << 16)
        + (u64::from(case_byte(element)) << 8)
        + (u64::from(element.quaternary) << 6)
        + u64::from(element.tertiary % 0x100)
}

/// Whether a word states an element by itself; none states a quaternary.
fn fits_word(element: &Element) -> bool
    ensures { result ≡ fits_word element.now }
{
    element.quaternary == 0
        && (is_narrow(element) || has_long_primary(element) || has_long_secondary(element))
}

/// Whether a word states each of some elements.
fn fit_words(elements: &[Element]) -> bool
    ensures { result ≡ list_all fits_word elements.now }
{
    elements.iter().all(|element| fits_word(element))
}

/// Appends the words of elements.
fn append_words(list: &mut Vec<u32>, elements: &[Element]) -> Result<(), AllocError>
    requires fit { list_all fits_bits elements.now ≡ true }
    requires short { list_all fits_word elements.now ≡ true }
    ensures grows { IsFrontOf list.old.items list.new.items }
    ensures size { length list.new.items ≤ length list.old.items + length elements.now }
    ensures words { OnOk result (list.new.items ≡ list.old.items ++ map word_of elements.now) }
{
    for element in elements {
        let word = short_word(element).unwrap();
        list.push(word)?;
    }
    Ok(())
}

/// Appends the bits of elements.
fn append_bits(list: &mut Vec<u64>, elements: &[Element]) -> Result<(), AllocError>
    requires { list_all fits_bits elements.now ≡ true }
    ensures grows { IsFrontOf list.old.items list.new.items }
    ensures size { length list.new.items ≤ length list.old.items + length elements.now }
    ensures bits { OnOk result (list.new.items ≡ list.old.items ++ map bits_of elements.now) }
{
    for element in elements {
        list.push(bits_of(element))?;
    }
    Ok(())
}

impl Pools {
    /// The word of elements that are listed as words.
    fn write_words(&mut self, elements: &[Element]) -> Result<u32, AllocError>
        requires fit { AreFit elements.now }
        requires some { 0 < length elements.now }
        requires short { list_all fits_word elements.now ≡ true }
        requires room { length self.old.ce32s < 2 ^ 19 }
        ensures grows { Grows self.old self.new }
        ensures ces { self.new.ces ≡ self.old.ces }
        ensures contexts { self.new.contexts ≡ self.old.contexts }
        ensures size { length self.new.ce32s ≤ length self.old.ce32s + length elements.now }
        ensures says { IfOk result (λ word. IsOwnWord self.new word (Some elements.now) None) }
    {
        let index = self.ce32s.len();
        append_words(&mut self.ce32s, elements)?;
        Ok(naming(index, ((elements.len() as u32) << 8) + EXPANSION_OF_WORDS))
    }

    /// The word of elements that are listed as bits.
    fn write_bits(&mut self, elements: &[Element]) -> Result<u32, AllocError>
        requires fit { AreFit elements.now }
        requires some { 0 < length elements.now }
        requires room { length self.old.ces < 2 ^ 19 }
        ensures grows { Grows self.old self.new }
        ensures ce32s { self.new.ce32s ≡ self.old.ce32s }
        ensures contexts { self.new.contexts ≡ self.old.contexts }
        ensures size { length self.new.ces ≤ length self.old.ces + length elements.now }
        ensures says { IfOk result (λ word. IsOwnWord self.new word (Some elements.now) None) }
    {
        let index = self.ces.len();
        append_bits(&mut self.ces, elements)?;
        Ok(naming(
            index,
            ((elements.len() as u32) << 8) + EXPANSION_OF_ELEMENTS,
        ))
    }

    /// The word of the elements of a character alone.
    fn write_elements(&mut self, elements: &[Element]) -> Result<u32, AllocError>
        requires fit { AreFit elements.now }
        requires room { HasRoom self.old (length elements.now) 0 }
        ensures grows { Grows self.old self.new }
        ensures contexts { self.new.contexts ≡ self.old.contexts }
        ensures size { GrowsFor (length elements.now) 0 self.old self.new }
        ensures says { IfOk result (λ word. IsOwnWord self.new word (Some elements.now) None) }
    {
        match elements {
            [] => Ok(NO_ELEMENT),
            [element] => match short_word(element) {
                Some(word) => Ok(word),
                None => self.write_bits(elements),
            },
            _ => {
                if fit_words(elements) {
                    self.write_words(elements)
                } else {
                    self.write_bits(elements)
                }
            }
        }
    }

    /// The word of a character of a range: 64 bits say what moves the range's primary to it.
    fn write_offset(&mut self, bits: u64) -> Result<u32, AllocError>
        requires room { length self.old.ces < 2 ^ 19 }
        ensures grows { Grows self.old self.new }
        ensures ce32s { self.new.ce32s ≡ self.old.ce32s }
        ensures contexts { self.new.contexts ≡ self.old.contexts }
        ensures size { length self.new.ces ≤ length self.old.ces + 1 }
        ensures says { IfOk result (λ word. IsOwnWord self.new word None (Some bits)) }
    {
        let index = self.ces.len();
        self.ces.push(bits)?;
        Ok(naming(index, OFFSET))
    }

    /// The word of a character alone: that of its elements, else of its range, else of what its code point gives.
    pub fn write_own(
        &mut self,
        own: Option<&[Element]>,
        offset: Option<u64>,
    ) -> Result<u32, AllocError>
        requires fit { IfSome (option_copied own) AreFit }
        requires own_first { IsTrue (is_some (option_copied own)) → offset ≡ None }
        requires room { HasRoom self.old (own_room (option_copied own)) 0 }
        ensures grows { Grows self.old self.new }
        ensures contexts { self.new.contexts ≡ self.old.contexts }
        ensures size { GrowsFor (own_room (option_copied own.entry)) 0 self.old self.new }
        ensures says { IfOk result (λ word. IsOwnWord self.new word (option_copied own.entry) offset) }
    {
        match (own, offset) {
            (Some(elements), _) => self.write_elements(elements),
            (None, Some(bits)) => self.write_offset(bits),
            (None, None) => Ok(IMPLICIT),
        }
    }

    /// The word of a digit, over the word that counts where numbers aren't compared by value.
    pub fn write_digit(&mut self, value: u8, own: u32) -> Result<u32, AllocError>
        requires low { value ≤ 9 }
        requires room { length self.old.ce32s < 2 ^ 19 }
        ensures grows { Grows self.old self.new }
        ensures ces { self.new.ces ≡ self.old.ces }
        ensures contexts { self.new.contexts ≡ self.old.contexts }
        ensures size { length self.new.ce32s ≤ length self.old.ce32s + 1 }
        ensures says { IfOk result (λ word. IsDigitOver self.new word value own) }
    {
        let index = self.ce32s.len();
        self.ce32s.push(own)?;
        Ok(naming(index, (u32::from(value) << 8) + DIGIT))
    }
}
