//! The elements of words, unpacked.

ghost use Rattle.std.specs.Prelude.{◌≡◌};
ghost use Rattle.icu_collator_core.specs.Pools.{element_of, stated_element};

use icu_collator_types::elements::{CollationElement, CollationElement32, Element};

/// An element of 64 bits, unpacked.
pub(super) fn element_of(bits: u64) -> Element
    ensures { result ≡ element_of bits }
{
    let upper = (bits >> 8) & 0x3f;
    Element {
        primary: (bits >> 32) as u32,
        secondary: ((bits >> 16) & 0xffff) as u16,
        case: ((bits >> 14) & 0x3) as u8,
        tertiary: ((upper << 8) + (bits & 0x3f)) as u16,
        quaternary: ((bits >> 6) & 0x3) as u8,
    }
}

/// The 64 bits of an element.
fn bits_of(element: CollationElement) -> u64
    ensures { result ≡ element }
{
    ((element.primary() as u64) << 32) + element.non_primary().bits() as u64
}

/// The element that a word states by itself, if it states one.
pub(super) fn stated_element(word: u32) -> Option<Element>
    ensures { result ≡ stated_element word }
{
    if word == 0 {
        return None;
    }
    match CollationElement32::new(word).to_ce_self_contained() {
        Some(element) => Some(element_of(bits_of(element))),
        None => None,
    }
}
