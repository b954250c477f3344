//! The calls on words and elements, at words worked by hand.

use icu_codepointtrie::{CodePointTrieBuilder, TrieType};
use icu_collator_types::elements::{
    AnyQuaternaryAccumulator, CharacterAndClass, CharacterAndClassAndTrieValue, CollationElement,
    CollationElement32, NonPrimary, Tag,
};
use std::alloc::Global;
use std::process::Abort;

// Asserts which element a word states by itself.
fn states(rt: &impl Abort, word: u32, want: Option<u64>) {
    let element = CollationElement32::new(word).to_ce_self_contained();
    assert!(rt; element == want.map(CollationElement::new), "{word:x}");
}

// Asserts the tag of a word.
fn is_tagged(rt: &impl Abort, word: u32, want: Option<Tag>) {
    assert!(rt;
        CollationElement32::new(word).tag_checked() == want,
        "{word:x}"
    );
}

#[test]
fn words_state_elements(rt: HostRuntime) {
    states(&rt, 0x2a10_0505, Some(0x2a10_0000_0500_0500));
    states(&rt, 0x2a10_8685, Some(0x2a10_0000_8600_8500));
    states(&rt, 0x2a10_2cc1, Some(0x2a10_2c00_0500_0500));
    states(&rt, 0x8600_05c2, Some(0x8600_0500));
    states(&rt, 0, Some(0));
    states(&rt, 0xc0, None);
    states(&rt, 0x0000_21c5, None);
    states(&rt, 0x0000_00d1, None);
    let bytes = [0x05, 0x05, 0x10, 0x2a];
    assert!(rt; CollationElement32::new_from_ule(bytes) == CollationElement32::new(0x2a10_0505));
    states(&rt, 1, Some(0x0100));
    assert!(rt; CollationElement32::default() == CollationElement32::new(1));
}

#[test]
fn row_of_a_simple_word(rt: HostRuntime) {
    if let Some(element) = CollationElement32::new(0x2a10_0505).to_ce_simple_or_long_primary() {
        assert!(rt; element.primary() == 0x2a10_0000 && element.secondary() == 0x0500);
        assert!(rt; element.non_primary().tertiary() == 0x0500);
    } else {
        assert!(rt; false);
    }
}

#[test]
fn special_words_have_tags(rt: HostRuntime) {
    is_tagged(&rt, 0x2a10_05bf, None);
    is_tagged(&rt, 0xc0, Some(Tag::Fallback));
    is_tagged(&rt, 0x2a10_2cc1, Some(Tag::LongPrimary));
    is_tagged(&rt, 0x21c6, Some(Tag::Expansion));
    is_tagged(&rt, 0x20ca, Some(Tag::Digit));
    is_tagged(&rt, 0xcf, Some(Tag::Implicit));
}

#[test]
fn special_words_name_indices(rt: HostRuntime) {
    let expansion = CollationElement32::new(0x0001_a3c5);
    assert!(rt; expansion.len() == 3 && expansion.index() == 13);
    let digit = CollationElement32::new(0x0000_49ca);
    assert!(rt; digit.digit() == 9 && digit.index() == 2);
}

// What a word says by its tag, for which each call's condition is read off the tag.
fn says(word: CollationElement32) -> usize {
    match word.tag_checked() {
        Some(Tag::Expansion32 | Tag::Expansion) => word.len(),
        Some(Tag::Prefix | Tag::Offset) => word.index(),
        Some(Tag::Digit) => word.digit() as usize,
        Some(Tag::Contraction) => word.every_suffix_starts_with_combining() as usize,
        _ => 100,
    }
}

#[test]
fn conditions_are_read_off_the_tag(rt: HostRuntime) {
    assert!(rt; says(CollationElement32::new(0x0001_a3c6)) == 3);
    assert!(rt; says(CollationElement32::new(0x0001_a0ce)) == 13);
    assert!(rt; says(CollationElement32::new(0x0000_49ca)) == 9);
    assert!(rt; says(CollationElement32::new(0x0000_02c9)) == 1);
    assert!(rt; says(CollationElement32::new(0x2a10_0505)) == 100);
}

#[test]
fn contractions_have_flags(rt: HostRuntime) {
    let marks = CollationElement32::new(0x06c9);
    assert!(rt; marks.every_suffix_starts_with_combining());
    assert!(rt; marks.at_least_one_suffix_ends_with_non_starter());
    assert!(rt; !marks.at_least_one_suffix_contains_starter());
}

#[test]
fn elements_have_weights(rt: HostRuntime) {
    let element = CollationElement::new(0x2a10_0000_8600_8540);
    assert!(rt; element.primary() == 0x2a10_0000 && element.secondary() == 0x8600);
    assert!(rt; element.quaternary() == 0xffff_ff7f && !element.tertiary_ignorable());
    let lower = element.non_primary();
    assert!(rt; lower.case() == 0x8000 && lower.tertiary() == 0x0500);
    assert!(rt; lower.case_quaternary() == 0x8040 && !lower.ignorable());
    assert!(rt; lower.tertiary_case_quarternary(0x3f3f) == 0x0500);
    assert!(rt; element.clone_with_non_primary_zeroed().either_half_zero());
}

#[test]
fn elements_are_made(rt: HostRuntime) {
    let unnamed = CollationElement::new_implicit_from_char('z');
    assert!(rt; unnamed == CollationElement::new_from_primary(0xfe04_08d4));
    let accent = CollationElement::new_from_secondary(0x8600);
    assert!(rt; accent == CollationElement::new(0x8600_0500));
    assert!(rt; CollationElement::default().non_primary() == NonPrimary::default());
}

#[test]
fn quaternaries_are_found(rt: HostRuntime) {
    let mut any = AnyQuaternaryAccumulator::new();
    any.accumulate(NonPrimary::new(0x0500_0500));
    assert!(rt; !any.has_quaternary());
    any.accumulate(NonPrimary::new(0x0500_0540));
    assert!(rt; any.has_quaternary());
}

// Whether a character is this one, of this class, whatever its word.
fn is_of_class(found: CharacterAndClassAndTrieValue, c: char, class: u8) -> bool {
    let mut found = found;
    let want = CharacterAndClassAndTrieValue::new_with_non_zero_ccc(c, class);
    found.trie_val = want.trie_val;
    found == want
}

#[test]
fn characters_have_classes(rt: HostRuntime) {
    let mark = CharacterAndClassAndTrieValue::new_with_trie_val('\u{301}', 0xc000_d8e6);
    assert!(rt; is_of_class(mark, '\u{301}', 230) && mark.decomposition_starts_with_non_starter());
    let special = CharacterAndClassAndTrieValue::new_with_trie_val('\u{344}', 0xd9e6);
    assert!(rt; is_of_class(special, '\u{344}', 0xff) && special.character() == '\u{344}');
}

// Whether a trie that says class 230 of all characters gives it where none is known, and there alone.
fn trie_gives_class(alloc: Global) -> bool {
    let Ok(map) = CodePointTrieBuilder::new(alloc, 0xd8e6u32, 0, TrieType::Small) else {
        return false;
    };
    let Ok(trie) = map.build() else {
        return false;
    };
    let mut unknown = CharacterAndClass::new_with_placeholder('\u{301}');
    unknown.set_ccc_from_trie_if_not_already_set(&trie);
    let mut known = CharacterAndClass::new('a', 7);
    known.set_ccc_from_trie_if_not_already_set(&trie);
    unknown.character_and_ccc() == ('\u{301}', 230) && known.ccc() == 7
}

#[test]
fn tries_give_classes(rt: HostRuntime) {
    assert!(rt; trie_gives_class(rt.alloc()));
}
