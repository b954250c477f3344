//! The calls of the reader of elements, in their order.

use icu_codepointtrie::TrieType;
use icu_collator_core::checked::CheckedTables;
use icu_collator_core::elements::CollationElements;
use icu_collator_core::elements::whole_texts::{decomposed_list, list_elements};
use icu_collator_types::elements::CollationElement;
use samples_icu_collator::compiled::checked_tables;
use std::alloc::Global;
use std::str::Chars;

/// Records of four letters; the third stands after the first as its suffix too.
const RECORDS: &str = "w 0061 ; [2A100000.0500.0.0500.0]
w 0062 ; [2A200000.0500.0.0500.0]
w 0063 ; [2A300000.0500.0.0500.0]
w 0061 0063 ; [2A400000.0500.0.0500.0]
w 0064 ; [2A500000.0500.0.0500.0] [0.8800.0.0500.0]
";

/// The tables of the records; `None` where memory is refused.
fn tables(alloc: Global) -> Option<CheckedTables<'static>> {
    checked_tables(alloc, RECORDS, TrieType::Small)
}

/// Whether the next elements are these, and after them the end, many times.
fn gives(elements: &mut CollationElements<'_, '_, Chars<'_>>, expected: &[u64]) -> bool {
    for bits in expected {
        match elements.next() {
            Ok(element) if element == CollationElement::new(*bits) => {}
            _ => return false,
        }
    }
    gives_end(elements)
}

/// Whether the next elements are the end.
fn gives_end(elements: &mut CollationElements<'_, '_, Chars<'_>>) -> bool {
    for _ in 0..5 {
        match elements.next() {
            Ok(element) if element == CollationElement::default() => {}
            _ => return false,
        }
    }
    true
}

/// Whether a text with nothing before it is read as these.
fn is_read(alloc: Global, text: &str, expected: &[u64]) -> bool {
    let Some(tables) = tables(alloc) else {
        return false;
    };
    let mut elements = CollationElements::new(alloc, text.chars(), &tables, None);
    elements.init().is_ok() && gives(&mut elements, expected)
}

#[test]
fn ok_new(rt: HostRuntime) {
    assert!(rt;
        is_read(
            rt.alloc(),
            "ab",
            &[0x2a10_0000_0500_0500, 0x2a20_0000_0500_0500]
        )
    );
    assert!(rt;
        is_read(
            rt.alloc(),
            "acb",
            &[0x2a40_0000_0500_0500, 0x2a20_0000_0500_0500]
        )
    );
}

#[test]
fn ok_next(rt: HostRuntime) {
    assert!(rt;
        is_read(
            rt.alloc(),
            "db",
            &[0x2a50_0000_0500_0500, 0x8800_0500, 0x2a20_0000_0500_0500,]
        )
    );
}

#[test]
fn ok_init(rt: HostRuntime) {
    assert!(rt; is_read(rt.alloc(), "", &[]));
}

/// Whether the first characters are given before the reading begins, and the others read.
fn is_read_behind(alloc: Global) -> bool {
    let Some(tables) = tables(alloc) else {
        return false;
    };
    let mut elements = CollationElements::new(alloc, "abc".chars(), &tables, None);
    elements.iter_next_before_init() == Some('a')
        && elements.iter_next_before_init() == Some('b')
        && elements.init().is_ok()
        && gives(&mut elements, &[0x2a30_0000_0500_0500])
}

/// Whether nothing is given after the last character.
fn is_given_whole(alloc: Global) -> bool {
    let Some(tables) = tables(alloc) else {
        return false;
    };
    let mut elements = CollationElements::new(alloc, "a".chars(), &tables, None);
    elements.iter_next_before_init() == Some('a')
        && elements.iter_next_before_init().is_none()
        && elements.init().is_ok()
        && gives(&mut elements, &[])
}

#[test]
fn ok_iter_next_before_init(rt: HostRuntime) {
    assert!(rt; is_read_behind(rt.alloc()));
    assert!(rt; is_given_whole(rt.alloc()));
}

/// Whether the last prepended character is read first, and those of the iterator after all of them: "a", "b", then "c".
fn are_read_from_the_last(alloc: Global) -> bool {
    let Some(tables) = tables(alloc) else {
        return false;
    };
    let mut elements = CollationElements::new(alloc, "c".chars(), &tables, None);
    elements.prepend_upcoming_before_init('b').is_ok()
        && elements.prepend_upcoming_before_init('a').is_ok()
        && elements.init().is_ok()
        && gives(
            &mut elements,
            &[
                0x2a10_0000_0500_0500,
                0x2a20_0000_0500_0500,
                0x2a30_0000_0500_0500,
            ],
        )
}

/// Whether a prepended character is read as one text with those after it: "a" taken and put back before "c".
fn is_read_with_the_next(alloc: Global) -> bool {
    let Some(tables) = tables(alloc) else {
        return false;
    };
    let mut elements = CollationElements::new(alloc, "ac".chars(), &tables, None);
    elements.iter_next_before_init() == Some('a')
        && elements.prepend_upcoming_before_init('a').is_ok()
        && elements.init().is_ok()
        && gives(&mut elements, &[0x2a40_0000_0500_0500])
}

#[test]
fn ok_prepend_upcoming_before_init(rt: HostRuntime) {
    assert!(rt; are_read_from_the_last(rt.alloc()));
    assert!(rt; is_read_with_the_next(rt.alloc()));
}

/// Whether a text's decomposed list has these characters, and the list these elements.
fn is_read_as_a_list(alloc: Global, text: &str, characters: &[char], expected: &[u64]) -> bool {
    let Some(tables) = tables(alloc) else {
        return false;
    };
    let Ok(list) = decomposed_list(alloc, tables.canonical(), text.chars()) else {
        return false;
    };
    if list.as_slice() != characters {
        return false;
    }
    let Ok(elements) = list_elements(alloc, &tables, None, list) else {
        return false;
    };
    elements.len() == expected.len()
        && elements
            .iter()
            .zip(expected)
            .all(|(element, bits)| *element == CollationElement::new(*bits))
}

#[test]
fn ok_decomposed_list(rt: HostRuntime) {
    assert!(rt; is_read_as_a_list(rt.alloc(), "", &[], &[]));
}

#[test]
fn ok_list_elements(rt: HostRuntime) {
    assert!(rt;
        is_read_as_a_list(
            rt.alloc(),
            "acb",
            &['a', 'c', 'b'],
            &[0x2a40_0000_0500_0500, 0x2a20_0000_0500_0500]
        )
    );
}
