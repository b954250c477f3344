//! Names over a small records file: what an index and a run answer. Expected values come from the specification's worked
//! examples, and from an independent reading of the file format.

use crate::letters::{LETTERS, PREFERENCES, PRIMARY};
use assertions::assert_same;
use collate_index::collators::collator_of;
use collate_index::index::{Absent, AddError, Index};
use collate_index::{FIXED_SEED, IndexKey};
use collate_records::records::Records;
use icu_collator_types::options::{
    AlternateHandling, CollationNumericOrdering, CollatorOptions, CollatorPreferences, Strength,
};
use std::alloc::Global;
use std::cmp::Ordering;
use std::ops::Range;
use std::process::Abort;
use std::test::Fail;

const TERTIARY: CollatorOptions = CollatorOptions {
    strength: None,
    alternate_handling: None,
    max_variable: None,
    case_level: None,
};

/// An index over the letters with these names.
pub(crate) fn index_of(
    alloc: Global,
    options: &CollatorOptions,
    names: &[&[u8]],
) -> Result<Index, Fail> {
    let records = Records::read(alloc, LETTERS)?;
    let mut index = Index::new(alloc, records, &PREFERENCES, options)?;
    for name in names {
        index.add(*name)?;
    }
    Ok(index)
}

/// Whether an index lists just these names.
pub(crate) fn lists(index: &Index, expected: &[&[u8]]) -> bool {
    let mut names = index.list();
    for name in expected {
        if names.next() != Some(*name) {
            return false;
        }
    }
    names.next().is_none()
}

#[test]
fn ok_new(rt: HostRuntime) -> Result<(), Fail> {
    let index = index_of(rt.alloc(), &TERTIARY, &[])?;
    assert!(rt; index.is_empty());
    assert_same!(rt; index.len(), 0);
    assert!(rt; lists(&index, &[]));
    Ok(())
}

#[test]
fn ok_with_seed(rt: HostRuntime) -> Result<(), Fail> {
    let alloc = rt.alloc();
    for seed in [0, FIXED_SEED, u64::MAX] {
        let records = Records::read(alloc, LETTERS)?;
        let mut index = Index::with_seed(alloc, records, &PREFERENCES, &PRIMARY, seed)?;
        assert!(rt; index.add(b"ch").is_ok());
        assert!(rt; index.add(b"ab").is_ok());
        assert!(rt; matches!(index.add(b"ch"), Err(AddError::Duplicate)));
        assert!(rt; lists(&index, &[b"ab", b"ch"]));
        assert_same!(rt; index.remove(b"ch"), Ok(()));
        assert_same!(rt; index.remove(b"ch"), Err(Absent));
        assert!(rt; lists(&index, &[b"ab"]));
    }
    Ok(())
}

#[test]
fn ok_add(rt: HostRuntime) -> Result<(), Fail> {
    let mut index = index_of(rt.alloc(), &PRIMARY, &[b"ch", b"cl", b"ab"])?;
    assert!(rt; lists(&index, &[b"ab", b"ch", b"cl"]));
    assert!(rt; matches!(index.add(b"ab"), Err(AddError::Duplicate)));
    // equal at this strength, and another name
    assert!(rt; index.add("\u{e1}b".as_bytes()).is_ok());
    assert_same!(rt; index.len(), 4);
    assert!(rt; lists(&index, &[b"ab", "\u{e1}b".as_bytes(), b"ch", b"cl"]));
    Ok(())
}

#[test]
fn a_removed_name_arrives_anew(rt: HostRuntime) -> Result<(), Fail> {
    let acute = "\u{e1}".as_bytes();
    let mut index = index_of(rt.alloc(), &PRIMARY, &[b"a", acute, b"b"])?;
    assert_same!(rt; index.remove(b"a"), Ok(()));
    assert_same!(rt; index.remove(b"a"), Err(Absent));
    assert!(rt; lists(&index, &[acute, b"b"]));
    assert!(rt; index.add(b"a").is_ok());
    assert!(rt; lists(&index, &[acute, b"a", b"b"]));
    Ok(())
}

/// Looks for a name, and at the places that are found.
fn assert_found(
    rt: &impl Abort,
    index: &Index,
    name: &[u8],
    places: Range<usize>,
) -> Result<(), Fail> {
    let found = index.find(name)?;
    assert_same!(rt; found.names, places);
    Ok(())
}

#[test]
fn ok_find(rt: HostRuntime) -> Result<(), Fail> {
    let acute = "\u{e1}".as_bytes();
    let index = index_of(rt.alloc(), &PRIMARY, &[b"b", acute, b"a"])?;
    assert!(rt; lists(&index, &[acute, b"a", b"b"]));
    assert_found(&rt, &index, b"a", 0..2)
}

#[test]
fn few_comparisons_find_a_name(rt: HostRuntime) -> Result<(), Fail> {
    let index = index_of(rt.alloc(), &PRIMARY, &[b"b", b"c", b"a", b"h", b"l"])?;
    let found = index.find(b"a")?;
    assert!(rt; found.comparisons <= 6, "five has three binary digits");
    let empty = index_of(rt.alloc(), &PRIMARY, &[])?;
    assert_same!(rt; empty.find(b"a")?.comparisons, 0);
    Ok(())
}

#[test]
fn ok_between(rt: HostRuntime) -> Result<(), Fail> {
    let index = index_of(rt.alloc(), &PRIMARY, &[b"ch", b"cl", b"ab"])?;
    assert_same!(rt; index.between(b"a", b"ch")?, 0..2);
    assert_same!(rt; index.between(b"ch", b"a")?, 0..0);
    assert_same!(rt; index.between(b"cl", b"cl")?, 2..3);
    Ok(())
}

#[test]
fn accents_count_at_tertiary(rt: HostRuntime) -> Result<(), Fail> {
    let acute = "\u{e1}".as_bytes();
    let index = index_of(rt.alloc(), &TERTIARY, &[b"b", acute, b"a"])?;
    assert!(rt; lists(&index, &[b"a", acute, b"b"]));
    assert_found(&rt, &index, "a\u{301}".as_bytes(), 1..2)?;
    assert_found(&rt, &index, b"c", 0..0)
}

/// Whether an index holds these names and no others, in this order.
fn holds(index: &Index, names: &[&[u8]]) -> bool {
    for place in 0..names.len() {
        if index.get(place) != Some(names[place]) {
            return false;
        }
    }
    index.get(names.len()).is_none()
}

#[test]
fn ok_get(rt: HostRuntime) -> Result<(), Fail> {
    let index = index_of(rt.alloc(), &TERTIARY, &[b"t", b"a\xff"])?;
    assert!(rt; holds(&index, &[b"a\xff", b"t"]));
    assert_found(&rt, &index, b"a\xef\xbf\xbd", 0..1)
}

#[test]
fn marks_of_different_class_may_change_places(rt: HostRuntime) -> Result<(), Fail> {
    let index = index_of(rt.alloc(), &TERTIARY, &["\u{1ea1}\u{301}".as_bytes()])?;
    for text in ["\u{e1}\u{323}", "a\u{301}\u{323}", "a\u{323}\u{301}"] {
        assert_found(&rt, &index, text.as_bytes(), 0..1)?;
    }
    Ok(())
}

/// Records that the first path couldn't serve: a contraction, a range, digits, a tailored letter and settings.
const WHOLE: &[u8] = b"class 0302 230
w 0061 ; [2A100000.0500.0.0500.0]
w 0063 ; [2A300000.0500.0.0500.0]
w 0068 ; [2A800000.0500.0.0500.0]
w 0063 0068 ; [2A900000.0500.0.0500.0]
w 0020 ; [03040000.0500.0.0500.0]
w 0031 ; [11110000.0500.0.0500.0]
w 0032 ; [11120000.0500.0.0500.0]
digit 0031 1
digit 0032 2
range 4E00 9FFF E0020200 1
t 0064 ; [2A180000.0500.0.0500.0]
set alternate shifted
";

/// An index over these records by number, punctuation last and every level, with these names.
fn whole_index_of(alloc: Global, names: &[&[u8]]) -> Result<Index, Fail> {
    let records = Records::read(alloc, WHOLE)?;
    let preferences = CollatorPreferences {
        numeric_ordering: Some(CollationNumericOrdering::True),
        ..PREFERENCES
    };
    let options = CollatorOptions {
        strength: Some(Strength::Identical),
        alternate_handling: Some(AlternateHandling::Shifted),
        ..TERTIARY
    };
    let mut index = Index::new(alloc, records, &preferences, &options)?;
    for name in names {
        index.add(*name)?;
    }
    Ok(index)
}

#[test]
fn an_index_takes_all_records_and_options(rt: HostRuntime) -> Result<(), Fail> {
    let ideograph = "\u{4e00}".as_bytes();
    let names: [&[u8]; 8] = [b"ch", b"h", b"d", b"a12", b"a 2", b"a2", ideograph, b"c"];
    let index = whole_index_of(rt.alloc(), &names)?;
    let sorted: [&[u8]; 8] = [b"a 2", b"a2", b"a12", b"d", b"c", b"h", b"ch", ideograph];
    assert!(rt; holds(&index, &sorted));
    Ok(())
}

/// How the keys of two names compare over the letters, and the counts then.
fn compared(alloc: Global, first: &str, second: &str) -> Result<(Ordering, usize, usize), Fail> {
    let records = Records::read(alloc, LETTERS)?;
    let collator = collator_of(alloc, &records, PREFERENCES, TERTIARY)?;
    let collator = collator.as_borrowed();
    let mut made = 0;
    let mut comparisons = 0;
    let first = IndexKey::make(alloc, &collator, first.as_bytes(), &mut made)?;
    let second = IndexKey::make(alloc, &collator, second.as_bytes(), &mut made)?;
    let ordering = first.compare(&second, &mut comparisons);
    Ok((ordering, made, comparisons))
}

#[test]
fn ok_make(rt: HostRuntime) -> Result<(), Fail> {
    let (acute, circumflex) = ("cote\u{301}", "co\u{302}te");
    for (first, second, ordering) in [
        (acute, circumflex, Ordering::Less),
        (circumflex, acute, Ordering::Greater),
        (acute, acute, Ordering::Equal),
    ] {
        assert!(rt; compared(rt.alloc(), first, second)? == (ordering, 2, 1));
    }
    Ok(())
}

#[test]
fn ok_collator_of(rt: HostRuntime) -> Result<(), Fail> {
    let records = Records::read(rt.alloc(), LETTERS)?;
    let collator = collator_of(rt.alloc(), &records, PREFERENCES, TERTIARY)?;
    let mut key = Vec::new(rt.alloc());
    collator
        .as_borrowed()
        .write_sort_key_to(rt.alloc(), "a", &mut key)?;
    assert_same!(rt; *key.as_slice(), *b"\x2a\x10\x01\x05\x01\x01\x05\x01".as_slice());
    Ok(())
}
