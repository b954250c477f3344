//! Each public function is called once here, one test a subject.

use crate::{
    code_point_tries, collations, comparisons, decoded, equivalence, keys, names, normal_forms,
    normalised, options, packed, records, runs, sets, unit_tries,
};
use assertions::assert_same;
use collate_records::records::Records;
use collate_run::watched::Watched;
use icu_collator::CollatorPreferences;
use icu_collator::options::CollatorOptions;
use icu_collator_types::options::{FileSettings, Strength};
use icu_collections_sets::packed_vector::PackedVec;
use icu_normalizer::decomposing::DecomposingNormalizerBorrowed;
use icu_normalizer_core::canonical::CanonicalBorrowed;
use std::alloc::{AllocError, Global};
use std::cmp::Ordering;
use std::test::Fail;

/// A records file: two letters, and an accent with its class.
const FILE: &[u8] = b"class 0301 230
map 00E1 0061 0301
w 0061 ; [2A100000.0500.0.0500.0]
w 0062 ; [2A200000.0500.0.0500.0]
w 0301 ; [0.8800.0.0500.0]
";

#[test]
fn ok_set_of_ranges(rt: HostRuntime) -> Result<(), Fail> {
    let set = sets::set_of_ranges(rt.alloc(), 0x61..=0x7A, 0xE0..=0xFF)?;
    let smaller = sets::set_of_ranges(rt.alloc(), 0x61..=0x7A, 0x61..=0x62)?;
    assert!(rt; sets::holds_both(&set, 'a', 'é'));
    assert!(rt; sets::is_larger(&set, &smaller));
    Ok(())
}

#[test]
fn ok_trie_of_char(rt: HostRuntime) -> Result<(), Fail> {
    let trie = code_point_tries::trie_of_char(rt.alloc(), 'é', 7)?;
    let map = code_point_tries::map_of_char(rt.alloc(), '😀', 9)?;
    assert!(rt; code_point_tries::reads_alike(&trie, 0x61, 0x1_F600));
    assert_same!(rt; code_point_tries::read_through(&map, '😀')?, 9);
    Ok(())
}

#[test]
fn ok_trie_of_pairs(rt: HostRuntime) -> Result<(), Fail> {
    let pairs: [(&[u16], i32); 2] = [(&[0x61], 1), (&[0x61, 0x62], -2)];
    let trie = unit_tries::trie_of_pairs(rt.alloc(), &pairs)?;
    assert_same!(rt; unit_tries::value_of_char(&trie, 'b'), None);
    assert_same!(rt; unit_tries::value_of_key(&trie, &[0x61, 0x62]), Some(-2));
    assert_same!(rt; unit_tries::value_through(rt.alloc(), &pairs, 'a')?, Some(1));
    Ok(())
}

#[test]
fn ok_pack_and_get(rt: HostRuntime) -> Result<(), Fail> {
    let chars = PackedVec::from_slice(rt.alloc(), &['a', 'é'])?;
    assert_same!(rt; packed::pack_and_get(rt.alloc(), &[3, 5], 1)?, Some(5));
    assert!(rt; packed::has_item(&chars, 'é'));
    Ok(())
}

#[test]
fn ok_chars_of_bytes(rt: HostRuntime) -> Result<(), Fail> {
    let chars = decoded::chars_of_bytes(rt.alloc(), b"a\xFF")?;
    assert_same!(rt; *chars.as_slice(), *['a', '\u{FFFD}'].as_slice());
    assert_same!(rt; decoded::count_chars(&[0x61, 0xD83D, 0xDE00]), 2);
    Ok(())
}

#[test]
fn ok_class_by_file(rt: HostRuntime) -> Result<(), Fail> {
    let file = Records::read(rt.alloc(), FILE)?;
    assert_same!(rt; records::class_by_file(rt.alloc(), FILE, '\u{301}')?, 230);
    assert!(rt; records::stands_alone(&file, 'a'));
    Ok(())
}

/// Whether two spellings are found equivalent, and the first is decomposed to the second, once and twice.
fn spellings_are_alike(
    alloc: Global,
    canonical: CanonicalBorrowed<'_>,
) -> Result<bool, AllocError> {
    let normalizer = DecomposingNormalizerBorrowed::new_with_data(canonical);
    let twice = normal_forms::decompose_twice(alloc, normalizer, "á")?;
    let are = normal_forms::are_equivalent(alloc, canonical, "á", "a\u{301}")?;
    Ok(are && twice.as_str() == "a\u{301}")
}

#[test]
fn ok_are_equivalent(rt: HostRuntime) -> Result<(), Fail> {
    let file = Records::read(rt.alloc(), FILE)?;
    assert!(rt; spellings_are_alike(rt.alloc(), file.canonical())?);
    Ok(())
}

#[test]
fn ok_index_of_two(rt: HostRuntime) -> Result<(), Fail> {
    let file = Records::read(rt.alloc(), FILE)?;
    let index = names::index_of_two(rt.alloc(), file, b"b", b"ab")?;
    assert_same!(rt; names::count_equal(&index, b"b")?, 1);
    assert_eq!(rt; names::first_name(&index), Some(b"ab".as_slice()));
    Ok(())
}

#[test]
fn ok_count_between(rt: HostRuntime) -> Result<(), Fail> {
    let file = Records::read(rt.alloc(), FILE)?;
    let mut index = names::index_of_two(rt.alloc(), file, b"b", b"ab")?;
    assert_same!(rt; names::count_between(&index, b"a", b"ab")?, 1);
    assert!(rt; names::take_out(&mut index, b"ab"));
    assert!(rt; !names::take_out(&mut index, b"ab"));
    assert_same!(rt; names::count_between(&index, b"a", b"ab")?, 0);
    assert_eq!(rt; names::first_name(&index), Some(b"b".as_slice()));
    assert!(rt; names::adopt(&mut index, b""));
    assert!(rt; !names::adopt(&mut index, b"w"));
    Ok(())
}

#[test]
fn ok_resolved_for(rt: HostRuntime) -> Result<(), Fail> {
    let settings: FileSettings = Default::default();
    let options = options::resolved_for(Strength::Primary, &settings);
    assert_same!(rt; options.strength, Strength::Primary);
    Ok(())
}

#[test]
fn ok_order_by_file(rt: HostRuntime) -> Result<(), Fail> {
    let preferences = CollatorPreferences::default();
    let options = CollatorOptions::default();
    let order = collations::order_by_file(rt.alloc(), FILE, preferences, options, "b", "á");
    assert_same!(rt; order, Some(Ordering::Greater));
    Ok(())
}

#[test]
fn ok_key_by_file(rt: HostRuntime) -> Result<(), Fail> {
    let preferences = CollatorPreferences::default();
    let options = CollatorOptions::default();
    let key = collations::key_by_file(rt.alloc(), FILE, preferences, options, "á").ok_or("none")?;
    assert_same!(rt; *key.as_slice(), *[0x2A, 0x10, 0x01, 0x45, 0x88, 0x01, 0x01, 0x06, 0x01].as_slice());
    Ok(())
}

#[test]
fn ok_composed_by_file(rt: HostRuntime) -> Result<(), Fail> {
    let form = collations::composed_by_file(rt.alloc(), FILE, "a\u{301}").ok_or("none")?;
    assert_same!(rt; *form.as_str(), *"á");
    Ok(())
}

#[test]
fn ok_bytes_order_by_file(rt: HostRuntime) {
    let alloc = rt.alloc();
    let preferences = CollatorPreferences::default();
    let options = CollatorOptions::default();
    let letter = [0x62];
    let bytes = comparisons::bytes_order_by_file(alloc, FILE, preferences, options, b"b", b"a\xFF");
    assert_same!(rt; bytes, Some(Ordering::Greater));
    let units = comparisons::units_order_by_file(
        alloc,
        FILE,
        preferences,
        options,
        &letter,
        &[0xE1],
    );
    assert_same!(rt; units, Some(Ordering::Greater));
    let latin1 = comparisons::latin1_order_by_file(
        alloc,
        FILE,
        preferences,
        options,
        b"\xE1",
        b"b",
    );
    assert_same!(rt; latin1, Some(Ordering::Less));
    let mixed = comparisons::latin1_units_order_by_file(
        alloc,
        FILE,
        preferences,
        options,
        b"b",
        &letter,
    );
    assert_same!(rt; mixed, Some(Ordering::Equal));
}

#[test]
fn ok_key_order_by_file(rt: HostRuntime) {
    let preferences = CollatorPreferences::default();
    let options = CollatorOptions::default();
    let accented = "á".as_bytes();
    let order = keys::key_order_by_file(rt.alloc(), FILE, preferences, options, b"b", accented);
    assert_same!(rt; order, Some(Ordering::Greater));
}

#[test]
fn ok_are_equivalent_by_file(rt: HostRuntime) {
    let alloc = rt.alloc();
    let preferences = CollatorPreferences::default();
    let options = CollatorOptions::default();
    let whole = [0xE1];
    let split = [0x61, 0x301];
    let texts = equivalence::are_equivalent_by_file(
        alloc,
        FILE,
        preferences,
        options,
        "á",
        "a\u{301}",
    );
    assert_same!(rt; texts, Some(true));
    let bytes = equivalence::bytes_are_equivalent_by_file(
        alloc,
        FILE,
        preferences,
        options,
        b"\xFF",
        b"a",
    );
    assert_same!(rt; bytes, Some(false));
    let units = equivalence::units_are_equivalent_by_file(
        alloc,
        FILE,
        preferences,
        options,
        &whole,
        &split,
    );
    assert_same!(rt; units, Some(true));
}

#[test]
fn ok_latin1_are_equivalent_by_file(rt: HostRuntime) {
    let alloc = rt.alloc();
    let preferences = CollatorPreferences::default();
    let options = CollatorOptions::default();
    let split = [0x61, 0x301];
    let latin1 = equivalence::latin1_are_equivalent_by_file(
        alloc,
        FILE,
        preferences,
        options,
        b"\xE1",
        b"a",
    );
    assert_same!(rt; latin1, Some(false));
    let mixed = equivalence::latin1_units_are_equivalent_by_file(
        alloc,
        FILE,
        preferences,
        options,
        b"\xE1",
        &split,
    );
    assert_same!(rt; mixed, Some(true));
}

#[test]
fn ok_order_of_forms_by_file(rt: HostRuntime) {
    let alloc = rt.alloc();
    let preferences = CollatorPreferences::default();
    let options = CollatorOptions::default();
    let decomposed = normalised::decomposed_order_by_file(
        alloc,
        FILE,
        preferences,
        options,
        "b",
        "á",
    );
    assert_same!(rt; decomposed, Some(Ordering::Greater));
    let composed = normalised::composed_order_by_file(
        alloc,
        FILE,
        preferences,
        options,
        "a\u{301}",
        "á",
    );
    assert_same!(rt; composed, Some(Ordering::Equal));
}

#[test]
fn ok_key_of_forms_by_file(rt: HostRuntime) -> Result<(), Fail> {
    let alloc = rt.alloc();
    let preferences = CollatorPreferences::default();
    let options = CollatorOptions::default();
    let key = [0x2A, 0x10, 0x01, 0x45, 0x88, 0x01, 0x01, 0x06, 0x01];
    let decomposed = normalised::decomposed_key_by_file(
        alloc,
        FILE,
        preferences,
        options,
        "á",
    ).ok_or("none")?;
    assert_same!(rt; *decomposed.as_slice(), *key.as_slice());
    let composed = normalised::composed_key_by_file(
        alloc,
        FILE,
        preferences,
        options,
        "a\u{301}",
    ).ok_or("none")?;
    assert_same!(rt; *composed.as_slice(), *key.as_slice());
    Ok(())
}

#[test]
fn ok_index_by_file(rt: HostRuntime) -> Result<(), Fail> {
    let preferences = CollatorPreferences::default();
    let options = CollatorOptions::default();
    let index = names::index_by_file(rt.alloc(), FILE, &preferences, &options).ok_or("no index")?;
    assert_eq!(rt; names::first_name(&index), None);
    Ok(())
}

#[test]
fn ok_reply_by_file(rt: HostRuntime) -> Result<(), Fail> {
    let alloc = rt.alloc();
    let commands = b"add b
add a
list
reload 2
w 0061 ; [2A300000.0500.0.0500.0]
w 0062 ; [2A200000.0500.0.0500.0]
list
";
    let mut written = Vec::new(alloc);
    let mut writer = Watched::new(&mut written);
    let preferences = CollatorPreferences::default();
    let options = CollatorOptions::default();
    runs::reply_by_file(alloc, FILE, &preferences, &options, commands, &mut writer).ok_or(
        "cut short",
    )?;
    let replies = b"added
added
names 2
a
b
reloaded 1
names 2
b
a
";
    assert_same!(rt; *written.as_slice(), *replies.as_slice());
    Ok(())
}
