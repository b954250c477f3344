//! Tests of sets of code points.
use assertions::assert_same;
use icu_collections_sets::codepointinvlist::{
    CodePointInversionList, FromRangeError, RangeError, SetError,
};
use icu_collections_sets::packed_vector::PackedVec;
use std::alloc::Global;

fn set_of(alloc: Global, list: &[u32]) -> Result<CodePointInversionList<'static>, SetError> {
    CodePointInversionList::try_from_u32_inversion_list_slice(alloc, list)
}

/// Whether each of these lists makes a set, or none of them.
fn make_sets(alloc: Global, lists: &[&[u32]], expected: bool) -> bool {
    for list in lists {
        if set_of(alloc, list).is_ok() != expected {
            return false;
        }
    }
    true
}

/// Whether a vector has these items.
fn has_items(alloc: Global, items: &PackedVec<'_, u32>, list: &[u32]) -> bool {
    match PackedVec::from_slice(alloc, list) {
        Ok(packed) => packed == *items,
        Err(_) => false,
    }
}

/// Whether a packed list is no set, and comes back as this list.
fn is_handed_back(alloc: Global, packed: PackedVec<'_, u32>, list: &[u32]) -> bool {
    match CodePointInversionList::try_from_inversion_list(packed) {
        Ok(_) => false,
        Err(error) => has_items(alloc, &error.0, list),
    }
}

/// Whether a list is no set when it is packed, and comes back.
fn comes_back(alloc: Global, list: &[u32]) -> bool {
    match PackedVec::from_slice(alloc, list) {
        Ok(packed) => is_handed_back(alloc, packed, list),
        Err(_) => false,
    }
}

#[test]
fn lists_that_are_none(rt: HostRuntime) {
    assert!(rt; comes_back(rt.alloc(), &[0x42, 0x41]));
    assert!(rt;
        make_sets(
            rt.alloc(),
            &[&[0x41, 0x42, 0x43], &[0x41, 0x11_0001]],
            false
        )
    );
    assert!(rt; make_sets(rt.alloc(), &[&[0x41, 0x11_0000]], true));
}

/// Whether the set holds each of these code points, or none of them.
fn holds_each(set: &CodePointInversionList<'_>, code_points: &[u32], expected: bool) -> bool {
    for code_point in code_points {
        if set.contains32(*code_point) != expected {
            return false;
        }
    }
    true
}

/// Whether the set holds each range of characters, or none of them.
fn holds_ranges(set: &CodePointInversionList<'_>, ends: &[(char, char)], expected: bool) -> bool {
    for (start, end) in ends {
        if set.contains_range(*start..=*end) != expected {
            return false;
        }
    }
    true
}

/// Whether the range of this number begins and ends so.
fn has_range(set: &CodePointInversionList<'_>, number: usize, start: u32, end: u32) -> bool {
    set.get_nth_range(number)
        .is_some_and(|range| *range.start() == start && *range.end() == end)
}

/// Whether these members have these positions.
fn has_positions(set: &CodePointInversionList<'_>, table: &[(u32, Option<usize>)]) -> bool {
    for (code_point, position) in table {
        if set.position32(*code_point) != *position {
            return false;
        }
    }
    true
}

/// Whether the set has so many ranges and so many code points.
fn has_sizes(set: &CodePointInversionList<'_>, ranges: usize, code_points: usize) -> bool {
    set.get_range_count() == ranges && set.size() == code_points
}

/// Whether the set holds the first character, and not the second.
fn tells_apart(set: &CodePointInversionList<'_>, held: char, other: char) -> bool {
    set.contains(held) && !set.contains(other)
}

/// Whether the set is that of A to E and K to T.
fn is_of_two_ranges(set: &CodePointInversionList<'_>) -> bool {
    holds_each(set, &[0x41, 0x45, 0x4B], true)
        && holds_each(set, &[0x40, 0x46, 0x11_0000], false)
        && tells_apart(set, 'E', 'F')
        && has_sizes(set, 2, 15)
        && has_range(set, 1, 0x4B, 0x54)
        && set.get_nth_range(2).is_none()
        && has_positions(set, &[(0x4C, Some(6)), (0x46, None)])
        && holds_ranges(set, &[('K', 'T')], true)
        && holds_ranges(set, &[('A', 'K'), ('B', 'A')], false)
}

/// Whether the set of the ends of these two ranges is made.
fn makes_two_ranges(alloc: Global) -> bool {
    match set_of(alloc, &[0x41, 0x46, 0x4B, 0x55]) {
        Ok(set) => is_of_two_ranges(&set),
        Err(_) => false,
    }
}

#[test]
fn ok_try_from_u32_inversion_list_slice(rt: HostRuntime) {
    assert!(rt; makes_two_ranges(rt.alloc()));
}

/// Whether a set holds all of the set of a list, or is known not to.
fn holds_set_of(
    alloc: Global,
    outer: &CodePointInversionList<'_>,
    inner: &[u32],
    expected: bool,
) -> bool {
    match set_of(alloc, inner) {
        Ok(inner) => outer.contains_set(&inner) == expected,
        Err(_) => false,
    }
}

/// The same of the set of one list.
fn holds_set(alloc: Global, outer: &[u32], inner: &[u32], expected: bool) -> bool {
    match set_of(alloc, outer) {
        Ok(outer) => holds_set_of(alloc, &outer, inner, expected),
        Err(_) => false,
    }
}

#[test]
fn sets_in_sets(rt: HostRuntime) {
    assert!(rt; holds_set(rt.alloc(), &[0x41, 0x46], &[0x41, 0x44], true));
    assert!(rt; holds_set(rt.alloc(), &[0x41, 0x46], &[0x41, 0x47], false));
}

/// Whether the set of all code points holds that of the first plane.
fn all_hold_bmp() -> bool {
    CodePointInversionList::all().contains_set(&CodePointInversionList::bmp())
}

/// How many code points there are.
fn count_all() -> usize {
    CodePointInversionList::all().size()
}

#[test]
fn all_code_points(rt: HostRuntime) {
    assert!(rt; all_hold_bmp());
    assert_same!(rt; count_all(), 0x11_0000);
}

/// Whether no set is made of the characters from the first to before the last, for this reason.
fn is_refused(alloc: Global, first: char, last: char, fault: FromRangeError) -> bool {
    match CodePointInversionList::try_from_range(alloc, first..last) {
        Ok(_) => false,
        Err(error) => error == fault,
    }
}

/// Whether two sets are equal.
fn are_equal(first: &CodePointInversionList<'_>, second: &CodePointInversionList<'_>) -> bool {
    *first == *second
}

/// Whether the set of the characters from the first to the last is made, holds this one, and not the other.
fn has_range_of(alloc: Global, (first, last): (char, char), held: char, other: char) -> bool {
    match CodePointInversionList::try_from_range(alloc, first..=last) {
        Ok(set) => tells_apart(&set, held, other),
        Err(_) => false,
    }
}

#[test]
fn ok_try_from_range(rt: HostRuntime) {
    let refused = FromRangeError::Range(RangeError(65, 65));
    assert!(rt; is_refused(rt.alloc(), 'A', 'A', refused));
    assert!(rt; has_range_of(rt.alloc(), ('A', 'E'), 'E', 'F'));
}

/// Whether the set of the range of all characters is made, and is that of all code points.
fn has_range_of_all(alloc: Global) -> bool {
    match CodePointInversionList::try_from_range(alloc, ..) {
        Ok(set) => are_equal(&set, &CodePointInversionList::all()),
        Err(_) => false,
    }
}

#[test]
fn the_range_of_all(rt: HostRuntime) {
    assert!(rt; has_range_of_all(rt.alloc()));
}

/// Whether the list of the set of all code points is this.
fn all_have_edges(alloc: Global, edges: &[u32]) -> bool {
    match CodePointInversionList::all().get_inversion_list_vec(alloc) {
        Ok(list) => list.as_slice() == edges,
        Err(_) => false,
    }
}

#[test]
fn ok_get_inversion_list_vec(rt: HostRuntime) {
    assert!(rt; all_have_edges(rt.alloc(), &[0, 0x11_0000]));
}

/// Whether a set is equal to its copy.
fn is_copied(alloc: Global, set: &CodePointInversionList<'_>) -> bool {
    match set.clone(alloc) {
        Ok(copy) => copy == *set,
        Err(_) => false,
    }
}

/// Whether that of all code points is.
fn all_are_copied(alloc: Global) -> bool {
    is_copied(alloc, &CodePointInversionList::all())
}

#[test]
fn ok_clone(rt: HostRuntime) {
    assert!(rt; all_are_copied(rt.alloc()));
}

/// Whether the set of the first plane is the same when it is owned.
fn bmp_is_owned(alloc: Global) -> bool {
    match CodePointInversionList::bmp().into_owned(alloc) {
        Ok(owned) => owned == CodePointInversionList::bmp(),
        Err(_) => false,
    }
}

#[test]
fn ok_into_owned(rt: HostRuntime) {
    assert!(rt; bmp_is_owned(rt.alloc()));
}

/// Whether the ranges of a set have these ends, one after another.
fn holds_ends(set: &CodePointInversionList<'_>, ends: &[(u32, u32)]) -> bool {
    let mut ranges = set.iter_ranges();
    for (start, end) in ends {
        match ranges.next() {
            Some(range) if *range.start() == *start && *range.end() == *end => {}
            _ => return false,
        }
    }
    ranges.next().is_none()
}

/// Whether the ranges that a set leaves out do.
fn leaves_out_ends(set: &CodePointInversionList<'_>, ends: &[(u32, u32)]) -> bool {
    let mut ranges = set.iter_ranges_complemented();
    for (start, end) in ends {
        match ranges.next() {
            Some(range) if *range.start() == *start && *range.end() == *end => {}
            _ => return false,
        }
    }
    ranges.next().is_none()
}

/// How many ranges a set leaves out.
fn count_left_out(set: &CodePointInversionList<'_>) -> usize {
    set.iter_ranges_complemented().len()
}

/// Whether the ranges of a set, and those that it leaves out, have these ends.
fn has_ends(
    set: &CodePointInversionList<'_>,
    held: &[(u32, u32)],
    left_out: &[(u32, u32)],
) -> bool {
    holds_ends(set, held) && leaves_out_ends(set, left_out) && count_left_out(set) == left_out.len()
}

/// Whether those of A to E do.
fn letters_have_ends(alloc: Global) -> bool {
    match CodePointInversionList::try_from_range(alloc, 'A'..='E') {
        Ok(set) => has_ends(&set, &[(0x41, 0x45)], &[(0, 0x40), (0x46, 0x10_FFFF)]),
        Err(_) => false,
    }
}

#[test]
fn ranges_of_a_set(rt: HostRuntime) {
    assert!(rt; letters_have_ends(rt.alloc()));
}

/// Whether those of all code points do.
fn all_have_ends() -> bool {
    has_ends(&CodePointInversionList::all(), &[(0, 0x10_FFFF)], &[])
}

#[test]
fn ranges_of_all(rt: HostRuntime) {
    assert!(rt; all_have_ends());
}

/// Whether a set has these characters.
fn is_of_characters(set: &CodePointInversionList<'_>, expected: &[char]) -> bool {
    let mut characters = set.iter_chars();
    for wanted in expected {
        if characters.next() != Some(*wanted) {
            return false;
        }
    }
    characters.next().is_none()
}

/// Whether the set of these ends does.
fn has_characters(alloc: Global, edges: &[u32], expected: &[char]) -> bool {
    match set_of(alloc, edges) {
        Ok(set) => is_of_characters(&set, expected),
        Err(_) => false,
    }
}

/// How many characters there are.
fn count_characters() -> usize {
    CodePointInversionList::all().iter_chars().count()
}

/// Ends of sets, and their characters.
const CHARACTERS: &[(&[u32], &[char])] = &[
    (
        &[
            0x41, 0x43, 0xD7FF, 0xD801, 0xDFFF, 0xE001, 0x10_FFFF, 0x11_0000,
        ],
        &['A', 'B', '\u{D7FF}', '\u{E000}', '\u{10FFFF}'],
    ),
    // surrogates alone
    (&[0xD800, 0xE000], &[]),
];

/// The number of the first row of other characters.
fn first_with_others(alloc: Global) -> Option<usize> {
    for (number, (edges, expected)) in CHARACTERS.iter().enumerate() {
        if !has_characters(alloc, edges, expected) {
            return Some(number);
        }
    }
    None
}

#[test]
fn characters_of_a_set(rt: HostRuntime) {
    assert_same!(rt; first_with_others(rt.alloc()), None);
    assert!(rt; count_characters() == 0x10_F800);
}

/// Texts, whether what is held is asked for, and where the longest stretch from the front ends.
const SPANS: &[(&str, bool, usize)] = &[
    ("CABXYZ", true, 3),
    ("XYZC", false, 3),
    ("XYZ", true, 0),
    ("ABC", false, 0),
    ("\u{E9}\u{1F600}A", false, 6),
    ("", true, 0),
];

/// The same, and where the longest stretch before the end begins.
const SPANS_BACK: &[(&str, bool, usize)] = &[
    ("XYZCAB", true, 3),
    ("ABCXYZ", true, 6),
    ("CABXYZ", false, 3),
    ("A\u{E9}\u{1F600}", false, 1),
    ("ABC", true, 0),
];

/// Whether the longest stretch from the front of each text ends where it should.
fn has_spans(set: &CodePointInversionList<'_>) -> bool {
    for (text, held, end) in SPANS {
        if set.span(text, *held) != *end {
            return false;
        }
    }
    true
}

/// The same back from the end.
fn has_spans_back(set: &CodePointInversionList<'_>) -> bool {
    for (text, held, start) in SPANS_BACK {
        if set.span_back(text, *held) != *start {
            return false;
        }
    }
    true
}

/// Whether the stretches of A to C do, from both ends.
fn letters_have_spans(alloc: Global) -> bool {
    match CodePointInversionList::try_from_range(alloc, 'A'..'D') {
        Ok(set) => has_spans(&set) && has_spans_back(&set),
        Err(_) => false,
    }
}

#[test]
fn stretches_of_texts(rt: HostRuntime) {
    assert!(rt; letters_have_spans(rt.alloc()));
}

/// Whether a set prints as this.
fn prints(alloc: Global, set: &CodePointInversionList<'_>, text: &str) -> bool {
    match format!(in alloc; "{set:?}") {
        Ok(printed) => printed.as_str() == text,
        Err(_) => false,
    }
}

/// Whether the set of a list does.
fn list_prints(alloc: Global, list: &[u32], text: &str) -> bool {
    match set_of(alloc, list) {
        Ok(set) => prints(alloc, &set, text),
        Err(_) => false,
    }
}

#[test]
fn a_set_printed(rt: HostRuntime) {
    let text = "CodePointInversionList { edges: [65, 67] }";
    assert!(rt; list_prints(rt.alloc(), &[0x41, 0x43], text));
}

/// Whether an error is shown as this.
fn is_shown(alloc: Global, error: &SetError, text: &str) -> bool {
    match format!(in alloc; "{error}") {
        Ok(shown) => shown.as_str() == text,
        Err(_) => false,
    }
}

/// Whether why a list makes no set is.
fn refusal_is_shown(alloc: Global, list: &[u32], text: &str) -> bool {
    match set_of(alloc, list) {
        Ok(_) => false,
        Err(error) => is_shown(alloc, &error, text),
    }
}

#[test]
fn a_refused_list_printed(rt: HostRuntime) {
    assert!(rt; refusal_is_shown(rt.alloc(), &[0x42, 0x41], "Invalid set: [66, 65]"));
}

/// Whether a refused range is shown as this.
fn range_is_shown(alloc: Global, error: RangeError, text: &str) -> bool {
    match format!(in alloc; "{error}") {
        Ok(shown) => shown.as_str() == text,
        Err(_) => false,
    }
}

#[test]
fn a_refused_range_printed(rt: HostRuntime) {
    assert!(rt; range_is_shown(rt.alloc(), RangeError(65, 65), "Invalid range: 65..65"));
}

/// How many ranges are still to come, whether there is a first, and how many are to come then.
fn first_of(set: &CodePointInversionList<'_>) -> (usize, bool, usize) {
    let mut ranges = set.iter_ranges();
    let before = ranges.len();
    let first = ranges.next().is_some();
    (before, first, ranges.len())
}

/// The same of the set of the first plane.
fn first_of_bmp() -> (usize, bool, usize) {
    first_of(&CodePointInversionList::bmp())
}

#[test]
fn how_many_ranges_are_left(rt: HostRuntime) {
    assert!(rt; first_of_bmp() == (1, true, 0));
}
