//! What the records of an accepted file answer.

use crate::reader::{at, fault_of};
use assertions::assert_same;
use collate_records::records::Records;
use collate_records::rule::Rule;
use icu_collator_types::options::{AlternateHandling, CollationCaseFirst, MaxVariable};
use icu_normalizer_core::canonical::CanonicalBorrowed;
use icu_normalizer_core::properties::Decomposed;
use std::process::Abort;
use std::test::Fail;

/// Letters, three marks of which two have classes by lines, and two letters with a mark.
const LETTERS: &[u8] = b"class 0302 230
class 0323 220
map 00E1 0061 0301
map 1EA1 0061 0323
w 0061 ; [2A100000.0500.0.0500.0]
w 0062 ; [2A200000.0500.0.0500.0]
w 0063 ; [2A300000.0500.0.0500.0]
w 0065 ; [2A500000.0500.0.0500.0]
w 0068 ; [2A800000.0500.0.0500.0]
w 006C ; [2AC00000.0500.0.0500.0]
w 006F ; [2AF00000.0500.0.0500.0]
w 0074 ; [2B400000.0500.0.0500.0]
w 0301 ; [0.8800.0.0500.0]
w 0302 ; [0.8A00.0.0500.0]
w 0323 ; [0.8C00.0.0500.0]
";

/// Characters on either side of 1000 and 10000 (hex), where tries begin to find them in another way.
const SPREAD: &[u8] = b"class 0FFF 1
class 1000 2
class FFFF 3
class 10000 4
class 10FFFF 5
map 0FFE 0061
map 1001 0062
map FFFE 0063
map 10001 0064 0065 x
map 10FFFE 0066
w 0FFD ; [2A100000.0500.0.0500.0]
w 1002 ;
w 10002 ; [2A200000.0500.0.0500.0] [0.8000.0.0500.0]
w 10FFFD ; [2A300000.0500.0.0500.0]
";

#[test]
fn ok_read(rt: HostRuntime) -> Result<(), Fail> {
    classes_are_said_or_built_in(&rt, &Records::read(rt.alloc(), LETTERS)?);
    Ok(())
}

#[test]
fn a_line_more_may_be_at_fault(rt: HostRuntime) -> Result<(), Fail> {
    let alloc = rt.alloc();
    let lines: [(&[u8], Rule); 3] = [
        (b"class 0301 220", Rule::C8),
        (b"w 0061 ;", Rule::V14),
        (b"w 61 ;", Rule::Grammar),
    ];
    for (line, rule) in lines {
        let mut file = Vec::from_slice(alloc, LETTERS)?;
        file.extend_from_slice(line)?;
        assert_same!(rt; fault_of(alloc, &file), at(16, rule));
    }
    Ok(())
}

#[test]
fn letters_are_looked_up(rt: HostRuntime) -> Result<(), Fail> {
    let records = Records::read(rt.alloc(), LETTERS)?;
    classes_are_said_or_built_in(&rt, &records);
    mappings_are_one_step(&rt, &records);
    Ok(())
}

fn classes_are_said_or_built_in(rt: &impl Abort, records: &Records) {
    for (character, class) in [
        ('\u{302}', 230),
        ('\u{323}', 220),
        ('a', 0),
        ('\u{301}', 230),
        ('\u{3099}', 8),
        ('\u{f71}', 129),
        ('\u{ac00}', 0),
    ] {
        assert_same!(rt; records.class(character), class);
    }
}

fn mappings_are_one_step(rt: &impl Abort, records: &Records) {
    for (character, mapping) in [
        ('\u{e1}', Decomposed::Expansion('a', '\u{301}')),
        ('\u{ac01}', Decomposed::Expansion('\u{ac00}', '\u{11a8}')),
        ('\u{340}', Decomposed::Singleton('\u{300}')),
        ('a', Decomposed::Default),
    ] {
        assert_same!(rt; records.mapping(character), mapping);
    }
}

#[test]
fn ok_settings(rt: HostRuntime) -> Result<(), Fail> {
    let file = b"set maxvariable space\n\nset casefirst lower\nset alternate shifted";
    let settings = Records::read(rt.alloc(), file)?.settings();
    assert_same!(rt; settings.alternate_handling, AlternateHandling::Shifted);
    assert_same!(rt; settings.case_first, CollationCaseFirst::Lower);
    assert_same!(rt; settings.max_variable, MaxVariable::Space);
    Ok(())
}

#[test]
fn ok_canonical(rt: HostRuntime) -> Result<(), Fail> {
    let records = Records::read(rt.alloc(), LETTERS)?;
    assert!(rt; has_full_lists(records.canonical()));
    assert!(rt; composes_letters(records.canonical()));
    Ok(())
}

fn has_full_lists(canonical: CanonicalBorrowed<'_>) -> bool {
    canonical.full_list('\u{e1}').eq(['a', '\u{301}'])
        && canonical.full_list('\u{1ea1}').eq(['a', '\u{323}'])
        && canonical.full_list('\u{ac00}').eq(['\u{1100}', '\u{1161}'])
        && canonical
            .full_list('\u{ac01}')
            .eq(['\u{1100}', '\u{1161}', '\u{11a8}'])
        && canonical.full_list('\u{344}').eq(['\u{308}', '\u{301}'])
        && canonical.full_list('z').eq(['z'])
}

fn composes_letters(canonical: CanonicalBorrowed<'_>) -> bool {
    canonical.compose('a', '\u{301}') == Some('\u{e1}')
        && canonical.compose('a', '\u{302}').is_none()
        && canonical.class('\u{323}') == 220
}

#[test]
fn numbers_are_looked_up(rt: HostRuntime) -> Result<(), Fail> {
    let records = Records::read(rt.alloc(), SPREAD)?;
    classes_are_those_of_numbers(&rt, &records);
    mappings_are_those_of_numbers(&rt, &records);
    // an x keeps the mapping out of the composed pairs
    assert!(rt; records.canonical().compose('d', 'e').is_none());
    Ok(())
}

fn classes_are_those_of_numbers(rt: &impl Abort, records: &Records) {
    for (character, class) in [
        ('\u{fff}', 1),
        ('\u{1000}', 2),
        ('\u{ffff}', 3),
        ('\u{10000}', 4),
        ('\u{10ffff}', 5),
    ] {
        assert_same!(rt; records.class(character), class);
    }
}

fn mappings_are_those_of_numbers(rt: &impl Abort, records: &Records) {
    for (character, mapping) in [
        ('\u{ffe}', Decomposed::Singleton('a')),
        ('\u{1001}', Decomposed::Singleton('b')),
        ('\u{fffe}', Decomposed::Singleton('c')),
        ('\u{10001}', Decomposed::Expansion('d', 'e')),
        ('\u{10fffe}', Decomposed::Singleton('f')),
    ] {
        assert_same!(rt; records.mapping(character), mapping);
    }
}

#[test]
fn as_many_characters_as_a_file_names(rt: HostRuntime) -> Result<(), Fail> {
    let alloc = rt.alloc();
    let mut file = String::new(alloc);
    for i in 0..150u32 {
        let code = 0xe000 + 0x1000 * i;
        file.push_str(&format!(in alloc; "class {code:04X} 1\n")?)?;
    }
    let records = Records::read(alloc, file.as_bytes())?;
    assert_same!(rt; records.class('\u{e000}'), 1);
    assert_same!(rt; records.class('\u{e001}'), 0);
    assert_same!(rt; records.class('\u{a3000}'), 1);
    Ok(())
}
