//! Small files and the first fault that the rules find in each. The answers are those of another reading of the rules.

use crate::reader::{at, fault_of};
use assertions::assert_same;
use collate_records::rule::{RecordFault, RecordsError, Rule};
use std::alloc::Global;
use std::error::Error;
use std::test::Fail;

/// The text that an error prints, as a caller knows it that knows of the error no more than that it is one.
fn shown<E: Error>(alloc: Global, error: &E) -> Result<String, Fail> {
    Ok(format!(in alloc; "{error}")?)
}

#[test]
fn errors_print(rt: HostRuntime) -> Result<(), Fail> {
    let alloc = rt.alloc();
    let fault = RecordFault {
        line: 1048577,
        rule: Rule::Grammar,
    };
    assert_same!(rt; *shown(alloc, &Rule::V14)?.as_str(), *"V14");
    assert_same!(rt; *shown(alloc, &fault)?.as_str(), *"1048577 grammar");
    let refused = RecordsError::Fault(fault);
    assert_same!(rt; *shown(alloc, &refused)?.as_str(), *"1048577 grammar");
    let refused = RecordsError::Memory;
    assert_same!(rt; *shown(alloc, &refused)?.as_str(), *"out of memory");
    Ok(())
}

#[test]
fn mapped_marks(rt: HostRuntime) {
    for (file, line) in [
        (b"map 0350 0061\n\nclass 0350 10".as_slice(), 3),
        (b"class 0350 10\nmap 0350 0061".as_slice(), 2),
        (b"map 0300 0061".as_slice(), 1),
    ] {
        assert_same!(rt; fault_of(rt.alloc(), file), at(line, Rule::C1));
    }
    assert_same!(rt; fault_of(rt.alloc(), b"map 0340 0300"), None);
}

#[test]
fn loops(rt: HostRuntime) {
    for (file, line, rule) in [
        (
            b"map 0402 0400\nmap 0401 0402\nmap 0400 0403 0401 x".as_slice(),
            3,
            Rule::C2,
        ),
        (b"map 0400 0400".as_slice(), 1, Rule::C2),
        // no loop, or it would come before a full list that begins with a mark
        (b"map 0400 0341\nmap 0403 0400".as_slice(), 1, Rule::C4),
    ] {
        assert_same!(rt; fault_of(rt.alloc(), file), at(line, rule));
    }
}

#[test]
fn bad_lists(rt: HostRuntime) {
    for (file, line) in [
        (
            b"map 0404 0403 0400 x
map 0402 0403 0403 x
map 0401 0402 0402 x
map 0400 0401 0401 x"
                .as_slice(),
            4,
        ),
        (b"map 0400 0350\nclass 0350 9".as_slice(), 2),
        (b"map 0400 FF9E".as_slice(), 1),
    ] {
        assert_same!(rt; fault_of(rt.alloc(), file), at(line, Rule::C4));
    }
    let eight = b"map 0402 0403 0403 x\nmap 0401 0402 0402 x\nmap 0400 0401 0401 x";
    assert_same!(rt; fault_of(rt.alloc(), eight), None);
}

#[test]
fn bad_classes(rt: HostRuntime) {
    for (file, line) in [
        (b"class 0350 254\nclass 0351 255".as_slice(), 2),
        (b"class 0350 0".as_slice(), 1),
        (b"class 0301 255".as_slice(), 1),
    ] {
        assert_same!(rt; fault_of(rt.alloc(), file), at(line, Rule::C3));
    }
    assert_same!(rt; fault_of(rt.alloc(), b"class 0F73 0"), None);
}

#[test]
fn repeated_pairs(rt: HostRuntime) {
    for (file, line) in [
        (b"map 0400 0410 0300\nmap 0401 0410 0300".as_slice(), 2),
        // the first of two lines that repeat a pair, and before a second below 0300 in line 1
        (
            b"map 0404 0410 0061
map 0402 0410 0301

map 0400 0410 0301
map 0403 0410 0301"
                .as_slice(),
            4,
        ),
    ] {
        assert_same!(rt; fault_of(rt.alloc(), file), at(line, Rule::C5));
    }
    for file in [
        b"map 0400 0410 0300\nmap 0401 0410 0300 x".as_slice(),
        b"map 0400 0410\nmap 0401 0410".as_slice(),
        b"map 0400 0410 0411\nmap 0401 0411 0410".as_slice(),
    ] {
        assert_same!(rt; fault_of(rt.alloc(), file), None);
    }
}

#[test]
fn bad_seconds(rt: HostRuntime) {
    for (file, line) in [
        (b"map 00E1 0061 0061".as_slice(), 1),
        (b"map 0402 0410 0300\nmap 0400 0410 02FF".as_slice(), 2),
        (b"map 0400 0410 1161".as_slice(), 1),
        (b"map 0400 0410 11FF".as_slice(), 1),
    ] {
        assert_same!(rt; fault_of(rt.alloc(), file), at(line, Rule::C6));
    }
    for file in [
        b"map 0400 0410 0300".as_slice(),
        b"map 0400 0410 1200".as_slice(),
        b"map 0400 0410 0061 x".as_slice(),
        b"map AC00 1100 1161".as_slice(),
    ] {
        assert_same!(rt; fault_of(rt.alloc(), file), None);
    }
}

#[test]
fn bad_low_characters(rt: HostRuntime) {
    for (file, line) in [
        // a mark
        (b"class 0350 9\nclass 0061 230".as_slice(), 2),
        (b"class 02FF 9".as_slice(), 1),
        // a mapping below 00C0
        (b"map 00BF 0061 0301".as_slice(), 1),
        (b"map 00BF 0061".as_slice(), 1),
        // not composed again
        (b"map 00E1 0061 0301 x".as_slice(), 1),
        (b"map 00E1 0061".as_slice(), 1),
        // before a contradiction in line 2
        (b"map 00E1 0061 0301 x\nclass 0301 220".as_slice(), 1),
    ] {
        assert_same!(rt; fault_of(rt.alloc(), file), at(line, Rule::C7));
    }
    for file in [
        b"map 00C0 0061 0301".as_slice(),
        b"class 0300 230".as_slice(),
        b"map 0400 0410 0301 x\nmap 0401 0410".as_slice(),
    ] {
        assert_same!(rt; fault_of(rt.alloc(), file), None);
    }
}

#[test]
fn composed_low_characters(rt: HostRuntime) {
    for (file, line) in [
        // the marks of the full list are put in another order, by a class and by a mapping
        (
            b"map 0200 0201 0316\nmap 0201 0061 0301\nclass 0316 220".as_slice(),
            3,
        ),
        (
            b"class 0316 220\nmap 0201 0061 0301\nmap 0200 0201 0316".as_slice(),
            3,
        ),
        // the first of the pair isn't composed again
        (b"map 0200 0201 0301\nmap 0201 0061 0302 x".as_slice(), 2),
        // its second is mapped
        (b"map 0200 0061 0400\nmap 0400 0401 0301".as_slice(), 2),
    ] {
        assert_same!(rt; fault_of(rt.alloc(), file), at(line, Rule::C7));
    }
    for file in [
        b"map 01D5 00DC 0304\nmap 00DC 0055 0308\nclass 0304 230".as_slice(),
        b"map 0200 0201 0301\nmap 0201 0061 0316\nclass 0316 220".as_slice(),
    ] {
        assert_same!(rt; fault_of(rt.alloc(), file), None);
    }
}

#[test]
fn contradictions(rt: HostRuntime) {
    for (file, line) in [
        (b"class 0350 9\nclass 0301 220".as_slice(), 2),
        (b"map 0344 0308 0301".as_slice(), 1),
        (b"map AC00 1100 1161 x".as_slice(), 1),
        (b"map FF9E 3099".as_slice(), 1),
        (b"map FFFD 0400".as_slice(), 1),
        (b"class AC00 0\nclass 1100 1".as_slice(), 2),
    ] {
        assert_same!(rt; fault_of(rt.alloc(), file), at(line, Rule::C8));
    }
    assert_same!(rt; fault_of(rt.alloc(), b"map 0344 0308 0301 x"), None);
}

#[test]
fn mapped_hangul(rt: HostRuntime) {
    for (file, line) in [
        (b"map AC00 1100 1161\nmap 0400 1100".as_slice(), 2),
        (b"map 0400 AC00".as_slice(), 1),
        (b"map 0400 0401 11FF x".as_slice(), 1),
    ] {
        assert_same!(rt; fault_of(rt.alloc(), file), at(line, Rule::C9));
    }
    assert_same!(rt; fault_of(rt.alloc(), b"map 0400 0401 1200 x"), None);
}
