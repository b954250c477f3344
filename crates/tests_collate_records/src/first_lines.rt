//! Each call that takes memory finds the first line that offends, and none where none does.

use assertions::assert_same;
use collate_lines::record::{Layer, Record, Setting};
use collate_record_rules::decomposed::first_undecomposed;
use collate_record_rules::digits::{first_bad_digit, first_bad_dotted};
use collate_record_rules::prefixes::first_bad_prefix;
use collate_record_rules::recorded_texts::{first_lacking_shorter, first_late_starter};
use collate_record_rules::settings::first_bad_setting;
use std::alloc::{AllocError, Global};
use std::test::Fail;

/// A `w` line without elements.
fn ignorable(alloc: Global, prefix: &[char], text: &[char]) -> Result<Record, AllocError> {
    Ok(Record::Weights {
        layer: Layer::Root,
        prefix: Vec::from_slice(alloc, prefix)?,
        text: Vec::from_slice(alloc, text)?,
        elements: Vec::new(alloc),
    })
}

#[test]
fn ok_first_undecomposed(rt: HostRuntime) -> Result<(), Fail> {
    let alloc = rt.alloc();
    let records = [
        ignorable(alloc, &[], &['a', '\u{301}'])?,
        ignorable(alloc, &[], &['\u{344}'])?,
    ];
    assert_same!(rt; first_undecomposed(alloc, &records[..1])?, None);
    assert_same!(rt; first_undecomposed(alloc, &records)?, Some(1));
    Ok(())
}

#[test]
fn ok_first_late_starter(rt: HostRuntime) -> Result<(), Fail> {
    let alloc = rt.alloc();
    let records = [
        ignorable(alloc, &[], &['a', 'b', '\u{301}'])?,
        ignorable(alloc, &[], &['\u{350}', '\u{301}', 'b'])?,
    ];
    assert_same!(rt; first_late_starter(alloc, &records[..1])?, None);
    assert_same!(rt; first_late_starter(alloc, &records)?, Some(1));
    Ok(())
}

#[test]
fn ok_first_lacking_shorter(rt: HostRuntime) -> Result<(), Fail> {
    let alloc = rt.alloc();
    let records = [
        ignorable(alloc, &[], &['a', 'b', '\u{301}'])?,
        ignorable(alloc, &[], &['a', 'b'])?,
    ];
    assert_same!(rt; first_lacking_shorter(alloc, &records)?, None);
    assert_same!(rt; first_lacking_shorter(alloc, &records[..1])?, Some(0));
    Ok(())
}

#[test]
fn ok_first_bad_prefix(rt: HostRuntime) -> Result<(), Fail> {
    let alloc = rt.alloc();
    let records = [
        ignorable(alloc, &['a'], &['b'])?,
        ignorable(alloc, &[], &['b'])?,
    ];
    assert_same!(rt; first_bad_prefix(alloc, &records)?, None);
    assert_same!(rt; first_bad_prefix(alloc, &records[..1])?, Some(0));
    Ok(())
}

#[test]
fn ok_first_bad_digit(rt: HostRuntime) -> Result<(), Fail> {
    let alloc = rt.alloc();
    let records = [
        Record::Digit {
            character: '1',
            value: 1,
        },
        ignorable(alloc, &[], &['1'])?,
        ignorable(alloc, &['a'], &['1'])?,
    ];
    assert_same!(rt; first_bad_digit(alloc, &records[..2])?, None);
    assert_same!(rt; first_bad_digit(alloc, &records)?, Some(2));
    Ok(())
}

#[test]
fn ok_first_bad_dotted(rt: HostRuntime) -> Result<(), Fail> {
    let alloc = rt.alloc();
    let off = [Record::Set(Setting::DotAbove(false))];
    let on = [Record::Set(Setting::DotAbove(true))];
    assert_same!(rt; first_bad_dotted(alloc, &off)?, None);
    assert_same!(rt; first_bad_dotted(alloc, &on)?, Some(0));
    Ok(())
}

#[test]
fn ok_first_bad_setting(rt: HostRuntime) -> Result<(), Fail> {
    let alloc = rt.alloc();
    let records = [
        Record::Set(Setting::Numeric(0x20)),
        Record::Set(Setting::Groups([0x300, 0x400, 0x400, 0x2001])),
    ];
    assert_same!(rt; first_bad_setting(alloc, &records[..1])?, None);
    assert_same!(rt; first_bad_setting(alloc, &records)?, Some(1));
    Ok(())
}
