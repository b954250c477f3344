//! The limits of a file, on both sides of each number.

use crate::reader::{at, fault_of};
use assertions::assert_same;
use collate_records::limits::Limits;
use collate_records::records::Records;
use collate_records::rule::{RecordsError, Rule};
use std::alloc::{AllocError, Global};
use std::test::Fail;

/// A line that breaks `C1`, which is asked after `limit`. It names characters of one block, and takes no room for a list.
const MAPPED_MARK: &str = "map 0300 0301\n";

/// Eight elements that break `V1`.
const EIGHT_ELEMENTS: &str =
    " ; [0.0000.0.0000.0] [0.0000.0.0000.0] [0.0000.0.0000.0] [0.0000.0.0000.0] [0.0000.0.0000.0] [0.0000.0.0000.0] [0.0000.0.0000.0] [0.0000.0.0000.0]";

/// The fault of a file within limits, or none where it is accepted.
fn fault_within(alloc: Global, file: &[u8], limits: Limits) -> Option<RecordsError> {
    Records::read_within(alloc, file, limits).err()
}

/// A mapped mark, and then so many lines of characters so far apart, from U+10000 on.
fn repeated(
    alloc: Global,
    name: &str,
    apart: u32,
    rest: &str,
    count: u32,
) -> Result<String, AllocError> {
    let mut file = String::new(alloc);
    file.push_str(MAPPED_MARK)?;
    let mut code = 0x1_0000_u32;
    for _ in 0..count {
        file.push_str(&format!(in alloc; "{name} {code:04X}{rest}\n")?)?;
        code = code.wrapping_add(apart);
    }
    Ok(file)
}

/// Whether so many such lines are within what tables have room for, and one more isn't.
fn is_most(
    alloc: Global,
    name: &str,
    apart: u32,
    rest: &str,
    most: u32,
) -> Result<bool, AllocError> {
    let most_lines = repeated(alloc, name, apart, rest, most)?;
    let more_lines = repeated(alloc, name, apart, rest, most.wrapping_add(1))?;
    let within = fault_within(alloc, most_lines.as_bytes(), Limits::UNICODE);
    let past = fault_within(alloc, more_lines.as_bytes(), Limits::UNICODE);
    Ok(within == at(1, Rule::C1) && past == at((most as usize).wrapping_add(2), Rule::Limit))
}

#[test]
fn goes_by_limits_of_its_own(rt: HostRuntime) -> Result<(), Fail> {
    let alloc = rt.alloc();
    let file = b"class 0350 1\nclass 0351 1";
    let limits = Limits {
        bytes: 25,
        code_points: 2,
        records: 2,
    };
    let records = Records::read_within(alloc, file, limits)?;
    assert!(rt; records.limits() == limits);
    for (few, rule) in [
        (
            Limits {
                bytes: 24,
                ..limits
            },
            Rule::Grammar,
        ),
        (
            Limits {
                code_points: 1,
                ..limits
            },
            Rule::Limit,
        ),
        (
            Limits {
                records: 1,
                ..limits
            },
            Rule::Limit,
        ),
    ] {
        assert_same!(rt; fault_within(alloc, file, few), at(2, rule));
    }
    Ok(())
}

#[test]
fn reads_within_the_standard_limits(rt: HostRuntime) -> Result<(), Fail> {
    let alloc = rt.alloc();
    let mut file = String::new(alloc);
    for i in 0..150u32 {
        let code = 0x1_0000 + i;
        file.push_str(&format!(in alloc; "class {code:04X} 1\n")?)?;
    }
    let records = Records::read(alloc, file.as_bytes())?;
    assert!(rt; records.limits() == Limits::STANDARD);
    file.push_str("class 20000 1\n")?;
    assert_same!(rt; fault_of(alloc, file.as_bytes()), at(151, Rule::Limit));
    assert_same!(rt; fault_within(alloc, file.as_bytes(), Limits::UNICODE), None);
    Ok(())
}

#[test]
fn counts_blocks(rt: HostRuntime) -> Result<(), Fail> {
    assert!(rt; is_most(rt.alloc(), "class", 512, " 0", 699)?);
    assert!(rt; is_most(rt.alloc(), "class", 16, " 0", 11_000)?);
    assert!(rt; is_most(rt.alloc(), "range", 1, " 10FFFF E0020200 1", 233)?);
    Ok(())
}

#[test]
fn counts_no_block_of_sixteen_below_10000(rt: HostRuntime) -> Result<(), Fail> {
    let alloc = rt.alloc();
    let mut file = repeated(alloc, "class", 16, " 0", 11_000)?;
    for block in 0..0xd80u32 {
        file.push_str(&format!(in alloc; "class {:04X} 0\n", 16 * block)?)?;
    }
    assert_same!(rt; fault_within(alloc, file.as_bytes(), Limits::UNICODE), at(1, Rule::C1));
    file.push_str("class 50000 0\n")?;
    assert_same!(rt; fault_within(alloc, file.as_bytes(), Limits::UNICODE), at(14_458, Rule::Limit));
    Ok(())
}

#[test]
fn counts_elements(rt: HostRuntime) -> Result<(), Fail> {
    assert!(rt; is_most(rt.alloc(), "w", 1, EIGHT_ELEMENTS, 57_777)?);
    Ok(())
}

#[test]
fn counts_texts_beside(rt: HostRuntime) -> Result<(), Fail> {
    assert!(rt; is_most(rt.alloc(), "w 0061", 1, " ;", 3_600)?);
    assert!(rt; is_most(rt.alloc(), "t 0061 |", 1, " ;", 3_600)?);
    Ok(())
}

#[test]
fn counts_characters_of_full_lists(rt: HostRuntime) -> Result<(), Fail> {
    let alloc = rt.alloc();
    // a list of its own, one that leads on, and one by compatibility
    assert!(rt; is_most(alloc, "map", 1, " 0061 0062", 8_000)?);
    assert!(rt; is_most(alloc, "map", 1, " 0300", 2_000)?);
    assert!(rt; is_most(alloc, "kmap", 1, " 0061 0062 0063 0064 0065", 3_200)?);
    assert!(rt; is_most(alloc, "kmap", 1, " 0300", 2_000)?);
    Ok(())
}
