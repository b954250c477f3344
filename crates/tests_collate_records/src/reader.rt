//! Files of a few lines: what they say, and the first fault of each that is refused.

use assertions::assert_same;
use collate_records::records::Records;
use collate_records::rule::{RecordFault, RecordsError, Rule};
use std::alloc::Global;
use std::test::Fail;

/// The fault of a file, or none where it is accepted.
pub fn fault_of(alloc: Global, file: &[u8]) -> Option<RecordsError> {
    Records::read(alloc, file).err()
}

/// A fault as the reader answers it.
pub fn at(line: usize, rule: Rule) -> Option<RecordsError> {
    Some(RecordsError::Fault(RecordFault { line, rule }))
}

/// The most bytes of a line.
const LINE_LIMIT: usize = 1024;

#[test]
fn reads_what_lines_say(rt: HostRuntime) -> Result<(), Fail> {
    let records = Records::read(rt.alloc(), b"# two lines\n\nclass 0327 202\nw 0000 ;")?;
    assert_same!(rt; records.class('\u{327}'), 202);
    // each of the four lines counts
    let file = b"# two lines\n\nclass 0327 202\nw 0000 ;\nx";
    assert_same!(rt; fault_of(rt.alloc(), file), at(5, Rule::Grammar));
    Ok(())
}

#[test]
fn accepts_lines(rt: HostRuntime) {
    let alloc = rt.alloc();
    for file in [
        b"".as_slice(),
        b"\n".as_slice(),
        b"#".as_slice(),
        b"class 0301 230\n".as_slice(),
        b"class 10FFFF 9".as_slice(),
        b"class 1F600 9\nclass D7FF 9\nclass E000 9".as_slice(),
        b"class 0350 254".as_slice(),
        b"map 00C5 0041 030A".as_slice(),
        b"map 0400 0041 030A x".as_slice(),
        b"map 0400 0041\nmap 0401 0041 x".as_slice(),
        b"w 0061 ; [00000000.8000.0.0500.0] [0.8000.2.0500.3]".as_slice(),
    ] {
        assert_same!(rt; fault_of(alloc, file), None);
    }
}

#[test]
fn accepts_each_form_of_line(rt: HostRuntime) {
    let alloc = rt.alloc();
    for file in [
        b"kmap 00B2 0032".as_slice(),
        b"w 0061 0061 0061 0061 0061 0061 0061 0061 ;".as_slice(),
        b"w 0062 ;\nt 0061 0061 0061 | 0062 ;".as_slice(),
        b"w 0061 ;\nt 0061 ;".as_slice(),
        b"range 4E00 9FFF E0020200 001".as_slice(),
        b"w 0030 ;\ndigit 0030 9".as_slice(),
        b"set alternate shifted\nset backward on\nset casefirst upper\nset maxvariable currency".as_slice(),
        b"set dotabove off\nset numeric 11\nset groups 0300 0400 0500 0600".as_slice(),
        b"set compress 2A 2A 2B\nset reorder 30 31 31 30".as_slice(),
    ] {
        assert_same!(rt; fault_of(alloc, file), None);
    }
}

#[test]
fn refuses_forms_that_lack_a_field(rt: HostRuntime) {
    let alloc = rt.alloc();
    for file in [
        b"kmap 00B2".as_slice(),
        b"kmap 00B2 0032 x".as_slice(),
        b"w 0061 0061 0061 0061 | 0062 ;".as_slice(),
        b"w | 0062 ;".as_slice(),
        b"w 0061 | ;".as_slice(),
        b"w 0061 | 0062 | 0063 ;".as_slice(),
        b"w ;".as_slice(),
        b"t 0061".as_slice(),
        b"range 4E00 9FFF E0020200".as_slice(),
        b"range 4E00 9FFF E0020200 0001".as_slice(),
        b"range 4E00 9FFF E002020 1".as_slice(),
        b"digit 0030 10".as_slice(),
        b"digit 0030".as_slice(),
    ] {
        assert_same!(rt; fault_of(alloc, file), at(1, Rule::Grammar));
    }
}

#[test]
fn refuses_settings_outside_the_grammar(rt: HostRuntime) {
    let alloc = rt.alloc();
    for file in [
        b"set".as_slice(),
        b"set alternate".as_slice(),
        b"set alternate off".as_slice(),
        b"set backward On".as_slice(),
        b"set casefirst on".as_slice(),
        b"set numeric 1".as_slice(),
        b"set numeric 10 10".as_slice(),
        b"set groups 0300 0300 0300".as_slice(),
        b"set compress".as_slice(),
        b"set compress 2A 2b".as_slice(),
        b"set reorder 2A 2B 2B".as_slice(),
        b"set strength 1".as_slice(),
    ] {
        assert_same!(rt; fault_of(alloc, file), at(1, Rule::Grammar));
    }
}

#[test]
fn refuses_a_second_line_for_one_thing(rt: HostRuntime) {
    let alloc = rt.alloc();
    for (file, line) in [
        (b"set numeric 10\nset numeric 11".as_slice(), 2),
        (b"digit 0030 0\n\ndigit 0030 1".as_slice(), 3),
        (b"kmap 00B2 0032\nkmap 00B2 0033".as_slice(), 2),
        (b"t 0061 ;\nw 0061 ;\nt 0061 ;".as_slice(), 3),
        (b"w 0062 ;\nw 0061 | 0062 ;\nw 0061 | 0062 ;".as_slice(), 3),
        (
            b"set backward on\nset alternate shifted\nset backward off".as_slice(),
            3,
        ),
    ] {
        assert_same!(rt; fault_of(alloc, file), at(line, Rule::V14));
    }
}

#[test]
fn refuses_lines_outside_the_grammar(rt: HostRuntime) {
    let alloc = rt.alloc();
    for file in [
        b"x".as_slice(),
        b"\x80".as_slice(),
        b"# \x80".as_slice(),
        b" w 0061 ;".as_slice(),
        b"w 0061 ; ".as_slice(),
        b"w  0061 ;".as_slice(),
        b"w 0061 ;\r\n".as_slice(),
        b"w 0061".as_slice(),
        b"w 0061;".as_slice(),
        b"W 0061 ;".as_slice(),
        b"class 301 230".as_slice(),
        b"class 030a 230".as_slice(),
        b"class 00301 230".as_slice(),
        b"class 110000 9".as_slice(),
        b"class D800 9".as_slice(),
        b"class DFFF 9".as_slice(),
        b"class 0350 01".as_slice(),
        b"class 0350 1000".as_slice(),
        b"class 0350 ".as_slice(),
        b"class 0350".as_slice(),
        b"map 00C5 x".as_slice(),
        b"map 00C5 0041 030A X".as_slice(),
        b"map 00C5 0041 030A 030B".as_slice(),
        b"map 00C5 0041 x x".as_slice(),
    ] {
        assert_same!(rt; fault_of(alloc, file), at(1, Rule::Grammar));
    }
}

#[test]
fn refuses_elements_outside_the_grammar(rt: HostRuntime) {
    let alloc = rt.alloc();
    for file in [
        b"w 0061 ; [2a000000.0500.0.0500.0]".as_slice(),
        b"w 0061 ; [00.8000.0.0500.0]".as_slice(),
        b"w 0061 ; [.8000.0.0500.0]".as_slice(),
        b"w 0061 ; [0.800.0.0500.0]".as_slice(),
        b"w 0061 ; [0.8000.3.0500.0]".as_slice(),
        b"w 0061 ; [0.8000..0500.0]".as_slice(),
        b"w 0061 ; [0.8000.0.0500.4]".as_slice(),
        b"w 0061 ; [0.8000.0.0500.0".as_slice(),
        b"w 0061 ; 0.8000.0.0500.0]".as_slice(),
        b"w 0061 ; [0.8000.0.0500]".as_slice(),
        b"w 0061 ; [0.8000.0.0500.0.0]".as_slice(),
        b"w 0061 ; [".as_slice(),
    ] {
        assert_same!(rt; fault_of(alloc, file), at(1, Rule::Grammar));
    }
}

#[test]
fn names_the_first_fault(rt: HostRuntime) {
    let alloc = rt.alloc();
    for (file, line, rule) in [
        (b"\n\nx\n".as_slice(), 3, Rule::Grammar),
        (b"w 0061 ;\nw 0061 ;".as_slice(), 2, Rule::V14),
        (
            b"w 0061 ;\nw 0062 ;\n\nw 0061 ;\nx".as_slice(),
            4,
            Rule::V14,
        ),
        (b"w 0061 ;\nx\nw 0061 ;".as_slice(), 2, Rule::Grammar),
        (b"class 0350 9\nclass 0350 9".as_slice(), 2, Rule::V14),
        (b"map 00C5 0041\nmap 00C5 0042".as_slice(), 2, Rule::V14),
        (b"class 0350 0".as_slice(), 1, Rule::C3),
        (b"class 0301 220".as_slice(), 1, Rule::C8),
        (b"class 0301 220\nclass 0350 0".as_slice(), 2, Rule::C3),
        (b"map 00C5 00C6\nmap 00C6 00C5".as_slice(), 2, Rule::C2),
    ] {
        assert_same!(rt; fault_of(alloc, file), at(line, rule));
    }
}

#[test]
fn keeps_the_limits_of_lines(rt: HostRuntime) -> Result<(), Fail> {
    let alloc = rt.alloc();
    let mut comment = vec![in alloc; b'#'; LINE_LIMIT]?;
    assert_same!(rt; fault_of(alloc, &comment), None);
    comment.push(b'#')?;
    assert_same!(rt; fault_of(alloc, &comment), at(1, Rule::Grammar));
    let mut line = Vec::new(alloc);
    line.extend_from_slice(b"w 0061 ;")?;
    for _ in 0..8 {
        line.extend_from_slice(b" [0.8000.0.0500.0]")?;
    }
    assert_same!(rt; fault_of(alloc, &line), None);
    line.extend_from_slice(b" [0.8000.0.0500.0]")?;
    assert_same!(rt; fault_of(alloc, &line), at(1, Rule::Limit));
    let text = b"w 0061 0061 0061 0061 0061 0061 0061 0061 0061 ;";
    assert_same!(rt; fault_of(alloc, text), at(1, Rule::Limit));
    let mapping = b"kmap 00B2 0061 0061 0061 0061 0061 0061 0061 0061 0061";
    assert_same!(rt; fault_of(alloc, mapping), at(1, Rule::Limit));
    Ok(())
}

#[test]
fn keeps_the_size_of_files(rt: HostRuntime) -> Result<(), Fail> {
    let alloc = rt.alloc();
    let mut file = vec![in alloc; b'\n'; 1048576]?;
    assert_same!(rt; fault_of(alloc, &file), None);
    file.push(b'\n')?;
    assert_same!(rt; fault_of(alloc, &file), at(1048577, Rule::Grammar));
    Ok(())
}

#[test]
fn counts_code_points(rt: HostRuntime) -> Result<(), Fail> {
    let alloc = rt.alloc();
    let mut file = String::new(alloc);
    for code in 0x4e00..0x4e96u32 {
        file.push_str(&format!(in alloc; "w {code:04X} ;\n")?)?;
    }
    assert_same!(rt; fault_of(alloc, file.as_bytes()), None);
    file.push_str("w 4E96 ;")?;
    assert_same!(rt; fault_of(alloc, file.as_bytes()), at(151, Rule::Limit));
    Ok(())
}
