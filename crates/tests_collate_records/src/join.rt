//! A tailoring put over a root: which lines the join has, where they stand, and lines `# without` at fault.

use assertions::assert_same;
use collate_join::{JoinError, Origin, join};
use collate_records::records::Records;
use collate_records::rule::{RecordFault, RecordsError, Rule};
use std::alloc::Global;
use std::test::Fail;

const ROOT: &[u8] =
    b"# a root\nclass 0306 230\nw 0061 ; [2A100000.0500.0.0500.0]\nw 0418 0306 ; [2A200000.0500.0.0500.0]\n\
    w 0418 | 0061 ;\nset alternate nonignorable\nset numeric 0F\nrange 4E00 4E01 E0020200 1";

/// Whether the join of the root and a tailoring is this file.
fn is_joined(alloc: Global, tailoring: &[u8], file: &[u8]) -> Result<bool, Fail> {
    Ok(join(alloc, ROOT, tailoring)?.bytes() == file)
}

#[test]
fn ok_join(rt: HostRuntime) -> Result<(), Fail> {
    let alloc = rt.alloc();
    let whole = is_joined(
        alloc,
        b"",
        b"# a root\nclass 0306 230\nw 0061 ; [2A100000.0500.0.0500.0]\nw 0418 0306 ; [2A200000.0500.0.0500.0]\n\
    w 0418 | 0061 ;\nset alternate nonignorable\nset numeric 0F\nrange 4E00 4E01 E0020200 1\n",
    )?;
    assert!(rt; whole);
    // a contraction is left out, a setting and a class are set anew, a t line stands beside the w line
    let told = is_joined(
        alloc,
        b"# without 0418 0306\nset alternate shifted\nclass 0306 9\nt 0061 ;\nrange 4E00 4E00 E0020200 1\n",
        b"# a root\nw 0061 ; [2A100000.0500.0.0500.0]\nw 0418 | 0061 ;\nset numeric 0F\n\
    range 4E00 4E01 E0020200 1\n# without 0418 0306\nset alternate shifted\nclass 0306 9\nt 0061 ;\n\
    range 4E00 4E00 E0020200 1\n",
    )?;
    assert!(rt; told);
    // a w line is set anew by its prefix and text alone
    let anew = is_joined(
        alloc,
        b"# without 0418 | 0061\nw 0061 ;",
        b"# a root\nclass 0306 230\nw 0418 0306 ; [2A200000.0500.0.0500.0]\nset alternate nonignorable\n\
    set numeric 0F\nrange 4E00 4E01 E0020200 1\n# without 0418 | 0061\nw 0061 ;",
    )?;
    assert!(rt; anew);
    Ok(())
}

/// The fault of a tailoring, or none where it can be put over the root.
fn fault_of(alloc: Global, tailoring: &[u8]) -> Option<JoinError> {
    join(alloc, ROOT, tailoring).err()
}

#[test]
fn what_the_root_lacks_can_not_be_left_out(rt: HostRuntime) {
    let alloc = rt.alloc();
    for tailoring in [
        b"# without 0418 0306\n# without 0419".as_slice(),
        b"\n# without 0061 0418".as_slice(),
        b"\n# without 61".as_slice(),
        b"\n# without 0061 ".as_slice(),
        b"\n# without  0061".as_slice(),
        b"\n# without".as_slice(),
        b"\n# without any".as_slice(),
        b"\n# withouts 0061".as_slice(),
        b"\n# without 0061 ;".as_slice(),
        b"\n# without 0061\n# without 0062".as_slice(),
    ] {
        let line = if tailoring.ends_with(b"62") { 3 } else { 2 };
        assert_same!(rt; fault_of(alloc, tailoring), Some(JoinError::NoSuchRecord(line)));
    }
    for tailoring in [
        b"# without 0061\n# without 0061".as_slice(),
        b"#without 0062".as_slice(),
        b"# Without 0062".as_slice(),
        b" # without 0062".as_slice(),
    ] {
        assert_same!(rt; fault_of(alloc, tailoring), None);
    }
}

/// A root whose last line is no record.
const FAULTY_ROOT: &[u8] = b"# a root\nclass 0306 230\nw 0061 ; [2A100000.0500.0.0500.0]\n\
    w 0418 0306 ; [2A200000.0500.0.0500.0]\nset alternate nonignorable\nx";

/// Where the fault of a join stands, in which of the two files.
fn origin_of_fault(
    alloc: Global,
    root: &[u8],
    tailoring: &[u8],
) -> Result<Option<(Origin, Rule)>, Fail> {
    let joined = join(alloc, root, tailoring)?;
    match Records::read(alloc, joined.bytes()).err() {
        Some(RecordsError::Fault(RecordFault { line, rule })) => {
            Ok(Some((joined.origin(line), rule)))
        }
        _ => Ok(None),
    }
}

#[test]
fn a_fault_is_of_the_file_that_has_the_line(rt: HostRuntime) -> Result<(), Fail> {
    let alloc = rt.alloc();
    // line 6 of the root, of which one line is left out and one set anew
    let tailoring = b"# without 0418 0306\nset alternate shifted".as_slice();
    let of_root = origin_of_fault(alloc, FAULTY_ROOT, tailoring)?;
    assert_same!(rt; of_root, Some((Origin::Root(6), Rule::Grammar)));
    // of two ranges that overlap the one after is at fault
    let tailoring = b"# without 0418 0306\n\nrange 4E01 4E02 E0030200 1".as_slice();
    let of_tailoring = origin_of_fault(alloc, ROOT, tailoring)?;
    assert_same!(rt; of_tailoring, Some((Origin::Tailoring(3), Rule::V6)));
    Ok(())
}
