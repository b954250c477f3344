//! What two files say differently.

use collate_records::differences::Differences;
use collate_records::records::Records;
use std::test::Fail;

/// Two letters, and one of them with an accent.
const BEFORE: &[u8] = b"map 00E1 0061 0301
map 1EA5 00E1 0302
w 0061 ; [2A100000.0500.0.0500.0]
w 0062 ; [2A200000.0500.0.0500.0]
";

/// Another weight for the first letter, and a comment.
const AFTER: &[u8] = b"# another weight
map 1EA5 00E1 0302
map 00E1 0061 0301
w 0062 ; [2A200000.0500.0.0500.0]
w 0061 ; [2A300000.0500.0.0500.0]
";

#[test]
fn ok_changed(rt: HostRuntime) -> Result<(), Fail> {
    let before = Records::read(rt.alloc(), BEFORE)?;
    let after = Records::read(rt.alloc(), AFTER)?;
    assert!(rt; before.changed(&after, 'a'));
    assert!(rt; !before.changed(&after, 'b'));
    assert!(rt; !before.changed(&after, 'á'));
    assert!(rt; before.settings_equal(&after));
    Ok(())
}

#[test]
fn ok_differences(rt: HostRuntime) -> Result<(), Fail> {
    let before = Records::read(rt.alloc(), BEFORE)?;
    let after = Records::read(rt.alloc(), AFTER)?;
    let differences = Differences::new(rt.alloc(), &before, &after)?;
    assert!(rt; differences.changed('a'));
    assert!(rt; !differences.changed('b'));
    assert!(rt; !differences.changed('á'));
    assert!(rt; !differences.before().changed(&before, 'a'));
    Ok(())
}
