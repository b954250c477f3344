//! What all tests rest on: `assert_same!` sees a difference.

use assertions::{same, same_in};

#[test]
fn differing_values_are_told(rt: HostRuntime) {
    assert!(rt; same(&[1, 2], &[1, 2]).is_ok());
    assert!(rt; same(&[1, 2], &[1, 3]).is_err());
    assert!(rt; same_in(&"a case", &Some(1), &Some(1)).is_ok());
    assert!(rt; same_in(&"a case", &Some(1), &None).is_err());
}
