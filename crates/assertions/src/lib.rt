//! What tests assert of two values. `assert_eq!` is proved anew wherever it stands, for one second to three, `assert_same!`
//! in a third of that. One that fails ends the test: it prints its own line, `not the same`, and both values as
//! `Different { left: .., right: .. }`, or `DifferentIn` with the case before them.
#![tactic(auto)]

use std::fmt::Debug;

/// Two values that should be the same.
#[derive(Debug, Drop)]
pub struct Different<T: Drop> {
    /// What stands first in the assertion.
    pub left: T,
    /// What stands second.
    pub right: T,
}

/// Two values that should be the same in a case.
#[derive(Debug, Drop)]
pub struct DifferentIn<C: Drop, T: Drop> {
    /// Which of several cases it is.
    pub case: C,
    /// What stands first in the assertion.
    pub left: T,
    /// What stands second.
    pub right: T,
}

/// Nothing where two values are the same, else both.
pub fn same<T: PartialEq + Debug + Drop>(left: T, right: T) -> Result<(), Different<T>> {
    if left == right {
        return Ok(());
    }
    Err(Different { left, right })
}

/// Nothing where two values are the same, else both, and the case in which they should be.
pub fn same_in<C: Debug + Drop, T: PartialEq + Debug + Drop>(
    case: C,
    left: T,
    right: T,
) -> Result<(), DifferentIn<C, T>> {
    if left == right {
        return Ok(());
    }
    Err(DifferentIn { case, left, right })
}

/// Ends a test in which two values differ, and prints them: `assert_same!(rt; left, right)`, or, with one of several cases,
/// `assert_same!(rt; left, right; case)`.
#[macro_export]
macro_rules! assert_same {
    ($rt:expr; $left:expr, $right:expr $(,)?) => {
        $crate::same(&$left, &$right).expect(&$rt, "not the same")
    };
    ($rt:expr; $left:expr, $right:expr; $case:expr $(,)?) => {
        $crate::same_in(&$case, &$left, &$right).expect(&$rt, "not the same")
    };
}
