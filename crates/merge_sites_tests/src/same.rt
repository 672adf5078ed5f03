//! Assertions in functions of their own: the code that `assert_eq!` stands for is long, and each test is proved with
//! what it holds of it.
use std::fmt::{Debug, Display};
use std::process::Abort;

// Ends the test unless it was told what it wants.
pub(crate) fn same<T: PartialEq + Debug>(rt: &impl Abort, told: &T, wanted: &T) {
    assert_eq!(*rt; *told, *wanted);
}

// The same, and says in which case.
pub(crate) fn same_in<T: PartialEq + Debug, C: Display>(
    rt: &impl Abort,
    told: &T,
    wanted: &T,
    case: &C,
) {
    assert_eq!(*rt; *told, *wanted, "{case}");
}
