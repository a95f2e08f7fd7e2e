// Comparisons by functions, since the proof of a test takes seconds for each `assert_eq!` in it. Each crate of tests has its own:
// `rt` lets no library have a function that may end the process.
use std::fmt::{Debug, Display};
use std::process::Abort;

// Ends the test if the values differ, and prints both.
pub fn assert_same<A: Abort, T: PartialEq + Debug + Drop>(rt: &A, left: T, right: T) {
    assert_eq!(*rt; left, right);
}

// Ends the test if the values differ, and prints both, with a note on which row or turn it is.
pub fn assert_same_at<A: Abort, T: PartialEq + Debug + Drop, N: Display + Drop>(
    rt: &A,
    left: T,
    right: T,
    note: N,
) {
    assert_eq!(*rt; left, right, "{note}");
}
