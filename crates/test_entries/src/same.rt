// Comparisons by functions, since the proof of a test takes seconds for each `assert_eq!` in it. Each crate of tests has its own:
// `rt` lets no library have a function that may end the process.
use std::fmt::Debug;
use std::process::Abort;

// Ends the test if the values differ, and prints both.
pub fn assert_same<A: Abort, T: PartialEq + Debug + Drop>(rt: &A, left: T, right: T) {
    assert_eq!(*rt; left, right);
}
