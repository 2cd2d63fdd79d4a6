// The one comparison of the tests: a call of it is cheap to prove, and an assertion written out is not.
use std::fmt::Debug;
use std::process::Abort;

// Stops the test unless the two are equal, and says of what.
pub fn same<T: PartialEq + Debug>(rt: &impl Abort, found: &T, wanted: &T, what: &str) {
    assert_eq!(rt; *found, *wanted, "{what}");
}
