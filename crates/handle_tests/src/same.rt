// What found values are compared by.
use std::fmt::Debug;
use std::process::Abort;

/// Two values that are to be the same. Each test that compared them itself would prove what is printed where they differ.
pub(crate) fn same<T: PartialEq + Debug + Drop>(rt: &impl Abort, found: T, wanted: T) {
    assert_eq!(rt; found, wanted);
}
