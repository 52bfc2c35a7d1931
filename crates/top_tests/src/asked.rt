// What tests ask of calls. A test that asked it itself would prove what becomes of its values where it is not so.
use std::fmt::Debug;
use std::process::Abort;
use top_calls::Outcome;

/// That two values are the same.
pub(crate) fn same<T: PartialEq + Debug + Drop>(rt: &impl Abort, found: T, wanted: T) {
    assert_eq!(rt; found, wanted);
}

/// That a call ended with this status and this output.
pub(crate) fn gave(rt: &impl Abort, outcome: (u8, &[u8]), status: u8, output: &[u8]) {
    same(rt, outcome, (status, output));
}

/// What a call ends with whose disk failed.
pub(crate) const FAULT: &[u8] = b"! disk fault\n";
