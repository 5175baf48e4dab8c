// What tests assert. The prover takes an assertion apart for seconds, here once for all.
use std::fmt::Debug;
use std::process::Abort;

/// These are equal.
pub fn equal<T: Copy + PartialEq + Debug>(rt: &impl Abort, left: T, right: T) {
    assert_eq!(rt; left, right);
}

/// The same of bytes.
pub fn same_bytes(rt: &impl Abort, left: &[u8], right: &[u8]) {
    equal(rt, left, right);
}

/// The same of texts.
pub fn same_text(rt: &impl Abort, left: &str, right: &str) {
    equal(rt, left, right);
}
