// What the tests compare by, and the URIs that they take. An assertion of two values costs the prover a second or two in each place: it
// stands here alone.
use song_db::Uri;
use std::alloc::Global;
use std::fmt::Debug;
use std::process::Abort;
use std::test::Fail;

/// These are equal.
pub fn equal<T: Copy + PartialEq + Debug>(rt: &impl Abort, left: T, right: T) {
    assert_eq!(rt; left, right);
}

/// The same of texts.
pub fn same_text(rt: &impl Abort, left: &str, right: &str) {
    equal(rt, left, right);
}

/// The same of bytes.
pub fn same_bytes(rt: &impl Abort, left: &[u8], right: &[u8]) {
    equal(rt, left, right);
}

/// The same of samples.
pub fn same_samples(rt: &impl Abort, left: &[i16], right: &[i16]) {
    equal(rt, left, right);
}

/// The same of words or ids.
pub fn same_numbers(rt: &impl Abort, left: &[u32], right: &[u32]) {
    equal(rt, left, right);
}

pub fn uri(alloc: Global, text: &str) -> Result<Uri, Fail> {
    Ok(Uri::read(alloc, text)?.ok_or("no URI")?)
}
