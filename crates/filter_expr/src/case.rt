/// How a filter compares values.
#[derive(Clone, Copy, Debug, PartialEq, Eq)]
pub enum Case {
    /// By their bytes.
    Exact,
    /// By the bytes of what they fold to, under Unicode's default caseless folding.
    Folded,
}
