/// How an expression compares.
#[derive(Clone, Copy, Debug)]
pub(crate) enum Operator {
    Equal,
    Unequal,
    Contains,
    /// The other way round.
    Lacks,
    Begins,
    /// By a pattern.
    Like,
    Unlike,
}
