// The limits on open pictures.

/// How many pictures stay open at most.
pub const MAX_OPEN: usize = 16;
