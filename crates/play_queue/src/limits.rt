/// How many entries the queue may have.
pub const MAX_ENTRIES: usize = 65_536;

/// The greatest id of an entry. The next id is one above it once all ids are spent.
pub const MAX_ID: u32 = 2_147_483_647;

/// The greatest version of the queue. The change after it sets the version and all stamps to 1.
pub const MAX_VERSION: u32 = 2_147_483_647;
