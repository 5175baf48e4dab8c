/// Which entry a command names.
#[derive(Clone, Copy, Debug)]
pub enum Selector {
    /// The entry at a position from 0 on.
    Position(u32),
    /// The entry with an id.
    Id(u32),
}
