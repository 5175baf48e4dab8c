/// Which song is played next.
#[derive(Clone, Copy, Debug)]
pub struct Choice {
    /// The id of its entry; none where the player stops.
    pub id: Option<u32>,
    /// The order number of the random round that begins with it.
    pub order: Option<u64>,
}
