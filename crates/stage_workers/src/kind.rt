// Who makes an event.

/// Who makes an event.
#[derive(Clone, Copy, Debug, PartialEq, Eq)]
pub enum Kind {
    /// The clients, by connecting, by a request and by leaving.
    Clients,
    /// The player, by what it tells of its output.
    Player,
    /// The scan, by its batches and its end.
    Scan,
}
