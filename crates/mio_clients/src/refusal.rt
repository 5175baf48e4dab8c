// Why a client is let go of, or none is taken.
ghost use Rattle.std.specs.Prelude.{◌≡◌};
ghost use Rattle.mio_clients.specs.Refusal.{number_of};

use thiserror::Error;

/// Why the loop let go of a client, or took none.
#[derive(Clone, Copy, Debug, PartialEq, Eq, Error)]
pub enum ClientsError {
    /// Memory was refused, before anything was done.
    #[error("out of memory")]
    NoMemory,
    /// `CLIENT_LIMIT` clients are connected, or the numbers of clients are spent. The new client was closed without a byte.
    #[error("too many clients")]
    TooManyClients,
    /// The stream of the client of this number has failed. The client is gone.
    #[error("the connection of client {0} failed")]
    NetFault(u64),
}

impl ClientsError {
    /// The number of the refusal: 43, 47 or 48.
    pub fn number(self) -> u8
        ensures { result ≡ number_of self }
    {
        match self {
            ClientsError::NoMemory => 43,
            ClientsError::TooManyClients => 47,
            ClientsError::NetFault(_) => 48,
        }
    }
}
