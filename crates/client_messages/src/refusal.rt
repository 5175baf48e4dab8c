// Why calls of this crate are refused.
ghost use Rattle.std.specs.Prelude.{◌≡◌};
ghost use Rattle.client_messages.specs.Refusal.{number_of};
ghost use Rattle.client_messages.specs.declared.refusal.MessagesError.TheVariants.{NoMemory};

use std::alloc::{AllocError, AllocFailed};
use thiserror::Error;

/// Why a call of `ClientMessages` was refused. What it was called on stays as it was.
#[derive(Clone, Copy, Debug, PartialEq, Eq, Error)]
pub enum MessagesError {
    /// No channel can have the name.
    #[error("bad channel name")]
    BadChannelName,
    /// The client has as many channels as it may have.
    #[error("too many channels")]
    TooManyChannels,
    /// The client has the channel already.
    #[error("already subscribed")]
    AlreadySubscribed,
    /// The client hasn't the channel.
    #[error("not subscribed")]
    NotSubscribed,
    /// No client has the channel.
    #[error("nobody is subscribed")]
    NobodySubscribed,
    /// Clients have the channel, but what they haven't read leaves no room for the message, with any of them.
    #[error("nobody has room for the message")]
    NobodyHasRoom,
    #[error("out of memory")]
    NoMemory,
}

impl MessagesError {
    /// The number of the refusal: 100 to 105, or 7.
    pub fn number(self) -> u8
        ensures { result ≡ number_of self }
    {
        match self {
            MessagesError::BadChannelName => 100,
            MessagesError::TooManyChannels => 101,
            MessagesError::AlreadySubscribed => 102,
            MessagesError::NotSubscribed => 103,
            MessagesError::NobodySubscribed => 104,
            MessagesError::NobodyHasRoom => 105,
            MessagesError::NoMemory => 7,
        }
    }
}

impl From<AllocError> for MessagesError {
    ghost from_gives = { λ _ e. e ≡ NoMemory };

    fn from(_error: AllocError) -> Self {
        MessagesError::NoMemory
    }
}

impl<T: Drop> From<AllocFailed<T>> for MessagesError {
    ghost from_gives = { λ _ e. e ≡ NoMemory };

    fn from(_error: AllocFailed<T>) -> Self {
        MessagesError::NoMemory
    }
}
