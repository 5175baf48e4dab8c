// What a client does.
ghost use Rattle.std.specs.Prelude.{◌≡◌, ℕ, IfErr, IfOk};
ghost use Rattle.mio_clients.specs.Events.{asked_by_event, asker_of, AsksNothing};

use command_text::Request;
use daemon_core::PictureTold;

/// What a client did, gathered until it is served.
#[derive(Debug, Drop)]
pub enum ClientEvent {
    /// The client of this number has connected.
    Connect(u64),
    /// The client has sent a whole request.
    Request(u64, Request),
    /// The same of one that waits until a picture was read, its own or that of a request before it.
    Seeking(u64, Request),
    /// This was read of a picture for the client: it stands in front of the request that asks for it.
    Picture(u64, PictureTold),
    /// The client's connection has ended.
    Gone(u64),
}

impl ClientEvent {
    /// The client that waits for an answer of it, and until then waits in `idle`, if it has asked for that.
    pub(crate) fn asker(&self) -> Option<u64>
        ensures { result ≡ asker_of self.now }
    {
        match self {
            ClientEvent::Request(_, Request::Noidle) => None,
            ClientEvent::Request(client, _) => Some(*client),
            ClientEvent::Seeking(_, Request::Noidle) => None,
            ClientEvent::Seeking(client, _) => Some(*client),
            ClientEvent::Connect(_) | ClientEvent::Picture(..) | ClientEvent::Gone(_) => None,
        }
    }

    /// The request that it is, and its client; or the event where it is none.
    pub(crate) fn asked(self) -> Result<(u64, Request), ClientEvent>
        ensures ok { IfOk result (λ r. (c : ℕ) → asked_by_event c (ClientEvent.Request r.0 r.1) ≡ asked_by_event c self) }
        ensures err { IfErr result (λ e. (e ≡ self) × AsksNothing e) }
    {
        match self {
            ClientEvent::Request(client, request) => Ok((client, request)),
            ClientEvent::Seeking(client, request) => Ok((client, request)),
            ClientEvent::Connect(client) => Err(ClientEvent::Connect(client)),
            ClientEvent::Picture(client, told) => Err(ClientEvent::Picture(client, told)),
            ClientEvent::Gone(client) => Err(ClientEvent::Gone(client)),
        }
    }
}
