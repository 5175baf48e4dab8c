// One client's side of a stream: what came, and what is to be sent.
ghost use Rattle.std.specs.Prelude.{◌≡◌, ◌+◌, ◌<◌, ◌≤◌, ◌↔◌, [], ◌++◌, length, take, drop, None, IfSome};
ghost use Rattle.std.specs.Prelude.{IfOk, IfErr, IsErrOf, OnOk, OnErr, ◌⊎◌};
ghost use Rattle.std.specs.Io.KnownBytes.{Appends, Keeps, append_known};
ghost use Rattle.client_session.specs.Requests.{brought, fault_at, left_by, left_of, requests_of, Continues, Meets, RefusesExactly};
ghost use Rattle.client_session.specs.Session.{fresh, closed_by, output_limit, IsHeld};

use crate::OUTPUT_LIMIT;
use crate::cutting::cut_requests;
use crate::listing::Listing;
use crate::output::drop_sent;
use crate::refusal::SessionError;
use crate::requests::Requests;
use bytes::BytesMut;
use std::alloc::Global;
use std::io::{self, Write};
use std::marker::Model;

/// One client's side of a stream: what has come of its next request, and what is still to be sent to it.
///
/// A line ends at a newline (MPD protocol reference 0.23, "Protocol overview"). A line is a request, and so are the lines between
/// `command_list_begin` or `command_list_ok_begin` and `command_list_end` ("Command lists"); every line between them belongs to the list.
/// A stream that ends inside a list makes no request of it.
///
/// A refusal of `feed` or `queue` closes the session: it lets go of all that it holds, takes and sends nothing more,
/// and answers the same refusal from then on.
#[derive(Debug, Drop)]
pub struct Session {
    listing: Listing,
    input: BytesMut,
    output: BytesMut,
    closed: Option<SessionError>,
}

impl Model for Session {
    ghost use Rattle.client_session.specs.Requests.{unread};
    ghost use Rattle.client_session.specs.Session.{SessionState, IsSession};

    ghost Value = { SessionState };

    ghost view = { λ s. record { left = unread s.listing s.input.items; queued = s.output.items; closed = s.closed } };

    ghost invariant = { λ s. IsSession (record { left = unread s.listing s.input.items; queued = s.output.items; closed = s.closed }) };
}

impl Session {
    /// A session to which nothing has come. It takes no memory yet.
    pub fn new(alloc: Global) -> Self
        ensures fresh { result ≡ fresh }
        ensures no_requests { requests_of [] ≡ [] }
        ensures nothing_left { left_of [] ≡ result.left }
    {
        Session {
            listing: Listing::Outside,
            input: BytesMut::new(alloc),
            output: BytesMut::new(alloc),
            closed: None,
        }
    }

    /// How many bytes are still to be sent.
    pub fn queued_len(&self) -> usize
        ensures { result ≡ length self.now.queued }
    {
        self.output.len()
    }

    /// Takes the next piece of the stream, and gives the requests that are whole now, without their newlines.
    ///
    /// The requests before a line of more than `LINE_LIMIT` bytes, or before a command that makes its list longer than
    /// `COMMAND_LIMIT` commands or `LIST_LIMIT` bytes, are given first; the next `feed`, for which an empty piece will do, is
    /// refused with `LineTooLong` or `ListTooLong`. It doesn't wait for the newline of a line that is too long, nor for the end
    /// of such a list. `NoMemory` drops what the piece brought.
    pub fn feed(&mut self, alloc: Global, piece: &[u8]) -> Result<Requests, SessionError>
        ensures open { OnOk result (self.old.closed ≡ None) }
        ensures requests { IfOk result (λ requests. requests ≡ brought self.old.left piece.now) }
        ensures left { OnOk result (self.new ≡ record self.old { left = left_by self.old.left piece.now }) }

        // With what came before, it brings the requests of the stream so far.
        ensures stream { IfOk result (λ requests. Continues self.old.left piece.now requests self.new.left) }
        ensures held { OnOk result (IsHeld self.new.left piece.now) }

        ensures closed { IfSome self.old.closed (λ refusal. result ≡ Err refusal) }
        ensures fault { self.old.closed ≡ None → Meets (fault_at self.old.left piece.now) result }
        // A piece that ends no line is refused with its fault, and with nothing else.
        ensures exact { self.old.closed ≡ None → RefusesExactly (fault_at self.old.left piece.now) piece.now result }
        ensures err { IfErr result (λ refusal. self.new ≡ closed_by refusal) }
    {
        if let Some(refusal) = self.closed {
            return Err(refusal);
        }
        match cut_requests(alloc, &mut self.listing, &mut self.input, piece) {
            Ok(requests) => Ok(requests),
            Err(refusal) => Err(self.close(refusal)),
        }
    }

    /// Queues bytes to be sent. More than `OUTPUT_LIMIT` bytes in all are refused with `OutputTooLong`.
    pub fn queue(&mut self, bytes: &[u8]) -> Result<(), SessionError>
        ensures open { OnOk result (self.old.closed ≡ None) }
        ensures ok { OnOk result (self.new ≡ record self.old { queued = self.old.queued ++ bytes.now }) }

        ensures closed { IfSome self.old.closed (λ refusal. result ≡ Err refusal) }
        ensures too_long { self.old.closed ≡ None
            → IsErrOf result SessionError.OutputTooLong ↔ (output_limit < length self.old.queued + length bytes.now) }
        ensures refusals { self.old.closed ≡ None
            → IfErr result (λ e. (e ≡ SessionError.OutputTooLong) ⊎ (e ≡ SessionError.NoMemory)) }
        ensures err { IfErr result (λ refusal. self.new ≡ closed_by refusal) }
    {
        if let Some(refusal) = self.closed {
            return Err(refusal);
        }
        if self.output.len() + bytes.len() > OUTPUT_LIMIT {
            return Err(self.close(SessionError::OutputTooLong));
        }
        match self.output.extend_from_slice(bytes) {
            Ok(()) => Ok(()),
            Err(_) => Err(self.close(SessionError::NoMemory)),
        }
    }

    /// Sends what the stream takes of the queued bytes by one write, and gives how many bytes it took. It makes no
    /// write where nothing is queued, as in a closed session.
    ///
    /// The stream's error, `WouldBlock` too, leaves the session open, and all that was queued stays so.
    pub fn send_some<W: Write>(&mut self, stream: &mut W) -> io::Result<usize>
        ensures in_order { Keeps (append_known (W.contents stream.old) self.old.queued)
            (append_known (W.contents stream.new) self.new.queued) }
        ensures sent { IfOk result (λ n. (n ≤ length self.old.queued)
            × (self.new ≡ record self.old { queued = drop n self.old.queued })
            × Appends (W.contents stream.old) (W.contents stream.new) (take n self.old.queued)) }
        ensures nothing { self.old.queued ≡ [] → result ≡ Ok 0 }
        ensures err { OnErr result ((self.new ≡ self.old) × Keeps (W.contents stream.old) (W.contents stream.new)) }
    {
        if self.output.is_empty() {
            return Ok(0);
        }
        let sent = stream.write(self.output.as_slice())?;
        drop_sent(&mut self.output, sent);
        Ok(sent)
    }

    // Closes the session, and gives the refusal.
    fn close(&mut self, refusal: SessionError) -> SessionError
        ensures state { self.new ≡ closed_by refusal }
        ensures same { result ≡ refusal }
    {
        let alloc = *self.input.allocator();
        self.listing = Listing::Outside;
        self.input = BytesMut::new(alloc);
        self.output = BytesMut::new(alloc);
        self.closed = Some(refusal);
        refusal
    }
}
