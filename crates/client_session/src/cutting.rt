// Where the lines of a stream end, and what requests they make.
ghost use Rattle.std.specs.Prelude.{◌≡◌, ◌+◌, ◌-◌, [], ◌++◌, take, option_to_list, MatchOption, IfOk, OnOk};
ghost use Rattle.client_session.specs.Lines.{line_limit, HasNoNewline, IsUnended, IsLineEnd};
ghost use Rattle.client_session.specs.Lists.{after_line, made_whole, IsWithinLimits};
ghost use Rattle.client_session.specs.Requests.{brought, fault_at, fault_behind, left_by, unread, Meets, RefusesExactly};

use crate::LINE_LIMIT;
use crate::listing::Listing;
use crate::refusal::SessionError;
use crate::requests::Requests;
use bytes::BytesMut;
use memchr::memchr;
use std::alloc::{AllocError, Global};

const NEWLINE: u8 = b'\n';

// Where the next line ends in `rest`, of which `pending` bytes came before. It is not looked for past the limit.
fn line_end(pending: usize, rest: &[u8]) -> Option<usize>
    ensures { MatchOption result
        (HasNoNewline (take (line_limit + 1 - pending) rest.now))
        (IsLineEnd pending rest.now) }
{
    let room = (LINE_LIMIT + 1).saturating_sub(pending).min(rest.len());
    memchr(NEWLINE, &rest[..room])
}

// Takes the line that ends where `last` does and begins with what was pending of it, and adds the request that it makes whole.
fn take_line(
    alloc: Global,
    listing: &mut Listing,
    pending: &mut BytesMut,
    last: &[u8],
    requests: &mut Requests,
) -> Result<(), AllocError>
    requires { IsWithinLimits listing.old }
    ensures requests { OnOk result (requests.new ≡ requests.old
        ++ option_to_list (made_whole listing.old (pending.old.items ++ last.now))) }
    ensures listing { OnOk result (listing.new ≡ after_line listing.old (pending.old.items ++ last.now)) }
    ensures taken { OnOk result (pending.new.items ≡ []) }
    ensures within { IsWithinLimits listing.new }
    ensures unended { IsUnended pending.old.items → IsUnended pending.new.items }
{
    let request = if pending.is_empty() {
        listing.take(alloc, last)
    } else {
        pending.extend_from_slice(last)?;
        listing.take(alloc, pending.as_slice())
    };
    pending.clear();
    match request? {
        Some(request) => requests.push(request)?,
        None => {}
    }
    Ok(())
}

// Why nothing more is taken, behind a line that has not ended yet.
fn fault_behind(listing: &Listing, length: usize) -> Option<SessionError>
    ensures { result ≡ fault_behind listing.now length }
{
    match listing {
        Listing::Overlong => Some(SessionError::ListTooLong),
        Listing::Outside | Listing::Inside(_, _) => {
            if length > LINE_LIMIT {
                Some(SessionError::LineTooLong)
            } else {
                None
            }
        }
    }
}

// The requests of what was pending and the piece; what is no whole request stays pending.
pub(crate) fn cut_requests(
    alloc: Global,
    listing: &mut Listing,
    pending: &mut BytesMut,
    piece: &[u8],
) -> Result<Requests, SessionError>
    requires unended { IsUnended pending.old.items }
    requires within { IsWithinLimits listing.old }
    ensures requests { IfOk result (λ requests. requests ≡ brought (unread listing.old pending.old.items) piece.now) }
    ensures left { OnOk result (unread listing.new pending.new.items ≡ left_by (unread listing.old pending.old.items) piece.now) }
    ensures unended { IsUnended pending.new.items }
    ensures within { IsWithinLimits listing.new }
    ensures fault { Meets (fault_at (unread listing.old pending.old.items) piece.now) result }
    ensures exact { RefusesExactly (fault_at (unread listing.old pending.old.items) piece.now) piece.now result }
{
    let mut requests = Requests::new(alloc);
    let mut rest = piece;
    while let Some(end) = line_end(pending.len(), rest) {
        take_line(alloc, listing, pending, &rest[..end], &mut requests)?;
        rest = &rest[end + 1..];
    }
    if requests.is_empty() {
        match fault_behind(listing, pending.len() + rest.len()) {
            Some(fault) => return Err(fault),
            None => {}
        }
    }
    pending.extend_from_slice(rest)?;
    Ok(requests)
}
