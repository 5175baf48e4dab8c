// The command list that has begun, if one has.
ghost use Rattle.std.specs.Prelude.{◌≡◌, IfOk, OnOk};
ghost use Rattle.client_session.specs.Lists.{after_line, alone, begun, has_room, list_of, made_whole, with_command, IsList, IsWithinLimits};

use crate::{COMMAND_LIMIT, LIST_LIMIT};
use command_text::{ControlLine, Line, Lines, Request};
use std::alloc::{AllocError, Global};
use std::mem;

// Where a stream stands between two lines.
#[derive(Debug, Drop)]
pub(crate) enum Listing {
    // In no list.
    Outside,
    // In a list with these commands so far, and whether each of them is to be answered by `list_OK`.
    Inside(bool, Lines),
    // Behind a list that is too long: nothing more is taken.
    Overlong,
}

// The request of a line that stands in no list; a line that begins one makes none.
fn alone(
    alloc: Global,
    line: &[u8],
    control: Option<ControlLine>,
) -> Result<Option<Request>, AllocError>
    ensures { IfOk result (λ request. request ≡ alone line.now control) }
{
    match control {
        Some(ControlLine::ListBegin | ControlLine::OkListBegin) => Ok(None),
        Some(ControlLine::Noidle) => Ok(Some(Request::Noidle)),
        Some(ControlLine::ListEnd) | None => {
            Ok(Some(Request::Single(Line::from_bytes(alloc, line)?)))
        }
    }
}

// The list that a line begins.
fn begun(alloc: Global, control: Option<ControlLine>) -> Listing
    ensures { result ≡ begun control }
{
    match control {
        Some(ControlLine::ListBegin) => Listing::Inside(false, Lines::new(alloc)),
        Some(ControlLine::OkListBegin) => Listing::Inside(true, Lines::new(alloc)),
        Some(ControlLine::Noidle | ControlLine::ListEnd) | None => Listing::Outside,
    }
}

// A list with its commands.
fn list_of(separated: bool, lines: Lines) -> Request
    ensures { result ≡ list_of separated lines }
{
    if separated {
        Request::OkList(lines)
    } else {
        Request::List(lines)
    }
}

// Whether a list has room for one command more.
fn has_room(lines: &Lines, line: &[u8]) -> bool
    requires { IsList lines.now }
    ensures { result ≡ has_room lines.now line.now }
{
    lines.len() < COMMAND_LIMIT && lines.byte_len() + line.len() <= LIST_LIMIT
}

// The list with one command more, if it has room for it.
fn with_command(separated: bool, lines: Lines, line: &[u8]) -> Result<Listing, AllocError>
    requires { IsList lines }
    ensures listing { IfOk result (λ listing. listing ≡ with_command separated lines line.now) }
    ensures within { IfOk result IsWithinLimits }
{
    if !has_room(&lines, line) {
        return Ok(Listing::Overlong);
    }
    let mut lines = lines;
    lines.push(line)?;
    Ok(Listing::Inside(separated, lines))
}

impl Listing {
    // Takes the next line, and gives the request that it makes whole. An `Err` leaves a list that nobody may use any more.
    pub(crate) fn take(&mut self, alloc: Global, line: &[u8]) -> Result<Option<Request>, AllocError>
        requires { IsWithinLimits self.old }
        ensures request { IfOk result (λ request. request ≡ made_whole self.old line.now) }
        ensures after { OnOk result (self.new ≡ after_line self.old line.now) }
        ensures within { IsWithinLimits self.new }
    {
        let control = ControlLine::of_line(line);
        match mem::replace(self, Listing::Outside) {
            Listing::Outside => {
                *self = begun(alloc, control);
                alone(alloc, line, control)
            }
            Listing::Inside(separated, lines) => match control {
                Some(ControlLine::ListEnd) => Ok(Some(list_of(separated, lines))),
                _ => {
                    *self = with_command(separated, lines, line)?;
                    Ok(None)
                }
            },
            Listing::Overlong => {
                *self = Listing::Overlong;
                Ok(None)
            }
        }
    }
}
