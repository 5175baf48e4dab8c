// Whether a request asks for a picture.
ghost use Rattle.std.specs.Prelude.{◌≡◌, false, None, Ok};
ghost use Rattle.std.specs.List.{list_any};
ghost use Rattle.mio_clients.specs.Seeking.{first_word_on, is_before_word, line_may_ask, may_ask};

use command_text::{Command, LinesRef, PicturesCommand, Place, ReadError, Request, read_words};
use covers::{PictureAsk, PictureKind};
use no_memory::NoMemory;
use profile::Profile;
use std::alloc::Global;

// Whether a byte may stand in front of the first word of a line.
fn is_before_word(byte: u8) -> bool
    ensures { result ≡ is_before_word byte }
{
    byte == b' ' || byte == b'\t' || byte == b'"'
}

// A line from its first word on.
fn first_word_on(line: &[u8]) -> &[u8]
    ensures { result.now ≡ first_word_on line.now }
{
    let mut rest = line;
    while let Some((first, after)) = rest.split_first() {
        if !is_before_word(*first) {
            return rest;
        }
        rest = after;
    }
    rest
}

// Whether a line may ask for a picture, told without memory: its first word begins so.
fn line_may_ask(line: &[u8]) -> bool
    ensures { result ≡ line_may_ask line.now }
{
    let rest = first_word_on(line);
    rest.starts_with(b"albumart") || rest.starts_with(b"readpicture")
}

// Whether any of these lines may.
fn any_may_ask(lines: LinesRef<'_>) -> bool
    ensures { result ≡ list_any line_may_ask lines.entry }
{
    let mut rest = lines;
    while let Some((line, after)) = rest.split_first() {
        if line_may_ask(line) {
            return true;
        }
        rest = after;
    }
    false
}

/// Whether a request may ask for a picture.
pub(crate) fn may_ask(request: &Request) -> bool
    ensures { result ≡ may_ask request.now }
{
    match request {
        Request::Single(line) => line_may_ask(line.bytes()),
        Request::List(lines) | Request::OkList(lines) => any_may_ask(lines.as_ref()),
        Request::Noidle => false,
    }
}

// What a line asks of a picture, if it does.
fn asked_by_line(alloc: Global, place: Place, line: &[u8]) -> Result<Option<PictureAsk>, NoMemory>
    ensures { line_may_ask line.now ≡ false → result ≡ Ok None }
{
    if !line_may_ask(line) {
        return Ok(None);
    }
    let words = match read_words(alloc, line) {
        Ok(words) => words,
        Err(ReadError::NoMemory) => return Err(NoMemory),
        Err(ReadError::Refused(_)) => return Ok(None),
    };
    let command = match Command::read(alloc, Profile::Wide, place, words.as_slice()) {
        Ok(named) => named.command,
        Err(ReadError::NoMemory) => return Err(NoMemory),
        Err(ReadError::Refused(_)) => return Ok(None),
    };
    let (kind, uri, offset) = match command {
        Command::Pictures(PicturesCommand::AlbumArt(uri, offset)) => {
            (PictureKind::Album, uri, offset)
        }
        Command::Pictures(PicturesCommand::ReadPicture(uri, offset)) => {
            (PictureKind::Inside, uri, offset)
        }
        _ => return Ok(None),
    };
    let uri = String::from_str(alloc, uri.as_str())?;
    Ok(Some(PictureAsk {
        kind,
        uri,
        offset,
        limit: 0,
    }))
}

// What the first of these lines that may ask for a picture asks. Where it asks for none it is refused, and none behind it is run.
fn asked_by_lines(alloc: Global, lines: LinesRef<'_>) -> Result<Option<PictureAsk>, NoMemory>
    ensures { list_any line_may_ask lines.entry ≡ false → result ≡ Ok None }
{
    let mut rest = lines;
    while let Some((line, after)) = rest.split_first() {
        if line_may_ask(line) {
            return asked_by_line(alloc, Place::InList, line);
        }
        rest = after;
    }
    Ok(None)
}

/// What a request asks of a picture, if it does: of a list its first line that may ask. The limit is still to be set.
pub fn picture_asked(alloc: Global, request: &Request) -> Result<Option<PictureAsk>, NoMemory>
    ensures { may_ask request.now ≡ false → result ≡ Ok None }
{
    match request {
        Request::Single(line) => asked_by_line(alloc, Place::Alone, line.bytes()),
        Request::List(lines) | Request::OkList(lines) => asked_by_lines(alloc, lines.as_ref()),
        Request::Noidle => Ok(None),
    }
}
