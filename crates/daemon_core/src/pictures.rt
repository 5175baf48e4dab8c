// The pictures that were read for clients: of each the one that was read last, until its next request.
ghost use Rattle.std.specs.Prelude.{◌≡◌, ◌<◌, [], Err, option_copied, take, OnOk, vec_len, vec_capacity};
ghost use Rattle.command_text.specs.declared.refusal.CommandRefusal.TheVariants.{Setup};
ghost use Rattle.machine_core.specs.Work.{HasRoom, command_room};
ghost use Rattle.daemon_core.specs.Pictures.{album_lines, answer_for, chunk_lines, inside_lines, is_told_of, pictured, shown};
ghost use Rattle.daemon_core.specs.Pictures.{told_for, unpictured, RunsShowing};
ghost use Rattle.daemon_core.specs.Talking.{TellsTalk};

use crate::picture::{ClientPicture, PictureTold};
use command_text::{CommandRefusal, PicturesCommand, SetupRefusal, write_picture};
use covers::{PictureAnswer, PictureChunk, PictureKind};
use idle_masks::ClientId;
use machine_core::{Failure, Work};
use no_memory::NoMemory;
use song_db::SongDb;
use std::alloc::Global;

#[derive(Drop)]
pub struct Pictures {
    pub(crate) list: Vec<ClientPicture>,
}

impl Pictures {
    // None was read.
    pub(crate) fn new(alloc: Global) -> Self
        ensures { result.list.items ≡ [] }
    {
        Pictures {
            list: Vec::new(alloc),
        }
    }

    // Takes what is missing to keep one more.
    pub(crate) fn make_room(&mut self) -> Result<(), NoMemory>
        ensures same { self.new.list.items ≡ self.old.list.items }
        ensures ok { OnOk result (vec_len self.new.list < vec_capacity self.new.list) }
    {
        self.list.reserve(1)?;
        Ok(())
    }

    // What was read last for a client.
    pub(crate) fn told_for(&self, client: ClientId) -> Option<&PictureTold>
        ensures { option_copied result ≡ told_for self.now.list.items client }
    {
        for picture in &self.list {
            if picture.client == client {
                return Some(&picture.told);
            }
        }
        None
    }

    // A client is told of it no more.
    pub(crate) fn forget(&mut self, client: ClientId)
        ensures items { self.new.list.items ≡ unpictured self.old.list.items client }
        ensures room { vec_len self.old.list < vec_capacity self.old.list → vec_len self.new.list < vec_capacity self.new.list }
    {
        self.list.retain(|picture| picture.client != client);
    }

    // No client is.
    pub(crate) fn clear(&mut self)
        ensures { self.new.list.items ≡ [] }
    {
        self.list.clear();
    }

    // This was read for a client.
    pub(crate) fn set(&mut self, client: ClientId, told: PictureTold)
        requires { vec_len self.old.list < vec_capacity self.old.list }
        ensures { self.new.list.items ≡ pictured self.old.list.items client told }
    {
        self.forget(client);
        self.list.push_reserved(ClientPicture { client, told });
    }
}

// Whether it was asked for just this.
fn is_told_of(kind: PictureKind, uri: &str, offset: u32, told: &PictureTold) -> bool
    ensures { result ≡ is_told_of kind uri.now offset told.now }
{
    told.ask.kind.is(kind) && told.ask.uri.as_str() == uri && told.ask.offset == offset
}

// The answer that was read for this question.
fn answer_for<'p>(
    kind: PictureKind,
    uri: &str,
    offset: u32,
    told: Option<&'p PictureTold>,
) -> Option<&'p PictureAnswer>
    ensures { option_copied result ≡ answer_for kind uri.now offset (option_copied told.entry) }
{
    match told {
        Some(told) if is_told_of(kind, uri, offset, told) => Some(&told.answer),
        _ => None,
    }
}

// Of the bytes of a chunk those that a client may be told.
fn shown_bytes(limit: u32, bytes: &[u8]) -> &[u8]
    ensures { result.now ≡ take limit bytes.now }
{
    if bytes.len() <= limit as usize {
        return bytes;
    }
    &bytes[..limit as usize]
}

// Tells a chunk, as many of its bytes as the client may be told.
fn tell_chunk(
    limit: u32,
    mime: Option<&str>,
    chunk: &PictureChunk,
    work: &mut Work,
) -> Result<(), Failure>
    ensures { TellsTalk (chunk_lines limit (option_copied mime.entry) chunk.now) work.old work.new result }
{
    if work.is_long() {
        return work.keep_none();
    }
    let bytes = shown_bytes(limit, chunk.bytes.as_slice());
    let mark = work.text.len();
    let written = write_picture(&mut work.text, chunk.size, mime, bytes);
    work.keep(mark, written)
}

fn refuse(refusal: SetupRefusal) -> Result<(), Failure>
    ensures { result ≡ Err (Failure.Refused (Setup refusal)) }
{
    Err(Failure::Refused(CommandRefusal::Setup(refusal)))
}

fn tell_album(limit: u32, answer: &PictureAnswer, work: &mut Work) -> Result<(), Failure>
    requires { HasRoom command_room work.old }
    ensures { RunsShowing (album_lines limit answer.now) work.old work.new result }
{
    match answer {
        PictureAnswer::NoPicture => refuse(SetupRefusal::NoPicture),
        PictureAnswer::Unreadable => refuse(SetupRefusal::PictureUnread),
        PictureAnswer::PastEnd => refuse(SetupRefusal::OffsetTooLarge),
        PictureAnswer::Chunk(chunk) => tell_chunk(limit, None, chunk, work),
    }
}

fn tell_inside(limit: u32, answer: &PictureAnswer, work: &mut Work) -> Result<(), Failure>
    requires { HasRoom command_room work.old }
    ensures { RunsShowing (inside_lines limit answer.now) work.old work.new result }
{
    match answer {
        PictureAnswer::NoPicture => Ok(()),
        PictureAnswer::Unreadable => refuse(SetupRefusal::PictureUnread),
        PictureAnswer::PastEnd => refuse(SetupRefusal::BadOffset),
        PictureAnswer::Chunk(chunk) => tell_chunk(limit, Some(chunk.mime.as_str()), chunk, work),
    }
}

// Performs a command of pictures, for a client that may be told so many bytes, and for which this was read.
#[tactic(auto, unfolding(crate::specs::Pictures::shown))]
pub(crate) fn show(
    limit: u32,
    told: Option<&PictureTold>,
    songs: &SongDb,
    command: PicturesCommand<'_>,
    work: &mut Work,
) -> Result<(), Failure>
    requires { HasRoom command_room work.old }
    ensures { RunsShowing (shown limit (option_copied told.entry) songs.now command.entry) work.old work.new result }
{
    match command {
        PicturesCommand::AlbumArt(uri, offset) => {
            match answer_for(PictureKind::Album, uri.as_str(), offset, told) {
                Some(answer) => tell_album(limit, answer, work),
                None => refuse(SetupRefusal::OnePicture),
            }
        }
        PicturesCommand::ReadPicture(uri, offset) => {
            let uri = uri.as_str();
            if songs.get(uri).is_err() {
                return Err(Failure::Refused(CommandRefusal::NoSuchSong));
            }
            match answer_for(PictureKind::Inside, uri, offset, told) {
                Some(answer) => tell_inside(limit, answer, work),
                None => refuse(SetupRefusal::OnePicture),
            }
        }
    }
}
