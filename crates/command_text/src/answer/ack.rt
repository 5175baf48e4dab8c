//! The line of a refusal (MPD protocol reference 0.23, "Failure responses").
ghost use Rattle.std.specs.Prelude.{◌≡◌};
ghost use Rattle.command_text.specs.Answer.{Adds, ack, ack_start};
ghost use Rattle.command_text.specs.Refusals.{code_number, command_text_of, quoting, text_of, braces};

use crate::answer::pairs::append;
use crate::name::CommandName;
use crate::refusal::{AckCode, CommandRefusal, Refusal};
use itoa::Buffer;
use no_memory::NoMemory;

/// Adds the line `ACK [CODE@INDEX] {COMMAND} TEXT`, whose index counts the commands of a list from 0.
pub fn write_ack(out: &mut Vec<u8>, index: u32, refusal: &Refusal) -> Result<(), NoMemory>
    ensures { Adds (ack index refusal.now) result out.old out.new }
{
    append_start(out, refusal.code(), index, refusal.name())?;
    append_text(out, refusal)?;
    append(out, &[b"\n"])
}

/// Adds what stands before the text.
#[tactic(auto, unfolding(crate::specs::Answer::ack_start))]
fn append_start(
    out: &mut Vec<u8>,
    code: AckCode,
    index: u32,
    name: Option<CommandName>,
) -> Result<(), NoMemory>
    ensures { Adds (ack_start (code_number code) index (braces name)) result out.old out.new }
{
    let mut code_digits = Buffer::new();
    let mut index_digits = Buffer::new();
    append(
        out,
        &[
            b"ACK [",
            code_digits.format(code.number()).as_bytes(),
            b"@",
            index_digits.format(index).as_bytes(),
            b"] {",
            braces(name),
            b"} ",
        ],
    )
}

/// What the braces hold.
fn braces(name: Option<CommandName>) -> &'static [u8]
    ensures { result.now ≡ braces name }
{
    match name {
        Some(name) => name.text().as_bytes(),
        None => b"",
    }
}

/// Adds the text of a refusal.
fn append_text(out: &mut Vec<u8>, refusal: &Refusal) -> Result<(), NoMemory>
    ensures { Adds (text_of refusal.now) result out.old out.new }
{
    match refusal {
        Refusal::InvalidUtf8 => append(out, &[b"invalid UTF-8"]),
        Refusal::BadQuoting => append(out, &[b"bad quoting"]),
        Refusal::NoCommand => append(out, &[b"No command given"]),
        Refusal::UnknownCommand(word) => append_quoting(out, b"unknown command ", word.bytes()),
        Refusal::OutOfMemory => append(out, &[b"out of memory"]),
        Refusal::OfCommand(name, refusal) => append_command_text(out, *name, refusal),
    }
}

/// Adds the text of a command's refusal.
fn append_command_text(
    out: &mut Vec<u8>,
    name: CommandName,
    refusal: &CommandRefusal,
) -> Result<(), NoMemory>
    ensures { Adds (command_text_of name refusal.now) result out.old out.new }
{
    match refusal {
        CommandRefusal::NotAllowedInList => append(out, &[b"not allowed in a command list"]),
        CommandRefusal::NotInList => append(out, &[b"not in a command list"]),
        CommandRefusal::WrongCount => append_quoting(
            out,
            b"wrong number of arguments for ",
            name.text().as_bytes(),
        ),
        CommandRefusal::BadArgument(place) => {
            let mut digits = Buffer::new();
            append(out, &[b"bad argument ", digits.format(*place).as_bytes()])
        }
        CommandRefusal::BadFilter => append(out, &[b"bad filter"]),
        CommandRefusal::UnknownTag(tag) => append_quoting(out, b"unknown tag ", tag.bytes()),
        CommandRefusal::FilterTooDeep => append(out, &[b"filter too deep"]),
        CommandRefusal::BadIndex => append(out, &[b"Bad song index"]),
        CommandRefusal::BadPlaylistName => append(out, &[b"bad playlist name"]),
        CommandRefusal::BadStickerName => append(out, &[b"bad sticker name"]),
        CommandRefusal::NoSuchUri => append(out, &[b"No such file or directory"]),
        CommandRefusal::NoSuchSong => append(out, &[b"No such song"]),
        CommandRefusal::NoSuchPlaylist => append(out, &[b"No such playlist"]),
        CommandRefusal::NoSuchSticker => append(out, &[b"no such sticker"]),
        CommandRefusal::NotPlaying => append(out, &[b"Not playing"]),
        CommandRefusal::NoCurrentSong => append(out, &[b"No current song"]),
        CommandRefusal::PlaylistExists => append(out, &[b"Playlist already exists"]),
        CommandRefusal::AlreadyUpdating => append(out, &[b"already updating"]),
        CommandRefusal::UpdatesFull => append(out, &[b"Update queue is full"]),
        CommandRefusal::QueueFull => append(out, &[b"Queue is full"]),
        CommandRefusal::IdsSpent => append(out, &[b"Song ids are spent"]),
        CommandRefusal::PlaylistsFull => append(out, &[b"Too many playlists or entries"]),
        CommandRefusal::StickersFull => append(out, &[b"Too many stickers"]),
        CommandRefusal::RequestTooLarge => append(out, &[b"request too large"]),
        CommandRefusal::DiskFull => append(out, &[b"disk full"]),
        CommandRefusal::OutOfMemory => append(out, &[b"out of memory"]),
        CommandRefusal::Setup(refusal) => append(out, &[refusal.text().as_bytes()]),
        CommandRefusal::Tags(refusal) => append(out, &[refusal.text().as_bytes()]),
        CommandRefusal::Messages(refusal) => append(out, &[refusal.text().as_bytes()]),
    }
}

/// Adds a text, and another one between double quotes.
fn append_quoting(out: &mut Vec<u8>, before: &[u8], text: &[u8]) -> Result<(), NoMemory>
    ensures { Adds (quoting before.now text.now) result out.old out.new }
{
    append(out, &[before, b"\"", text, b"\""])
}
