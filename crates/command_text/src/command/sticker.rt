// Reads the forms of `sticker`.
ghost use Rattle.std.specs.Prelude.{◌≡◌};
ghost use Rattle.command_text.specs.Stickers.{song, song_uri, song_sticker, get_of, set_of, delete_of, list_of, bound_of, find_of, form_of};
ghost use Rattle.command_text.specs.Stickers.{sticker_of, stickers_of};

use crate::argument::{argument, text};
use crate::named::{sticker_name, sticker_value};
use crate::refusal::CommandRefusal;
use crate::text::Text;
use crate::topic::StickersName;
use filter_expr::LineWord;

/// A form of `sticker`, each of a URI, which may be any text. Each name is one that a sticker may have.
#[derive(Debug, Drop)]
pub enum StickersCommand<'w> {
    /// Deletes the sticker of a name, or all of the song.
    Delete(Text<'w>, Option<Text<'w>>),
    /// The songs at and under a place that have the sticker.
    Find(Text<'w>, Text<'w>, ValueBound<'w>),
    Get(Text<'w>, Text<'w>),
    /// All stickers of the song.
    List(Text<'w>),
    /// A value of at most 4,096 bytes.
    Set(Text<'w>, Text<'w>, Text<'w>),
}

/// Which values `sticker find` takes, by their bytes.
#[derive(Debug, Drop)]
pub enum ValueBound<'w> {
    /// Any value.
    Any,
    /// This value alone.
    Equal(Text<'w>),
    /// The values below this one.
    Less(Text<'w>),
    /// The values above this one.
    Greater(Text<'w>),
}

/// The command of this name with these arguments.
pub(crate) fn read<'w>(
    name: StickersName,
    words: &'w [LineWord<'_>],
) -> Result<StickersCommand<'w>, CommandRefusal>
    ensures { result ≡ stickers_of name words.now }
{
    match name {
        StickersName::Sticker => sticker(words),
    }
}

/// The form that the first argument names, with those behind it: two to five, and then as many as the form has.
fn sticker<'w>(words: &'w [LineWord<'_>]) -> Result<StickersCommand<'w>, CommandRefusal>
    ensures { result ≡ sticker_of words.now }
{
    match words {
        [] => Err(CommandRefusal::WrongCount),
        [form, words @ ..] => {
            if 2 <= words.len() && words.len() <= 5 {
                of_form(form.bytes(), words)
            } else {
                Err(CommandRefusal::WrongCount)
            }
        }
    }
}

#[tactic(auto, unfolding(crate::specs::Stickers::form_of))]
fn of_form<'w>(
    form: &[u8],
    words: &'w [LineWord<'_>],
) -> Result<StickersCommand<'w>, CommandRefusal>
    ensures { result ≡ form_of form.now words.now }
{
    if form == b"get".as_slice() {
        get(words)
    } else if form == b"set".as_slice() {
        set(words)
    } else if form == b"delete".as_slice() {
        delete(words)
    } else if form == b"list".as_slice() {
        list(words)
    } else if form == b"find".as_slice() {
        find(words)
    } else {
        Err(CommandRefusal::BadArgument(1))
    }
}

/// The type, of which there is one.
#[tactic(auto, unfolding(crate::specs::Stickers::song))]
fn song(word: &[u8]) -> Result<(), CommandRefusal>
    ensures { result ≡ song word.now }
{
    if word == b"song".as_slice() {
        Ok(())
    } else {
        Err(CommandRefusal::BadArgument(2))
    }
}

/// `song URI`.
#[tactic(auto, unfolding(crate::specs::Stickers::song_uri))]
fn song_uri<'w>(kind: &[u8], uri: &'w [u8]) -> Result<Text<'w>, CommandRefusal>
    ensures { result ≡ song_uri kind.now uri.now }
{
    song(kind)?;
    argument(3, text(uri))
}

/// `song URI NAME`.
#[tactic(auto, unfolding(crate::specs::Stickers::song_sticker))]
fn song_sticker<'w>(
    kind: &[u8],
    uri: &'w [u8],
    name: &'w [u8],
) -> Result<(Text<'w>, Text<'w>), CommandRefusal>
    ensures { result ≡ song_sticker kind.now uri.now name.now }
{
    let song = song_uri(kind, uri)?;
    Ok((song, sticker_name(name)?))
}

#[tactic(auto, unfolding(crate::specs::Stickers::get_of))]
fn get<'w>(words: &'w [LineWord<'_>]) -> Result<StickersCommand<'w>, CommandRefusal>
    ensures { result ≡ get_of words.now }
{
    match words {
        [kind, uri, name] => {
            let (song, sticker) = song_sticker(kind.bytes(), uri.bytes(), name.bytes())?;
            Ok(StickersCommand::Get(song, sticker))
        }
        _ => Err(CommandRefusal::WrongCount),
    }
}

#[tactic(auto, unfolding(crate::specs::Stickers::set_of))]
fn set<'w>(words: &'w [LineWord<'_>]) -> Result<StickersCommand<'w>, CommandRefusal>
    ensures { result ≡ set_of words.now }
{
    match words {
        [kind, uri, name, value] => {
            let (song, sticker) = song_sticker(kind.bytes(), uri.bytes(), name.bytes())?;
            let value = argument(5, sticker_value(value.bytes()))?;
            Ok(StickersCommand::Set(song, sticker, value))
        }
        _ => Err(CommandRefusal::WrongCount),
    }
}

#[tactic(auto, unfolding(crate::specs::Stickers::delete_of))]
fn delete<'w>(words: &'w [LineWord<'_>]) -> Result<StickersCommand<'w>, CommandRefusal>
    ensures { result ≡ delete_of words.now }
{
    match words {
        [kind, uri] => Ok(StickersCommand::Delete(song_uri(kind.bytes(), uri.bytes())?, None)),
        [kind, uri, name] => {
            let (song, sticker) = song_sticker(kind.bytes(), uri.bytes(), name.bytes())?;
            Ok(StickersCommand::Delete(song, Some(sticker)))
        }
        _ => Err(CommandRefusal::WrongCount),
    }
}

#[tactic(auto, unfolding(crate::specs::Stickers::list_of))]
fn list<'w>(words: &'w [LineWord<'_>]) -> Result<StickersCommand<'w>, CommandRefusal>
    ensures { result ≡ list_of words.now }
{
    match words {
        [kind, uri] => Ok(StickersCommand::List(song_uri(kind.bytes(), uri.bytes())?)),
        _ => Err(CommandRefusal::WrongCount),
    }
}

/// `=`, `<` or `>`, and the value that it compares with.
#[tactic(auto, unfolding(crate::specs::Stickers::bound_of))]
fn bound<'w>(operator: &[u8], value: &'w [u8]) -> Result<ValueBound<'w>, CommandRefusal>
    ensures { result ≡ bound_of operator.now value.now }
{
    if operator == b"=".as_slice() {
        Ok(ValueBound::Equal(argument(6, text(value))?))
    } else if operator == b"<".as_slice() {
        Ok(ValueBound::Less(argument(6, text(value))?))
    } else if operator == b">".as_slice() {
        Ok(ValueBound::Greater(argument(6, text(value))?))
    } else {
        Err(CommandRefusal::BadArgument(5))
    }
}

#[tactic(auto, unfolding(crate::specs::Stickers::find_of))]
fn find<'w>(words: &'w [LineWord<'_>]) -> Result<StickersCommand<'w>, CommandRefusal>
    ensures { result ≡ find_of words.now }
{
    match words {
        [kind, uri, name] => {
            let (song, sticker) = song_sticker(kind.bytes(), uri.bytes(), name.bytes())?;
            Ok(StickersCommand::Find(song, sticker, ValueBound::Any))
        }
        [kind, uri, name, operator, value] => {
            let (song, sticker) = song_sticker(kind.bytes(), uri.bytes(), name.bytes())?;
            let bound = bound(operator.bytes(), value.bytes())?;
            Ok(StickersCommand::Find(song, sticker, bound))
        }
        _ => Err(CommandRefusal::WrongCount),
    }
}
