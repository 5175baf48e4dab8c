// Reads the commands of pictures.
ghost use Rattle.std.specs.Prelude.{◌≡◌};
ghost use Rattle.command_text.specs.Pictures.{picture_with, pictures_of};

use crate::argument::{argument, number, text};
use crate::counts::two;
use crate::refusal::CommandRefusal;
use crate::text::Text;
use crate::topic::PicturesName;
use filter_expr::LineWord;

/// A command of pictures: of a URI, which may be any text, the bytes from an offset on.
#[derive(Debug, Drop)]
pub enum PicturesCommand<'w> {
    /// The picture of the folder that a song stands in.
    AlbumArt(Text<'w>, u32),
    /// The picture that a song's file has inside.
    ReadPicture(Text<'w>, u32),
}

/// The command of this name with these arguments.
#[tactic(auto, unfolding(crate::specs::Pictures::pictures_of))]
pub(crate) fn read<'w>(
    name: PicturesName,
    words: &'w [LineWord<'_>],
) -> Result<PicturesCommand<'w>, CommandRefusal>
    ensures { result ≡ pictures_of name words.now }
{
    let (uri, offset) = two(words)?;
    let uri = argument(1, text(uri))?;
    let offset = argument(2, number(offset))?;
    Ok(picture_with(name, uri, offset))
}

fn picture_with(name: PicturesName, uri: Text<'_>, offset: u32) -> PicturesCommand<'_>
    ensures { result ≡ picture_with name uri.entry offset }
{
    match name {
        PicturesName::AlbumArt => PicturesCommand::AlbumArt(uri, offset),
        PicturesName::ReadPicture => PicturesCommand::ReadPicture(uri, offset),
    }
}
