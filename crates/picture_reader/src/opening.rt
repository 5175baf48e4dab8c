// The picture of an opened file, and its answers.
ghost use Rattle.std.specs.Prelude.{◌≡◌, ◌+◌, ◌≤◌, length, IfOk, IfSome, IsOkUnless};
ghost use Rattle.song_files.specs.Source.{Keeps};
ghost use Rattle.covers.specs.Answers.{answer_in};
ghost use Rattle.picture_reader.specs.Open.{held, HasRoom, IsFound, IsWhole};
ghost use Rattle.picture_reader.specs.Pictures.{inside_picture, plain_picture};

use crate::open_picture::OpenPicture;
use covers::{
    CoverError, MAX_CHUNK_LEN, PictureAnswer, PictureAsk, PictureChunk, read_chunk, read_picture,
    whole_file,
};
use song_files::Source;
use std::alloc::Global;

/// The picture inside a song's file.
pub(crate) fn open_inside<S: Source + Drop>(
    alloc: Global,
    source: S,
) -> Result<Option<OpenPicture<S>>, CoverError>
    ensures found { S.honest source → IfOk result (IsFound S.bytes S.honest (λ picture. picture ≡ inside_picture (S.bytes source))) }
    ensures steady { S.honest source → S.steady source →
        IsOkUnless result CoverError.NoMemory × IfOk result (λ found. IfSome found (λ opened. S.steady opened.source)) }
{
    let mut source = source;
    match read_picture(alloc, &mut source)? {
        Some(found) => Ok(Some(OpenPicture {
            mime: found.mime,
            place: found.place,
            source,
        })),
        None => Ok(None),
    }
}

/// A file that is a picture itself.
pub(crate) fn open_plain<S: Source + Drop>(alloc: Global, source: S) -> Option<OpenPicture<S>>
    ensures found { S.honest source → IsFound S.bytes S.honest (λ picture. picture ≡ plain_picture (S.bytes source)) result }
    ensures steady { S.steady source → IfSome result (λ opened. S.steady opened.source) }
{
    let place = whole_file(source.len())?;
    Some(OpenPicture {
        mime: String::new(alloc),
        place,
        source,
    })
}

/// Answers what is asked of a picture that is open.
pub(crate) fn read_open<S: Source>(
    alloc: Global,
    opened: &mut OpenPicture<S>,
    ask: &PictureAsk,
) -> Result<PictureAnswer, CoverError>
    ensures told { IsWhole S.bytes S.honest opened.old → IfOk result (λ answer. answer ≡ answer_in (held S.bytes opened.old) ask.now) }
    ensures room { IfOk result (HasRoom ask.now) }
    ensures steady { IsWhole S.bytes S.honest opened.old → S.steady opened.old.source → IsOkUnless result CoverError.NoMemory }
    ensures kept { S.honest opened.old.source → Keeps S.bytes S.honest S.faults S.steady opened.old.source opened.new.source }
    ensures same { (opened.new.mime ≡ opened.old.mime) × (opened.new.place ≡ opened.old.place) }
{
    let offset = u64::from(ask.offset);
    if offset > opened.place.len {
        return Ok(PictureAnswer::PastEnd);
    }
    let limit = ask.limit.min(MAX_CHUNK_LEN) as usize;
    let bytes = read_chunk(alloc, &mut opened.source, opened.place, offset, limit)?;
    let mime = opened.mime.clone()?;
    Ok(PictureAnswer::Chunk(PictureChunk {
        size: opened.place.len,
        mime,
        bytes,
    }))
}
