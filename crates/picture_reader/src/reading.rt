// What is answered to a question about a picture.
ghost use Rattle.std.specs.Prelude.{◌≡◌, ◌≢◌, false, Ok, Some, List, IfOk, IfSome, IsSome, IsOkUnless, IsTrue};
ghost use Rattle.std.specs.List.{find, position_or_len, remove};
ghost use Rattle.song_files.specs.Folder.{File};
ghost use Rattle.covers.specs.Answers.{answer_in};
ghost use Rattle.song_db.specs.SameFolder.{IsSameFolder};
ghost use Rattle.picture_reader.specs.Kept.{goes_on, is_asked, is_of, AreOpen, AreSteady, IsChosen, IsChosenSteady, IsKept};
ghost use Rattle.picture_reader.specs.Open.{held, HasRoom, IsWhole};
ghost use Rattle.picture_reader.specs.Paths.{is_path};
ghost use Rattle.picture_reader.specs.Pictures.{IsAnswer, IsTold};

use crate::finding::find_picture;
use crate::folder_path::folder_of;
use crate::kept::KeptPicture;
use crate::opening::read_open;
use crate::pictures::OpenPictures;
use covers::{CoverError, PictureAnswer, PictureAsk, PictureKind};
use no_memory::NoMemory;
use song_db::is_uri;
use song_files::{Folder, Source};
use std::alloc::Global;

// Whether a picture is the one that is asked for.
fn is_asked<S>(kept: &KeptPicture<S>, ask: &PictureAsk) -> bool
    ensures { result ≡ is_asked ask.now kept.now }
{
    kept.kind.is(ask.kind) && kept.uri.as_str() == ask.uri.as_str()
}

// Whether more of the picture is left behind what was told.
fn is_left(ask: &PictureAsk, answer: &PictureAnswer) -> bool {
    match answer {
        PictureAnswer::Chunk(chunk) => {
            let end = u64::from(ask.offset).saturating_add(chunk.bytes.len() as u64);
            end < chunk.size
        }
        _ => false,
    }
}

// Whether what is asked for may be looked at: a URI; of an album's picture also what stands in a folder that has one.
fn is_path(ask: &PictureAsk) -> bool
    ensures { result ≡ is_path ask.now.kind ask.now.uri }
{
    let uri = ask.uri.as_str();
    match ask.kind {
        PictureKind::Album => is_uri(uri) || is_uri(folder_of(uri)),
        PictureKind::Inside => is_uri(uri),
    }
}

// What is open for the client, if the question goes on with it. No other stays open for the client.
fn take_next<S: Drop>(
    pictures: &mut OpenPictures<S>,
    client: u64,
    ask: &PictureAsk,
) -> Option<KeptPicture<S>>
    ensures next { IfSome result (λ kept. (find (is_of client) pictures.old ≡ Some kept) × IsTrue (is_asked ask.now kept)) }
    ensures goes_on { IsTrue (goes_on client ask.now pictures.old) → IsSome result }
    ensures rest { pictures.new ≡ remove pictures.old (position_or_len (is_of client) pictures.old) }
{
    let kept = pictures.take(client)?;
    if ask.offset == 0 || !is_asked(&kept, ask) {
        return None;
    }
    Some(kept)
}

// The picture that is asked for, opened anew; `None` where there is none.
fn open_anew<F: Folder>(
    alloc: Global,
    folder: &mut F,
    client: u64,
    ask: &PictureAsk,
) -> Result<Option<KeptPicture<F::File>>, CoverError>
    ensures found { F.honest folder.old → IfOk result (IsChosen F.File.bytes F.File.honest (F.files folder.old) ask.now) }
    ensures steady { F.honest folder.old → F.steady folder.old →
        IsOkUnless result CoverError.NoMemory × IfOk result (IsChosenSteady F.File.steady) }
    ensures folder { IsSameFolder F.honest F.steady F.files folder.old folder.new }
{
    let Some(picture) = find_picture(alloc, folder, ask.kind, ask.uri.as_str())? else {
        return Ok(None);
    };
    let uri = String::from_str(alloc, ask.uri.as_str())?;
    Ok(Some(KeptPicture {
        client,
        kind: ask.kind,
        uri,
        picture,
    }))
}

// The picture that is asked for: the one that is open, or opened anew.
fn choose<F: Folder>(
    alloc: Global,
    folder: &mut F,
    pictures: &mut OpenPictures<F::File>,
    client: u64,
    ask: &PictureAsk,
) -> Result<Option<KeptPicture<F::File>>, CoverError>
    ensures found { F.honest folder.old → AreOpen F.File.bytes F.File.honest (F.files folder.old) pictures.old →
        IfOk result (IsChosen F.File.bytes F.File.honest (F.files folder.old) ask.now) }
    ensures steady { F.honest folder.old → F.steady folder.old → AreSteady F.File.steady pictures.old →
        IsOkUnless result CoverError.NoMemory × IfOk result (IsChosenSteady F.File.steady) }
    ensures left { (files : List File) → AreOpen F.File.bytes F.File.honest files pictures.old →
        AreOpen F.File.bytes F.File.honest files pictures.new }
    ensures left_steady { AreSteady F.File.steady pictures.old → AreSteady F.File.steady pictures.new }
    ensures next { IsTrue (goes_on client ask.now pictures.old) → folder.new ≡ folder.old }
    ensures folder { IsSameFolder F.honest F.steady F.files folder.old folder.new }
{
    match take_next(pictures, client, ask) {
        Some(kept) => Ok(Some(kept)),
        None => open_anew(alloc, folder, client, ask),
    }
}

// The answer of a picture, which then stays open if more of it is left.
fn answer_kept<S: Source + Drop>(
    alloc: Global,
    pictures: &mut OpenPictures<S>,
    kept: KeptPicture<S>,
    ask: &PictureAsk,
) -> Result<PictureAnswer, CoverError>
    ensures told { IsWhole S.bytes S.honest kept.picture → IfOk result (λ answer. answer ≡ answer_in (held S.bytes kept.picture) ask.now) }
    ensures room { IfOk result (HasRoom ask.now) }
    ensures still { (files : List File) → AreOpen S.bytes S.honest files pictures.old → IsKept S.bytes S.honest files kept →
        AreOpen S.bytes S.honest files pictures.new }
    ensures steady { IsWhole S.bytes S.honest kept.picture → S.steady kept.picture.source → AreSteady S.steady pictures.old →
        IsOkUnless result CoverError.NoMemory × AreSteady S.steady pictures.new }
{
    let mut kept = kept;
    let answer = read_open(alloc, &mut kept.picture, ask)?;
    if is_left(ask, &answer) {
        pictures.keep(kept);
    }
    Ok(answer)
}

// The answer, whatever the path is.
fn answer_at<F: Folder>(
    alloc: Global,
    folder: &mut F,
    pictures: &mut OpenPictures<F::File>,
    client: u64,
    ask: &PictureAsk,
) -> Result<PictureAnswer, CoverError>
    ensures told { F.honest folder.old → AreOpen F.File.bytes F.File.honest (F.files folder.old) pictures.old →
        IfOk result (IsAnswer (F.files folder.old) ask.now) }
    ensures room { IfOk result (HasRoom ask.now) }
    ensures steady { F.honest folder.old → AreOpen F.File.bytes F.File.honest (F.files folder.old) pictures.old →
        F.steady folder.old → AreSteady F.File.steady pictures.old →
        IsOkUnless result CoverError.NoMemory × AreSteady F.File.steady pictures.new }
    ensures kept { F.honest folder.old → AreOpen F.File.bytes F.File.honest (F.files folder.old) pictures.old →
        AreOpen F.File.bytes F.File.honest (F.files folder.old) pictures.new }
    ensures next { IsTrue (goes_on client ask.now pictures.old) → folder.new ≡ folder.old }
    ensures folder { IsSameFolder F.honest F.steady F.files folder.old folder.new }
{
    match choose(alloc, folder, pictures, client, ask)? {
        Some(kept) => answer_kept(alloc, pictures, kept, ask),
        None => Ok(PictureAnswer::NoPicture),
    }
}

/// Answers what a client asks of a picture by the files of a folder: the bytes that are asked for, at most 262,144 of them, or that there
/// is no such picture, or that it ends before. A path that hasn't the form of a URI is that of no picture, and the folder isn't asked then;
/// of an album's picture the form of its folder is enough, so a folder with a slash behind it may stand for what is in it.
///
/// `Unreadable` says that the folder or a file failed, and nothing of the picture; `NoMemory` says nothing either.
///
/// The picture stays open for the client until its end was told: the next question of the same client, kind and path is answered from the
/// same file, unless it begins anew at the offset 0. A question about another picture closes it.
pub fn answer_picture<F: Folder>(
    alloc: Global,
    folder: &mut F,
    pictures: &mut OpenPictures<F::File>,
    client: u64,
    ask: &PictureAsk,
) -> Result<PictureAnswer, NoMemory>
    ensures told { F.honest folder.old → AreOpen F.File.bytes F.File.honest (F.files folder.old) pictures.old →
        IsTrue (is_path ask.now.kind ask.now.uri) → IfOk result (IsTold (F.files folder.old) ask.now) }
    ensures no_path { is_path ask.now.kind ask.now.uri ≡ false →
        (result ≡ Ok PictureAnswer.NoPicture) × (folder.new ≡ folder.old) × (pictures.new ≡ pictures.old) }
    ensures room { IfOk result (HasRoom ask.now) }

    // A folder and files that never fail are always told.
    ensures steady { F.honest folder.old → AreOpen F.File.bytes F.File.honest (F.files folder.old) pictures.old →
        F.steady folder.old → AreSteady F.File.steady pictures.old →
        (result ≢ Ok PictureAnswer.Unreadable) × AreSteady F.File.steady pictures.new }

    // What is open is of the same files, and the next question goes on with it without a call of the folder.
    ensures kept { F.honest folder.old → AreOpen F.File.bytes F.File.honest (F.files folder.old) pictures.old →
        AreOpen F.File.bytes F.File.honest (F.files folder.new) pictures.new }
    ensures next { IsTrue (goes_on client ask.now pictures.old) → folder.new ≡ folder.old }
    ensures folder { IsSameFolder F.honest F.steady F.files folder.old folder.new }
{
    if !is_path(ask) {
        return Ok(PictureAnswer::NoPicture);
    }
    match answer_at(alloc, folder, pictures, client, ask) {
        Ok(answer) => Ok(answer),
        Err(CoverError::ReadFault) => Ok(PictureAnswer::Unreadable),
        Err(CoverError::NoMemory) => Err(NoMemory),
    }
}
