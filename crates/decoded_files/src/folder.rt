// A folder with a decoder in front of it.
ghost use Rattle.std.specs.Prelude.{◌≡◌, None, Some, IfOk, IfSome, MatchOption};
ghost use Rattle.song_files.specs.Folder.{bytes_at};
ghost use Rattle.decoded_files.specs.DecodedFiles.{decoded, told_by, is_asked};

use crate::{DecodedFile, Decoder, DecoderError, DecoderLink, source};
use song_db::is_decoded;
use song_files::{FileStamp, Folder, FolderEntry, FolderFault, Source};
use std::alloc::Global;

/// A folder with the same paths, whose file at a path with one of the endings of other formats (`song_db::is_decoded`) is the WAVE
/// file that the decoder tells of it. What the decoder knows as no song, and each other file, is what it is; so is each without a decoder.
///
/// A file that the decoder can't tell, because it is away, silent, wrong or can't read it, is a fault: that says nothing of the file.
#[derive(Drop)]
pub struct Decoded<F, D> {
    pub folder: F,
    pub decoder: Option<D>,
}

// Whether a decoder is asked for the file at a path.
#[tactic(auto, unfolding(crate::specs::DecodedFiles::is_asked))]
fn is_asked(path: &str) -> bool
    ensures { result ≡ is_asked path.now }
{
    is_decoded(path.as_bytes())
}

// The file of the folder below.
fn open_plain<F: Folder, L: DecoderLink>(
    folder: &mut F,
    alloc: Global,
    path: &str,
) -> Result<Option<DecodedFile<F::File, L>>, FolderFault>
    ensures opened { F.honest folder.old → IfOk result (λ file. MatchOption file (bytes_at (F.files folder.old) path.now ≡ None)
        (λ file. (bytes_at (F.files folder.old) path.now ≡ Some (⟦<DecodedFile<F::File, L> as Source>⟧.bytes file))
        × ⟦<DecodedFile<F::File, L> as Source>⟧.honest file)) }
    ensures honest { F.honest folder.old → F.honest folder.new }
    ensures files { F.honest folder.old → F.files folder.new ≡ F.files folder.old }
{
    match folder.open(alloc, path)? {
        Some(file) => Ok(Some(DecodedFile::Plain(file))),
        None => Ok(None),
    }
}

// The file as the decoder tells it, if it is asked for.
fn open_by<F: Folder, D: Decoder>(
    folder: &mut F,
    decoder: &mut D,
    alloc: Global,
    path: &str,
) -> Result<Option<DecodedFile<F::File, D::Link>>, FolderFault>
    ensures opened { F.honest folder.old → D.honest decoder.old →
        IfOk result (λ file. MatchOption file (bytes_at (decoded (D.told decoder.old) (F.files folder.old)) path.now ≡ None)
        (λ file. (bytes_at (decoded (D.told decoder.old) (F.files folder.old)) path.now
        ≡ Some (⟦<DecodedFile<F::File, D::Link> as Source>⟧.bytes file)) × ⟦<DecodedFile<F::File, D::Link> as Source>⟧.honest file)) }
    ensures honest { F.honest folder.old → D.honest decoder.old → F.honest folder.new × D.honest decoder.new }
    ensures files { F.honest folder.old → F.files folder.new ≡ F.files folder.old }
    ensures told { D.honest decoder.old → D.told decoder.new ≡ D.told decoder.old }
{
    if !is_asked(path) {
        return open_plain(folder, alloc, path);
    }
    if folder.look(alloc, path)?.is_none() {
        return Ok(None);
    }
    match source::open(alloc, decoder, path) {
        Ok(source) => Ok(Some(DecodedFile::Decoded(source))),
        Err(DecoderError::NoSong) => open_plain(folder, alloc, path),
        Err(DecoderError::NoMemory) => Err(FolderFault::NoMemory),
        Err(_) => Err(FolderFault::Source),
    }
}

impl<F: Folder, D: Decoder> Folder for Decoded<F, D> {
    type File = DecodedFile<F::File, D::Link>;

    ghost files = { λ f. decoded (told_by D.told f.decoder) (F.files f.folder) };

    ghost honest = { λ f. F.honest f.folder × IfSome f.decoder D.honest };

    ghost steady = { λ _. ⊥ };

    fn list(&mut self, alloc: Global, path: &str) -> Result<Option<Vec<FolderEntry>>, FolderFault> {
        self.folder.list(alloc, path)
    }

    fn look(&mut self, alloc: Global, path: &str) -> Result<Option<FileStamp>, FolderFault> {
        self.folder.look(alloc, path)
    }

    fn open(&mut self, alloc: Global, path: &str) -> Result<Option<Self::File>, FolderFault> {
        match &mut self.decoder {
            Some(decoder) => open_by(&mut self.folder, decoder, alloc, path),
            None => open_plain(&mut self.folder, alloc, path),
        }
    }
}
