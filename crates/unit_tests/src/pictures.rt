// `covers`, `picture_reader`: the picture of a folder, and that of a song with a back cover and a front cover, in chunks; what clients are
// answered, and when a file is opened for it.
ghost use Rattle.std.specs.Prelude.{[]};

use crate::assertions::{equal, same_bytes, same_text};
use covers::{PictureAnswer, PictureAsk, PictureKind, album_picture, read_chunk, read_picture};
use picture_reader::{MAX_OPEN, OpenPictures, answer_picture};
use song_files::{FileStamp, Folder, FolderEntry, FolderFault, MemFolder, MemSource};
use std::alloc::Global;
use std::process::Abort;
use std::test::Fail;

/// One frame, and an ID3v2.4 tag with the back cover `back` and the front cover `front`.
const SONG: [u8; 120] =
    *b"RIFF\0\0\0\0WAVEfmt \x10\0\0\0\x01\0\x01\0@\x1f\0\0\x80>\0\0\x02\0\x10\0data\x02\0\0\0\x01\0\
id3 A\0\0\0ID3\x04\0\0\0\0\07APIC\0\0\0\x11\0\0\x03image/png\0\x04\0backAPIC\0\0\0\x12\0\0\x03image/png\0\x03\0front\0";

/// An offset, how many bytes at most, and the chunk.
const CHUNKS: [(u64, usize, &[u8]); 4] = [
    (0, 64, b"front"),
    (1, 3, b"ron"),
    (4, 64, b"t"),
    (6, 64, b""),
];

/// The files of a folder, and the name of its picture, or none.
const FOLDERS: [(&[&str], &str); 4] = [
    (&["a.wav", "cover.jpg", "cover.png"], "cover.png"),
    (&["Cover.PNG", "front.gif", "folder.webp"], "folder.webp"),
    (&["a.wav", "COVER.JPG"], "COVER.JPG"),
    (&["a.wav", "cover.png/b.wav"], ""),
];

// The next functions have no contract: the prover then reads the long ones of the readers here alone, and in no test.

fn chunk(alloc: Global, offset: u64, limit: usize) -> Result<Vec<u8>, Fail> {
    let mut source = MemSource::new(&SONG);
    let picture = read_picture(alloc, &mut source)?.ok_or("no picture")?;
    Ok(read_chunk(alloc, &mut source, picture.place, offset, limit)?)
}

fn name_among(alloc: Global, files: &[&str]) -> Result<String, Fail> {
    let mut folder = MemFolder::new(alloc);
    for file in files {
        folder.add(alloc, file, b"")?;
    }
    let entries = folder.list(alloc, "")?.ok_or("no folder")?;
    let name = match album_picture(&entries) {
        Some(entry) => entry.name.as_str(),
        None => "",
    };
    Ok(String::from_str(alloc, name)?)
}

#[test]
fn front_cover_in_chunks(rt: HostRuntime) -> Result<(), Fail> {
    for (offset, limit, want) in &CHUNKS {
        same_bytes(&rt, &chunk(rt.alloc(), *offset, *limit)?, want);
    }
    Ok(())
}

#[test]
fn pictures_of_folders(rt: HostRuntime) -> Result<(), Fail> {
    for (files, want) in &FOLDERS {
        let name = name_among(rt.alloc(), files)?;
        same_text(&rt, name.as_str(), want);
    }
    Ok(())
}

/// A folder that counts its openings, of which one fails, and whose files may be exchanged for others.
#[derive(Drop)]
struct Shelf<'a> {
    folder: MemFolder<'a>,
    openings: u64,
    failing: u64,
}

impl<'a> Folder for Shelf<'a> {
    type File = MemSource<'a>;

    ghost files = { λ _. [] };

    ghost honest = { λ _. ⊥ };

    ghost steady = { λ _. ⊥ };

    fn list(&mut self, alloc: Global, path: &str) -> Result<Option<Vec<FolderEntry>>, FolderFault> {
        self.folder.list(alloc, path)
    }

    fn look(&mut self, alloc: Global, path: &str) -> Result<Option<FileStamp>, FolderFault> {
        self.folder.look(alloc, path)
    }

    fn open(&mut self, alloc: Global, path: &str) -> Result<Option<MemSource<'a>>, FolderFault> {
        self.openings = self.openings.saturating_add(1);
        if self.openings == self.failing {
            return Err(FolderFault::Source);
        }
        self.folder.open(alloc, path)
    }
}

/// The fifth opening fails.
fn shelf_with(alloc: Global, cover: &'static [u8]) -> Result<Shelf<'static>, Fail> {
    let mut folder = MemFolder::new(alloc);
    folder.add(alloc, "a/one.wav", &SONG)?;
    folder.add(alloc, "a/cover.jpg", cover)?;
    folder.add(alloc, "b/two.wav", b"")?;
    folder.add(alloc, "three.wav", b"")?;
    Ok(Shelf {
        folder,
        openings: 0,
        failing: 5,
    })
}

/// A client, what it asks (kind, path, offset, at most so many bytes), what it is answered, and how many files were opened by then.
type Asked = (u64, PictureKind, &'static str, u32, u32, &'static str, u64);

const ASKED: [Asked; 18] = [
    // Two clients, each of whose pictures stays open until its end was told.
    (
        1,
        PictureKind::Inside,
        "a/one.wav",
        0,
        3,
        "5 image/png fro",
        1,
    ),
    (2, PictureKind::Album, "a/one.wav", 0, 4, "6  albu", 2),
    (
        1,
        PictureKind::Inside,
        "a/one.wav",
        3,
        1,
        "5 image/png n",
        2,
    ),
    (2, PictureKind::Album, "a/one.wav", 4, 64, "6  m!", 2),
    (
        1,
        PictureKind::Inside,
        "a/one.wav",
        4,
        64,
        "5 image/png t",
        2,
    ),
    (
        1,
        PictureKind::Inside,
        "a/one.wav",
        5,
        64,
        "5 image/png ",
        3,
    ),
    (1, PictureKind::Inside, "a/one.wav", 6, 64, "past", 4),
    // The fifth opening fails.
    (1, PictureKind::Inside, "a/one.wav", 0, 64, "unread", 5),
    // No bytes are wanted: the picture stays open, until another is asked for, or it is begun anew.
    (1, PictureKind::Inside, "a/one.wav", 0, 0, "5 image/png ", 6),
    (
        1,
        PictureKind::Inside,
        "a/one.wav",
        0,
        2,
        "5 image/png fr",
        7,
    ),
    (1, PictureKind::Album, "a/one.wav", 2, 1, "6  b", 8),
    (
        1,
        PictureKind::Inside,
        "a/one.wav",
        2,
        1,
        "5 image/png o",
        9,
    ),
    // No song is looked for beside a cover.
    (2, PictureKind::Album, "a/none.wav", 0, 64, "6  album!", 10),
    // There is none, and what is no path isn't opened.
    (2, PictureKind::Inside, "b/two.wav", 0, 64, "none", 11),
    (2, PictureKind::Album, "b/two.wav", 0, 64, "none", 11),
    (2, PictureKind::Album, "three.wav", 0, 64, "none", 11),
    (2, PictureKind::Album, "b/../a/one.wav", 0, 64, "none", 11),
    (2, PictureKind::Inside, "/a/one.wav", 0, 64, "none", 11),
];

/// An answer as a text: the size, the MIME type and the bytes of a chunk.
fn text_of(alloc: Global, answer: &PictureAnswer) -> Result<String, Fail> {
    let text = match answer {
        PictureAnswer::NoPicture => String::from_str(alloc, "none")?,
        PictureAnswer::Unreadable => String::from_str(alloc, "unread")?,
        PictureAnswer::PastEnd => String::from_str(alloc, "past")?,
        PictureAnswer::Chunk(chunk) => {
            let bytes = str::from_utf8(&chunk.bytes)?;
            format!(in alloc; "{} {} {bytes}", chunk.size, chunk.mime.as_str())?
        }
    };
    Ok(text)
}

fn told(
    alloc: Global,
    shelf: &mut Shelf<'static>,
    open: &mut OpenPictures<MemSource<'static>>,
    asked: &Asked,
) -> Result<String, Fail> {
    let (client, kind, uri, offset, limit, _, _) = *asked;
    let ask = PictureAsk {
        kind,
        uri: String::from_str(alloc, uri)?,
        offset,
        limit,
    };
    text_of(alloc, &answer_picture(alloc, shelf, open, client, &ask)?)
}

#[test]
fn pictures_of_two_clients(rt: HostRuntime) -> Result<(), Fail> {
    let mut shelf = shelf_with(rt.alloc(), b"album!")?;
    let mut open = OpenPictures::new(rt.alloc())?;
    for asked in &ASKED {
        let text = told(rt.alloc(), &mut shelf, &mut open, asked)?;
        same_text(&rt, text.as_str(), asked.5);
        equal(&rt, shelf.openings, asked.6);
    }
    Ok(())
}

/// The first bytes of a cover and those behind them, of a client.
fn cover_at(client: u64, offset: u32) -> Asked {
    (client, PictureKind::Album, "a/one.wav", offset, 2, "", 0)
}

#[test]
fn cover_that_is_exchanged(rt: HostRuntime) -> Result<(), Fail> {
    let mut old = shelf_with(rt.alloc(), b"album!")?;
    let mut new = shelf_with(rt.alloc(), b"cover")?;
    let mut open = OpenPictures::new(rt.alloc())?;
    let first = told(rt.alloc(), &mut old, &mut open, &cover_at(1, 0))?;
    same_text(&rt, first.as_str(), "6  al");
    let next = told(rt.alloc(), &mut new, &mut open, &cover_at(1, 2))?;
    same_text(&rt, next.as_str(), "6  bu");
    let anew = told(rt.alloc(), &mut new, &mut open, &cover_at(1, 0))?;
    same_text(&rt, anew.as_str(), "5  co");
    open.close(1);
    equal(&rt, open.len(), 0);
    Ok(())
}

#[test]
fn most_pictures_that_are_open(rt: HostRuntime) -> Result<(), Fail> {
    let mut shelf = shelf_with(rt.alloc(), b"album!")?;
    shelf.failing = 0;
    let mut open = OpenPictures::new(rt.alloc())?;
    for client in 0..18 {
        told(rt.alloc(), &mut shelf, &mut open, &cover_at(client, 0))?;
    }
    equal(&rt, open.len(), MAX_OPEN);
    // The second is opened anew, the third is open.
    let mut opened = shelf.openings;
    told(rt.alloc(), &mut shelf, &mut open, &cover_at(1, 2))?;
    equal(&rt, shelf.openings, opened.saturating_add(1));
    opened = shelf.openings;
    told(rt.alloc(), &mut shelf, &mut open, &cover_at(3, 2))?;
    equal(&rt, shelf.openings, opened);
    Ok(())
}
