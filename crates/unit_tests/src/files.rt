// `wave_pcm`: a folder of real files, below the folder in which the tests run, with links, a socket and a pipe.
use crate::assertions::equal;
use crate::waves::WAVE_A;
use song_files::{FileFolder, Folder, FolderFault, TagSet};
use std::alloc::Global;
use std::os::fd::AsRawFd;
use std::os::unix::fs::symlink;
use std::os::unix::net::UnixListener;
use std::process::Abort;
use std::{fs, io};
use wave_pcm::{WaveError, read_head};

/// How many names stand in a folder, or how many frames a file has, if there is one.
type Told = Result<Option<u64>, FolderFault>;

const FAULT: Told = Err(FolderFault::Source);

/// Listings and openings, one after the other, and what is told. A socket is no file, neither before its folder was listed nor right after;
/// a file is no folder; a link is followed, but not to a folder that it stands in, however it leads there.
const LOOKS: [(&str, Told); 13] = [
    ("list f", Ok(None)),
    ("open d/f/g.wav", Ok(None)),
    ("open d/s.wav", Ok(None)),
    ("list d", Ok(Some(2))),
    ("open d/s.wav", Ok(None)),
    ("open d", Ok(None)),
    ("list a.wav", Ok(None)),
    ("open a.wav", Ok(Some(2))),
    ("open beside/b.wav", Ok(Some(2))),
    ("list d/itself", FAULT),
    ("list d/e/root", FAULT),
    ("list beside/root", FAULT),
    ("list d/e", Ok(Some(2))),
];

/// The same once the song that was listed last is a link to a pipe: it is no file, and isn't listed.
const PIPES: [(&str, Told); 3] = [
    ("open d/e/b.wav", Ok(None)),
    ("list d/e", Ok(Some(1))),
    ("open d/e/b.wav", Ok(None)),
];

// The next functions have no contract: the prover then reads the long ones of files and folders here alone, and in no test.

fn make_folder(rt: &HostRuntime, path: &str) -> io::Result<()> {
    fs::create_dir_all(rt, path)
}

fn write_song(rt: &HostRuntime, path: &str) -> io::Result<()> {
    fs::write(rt, path, &WAVE_A)
}

fn link(rt: &HostRuntime, to: &str, path: &str) -> io::Result<()> {
    symlink(rt, to, path)
}

/// What stands in the tree beside files, as long as it is open.
#[derive(Drop)]
struct Open {
    _socket: UnixListener,
    pipe: io::PipeReader,
    _other_end: io::PipeWriter,
}

fn make_songs(rt: &HostRuntime) -> io::Result<()> {
    make_folder(rt, "tree/d/e")?;
    write_song(rt, "tree/a.wav")?;
    write_song(rt, "tree/d/e/b.wav")?;
    link(rt, "d/e", "tree/beside")?;
    link(rt, ".", "tree/d/itself")?;
    link(rt, "../..", "tree/d/e/root")
}

/// Makes a tree of two songs, links and a socket, in place of what an earlier run left, and a pipe.
fn make_tree(rt: &HostRuntime) -> io::Result<Open> {
    let _ = fs::remove_dir_all(rt, "tree");
    make_songs(rt)?;
    let (pipe, _other_end) = io::pipe(rt)?;
    Ok(Open {
        _socket: UnixListener::bind(rt, "tree/d/s.wav")?,
        pipe,
        _other_end,
    })
}

fn folder<'a>(rt: &'a HostRuntime) -> io::Result<FileFolder<'a>> {
    Ok(FileFolder::new(rt, String::from_str(rt.alloc(), "tree")?))
}

/// Puts a link to a pipe, where the system shows that it is open, in the place of a song.
fn make_pipe(rt: &HostRuntime, pipe: &io::PipeReader) -> io::Result<()> {
    let number = pipe.as_raw_fd();
    let place = format!(in rt.alloc(); "/proc/self/fd/{number}")?;
    fs::remove_file(rt, "tree/d/e/b.wav")?;
    link(rt, place.as_str(), "tree/d/e/b.wav")
}

fn listed(folder: &mut FileFolder<'_>, alloc: Global, path: &str) -> Told {
    match folder.list(alloc, path)? {
        Some(entries) => Ok(Some(entries.len() as u64)),
        None => Ok(None),
    }
}

fn opened(folder: &mut FileFolder<'_>, alloc: Global, path: &str) -> Told {
    match folder.open(alloc, path)? {
        Some(mut file) => match read_head(alloc, &mut file, TagSet::NONE) {
            Ok(info) => Ok(Some(info.frames)),
            Err(WaveError::NoMemory) => Err(FolderFault::NoMemory),
            Err(_) => Err(FolderFault::Source),
        },
        None => Ok(None),
    }
}

fn looked(folder: &mut FileFolder<'_>, alloc: Global, look: &str) -> Told {
    match look.split_once(' ') {
        Some(("open", path)) => opened(folder, alloc, path),
        Some((_, path)) => listed(folder, alloc, path),
        None => FAULT,
    }
}

fn tells(rt: &impl Abort, alloc: Global, folder: &mut FileFolder<'_>, rows: &[(&str, Told)]) {
    for (look, want) in rows {
        let told = looked(folder, alloc, look);
        equal(rt, (*look, told), (*look, *want));
    }
}

#[test]
fn real_files(rt: HostRuntime) -> io::Result<()> {
    let open = make_tree(&rt)?;
    let mut folder = folder(&rt)?;
    tells(&rt, rt.alloc(), &mut folder, &LOOKS);
    make_pipe(&rt, &open.pipe)?;
    tells(&rt, rt.alloc(), &mut folder, &PIPES);
    fs::remove_dir_all(&rt, "tree")
}
