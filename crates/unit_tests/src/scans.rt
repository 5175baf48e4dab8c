// `song_db`: scans of a folder that fails, the order of what a scan tells, the values that a database keeps, and a full database.
ghost use Rattle.std.specs.Prelude.{[]};

use crate::assertions::{equal, same_text, uri};
use crate::waves::WAVE_A;
use song_db::{
    Effect, Effects, KnownSong, LibraryRules, MAX_ROWS, RowChange, Scan, ScanOrder, SongDb,
    SongDbError, SongRow, Uri,
};
use song_files::{
    FaultyFolder, FaultySource, FileStamp, Folder, FolderEntry, FolderFault, MemFolder, MemSource,
    ReadTrouble, Tag, Tags, tag_text,
};
use std::alloc::Global;
use std::process::Abort;
use std::test::Fail;
use wave_pcm::WaveInfo;

/// A folder in memory of which one call fails, or one read of each file.
#[derive(Drop)]
struct BrokenFolder {
    folder: FaultyFolder<MemFolder<'static>>,
    reads_before: u64,
}

impl Folder for BrokenFolder {
    type File = FaultySource<'static>;

    ghost files = { λ _. [] };

    ghost honest = { λ _. ⊥ };

    ghost steady = { λ _. ⊥ };

    fn list(&mut self, alloc: Global, path: &str) -> Result<Option<Vec<FolderEntry>>, FolderFault> {
        self.folder.list(alloc, path)
    }

    fn look(&mut self, alloc: Global, path: &str) -> Result<Option<FileStamp>, FolderFault> {
        self.folder.look(alloc, path)
    }

    fn open(&mut self, alloc: Global, path: &str) -> Result<Option<Self::File>, FolderFault> {
        match self.folder.open(alloc, path)? {
            Some(source) => Ok(Some(FaultySource {
                source,
                reads_before: self.reads_before,
                trouble: ReadTrouble::Fails,
                faults: 0,
                reads: 0,
            })),
            None => Ok(None),
        }
    }
}

/// The bytes of the file at a path: `x.wav` is no song.
fn bytes_of(path: &str) -> &'static [u8] {
    match path {
        "x.wav" => b"RIFF\0",
        _ => &WAVE_A,
    }
}

/// A folder of files with these paths, which a space parts.
fn folder_of(alloc: Global, paths: &str) -> Result<MemFolder<'static>, Fail> {
    let mut folder = MemFolder::new(alloc);
    for path in paths.split_whitespace() {
        folder.add(alloc, path, bytes_of(path))?;
    }
    Ok(folder)
}

/// The known songs, of which no stamp is known.
fn known(alloc: Global) -> Result<Vec<KnownSong>, Fail> {
    let mut songs = Vec::new(alloc);
    for text in ["d/A.wav", "d/B.wav", "x.wav"] {
        songs.push(KnownSong {
            uri: uri(alloc, text)?,
            stamp: None,
        })?;
    }
    Ok(songs)
}

/// The next changes. (This has no contract: the prover then reads the long one of a scan here alone, and in no test.)
fn next(
    scan: &mut Scan,
    alloc: Global,
    folder: &mut BrokenFolder,
) -> Result<Option<Vec<RowChange>>, SongDbError> {
    scan.next(alloc, folder)
}

/// A scan of a place.
fn scan_of(alloc: Global, place: &str) -> Result<Scan, Fail> {
    let order = ScanOrder::new(
        1,
        Uri::read(alloc, place)?,
        LibraryRules::NAMED,
        known(alloc)?,
    )
    .ok_or("not rising")?;
    Ok(Scan::begin(alloc, order)?)
}

/// These are the changes: `+` before the URI of a row that comes, `-` before that of one that goes.
fn compare(rt: &impl Abort, changes: &[RowChange], want: &str) {
    equal(
        rt,
        (want, changes.len()),
        (want, want.split_whitespace().count()),
    );
    for (change, word) in changes.iter().zip(want.split_whitespace()) {
        let wanted = match change {
            RowChange::Put(_) => word.strip_prefix('+'),
            RowChange::Drop(_) => word.strip_prefix('-'),
        };
        equal(rt, Some(change.uri()), wanted);
    }
}

/// A scan tells these changes next.
fn tells(
    rt: &impl Abort,
    alloc: Global,
    scan: &mut Scan,
    folder: &mut BrokenFolder,
    want: &str,
) -> Result<(), SongDbError> {
    let changes = next(scan, alloc, folder)?;
    compare(rt, changes.as_deref().unwrap_or(&[]), want);
    Ok(())
}

/// A scan tells these changes, and no more.
fn tells_only(
    rt: &impl Abort,
    alloc: Global,
    scan: &mut Scan,
    folder: &mut BrokenFolder,
    want: &str,
) -> Result<(), SongDbError> {
    tells(rt, alloc, scan, folder, want)?;
    tells(rt, alloc, scan, folder, "")
}

/// No call, or no read, is so late.
const NEVER: u64 = 100;

/// The call of a folder of `d/A.wav` and `x.wav` that fails, the read of each file that does, the place, and what a scan of it tells:
/// nothing is dropped that couldn't be read, and all else is told.
const FAULTS: [(u64, u64, &str, &str); 9] = [
    (0, NEVER, "", ""),
    (1, NEVER, "", "-x.wav"),
    (2, NEVER, "", "-d/B.wav -x.wav"),
    (3, NEVER, "", "+d/A.wav -d/B.wav"),
    (NEVER, NEVER, "", "+d/A.wav -d/B.wav -x.wav"),
    (NEVER, 0, "", "-d/B.wav -x.wav"),
    (NEVER, 3, "", "-d/B.wav -x.wav"),
    (NEVER, 0, "d/A.wav", "-d/B.wav -x.wav"),
    (NEVER, 3, "d/A.wav", "-d/B.wav -x.wav"),
];

/// A scan of such a folder tells these changes, and no more.
fn is_told(
    rt: &impl Abort,
    alloc: Global,
    folder: MemFolder<'static>,
    row: (u64, u64, &str, &str),
) -> Result<(), Fail> {
    let (calls_before, reads_before, place, want) = row;
    let folder = FaultyFolder {
        folder,
        calls_before,
        calls: 0,
    };
    let mut folder = BrokenFolder {
        folder,
        reads_before,
    };
    let mut scan = scan_of(alloc, place)?;
    Ok(tells_only(rt, alloc, &mut scan, &mut folder, want)?)
}

#[test]
fn folders_that_fail(rt: HostRuntime) -> Result<(), Fail> {
    for row in &FAULTS {
        is_told(
            &rt,
            rt.alloc(),
            folder_of(rt.alloc(), "d/A.wav x.wav")?,
            *row,
        )?;
    }
    Ok(())
}

/// The songs come by the bytes of their names, folders and files mixed and a folder before a file of its name, and then the drops.
#[test]
fn order_of_a_scan(rt: HostRuntime) -> Result<(), Fail> {
    let folder = folder_of(
        rt.alloc(),
        "ä/ö.wav b.wav a.wav a/c.wav a.wav/b.wav a.b/c.wav B.wav",
    )?;
    let want =
        "+B.wav +a/c.wav +a.b/c.wav +a.wav/b.wav +a.wav +b.wav +ä/ö.wav -d/A.wav -d/B.wav -x.wav";
    is_told(&rt, rt.alloc(), folder, (NEVER, NEVER, "", want))
}

/// The row of a URI with an artist.
fn row_of(alloc: Global, path: &str, artist: &str) -> Result<SongRow, Fail> {
    let mut tags = Tags::new(alloc);
    tags.add(Tag::Artist, tag_text(artist.as_bytes()).ok_or("no text")?)?;
    let info = WaveInfo {
        rate: 8_000,
        channels: 1,
        first_byte: 44,
        frames: 1,
        tags,
    };
    Ok(SongRow::new(alloc, uri(alloc, path)?, info, None)?.ok_or("no row")?)
}

/// The texts of a tag are these, which a space parts.
fn has_values(
    rt: &impl Abort,
    alloc: Global,
    songs: &SongDb,
    tag: Tag,
    want: &str,
) -> Result<(), SongDbError> {
    let values = songs.distinct(alloc, tag)?;
    equal(rt, values.len(), want.split_whitespace().count());
    for (value, word) in values.iter().zip(want.split_whitespace()) {
        same_text(rt, value, word);
    }
    Ok(())
}

/// These are the artists, also of a copy; there is no album.
fn has_artists(
    rt: &impl Abort,
    alloc: Global,
    songs: &SongDb,
    want: &str,
) -> Result<(), SongDbError> {
    has_values(rt, alloc, &songs.try_clone(alloc)?, Tag::Artist, want)?;
    has_values(rt, alloc, songs, Tag::Artist, want)?;
    has_values(rt, alloc, songs, Tag::Album, "")?;
    let counts = songs.value_counts(alloc)?;
    equal(
        rt,
        (counts.artists, counts.albums),
        (want.split_whitespace().count(), 0),
    );
    Ok(())
}

/// The values of tags are those of the rows, also after a row behind the last one and after a batch.
#[test]
fn values_of_tags(rt: HostRuntime) -> Result<(), Fail> {
    let alloc = rt.alloc();
    let mut songs = SongDb::new(alloc);
    has_artists(&rt, alloc, &songs, "")?;
    songs.push_last(alloc, row_of(alloc, "a.wav", "Z")?)?;
    has_artists(&rt, alloc, &songs, "Z")?;
    songs.push_last(alloc, row_of(alloc, "c.wav", "A")?)?;
    has_artists(&rt, alloc, &songs, "A Z")?;
    let mut changes = Vec::new(alloc);
    changes.push(RowChange::Put(row_of(alloc, "b.wav", "Z")?))?;
    changes.push(RowChange::Put(row_of(alloc, "c.wav", "M")?))?;
    songs.apply_batch(alloc, changes)?;
    has_artists(&rt, alloc, &songs, "M Z")?;
    Ok(())
}

/// As many songs as there may be: `100000.wav`, `100001.wav` and so on.
fn full_database(alloc: Global) -> Result<SongDb, Fail> {
    let mut songs = SongDb::new(alloc);
    for number in 100_000..100_000 + MAX_ROWS {
        let path = format!(in alloc; "{number}.wav")?;
        songs.push_last(alloc, row_of(alloc, path.as_str(), "Z")?)?;
    }
    Ok(songs)
}

/// A song of this URI comes, or takes the place of the one there.
fn put(alloc: Global, changes: &mut Vec<RowChange>, path: &str) -> Result<(), Fail> {
    changes.push(RowChange::Put(row_of(alloc, path, "A")?))?;
    Ok(())
}

/// What a change did: the URI of the old row behind `=` or `-`, that of a row left out behind `!`, `+` where a row came, `0` for nothing.
fn told(effect: &Effect) -> (char, &str) {
    match effect {
        Effect::Nothing => ('0', ""),
        Effect::Came => ('+', ""),
        Effect::Replaced(old) => ('=', old.uri()),
        Effect::Went(old) => ('-', old.uri()),
        Effect::LeftOut(row) => ('!', row.uri()),
    }
}

/// The changes of a batch did this, and it was refused so.
fn did(rt: &impl Abort, effects: &Effects, want: &[(char, &str)], refusal: Option<SongDbError>) {
    equal(rt, effects.as_slice().len(), want.len());
    for (effect, wanted) in effects.as_slice().iter().zip(want) {
        equal(rt, told(effect), *wanted);
    }
    equal(rt, effects.refusal(), refusal);
}

/// A batch names the rows that it leaves out of a full database, and those that gave way.
#[test]
fn rows_left_out(rt: HostRuntime) -> Result<(), Fail> {
    let alloc = rt.alloc();
    let mut songs = full_database(alloc)?;
    let mut changes = Vec::new(alloc);
    put(alloc, &mut changes, "a.wav")?;
    changes.push(RowChange::Drop(uri(alloc, "100000.wav")?))?;
    put(alloc, &mut changes, "b.wav")?;
    put(alloc, &mut changes, "100001.wav")?;
    put(alloc, &mut changes, "c.wav")?;
    let effects = songs.apply_batch(alloc, changes)?;
    let want = [
        ('!', "a.wav"),
        ('-', "100000.wav"),
        ('+', ""),
        ('=', "100001.wav"),
        ('!', "c.wav"),
    ];
    did(&rt, &effects, &want, Some(SongDbError::DbFull));
    let mut changes = Vec::new(alloc);
    put(alloc, &mut changes, "b.wav")?;
    changes.push(RowChange::Drop(uri(alloc, "a.wav")?))?;
    let effects = songs.apply_batch(alloc, changes)?;
    did(&rt, &effects, &[('0', ""), ('0', "")], None);
    equal(&rt, songs.len(), MAX_ROWS);
    Ok(())
}
