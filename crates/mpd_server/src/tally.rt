// What a job of the database came to, for the log.
use crate::job_folder::{MAX_LISTINGS, MAX_OPENINGS, Visits};
use crate::line_limit::TimedLimit;
use as_wave::{FRONT_LEN, FileKind, describe};
use log::{Level, Log, debug, info, log_enabled, warn};
use song_db::{KnownSong, LibraryRules, MAX_FOLDERS, MAX_ROWS, MAX_URI_BYTES, ScanOrder, is_named};
use song_files::{
    FileStamp, Folder, FolderEntry, FolderFault, ODD, Source, has_control, read_exact,
};
use song_head::read_song;
use stage_workers::{ScanFolder, Scanned};
use std::alloc::{AllocError, Global};
use std::fmt;
use std::time::Clock;
use wave_pcm::WaveError;

/// How many jobs are told at most within ten seconds.
const MOST_TOLD: u32 = 10;

const TEN_SECONDS: u64 = 10_000;

/// So many files that are left out for one reason are named without `debug`, in the wide profile.
const MOST_NAMED: u64 = 10;

/// What was found in the files that a job has read.
#[derive(Clone, Copy, Debug)]
pub(crate) struct Tally {
    /// Songs that were opened, and those of them that were known before.
    opened: u64,
    known: u64,
    /// Rows that are kept, since a folder or a file was not read.
    kept: u64,
    /// Files that are no WAVE file, of another format than is played, or otherwise broken.
    not_wave: u64,
    other_format: u64,
    broken: u64,
    /// Files and folders whose names are no UTF-8 or have a control character, or whose paths are too long.
    names: u64,
    /// Files whose names have no song's ending.
    others: u64,
    /// Folders and files that could not be read.
    folders: u64,
    files: u64,
    /// A folder or a file was one too many for a job.
    is_full: bool,
}

impl Tally {
    const NONE: Tally = Tally {
        opened: 0,
        known: 0,
        kept: 0,
        not_wave: 0,
        other_format: 0,
        broken: 0,
        names: 0,
        others: 0,
        folders: 0,
        files: 0,
        is_full: false,
    };
}

// What was known before a job.
#[derive(Drop)]
struct Before {
    // The folder or the song of the job; empty for the root.
    place: String,
    // The songs that have rows there, by URI, rising.
    known: Vec<KnownSong>,
}

impl Before {
    fn of(alloc: Global, order: &ScanOrder) -> Result<Before, AllocError> {
        let place = match order.uri() {
            Some(uri) => String::from_str(alloc, uri.as_str())?,
            None => String::new(alloc),
        };
        let mut known = Vec::with_capacity(alloc, order.known().len())?;
        for song in order.known() {
            known.push(song.try_clone(alloc)?)?;
        }
        Ok(Before { place, known })
    }

    // How many rows are known in a folder.
    fn count_in(&self, path: &str) -> usize {
        if path == self.place.as_str() {
            return self.known.len();
        }
        let start = place_before(&self.known, path, b'/');
        place_before(&self.known, path, b'/' + 1).saturating_sub(start)
    }

    // The song that is known at a path.
    fn at(&self, path: &str) -> Option<&KnownSong> {
        let place = self
            .known
            .binary_search_by(|song| song.uri.as_str().cmp(path))
            .ok()?;
        self.known.get(place)
    }
}

/// The folder that scans read. Of each job no more is read than it may, and is noted what is found there; each file that is left out has
/// a line of the log.
#[derive(Drop)]
pub(crate) struct TalliedFolder<'a, F, R> {
    rt: &'a R,
    files: F,
    visits: Visits,
    // Of the job that runs, or ran last.
    rules: LibraryRules,
    // While a job runs; where memory for what is noted is wanting, nothing is said of what the job came to.
    before: Option<Before>,
    tally: Tally,
    // What could not be listed last, unless something was opened since.
    unlisted: Option<String>,
    limit: TimedLimit,
    // Of jobs that memory ended.
    warnings: TimedLimit,
}

impl<'a, F, R> TalliedFolder<'a, F, R> {
    pub(crate) fn new(rt: &'a R, files: F) -> Self
    where
        R: Clock,
    {
        TalliedFolder {
            rt,
            files,
            visits: Visits::NONE,
            rules: LibraryRules::NAMED,
            before: None,
            tally: Tally::NONE,
            unlisted: None,
            limit: TimedLimit::new(rt, MOST_TOLD, TEN_SECONDS),
            warnings: TimedLimit::new(rt, MOST_TOLD, TEN_SECONDS),
        }
    }

    pub(crate) fn into_files(self) -> F {
        let TalliedFolder {
            rt: _,
            files,
            visits: _,
            rules: _,
            before: _,
            tally: _,
            unlisted: _,
            limit: _,
            warnings: _,
        } = self;
        files
    }
}

impl<F: Folder, R: Log> TalliedFolder<'_, F, R> {
    // A folder could not be listed: what is known below it is kept.
    fn note_folder(&mut self, alloc: Global, path: &str) {
        self.unlisted = String::from_str(alloc, path).ok();
        self.tally.folders = self.tally.folders.saturating_add(1);
        let kept = match &self.before {
            Some(before) => before.count_in(path),
            None => 0,
        };
        self.tally.kept = self.tally.kept.saturating_add(kept as u64);
    }

    fn is_known(&self, path: &str) -> bool {
        match &self.before {
            Some(before) => before.at(path).is_some(),
            None => false,
        }
    }

    // A file could not be read. What a link that leads nowhere may have led to is looked for as a folder and then as a file: it was
    // counted already.
    fn note_file(&mut self, path: &str) {
        let is_counted = match &self.unlisted {
            Some(unlisted) => unlisted.as_str() == path,
            None => false,
        };
        if !is_counted {
            self.tally.files = self.tally.files.saturating_add(1);
        }
        if self.is_known(path) {
            self.tally.kept = self.tally.kept.saturating_add(1);
        }
    }

    // Whether a file is named that is one of so many left out for its reason, though `debug` isn't on.
    fn is_told(&self, count: u64) -> bool {
        self.rules.keeps_stamps && count <= MOST_NAMED && !log_enabled!(self.rt; Level::Debug)
    }

    // Notes what of a folder isn't looked at, for its name or its path.
    fn note_names(&mut self, path: &str, entries: &[FolderEntry]) {
        if !self.rules.keeps_stamps {
            return;
        }
        let mut last = "";
        for entry in entries {
            let name = entry.name.as_str();
            // A link that leads nowhere is listed twice.
            if name == last {
                continue;
            }
            last = name;
            if let Some(why) = fault_of_name(name) {
                self.note_name(path, name, why);
            } else if !entry.is_folder && !is_named(self.rules.endings, name.as_bytes()) {
                self.tally.others = self.tally.others.saturating_add(1);
            } else if let Some(why) = fault_of_path(path, entry) {
                self.note_name(path, name, why);
            }
        }
    }

    fn note_name(&mut self, path: &str, name: &str, why: &str) {
        self.tally.names = self.tally.names.saturating_add(1);
        let slash = if path.is_empty() { "" } else { "/" };
        let shown = ShownName(name);
        if self.is_told(self.tally.names) {
            info!(self.rt; "left out: {path}{slash}{shown}: {why}");
        } else {
            debug!(self.rt; "left out: {path}{slash}{shown}: {why}");
        }
    }

    // A file was read that is no song.
    fn note_refusal<S: Source>(&mut self, path: &str, source: &mut S, refusal: WaveError) {
        match refusal {
            WaveError::NoMemory => {
                self.before = None;
                return;
            }
            WaveError::ReadFault => {
                self.note_file(path);
                return;
            }
            WaveError::NotWave => self.tally.not_wave = self.tally.not_wave.saturating_add(1),
            WaveError::Unsupported { .. } => {
                self.tally.other_format = self.tally.other_format.saturating_add(1);
            }
            _ => self.tally.broken = self.tally.broken.saturating_add(1),
        }
        let count = match refusal {
            WaveError::NotWave => self.tally.not_wave,
            WaveError::Unsupported { .. } => self.tally.other_format,
            _ => self.tally.broken,
        };
        if self.is_told(count) {
            info!(self.rt; "left out: {path}: {refusal}{}", beside(refusal));
        }
        if !log_enabled!(self.rt; Level::Debug) {
            return;
        }
        match kind_beside(source, refusal) {
            Some(FileKind::Flac) if self.rules.endings.flac => debug!(self.rt;
                "left out: {path}: FLAC that is broken, has no length or more than two channels"
            ),
            Some(kind) => debug!(self.rt; "left out: {path}: {refusal} ({kind})"),
            None => debug!(self.rt; "left out: {path}: {refusal}{}", beside(refusal)),
        }
    }

    // A file was read that is a song.
    fn note_song(&mut self, path: &str) {
        self.tally.opened = self.tally.opened.saturating_add(1);
        if self.is_known(path) {
            self.tally.known = self.tally.known.saturating_add(1);
        }
    }

    // The job may read no further folder, or file.
    fn note_full(&mut self, fault: FolderFault) -> FolderFault {
        self.tally.is_full = true;
        fault
    }

    // Notes what came of the opening of a file.
    fn noted(
        &mut self,
        alloc: Global,
        path: &str,
        opened: Result<Option<F::File>, FolderFault>,
    ) -> Result<Option<F::File>, FolderFault> {
        match opened {
            Ok(Some(mut source)) => {
                match read_song(alloc, &mut source, self.rules.reading) {
                    Ok(_) => self.note_song(path),
                    Err(refusal) => self.note_refusal(path, &mut source, refusal),
                }
                Ok(Some(source))
            }
            Ok(None) => Ok(None),
            Err(fault) => {
                if fault == FolderFault::Source {
                    self.note_file(path);
                }
                Err(fault)
            }
        }
    }

    // How one gets to know which files were left out, where so many were.
    fn hint(&self, left_out: u64) -> &'static str {
        if left_out > 0 && !log_enabled!(self.rt; Level::Debug) {
            " (debug = true names them)"
        } else {
            ""
        }
    }

    // Says what the job came to, before which so many rows were known. Songs whose files haven't changed weren't opened.
    fn tell(&self, job: u32, before: u64, scanned: Scanned) {
        let Scanned {
            replaced: changed,
            dropped: gone,
            withheld: _,
            is_left_off: _,
        } = scanned;
        let Tally {
            opened,
            known,
            kept,
            not_wave,
            other_format,
            broken,
            names,
            others,
            folders,
            files,
            is_full: _,
        } = self.tally;
        let found = opened.saturating_sub(known);
        let new = found.min((MAX_ROWS as u64).saturating_sub(before));
        let unread = before.saturating_sub(known).saturating_sub(kept);
        let unchanged = unread.saturating_sub(gone as u64);
        let songs = opened.saturating_add(unchanged);
        let hint = self.hint(not_wave.saturating_add(other_format).saturating_add(broken));
        let by_names = ByNames(names);
        let further = Further {
            is_told: self.rules.keeps_stamps,
            unchanged,
            others,
        };
        info!(self.rt;
            "update {job}: {songs} songs, {new} of them new, {changed} changed, {gone} gone; left out: {not_wave} not WAVE, {other_format} of another format, {broken} broken{by_names}{hint}; not read: {folders} folders, {files} files{further}"
        );
        self.tell_limits(job, found.saturating_sub(new));
    }

    // Says that the job would have dropped too many songs, and dropped none.
    fn tell_withheld(&self, job: u32, missing: usize, songs: usize) {
        warn!(self.rt;
            "update {job} would drop {missing} of {songs} songs: is the music there? The same once more, or rescan, drops them"
        );
    }

    // Says that memory ended the job. What was counted then isn't what is known now.
    fn tell_left_off(&self, job: u32) {
        warn!(self.rt;
            "update {job}: memory ran out and ended it early: what it had not come to is as before"
        );
    }

    // Says that so many jobs before this one were not told.
    fn tell_untold(&self, job: u32, untold: u64) {
        if untold > 0 {
            info!(self.rt;
                "update {job}: {untold} updates before it have no line: ten within ten seconds have one"
            );
        }
    }

    // Says which limits the job came to. For so many songs that it found there was no room.
    fn tell_limits(&self, job: u32, others: u64) {
        if others > 0 {
            info!(self.rt;
                "update {job}: {MAX_ROWS} songs are known at most; {others} that were found are not"
            );
        }
        if self.tally.is_full {
            info!(self.rt;
                "update {job}: one update reads {MAX_LISTINGS} folders and {MAX_OPENINGS} files at most; what is known of the others is kept"
            );
        }
    }
}

impl<F: Folder, R: Log> Folder for TalliedFolder<'_, F, R> {
    type File = F::File;

    ghost use Rattle.std.specs.Prelude.{[]};

    ghost files = { λ _. [] };

    ghost honest = { λ _. ⊥ };

    ghost steady = { λ _. ⊥ };

    fn list(&mut self, alloc: Global, path: &str) -> Result<Option<Vec<FolderEntry>>, FolderFault> {
        self.unlisted = None;
        let listed = match self.visits.count_folder() {
            Ok(()) => self.files.list(alloc, path),
            Err(fault) => Err(self.note_full(fault)),
        };
        match &listed {
            Ok(Some(entries)) => self.note_names(path, entries),
            Err(FolderFault::Source) => self.note_folder(alloc, path),
            _ => {}
        }
        listed
    }

    fn look(&mut self, alloc: Global, path: &str) -> Result<Option<FileStamp>, FolderFault> {
        let looked = self.files.look(alloc, path);
        // One that can't be looked at isn't opened.
        if matches!(looked, Err(FolderFault::Source)) {
            self.note_file(path);
            self.unlisted = None;
        }
        looked
    }

    fn open(&mut self, alloc: Global, path: &str) -> Result<Option<F::File>, FolderFault> {
        let opened = match self.visits.count_file() {
            Ok(()) => self.files.open(alloc, path),
            Err(fault) => Err(self.note_full(fault)),
        };
        let noted = self.noted(alloc, path, opened);
        self.unlisted = None;
        noted
    }
}

impl<F: Folder, R: Log + Clock> ScanFolder for TalliedFolder<'_, F, R> {
    fn begin_job(&mut self, alloc: Global, order: &ScanOrder) {
        self.visits = Visits::NONE;
        self.rules = order.rules();
        self.before = Before::of(alloc, order).ok();
        self.tally = Tally::NONE;
    }

    fn end_job(&mut self, job: u32, scanned: Scanned) {
        let before = self.before.take();
        if scanned.is_left_off {
            if let Some(untold) = self.warnings.take(self.rt) {
                self.tell_untold(job, untold);
                self.tell_left_off(job);
            }
        } else if let Some((missing, songs)) = scanned.withheld {
            if let Some(untold) = self.warnings.take(self.rt) {
                self.tell_untold(job, untold);
                self.tell_withheld(job, missing, songs);
            }
        } else if let Some(before) = before {
            if let Some(untold) = self.limit.take(self.rt) {
                self.tell_untold(job, untold);
                self.tell(job, before.known.len() as u64, scanned);
            }
        }
    }
}

// A name that no song has, without what would break a line.
#[derive(Clone, Copy)]
struct ShownName<'a>(&'a str);

impl fmt::Display for ShownName<'_> {
    fn fmt<W: fmt::Write>(&self, f: &mut fmt::Formatter<W>) -> fmt::Result {
        for sign in self.0.chars() {
            if sign == ODD {
                continue;
            }
            if sign.is_control() {
                write!(f, "\\x{}{}", digit(sign, 16), digit(sign, 1))?;
            } else {
                write!(f, "{sign}")?;
            }
        }
        Ok(())
    }
}

// A digit of a control character's number, which has two of them to the base 16.
fn digit(sign: char, place: u32) -> char {
    char::from_digit(u32::from(sign) / place.max(1) % 16, 16).unwrap_or('?')
}

// How many were left out by their names, where any were.
#[derive(Clone, Copy)]
struct ByNames(u64);

impl fmt::Display for ByNames {
    fn fmt<W: fmt::Write>(&self, f: &mut fmt::Formatter<W>) -> fmt::Result {
        if self.0 == 0 {
            return Ok(());
        }
        write!(f, ", {} by their names", self.0)
    }
}

// What else became of files, as the wide profile tells it.
#[derive(Clone, Copy)]
struct Further {
    is_told: bool,
    unchanged: u64,
    others: u64,
}

impl fmt::Display for Further {
    fn fmt<W: fmt::Write>(&self, f: &mut fmt::Formatter<W>) -> fmt::Result {
        if !self.is_told {
            return Ok(());
        }
        write!(
            f,
            "; {} unchanged, {} other files",
            self.unchanged, self.others
        )
    }
}

// Why no song can have a name, if none can.
fn fault_of_name(name: &str) -> Option<&'static str> {
    if name.starts_with(ODD) {
        return Some("its name is no UTF-8");
    }
    if has_control(name) {
        return Some("its name has a control character");
    }
    None
}

// Why no song is looked for at, or below, what a folder lists, though its name may be one's.
fn fault_of_path(path: &str, entry: &FolderEntry) -> Option<&'static str> {
    let slash = usize::from(!path.is_empty());
    let len = path.len().saturating_add(entry.name.len());
    if len.saturating_add(slash) > MAX_URI_BYTES {
        return Some("its path has more than 1,024 bytes");
    }
    let slashes = path.as_bytes().iter().filter(|b| **b == b'/').count();
    if entry.is_folder && slashes.saturating_add(slash) >= MAX_FOLDERS {
        return Some("32 folders stand over it");
    }
    None
}

// What a file is by its front, where that says more than its refusal does.
fn kind_beside<S: Source>(source: &mut S, refusal: WaveError) -> Option<FileKind> {
    let mut front = [0; FRONT_LEN];
    let count = source.len().min(FRONT_LEN as u64) as usize;
    read_exact(source, 0, &mut front[..count]).ok()?;
    let kind = describe(&front);
    let says_more = match refusal {
        WaveError::NotWave => !matches!(kind, FileKind::Wave { .. } | FileKind::Other),
        WaveError::Unsupported { tag, .. } => tag != 1 && matches!(kind, FileKind::Wave { .. }),
        _ => false,
    };
    if says_more { Some(kind) } else { None }
}

// What a refusal doesn't say of a file whose format is one that is played.
fn beside(refusal: WaveError) -> &'static str {
    match refusal {
        WaveError::Unsupported {
            tag: 1,
            bits: 16,
            channels: 1 | 2,
        } => " at its rate, or with its length of frames",
        _ => "",
    }
}

// The place of the first song whose URI isn't before the folder followed by a byte.
fn place_before(known: &[KnownSong], folder: &str, next: u8) -> usize {
    known.partition_point(|song| is_before(song.uri.as_str().as_bytes(), folder.as_bytes(), next))
}

// Whether a text stands before the folder followed by a byte.
fn is_before(text: &[u8], folder: &[u8], next: u8) -> bool {
    match text.get(..folder.len()) {
        None => text < folder,
        Some(front) if front == folder => match text.get(folder.len()) {
            None => true,
            Some(byte) => *byte < next,
        },
        Some(front) => front < folder,
    }
}
