// The commands of the database and its scans.
ghost use Rattle.std.specs.Prelude.{◌≡◌, ◌++◌, [], true, false, not, flat_map, length, unwrap_or};
ghost use Rattle.command_text.specs.Answer.{Adds};
ghost use Rattle.command_text.specs.AnswerNames.{directory_line, listed_commands};
ghost use Rattle.command_text.specs.AnswerSongs.{song_lines};
ghost use Rattle.command_text.specs.AnswerStatus.{job_line};
ghost use Rattle.profile.specs.Profile.{tags_of};
ghost use Rattle.profile.specs.declared.profile.Profile.TheVariants.{Named, Wide};
ghost use Rattle.song_db.specs.Change.{has_uri};
ghost use Rattle.song_db.specs.Place.{place_of};
ghost use Rattle.song_db.specs.Query.{is_folder, values_of};
ghost use Rattle.song_db.specs.Row.{row_at};
ghost use Rattle.song_db.specs.ToldWalk.{told_folders_in, told_songs_in};
ghost use Rattle.song_files.specs.TagSet.{tags_in};
ghost use Rattle.song_files.specs.declared.tag.Tag.TheVariants.{Album, Artist};
ghost use Rattle.machine_core.specs.Database.{database_meaning, begins_job, folder_info, info_at, all_at, all_below, root_lists};
ghost use Rattle.machine_core.specs.Database.{busy, files_in, may_wait, next_number, shown_type, statistics, time_lines, waits_for_job};
ghost use Rattle.machine_core.specs.Lent.{lent};
ghost use Rattle.machine_core.specs.Meaning.{answers, says};
ghost use Rattle.machine_core.specs.Memory.{database_takes_memory, takes_a_job};
ghost use Rattle.machine_core.specs.Work.{HasRoom, Performs, command_room};

use crate::answer::write_content;
use crate::answer_database::{
    Detail, write_below, write_detail, write_names_in, write_tag_types, write_told_content,
    write_walk,
};
use crate::answer_lists::write_root_lists;
use crate::job::{Job, MAX_WAITING_JOBS, WaitingJob, next_job};
use crate::machine::Machine;
use crate::work::{Failure, Work};
use command_text::{
    CommandRefusal, DatabaseCommand, NoMemory, TagMask, Text, write_commands, write_job,
    write_song, write_statistics, write_times,
};
use profile::Profile;
use song_db::{Place, SongRow, Uri};
use std::alloc::Global;

// The path that is named, or the empty one, which is the root.
fn path_or_root<'a>(path: &'a Option<Text<'_>>) -> &'a str
    ensures { result.now ≡ unwrap_or path.now [] }
{
    match path {
        Some(path) => path.as_str(),
        None => "",
    }
}

// Whether a job may wait beside one that runs.
fn may_wait(profile: Profile, waiting: &[WaitingJob]) -> bool
    ensures { result ≡ may_wait profile waiting.now }
{
    match profile {
        Profile::Named => false,
        Profile::Wide => waiting.len() < MAX_WAITING_JOBS,
    }
}

// Why it may not.
fn busy(profile: Profile) -> CommandRefusal
    ensures { result ≡ busy profile }
{
    match profile {
        Profile::Named => CommandRefusal::AlreadyUpdating,
        Profile::Wide => CommandRefusal::UpdatesFull,
    }
}

impl Machine {
    // Whether a URI has a row.
    pub(super) fn has_song(&self, uri: &str) -> bool
        ensures { result ≡ has_uri self.now.saved.songs uri.now }
    {
        self.saved.songs().row_number(uri).is_ok()
    }

    // Whether songs stand below a place, or it is the root.
    pub(super) fn has_folder(&self, place: Place<'_>) -> bool
        ensures { result ≡ is_folder self.now.saved.songs place.entry }
    {
        self.saved.songs().rows_under(place).is_ok()
    }

    #[tactic(auto, unfolding(crate::specs::Database::database_meaning))]
    pub(super) fn perform_database(
        &mut self,
        alloc: Global,
        mask: TagMask,
        command: DatabaseCommand<'_>,
        work: &mut Work,
    ) -> Result<(), Failure>
        requires { HasRoom command_room work.old }
        ensures performs { Performs (database_meaning mask command.entry self.old) self.old self.new work.old work.new result }
        ensures memory { result ≡ Err Failure.NoMemory → database_takes_memory command.entry self.old ≡ true }
    {
        match command {
            DatabaseCommand::ChangeMask(_) => Ok(()),
            DatabaseCommand::Commands => self.list_commands(work),
            DatabaseCommand::ListAll(path) => {
                self.list_all(path_or_root(&path), Detail::Paths, work)
            }
            DatabaseCommand::ListAllInfo(path) => {
                self.list_all(path_or_root(&path), Detail::Songs(mask), work)
            }
            DatabaseCommand::ListFiles(path) => {
                self.list_folder_files(path_or_root(&path), work)
            }
            DatabaseCommand::ListInfo(path) => {
                self.list_info(alloc, mask, path_or_root(&path), work)
            }
            DatabaseCommand::NotCommands => Ok(()),
            DatabaseCommand::Stats => self.put_statistics(alloc, work),
            DatabaseCommand::Rescan(place) => self.begin_job(place, true, work),
            DatabaseCommand::TagTypes => self.list_tag_types(mask, work),
            DatabaseCommand::Update(place) => self.begin_job(place, false, work),
        }
    }

    // `commands`
    fn list_commands(&self, work: &mut Work) -> Result<(), Failure>
        ensures { Performs (says (listed_commands self.now.saved.profile) self.now) self.now self.now work.old work.new result }
    {
        let mark = work.text.len();
        let written = write_commands(&mut work.text, self.saved.profile());
        work.keep(mark, written)
    }

    // `tagtypes`
    fn list_tag_types(&self, mask: TagMask, work: &mut Work) -> Result<(), Failure>
        ensures { Performs (says (flat_map (shown_type mask) (tags_in (tags_of self.now.saved.profile))) self.now)
            self.now self.now work.old work.new result }
    {
        let mark = work.text.len();
        let written = write_tag_types(&mut work.text, mask, self.saved.profile().tags());
        work.keep(mark, written)
    }

    // `stats`: the values of both tags are counted already.
    fn put_statistics(&self, alloc: Global, work: &mut Work) -> Result<(), Failure>
        ensures { Performs (says (statistics self.now.saved.songs ++ time_lines self.now.saved.profile self.now) self.now)
            self.now self.now work.old work.new result }
    {
        let Ok(counts) = self.saved.songs().value_counts(alloc) else {
            return Err(Failure::NoMemory);
        };
        let mark = work.text.len();
        let written = self.write_all_statistics(&mut work.text, counts.artists, counts.albums);
        work.keep(mark, written)
    }

    // What is counted of the songs, of which there are so many artists and albums, and the times.
    fn write_all_statistics(
        &self,
        out: &mut Vec<u8>,
        artists: usize,
        albums: usize,
    ) -> Result<(), NoMemory>
        requires artists { artists ≡ length (values_of self.now.saved.songs Artist) }
        requires albums { albums ≡ length (values_of self.now.saved.songs Album) }
        ensures { Adds (statistics self.now.saved.songs ++ time_lines self.now.saved.profile self.now) result out.old out.new }
    {
        let songs = self.saved.songs();
        write_statistics(out, artists, albums, songs.len(), songs.milliseconds())?;
        self.write_time_lines(out)
    }

    // The times, which the wide profile tells.
    fn write_time_lines(&self, out: &mut Vec<u8>) -> Result<(), NoMemory>
        ensures { Adds (time_lines self.now.saved.profile self.now) result out.old out.new }
    {
        match self.saved.profile() {
            Profile::Named => Ok(()),
            Profile::Wide => write_times(out, self.clock.uptime, self.updated_at()),
        }
    }

    // `update` and `rescan`, which opens every file: a job begins, or waits where one runs.
    fn begin_job(
        &mut self,
        place: Option<Uri>,
        opens_all: bool,
        work: &mut Work,
    ) -> Result<(), Failure>
        requires { HasRoom command_room work.old }
        ensures performs { Performs (begins_job place opens_all self.old) self.old self.new work.old work.new result }
        ensures memory { result ≡ Err Failure.NoMemory → takes_a_job self.old ≡ true }
    {
        if self.job.runs {
            return self.queue_job(place, opens_all, work);
        }
        let number = next_job(self.job.number);
        self.tell_job(number, work)?;
        self.job = Job::begun(number, place, opens_all, self.clock.now);
        Ok(())
    }

    // Beside a job that runs: another waits for its turn.
    fn queue_job(
        &mut self,
        place: Option<Uri>,
        opens_all: bool,
        work: &mut Work,
    ) -> Result<(), Failure>
        requires { HasRoom command_room work.old }
        ensures performs { Performs (waits_for_job place opens_all self.old) self.old self.new work.old work.new result }
        ensures memory { result ≡ Err Failure.NoMemory → may_wait self.old.saved.profile self.old.waiting ≡ true }
    {
        let profile = self.saved.profile();
        if !may_wait(profile, &self.waiting) {
            return Err(Failure::Refused(busy(profile)));
        }
        let number = self.next_number();
        self.waiting.reserve(1)?;
        self.tell_job(number, work)?;
        self.waiting.push_reserved(WaitingJob {
            number,
            place,
            opens_all,
        });
        Ok(())
    }

    // The number of the job that is asked for next.
    fn next_number(&self) -> u32
        ensures { result ≡ next_number self.now }
    {
        match self.waiting.last() {
            Some(job) => next_job(job.number),
            None => next_job(self.job.number),
        }
    }

    fn tell_job(&self, number: u32, work: &mut Work) -> Result<(), Failure>
        ensures { Performs (says (job_line number) self.now) self.now self.now work.old work.new result }
    {
        let mark = work.text.len();
        let written = write_job(&mut work.text, number);
        work.keep(mark, written)
    }

    // `listall` and `listallinfo`: the song of a path, or else all that stands below the folder of that path.
    fn list_all(&self, path: &str, detail: Detail, work: &mut Work) -> Result<(), Failure>
        ensures { Performs (answers (all_at detail self.now.saved path.now (row_at self.now.saved.songs path.now)) self.now)
            self.now self.now work.old work.new result }
    {
        match self.saved.songs().get(path) {
            Ok(row) => {
                let mark = work.text.len();
                let written = write_detail(&mut work.text, row, detail);
                work.keep(mark, written)
            }
            Err(_) => self.list_below(Place::read(path), detail, work),
        }
    }

    // All folders and songs below a place.
    fn list_below(&self, place: Place<'_>, detail: Detail, work: &mut Work) -> Result<(), Failure>
        ensures { Performs (answers (all_below detail self.now.saved place.entry) self.now)
            self.now self.now work.old work.new result }
    {
        match self.saved.profile() {
            Profile::Named => self.list_by_uri(place, detail, work),
            Profile::Wide => self.list_told(place, detail, work),
        }
    }

    fn list_by_uri(&self, place: Place<'_>, detail: Detail, work: &mut Work) -> Result<(), Failure>
        requires { self.now.saved.profile ≡ Named }
        ensures { Performs (answers (all_below detail self.now.saved place.entry) self.now)
            self.now self.now work.old work.new result }
    {
        let Ok(walk) = self.saved.songs().walk(place) else {
            return Err(Failure::Refused(CommandRefusal::NoSuchUri));
        };
        if work.is_long() {
            return work.keep_none();
        }
        let mark = work.text.len();
        let written = write_walk(&mut work.text, walk, detail);
        work.keep(mark, written)
    }

    fn list_told(&self, place: Place<'_>, detail: Detail, work: &mut Work) -> Result<(), Failure>
        requires { self.now.saved.profile ≡ Wide }
        ensures { Performs (answers (all_below detail self.now.saved place.entry) self.now)
            self.now self.now work.old work.new result }
    {
        let Ok(walk) = self.saved.songs().told_walk(place) else {
            return Err(Failure::Refused(CommandRefusal::NoSuchUri));
        };
        if work.is_long() {
            return work.keep_none();
        }
        let mark = work.text.len();
        let written = write_below(&mut work.text, place, walk, detail);
        work.keep(mark, written)
    }

    // `listfiles`: what stands right in the folder of a path by its names.
    fn list_folder_files(&self, path: &str, work: &mut Work) -> Result<(), Failure>
        ensures { Performs (answers (files_in self.now.saved.songs (place_of (lent path.now))) self.now) self.now self.now
            work.old work.new result }
    {
        self.list_names_in(Place::read(path), work)
    }

    fn list_names_in(&self, place: Place<'_>, work: &mut Work) -> Result<(), Failure>
        ensures { Performs (answers (files_in self.now.saved.songs place.entry) self.now) self.now self.now work.old work.new result }
    {
        let Ok(rows) = self.saved.songs().told_under(place) else {
            return Err(Failure::Refused(CommandRefusal::NoSuchUri));
        };
        if work.is_long() {
            return work.keep_none();
        }
        let mark = work.text.len();
        let written = write_names_in(&mut work.text, rows, place);
        work.keep(mark, written)
    }

    // `lsinfo`: the song of a path, or else what stands right in the folder of that path.
    fn list_info(
        &self,
        alloc: Global,
        mask: TagMask,
        path: &str,
        work: &mut Work,
    ) -> Result<(), Failure>
        ensures { Performs (answers (info_at mask self.now.saved path.now (row_at self.now.saved.songs path.now)) self.now)
            self.now self.now work.old work.new result }
    {
        match self.saved.songs().get(path) {
            Ok(row) => {
                let mark = work.text.len();
                let written = write_song(&mut work.text, mask, row);
                work.keep(mark, written)
            }
            Err(_) => self.list_folder(alloc, mask, Place::read(path), work),
        }
    }

    // What stands right in a folder.
    fn list_folder(
        &self,
        alloc: Global,
        mask: TagMask,
        place: Place<'_>,
        work: &mut Work,
    ) -> Result<(), Failure>
        ensures { Performs (answers (folder_info mask self.now.saved place.entry) self.now) self.now self.now work.old work.new result }
    {
        match self.saved.profile() {
            Profile::Named => self.list_folder_by_uri(alloc, mask, place, work),
            Profile::Wide => self.list_folder_told(mask, place, work),
        }
    }

    fn list_folder_told(
        &self,
        mask: TagMask,
        place: Place<'_>,
        work: &mut Work,
    ) -> Result<(), Failure>
        requires { self.now.saved.profile ≡ Wide }
        ensures { Performs (answers (folder_info mask self.now.saved place.entry) self.now) self.now self.now work.old work.new result }
    {
        let Ok(rows) = self.saved.songs().told_under(place) else {
            return Err(Failure::Refused(CommandRefusal::NoSuchUri));
        };
        if work.is_long() {
            return work.keep_none();
        }
        let mark = work.text.len();
        let written = self.put_told(&mut work.text, mask, place, rows);
        work.keep(mark, written)
    }

    // What stands right in a folder as it is told, and the playlists where they belong to it.
    fn put_told(
        &self,
        out: &mut Vec<u8>,
        mask: TagMask,
        place: Place<'_>,
        rows: &[SongRow],
    ) -> Result<(), NoMemory>
        ensures { Adds ((flat_map (song_lines mask) (told_songs_in place.entry rows.now) ++ flat_map directory_line (told_folders_in
            place.entry rows.now)) ++ root_lists self.now.saved.profile self.now.saved.changed
            self.now.saved.lists place.entry) result out.old out.new }
    {
        write_told_content(out, mask, rows, place)?;
        let saved = &self.saved;
        write_root_lists(out, saved.profile(), saved.changed(), saved.lists(), place)
    }

    fn list_folder_by_uri(
        &self,
        alloc: Global,
        mask: TagMask,
        place: Place<'_>,
        work: &mut Work,
    ) -> Result<(), Failure>
        requires { self.now.saved.profile ≡ Named }
        ensures { Performs (answers (folder_info mask self.now.saved place.entry) self.now) self.now self.now work.old work.new result }
    {
        if !self.has_folder(place) {
            return Err(Failure::Refused(CommandRefusal::NoSuchUri));
        }
        let songs = self.saved.songs();
        let Ok(folders) = songs.folders_in(alloc, place) else {
            return Err(Failure::NoMemory);
        };
        let Ok(songs) = songs.songs_in(alloc, place) else {
            return Err(Failure::NoMemory);
        };
        if work.is_long() {
            return work.keep_none();
        }
        let mark = work.text.len();
        let written = write_content(&mut work.text, mask, &folders, &songs);
        work.keep(mark, written)
    }
}
