// The commands that find songs by a filter.
ghost use Rattle.std.specs.Prelude.{◌≡◌, ◌≤◌, Some, None, length, map, IfOk};
ghost use Rattle.std.specs.Option.{option_copied};
ghost use Rattle.command_text.specs.Masks.{all_in_mask};
ghost use Rattle.command_text.specs.declared.command.finding.FindingCommand.TheVariants.{Add, AddToPlaylist, Count, CountGroups, Find};
ghost use Rattle.command_text.specs.declared.command.finding.FindingCommand.TheVariants.{InQueue, ListFiles, ListGroups, ListTag};
ghost use Rattle.filter_expr.specs.declared.case.Case.TheVariants.{Exact};
ghost use Rattle.profile.specs.declared.profile.Profile.TheVariants.{Named};
ghost use Rattle.song_db.specs.Duration.{total_of};
ghost use Rattle.song_db.specs.Limits.{MAX_ROWS};
ghost use Rattle.machine_core.specs.Finding.{finding_meaning, matching, found, in_window, numbers_in};
ghost use Rattle.machine_core.specs.Work.{HasRoom, Performs, command_room};

use super::lists::list_name;
use crate::answer::{write_songs, write_texts};
use crate::machine::Machine;
use crate::named::row_numbers;
use crate::work::{Failure, Work};
use command_text::{FindingCommand, NoMemory, Search, TagList, TagMask, Window, write_counts};
use entries::{entries_in_window, ordered_entries, write_entry_rows};
use filter_expr::{Case, Filter, window};
use gathering::{matching_rows, numbers_by_uri, numbers_of, ordered_rows};
use groups::{Within, chosen_numbers, write_group_counts, write_groups};
use play_queue::Target;
use profile::Profile;
use song_db::{SongDb, SongRow};
use song_files::Tag;
use state_codec::RowNumbers;
use std::alloc::Global;
use values::chosen_values;
use writing::{write_by_uri, write_chosen_files};

mod apart;
mod entries;
mod gathering;
mod groups;
mod part;
mod values;
mod writing;

// How many rows match, and how many milliseconds they play together.
fn count_matching(alloc: Global, songs: &SongDb, filter: &Filter) -> Result<(usize, u128), NoMemory>
    ensures songs { IfOk result (λ counted. counted.0 ≡ length (matching Exact filter.now songs.now)) }
    ensures time { IfOk result (λ counted. counted.1 ≡ total_of (matching Exact filter.now songs.now)) }
{
    let _limit = songs.len();
    let found = matching_rows(alloc, songs, Case::Exact, filter)?;
    Ok((found.len(), milliseconds_of(&found)))
}

// How many milliseconds songs play together.
fn milliseconds_of(rows: &[&SongRow]) -> u128
    requires { length rows.now ≤ MAX_ROWS }
    ensures { result ≡ total_of (map (λ row. row.now) rows.now) }
{
    let mut milliseconds: u128 = 0;
    for row in rows {
        milliseconds += row.milliseconds();
    }
    milliseconds
}

impl Machine {
    pub(super) fn perform_finding(
        &mut self,
        alloc: Global,
        mask: TagMask,
        command: FindingCommand<'_>,
        work: &mut Work,
    ) -> Result<(), Failure>
        requires { HasRoom command_room work.old }
        ensures { Performs (finding_meaning mask command.entry self.old) self.old self.new work.old work.new result }
    {
        self.perform_command(alloc, mask, &command, work)
    }

    // By reference, so that what a command owns is let go in one place.
    #[tactic(auto, unfolding(crate::specs::Finding::finding_meaning))]
    fn perform_command(
        &mut self,
        alloc: Global,
        mask: TagMask,
        command: &FindingCommand<'_>,
        work: &mut Work,
    ) -> Result<(), Failure>
        requires { HasRoom command_room work.old }
        ensures { Performs (finding_meaning mask command.now self.old) self.old self.new work.old work.new result }
    {
        match command {
            FindingCommand::Add(search, to) => self.add_found(alloc, search, *to, work),
            FindingCommand::AddToPlaylist(name, search, to) => {
                self.add_to_playlist(alloc, name.as_str(), search, *to, work)
            }
            FindingCommand::Count(filter) => self.count(alloc, filter, work),
            FindingCommand::CountGroups(tag, filter) => {
                self.count_groups(alloc, *tag, filter.as_ref(), work)
            }
            FindingCommand::Find(search) => self.find(alloc, mask, search, work),
            FindingCommand::InQueue(search) => self.find_entries(alloc, mask, search, work),
            FindingCommand::ListFiles(filter) => self.list_files(alloc, filter.as_ref(), work),
            FindingCommand::ListGroups(tags, filter) => {
                self.list_groups(alloc, tags, filter.as_ref(), work)
            }
            FindingCommand::ListTag(tag, filter) => {
                self.list_values(alloc, *tag, filter.as_ref(), work)
            }
        }
    }

    // `count`
    fn count(&self, alloc: Global, filter: &Filter, work: &mut Work) -> Result<(), Failure>
        ensures { Performs (finding_meaning all_in_mask (Count filter.now) self.now) self.now self.now work.old work.new result }
    {
        let database = self.saved.songs();
        let (songs, milliseconds) = count_matching(alloc, database, filter)?;
        let mark = work.text.len();
        let written = write_counts(&mut work.text, songs, milliseconds);
        work.keep(mark, written)
    }

    // `find`, `search`
    fn find(
        &self,
        alloc: Global,
        mask: TagMask,
        search: &Search,
        work: &mut Work,
    ) -> Result<(), Failure>
        ensures { Performs (finding_meaning mask (Find search.now) self.now) self.now self.now work.old work.new result }
    {
        match (self.saved.profile(), search.sort) {
            (Profile::Named, None) => self.find_by_uri(alloc, mask, search, work),
            _ => self.find_ordered(alloc, mask, search, work),
        }
    }

    fn find_ordered(
        &self,
        alloc: Global,
        mask: TagMask,
        search: &Search,
        work: &mut Work,
    ) -> Result<(), Failure>
        ensures { Performs (finding_meaning mask (Find search.now) self.now) self.now self.now work.old work.new result }
    {
        let songs = self.saved.songs();
        let ordered = ordered_rows(alloc, self.saved.profile(), songs, search)?;
        let mark = work.text.len();
        let written = write_songs(&mut work.text, mask, windowed(&ordered, search.window));
        work.keep(mark, written)
    }

    fn find_by_uri(
        &self,
        alloc: Global,
        mask: TagMask,
        search: &Search,
        work: &mut Work,
    ) -> Result<(), Failure>
        requires named { self.now.saved.profile ≡ Named }
        requires unsorted { search.now.sort ≡ None }
        ensures { Performs (finding_meaning mask (Find search.now) self.now) self.now self.now work.old work.new result }
    {
        let songs = self.saved.songs();
        let mark = work.text.len();
        let written = write_by_uri(&mut work.text, alloc, mask, songs, search);
        work.keep(mark, written)
    }

    // `findadd`, `searchadd`: the numbers of the rows that `find` would answer.
    fn add_found(
        &mut self,
        alloc: Global,
        search: &Search,
        to: Option<Target>,
        work: &mut Work,
    ) -> Result<(), Failure>
        requires { HasRoom command_room work.old }
        ensures { Performs (finding_meaning all_in_mask (Add search.now to) self.old) self.old self.new work.old work.new result }
    {
        let rows = found_numbers(alloc, self.saved.profile(), self.saved.songs(), search)?;
        self.add_rows(alloc, to, rows, work)
    }

    // `searchaddpl`
    fn add_to_playlist(
        &mut self,
        alloc: Global,
        name: &str,
        search: &Search,
        to: Option<u32>,
        work: &mut Work,
    ) -> Result<(), Failure>
        requires { HasRoom command_room work.old }
        ensures { Performs (finding_meaning all_in_mask (AddToPlaylist name.now search.now to) self.old) self.old self.new work.old
            work.new result }
    {
        let name = list_name(alloc, name)?;
        let rows = found_numbers(alloc, self.saved.profile(), self.saved.songs(), search)?;
        self.add_songs(alloc, name, rows, to, work)
    }

    // `playlistfind`, `playlistsearch`: the entries of the queue.
    fn find_entries(
        &self,
        alloc: Global,
        mask: TagMask,
        search: &Search,
        work: &mut Work,
    ) -> Result<(), Failure>
        ensures { Performs (finding_meaning mask (InQueue search.now) self.now) self.now self.now work.old work.new result }
    {
        let songs = self.saved.songs();
        let entries = self.saved.queue().entries();
        let ordered = ordered_entries(alloc, songs, entries, search)?;
        let mark = work.text.len();
        let written = write_entry_rows(
            &mut work.text,
            mask,
            entries_in_window(&ordered, search.window),
        );
        work.keep(mark, written)
    }

    // `list file`: the files of all rows or of those that match.
    fn list_files(
        &self,
        alloc: Global,
        filter: Option<&Filter>,
        work: &mut Work,
    ) -> Result<(), Failure>
        ensures { Performs (finding_meaning all_in_mask (ListFiles (option_copied filter.entry)) self.now) self.now self.now
            work.old work.new result }
    {
        let songs = self.saved.songs();
        let mark = work.text.len();
        let written = write_chosen_files(&mut work.text, alloc, songs, filter);
        work.keep(mark, written)
    }

    // `list`: the values of a tag, of all rows or of those that match.
    fn list_values(
        &self,
        alloc: Global,
        tag: Tag,
        filter: Option<&Filter>,
        work: &mut Work,
    ) -> Result<(), Failure>
        ensures { Performs (finding_meaning all_in_mask (ListTag tag (option_copied filter.entry)) self.now) self.now self.now
            work.old work.new result }
    {
        let values = chosen_values(alloc, self.saved.profile(), self.saved.songs(), tag, filter)?;
        let mark = work.text.len();
        let written = write_texts(&mut work.text, tag.name(), &values);
        work.keep(mark, written)
    }

    // `list` with `group`: the values of tags, each within those of the tag before it.
    fn list_groups(
        &self,
        alloc: Global,
        tags: &TagList,
        filter: Option<&Filter>,
        work: &mut Work,
    ) -> Result<(), Failure>
        ensures { Performs (finding_meaning all_in_mask (ListGroups tags.now (option_copied filter.entry)) self.now) self.now self.now
            work.old work.new result }
    {
        let songs = self.saved.songs();
        let chosen = chosen_numbers(alloc, songs, filter)?;
        let within = Within {
            profile: self.saved.profile(),
            rows: songs.rows(),
        };
        let mark = work.text.len();
        let written = write_groups(&mut work.text, alloc, within, tags.as_slice(), &chosen);
        work.keep(mark, written)
    }

    // `count` with `group`: each value of a tag, with the songs that tell it.
    fn count_groups(
        &self,
        alloc: Global,
        tag: Tag,
        filter: Option<&Filter>,
        work: &mut Work,
    ) -> Result<(), Failure>
        ensures { Performs (finding_meaning all_in_mask (CountGroups tag (option_copied filter.entry)) self.now) self.now self.now
            work.old work.new result }
    {
        let songs = self.saved.songs();
        let chosen = chosen_numbers(alloc, songs, filter)?;
        let within = Within {
            profile: self.saved.profile(),
            rows: songs.rows(),
        };
        let mark = work.text.len();
        let written = write_group_counts(&mut work.text, alloc, within, tag, &chosen);
        work.keep(mark, written)
    }
}

// The rows in a window, if one is asked for.
fn windowed<'r, 's>(rows: &'r [&'s SongRow], part: Option<Window>) -> &'r [&'s SongRow]
    ensures rows { map (λ row. row.now) result.now ≡ in_window part (map (λ row. row.now) rows.now) }
    ensures few { length result.now ≤ length rows.now }
{
    match part {
        None => rows,
        Some(part) => window(rows, part.start as usize, end_of(part)),
    }
}

fn end_of(part: Window) -> Option<usize>
    ensures { result ≡ part.end }
{
    match part.end {
        Some(end) => Some(end as usize),
        None => None,
    }
}

// The numbers of the rows that a search finds.
fn found_numbers(
    alloc: Global,
    profile: Profile,
    songs: &SongDb,
    search: &Search,
) -> Result<RowNumbers, NoMemory>
    ensures { IfOk result (λ numbers. numbers ≡ numbers_in songs.now (found profile search.now songs.now)) }
{
    let _limit = songs.len();
    match (profile, search.sort) {
        (Profile::Named, None) => {
            let numbers = numbers_by_uri(alloc, songs, search)?;
            Ok(row_numbers(numbers))
        }
        _ => {
            let ordered = ordered_rows(alloc, profile, songs, search)?;
            let numbers = numbers_of(alloc, songs, windowed(&ordered, search.window))?;
            Ok(row_numbers(numbers))
        }
    }
}
