// What a request may look at: what a command looks at is told before it is performed.
ghost use Rattle.std.specs.Prelude.{◌≡◌, ◌<◌, ◌≤◌, ◌^◌, false, true, OnOk, IfErr, length};
ghost use Rattle.std.specs.Option.{option_copied};
ghost use Rattle.command_text.specs.declared.refusal.CommandRefusal.TheVariants.{RequestTooLarge};
ghost use Rattle.machine_core.specs.Looks.{alone_looks, arranged, choice_looks, database_looks, entries_looks, finding_looks, groups_looks};
ghost use Rattle.machine_core.specs.Looks.{added_looks, block_looks, count_named, gap_of, listed_looks, most_in, placed_looks, range_looks};
ghost use Rattle.machine_core.specs.Looks.{leaving_looks, list_looks, lists_looks, looked, looks_of, may_look, moved_looks, parted};
ghost use Rattle.machine_core.specs.Looks.{queue_looks, search_looks, settings_looks, stickers_looks, values_looks};
ghost use Rattle.machine_core.specs.Lists.{songs_named};
ghost use Rattle.machine_core.specs.Queue.{place_of_id};
ghost use Rattle.song_files.specs.declared.tag.TheConstants.{TAG_COUNT};

use crate::machine::Machine;
use crate::span::{Span, span_in, span_or_all};
use command_text::{
    Command, CommandRefusal, DatabaseCommand, FindingCommand, ListsCommand, PositionRange,
    QueueCommand, Search, SettingsCommand, StickersCommand, Window,
};
use filter_expr::{Case, Filter, SortOrder};
use profile::Profile;
use song_db::Place;
use song_files::TAG_COUNT;
use std::marker::Model;
use stored_lists::Songs;

/// Under the wide profile the commands of one request look at so much at most, and under the first one they are counted up to it;
/// docs/PROTOCOL.md says what counts how much.
pub const MAX_LOOKS: u64 = 10_000_000;

/// How much the commands of a request have looked at so far.
#[derive(Debug, Drop)]
pub struct Looks {
    taken: u64,
}

impl Model for Looks {
    ghost use Rattle.std.specs.Prelude.{ℕ, ◌≤◌};
    ghost use Rattle.machine_core.specs.Looks.{max_looks};

    ghost Value = { ℕ };

    ghost view = { λ l. l.taken };

    ghost invariant = { λ l. l.taken ≤ max_looks };
}

impl Looks {
    /// At nothing yet.
    pub fn new() -> Looks
        ensures { result ≡ 0 }
    {
        Looks { taken: 0 }
    }

    /// So much.
    pub fn taken(&self) -> u64
        ensures { result ≡ self.now }
    {
        self.taken
    }

    // Takes so much more, where the request may look at it.
    pub(crate) fn take(&mut self, profile: Profile, more: u64) -> Result<(), CommandRefusal>
        ensures looks { self.new ≡ looked profile self.old more }
        ensures ok { OnOk result (may_look profile self.old more ≡ true) }
        ensures refused { IfErr result (λ refusal. (refusal ≡ RequestTooLarge) × (may_look profile self.old more ≡ false)) }
    {
        match profile {
            Profile::Named => self.taken += more.min(MAX_LOOKS - self.taken),
            Profile::Wide => {
                if more > MAX_LOOKS - self.taken {
                    return Err(CommandRefusal::RequestTooLarge);
                }
                self.taken += more;
            }
        }
        Ok(())
    }
}

// Where a part of what is found is taken, or it is sorted.
fn arranged(profile: Profile, order: Option<SortOrder>, window: Option<Window>) -> u8
    ensures value { result ≡ arranged profile order window }
    ensures few { result ≤ 4 }
{
    match order {
        Some(_) => 4,
        None => match window {
            Some(_) => parted(profile),
            None => 0,
        },
    }
}

// Where a part is taken of songs that stay by URI, or are put in their order first.
fn parted(profile: Profile) -> u8
    ensures value { result ≡ parted profile }
    ensures few { result ≤ 4 }
{
    match profile {
        Profile::Named => 1,
        Profile::Wide => 4,
    }
}

// The most of so many that stand in a window.
fn most_in(part: Option<Window>, count: u64) -> u64
    ensures value { result ≡ most_in part count }
    ensures few { result ≤ count }
{
    match part {
        None => count,
        Some(part) => match part.end {
            None => count,
            Some(end) => count.min(u64::from(end.saturating_sub(part.start))),
        },
    }
}

// How many songs stand between two places of a playlist.
fn gap_of(songs: &Songs, from: u32, to: u32) -> u64
    ensures value { result ≡ gap_of songs.now from to }
    ensures few { result < 2 ^ 32 }
{
    let between = if from < to { to - from } else { from - to };
    (songs.len() as u64).min(u64::from(between))
}

impl Machine {
    // What a command looks at.
    pub(crate) fn looks_of(&self, command: &Command<'_>) -> u64
        ensures { result ≡ looks_of command.now self.now }
    {
        match command {
            Command::Settings(command) => self.settings_looks(command),
            Command::Database(command) => self.database_looks(command),
            Command::Queue(command) => self.queue_looks(command),
            Command::Finding(command) => self.finding_looks(command),
            Command::Lists(command) => self.lists_looks(command),
            Command::Stickers(command) => self.stickers_looks(command),
            Command::Playing(_) => self.choice_looks(),
            Command::Messages(_) => 0,
            Command::Pictures(_) => 0,
            Command::Session(_) => 0,
            Command::Setup(_) => 0,
        }
    }

    // How many entries the queue has.
    fn entry_count(&self) -> u64
        ensures count { result ≡ length self.now.saved.queue.entries }
        ensures few { result ≤ 65536 }
    {
        self.saved.queue().entries().len() as u64
    }

    // How many songs there are.
    fn row_count(&self) -> u64
        ensures count { result ≡ length self.now.saved.songs }
        ensures few { result ≤ 65536 }
    {
        self.saved.songs().len() as u64
    }

    fn choice_looks(&self) -> u64
        ensures { result ≡ choice_looks self.now }
    {
        if self.saved.options().random {
            10 * self.entry_count()
        } else {
            self.entry_count()
        }
    }

    fn leaving_looks(&self, span: Span) -> u64
        ensures { result ≡ leaving_looks span self.now }
    {
        if !self.saved.options().random {
            return 0;
        }
        match self.current_position() {
            Some(at) => {
                if span.holds(at) {
                    20 * self.entry_count()
                } else {
                    0
                }
            }
            None => 0,
        }
    }

    fn queue_looks(&self, command: &QueueCommand<'_>) -> u64
        ensures { result ≡ queue_looks command.now self.now }
    {
        match command {
            QueueCommand::Changes(_, _) => self.entry_count(),
            QueueCommand::ChangesPositions(_, _) => self.entry_count(),
            QueueCommand::Clear => self.leaving_looks(Span {
                start: 0,
                end: self.queue_length(),
            }),
            QueueCommand::Delete(range) => match span_in(*range, self.queue_length()) {
                Ok(span) => self.leaving_looks(span),
                Err(_) => 0,
            },
            QueueCommand::DeleteId(id) => self.alone_looks(*id),
            QueueCommand::Shuffle(range) => match span_or_all(*range, self.queue_length()) {
                Ok(span) => 10 * u64::from(span.count()),
                Err(_) => 0,
            },
            _ => 0,
        }
    }

    // Of the entry with an id, which goes.
    fn alone_looks(&self, id: u32) -> u64
        ensures { result ≡ alone_looks (place_of_id id self.now) self.now }
    {
        match self.saved.queue().pos_of(id) {
            Some(at) => self.leaving_looks(Span {
                start: at as u32,
                end: at as u32 + 1,
            }),
            None => 0,
        }
    }

    fn search_looks(&self, search: &Search) -> u64
        ensures value { result ≡ search_looks search.now self.now }
        ensures few { result < 2 ^ 63 }
    {
        let profile = self.saved.profile();
        let more = arranged(profile, search.sort, search.window);
        10 * search
            .filter
            .told_looks(profile, self.saved.songs(), search.case, more)
    }

    // Before a search it isn't known how many songs come into the playlist: all may, or as many as the window holds.
    fn listed_looks(&self, name: &str, search: &Search, to: Option<u32>) -> u64
        ensures { result ≡ listed_looks name.now search.now to self.now }
    {
        let count = most_in(search.window, self.row_count());
        self.search_looks(search) + self.placed_looks(count, name, to)
    }

    // For each of so many songs that come into a playlist, those behind its place.
    fn placed_looks(&self, count: u64, name: &str, to: Option<u32>) -> u64
        requires { count ≤ 65536 }
        ensures value { result ≡ placed_looks count name.now to self.now }
        ensures few { result < 2 ^ 63 }
    {
        match to {
            None => 0,
            Some(at) => count * u64::from(self.song_count(name).saturating_sub(at)),
        }
    }

    fn values_looks(&self, filter: Option<&Filter>) -> u64
        ensures { result ≡ values_looks (option_copied filter.entry) self.now }
    {
        match filter {
            None => 10 * self.row_count(),
            Some(filter) => 10 * filter.looks(self.saved.songs(), Case::Exact, 4),
        }
    }

    // Of so many tags, each within the values of the tag before.
    fn groups_looks(&self, tags: u8, filter: Option<&Filter>) -> u64
        requires { tags ≤ TAG_COUNT }
        ensures { result ≡ groups_looks tags (option_copied filter.entry) self.now }
    {
        match filter {
            None => 10 * (u64::from(tags) * self.row_count()),
            Some(filter) => 10 * filter.looks(self.saved.songs(), Case::Exact, 3 + tags),
        }
    }

    // Of entries that are taken as they stand, or are sorted.
    fn entries_looks(&self, search: &Search) -> u64
        ensures { result ≡ entries_looks search.now self.now }
    {
        let more = arranged(self.saved.profile(), search.sort, None);
        10 * ((u64::from(search.filter.tests()) + 1 + u64::from(more)) * self.entry_count())
    }

    fn finding_looks(&self, command: &FindingCommand<'_>) -> u64
        ensures { result ≡ finding_looks command.now self.now }
    {
        match command {
            FindingCommand::Add(search, _) => self.search_looks(search),
            FindingCommand::AddToPlaylist(name, search, to) => {
                self.listed_looks(name.as_str(), search, *to)
            }
            FindingCommand::Count(filter) => {
                10 * filter.looks(self.saved.songs(), Case::Exact, 1)
            }
            FindingCommand::CountGroups(_, filter) => self.values_looks(filter.as_ref()),
            FindingCommand::Find(search) => self.search_looks(search),
            FindingCommand::InQueue(search) => self.entries_looks(search),
            FindingCommand::ListFiles(filter) => self.values_looks(filter.as_ref()),
            FindingCommand::ListGroups(tags, filter) => {
                let tags = tags.as_slice().len().min(TAG_COUNT) as u8;
                self.groups_looks(tags, filter.as_ref())
            }
            FindingCommand::ListTag(_, filter) => self.values_looks(filter.as_ref()),
        }
    }

    // Of the songs of a playlist, if there is one of this name.
    fn list_looks(&self, name: &str) -> u64
        ensures { result ≡ list_looks (songs_named self.now.saved.lists name.now) }
    {
        let lists = self.saved.lists();
        let _limits = lists.len();
        match lists.get(name) {
            Ok(songs) => 50 * songs.len() as u64,
            Err(_) => 0,
        }
    }

    // Of the songs between two places of a playlist, if there is one of this name.
    fn moved_looks(&self, name: &str, from: u32, to: u32) -> u64
        ensures { result ≡ moved_looks (songs_named self.now.saved.lists name.now) from to }
    {
        match self.saved.lists().get(name) {
            Ok(songs) => gap_of(songs, from, to),
            Err(_) => 0,
        }
    }

    // The same for each song of a range.
    fn block_looks(&self, name: &str, range: PositionRange, to: u32) -> u64
        ensures { result ≡ block_looks (songs_named self.now.saved.lists name.now) range to }
    {
        let lists = self.saved.lists();
        let _limits = lists.len();
        match lists.get(name) {
            Ok(songs) => match span_in(range, songs.len() as u32) {
                Ok(block) => {
                    (u64::from(block.count()) + 1) * (gap_of(songs, block.start, to) + 1)
                }
                Err(_) => 0,
            },
            Err(_) => 0,
        }
    }

    fn range_looks(&self, name: &str, range: PositionRange, to: u32) -> u64
        ensures { result ≡ range_looks (songs_named self.now.saved.lists name.now) range to }
    {
        match range {
            PositionRange::One(from) => self.moved_looks(name, from, to),
            PositionRange::From(_) | PositionRange::Between(_, _) => {
                self.block_looks(name, range, to)
            }
        }
    }

    // How many songs a path names.
    fn count_named(&self, path: &str) -> u64
        ensures count { result ≡ count_named self.now.saved.songs path.now }
        ensures few { result ≤ 65536 }
    {
        let songs = self.saved.songs();
        let _limit = songs.len();
        match songs.row_number(path) {
            Ok(_) => 1,
            Err(_) => match songs.told_under(Place::read(path)) {
                Ok(rows) => rows.len() as u64,
                Err(_) => 0,
            },
        }
    }

    // For each song at a path that comes into a playlist, those behind its place.
    #[tactic(auto, unfolding(crate::specs::Looks::added_looks))]
    fn added_looks(&self, name: &str, path: &str, to: Option<u32>) -> u64
        ensures { result ≡ added_looks name.now path.now to self.now }
    {
        self.placed_looks(self.count_named(path), name, to)
    }

    fn lists_looks(&self, command: &ListsCommand<'_>) -> u64
        ensures { result ≡ lists_looks command.now self.now }
    {
        match command {
            ListsCommand::Add(name, path, to) => {
                self.added_looks(name.as_str(), path.as_str(), *to)
            }
            ListsCommand::Load(name, _, _) => self.list_looks(name.as_str()),
            ListsCommand::Move(name, range, to) => self.range_looks(name.as_str(), *range, *to),
            ListsCommand::Save(_, _) => 10 * self.entry_count(),
            ListsCommand::SongsInfo(name) => self.list_looks(name.as_str()),
            _ => 0,
        }
    }

    fn stickers_looks(&self, command: &StickersCommand<'_>) -> u64
        ensures { result ≡ stickers_looks command.now self.now }
    {
        match command {
            StickersCommand::Find(_, _, _) => 10 * self.saved.stickers().len() as u64,
            _ => 0,
        }
    }

    fn database_looks(&self, command: &DatabaseCommand<'_>) -> u64
        ensures { result ≡ database_looks command.now self.now }
    {
        match command {
            DatabaseCommand::ListFiles(_) => self.row_count(),
            DatabaseCommand::ListInfo(_) => self.row_count(),
            DatabaseCommand::Stats => self.row_count(),
            _ => 0,
        }
    }

    fn settings_looks(&self, command: &SettingsCommand) -> u64
        ensures { result ≡ settings_looks command.now self.now }
    {
        match command {
            SettingsCommand::Random(_) => self.entry_count(),
            SettingsCommand::Status => self.choice_looks(),
            _ => 0,
        }
    }
}
