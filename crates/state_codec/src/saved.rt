// The saved half of the state: what a restart finds again.
ghost use Rattle.std.specs.Prelude.{◌≡◌, IfOk, IsOk, OnErr, OnOk};
ghost use Rattle.std.specs.Option.{option_copied};
ghost use Rattle.state_codec.specs.SavedState.{IsSavedState, first_place, first_times, fresh, widened};
ghost use Rattle.state_codec.specs.Stored.{state_of};

use no_memory::NoMemory;
use play_queue::Queue;
use player_core::{Options, Place, Volume};
use profile::Profile;
use song_db::SongDb;
use std::alloc::Global;
use std::marker::Model;
use stickers::Stickers;
use stored_lists::{ListTimes, Lists};

mod applying;
mod batch;
mod checking;
mod list_edits;
mod parts;
mod placing;
mod queue_edits;
mod replacing;
mod row_edits;
mod sticker_edits;
mod telling;
mod timing;

pub use batch::{dropped_by, row_behind};
pub use parts::SavedParts;
pub(crate) use placing::{has_no_ids, is_start};

/// The state that is kept on disk. Each URI of the queue and of a sticker has a row.
#[derive(Debug, Drop)]
pub struct Saved {
    parts: SavedParts,
}

impl Model for Saved {
    ghost use Rattle.state_codec.specs.SavedState.{SavedState, IsSavedState};

    ghost Value = { SavedState };

    ghost use Rattle.state_codec.specs.Stored.{state_of};

    ghost view = { λ s. state_of s.parts };

    ghost invariant = { λ s. IsSavedState (state_of s.parts) };
}

impl Saved {
    /// The state of a new journal, whose random order is drawn from this key. Under the wide profile it takes the memory that the player's
    /// place and the playlists' times may need, and else none yet.
    pub fn fresh(alloc: Global, profile: Profile, key: [u8; 32]) -> Result<Self, NoMemory>
        ensures ok { IfOk result (λ saved. saved ≡ fresh profile key) }
        ensures named { profile ≡ Profile.Named → IsOk result }
    {
        Ok(Saved {
            parts: SavedParts {
                profile,
                key,
                order: 0,
                volume: Volume::default(),
                options: Options::default(),
                songs: SongDb::new(alloc),
                queue: Queue::new(alloc),
                lists: Lists::new(alloc),
                stickers: Stickers::new(alloc),
                place: first_place(alloc, profile)?,
                changed: first_times(alloc, profile)?,
            },
        })
    }

    /// The state of these parts.
    pub fn from_parts(parts: SavedParts) -> Self
        requires { IsSavedState (state_of parts) }
        ensures { result ≡ state_of parts }
    {
        Saved { parts }
    }

    /// What the daemon knows of MPD, and so the form in which the state is saved.
    pub fn profile(&self) -> Profile
        ensures { result ≡ self.now.profile }
    {
        self.parts.profile
    }

    /// Brings the state to the wide profile, which keeps all that the other one does, and takes the memory that the player's place and
    /// the playlists' times may need. Without it the state stays as it was.
    pub fn widen(&mut self, alloc: Global) -> Result<(), NoMemory>
        ensures ok { OnOk result (self.new ≡ widened self.old) }
        ensures err { OnErr result (self.new ≡ self.old) }
        ensures wide { self.old.profile ≡ Profile.Wide → IsOk result }
    {
        match self.parts.profile {
            Profile::Named => {
                let place = Place::new(alloc)?;
                let times = ListTimes::new(alloc)?;
                self.parts.place = Some(place);
                self.parts.changed = Some(times);
                self.parts.profile = Profile::Wide;
                Ok(())
            }
            Profile::Wide => Ok(()),
        }
    }

    /// The key from which the random order is drawn.
    pub fn key(&self) -> [u8; 32]
        ensures key { result ≡ self.now.key }
        ensures kept { IsSavedState self.now }
    {
        self.parts.key
    }

    /// The number of the random order that is in force.
    pub fn order(&self) -> u64
        ensures { result ≡ self.now.order }
    {
        self.parts.order
    }

    pub fn volume(&self) -> Volume
        ensures { result ≡ self.now.volume }
    {
        self.parts.volume
    }

    pub fn options(&self) -> Options
        ensures { result ≡ self.now.options }
    {
        self.parts.options
    }

    pub fn songs(&self) -> &SongDb
        ensures { result.now ≡ self.now.songs }
    {
        &self.parts.songs
    }

    pub fn queue(&self) -> &Queue
        ensures { result.now ≡ self.now.queue }
    {
        &self.parts.queue
    }

    pub fn lists(&self) -> &Lists
        ensures { result.now ≡ self.now.lists }
    {
        &self.parts.lists
    }

    pub fn stickers(&self) -> &Stickers
        ensures { result.now ≡ self.now.stickers }
    {
        &self.parts.stickers
    }

    /// What is kept of the player.
    pub fn place(&self) -> Option<&Place>
        ensures { option_copied result ≡ self.now.place }
    {
        self.parts.place.as_ref()
    }

    /// When playlists were last changed, where that is kept.
    pub fn changed(&self) -> Option<&ListTimes>
        ensures { option_copied result ≡ self.now.changed }
    {
        self.parts.changed.as_ref()
    }

    /// The same state once more, in memory of its own.
    pub fn try_clone(&self, alloc: Global) -> Result<Saved, NoMemory>
        ensures { IfOk result (λ copy. copy ≡ self.now) }
    {
        let parts = &self.parts;
        Ok(Saved {
            parts: SavedParts {
                profile: parts.profile,
                key: parts.key,
                order: parts.order,
                volume: parts.volume,
                options: parts.options,
                songs: parts.songs.try_clone(alloc).map_err(|_| NoMemory)?,
                queue: parts.queue.try_clone(alloc)?,
                lists: parts.lists.try_clone(alloc)?,
                stickers: parts.stickers.try_clone(alloc)?,
                place: copy_of(alloc, parts.place.as_ref())?,
                changed: copy_of_times(alloc, parts.changed.as_ref())?,
            },
        })
    }
}

// What a new journal keeps of the player.
fn first_place(alloc: Global, profile: Profile) -> Result<Option<Place>, NoMemory>
    ensures place { IfOk result (λ place. place ≡ first_place profile) }
    ensures named { profile ≡ Profile.Named → IsOk result }
{
    match profile {
        Profile::Named => Ok(None),
        Profile::Wide => Ok(Some(Place::new(alloc)?)),
    }
}

// What a new journal keeps of when playlists were changed.
fn first_times(alloc: Global, profile: Profile) -> Result<Option<ListTimes>, NoMemory>
    ensures times { IfOk result (λ times. times ≡ first_times profile) }
    ensures named { profile ≡ Profile.Named → IsOk result }
{
    match profile {
        Profile::Named => Ok(None),
        Profile::Wide => Ok(Some(ListTimes::new(alloc)?)),
    }
}

// Times once more, if they are kept.
fn copy_of_times(alloc: Global, times: Option<&ListTimes>) -> Result<Option<ListTimes>, NoMemory>
    ensures { IfOk result (λ copy. copy ≡ option_copied times.entry) }
{
    match times {
        Some(times) => Ok(Some(times.try_clone(alloc)?)),
        None => Ok(None),
    }
}

// A place once more, if there is one.
fn copy_of(alloc: Global, place: Option<&Place>) -> Result<Option<Place>, NoMemory>
    ensures { IfOk result (λ copy. copy ≡ option_copied place.entry) }
{
    match place {
        Some(place) => Ok(Some(place.try_clone(alloc)?)),
        None => Ok(None),
    }
}
