// What a player shows together with the queue.
ghost use Rattle.std.specs.Prelude.{◌≡◌, ◌<◌, length};
ghost use Rattle.player_core.specs.Shown.{started_next, next_by, shown};

use super::Player;
use crate::choice::Choice;
use crate::followed::{again, followed_by, is_on, next_in_order};
use crate::manners::Manners;
use crate::placing::placed;
use crate::round_words::WordTable;
use crate::settings::PlaySettings;
use crate::shown::Shown;
use indexmap::IndexSet;
use play_queue::Entries;

// The id of what is started, where no random round begins with it.
fn started_next(next: Option<Choice>) -> Option<u32>
    ensures { result ≡ started_next next }
{
    let choice = next?;
    if choice.order.is_some() {
        return None;
    }
    choice.id
}

// What is shown as what follows the current entry.
fn next_by(
    entries: &Entries,
    settings: &PlaySettings,
    played: &IndexSet<u32>,
    at: usize,
    current: u32,
    words: &mut WordTable,
) -> Option<Choice>
    requires { at < length entries.now }
    ensures { result ≡ next_by settings.now.manners settings.now entries.now played.now.keys at current }
{
    let options = settings.options;
    match settings.manners {
        Manners::Named => {
            followed_by(
                entries,
                settings,
                options.single,
                played,
                at,
                current,
                words,
            )
        }
        Manners::Mpd => {
            if is_on(options.single) && options.repeat {
                Some(again(current))
            } else {
                Some(next_in_order(entries, settings, false, played, at, current, words))
            }
        }
    }
}

impl Player {
    /// The current song's position, and the position and the id of the song that its end would start in play, if no random round begins
    /// with it. As MPD has it, that is what follows in the order of songs, whatever `single` and `consume` are, but with `single` and
    /// `repeat` the song itself. In random mode it may draw a word for each entry: `KeptNext` keeps what it answers.
    pub fn shown(&self, entries: &Entries, settings: &PlaySettings) -> Shown
        ensures { result ≡ shown entries.now settings.now self.now }
    {
        self.shown_by(entries, settings, &mut self.words_apart(settings))
    }

    // Words of a random round, apart from those that the player keeps.
    pub(crate) fn words_apart(&self, settings: &PlaySettings) -> WordTable {
        WordTable::new(*self.played.allocator(), settings.key, settings.order)
    }

    // What is shown, by words of which those that are made are kept.
    pub(crate) fn shown_by(
        &self,
        entries: &Entries,
        settings: &PlaySettings,
        words: &mut WordTable,
    ) -> Shown
        ensures { result ≡ shown entries.now settings.now self.now }
    {
        let Some((at, current)) = placed(entries, self.playing.current) else {
            return Shown {
                current: None,
                next: None,
            };
        };
        let next = next_by(entries, settings, &self.played, at, current, words);
        Shown {
            current: Some(at),
            next: placed(entries, started_next(next)),
        }
    }
}
