// What `status` shows of the current song and the next one, and how it is kept.
ghost use Rattle.std.specs.Prelude.{◌≡◌, Some, None};
ghost use Rattle.std.specs.Option.{ForSome};
ghost use Rattle.player_core.specs.Shown.{shown};

use crate::player::Player;
use crate::round_words::WordTable;
use crate::settings::PlaySettings;
use play_queue::Entries;
use std::marker::Model;

/// What `status` shows of the player and the queue together.
#[derive(Clone, Copy, Debug, PartialEq, Eq)]
pub struct Shown {
    /// The position of the current song.
    pub current: Option<usize>,
    /// The position and the id of the song that the end of the current one would start in play, or as MPD has it follows in the order of
    /// songs; none where it would begin a new random round.
    pub next: Option<(usize, u32)>,
}

/// What is shown, kept until the queue, the options, the played list, the current song or the order number
/// change: the choice of the next song in random mode costs a look at each
/// id. Words of the random round that were drawn are kept longer.
#[derive(Debug, Drop)]
pub struct KeptNext {
    kept: Option<Shown>,
    // What is kept of the words of the random round. No contract sees it.
    words: Option<WordTable>,
}

impl Model for KeptNext {
    ghost use Rattle.std.specs.Prelude.{Option};
    ghost use Rattle.player_core.specs.declared.shown.Shown.{Shown};

    ghost Value = { Option Shown };

    ghost view = { λ k. k.kept };
}

impl KeptNext {
    /// Nothing is kept.
    pub fn new() -> KeptNext
        ensures { result ≡ None }
    {
        KeptNext {
            kept: None,
            words: None,
        }
    }

    /// Something has changed.
    pub fn forget(&mut self)
        ensures { self.new ≡ None }
    {
        self.kept = None;
    }

    /// What is shown, in constant time where it is kept.
    pub fn look(&mut self, player: &Player, entries: &Entries, settings: &PlaySettings) -> Shown
        requires right { ForSome self.old (λ kept. kept ≡ shown entries.now settings.now player.now) }
        ensures shown { result ≡ shown entries.now settings.now player.now }
        ensures kept { self.new ≡ Some (shown entries.now settings.now player.now) }
    {
        if let Some(kept) = self.kept {
            return kept;
        }
        let mut words = match self.words.take() {
            Some(words) => words,
            None => player.words_apart(settings),
        };
        let made = player.shown_by(entries, settings, &mut words);
        self.words = Some(words);
        self.kept = Some(made);
        made
    }
}
