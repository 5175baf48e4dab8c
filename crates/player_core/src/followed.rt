// What follows a song that is over.
ghost use Rattle.std.specs.Prelude.{◌≡◌, ◌<◌, ℕ, List, [], Some, length, IsTrue};
ghost use Rattle.indexmap.specs.IndexSet.{spare};
ghost use Rattle.player_core.specs.Choice.{chosen, this_round};
ghost use Rattle.player_core.specs.Ending.{is_on, is_oneshot, consumed, after_single, single_by, followed_by, gone_on_or_stopped, order_of};
ghost use Rattle.player_core.specs.Ending.{repeats_one, waits, held, held_if, is_paused, turns_off};
ghost use Rattle.player_core.specs.Player.{player_of};

use crate::block::Block;
use crate::choice::Choice;
use crate::choosing::{NOTHING, choose};
use crate::manners::Manners;
use crate::options::{Options, Single};
use crate::placing::behind;
use crate::played::go_on;
use crate::playing::{PlayState, Playing};
use crate::round_words::WordTable;
use crate::settings::PlaySettings;
use indexmap::IndexSet;
use play_queue::Entries;

// The block of the entry that leaves under consume.
pub(crate) fn consumed(entries: &Entries, consume: bool, at: usize) -> Block
    requires { at < length entries.now }
    ensures { result ≡ consumed consume at }
{
    if consume {
        Block {
            start: at,
            end: behind(entries, at),
        }
    } else {
        Block::NONE
    }
}

// The same song once more.
pub(crate) fn again(current: u32) -> Choice
    ensures { result ≡ this_round (Some current) }
{
    Choice {
        id: Some(current),
        order: None,
    }
}

// What is started after the current entry without `single`.
pub(crate) fn next_in_order(
    entries: &Entries,
    settings: &PlaySettings,
    consumes: bool,
    played: &IndexSet<u32>,
    at: usize,
    current: u32,
    words: &mut WordTable,
) -> Choice
    requires { at < length entries.now }
    ensures { result ≡ chosen settings.now entries.now (consumed consumes at) [] played.now.keys at current }
{
    let block = consumed(entries, consumes, at);
    choose(entries, settings, block, &[], played, at, current, words)
}

fn after_single(consume: bool, repeat: bool, current: u32) -> Option<Choice>
    ensures { result ≡ after_single consume repeat current }
{
    if consume {
        Some(NOTHING)
    } else if repeat {
        Some(again(current))
    } else {
        None
    }
}

// What is started after the current entry with `single`.
fn with_single(
    entries: &Entries,
    settings: &PlaySettings,
    played: &IndexSet<u32>,
    at: usize,
    current: u32,
    words: &mut WordTable,
) -> Option<Choice>
    requires { at < length entries.now }
    ensures { let options = settings.now.options in result ≡ single_by settings.now.manners (is_on options.consume) options.repeat current
        (chosen settings.now entries.now (consumed (is_on options.consume) at) [] played.now.keys at current) }
{
    let options = settings.options;
    let consumes = is_on(options.consume);
    match settings.manners {
        Manners::Named => after_single(consumes, options.repeat, current),
        Manners::Mpd => {
            if !consumes && options.repeat {
                Some(again(current))
            } else {
                let next = next_in_order(entries, settings, consumes, played, at, current, words);
                Some(next)
            }
        }
    }
}

// What is started after the current entry; none where the player stops and the song stays current.
pub(crate) fn followed_by(
    entries: &Entries,
    settings: &PlaySettings,
    single: Single,
    played: &IndexSet<u32>,
    at: usize,
    current: u32,
    words: &mut WordTable,
) -> Option<Choice>
    requires { at < length entries.now }
    ensures { result ≡ followed_by settings.now single entries.now played.now.keys at current }
{
    let options = settings.options;
    match single {
        Single::Off => Some(next_in_order(
            entries,
            settings,
            is_on(options.consume),
            played,
            at,
            current,
            words,
        )),
        Single::On | Single::Oneshot => {
            with_single(entries, settings, played, at, current, words)
        }
    }
}

pub(crate) fn go_on_or_stop(
    playing: &mut Playing,
    played: &mut IndexSet<u32>,
    random: bool,
    next: Option<Choice>,
)
    requires { IsTrue random → 0 < spare played.old }
    ensures { player_of playing.new played.new.keys ≡ gone_on_or_stopped random (player_of playing.old played.old.keys) next }
{
    match next {
        Some(choice) => go_on(playing, played, random, choice),
        None => {
            playing.state = PlayState::Stop;
            playing.frame = 0;
        }
    }
}

pub(crate) fn order_of(next: Option<Choice>) -> Option<u64>
    ensures { result ≡ order_of next }
{
    match next {
        Some(choice) => choice.order,
        None => None,
    }
}

pub(crate) fn is_on(option: Single) -> bool
    ensures { result ≡ is_on option }
{
    match option {
        Single::On | Single::Oneshot => true,
        Single::Off => false,
    }
}

pub(crate) fn is_oneshot(option: Single) -> bool
    ensures { result ≡ is_oneshot option }
{
    match option {
        Single::Oneshot => true,
        Single::Off | Single::On => false,
    }
}

// Whether, as MPD has it, a song is followed by itself alone.
pub(crate) fn repeats_one(manners: Manners, options: Options) -> bool
    ensures { result ≡ repeats_one manners options }
{
    match manners {
        Manners::Named => false,
        Manners::Mpd => is_on(options.single) && options.repeat && !is_on(options.consume),
    }
}

// Whether what follows is paused.
pub(crate) fn waits(single: Single, manners: Manners, repeat: bool) -> bool
    ensures { result ≡ waits single manners repeat }
{
    match single {
        Single::Off => false,
        Single::On | Single::Oneshot => match manners {
            Manners::Named => false,
            Manners::Mpd => !repeat,
        },
    }
}

fn held(state: PlayState) -> PlayState
    ensures { result ≡ held state }
{
    match state {
        PlayState::Stop => PlayState::Stop,
        PlayState::Play | PlayState::Pause => PlayState::Pause,
    }
}

// Pauses what has just been started.
pub(crate) fn hold_if(playing: &mut Playing, waits: bool)
    ensures { (played : List ℕ) → player_of playing.new played ≡ held_if waits (player_of playing.old played) }
{
    if waits {
        playing.state = held(playing.state);
    }
}

fn is_paused(state: PlayState) -> bool
    ensures { result ≡ is_paused state }
{
    match state {
        PlayState::Stop | PlayState::Play => false,
        PlayState::Pause => true,
    }
}

// Whether `oneshot` of `single` is off, once what follows has this state.
pub(crate) fn turns_off(single: Single, manners: Manners, after: PlayState) -> bool
    ensures { result ≡ turns_off single manners after }
{
    match single {
        Single::Off | Single::On => false,
        Single::Oneshot => match manners {
            Manners::Named => true,
            Manners::Mpd => is_paused(after),
        },
    }
}
