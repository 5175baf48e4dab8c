// `player_core`: the words beside another implementation, random order, the texts of errors, and the played list where entries leave.
use crate::assertions::{equal, same_numbers, same_text, uri};
use play_queue::{Entries, Entry, Queue, QueueBuilder};
use player_core::{
    Block, BrokenCause, Manners, Options, PlayFailure, PlaySettings, PlayState, Player, Selector,
    Single, word,
};
use song_db::{RowUri, Uri};
use std::alloc::Global;
use std::process::Abort;
use std::test::Fail;

const ZERO: [u8; 32] = [0; 32];

const RISING: [u8; 32] = [
    0, 1, 2, 3, 4, 5, 6, 7, 8, 9, 10, 11, 12, 13, 14, 15, 16, 17, 18, 19, 20, 21, 22, 23, 24, 25,
    26, 27, 28, 29, 30, 31,
];

// Keys, streams and ids, and their words, by an implementation in Python of ChaCha8 whose first block agrees with the published one.
const WORDS: [([u8; 32], u64, u32, u32); 15] = [
    (ZERO, 0, 0, 804192318),
    (ZERO, 0, 1, 3594542985),
    (ZERO, 0, 15, 1123945486),
    (ZERO, 0, 16, 234532562),
    (ZERO, 1, 1, 3389424505),
    (ZERO, 1, 2, 2094280785),
    (ZERO, 1, 3, 3511586127),
    (ZERO, 2, 1000, 623553089),
    (ZERO, 3, 2147483647, 3262077293),
    (ZERO, u64::MAX, 2, 2548857633),
    (ZERO, u64::MAX, 17, 1531497803),
    (RISING, 0, 1, 1789596270),
    (RISING, 1, 5, 347067051),
    (RISING, 2, 16, 251537169),
    (RISING, u64::MAX, 2147483647, 222371133),
];

#[test]
fn words(rt: HostRuntime) {
    for (key, order, id, want) in &WORDS {
        equal(&rt, word(*key, *order, *id), *want);
    }
}

// Ids with a priority and a word.
const DRAWN: [(u32, u8, u32); 5] = [(1, 0, 900), (2, 0, 40), (3, 7, 40), (4, 7, 40), (5, 255, 7)];

#[test]
fn random_order(rt: HostRuntime) -> Result<(), Fail> {
    let ids = player_core::random_order(rt.alloc(), &DRAWN)?;
    same_numbers(&rt, &ids, &[5, 3, 4, 2, 1]);
    Ok(())
}

fn reads(rt: &impl Abort, alloc: Global, failure: &PlayFailure, want: &str) -> Result<(), Fail> {
    same_text(rt, failure.text(alloc)?.as_str(), want);
    Ok(())
}

#[test]
fn texts_of_failures(rt: HostRuntime) -> Result<(), Fail> {
    let failure = PlayFailure::CannotPlay(uri(rt.alloc(), "d/a.wav")?);
    reads(&rt, rt.alloc(), &failure, "cannot play d/a.wav")?;
    reads(&rt, rt.alloc(), &PlayFailure::OutputFailed, "output failed")?;
    let failure = PlayFailure::Withheld {
        missing: 89,
        songs: 120,
    };
    let want = "update would drop 89 of 120 songs: is the music there?";
    reads(&rt, rt.alloc(), &failure, want)
}

/// A queue with the ids 1, 2 and so on; every third song is b.wav, the others are a.wav.
fn queue_of(alloc: Global, count: u32) -> Result<Queue, Fail> {
    let mut builder = QueueBuilder::new(alloc, 1, count.saturating_add(1))
        .ok()
        .ok_or("a version or a next id was refused")?;
    for at in 0..count {
        let id = at + 1;
        let text = if id % 3 == 0 { "b.wav" } else { "a.wav" };
        let entry = Entry {
            id,
            uri: RowUri::new(uri(alloc, text)?, 0),
            priority: 0,
            stamp: 1,
        };
        builder.push(entry).ok().ok_or("an entry was refused")?;
    }
    Ok(builder.finish())
}

fn random_settings(order: u64) -> PlaySettings {
    PlaySettings {
        options: Options {
            repeat: false,
            random: true,
            single: Single::Off,
            consume: Single::Off,
        },
        manners: Manners::Named,
        key: RISING,
        order,
    }
}

/// A player in stop that has played so many of them in one random round, of which each is another one.
fn played_player(alloc: Global, entries: &Entries, count: usize) -> Result<Player, Fail> {
    let mut player = Player::new(alloc);
    let begun = player.resume(entries, &random_settings(0))?;
    let settings = random_settings(begun.order.unwrap_or(0));
    for _ in 1..count {
        let _ = player.next(entries, &settings)?;
    }
    player.stop();
    Ok(player)
}

/// The played list after a block of entries and those of dropped URIs have left, beside a plain one: the ids that stay, in their order.
fn removes(
    rt: &impl Abort,
    alloc: Global,
    count: usize,
    block: Block,
    drops_b: bool,
) -> Result<(), Fail> {
    let queue = queue_of(alloc, 60)?;
    let entries = queue.entries();
    let mut dropped = Vec::new(alloc);
    if drops_b {
        dropped.push(uri(alloc, "b.wav")?)?;
    }
    let mut player = played_player(alloc, entries, count)?;
    let mut plain = Vec::new(alloc);
    for id in player.played() {
        let place = *id as usize;
        let leaves = (block.start < place && place <= block.end) || (drops_b && *id % 3 == 0);
        if !leaves {
            plain.push(*id)?;
        }
    }
    equal(rt, player.played().len(), count);
    let _ = player.follow_removal(entries, &random_settings(1), block, &dropped)?;
    same_numbers(rt, player.played(), &plain);
    Ok(())
}

#[test]
fn played_list_where_entries_leave(rt: HostRuntime) -> Result<(), Fail> {
    for (count, start, end, drops_b) in &REMOVALS {
        let block = Block {
            start: *start,
            end: *end,
        };
        removes(&rt, rt.alloc(), *count, block, *drops_b)?;
    }
    Ok(())
}

// How many songs a random round of 60 entries has played, the block that leaves, and whether b.wav leaves.
const REMOVALS: [(usize, usize, usize, bool); 8] = [
    (50, 5, 45, false),
    (50, 5, 8, false),
    (50, 0, 60, false),
    (50, 20, 90, true),
    (50, 0, 0, true),
    (5, 10, 50, true),
    (60, 30, 38, false),
    (60, 59, 61, false),
];

/// A queue of a.wav with the ids 1, 2 and so on.
fn plain_queue(alloc: Global, count: u32) -> Result<Queue, Fail> {
    let mut builder = QueueBuilder::new(alloc, 1, count.saturating_add(1))
        .ok()
        .ok_or("a version or a next id was refused")?;
    for at in 0..count {
        let entry = Entry {
            id: at + 1,
            uri: RowUri::new(uri(alloc, "a.wav")?, 0),
            priority: 0,
            stamp: 1,
        };
        builder.push(entry).ok().ok_or("an entry was refused")?;
    }
    Ok(builder.finish())
}

// The options of these letters: r repeat, s single, o single once, c consume.
fn settings_by(letters: &str) -> PlaySettings {
    let letters = letters.as_bytes();
    let single = if letters.contains(&b's') {
        Single::On
    } else if letters.contains(&b'o') {
        Single::Oneshot
    } else {
        Single::Off
    };
    let consume = if letters.contains(&b'c') {
        Single::On
    } else {
        Single::Off
    };
    PlaySettings {
        options: Options {
            repeat: letters.contains(&b'r'),
            random: false,
            single,
            consume,
        },
        manners: Manners::Mpd,
        key: RISING,
        order: 0,
    }
}

/// The song that plays can't be read where it is a bad one, else it ends. What leaves the queue and which option is then off is done.
fn go_on(
    queue: &mut Queue,
    player: &mut Player,
    settings: &mut PlaySettings,
    is_bad: bool,
) -> Result<(), Fail> {
    let ticket = player.ticket();
    let changes = if is_bad {
        player.failed(queue.entries(), settings, ticket, BrokenCause::Source)?
    } else {
        player.ended(queue.entries(), settings, ticket)?
    };
    if changes.single_off {
        settings.options.single = Single::Off;
    }
    if let Some(at) = changes.removed {
        queue
            .delete_range(at, at.saturating_add(1))
            .ok()
            .ok_or("a deletion was refused")?;
    }
    Ok(())
}

/// The ids of up to eight songs as they play, of which these can't be read; behind them 0 where the player stops without a song, 90 where it
/// stops with the last one, 91 where that is paused.
fn heard(
    alloc: Global,
    count: u32,
    bad: &[u32],
    letters: &str,
    from: u32,
) -> Result<Vec<u32>, Fail> {
    let mut queue = plain_queue(alloc, count)?;
    let mut settings = settings_by(letters);
    let mut player = Player::new(alloc);
    let mut ids = Vec::new(alloc);
    let _ = player.play(queue.entries(), &settings, Selector::Id(from))?;
    for _ in 0..8 {
        let Some(id) = player.current() else {
            ids.push(0)?;
            break;
        };
        match player.state() {
            PlayState::Play => ids.push(id)?,
            PlayState::Stop => {
                ids.push(90)?;
                break;
            }
            PlayState::Pause => {
                ids.push(id)?;
                ids.push(91)?;
                break;
            }
        }
        go_on(&mut queue, &mut player, &mut settings, bad.contains(&id))?;
    }
    Ok(ids)
}

#[test]
fn songs_past_what_cannot_be_read(rt: HostRuntime) -> Result<(), Fail> {
    for (count, bad, letters, from, want) in &COURSES {
        let ids = heard(rt.alloc(), *count, bad, letters, *from)?;
        same_numbers(&rt, &ids, want);
    }
    Ok(())
}

// As MPD 0.23.12 plays them, but for the fifth and sixth: it counts failures over songs that are played between, and stops.
const COURSES: [(u32, &[u32], &str, u32, &[u32]); 21] = [
    (3, &[2], "", 1, &[1, 2, 3, 0]),
    (3, &[3], "", 2, &[2, 3, 0]),
    (3, &[1], "", 1, &[1, 2, 3, 0]),
    (3, &[1, 2, 3], "", 2, &[2, 3, 0]),
    (3, &[2], "r", 1, &[1, 2, 3, 1, 2, 3, 1, 2]),
    (3, &[2, 3], "r", 1, &[1, 2, 3, 1, 2, 3, 1, 2]),
    (3, &[1, 2, 3], "r", 2, &[2, 3, 1, 90]),
    (1, &[1], "r", 1, &[1, 90]),
    (3, &[2], "s", 2, &[2, 3, 0]),
    (3, &[2], "o", 2, &[2, 3, 0]),
    (3, &[2], "rs", 2, &[2, 90]),
    (3, &[2], "c", 1, &[1, 2, 3, 0]),
    (3, &[1, 2, 3], "c", 1, &[1, 2, 3, 90]),
    (3, &[2], "sc", 2, &[2, 3, 0]),
    (3, &[], "s", 1, &[1, 2, 91]),
    (3, &[], "s", 3, &[3, 0]),
    (3, &[], "rs", 3, &[3, 3, 3, 3, 3, 3, 3, 3]),
    (3, &[], "o", 1, &[1, 2, 91]),
    (3, &[], "ro", 1, &[1, 1, 1, 1, 1, 1, 1, 1]),
    (3, &[], "sc", 1, &[1, 2, 91]),
    (3, &[], "rsc", 1, &[1, 2, 3, 0]),
];
