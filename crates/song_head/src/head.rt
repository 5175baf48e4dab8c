// The head of a song's file.
ghost use Rattle.std.specs.Prelude.{◌≡◌, ◌+◌, ◌<◌, ◌≤◌, ◌^◌, length, true, Ok, Err, IfOk, IfErr, IsErrOf};
ghost use Rattle.id3_tags.specs.Reading.{tag_in};
ghost use Rattle.song_files.specs.Source.{Grows, Keeps};
ghost use Rattle.wave_pcm.specs.Pcm.{HasFrames};
ghost use Rattle.wave_pcm.specs.Reading.{IsVerdict};
ghost use Rattle.wave_pcm.specs.WaveError.{Fails};
ghost use Rattle.song_head.specs.SongReading.{song_reading, with_id3, with_own};

use crate::manner::{Manner, manner_of};
use crate::merged::song_texts;
use crate::rules::ReadingRules;
use id3_tags::{TagError, read_tag};
use song_files::Source;
use std::alloc::Global;
use wave_pcm::{ChunkPlace, WaveError, WaveInfo, read_head, read_head_with_id3};

// The head without an ID3v2 tag, where several texts are told with those of INFO as they are told.
fn with_own(alloc: Global, rules: ReadingRules, info: WaveInfo) -> Result<WaveInfo, WaveError>
    ensures head { IfOk result (λ head. head ≡ with_own rules info) }
    ensures only { IfErr result (λ e. e ≡ WaveError.NoMemory) }
{
    if !rules.several {
        return Ok(info);
    }
    let tags = song_texts(alloc, rules, Manner::First, &info.tags, &[])?;
    Ok(WaveInfo { tags, ..info })
}

// The head with what the ID3v2 tag at a place tells; where none stands there, the head as it is.
fn read_id3<S: Source>(
    alloc: Global,
    source: &mut S,
    rules: ReadingRules,
    info: WaveInfo,
    place: ChunkPlace,
) -> Result<WaveInfo, WaveError>
    requires { place.first + place.len < 2 ^ 64 }
    ensures head { S.honest source.old → place.first + place.len ≤ length (S.bytes source.old) →
        IfOk result (λ head. head ≡ with_id3 rules (tag_in (S.bytes source.old) place.first (place.first + place.len)) info) }
    ensures fault { S.honest source.old → place.first + place.len ≤ length (S.bytes source.old) →
        IfErr result (Fails (Grows (S.faults source.old) (S.faults source.new))) }
    ensures kept { S.honest source.old → Keeps S.bytes S.honest S.faults S.steady source.old source.new }
{
    match read_tag(alloc, source, place.first, place.first + place.len) {
        Ok(tag) => {
            let frames = tag.texts.as_slice();
            let manner = manner_of(rules.several, tag.version, frames);
            let tags = song_texts(alloc, rules, manner, &info.tags, frames)?;
            Ok(WaveInfo { tags, ..info })
        }
        Err(TagError::NoMemory) => Err(WaveError::NoMemory),
        Err(TagError::ReadFault) => Err(WaveError::ReadFault),
        Err(TagError::NotTag) => with_own(alloc, rules, info),
        Err(TagError::Unwritable) => with_own(alloc, rules, info),
    }
}

// The head with what the first chunk `id3 ` tells.
fn read_both<S: Source>(
    alloc: Global,
    source: &mut S,
    rules: ReadingRules,
) -> Result<WaveInfo, WaveError>
    requires { rules.id3 ≡ true }
    ensures head { S.honest source.old → IfOk result (λ info. song_reading (S.bytes source.old) rules ≡ Ok info) }
    ensures frames { S.honest source.old → IfOk result (λ info. HasFrames info (S.bytes source.old)) }
    ensures refused { S.honest source.old → IfErr result (λ e. IsVerdict e → song_reading (S.bytes source.old) rules ≡ Err e) }
    ensures fault { S.honest source.old → IsErrOf result WaveError.ReadFault → Grows (S.faults source.old) (S.faults source.new) }
    ensures steady { S.honest source.old → S.steady source.old → IsErrOf result WaveError.ReadFault → ⊥ }
    ensures kept { S.honest source.old → Keeps S.bytes S.honest S.faults S.steady source.old source.new }
{
    let head = read_head_with_id3(alloc, source, rules.tags)?;
    match head.id3 {
        Some(place) => read_id3(alloc, source, rules, head.info, place),
        None => with_own(alloc, rules, head.info),
    }
}

/// Reads the head of a song's file as `wave_pcm::read_head` does, and, where the rules ask for it, of the first chunk `id3 ` the texts of
/// the tags that the list INFO lacks: a broken one costs its texts, never the song.
///
/// An error leaves the source as any read does. `ReadFault` says nothing about the file, nor does `NoMemory`; each other error is the
/// refusal of the WAVE file.
pub fn read_song<S: Source>(
    alloc: Global,
    source: &mut S,
    rules: ReadingRules,
) -> Result<WaveInfo, WaveError>
    // What is answered is the one reading of the bytes.
    ensures head { S.honest source.old → IfOk result (λ info. song_reading (S.bytes source.old) rules ≡ Ok info) }

    ensures frames { S.honest source.old → IfOk result (λ info. HasFrames info (S.bytes source.old)) }

    // A verdict is that of the bytes; else memory was wanting or the source failed.
    ensures refused { S.honest source.old → IfErr result (λ e. IsVerdict e → song_reading (S.bytes source.old) rules ≡ Err e) }
    ensures fault { S.honest source.old → IsErrOf result WaveError.ReadFault → Grows (S.faults source.old) (S.faults source.new) }
    ensures steady { S.honest source.old → S.steady source.old → IsErrOf result WaveError.ReadFault → ⊥ }
    ensures kept { S.honest source.old → Keeps S.bytes S.honest S.faults S.steady source.old source.new }
{
    if rules.id3 {
        read_both(alloc, source, rules)
    } else {
        read_head(alloc, source, rules.tags)
    }
}
