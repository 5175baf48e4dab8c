// What is done for an order.
ghost use Rattle.std.specs.Prelude.{◌≡◌, ◌≢◌, true, Ok, Some, None, IfOk, IfSome, OnErr};
ghost use Rattle.std.specs.Io.KnownBytes.{Keeps};
ghost use Rattle.song_files.specs.Folder.{bytes_at};
ghost use Rattle.wave_pcm.specs.Pcm.{HasFrames};
ghost use Rattle.song_files.specs.Source.{Keeps as KeepsSource};
ghost use Rattle.song_output.specs.OpenSong.{kind_of, IsOpen, IsPlayedTo, IsSteady, IsSameSong};
ghost use Rattle.song_output.specs.Piece.{AppendsFront, IsPlayed, IsAnswer, IsMoved, IsLeft};
ghost use Rattle.song_output.specs.Sound.{HasNoSound, ordered_sound};

use crate::gate::Gate;
use crate::open_song::{OpenSong, OrderKind, order_kind};
use crate::opening::open_song;
use crate::output::SoundOutput;
use crate::piece::{MAX_FRAMES, Piece};
use crate::reading::read_sound;
use crate::writing::write_bytes;
use no_memory::NoMemory;
use player_core::{BrokenCause, PlayOrder};
use song_files::{Folder, Source};
use std::alloc::Global;
use std::io::Write;

/// The song of an order that isn't `Ended`: the one that is open, or opened anew; `None` where it can't be. No other stays
/// open.
fn take_song<F: Folder>(
    alloc: Global,
    song: &mut Option<OpenSong<F::File>>,
    folder: &mut F,
    kind: OrderKind,
    order: &PlayOrder,
) -> Result<Option<OpenSong<F::File>>, NoMemory>
    requires kind { kind ≡ kind_of song.old order.now }
    requires on { kind ≢ OrderKind.Ended }
    ensures taken { song.new ≡ None }
    ensures opened { F.honest folder.old → IsOpen F.File.bytes F.File.honest (F.files folder.old) song.old →
        IfOk result (IsOpen F.File.bytes F.File.honest (F.files folder.old)) }
    ensures ordered { IfOk result (λ opened. IfSome opened (IsPlayedTo order.now 0)) }
    ensures none { F.honest folder.old → F.steady folder.old → result ≡ Ok None →
        HasNoSound (bytes_at (F.files folder.old) order.now.uri) }
    ensures next { kind ≡ OrderKind.Next → folder.new ≡ folder.old }
    ensures song_steady { F.honest folder.old → F.steady folder.old → IsSteady F.File.steady song.old →
        IfOk result (IsSteady F.File.steady) }
    ensures steady { F.steady folder.old → F.steady folder.new }
    ensures honest { F.honest folder.old → F.honest folder.new × (F.files folder.new ≡ F.files folder.old) }
{
    let opened = song.take();
    if kind == OrderKind::Next {
        return Ok(opened);
    }
    open_song(alloc, folder, order)
}

/// Plays what was ordered of the song that is open.
fn play_open<S: Source, G: Gate, W: Write>(
    alloc: Global,
    song: &mut OpenSong<S>,
    gate: &G,
    output: &mut SoundOutput<W>,
    order: &PlayOrder,
) -> Result<Piece, NoMemory>
    ensures played { S.honest song.old.source → HasFrames song.old.info (S.bytes song.old.source) → IfOk result (IsPlayed
        output.old.form (S.bytes song.old.source) song.old.info order.now
        (W.contents output.old.writer) (W.contents output.new.writer)) }
    ensures source { S.honest song.old.source → HasFrames song.old.info (S.bytes song.old.source) → S.steady song.old.source →
        result ≡ Ok (Piece.Failed BrokenCause.Source) → ⊥ }
    ensures memory { OnErr result (Keeps (W.contents output.old.writer) (W.contents output.new.writer)) }
    ensures form { output.new.form ≡ output.old.form }
    ensures next_frame { IfOk result (IsMoved order.now song.new) }
    ensures rest { IsSameSong song.old song.new }
    ensures kept { S.honest song.old.source → KeepsSource S.bytes S.honest S.faults S.steady song.old.source song.new.source }
{
    let Some(sound) = read_sound(alloc, &mut song.source, &song.info, output.form, order)? else {
        return Ok(Piece::Failed(BrokenCause::Source));
    };
    if !write_bytes(&mut output.writer, gate, &sound) {
        return Ok(Piece::Failed(BrokenCause::Output));
    }
    let left = song.info.frames.saturating_sub(order.first_frame);
    let frames = left.min(MAX_FRAMES as u64);
    song.next_frame = order.first_frame + frames;
    Ok(Piece::Written {
        frames,
        is_last: left == frames,
    })
}

/// Plays what was ordered: at most 4,096 frames of the song's file from the ordered one on, at the order's volume, which
/// go to the output as 16-bit samples, the low byte first and those of a frame side by side. Where the output has the form
/// `Wave`, a head of 44 bytes stands in front of each piece (RIFF WAVE 1.0), which makes it a WAVE file of its own with the
/// song's rate and channels; a piece of no frames is no byte in either form.
///
/// The song stays open for the next order. Where that goes on with it, nothing is opened and no head is read; where it
/// goes back behind what was played, under the same ticket and URI, the song is at its end, and nothing is written. Any
/// other order opens its file anew.
///
/// `Failed` is answered with `Source` where the file is missing, can't be opened or read, or has a head that
/// `wave_pcm::read_head` refuses, and with `Output` where a write failed or took no byte; a front of the piece may have
/// been written then. No song is open afterwards, nor is one after `NoMemory`, which has written nothing.
///
/// The gate is told of each write. That it is told of the reads too, the folder is a `GatedFolder` of the same gate.
pub fn play_piece<F: Folder, G: Gate, W: Write>(
    alloc: Global,
    song: &mut Option<OpenSong<F::File>>,
    folder: &mut F,
    gate: &G,
    output: &mut SoundOutput<W>,
    order: &PlayOrder,
) -> Result<Piece, NoMemory>
    // What is written is a front of what was ordered, in the output's form, which stays; all of it where frames are answered.
    ensures front { (output.new.form ≡ output.old.form) × (F.honest folder.old →
        IsOpen F.File.bytes F.File.honest (F.files folder.old) song.old →
        AppendsFront (W.contents output.old.writer) (W.contents output.new.writer)
        (ordered_sound output.old.form (F.files folder.old) order.now)) }
    ensures played { F.honest folder.old → IsOpen F.File.bytes F.File.honest (F.files folder.old) song.old →
        kind_of song.old order.now ≢ OrderKind.Ended → IfOk result (IsAnswer output.old.form (F.files folder.old) order.now
        (W.contents output.old.writer) (W.contents output.new.writer)) }
    ensures ended { kind_of song.old order.now ≡ OrderKind.Ended → (result ≡ Ok (Piece.Written 0 true)) ×
        Keeps (W.contents output.old.writer) (W.contents output.new.writer) × (song.new ≡ song.old) × (folder.new ≡ folder.old) }

    // A folder and a file that never fail have no such song.
    ensures refused { F.honest folder.old → IsOpen F.File.bytes F.File.honest (F.files folder.old) song.old →
        F.steady folder.old → IsSteady F.File.steady song.old → result ≡ Ok (Piece.Failed BrokenCause.Source) →
        HasNoSound (bytes_at (F.files folder.old) order.now.uri) }
    ensures memory { OnErr result ((song.new ≡ None) × Keeps (W.contents output.old.writer) (W.contents output.new.writer)) }

    // The song stays open, and the next order makes no call of the folder.
    ensures left { kind_of song.old order.now ≢ OrderKind.Ended → IfOk result (IsLeft order.now song.new) }
    ensures next { kind_of song.old order.now ≡ OrderKind.Next → folder.new ≡ folder.old }
    ensures is_open { F.honest folder.old → IsOpen F.File.bytes F.File.honest (F.files folder.old) song.old →
        IsOpen F.File.bytes F.File.honest (F.files folder.new) song.new }
    ensures steady { F.steady folder.old → F.steady folder.new × (F.honest folder.old →
        IsOpen F.File.bytes F.File.honest (F.files folder.old) song.old →
        IsSteady F.File.steady song.old → IsSteady F.File.steady song.new) }
    ensures honest { F.honest folder.old → F.honest folder.new × (F.files folder.new ≡ F.files folder.old) }
{
    let kind = order_kind(song, order);
    if kind == OrderKind::Ended {
        return Ok(Piece::Written {
            frames: 0,
            is_last: true,
        });
    }
    let Some(mut opened) = take_song(alloc, song, folder, kind, order)? else {
        return Ok(Piece::Failed(BrokenCause::Source));
    };
    let piece = play_open(alloc, &mut opened, gate, output, order)?;
    if let Piece::Written { .. } = piece {
        *song = Some(opened);
    }
    Ok(piece)
}
