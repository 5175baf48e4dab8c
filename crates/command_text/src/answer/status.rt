//! The lines of `status` (MPD protocol reference 0.23, "Querying MPD's status").
ghost use Rattle.std.specs.Prelude.{◌≡◌, Some, None, option_copied};
ghost use Rattle.command_text.specs.Answer.{Adds};
ghost use Rattle.command_text.specs.AnswerTimes.{milliseconds_at};
ghost use Rattle.command_text.specs.AnswerStatus.{switch_text, single_text, state_text, setting_lines, current_lines, next_lines};
ghost use Rattle.command_text.specs.AnswerStatus.{time_lines, playing_lines, played_lines, job_line, job_lines, error_lines};
ghost use Rattle.command_text.specs.AnswerStatus.{status_lines, told_errors, volume_line};
ghost use Rattle.player_core.specs.declared.failure.PlayFailure.TheVariants.{Withheld};

use crate::answer::pairs::{append, write_number, write_pair, write_position_and_id};
use crate::answer::songs::write_format;
use crate::answer::times::{milliseconds_at, write_elapsed_of_total, write_exact_seconds};
use itoa::Buffer;
use no_memory::NoMemory;
use player_core::{Options, PlayFailure, PlayState, Single, Volume};
use song_db::SongRow;

/// The current song, as `status` shows it.
#[derive(Drop)]
pub struct CurrentSong<'a> {
    /// Its position in the queue.
    pub position: usize,
    pub id: u32,
    /// How many of its frames were played.
    pub frame: u64,
    pub row: &'a SongRow,
}

/// What `status` shows.
#[derive(Drop)]
pub struct StatusLines<'a> {
    pub volume: Volume,
    pub options: Options,
    /// The version of the queue.
    pub version: u32,
    /// How many entries the queue has.
    pub length: usize,
    pub state: PlayState,
    pub current: Option<CurrentSong<'a>>,
    /// The position and the id of the song that the end of the current one would start, where no new random round begins with it.
    pub next: Option<(usize, u32)>,
    /// The job that updates the database.
    pub job: Option<u32>,
    pub error: Option<&'a PlayFailure>,
    /// Whether nobody has read the output for a while, which is told where nothing has failed.
    pub is_unread: bool,
}

fn switch_text(on: bool) -> &'static [u8]
    ensures { result.now ≡ switch_text on }
{
    if on { b"1" } else { b"0" }
}

fn single_text(single: Single) -> &'static [u8]
    ensures { result.now ≡ single_text single }
{
    match single {
        Single::Off => b"0",
        Single::On => b"1",
        Single::Oneshot => b"oneshot",
    }
}

fn state_text(state: PlayState) -> &'static [u8]
    ensures { result.now ≡ state_text state }
{
    match state {
        PlayState::Stop => b"stop",
        PlayState::Play => b"play",
        PlayState::Pause => b"pause",
    }
}

/// Adds the line `volume: N`.
pub fn write_volume(out: &mut Vec<u8>, volume: Volume) -> Result<(), NoMemory>
    ensures { Adds (volume_line volume) result out.old out.new }
{
    write_number(out, "volume", volume.percent())
}

fn write_settings(out: &mut Vec<u8>, volume: Volume, options: Options) -> Result<(), NoMemory>
    ensures { Adds (setting_lines volume options) result out.old out.new }
{
    write_volume(out, volume)?;
    write_pair(out, "repeat", switch_text(options.repeat))?;
    write_pair(out, "random", switch_text(options.random))?;
    write_pair(out, "single", single_text(options.single))?;
    write_pair(out, "consume", single_text(options.consume))
}

fn write_current(out: &mut Vec<u8>, current: &Option<CurrentSong<'_>>) -> Result<(), NoMemory>
    ensures { Adds (current_lines current.now) result out.old out.new }
{
    match current {
        Some(song) => write_position_and_id(out, "song", song.position, "songid", song.id),
        None => Ok(()),
    }
}

fn write_next(out: &mut Vec<u8>, next: Option<(usize, u32)>) -> Result<(), NoMemory>
    ensures { Adds (next_lines next) result out.old out.new }
{
    match next {
        Some((position, id)) => {
            write_position_and_id(out, "nextsong", position, "nextsongid", id)
        }
        None => Ok(()),
    }
}

/// Adds the lines of how far a song has played, how long it is, and its format.
fn write_time(out: &mut Vec<u8>, elapsed: u128, row: &SongRow) -> Result<(), NoMemory>
    ensures { Adds (time_lines elapsed row.now) result out.old out.new }
{
    let total = row.milliseconds();
    write_elapsed_of_total(out, elapsed, total)?;
    write_exact_seconds(out, "elapsed", elapsed)?;
    write_exact_seconds(out, "duration", total)?;
    write_format(out, "audio", row.info())
}

/// The milliseconds that were played of the song.
fn elapsed(frame: u64, row: &SongRow) -> u128
    ensures { result ≡ milliseconds_at row.now.rate frame }
{
    let _uri = row.uri();
    milliseconds_at(row.info().rate, frame)
}

fn write_played(out: &mut Vec<u8>, current: &Option<CurrentSong<'_>>) -> Result<(), NoMemory>
    ensures { Adds (played_lines current.now) result out.old out.new }
{
    match current {
        Some(song) => write_time(out, elapsed(song.frame, song.row), song.row),
        None => Ok(()),
    }
}

fn write_playing(
    out: &mut Vec<u8>,
    state: PlayState,
    current: &Option<CurrentSong<'_>>,
) -> Result<(), NoMemory>
    ensures { Adds (playing_lines state current.now) result out.old out.new }
{
    match state {
        PlayState::Stop => Ok(()),
        PlayState::Play | PlayState::Pause => write_played(out, current),
    }
}

/// Adds the line `updating_db: JOB`.
pub fn write_job(out: &mut Vec<u8>, job: u32) -> Result<(), NoMemory>
    ensures { Adds (job_line job) result out.old out.new }
{
    write_number(out, "updating_db", job)
}

fn write_running_job(out: &mut Vec<u8>, job: Option<u32>) -> Result<(), NoMemory>
    ensures { Adds (job_lines job) result out.old out.new }
{
    match job {
        Some(job) => write_job(out, job),
        None => Ok(()),
    }
}

fn write_error(out: &mut Vec<u8>, error: Option<&PlayFailure>) -> Result<(), NoMemory>
    ensures { Adds (error_lines (option_copied error.entry)) result out.old out.new }
{
    match error {
        Some(PlayFailure::CannotPlay(uri)) => append(
            out,
            &[b"error: cannot play ", uri.as_str().as_bytes(), b"\n"],
        ),
        Some(PlayFailure::OutputFailed) => write_pair(out, "error", b"output failed"),
        Some(PlayFailure::Withheld { missing, songs }) => write_withheld(out, *missing, *songs),
        None => Ok(()),
    }
}

fn write_withheld(out: &mut Vec<u8>, missing: usize, songs: usize) -> Result<(), NoMemory>
    ensures { Adds (error_lines (Some (Withheld missing songs))) result out.old out.new }
{
    append(
        out,
        &[
            b"error: update would drop ",
            Buffer::new().format(missing).as_bytes(),
            b" of ",
            Buffer::new().format(songs).as_bytes(),
            b" songs: is the music there?\n",
        ],
    )
}

fn write_unread(out: &mut Vec<u8>, is_unread: bool) -> Result<(), NoMemory>
    ensures { Adds (told_errors None is_unread) result out.old out.new }
{
    if is_unread {
        write_pair(out, "error", b"nobody reads the output")
    } else {
        Ok(())
    }
}

fn write_told_error(
    out: &mut Vec<u8>,
    error: Option<&PlayFailure>,
    is_unread: bool,
) -> Result<(), NoMemory>
    ensures { Adds (told_errors (option_copied error.entry) is_unread) result out.old out.new }
{
    match error {
        Some(_) => write_error(out, error),
        None => write_unread(out, is_unread),
    }
}

/// Adds the lines of `status`: `volume` to `state`; `song` and `songid`, `nextsong` and `nextsongid` where there are such
/// songs; `time`, `elapsed`, `duration` and `audio` in play and in pause; `updating_db` while a job runs; an `error`, if any.
pub fn write_status(out: &mut Vec<u8>, status: &StatusLines<'_>) -> Result<(), NoMemory>
    ensures { Adds (status_lines status.now) result out.old out.new }
{
    write_settings(out, status.volume, status.options)?;
    write_number(out, "playlist", status.version)?;
    write_number(out, "playlistlength", status.length)?;
    write_pair(out, "state", state_text(status.state))?;
    write_current(out, &status.current)?;
    write_next(out, status.next)?;
    write_playing(out, status.state, &status.current)?;
    write_running_job(out, status.job)?;
    write_told_error(out, status.error, status.is_unread)
}
