//! Lines of one name or value each, and of counts.
ghost use Rattle.std.specs.Prelude.{[], if◌then◌else◌};
ghost use Rattle.command_text.specs.Answer.{Adds};
ghost use Rattle.command_text.specs.AnswerNames.{directory_line, list_time, playlist_lines, sticker_line, value_line, tag_type_line};
ghost use Rattle.command_text.specs.AnswerNames.{channel_line, message_lines};
ghost use Rattle.command_text.specs.AnswerNames.{changed_line, command_line, count_lines, database_lines, listed_commands, times_lines};
ghost use Rattle.command_text.specs.Names.{is_listed};

use crate::answer::dates::write_time;
use crate::answer::pairs::{append, write_number, write_pair};
use crate::answer::times::write_whole_seconds;
use crate::name::CommandName;
use crate::table::{count, name_at};
use idle_masks::Subsystem;
use no_memory::NoMemory;
use profile::Profile;
use song_files::Tag;

/// Adds the line `directory: PATH`.
pub fn write_directory(out: &mut Vec<u8>, path: &str) -> Result<(), NoMemory>
    ensures { Adds (directory_line path.now) result out.old out.new }
{
    write_pair(out, "directory", path.as_bytes())
}

/// Adds the line `playlist: NAME`, and behind it, in the wide profile, when it was last changed, in seconds since the beginning of 1970:
/// clients take 0 for an unknown time.
pub fn write_playlist(
    out: &mut Vec<u8>,
    profile: Profile,
    name: &str,
    seconds: u64,
) -> Result<(), NoMemory>
    ensures { Adds (playlist_lines profile seconds name.now) result out.old out.new }
{
    write_pair(out, "playlist", name.as_bytes())?;
    write_list_time(out, profile, seconds)
}

fn write_list_time(out: &mut Vec<u8>, profile: Profile, seconds: u64) -> Result<(), NoMemory>
    ensures { Adds (list_time profile seconds) result out.old out.new }
{
    match profile {
        Profile::Named => Ok(()),
        Profile::Wide => write_time(out, "Last-Modified", seconds),
    }
}

/// Adds the line `sticker: NAME=VALUE`.
pub fn write_sticker(out: &mut Vec<u8>, name: &str, value: &str) -> Result<(), NoMemory>
    ensures { Adds (sticker_line name.now value.now) result out.old out.new }
{
    append(
        out,
        &[b"sticker: ", name.as_bytes(), b"=", value.as_bytes(), b"\n"],
    )
}

/// Adds the line `channel: NAME`.
pub fn write_channel(out: &mut Vec<u8>, name: &str) -> Result<(), NoMemory>
    ensures { Adds (channel_line name.now) result out.old out.new }
{
    write_pair(out, "channel", name.as_bytes())
}

/// Adds the lines of a message: its channel and its text.
pub fn write_message(out: &mut Vec<u8>, channel: &str, text: &str) -> Result<(), NoMemory>
    ensures { Adds (message_lines channel.now text.now) result out.old out.new }
{
    write_channel(out, channel)?;
    write_pair(out, "message", text.as_bytes())
}

/// Adds the line `TAG: VALUE`.
pub fn write_value(out: &mut Vec<u8>, tag: Tag, value: &str) -> Result<(), NoMemory>
    ensures { Adds (value_line tag value.now) result out.old out.new }
{
    write_pair(out, tag.name(), value.as_bytes())
}

/// Adds the line `tagtype: TAG`.
pub fn write_tag_type(out: &mut Vec<u8>, tag: Tag) -> Result<(), NoMemory>
    ensures { Adds (tag_type_line tag) result out.old out.new }
{
    write_pair(out, "tagtype", tag.name().as_bytes())
}

/// Adds the line `command: NAME` for each command that is listed.
pub fn write_commands(out: &mut Vec<u8>, profile: Profile) -> Result<(), NoMemory>
    ensures { Adds (listed_commands profile) result out.old out.new }
{
    for place in 0..count() {
        write_listed(out, profile, name_at(place))?;
    }
    Ok(())
}

fn write_listed(out: &mut Vec<u8>, profile: Profile, name: CommandName) -> Result<(), NoMemory>
    ensures { Adds (if is_listed profile name then command_line name else []) result out.old out.new }
{
    if !name.is_listed(profile) {
        return Ok(());
    }
    write_pair(out, "command", name.text().as_bytes())
}

/// Adds the line `changed: SUBSYSTEM`.
pub fn write_changed(out: &mut Vec<u8>, subsystem: Subsystem) -> Result<(), NoMemory>
    ensures { Adds (changed_line subsystem) result out.old out.new }
{
    write_pair(out, "changed", subsystem.name().as_bytes())
}

/// Adds the lines of `count`: `songs`, and `playtime` in whole seconds.
pub fn write_counts(out: &mut Vec<u8>, songs: usize, milliseconds: u128) -> Result<(), NoMemory>
    ensures { Adds (count_lines songs milliseconds) result out.old out.new }
{
    write_number(out, "songs", songs)?;
    write_whole_seconds(out, "playtime", milliseconds)
}

/// Adds the lines of `stats`: `artists`, `albums`, `songs`, and `db_playtime` in whole seconds.
pub fn write_statistics(
    out: &mut Vec<u8>,
    artists: usize,
    albums: usize,
    songs: usize,
    milliseconds: u128,
) -> Result<(), NoMemory>
    ensures { Adds (database_lines artists albums songs milliseconds) result out.old out.new }
{
    write_number(out, "artists", artists)?;
    write_number(out, "albums", albums)?;
    write_number(out, "songs", songs)?;
    write_whole_seconds(out, "db_playtime", milliseconds)
}

/// Adds the times of `stats`: for how many seconds the daemon has run, and when its database was last updated, in seconds since 1970.
pub fn write_times(out: &mut Vec<u8>, uptime: u64, db_update: u64) -> Result<(), NoMemory>
    ensures { Adds (times_lines uptime db_update) result out.old out.new }
{
    write_number(out, "uptime", uptime)?;
    write_number(out, "db_update", db_update)
}
