// The lines of the stored playlists, one after the other.
ghost use Rattle.std.specs.Prelude.{◌≡◌, map};
ghost use Rattle.std.specs.List.{flat_map};
ghost use Rattle.std.specs.Option.{option_copied};
ghost use Rattle.command_text.specs.Answer.{Adds};
ghost use Rattle.command_text.specs.AnswerSongs.{file_line};
ghost use Rattle.machine_core.specs.Database.{root_lists};
ghost use Rattle.machine_core.specs.Lists.{list_lines, name_lines, song_info, time_in};

use command_text::{NoMemory, TagMask, write_file, write_playlist, write_song};
use profile::Profile;
use song_db::{Place, SongDb, Uri};
use stored_lists::{ListTimes, Lists};

// When a playlist was last changed; 0 where that isn't known.
fn time_in(times: Option<&ListTimes>, name: &str) -> u64
    ensures { result ≡ time_in (option_copied times.entry) name.now }
{
    match times {
        Some(times) => times.seconds_of(name),
        None => 0,
    }
}

fn write_list(
    out: &mut Vec<u8>,
    profile: Profile,
    times: Option<&ListTimes>,
    name: &str,
) -> Result<(), NoMemory>
    ensures { Adds (list_lines profile (option_copied times.entry) name.now) result out.old out.new }
{
    write_playlist(out, profile, name, time_in(times, name))
}

// Adds the names of the playlists, with the times where the profile tells them.
pub(crate) fn write_list_names(
    out: &mut Vec<u8>,
    profile: Profile,
    times: Option<&ListTimes>,
    lists: &Lists,
) -> Result<(), NoMemory>
    ensures { Adds (name_lines profile (option_copied times.entry) lists.now) result out.old out.new }
{
    for name in lists.names() {
        write_list(out, profile, times, name)?;
    }
    Ok(())
}

// Adds the URIs of songs.
pub(crate) fn write_uris(out: &mut Vec<u8>, songs: &[Uri]) -> Result<(), NoMemory>
    ensures { Adds (flat_map file_line songs.now) result out.old out.new }
{
    for uri in songs {
        write_file(out, uri.as_str())?;
    }
    Ok(())
}

// Adds the lines of each song, or its URI alone where the song is gone.
pub(crate) fn write_song_infos(
    out: &mut Vec<u8>,
    mask: TagMask,
    database: &SongDb,
    songs: &[Uri],
) -> Result<(), NoMemory>
    ensures { Adds (flat_map (song_info mask database.now) songs.now) result out.old out.new }
{
    for uri in songs {
        write_song_info(out, mask, database, uri.as_str())?;
    }
    Ok(())
}

// Adds the names of the playlists behind the root, where the profile tells them there.
pub(crate) fn write_root_lists(
    out: &mut Vec<u8>,
    profile: Profile,
    times: Option<&ListTimes>,
    lists: &Lists,
    place: Place<'_>,
) -> Result<(), NoMemory>
    ensures { Adds (root_lists profile (option_copied times.entry) lists.now place.entry) result out.old out.new }
{
    match profile {
        Profile::Named => Ok(()),
        Profile::Wide => match place {
            Place::Root => write_list_names(out, profile, times, lists),
            Place::At(_) => Ok(()),
        },
    }
}

fn write_song_info(
    out: &mut Vec<u8>,
    mask: TagMask,
    database: &SongDb,
    uri: &str,
) -> Result<(), NoMemory>
    ensures { Adds (song_info mask database.now uri.now) result out.old out.new }
{
    match database.get(uri) {
        Ok(row) => write_song(out, mask, row),
        Err(_) => write_file(out, uri),
    }
}
