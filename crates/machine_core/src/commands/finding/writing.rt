// The lines of what is found, written while songs and entries are looked at.
ghost use Rattle.std.specs.Prelude.{◌≡◌, None, map};
ghost use Rattle.std.specs.Option.{option_copied};
ghost use Rattle.std.specs.List.{flat_map};
ghost use Rattle.command_text.specs.Answer.{Adds};
ghost use Rattle.command_text.specs.AnswerSongs.{file_line, song_lines};
ghost use Rattle.profile.specs.declared.profile.Profile.TheVariants.{Named};
ghost use Rattle.machine_core.specs.Finding.{Writes, chosen, found, matching, part_of};

use super::gathering::matching_rows;
use super::part::Part;
use super::windowed;
use crate::answer::write_songs;
use command_text::{NoMemory, Search, TagMask, write_file, write_song};
use filter_expr::{Case, Filter};
use song_db::{SongDb, SongRow};
use std::alloc::Global;

// Adds the rows that match, and of these a part. The rows behind the part aren't looked at.
pub(super) fn write_matching(
    out: &mut Vec<u8>,
    alloc: Global,
    mask: TagMask,
    rows: &[SongRow],
    case: Case,
    filter: &Filter,
    part: Part,
) -> Result<(), NoMemory>
    ensures { Writes (flat_map (song_lines mask) (part_of part (matching case filter.now rows.now))) result out.old out.new }
{
    let mut part = part;
    for row in rows {
        if part.is_over() {
            return Ok(());
        }
        if !filter.matches(alloc, row, case)? {
            continue;
        }
        if !part.takes() {
            continue;
        }
        write_song(out, mask, row)?;
    }
    Ok(())
}

// Adds the rows that match where the case counts: they are gathered first, as few may have to be looked at.
fn write_selected(
    out: &mut Vec<u8>,
    alloc: Global,
    mask: TagMask,
    songs: &SongDb,
    search: &Search,
) -> Result<(), NoMemory>
    requires { search.now.sort ≡ None }
    ensures { Writes (flat_map (song_lines mask) (found Named search.now songs.now)) result out.old out.new }
{
    let found = matching_rows(alloc, songs, search.case, &search.filter)?;
    write_songs(out, mask, windowed(&found, search.window))
}

// Adds what a search finds that stays by URI.
pub(super) fn write_by_uri(
    out: &mut Vec<u8>,
    alloc: Global,
    mask: TagMask,
    songs: &SongDb,
    search: &Search,
) -> Result<(), NoMemory>
    requires { search.now.sort ≡ None }
    ensures { Writes (flat_map (song_lines mask) (found Named search.now songs.now)) result out.old out.new }
{
    match search.case {
        Case::Exact => write_selected(out, alloc, mask, songs, search),
        Case::Folded => {
            let part = Part::of_window(search.window, songs.len());
            write_matching(
                out,
                alloc,
                mask,
                songs.rows(),
                search.case,
                &search.filter,
                part,
            )
        }
    }
}

// Adds the files of all songs, or of those that match.
pub(super) fn write_chosen_files(
    out: &mut Vec<u8>,
    alloc: Global,
    songs: &SongDb,
    filter: Option<&Filter>,
) -> Result<(), NoMemory>
    ensures { Writes (flat_map (λ row. file_line row.uri) (chosen (option_copied filter.entry) songs.now)) result out.old out.new }
{
    match filter {
        None => write_files(out, songs.rows()),
        Some(filter) => {
            let found = matching_rows(alloc, songs, Case::Exact, filter)?;
            write_found_files(out, &found)
        }
    }
}

fn write_files(out: &mut Vec<u8>, rows: &[SongRow]) -> Result<(), NoMemory>
    ensures { Adds (flat_map (λ row. file_line row.uri) rows.now) result out.old out.new }
{
    for row in rows {
        write_file(out, row.uri())?;
    }
    Ok(())
}

fn write_found_files(out: &mut Vec<u8>, rows: &[&SongRow]) -> Result<(), NoMemory>
    ensures { Adds (flat_map (λ row. file_line row.uri) (map (λ row. row.now) rows.now)) result out.old out.new }
{
    for row in rows {
        write_file(out, row.uri())?;
    }
    Ok(())
}
