// The values of tags, each within those of the tag before it, and the songs that tell a value.
ghost use Rattle.std.specs.Prelude.{◌≡◌, ℕ, ◌≤◌, ◌||◌, List, [], map, length, None, IfOk, OnOk, if◌then◌else◌};
ghost use Rattle.std.specs.List.{last_or, range_with_len};
ghost use Rattle.std.specs.Option.{option_copied};
ghost use Rattle.std.specs.Str.{bytes_eq};
ghost use Rattle.profile.specs.declared.profile.Profile.TheVariants.{Wide};
ghost use Rattle.song_db.specs.Duration.{total_of};
ghost use Rattle.song_db.specs.Limits.{MAX_ROWS};
ghost use Rattle.song_files.specs.Tags.{texts_of};
ghost use Rattle.machine_core.specs.Finding.{Writes, chosen, group_counts, group_lines, or_empty, told_texts};
ghost use Rattle.machine_core.specs.Grouped.{AreRising, ends_with, entry_group, groups_of, is_last, is_under, numbers_under, rows_at};
ghost use Rattle.machine_core.specs.Grouped.{run_of, runs_told, to_last, with_number, with_numbers, with_song, with_told};

use crate::work::LONGEST_ANSWER;
use command_text::{NoMemory, write_counts, write_value};
use filter_expr::{Case, Filter, told_tag};
use profile::Profile;
use song_db::{SongDb, SongRow};
use song_files::Tag;
use std::alloc::Global;
use std::collections::BTreeMap;

// Among which songs values are looked for, and by which profile they are told.
#[derive(Clone, Copy)]
pub(super) struct Within<'a> {
    pub profile: Profile,
    pub rows: &'a [SongRow],
}

// A text that songs tell, and the numbers of those songs.
#[derive(Drop)]
struct Run<'a> {
    text: &'a str,
    numbers: Vec<u32>,
}

// Whether the last of these texts is this one.
fn ends_with(runs: &[Run<'_>], text: &str) -> bool
    ensures { result ≡ ends_with (map run_of runs.now) text.now }
{
    match runs.last() {
        None => false,
        Some(last) => last.text == text,
    }
}

// Whether the last of these numbers is this one.
fn ends_in(numbers: &[u32], number: u32) -> bool
    ensures { result ≡ is_last (last_or None numbers.now) number }
{
    match numbers.last() {
        None => false,
        Some(last) => *last == number,
    }
}

// Adds a number, unless it is the last of them.
fn add_number(numbers: &mut Vec<u32>, number: u32) -> Result<(), NoMemory>
    ensures { OnOk result (numbers.new.items ≡ with_number numbers.old.items number) }
{
    if ends_in(numbers.as_slice(), number) {
        return Ok(());
    }
    numbers.push(number)?;
    Ok(())
}

// Adds a number to those of the last text.
fn add_to_last(runs: &mut [Run<'_>], number: u32) -> Result<(), NoMemory>
    ensures { OnOk result (map run_of runs.new ≡ to_last (map run_of runs.old) number) }
{
    let Some(at) = runs.len().checked_sub(1) else {
        return Ok(());
    };
    add_number(&mut runs[at].numbers, number)
}

// Adds a text that a song tells: side by side with the same one it is one run.
fn add_text<'a>(
    alloc: Global,
    runs: &mut Vec<Run<'a>>,
    text: &'a str,
    number: u32,
) -> Result<(), NoMemory>
    ensures { OnOk result (map run_of runs.new.items ≡ with_told (map run_of runs.old.items) text.now number) }
{
    if ends_with(runs.as_slice(), text) {
        return add_to_last(runs.as_mut_slice(), number);
    }
    let mut numbers = Vec::new(alloc);
    numbers.push(number)?;
    runs.push(Run { text, numbers })?;
    Ok(())
}

// Adds the texts that a song has of a tag.
fn add_own<'a>(
    alloc: Global,
    runs: &mut Vec<Run<'a>>,
    row: &'a SongRow,
    tag: Tag,
    number: u32,
) -> Result<(), NoMemory>
    ensures { OnOk result (map run_of runs.new.items ≡ with_song (texts_of row.now.tags tag) number (map run_of runs.old.items)) }
{
    let tags = row.tags();
    for at in 0..tags.len() {
        let (own, text) = tags.at(at);
        if own == tag {
            add_text(alloc, runs, text, number)?;
        }
    }
    Ok(())
}

// The same, or the empty text where it has none.
fn add_own_or_empty<'a>(
    alloc: Global,
    runs: &mut Vec<Run<'a>>,
    row: &'a SongRow,
    tag: Tag,
    number: u32,
) -> Result<(), NoMemory>
    ensures { OnOk result (map run_of runs.new.items
        ≡ with_song (or_empty Wide (texts_of row.now.tags tag)) number (map run_of runs.old.items)) }
{
    if row.tags().get(tag).is_none() {
        return add_text(alloc, runs, "", number);
    }
    add_own(alloc, runs, row, tag, number)
}

// Adds what a song tells of a tag.
fn add_song<'a>(
    alloc: Global,
    runs: &mut Vec<Run<'a>>,
    profile: Profile,
    row: &'a SongRow,
    tag: Tag,
    number: u32,
) -> Result<(), NoMemory>
    ensures { OnOk result (map run_of runs.new.items ≡ with_song (told_texts profile tag row.now) number (map run_of runs.old.items)) }
{
    let told = told_tag(row.tags(), tag);
    match profile {
        Profile::Named => add_own(alloc, runs, row, told, number),
        Profile::Wide => add_own_or_empty(alloc, runs, row, told, number),
    }
}

// What these songs tell of a tag, one song after the other.
fn told_by<'a>(
    alloc: Global,
    within: Within<'a>,
    tag: Tag,
    numbers: &[u32],
) -> Result<Vec<Run<'a>>, NoMemory>
    ensures { IfOk result (λ runs. map run_of runs.items
        ≡ runs_told within.entry.profile tag within.entry.rows.now [] numbers.now) }
{
    let mut runs = Vec::new(alloc);
    for number in numbers {
        if let Some(row) = within.rows.get(*number as usize) {
            add_song(alloc, &mut runs, within.profile, row, tag, *number)?;
        }
    }
    Ok(runs)
}

// Adds numbers, none behind itself.
fn add_numbers(known: &mut Vec<u32>, numbers: &[u32]) -> Result<(), NoMemory>
    ensures { OnOk result (known.new.items ≡ with_numbers known.old.items numbers.now) }
{
    for number in numbers {
        add_number(known, *number)?;
    }
    Ok(())
}

// Adds a run to the songs that tell its text.
fn add_run<'a>(groups: &mut BTreeMap<&'a str, Vec<u32>>, run: &Run<'a>) -> Result<(), NoMemory>
    ensures numbers { OnOk result ((text : List ℕ) → numbers_under groups.new text
        ≡ (if bytes_eq run.now.text.now text then with_numbers (numbers_under groups.old text) run.now.numbers.items
        else numbers_under groups.old text)) }
    ensures texts { OnOk result ((text : List ℕ) → is_under groups.new text ≡ (bytes_eq run.now.text.now text || is_under groups.old
        text)) }
{
    add_numbers(groups.entry(run.text)?.or_default(), run.numbers.as_slice())
}

// The values of a tag that these songs tell, by their bytes, each with the songs that tell it.
fn grouped<'a>(
    alloc: Global,
    within: Within<'a>,
    tag: Tag,
    numbers: &[u32],
) -> Result<BTreeMap<&'a str, Vec<u32>>, NoMemory>
    requires { AreRising numbers.now }
    ensures { IfOk result (λ groups. map entry_group groups.entries
        ≡ groups_of within.entry.profile tag within.entry.rows.now numbers.now) }
{
    let runs = told_by(alloc, within, tag, numbers)?;
    let mut groups = BTreeMap::new(alloc);
    for run in &runs {
        add_run(&mut groups, run)?;
    }
    let _count = groups.len();
    Ok(groups)
}

// Adds the values of tags, each within those of the tag before it. Of an answer that is longer than any that is sent no more is written.
pub(super) fn write_groups(
    out: &mut Vec<u8>,
    alloc: Global,
    within: Within<'_>,
    tags: &[Tag],
    numbers: &[u32],
) -> Result<(), NoMemory>
    requires { AreRising numbers.now }
    ensures { Writes (group_lines within.entry.profile tags.now (rows_at within.entry.rows.now numbers.now)) result out.old out.new }
{
    let Some((tag, inner)) = tags.split_first() else {
        return Ok(());
    };
    let groups = grouped(alloc, within, *tag, numbers)?;
    for (text, told) in groups.iter() {
        if out.len() > LONGEST_ANSWER {
            return Ok(());
        }
        write_value(out, *tag, *text)?;
        write_groups(out, alloc, within, inner, told.as_slice())?;
    }
    Ok(())
}

// Adds the values of a tag, each with how many songs tell it and how long they play.
pub(super) fn write_group_counts(
    out: &mut Vec<u8>,
    alloc: Global,
    within: Within<'_>,
    tag: Tag,
    numbers: &[u32],
) -> Result<(), NoMemory>
    requires rising { AreRising numbers.now }
    requires few { length numbers.now ≤ MAX_ROWS }
    ensures { Writes (group_counts within.entry.profile tag (rows_at within.entry.rows.now numbers.now)) result out.old out.new }
{
    let groups = grouped(alloc, within, tag, numbers)?;
    for (text, told) in groups.iter() {
        write_value(out, tag, *text)?;
        let milliseconds = milliseconds_of(within.rows, told.as_slice());
        write_counts(out, told.len(), milliseconds)?;
    }
    Ok(())
}

// How many milliseconds the songs with these numbers play together.
fn milliseconds_of(rows: &[SongRow], numbers: &[u32]) -> u128
    requires { length numbers.now ≤ MAX_ROWS }
    ensures { result ≡ total_of (rows_at rows.now numbers.now) }
{
    let mut milliseconds: u128 = 0;
    for number in numbers {
        if let Some(row) = rows.get(*number as usize) {
            milliseconds += row.milliseconds();
        }
    }
    milliseconds
}

// The numbers of all songs, or of those that match.
pub(super) fn chosen_numbers(
    alloc: Global,
    songs: &SongDb,
    filter: Option<&Filter>,
) -> Result<Vec<u32>, NoMemory>
    ensures rows { IfOk result (λ numbers. rows_at songs.now numbers.items ≡ chosen (option_copied filter.entry) songs.now) }
    ensures rising { IfOk result (λ numbers. AreRising numbers.items) }
    ensures few { IfOk result (λ numbers. length numbers.items ≤ MAX_ROWS) }
{
    let _limit = songs.len();
    match filter {
        Some(filter) => filter.select(alloc, songs, Case::Exact),
        None => numbers_to(alloc, songs.len()),
    }
}

// The numbers below a count.
fn numbers_to(alloc: Global, count: usize) -> Result<Vec<u32>, NoMemory>
    requires { count ≤ MAX_ROWS }
    ensures { IfOk result (λ numbers. numbers.items ≡ range_with_len 0 count) }
{
    let mut numbers = Vec::with_capacity(alloc, count)?;
    for number in 0..count {
        numbers.push(number as u32)?;
    }
    Ok(numbers)
}
