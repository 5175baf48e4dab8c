// The values that songs tell of a tag. For a tag that a song hasn't, another may stand in.
ghost use Rattle.std.specs.Prelude.{◌≡◌, [], ◌∷◌, map, option_copied, IfOk, IsTrue, MatchOption, OnOk};
ghost use Rattle.filter_expr.specs.Fallback.{fallbacks, told_tag};
ghost use Rattle.profile.specs.declared.profile.Profile.TheVariants.{Wide};
ghost use Rattle.song_db.specs.Query.{values_of, with_texts};
ghost use Rattle.song_db.specs.Row.{Row};
ghost use Rattle.song_files.specs.Tags.{texts_of};
ghost use Rattle.machine_core.specs.Finding.{chosen, or_empty, told_texts, told_values};

use super::gathering::matching_rows;
use command_text::NoMemory;
use filter_expr::{Case, Filter, has_fallback, told_tag};
use profile::Profile;
use song_db::{SongDb, SongRow, Texts, values_among};
use song_files::Tag;
use std::alloc::Global;

// The values of all rows, or of those that match.
pub(super) fn chosen_values<'a>(
    alloc: Global,
    profile: Profile,
    songs: &'a SongDb,
    tag: Tag,
    filter: Option<&Filter>,
) -> Result<Texts<'a>, NoMemory>
    ensures { IfOk result (λ values. values ≡ told_values profile (chosen (option_copied filter.entry) songs.now) tag) }
{
    match filter {
        Some(filter) => {
            let found = matching_rows(alloc, songs, Case::Exact, filter)?;
            values_of_found(alloc, profile, &found, tag)
        }
        None => values_of_all(alloc, profile, songs, tag),
    }
}

// Whether the songs' own texts of a tag are all that is told of it: no other tag stands in for it, and no song has its empty value.
fn tells_own_alone(profile: Profile, tag: Tag) -> bool
    ensures { IsTrue result → (row : Row) → told_texts profile tag row ≡ texts_of row.tags tag }
{
    match profile {
        Profile::Named => !has_fallback(tag),
        Profile::Wide => false,
    }
}

// The values of all songs, which are there where their own texts are all.
fn values_of_all(
    alloc: Global,
    profile: Profile,
    songs: &SongDb,
    tag: Tag,
) -> Result<Texts<'_>, NoMemory>
    ensures { IfOk result (λ values. values ≡ told_values profile songs.now tag) }
{
    if tells_own_alone(profile, tag) {
        return own_values(alloc, songs, tag);
    }
    match profile {
        Profile::Named => told_by_all(alloc, profile, songs.rows(), tag),
        Profile::Wide => wide_values(alloc, songs, tag),
    }
}

// The values of all songs in the wide profile. Songs are looked at only where some have a tag and others another one in its place.
fn wide_values(alloc: Global, songs: &SongDb, tag: Tag) -> Result<Texts<'_>, NoMemory>
    ensures { IfOk result (λ values. values ≡ told_values Wide songs.now tag) }
{
    let next = told_instead(songs, tag);
    let told = told_instead(songs, next);
    let count = songs.count_tagged(told);
    if count == songs.len() {
        return own_values(alloc, songs, told);
    }
    if has_fallback(told) {
        return told_by_all(alloc, Profile::Wide, songs.rows(), told);
    }
    let mut values = own_values(alloc, songs, told)?;
    values.insert("")?;
    Ok(values)
}

// The tag that is told for one: that in its place, where no song has it.
fn told_instead(songs: &SongDb, tag: Tag) -> Tag
    ensures { told_values Wide songs.now result ≡ told_values Wide songs.now tag }
{
    let count = songs.count_tagged(tag);
    if count > 0 {
        return tag;
    }
    match in_place_of(tag) {
        Some(other) => other,
        None => tag,
    }
}

// The tag whose texts stand in for those of one, if there is one. Those in its own place stand in for both.
fn in_place_of(tag: Tag) -> Option<Tag>
    ensures { MatchOption result (fallbacks tag ≡ []) (λ other. fallbacks tag ≡ other ∷ fallbacks other) }
{
    match tag {
        Tag::ArtistSort | Tag::AlbumArtist => Some(Tag::Artist),
        Tag::AlbumSort => Some(Tag::Album),
        Tag::AlbumArtistSort => Some(Tag::AlbumArtist),
        _ => None,
    }
}

// The values that songs have themselves, which stand in the index.
fn own_values(alloc: Global, songs: &SongDb, tag: Tag) -> Result<Texts<'_>, NoMemory>
    ensures { IfOk result (λ values. values ≡ values_of songs.now tag) }
{
    match songs.distinct(alloc, tag) {
        Ok(values) => Ok(values),
        Err(_) => Err(NoMemory),
    }
}

// The values of songs that were found.
fn values_of_found<'a>(
    alloc: Global,
    profile: Profile,
    rows: &[&'a SongRow],
    tag: Tag,
) -> Result<Texts<'a>, NoMemory>
    ensures { IfOk result (λ values. values ≡ told_values profile (map (λ row. row.now) rows.now) tag) }
{
    if !tells_own_alone(profile, tag) {
        return told_by_found(alloc, profile, rows, tag);
    }
    Ok(values_among(alloc, rows, tag)?)
}

fn told_by_all(
    alloc: Global,
    profile: Profile,
    rows: &[SongRow],
    tag: Tag,
) -> Result<Texts<'_>, NoMemory>
    ensures { IfOk result (λ values. values ≡ told_values profile rows.now tag) }
{
    let mut values = Texts::new(alloc);
    for row in rows {
        take_values(&mut values, profile, row, tag)?;
    }
    Ok(values)
}

fn told_by_found<'a>(
    alloc: Global,
    profile: Profile,
    rows: &[&'a SongRow],
    tag: Tag,
) -> Result<Texts<'a>, NoMemory>
    ensures { IfOk result (λ values. values ≡ told_values profile (map (λ row. row.now) rows.now) tag) }
{
    let mut values = Texts::new(alloc);
    for row in rows {
        take_values(&mut values, profile, *row, tag)?;
    }
    Ok(values)
}

// Takes what a song tells of a tag.
fn take_values<'a>(
    values: &mut Texts<'a>,
    profile: Profile,
    row: &'a SongRow,
    tag: Tag,
) -> Result<(), NoMemory>
    ensures { OnOk result (values.new ≡ with_texts values.old (told_texts profile tag row.now)) }
{
    let told = told_tag(row.tags(), tag);
    match profile {
        Profile::Named => take_texts(values, row, told),
        Profile::Wide => take_texts_or_empty(values, row, told),
    }
}

// Takes a song's texts of a tag, or the empty one where it has none.
fn take_texts_or_empty<'a>(
    values: &mut Texts<'a>,
    row: &'a SongRow,
    tag: Tag,
) -> Result<(), NoMemory>
    ensures { OnOk result (values.new ≡ with_texts values.old (or_empty Wide (texts_of row.now.tags tag))) }
{
    if row.tags().get(tag).is_none() {
        values.insert("")?;
        return Ok(());
    }
    take_texts(values, row, tag)
}

// Takes a song's texts of a tag.
fn take_texts<'a>(values: &mut Texts<'a>, row: &'a SongRow, tag: Tag) -> Result<(), NoMemory>
    ensures { OnOk result (values.new ≡ with_texts values.old (texts_of row.now.tags tag)) }
{
    let tags = row.tags();
    for at in 0..tags.len() {
        let (own, text) = tags.at(at);
        if own == tag {
            values.insert(text)?;
        }
    }
    Ok(())
}
