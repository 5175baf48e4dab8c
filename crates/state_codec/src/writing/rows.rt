// Song rows and the changes of a batch, appended to room that was taken before.
ghost use Rattle.std.specs.Prelude.{◌≡◌, ◌<◌, ◌≤◌, [], Some, length, IfSome, slice_get, slice_index_or};
ghost use Rattle.std.specs.List.{All, flat_map};
ghost use Rattle.song_files.specs.Tags.{TagText, first_text};
ghost use Rattle.song_db.specs.Row.{row_of};
ghost use Rattle.state_codec.specs.Appended.{HasRoom, Appends};
ghost use Rattle.state_codec.specs.Changes.{IsChange, AreChanges};
ghost use Rattle.state_codec.specs.SpellingRows.{tag_bytes, tags_bytes, stamp_bytes, numbered_bytes, texts_bytes};
ghost use Rattle.state_codec.specs.SpellingRows.{told_bytes, row_fields_bytes, row_bytes, change_bytes, changes_bytes};

use super::bytes::{put_byte, put_text, put_u32, put_u64, text_len};
use crate::op::Changes;
use profile::Profile;
use song_db::{RowChange, SongRow};
use song_files::{FileStamp, Tag, Tags};
use wave_pcm::WaveInfo;

// How many bytes the first text of a tag takes, or that there is none.
fn tag_len(tags: &Tags, tag: Tag) -> usize
    ensures len { result ≡ length (tag_bytes (first_text tags.now tag)) }
    ensures within { result ≤ 515 }
{
    are_short(tags);
    match tags.get(tag) {
        None => 1,
        Some(text) => 1 + text_len(text),
    }
}

fn put_tag(out: &mut Vec<u8>, tags: &Tags, tag: Tag)
    requires { HasRoom out.old (length (tag_bytes (first_text tags.now tag))) }
    ensures { Appends out.old out.new (tag_bytes (first_text tags.now tag)) }
{
    are_short(tags);
    match tags.get(tag) {
        None => put_byte(out, 0),
        Some(text) => {
            put_byte(out, 1);
            put_text(out, text);
        }
    }
}

// A text of a tag is no longer than 512 bytes.
fn are_short(tags: &Tags)
    ensures { (tag : Tag) → IfSome (first_text tags.now tag) (λ text. length text ≤ 512) }
{
    let _count = tags.len();
}

fn tags_len(tags: &Tags) -> usize
    ensures len { result ≡ length (tags_bytes tags.now) }
    ensures within { result ≤ 3090 }
{
    let mut len = 0;
    for number in 0..6 {
        len += tag_len(tags, Tag::at(number));
    }
    len
}

fn put_tags(out: &mut Vec<u8>, tags: &Tags)
    requires { HasRoom out.old (length (tags_bytes tags.now)) }
    ensures { Appends out.old out.new (tags_bytes tags.now) }
{
    for number in 0..6 {
        put_tag(out, tags, Tag::at(number));
    }
}

/// How many bytes the texts of all tags take.
pub(crate) fn texts_len(tags: &Tags) -> usize
    ensures len { result ≡ length (texts_bytes tags.now) }
    ensures within { result ≤ 131326 }
{
    let mut len = 1;
    for at in 0..tags.len() {
        len += numbered_len(tags, at);
    }
    len
}

// How many bytes a text takes with the number of its tag.
fn numbered_len(tags: &Tags, at: usize) -> usize
    requires { at < length tags.now }
    ensures len { (d : TagText) → result ≡ length (numbered_bytes (slice_index_or tags.now at d)) }
    ensures within { result ≤ 515 }
{
    let (_tag, text) = short_at(tags, at);
    1 + text_len(text)
}

// A text and its tag, by its place. It is no longer than 512 bytes.
fn short_at(tags: &Tags, at: usize) -> (Tag, &str)
    requires { at < length tags.now }
    ensures text { slice_get tags.now at ≡ Some (record { tag = result.0; text = result.1.now }) }
    ensures short { length result.1.now ≤ 512 }
{
    let _good = tags.len();
    tags.at(at)
}

fn put_numbered(out: &mut Vec<u8>, tag: Tag, text: &str)
    requires short { length text.now ≤ 512 }
    requires room { HasRoom out.old (length (numbered_bytes (record { tag = tag; text = text.now }))) }
    ensures { Appends out.old out.new (numbered_bytes (record { tag = tag; text = text.now })) }
{
    put_byte(out, tag.number());
    put_text(out, text);
}

fn put_texts(out: &mut Vec<u8>, tags: &Tags)
    requires { HasRoom out.old (length (texts_bytes tags.now)) }
    ensures { Appends out.old out.new (texts_bytes tags.now) }
{
    put_byte(out, tags.len() as u8);
    put_each(out, tags);
}

// All texts, without their number.
fn put_each(out: &mut Vec<u8>, tags: &Tags)
    requires { HasRoom out.old (length (flat_map numbered_bytes tags.now)) }
    ensures { Appends out.old out.new (flat_map numbered_bytes tags.now) }
{
    for at in 0..tags.len() {
        let pair = short_at(tags, at);
        put_numbered(out, pair.0, pair.1);
    }
}

fn stamp_len(stamp: Option<FileStamp>) -> usize
    ensures len { result ≡ length (stamp_bytes stamp) }
    ensures within { result ≤ 17 }
{
    if stamp.is_some() { 17 } else { 1 }
}

fn put_stamp(out: &mut Vec<u8>, stamp: Option<FileStamp>)
    requires { HasRoom out.old (length (stamp_bytes stamp)) }
    ensures { Appends out.old out.new (stamp_bytes stamp) }
{
    match stamp {
        None => put_byte(out, 0),
        Some(stamp) => {
            put_byte(out, 1);
            put_u64(out, stamp.modified);
            put_u64(out, stamp.length);
        }
    }
}

// How many bytes tell what a row tells beside its frames.
fn told_len(profile: Profile, stamp: Option<FileStamp>, tags: &Tags) -> usize
    ensures len { result ≡ length (told_bytes profile stamp tags.now) }
    ensures within { result ≤ 131343 }
{
    match profile {
        Profile::Named => tags_len(tags),
        Profile::Wide => stamp_len(stamp) + texts_len(tags),
    }
}

fn put_told(out: &mut Vec<u8>, profile: Profile, stamp: Option<FileStamp>, tags: &Tags)
    requires { HasRoom out.old (length (told_bytes profile stamp tags.now)) }
    ensures { Appends out.old out.new (told_bytes profile stamp tags.now) }
{
    match profile {
        Profile::Named => put_tags(out, tags),
        Profile::Wide => {
            put_stamp(out, stamp);
            put_texts(out, tags);
        }
    }
}

// How many bytes follow the URI of a row.
fn head_len(profile: Profile, info: &WaveInfo, stamp: Option<FileStamp>) -> usize
    ensures len { result ≡ length (row_fields_bytes profile (row_of [] info.now stamp)) }
    ensures within { result ≤ 131364 }
{
    21 + told_len(profile, stamp, &info.tags)
}

fn put_head(out: &mut Vec<u8>, profile: Profile, info: &WaveInfo, stamp: Option<FileStamp>)
    requires channels { info.now.channels ≤ 2 }
    requires room { HasRoom out.old (length (row_fields_bytes profile (row_of [] info.now stamp))) }
    ensures { Appends out.old out.new (row_fields_bytes profile (row_of [] info.now stamp)) }
{
    put_u32(out, info.rate);
    put_byte(out, info.channels as u8);
    put_u64(out, info.first_byte);
    put_u64(out, info.frames);
    put_told(out, profile, stamp, &info.tags);
}

/// How many bytes a row takes.
pub(crate) fn row_len(profile: Profile, row: &SongRow) -> usize
    ensures len { result ≡ length (row_bytes profile row.now) }
    ensures within { result ≤ 132390 }
{
    text_len(row.uri()) + head_len(profile, row.info(), row.stamp())
}

/// Appends a row.
pub(crate) fn put_row(out: &mut Vec<u8>, profile: Profile, row: &SongRow)
    requires { HasRoom out.old (length (row_bytes profile row.now)) }
    ensures { Appends out.old out.new (row_bytes profile row.now) }
{
    put_text(out, row.uri());
    put_head(out, profile, row.info(), row.stamp());
}

fn change_len(profile: Profile, change: &RowChange) -> usize
    requires { IsChange change.now }
    ensures len { result ≡ length (change_bytes profile change.now) }
    ensures within { result ≤ 132391 }
{
    match change {
        RowChange::Put(row) => 1 + row_len(profile, row),
        RowChange::Drop(uri) => 1 + text_len(uri.as_str()),
    }
}

fn put_change(out: &mut Vec<u8>, profile: Profile, change: &RowChange)
    requires form { IsChange change.now }
    requires room { HasRoom out.old (length (change_bytes profile change.now)) }
    ensures { Appends out.old out.new (change_bytes profile change.now) }
{
    match change {
        RowChange::Put(row) => {
            put_byte(out, 1);
            put_row(out, profile, row);
        }
        RowChange::Drop(uri) => {
            put_byte(out, 0);
            put_text(out, uri.as_str());
        }
    }
}

/// How many bytes the changes of a batch take.
pub(crate) fn changes_len(profile: Profile, changes: &Changes) -> usize
    ensures len { result ≡ length (changes_bytes profile changes.now) }
    ensures within { result ≤ 8473025 }
{
    let mut len = 1;
    for change in changes.as_slice() {
        len += change_len(profile, change);
    }
    len
}

fn put_all(out: &mut Vec<u8>, profile: Profile, changes: &[RowChange])
    requires form { All IsChange changes.now }
    requires room { HasRoom out.old (length (flat_map (change_bytes profile) changes.now)) }
    ensures { Appends out.old out.new (flat_map (change_bytes profile) changes.now) }
{
    for change in changes {
        put_change(out, profile, change);
    }
}

/// Appends the changes of a batch.
pub(crate) fn put_changes(out: &mut Vec<u8>, profile: Profile, changes: &Changes)
    requires { HasRoom out.old (length (changes_bytes profile changes.now)) }
    ensures appended { Appends out.old out.new (changes_bytes profile changes.now) }
    ensures form { AreChanges changes.now }
{
    let changes = changes.as_slice();
    put_byte(out, changes.len() as u8);
    put_all(out, profile, changes);
}
