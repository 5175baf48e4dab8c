// A song of the database, within the limits of rates, channels and texts.
ghost use Rattle.std.specs.Prelude.{◌≡◌, ◌↔◌, ◌<◌, ◌^◌, ◌&&◌, nat_le, IfOk, IsTrue, Some, None, if◌then◌else◌, option_copied};
ghost use Rattle.std.specs.List.{list_all};
ghost use Rattle.std.specs.Str.{bytes_eq};
ghost use Rattle.song_files.specs.Tag.{is_tag};
ghost use Rattle.song_files.specs.Tags.{first_text};
ghost use Rattle.song_db.specs.Duration.{milliseconds};
ghost use Rattle.song_db.specs.Row.{row_of, is_good_tag, is_plain, is_plain_from, is_within_limits, is_kept_by, is_row, tags_size};
ghost use Rattle.song_db.specs.Same.{same_tags, same_stamp, same_row};
ghost use Rattle.song_db.specs.Valued.{has_text, has_value};

use crate::limits::MAX_ROW_TAG_BYTES;
use crate::uri::Uri;
use profile::Profile;
use song_files::{FileStamp, MAX_TAGS, Tag, Tags};
use std::alloc::{AllocError, Global};
use std::marker::Model;
use std::sync::Arc;
use wave_pcm::{MAX_RATE, WaveInfo};

// What a row says.
#[derive(Debug, Drop)]
struct RowParts {
    uri: Uri,
    info: WaveInfo,
    stamp: Option<FileStamp>,
}

/// A song of the database: its URI, how to find its frames, its tags, and the stamp of its file.
///
/// Its rate is 1 to 192,000 frames a second, its channels are 1 or 2, and each text of its tags has 1 to 512 bytes of
/// UTF-8 without a control character. It is one block of memory beside its texts, which its copies share.
#[derive(Debug, Drop)]
pub struct SongRow {
    parts: Arc<RowParts>,
}

impl Model for SongRow {
    ghost use Rattle.std.specs.Prelude.{IsTrue};
    ghost use Rattle.song_db.specs.Row.{Row, row_of, is_within_limits};

    ghost Value = { Row };

    ghost view = { λ r. row_of r.parts.value.uri r.parts.value.info r.parts.value.stamp };

    ghost invariant = { λ r. IsTrue (is_within_limits (row_of r.parts.value.uri r.parts.value.info r.parts.value.stamp)) };
}

impl SongRow {
    /// The row of a song whose file has the head and, where stamps are kept, this stamp; `None` where the head passes a limit.
    pub fn new(
        alloc: Global,
        uri: Uri,
        info: WaveInfo,
        stamp: Option<FileStamp>,
    ) -> Result<Option<SongRow>, AllocError>
        ensures { IfOk result (λ row. row ≡ (if is_within_limits (row_of uri info stamp) then Some (row_of uri info stamp) else None)) }
    {
        if !has_good_format(&info) || !has_good_tags(&info.tags) {
            return Ok(None);
        }
        let parts = Arc::new(alloc, RowParts { uri, info, stamp })?;
        Ok(Some(SongRow { parts }))
    }

    pub fn uri(&self) -> &str
        ensures text { result.now ≡ self.now.uri }
        ensures row { IsTrue (is_row self.now) }
    {
        self.parts.uri.as_str()
    }

    pub fn as_uri(&self) -> &Uri
        ensures { result.now ≡ self.now.uri }
    {
        &self.parts.uri
    }

    /// How to find its frames, and its tags.
    pub fn info(&self) -> &WaveInfo
        ensures { row_of self.now.uri result.now self.now.stamp ≡ self.now }
    {
        &self.parts.info
    }

    /// All its tags with their texts, in the order of the tags' numbers.
    pub fn tags(&self) -> &Tags
        ensures { result.now ≡ self.now.tags }
    {
        &self.parts.info.tags
    }

    /// The first text of a tag.
    pub fn tag(&self, tag: Tag) -> Option<&str>
        ensures { option_copied result ≡ first_text self.now.tags tag }
    {
        self.parts.info.tags.get(tag)
    }

    /// The stamp that its file had when it was read; `None` where the library keeps none.
    pub fn stamp(&self) -> Option<FileStamp>
        ensures { result ≡ self.now.stamp }
    {
        self.parts.stamp
    }

    /// Whether what is saved under a profile has a place for all that the row says: under the named subset one text at most of each
    /// of the six tags with the lowest numbers, and no stamp; else texts of 30,000 bytes, with three more for each.
    pub fn is_kept_by(&self, profile: Profile) -> bool
        ensures { result ≡ is_kept_by profile self.now }
    {
        match profile {
            Profile::Named => has_plain_tags(&self.parts.info.tags) && self.parts.stamp.is_none(),
            Profile::Wide => has_short_tags(&self.parts.info.tags),
        }
    }

    /// Whether one of the texts of a tag is this one.
    pub fn has_value(&self, tag: Tag, value: &str) -> bool
        ensures { result ≡ has_value tag value.now self.now }
    {
        has_text(&self.parts.info.tags, tag, value)
    }

    /// How many milliseconds it plays, rounded down.
    pub fn milliseconds(&self) -> u128
        ensures value { result ≡ milliseconds self.now }
        ensures bound { result < 2 ^ 74 }
    {
        let info = &self.parts.info;
        u128::from(info.frames) * 1_000 / u128::from(info.rate)
    }

    /// Whether the other row says the same: URI, frames, tags and stamp.
    pub fn is_same(&self, other: &SongRow) -> bool
        ensures value { result ≡ same_row self.now other.now }
        ensures same { IsTrue result ↔ (self.now ≡ other.now) }
    {
        self.says_same(other)
    }

    fn says_same(&self, other: &SongRow) -> bool
        ensures { result ≡ same_row self.now other.now }
    {
        let info = &self.parts.info;
        let others = &other.parts.info;
        self.uri() == other.uri()
            && info.rate == others.rate
            && info.channels == others.channels
            && info.first_byte == others.first_byte
            && info.frames == others.frames
            && are_same(&info.tags, &others.tags)
            && is_same_stamp(self.parts.stamp, other.parts.stamp)
    }

    /// The same row once more, in the same memory. Refused where it has 2^63 copies.
    pub fn try_clone(&self) -> Result<SongRow, AllocError>
        ensures { IfOk result (λ row. row ≡ self.now) }
    {
        let parts = Arc::try_clone(&self.parts)?;
        Ok(SongRow { parts })
    }
}

fn has_good_format(info: &WaveInfo) -> bool
    ensures { result ≡ (nat_le 1 info.now.rate && (nat_le info.now.rate MAX_RATE && (nat_le 1 info.now.channels && nat_le
        info.now.channels 2))) }
{
    1 <= info.rate && info.rate <= MAX_RATE && 1 <= info.channels && info.channels <= 2
}

// Whether the texts are good, as those of all tags are.
fn has_good_tags(tags: &Tags) -> bool
    ensures { result ≡ list_all is_good_tag tags.now }
{
    tags.len() <= MAX_TAGS
}

// How many tags a row of the named subset may have texts of: those with the lowest numbers.
const PLAIN_TAGS: u8 = 6;

// Whether there is one text at most of each of the six tags with the lowest numbers, and none of another.
fn has_plain_tags(tags: &Tags) -> bool
    ensures { result ≡ is_plain tags.now }
{
    let mut next = 0u8;
    for at in 0..tags.len() {
        let number = tags.at(at).0.number();
        if number < next || number >= PLAIN_TAGS {
            return false;
        }
        next = number + 1;
    }
    true
}

// Whether the texts take no more bytes than a row may have, with three more for each.
fn has_short_tags(tags: &Tags) -> bool
    ensures { result ≡ nat_le (tags_size tags.now) MAX_ROW_TAG_BYTES }
{
    let mut left = MAX_ROW_TAG_BYTES;
    for at in 0..tags.len() {
        let size = 3 + tags.at(at).1.len();
        if size > left {
            return false;
        }
        left -= size;
    }
    true
}

// Whether one of the texts of a tag is this one.
fn has_text(tags: &Tags, tag: Tag, value: &str) -> bool
    ensures { result ≡ has_text tags.now tag value.now }
{
    for at in 0..tags.len() {
        let (own, text) = tags.at(at);
        if is_text(own, text, tag, value) {
            return true;
        }
    }
    false
}

fn is_text(own: Tag, text: &str, tag: Tag, value: &str) -> bool
    ensures { result ≡ (is_tag own tag && bytes_eq text.now value.now) }
{
    own == tag && text == value
}

fn are_same(tags: &Tags, others: &Tags) -> bool
    ensures { result ≡ same_tags tags.now others.now }
{
    tags.is_same(others)
}

pub(crate) fn is_same_stamp(stamp: Option<FileStamp>, other: Option<FileStamp>) -> bool
    ensures { result ≡ same_stamp stamp other }
{
    match (stamp, other) {
        (None, None) => true,
        (Some(stamp), Some(other)) => {
            stamp.modified == other.modified && stamp.length == other.length
        }
        _ => false,
    }
}
