// The reading of URIs, song rows and the changes of a batch.
ghost use Rattle.std.specs.Prelude.{◌≡◌, ◌<◌, ◌≤◌, ◌++◌, ◌∷◌, ℕ, List, [], length, nat_le, IsTrue, IfOk, OnOk, IfSome};
ghost use Rattle.std.specs.Int.{IsInRange};
ghost use Rattle.song_db.specs.Row.{tags_size};
ghost use Rattle.song_files.specs.Tag.{number_of};
ghost use Rattle.song_files.specs.Text.{is_tag_text};
ghost use Rattle.state_codec.specs.Changes.{is_count};
ghost use Rattle.state_codec.specs.Fields.{made, such, both, byte_at, u64_at, text_at};
ghost use Rattle.state_codec.specs.Given.{Gives, GivesText, GivesList, GivesTag, GivesHead, GivesMore, AddsTag};
ghost use Rattle.state_codec.specs.Items.{items_at, counted_at};
ghost use Rattle.state_codec.specs.ReadingRows.{uri_at, tag_at, tags_at, rate_at, channels_at, stamp_at, least_number};
ghost use Rattle.state_codec.specs.ReadingRows.{next_tag_at, next_text_at, text_count_at, texts_at, told_at};
ghost use Rattle.state_codec.specs.ReadingRows.{row_fields_at, row_with, row_at, change_at, changes_at};

use crate::fields::{ReadError, Reader, are_bytes};
use crate::op::Changes;
use crate::writing::texts_len;
use profile::Profile;
use song_db::{MAX_ROW_TAG_BYTES, RowChange, SongRow, Uri};
use song_files::{FileStamp, MAX_TAGS, Tag, Tags, is_tag_text};
use std::alloc::{AllocError, Global};
use wave_pcm::{MAX_RATE, WaveInfo};

// The number of the last text's tag.
fn least_number(tags: &Tags) -> u8
    ensures { result ≡ least_number tags.now }
{
    if tags.is_empty() {
        return 0;
    }
    let last = tags.at(tags.len() - 1);
    last.0.number()
}

// Whether the texts take no more than a row may have.
fn fits_a_row(tags: &Tags) -> bool
    ensures { result ≡ nat_le (tags_size tags.now) MAX_ROW_TAG_BYTES }
{
    texts_len(tags) <= 1 + MAX_ROW_TAG_BYTES
}

// Adds a text behind the others, none of whose tags has a greater number.
fn add_last(tags: &mut Tags, tag: Tag, text: &str) -> Result<(), AllocError>
    requires form { IsTrue (is_tag_text text.now) }
    requires few { length tags.old < MAX_TAGS }
    requires behind { least_number tags.old ≤ number_of tag }
    ensures { OnOk result (tags.new ≡ tags.old ++ (record { tag = tag; text = text.now }) ∷ []) }
{
    let _good = tags.len();
    tags.add(tag, text)?;
    Ok(())
}

impl<'a> Reader<'a> {
    #[tactic(auto, unfolding(crate::specs::Fields::such))]
    pub(crate) fn uri(&mut self, alloc: Global) -> Result<Uri, ReadError>
        ensures { Gives result self.new.rest.now (uri_at self.old.rest.now) }
    {
        let fault = self.fault();
        let text = self.text()?;
        match Uri::read(alloc, text)? {
            Some(uri) => Ok(uri),
            None => Err(fault),
        }
    }

    // The text of a tag, as it stands in the bytes.
    #[tactic(auto, unfolding(crate::specs::Fields::such))]
    fn tag_text(&mut self) -> Result<&'a str, ReadError>
        ensures text { GivesText result self.new.rest.now (such is_tag_text text_at self.old.rest.now) }
        ensures form { IfOk result (λ text. IsTrue (is_tag_text text.now)) }
    {
        let fault = self.fault();
        let text = self.text()?;
        if !is_tag_text(text) {
            return Err(fault);
        }
        Ok(text)
    }

    // No text of a tag, or one.
    #[tactic(auto, unfolding(crate::specs::ReadingRows::tag_at))]
    fn tag(&mut self) -> Result<Option<&'a str>, ReadError>
        ensures tag { GivesTag result self.new.rest.now (tag_at self.old.rest.now) }
        ensures form { IfOk result (λ tag. IfSome tag (λ text. IsTrue (is_tag_text text.now))) }
    {
        match self.rest {
            [0, rest @ ..] => {
                self.rest = rest;
                Ok(None)
            }
            [1, rest @ ..] => {
                self.rest = rest;
                Ok(Some(self.tag_text()?))
            }
            _ => Err(self.fault()),
        }
    }

    // Adds the text of a tag to others, if there is one.
    fn add_tag(&mut self, tag: Tag, tags: &mut Tags) -> Result<(), ReadError>
        ensures { AddsTag result tag tags.old tags.new self.new.rest.now (tag_at self.old.rest.now) }
    {
        if let Some(text) = self.tag()? {
            tags.add(tag, text)?;
        }
        Ok(())
    }

    fn tags(&mut self, alloc: Global) -> Result<Tags, ReadError>
        ensures { Gives result self.new.rest.now (tags_at self.old.rest.now) }
    {
        let mut tags = Tags::new(alloc);
        for number in 0..6 {
            self.add_tag(Tag::at(number), &mut tags)?;
        }
        Ok(tags)
    }

    #[tactic(auto, unfolding(crate::specs::Fields::such))]
    fn channels(&mut self) -> Result<u8, ReadError>
        ensures { Gives result self.new.rest.now (channels_at self.old.rest.now) }
    {
        let fault = self.fault();
        let channels = self.byte()?;
        if channels < 1 || 2 < channels {
            return Err(fault);
        }
        Ok(channels)
    }

    // No stamp of a file, or one.
    #[tactic(auto, unfolding(crate::specs::ReadingRows::stamp_at))]
    fn stamp(&mut self) -> Result<Option<FileStamp>, ReadError>
        ensures { Gives result self.new.rest.now (stamp_at self.old.rest.now) }
    {
        match self.rest {
            [0, rest @ ..] => {
                self.rest = rest;
                Ok(None)
            }
            [1, rest @ ..] => {
                self.rest = rest;
                Ok(Some(self.stamp_numbers()?))
            }
            _ => Err(self.fault()),
        }
    }

    #[tactic(auto, unfolding(crate::specs::Fields::both))]
    fn stamp_numbers(&mut self) -> Result<FileStamp, ReadError>
        ensures { Gives result self.new.rest.now (made (λ x. record { modified = x.0; length = x.1 })
            (both u64_at u64_at self.old.rest.now)) }
    {
        let modified = self.u64()?;
        let length = self.u64()?;
        Ok(FileStamp { modified, length })
    }

    // The tag of a number from this one on.
    #[tactic(auto, unfolding(crate::specs::ReadingRows::next_tag_at, crate::specs::Fields::such))]
    fn next_tag(&mut self, least: u8) -> Result<Tag, ReadError>
        ensures tag { Gives result self.new.rest.now (next_tag_at least self.old.rest.now) }
        ensures behind { IfOk result (λ tag. least ≤ number_of tag) }
    {
        let fault = self.fault();
        let number = self.byte()?;
        if number < least {
            return Err(fault);
        }
        match Tag::from_number(number) {
            Some(tag) => Ok(tag),
            None => Err(fault),
        }
    }

    // Adds a text behind the others.
    #[tactic(auto, unfolding(crate::specs::Fields::both))]
    fn next_text(&mut self, tags: &mut Tags) -> Result<(), ReadError>
        requires { length tags.old < MAX_TAGS }
        ensures { GivesMore result tags.old tags.new self.new.rest.now (next_text_at tags.old self.old.rest.now) }
    {
        let tag = self.next_tag(least_number(tags))?;
        let text = self.tag_text()?;
        add_last(tags, tag, text)?;
        Ok(())
    }

    fn text_list(&mut self, alloc: Global, count: u8) -> Result<Tags, ReadError>
        requires { count ≤ MAX_TAGS }
        ensures { Gives result self.new.rest.now (items_at next_text_at count [] self.old.rest.now) }
    {
        let mut tags = Tags::new(alloc);
        for _i in 0..count {
            self.next_text(&mut tags)?;
        }
        Ok(tags)
    }

    // All texts of all tags, behind their number.
    #[tactic(auto, unfolding(crate::specs::Items::counted_at))]
    fn counted_texts(&mut self, alloc: Global) -> Result<Tags, ReadError>
        ensures { Gives result self.new.rest.now (counted_at text_count_at next_text_at self.old.rest.now) }
    {
        let count = self.text_count()?;
        self.text_list(alloc, count)
    }

    #[tactic(auto, unfolding(crate::specs::Fields::such))]
    fn text_count(&mut self) -> Result<u8, ReadError>
        ensures count { Gives result self.new.rest.now (text_count_at self.old.rest.now) }
        ensures few { IfOk result (λ count. count ≤ MAX_TAGS) }
    {
        let fault = self.fault();
        let count = self.byte()?;
        if usize::from(count) > MAX_TAGS {
            return Err(fault);
        }
        Ok(count)
    }

    // The same, no more than a row may have.
    #[tactic(auto, unfolding(crate::specs::Fields::such))]
    fn texts(&mut self, alloc: Global) -> Result<Tags, ReadError>
        ensures { Gives result self.new.rest.now (texts_at self.old.rest.now) }
    {
        let fault = self.fault();
        let tags = self.counted_texts(alloc)?;
        if !fits_a_row(&tags) {
            return Err(fault);
        }
        Ok(tags)
    }

    // What a row tells beside its frames.
    #[tactic(auto, unfolding(crate::specs::Fields::both))]
    fn told(
        &mut self,
        alloc: Global,
        profile: Profile,
    ) -> Result<(Option<FileStamp>, Tags), ReadError>
        ensures { Gives result self.new.rest.now (told_at profile self.old.rest.now) }
    {
        match profile {
            Profile::Named => Ok((None, self.tags(alloc)?)),
            Profile::Wide => {
                let stamp = self.stamp()?;
                let tags = self.texts(alloc)?;
                Ok((stamp, tags))
            }
        }
    }

    // What follows the URI of a row.
    #[tactic(auto, unfolding(crate::specs::Fields::both))]
    fn head(
        &mut self,
        alloc: Global,
        profile: Profile,
    ) -> Result<(WaveInfo, Option<FileStamp>), ReadError>
        ensures { GivesHead result self.new.rest.now (row_fields_at profile self.old.rest.now) }
    {
        let rate = self.u32_within(1, MAX_RATE)?;
        let channels = self.channels()?;
        let first_byte = self.u64()?;
        let frames = self.u64()?;
        let (stamp, tags) = self.told(alloc, profile)?;
        let info = WaveInfo {
            rate,
            channels: u16::from(channels),
            first_byte,
            frames,
            tags,
        };
        Ok((info, stamp))
    }

    // The row of a URI, from what follows the URI.
    pub(crate) fn rest_of_row(
        &mut self,
        alloc: Global,
        profile: Profile,
        uri: Uri,
    ) -> Result<SongRow, ReadError>
        ensures row { Gives result self.new.rest.now (made (row_with uri) (row_fields_at profile self.old.rest.now)) }
        ensures uri { IfOk result (λ row. row.uri ≡ uri) }
    {
        are_bytes(self.rest);
        let _form = uri.as_str();
        let head = self.head(alloc, profile)?;
        // Each field was tested.
        match SongRow::new(alloc, uri, head.0, head.1)? {
            Some(row) => Ok(row),
            None => unreachable!(),
        }
    }

    #[tactic(auto, unfolding(crate::specs::ReadingRows::row_at))]
    fn row(&mut self, alloc: Global, profile: Profile) -> Result<SongRow, ReadError>
        ensures { Gives result self.new.rest.now (row_at profile uri_at self.old.rest.now) }
    {
        let uri = self.uri(alloc)?;
        self.rest_of_row(alloc, profile, uri)
    }

    #[tactic(auto, unfolding(crate::specs::ReadingRows::change_at))]
    fn change(&mut self, alloc: Global, profile: Profile) -> Result<RowChange, ReadError>
        ensures { Gives result self.new.rest.now (change_at profile self.old.rest.now) }
    {
        let fault = self.fault();
        match self.byte()? {
            1 => Ok(RowChange::Put(self.row(alloc, profile)?)),
            0 => Ok(RowChange::Drop(self.uri(alloc)?)),
            _ => Err(fault),
        }
    }

    fn change_list(
        &mut self,
        alloc: Global,
        profile: Profile,
        count: u8,
    ) -> Result<Vec<RowChange>, ReadError>
        ensures { GivesList result self.new.rest.now (items_at (λ known. change_at profile) count [] self.old.rest.now) }
    {
        let mut changes = Vec::with_capacity(alloc, usize::from(count))?;
        for _i in 0..count {
            let change = self.change(alloc, profile)?;
            changes.push(change)?;
        }
        Ok(changes)
    }

    #[tactic(auto, unfolding(crate::specs::Fields::such))]
    fn change_count(&mut self) -> Result<u8, ReadError>
        ensures value { Gives result self.new.rest.now (such is_count byte_at self.old.rest.now) }
        ensures within { IfOk result (λ count. IsTrue (is_count count)) }
    {
        let fault = self.fault();
        let count = self.byte()?;
        if count < 1 || 64 < count {
            return Err(fault);
        }
        Ok(count)
    }

    /// The changes of a batch.
    #[tactic(auto, unfolding(crate::specs::Items::counted_at))]
    pub(crate) fn changes(&mut self, alloc: Global, profile: Profile) -> Result<Changes, ReadError>
        ensures { Gives result self.new.rest.now (changes_at profile self.old.rest.now) }
    {
        let count = self.change_count()?;
        let changes = self.change_list(alloc, profile, count)?;
        match Changes::new(changes) {
            Some(changes) => Ok(changes),
            None => unreachable!(),
        }
    }
}
