// The texts of a list INFO and of an ID3v2 tag, as one song's.
ghost use Rattle.std.specs.Prelude.{◌≡◌, ◌≤◌, length, take, IfOk, OnOk, IfSome, IsTrue, option_copied};
ghost use Rattle.song_files.specs.Limits.{MAX_TAGS};
ghost use Rattle.song_files.specs.TagSet.{tags_in};
ghost use Rattle.song_files.specs.Tags.{added};
ghost use Rattle.song_files.specs.Text.{is_tag_text};
ghost use Rattle.song_head.specs.Added.{with_texts};
ghost use Rattle.song_head.specs.FrameValues.{told_by, texts_told};
ghost use Rattle.song_head.specs.SongReading.{MAX_TEXT_BYTES, fitting, own_text, own_or_told, song_texts, texts_of_tags};
ghost use Rattle.song_head.specs.declared.manner.Manner.TheVariants.{First};

use crate::frame_values::{add_cut, add_text, is_told, told_as};
use crate::manner::Manner;
use crate::rules::ReadingRules;
use id3_tags::TagText;
use song_files::{TAG_COUNT, Tag, Tags, tag_text};
use std::alloc::{AllocError, Global};

// The text that INFO has of a tag, as it is told.
fn own_text(own: &Tags, tag: Tag) -> Option<&str>
    ensures text { option_copied result ≡ own_text own.now tag }
    ensures good { IfSome result (λ text. IsTrue (is_tag_text text.now)) }
{
    if own.len() == 0 {
        return None;
    }
    match own.get(tag) {
        Some(text) => tag_text(told_as(tag, text.as_bytes())),
        None => None,
    }
}

// Adds the first text that frames tell of a tag.
fn add_first(tags: &mut Tags, tag: Tag, frames: &[TagText]) -> Result<(), AllocError>
    ensures { OnOk result (tags.new ≡ with_texts tags.old tag (take 1 (texts_told First frames.now tag))) }
{
    for frame in frames {
        if is_told(Manner::First, tag, frame) && add_text(tags, tag, frame.value.as_bytes())? {
            return Ok(());
        }
    }
    Ok(())
}

// Adds what a frame tells of a tag.
fn add_frame(tags: &mut Tags, tag: Tag, frame: &TagText, manner: Manner) -> Result<(), AllocError>
    ensures { OnOk result (tags.new ≡ with_texts tags.old tag (told_by manner tag frame.now)) }
{
    if !is_told(manner, tag, frame) {
        return Ok(());
    }
    match manner {
        Manner::OfVersion(version) => add_cut(tags, tag, version, frame),
        Manner::First | Manner::OfComments => {
            add_text(tags, tag, frame.value.as_bytes())?;
            Ok(())
        }
    }
}

// Adds all the texts that frames tell of a tag.
fn add_all(tags: &mut Tags, tag: Tag, frames: &[TagText], manner: Manner) -> Result<(), AllocError>
    ensures { OnOk result (tags.new ≡ with_texts tags.old tag (texts_told manner frames.now tag)) }
{
    for frame in frames {
        add_frame(tags, tag, frame, manner)?;
    }
    Ok(())
}

// Adds the text that INFO has of a tag, or what frames tell.
fn add_texts(
    tags: &mut Tags,
    tag: Tag,
    own: &Tags,
    frames: &[TagText],
    manner: Manner,
) -> Result<(), AllocError>
    ensures { OnOk result (tags.new ≡ with_texts tags.old tag (own_or_told manner own.now frames.now tag)) }
{
    if let Some(text) = own_text(own, tag) {
        return tags.add(tag, text);
    }
    match manner {
        Manner::First => add_first(tags, tag, frames),
        Manner::OfComments | Manner::OfVersion(_) => add_all(tags, tag, frames, manner),
    }
}

// The texts of the tags that are wanted.
pub(crate) fn song_texts(
    alloc: Global,
    rules: ReadingRules,
    manner: Manner,
    own: &Tags,
    frames: &[TagText],
) -> Result<Tags, AllocError>
    ensures { IfOk result (λ tags. tags ≡ song_texts rules manner own.now frames.now) }
{
    let tags = all_texts(alloc, rules, manner, own, frames)?;
    if rules.several {
        return fitting(alloc, tags);
    }
    Ok(tags)
}

// How many bytes the texts of a song may take, with three more for each.
const MAX_TEXT_BYTES: usize = 30_000;

// How many of the texts fit into these bytes.
fn count_fitting(tags: &Tags) -> usize
    ensures within { result ≤ length tags.now }
    ensures texts { take result tags.now ≡ fitting MAX_TEXT_BYTES tags.now }
{
    let mut left = MAX_TEXT_BYTES;
    for at in 0..tags.len() {
        let size = 3 + tags.at(at).1.len();
        if size > left {
            return at;
        }
        left -= size;
    }
    tags.len()
}

// The first texts.
fn front_of(alloc: Global, tags: &Tags, count: usize) -> Result<Tags, AllocError>
    requires { count ≤ length tags.now }
    ensures { IfOk result (λ front. front ≡ take count tags.now) }
{
    let _good = tags.len();
    let mut front = Tags::new(alloc);
    for at in 0..count {
        let (tag, text) = tags.at(at);
        add_good(&mut front, tag, text)?;
    }
    Ok(front)
}

// Adds a text that another song has.
fn add_good(tags: &mut Tags, tag: Tag, text: &str) -> Result<(), AllocError>
    requires { IsTrue (is_tag_text text.now) }
    ensures { OnOk result (tags.new ≡ added tags.old tag text.now) }
{
    tags.add(tag, text)
}

// The texts that fit into the bytes that a song may have.
fn fitting(alloc: Global, tags: Tags) -> Result<Tags, AllocError>
    ensures { IfOk result (λ fit. fit ≡ fitting MAX_TEXT_BYTES tags) }
{
    let count = count_fitting(&tags);
    if count == tags.len() {
        return Ok(tags);
    }
    front_of(alloc, &tags, count)
}

// All of them, as many as a song may have.
fn all_texts(
    alloc: Global,
    rules: ReadingRules,
    manner: Manner,
    own: &Tags,
    frames: &[TagText],
) -> Result<Tags, AllocError>
    ensures { IfOk result (λ tags. tags ≡ take MAX_TAGS (texts_of_tags manner own.now frames.now (tags_in rules.tags))) }
{
    let mut tags = Tags::new(alloc);
    for number in 0..TAG_COUNT {
        let tag = Tag::at(number);
        if rules.tags.contains(tag) {
            add_texts(&mut tags, tag, own, frames, manner)?;
        }
    }
    Ok(tags)
}
