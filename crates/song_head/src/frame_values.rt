// What the texts of ID3v2 frames tell of tags.
ghost use Rattle.std.specs.Prelude.{◌≡◌, ◌<◌, ◌≤◌, ◌∷◌, [], length, map, filter, IfOk, OnOk, Some, None};
ghost use Rattle.song_files.specs.Text.{is_tag_text};
ghost use Rattle.song_files.specs.declared.tag.Tag.TheVariants.{Genre};
ghost use Rattle.song_head.specs.Added.{with_texts};
ghost use Rattle.song_head.specs.FrameValues.{without_front, without_end, cut, is_number, told_as, tag_told, is_told, is_cut, cut_texts};
ghost use Rattle.song_head.specs.Genres.{genre_name, genres_from, genres_in, is_bracket, before_bracket};

use crate::frame_tags::{comment_tag, frame_tag};
use crate::genres::genre_name;
use crate::manner::Manner;
use crate::numbers::number_text;
use id3_tags::TagText;
use song_files::{Tag, Tags, tag_text};
use std::alloc::AllocError;

// Without the bytes up to that of the blank that are in front.
fn without_front(text: &[u8]) -> &[u8]
    ensures { result.now ≡ without_front text.now }
{
    let mut rest = text;
    while let [byte, behind @ ..] = rest {
        if *byte > b' ' {
            return rest;
        }
        rest = behind;
    }
    rest
}

// Without those that are at the end.
fn without_end(text: &[u8]) -> &[u8]
    ensures { result.now ≡ without_end text.now }
{
    let mut rest = text;
    while let [before @ .., byte] = rest {
        if *byte > b' ' {
            return rest;
        }
        rest = before;
    }
    rest
}

fn cut(text: &[u8]) -> &[u8]
    ensures { result.now ≡ cut text.now }
{
    without_end(without_front(text))
}

// Whether the tag's texts are numbers.
fn is_number(tag: Tag) -> bool
    ensures { result ≡ is_number tag }
{
    tag == Tag::Track || tag == Tag::Disc
}

// A text as it is told for a tag.
pub(crate) fn told_as(tag: Tag, text: &[u8]) -> &[u8]
    ensures { result.now ≡ told_as tag text.now }
{
    if is_number(tag) {
        number_text(text)
    } else {
        text
    }
}

// Whether a frame tells this tag.
pub(crate) fn is_told(manner: Manner, tag: Tag, frame: &TagText) -> bool
    ensures { result ≡ is_told manner tag frame.now }
{
    match tag_told(manner, frame) {
        Some(own) => own == tag,
        None => false,
    }
}

fn tag_told(manner: Manner, frame: &TagText) -> Option<Tag>
    ensures { result ≡ tag_told manner frame.now }
{
    let description = frame.description.as_str();
    if manner == Manner::OfComments
        && let Some(tag) = comment_tag(frame.id, description)
    {
        return Some(tag);
    }
    frame_tag(frame.id, description)
}

// Adds a text of a tag as it is told, where it has the form of a tag's; whether it has.
pub(crate) fn add_text(tags: &mut Tags, tag: Tag, text: &[u8]) -> Result<bool, AllocError>
    ensures tags { OnOk result (tags.new ≡ with_texts tags.old tag (filter is_tag_text (told_as tag text.now ∷ []))) }
    ensures good { IfOk result (λ good. good ≡ is_tag_text (told_as tag text.now)) }
{
    match tag_text(told_as(tag, text)) {
        Some(text) => {
            tags.add(tag, text)?;
            Ok(true)
        }
        None => Ok(false),
    }
}

// Adds a genre by its name.
fn add_genre(tags: &mut Tags, text: &[u8]) -> Result<(), AllocError>
    ensures { OnOk result (tags.new ≡ with_texts tags.old Genre (filter is_tag_text (map (told_as Genre) (cut (genre_name text.now) ∷ [])))) }
{
    add_text(tags, Tag::Genre, cut(genre_name(text)))?;
    Ok(())
}

fn is_bracket(text: &[u8]) -> bool
    ensures { result ≡ is_bracket text.now }
{
    match text {
        [byte, ..] => *byte == b'(',
        [] => false,
    }
}

// What stands before the first closing bracket, or all.
fn before_bracket(text: &[u8]) -> &[u8]
    ensures front { result.now ≡ before_bracket text.now }
    ensures bound { length result.now ≤ length text.now }
{
    for (place, byte) in text.iter().enumerate() {
        if *byte == b')' {
            return &text[..place];
        }
    }
    text
}

// What stands in a bracket that has been opened, and what stands behind it.
fn bracketed(text: &[u8]) -> (&[u8], &[u8])
    ensures genres { genres_from (Some []) text.now ≡ result.0.now ∷ genres_from None result.1.now }
    ensures less { length result.1.now ≤ length text.now }
{
    let inner = before_bracket(text);
    if inner.len() == text.len() {
        return (inner, &[]);
    }
    (inner, &text[inner.len() + 1..])
}

// The first genre of a text, and what stands behind it.
fn first_genre(text: &[u8]) -> (&[u8], &[u8])
    requires { 0 < length text.now }
    ensures genres { genres_from None text.now ≡ result.0.now ∷ genres_from None result.1.now }
    ensures less { length result.1.now < length text.now }
{
    match text {
        [b'(', behind @ ..] => {
            if is_bracket(behind) {
                (behind, &[])
            } else {
                bracketed(behind)
            }
        }
        _ => (text, &[]),
    }
}

// Adds the genres that stand in brackets in front, one after the other, and that behind them.
fn add_bracketed(tags: &mut Tags, text: &[u8]) -> Result<(), AllocError>
    ensures { OnOk result (tags.new ≡ with_texts tags.old Genre (filter is_tag_text (map (told_as Genre)
        (map (λ text. cut (genre_name text)) (genres_from None text.now))))) }
{
    let mut rest = text;
    'genres: while !rest.is_empty() {
        let (genre, behind) = first_genre(rest);
        add_genre(tags, genre)?;
        rest = behind;
    }
    Ok(())
}

// Whether the texts of frames with this id are told without the bytes around them.
fn is_cut(id: [u8; 4]) -> bool
    ensures { result ≡ is_cut id }
{
    id != *b"TXXX" && id != *b"UFID"
}

// Adds what a frame of a tag of this version tells.
pub(crate) fn add_cut(
    tags: &mut Tags,
    tag: Tag,
    version: u8,
    frame: &TagText,
) -> Result<(), AllocError>
    ensures { OnOk result (tags.new ≡ with_texts tags.old tag (filter is_tag_text (map (told_as tag) (cut_texts version tag frame.now)))) }
{
    let text = frame.value.as_bytes();
    if !is_cut(frame.id) {
        add_text(tags, tag, text)?;
        return Ok(());
    }
    if tag == Tag::Genre {
        return add_genres(tags, version, text);
    }
    add_text(tags, tag, cut(text))?;
    Ok(())
}

fn add_genres(tags: &mut Tags, version: u8, text: &[u8]) -> Result<(), AllocError>
    ensures { OnOk result (tags.new ≡ with_texts tags.old Genre (filter is_tag_text (map (told_as Genre)
        (map (λ text. cut (genre_name text)) (genres_in version text.now))))) }
{
    if version <= 3 {
        add_bracketed(tags, text)
    } else {
        add_genre(tags, text)
    }
}
