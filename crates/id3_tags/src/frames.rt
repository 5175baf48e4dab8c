// The frames of a tag, read one behind the other.
ghost use Rattle.std.specs.Prelude.{◌≡◌, ◌+◌, ◌<◌, ◌≤◌, ◌^◌, ◌++◌, take, length, slice_range, OnOk, IfOk, IfErr, IfSome};
ghost use Rattle.song_files.specs.Source.{Grows, Keeps};
ghost use Rattle.id3_tags.specs.TagError.{Fails};
ghost use Rattle.id3_tags.specs.Frames.{head_len, head_at, data_of, texts_at, pictures_at, IsWithin, gives_texts, gives_picture};
ghost use Rattle.id3_tags.specs.Reading.{tag_of_frames};

use crate::frame_head::{FrameHead, Layout, head_of};
use crate::limits::{MAX_FRAMES, MAX_FRONT_LEN, MAX_TEXT_LEN, MAX_TEXTS};
use crate::pictures::{is_picture, picture_of};
use crate::texts::is_text;
use crate::unsynchronisation::resynchronised;
use crate::{Id3Tag, Pictures, TagError, Texts};
use song_files::{Source, read_exact};
use std::alloc::Global;

/// The bytes of the source in a range.
pub fn read_bytes<S: Source>(
    alloc: Global,
    source: &mut S,
    first: u64,
    len: u64,
) -> Result<Vec<u8>, TagError>
    requires { first + len < 2 ^ 64 }
    ensures read { S.honest source.old → IfOk result (λ bytes. bytes.items ≡ slice_range (S.bytes source.old) first (first + len)) }
    ensures fault { S.honest source.old → first + len ≤ length (S.bytes source.old) →
        IfErr result (Fails (Grows (S.faults source.old) (S.faults source.new))) }
    ensures kept { S.honest source.old → Keeps S.bytes S.honest S.faults S.steady source.old source.new }
    ensures count { IfOk result (λ bytes. length bytes.items ≡ len) }
{
    let mut bytes = vec![in alloc; 0; len as usize]?;
    read_exact(source, first, &mut bytes)?;
    Ok(bytes)
}

/// The head of the frame at `at`, if one stands there before `end`.
fn next_frame<S: Source>(
    alloc: Global,
    source: &mut S,
    layout: Layout,
    at: u64,
    end: u64,
) -> Result<Option<FrameHead>, TagError>
    requires order { at ≤ end }
    requires fits { end < 2 ^ 64 }
    ensures found { S.honest source.old → end ≤ length (S.bytes source.old) →
        IfOk result (λ head. head ≡ head_at layout (S.bytes source.old) at end) }
    ensures within { IfOk result (λ head. IfSome head (IsWithin end)) }
    ensures fault { S.honest source.old → end ≤ length (S.bytes source.old) →
        IfErr result (Fails (Grows (S.faults source.old) (S.faults source.new))) }
    ensures kept { S.honest source.old → Keeps S.bytes S.honest S.faults S.steady source.old source.new }
{
    if end - at < layout.head_len() {
        return Ok(None);
    }
    let bytes = read_bytes(alloc, source, at, layout.head_len())?;
    Ok(head_of(layout, &bytes, at, end))
}

/// The data of a frame, without unsynchronisation.
fn read_data<S: Source>(
    alloc: Global,
    source: &mut S,
    head: &FrameHead,
) -> Result<Vec<u8>, TagError>
    requires { head.now.first + head.now.len < 2 ^ 64 }
    ensures read { S.honest source.old → IfOk result (λ bytes. bytes.items ≡ data_of (S.bytes source.old) head.now) }
    ensures fault { S.honest source.old → head.now.first + head.now.len ≤ length (S.bytes source.old) →
        IfErr result (Fails (Grows (S.faults source.old) (S.faults source.new))) }
    ensures kept { S.honest source.old → Keeps S.bytes S.honest S.faults S.steady source.old source.new }
{
    let bytes = read_bytes(alloc, source, head.first, head.len)?;
    if !head.unsynchronised {
        return Ok(bytes);
    }
    Ok(resynchronised(alloc, &bytes)?)
}

/// Whether the frame is a text frame whose texts are read.
fn gives_texts(head: &FrameHead) -> bool
    ensures { result ≡ gives_texts head.now }
{
    is_text(head.id) && !head.hidden && head.len <= MAX_TEXT_LEN
}

/// Whether the frame has a picture whose bytes stand in the source as they are.
fn gives_picture(head: &FrameHead) -> bool
    ensures { result ≡ gives_picture head.now }
{
    is_picture(head.id) && !head.hidden && !head.unsynchronised
}

/// Adds the texts of a frame.
fn read_texts<S: Source>(
    alloc: Global,
    source: &mut S,
    head: &FrameHead,
    texts: &mut Texts,
) -> Result<(), TagError>
    requires fits { head.now.first + head.now.len < 2 ^ 64 }
    requires room { length texts.old ≤ MAX_TEXTS }
    ensures read { S.honest source.old → OnOk result (texts.new ≡ take MAX_TEXTS (texts.old ++ texts_at (S.bytes source.old) head.now)) }
    ensures few { length texts.new ≤ MAX_TEXTS }
    ensures fault { S.honest source.old → head.now.first + head.now.len ≤ length (S.bytes source.old) →
        IfErr result (Fails (Grows (S.faults source.old) (S.faults source.new))) }
    ensures kept { S.honest source.old → Keeps S.bytes S.honest S.faults S.steady source.old source.new }
{
    if !gives_texts(head) {
        return Ok(());
    }
    let bytes = read_data(alloc, source, head)?;
    texts.add_frame(alloc, head.id, &bytes)?;
    Ok(())
}

/// Adds the picture of a frame.
fn read_picture<S: Source>(
    alloc: Global,
    source: &mut S,
    head: &FrameHead,
    pictures: &mut Pictures,
) -> Result<(), TagError>
    requires { head.now.first + head.now.len < 2 ^ 64 }
    ensures read { S.honest source.old → OnOk result (pictures.new ≡ pictures.old ++ pictures_at (S.bytes source.old) head.now) }
    ensures fault { S.honest source.old → head.now.first + head.now.len ≤ length (S.bytes source.old) →
        IfErr result (Fails (Grows (S.faults source.old) (S.faults source.new))) }
    ensures kept { S.honest source.old → Keeps S.bytes S.honest S.faults S.steady source.old source.new }
{
    if !gives_picture(head) {
        return Ok(());
    }
    let front = read_bytes(alloc, source, head.first, head.len.min(MAX_FRONT_LEN))?;
    let picture = picture_of(alloc, head.id, head.first, head.len, &front)?;
    pictures.add(picture)?;
    Ok(())
}

/// What the frames from `first` up to `end` tell.
pub fn read_frames<S: Source>(
    alloc: Global,
    source: &mut S,
    layout: Layout,
    first: u64,
    end: u64,
) -> Result<Id3Tag, TagError>
    requires order { first ≤ end }
    requires fits { end < 2 ^ 64 }
    ensures read { S.honest source.old → end ≤ length (S.bytes source.old) →
        IfOk result (λ tag. tag ≡ tag_of_frames layout (S.bytes source.old) first end) }
    ensures fault { S.honest source.old → end ≤ length (S.bytes source.old) →
        IfErr result (Fails (Grows (S.faults source.old) (S.faults source.new))) }
    ensures kept { S.honest source.old → Keeps S.bytes S.honest S.faults S.steady source.old source.new }
{
    let mut tag = Id3Tag::new(alloc, layout.version);
    let mut at = first;
    let mut left = MAX_FRAMES;
    'frames: while left > 0 {
        let Some(head) = next_frame(alloc, source, layout, at, end)? else {
            return Ok(tag);
        };
        read_texts(alloc, source, &head, &mut tag.texts)?;
        read_picture(alloc, source, &head, &mut tag.pictures)?;
        at = head.next;
        left -= 1;
    }
    Ok(tag)
}
