// A tag, read as a whole.
ghost use Rattle.std.specs.Prelude.{◌≡◌, ◌+◌, ◌<◌, ◌≤◌, ◌^◌, length, slice_range, Some, None, IfOk, IfErr, IsErrOf};
ghost use Rattle.song_files.specs.Source.{Grows, Keeps};
ghost use Rattle.id3_tags.specs.TagError.{Fails, Refuses};
ghost use Rattle.id3_tags.specs.TagHead.{head_in};
ghost use Rattle.id3_tags.specs.Reading.{empty_tag, frames_start, tag_behind, without_pictures, tag_of_whole, tag_by, tag_in};
ghost use Rattle.id3_tags.specs.Reading.{extended_len, is_compressed, is_whole, layout_of};

use crate::frame_head::Layout;
use crate::frames::{read_bytes, read_frames};
use crate::limits::MAX_WHOLE_LEN;
use crate::numbers::{has_flag, plain_at, synchsafe_at};
use crate::tag_head::{HEAD_LEN, TagHead, head_in};
use crate::unsynchronisation::resynchronised;
use crate::{Id3Tag, Pictures, TagError};
use song_files::{MemSource, Source};
use std::alloc::Global;

impl TagHead {
    /// Whether it is a tag of 2.2 that is compressed.
    fn is_compressed(self) -> bool
        ensures { result ≡ is_compressed self }
    {
        self.version == 2 && has_flag(self.flags, 64)
    }

    /// Whether the tag is unsynchronised as a whole.
    fn is_whole(self) -> bool
        ensures { result ≡ is_whole self }
    {
        self.version <= 3 && has_flag(self.flags, 128)
    }

    /// How the frames are laid out.
    fn layout(self) -> Layout
        ensures { result ≡ layout_of self }
    {
        Layout {
            version: self.version,
            unsynchronised: self.version == 4 && has_flag(self.flags, 128),
        }
    }
}

/// How many bytes an extended head has.
fn extended_len(version: u8, bytes: &[u8]) -> u64
    requires { length bytes.now ≡ 4 }
    ensures value { result ≡ extended_len version bytes.now }
    ensures bound { result < 2 ^ 33 }
{
    if version == 3 {
        4 + plain_at(0, bytes)
    } else {
        synchsafe_at(0, bytes)
    }
}

/// Where the frames begin, behind an extended head.
fn frames_start<S: Source>(
    alloc: Global,
    source: &mut S,
    head: TagHead,
    first: u64,
    end: u64,
) -> Result<u64, TagError>
    requires order { first ≤ end }
    requires fits { end < 2 ^ 64 }
    ensures start { S.honest source.old → IfOk result (λ at. at ≡ frames_start head (S.bytes source.old) first end) }
    ensures within { IfOk result (λ at. at ≤ end) }
    ensures fault { S.honest source.old → end ≤ length (S.bytes source.old) →
        IfErr result (Fails (Grows (S.faults source.old) (S.faults source.new))) }
    ensures kept { S.honest source.old → Keeps S.bytes S.honest S.faults S.steady source.old source.new }
{
    if !has_flag(head.flags, 64) || end - first < 4 {
        return Ok(first);
    }
    let bytes = read_bytes(alloc, source, first, 4)?;
    let len = extended_len(head.version, &bytes);
    Ok(first + len.min(end - first))
}

/// What stands from `first` up to `end`, behind the head of the tag.
fn read_behind<S: Source>(
    alloc: Global,
    source: &mut S,
    head: TagHead,
    first: u64,
    end: u64,
) -> Result<Id3Tag, TagError>
    requires order { first ≤ end }
    requires fits { end < 2 ^ 64 }
    ensures read { S.honest source.old → end ≤ length (S.bytes source.old) →
        IfOk result (λ tag. tag ≡ tag_behind head (S.bytes source.old) first end) }
    ensures fault { S.honest source.old → end ≤ length (S.bytes source.old) →
        IfErr result (Fails (Grows (S.faults source.old) (S.faults source.new))) }
    ensures kept { S.honest source.old → Keeps S.bytes S.honest S.faults S.steady source.old source.new }
{
    if head.is_compressed() {
        return Ok(Id3Tag::new(alloc, head.version));
    }
    let start = frames_start(alloc, source, head, first, end)?;
    read_frames(alloc, source, head.layout(), start, end)
}

/// What the bytes of a tag tell that is unsynchronised as a whole.
fn read_whole(alloc: Global, head: TagHead, bytes: &[u8]) -> Result<Id3Tag, TagError>
    ensures read { IfOk result (λ tag. tag ≡ tag_of_whole head bytes.now) }
    ensures refused { IfErr result (λ e. e ≡ TagError.NoMemory) }
{
    let plain = resynchronised(alloc, bytes)?;
    let mut source = MemSource::new(&plain);
    let tag = read_behind(alloc, &mut source, head, 0, plain.len() as u64)?;
    Ok(Id3Tag {
        version: tag.version,
        texts: tag.texts,
        pictures: Pictures::new(alloc),
    })
}

/// What stands behind the head of the tag.
fn read_by<S: Source>(
    alloc: Global,
    source: &mut S,
    head: TagHead,
    first: u64,
    end: u64,
) -> Result<Id3Tag, TagError>
    requires order { first + 10 ≤ end }
    requires fits { end < 2 ^ 64 }
    ensures read { S.honest source.old → end ≤ length (S.bytes source.old) →
        IfOk result (λ tag. tag ≡ tag_by (S.bytes source.old) first end head) }
    ensures fault { S.honest source.old → end ≤ length (S.bytes source.old) →
        IfErr result (Fails (Grows (S.faults source.old) (S.faults source.new))) }
    ensures kept { S.honest source.old → Keeps S.bytes S.honest S.faults S.steady source.old source.new }
{
    let first = first + HEAD_LEN;
    let stop = first + head.size.min(end - first);
    if !head.is_whole() {
        return read_behind(alloc, source, head, first, stop);
    }
    if stop - first > MAX_WHOLE_LEN {
        return Ok(Id3Tag::new(alloc, head.version));
    }
    let bytes = read_bytes(alloc, source, first, stop - first)?;
    read_whole(alloc, head, &bytes)
}

/// Reads the ID3v2 tag that begins at `first` in the source and ends before `end`, as that of the data of a WAVE
/// file's chunk `id3 `. Of the frames only the texts and the fronts of the pictures are read.
///
/// An error leaves the source as any read does. `NotTag` says that no tag of version 2.2, 2.3 or 2.4 begins there;
/// `ReadFault` and `NoMemory` say nothing of the bytes.
pub fn read_tag<S: Source>(
    alloc: Global,
    source: &mut S,
    first: u64,
    end: u64,
) -> Result<Id3Tag, TagError>
    requires order { first ≤ end }
    ensures tag { S.honest source.old → end ≤ length (S.bytes source.old) →
        IfOk result (λ tag. tag_in (S.bytes source.old) first end ≡ Some tag) }
    ensures refused { S.honest source.old → end ≤ length (S.bytes source.old) → IfErr result (Refuses
        (tag_in (S.bytes source.old) first end ≡ None) (Grows (S.faults source.old) (S.faults source.new))) }
    ensures steady { S.honest source.old → end ≤ length (S.bytes source.old) → S.steady source.old →
        IsErrOf result TagError.ReadFault → ⊥ }
    ensures kept { S.honest source.old → Keeps S.bytes S.honest S.faults S.steady source.old source.new }
{
    if end - first < HEAD_LEN {
        return Err(TagError::NotTag);
    }
    let bytes = read_bytes(alloc, source, first, HEAD_LEN)?;
    match head_in(&bytes) {
        Some(head) => read_by(alloc, source, head, first, end),
        None => Err(TagError::NotTag),
    }
}
