// The comments of a file.
ghost use Rattle.std.specs.Prelude.{◌≡◌, ◌==◌, ◌+◌, ◌<◌, ◌≤◌, ◌^◌, ◌++◌, length, take, drop, slice_range, ℕ, IfSome, IfOk, IfErr, OnOk, Ok, All};
ghost use Rattle.std.specs.Prelude.{option_copied, option_to_list, vec_len, true, false, MatchOption, Some, None, if◌then◌else◌, position};
ghost use Rattle.std.specs.List.{find};
ghost use Rattle.song_files.specs.Source.{Grows, Keeps};
ghost use Rattle.song_files.specs.Text.{is_tag_text};
ghost use Rattle.flac.specs.Blocks.{body_of, EndsBy};
ghost use Rattle.flac.specs.Comments.{name_in, value_in, is_printable, is_comment, comment_of, texts_in, kept_of};
ghost use Rattle.flac.specs.Comments.{is_comments, comments_in, comments_of};
ghost use Rattle.flac.specs.FlacError.{Fails};

use crate::FlacError;
use crate::blocks::BlockHead;
use crate::fields::{NUMBER_LEN, read_count, read_text_len};
use crate::read::read_bytes;
use crate::text::printable_text;
use song_files::{Source, is_tag_text};
use std::alloc::{AllocError, Global};
use std::marker::Model;
use std::str;

/// How many comments of a file are kept.
pub const MAX_COMMENTS: usize = 256;

/// How many fields of a comment block are looked at.
const MAX_FIELDS: u64 = 65_536;

/// How many bytes a field that is looked at may have.
const MAX_FIELD_BYTES: usize = 1024;

/// The type of VORBIS_COMMENT.
const VORBIS_COMMENT: u8 = 4;

/// A comment: a name in ASCII upper case, and a value of 1 to 512 bytes of UTF-8 without a control character.
#[derive(Debug, Drop)]
pub struct Comment {
    name: String,
    value: String,
}

impl Model for Comment {
    ghost use Rattle.std.specs.Prelude.{string_bytes};
    ghost use Rattle.flac.specs.Comments.{CommentText};

    ghost Value = { CommentText };

    ghost view = { λ c. record { name = string_bytes c.name; value = string_bytes c.value } };
}

impl Comment {
    pub fn name(&self) -> &str
        ensures { result.now ≡ self.now.name }
    {
        self.name.as_str()
    }

    pub fn value(&self) -> &str
        ensures { result.now ≡ self.now.value }
    {
        self.value.as_str()
    }

    /// The comment of a field, if it is one.
    fn parse(alloc: Global, field: &[u8]) -> Result<Option<Comment>, AllocError>
        requires { length field.now ≤ MAX_FIELD_BYTES }
        ensures { IfOk result (λ comment. comment ≡ comment_of field.now) }
    {
        let Some((name, value)) = split(field) else {
            return Ok(None);
        };
        let name = name.to_ascii_uppercase(alloc)?;
        let value = String::from_str(alloc, value)?;
        Ok(Some(Comment { name, value }))
    }
}

/// The comments of a file in its order, at most 256.
#[derive(Debug, Drop)]
pub struct Comments {
    comments: Vec<Comment>,
}

impl Model for Comments {
    ghost use Rattle.std.specs.Prelude.{List};
    ghost use Rattle.flac.specs.Comments.{CommentText};

    ghost Value = { List CommentText };

    ghost view = { λ c. c.comments.items };
}

impl Comments {
    pub(crate) fn new(comments: Vec<Comment>) -> Self
        ensures { result ≡ comments.items }
    {
        Comments { comments }
    }

    pub fn as_slice(&self) -> &[Comment]
        ensures { result.now ≡ self.now }
    {
        self.comments.as_slice()
    }
}

/// The name and the value of a field, if it is a comment.
fn split(field: &[u8]) -> Option<(&str, &str)>
    requires { length field.now ≤ MAX_FIELD_BYTES }
    ensures { MatchOption result (is_comment field.now ≡ false)
        (λ pair. (is_comment field.now ≡ true) × (pair.0.now ≡ name_in field.now) × (pair.1.now ≡ value_in field.now)) }
{
    let end = first_equals(field)?;
    if end == 0 {
        return None;
    }
    let (before, behind) = around(field, end);
    let name = printable_text(before)?;
    let value = value_text(behind)?;
    Some((name, value))
}

/// The place of the first `=`.
fn first_equals(field: &[u8]) -> Option<usize>
    ensures found { result ≡ position (λ b. b == 61) field.now }
    ensures within { IfSome result (λ i. i < length field.now) }
{
    field.iter().position(|b| *b == b'=')
}

/// What stands before a byte, and what stands behind it.
fn around(field: &[u8], place: usize) -> (&[u8], &[u8])
    requires { place < length field.now }
    ensures before { result.0.now ≡ take place field.now }
    ensures behind { result.1.now ≡ drop (place + 1) field.now }
{
    (&field[..place], &field[place + 1..])
}

/// The text of these bytes, if it has the form of a tag's.
fn value_text(bytes: &[u8]) -> Option<&str>
    ensures { option_copied result ≡ (if is_tag_text bytes.now then Some bytes.now else None) }
{
    let Ok(text) = str::from_utf8(bytes) else {
        return None;
    };
    if is_tag_text(text) { Some(text) } else { None }
}

/// The comment of the field that begins at `at` in a source, if it is one.
fn read_comment<S: Source>(
    alloc: Global,
    source: &mut S,
    at: u64,
    len: u64,
) -> Result<Option<Comment>, FlacError>
    requires { at + len < 2 ^ 64 }
    ensures comment { S.honest source.old → at + len ≤ length (S.bytes source.old) →
        IfOk result (λ comment. comment ≡ comment_of (slice_range (S.bytes source.old) at (at + len))) }
    ensures fault { S.honest source.old → at + len ≤ length (S.bytes source.old) →
        IfErr result (Fails (Grows (S.faults source.old) (S.faults source.new))) }
    ensures kept { S.honest source.old → Keeps S.bytes S.honest S.faults S.steady source.old source.new }
{
    if len > MAX_FIELD_BYTES as u64 {
        return Ok(None);
    }
    let mut buffer = [0; MAX_FIELD_BYTES];
    let field = &mut buffer[..len as usize];
    read_bytes(source, at, field)?;
    Ok(Comment::parse(alloc, field)?)
}

/// Adds the comment of a field, if it is one and there is room.
fn add_comment<S: Source>(
    alloc: Global,
    source: &mut S,
    at: u64,
    len: u64,
    comments: &mut Vec<Comment>,
) -> Result<(), FlacError>
    requires fits { at + len < 2 ^ 64 }
    requires few { vec_len comments.old ≤ MAX_COMMENTS }
    ensures added { S.honest source.old → at + len ≤ length (S.bytes source.old) →
        OnOk result (comments.new.items ≡ take MAX_COMMENTS (comments.old.items ++ option_to_list (comment_of (slice_range (S.bytes
        source.old) at (at + len))))) }
    ensures few { OnOk result (vec_len comments.new ≤ MAX_COMMENTS) }
    ensures fault { S.honest source.old → at + len ≤ length (S.bytes source.old) →
        IfErr result (Fails (Grows (S.faults source.old) (S.faults source.new))) }
    ensures kept { S.honest source.old → Keeps S.bytes S.honest S.faults S.steady source.old source.new }
{
    if comments.len() == MAX_COMMENTS {
        return Ok(());
    }
    if let Some(comment) = read_comment(alloc, source, at, len)? {
        comments.push(comment)?;
    }
    Ok(())
}

/// The comments among `count` fields that begin at `start`, up to a field that doesn't end before `end`.
fn list_comments<S: Source>(
    alloc: Global,
    source: &mut S,
    count: u64,
    start: u64,
    end: u64,
) -> Result<Vec<Comment>, FlacError>
    requires { start ≤ end }
    ensures listed { S.honest source.old → end ≤ length (S.bytes source.old) →
        IfOk result (λ comments. comments.items ≡ kept_of (texts_in count (slice_range (S.bytes source.old) start end))) }
    ensures fault { S.honest source.old → end ≤ length (S.bytes source.old) →
        IfErr result (Fails (Grows (S.faults source.old) (S.faults source.new))) }
    ensures kept { S.honest source.old → Keeps S.bytes S.honest S.faults S.steady source.old source.new }
{
    let mut comments = Vec::new(alloc);
    let mut at = start;
    let mut left = count;
    'fields: while left > 0 {
        let Some(len) = read_text_len(source, at, end)? else {
            return Ok(comments);
        };
        add_comment(alloc, source, at + NUMBER_LEN, len, &mut comments)?;
        at = at + NUMBER_LEN + len;
        left -= 1;
    }
    Ok(comments)
}

/// The comments in the data of a block, those before the damage if it is damaged.
fn read_block<S: Source>(
    alloc: Global,
    source: &mut S,
    block: BlockHead,
) -> Result<Vec<Comment>, FlacError>
    requires { block.first + block.len < 2 ^ 64 }
    ensures listed { S.honest source.old → block.first + block.len ≤ length (S.bytes source.old) →
        IfOk result (λ comments. comments.items ≡ comments_in (body_of (S.bytes source.old) block)) }
    ensures fault { S.honest source.old → block.first + block.len ≤ length (S.bytes source.old) →
        IfErr result (Fails (Grows (S.faults source.old) (S.faults source.new))) }
    ensures kept { S.honest source.old → Keeps S.bytes S.honest S.faults S.steady source.old source.new }
{
    let end = block.first + block.len;
    let Some(vendor) = read_text_len(source, block.first, end)? else {
        return Ok(Vec::new(alloc));
    };
    let at = block.first + NUMBER_LEN + vendor;
    let Some(count) = read_count(source, at, end)? else {
        return Ok(Vec::new(alloc));
    };
    list_comments(alloc, source, count.min(MAX_FIELDS), at + NUMBER_LEN, end)
}

/// The first block that has comments.
fn first_comments(blocks: &[BlockHead]) -> Option<BlockHead>
    ensures found { result ≡ find is_comments blocks.now }
    ensures within { (end : ℕ) → All (EndsBy end) blocks.now → IfSome result (EndsBy end) }
{
    blocks.iter().copied().find(|b| b.kind == VORBIS_COMMENT)
}

/// The comments of the first block that has some.
pub fn read_comments<S: Source>(
    alloc: Global,
    source: &mut S,
    blocks: &[BlockHead],
    end: u64,
) -> Result<Vec<Comment>, FlacError>
    requires { All (EndsBy end) blocks.now }
    ensures listed { S.honest source.old → end ≡ length (S.bytes source.old) →
        IfOk result (λ comments. comments.items ≡ comments_of (S.bytes source.old) blocks.now) }
    ensures fault { S.honest source.old → end ≡ length (S.bytes source.old) →
        IfErr result (Fails (Grows (S.faults source.old) (S.faults source.new))) }
    ensures kept { S.honest source.old → Keeps S.bytes S.honest S.faults S.steady source.old source.new }
{
    match first_comments(blocks) {
        Some(block) => read_block(alloc, source, block),
        None => Ok(Vec::new(alloc)),
    }
}
