// Ops, appended to room that was taken before.
ghost use Rattle.std.specs.Prelude.{◌≡◌, ◌≤◌, ◌<◌, ◌^◌, ◌∷◌, IsTrue, length};
ghost use Rattle.std.specs.List.{All, flat_map};
ghost use Rattle.state_codec.specs.Numbers.{AreRowNumbers, AreOpRanges};
ghost use Rattle.state_codec.specs.Ops.{AreNumbers, IsText, IsUri, IsQueueOp, IsListOp, IsStickerOp, IsOp};
ghost use Rattle.state_codec.specs.Text.{is_sticker_text};
ghost use Rattle.state_codec.specs.Appended.{HasRoom, Appends};
ghost use Rattle.state_codec.specs.SpellingFields.{byte_bytes, u32_bytes, pair_bytes, flag_bytes, single_bytes, text_bytes};
ghost use Rattle.state_codec.specs.SpellingOps.{setting_bytes, row_numbers_bytes, ranges_bytes, queue_kind, queue_fields};
ghost use Rattle.state_codec.specs.SpellingOps.{list_kind, list_fields, sticker_kind, sticker_fields, op_bytes};

use super::bytes::{put_byte, put_pair, put_text, put_u32, put_u64, text_len};
use super::place::{place_kind, place_op_len, put_place_fields};
use super::rows::{changes_len, put_changes};
use crate::op::{ListOp, Op, OpRanges, QueueOp, RowNumbers, Setting, StickerOp, Text};
use player_core::Single;
use profile::Profile;
use song_db::Uri;
use stickers::StickerValue;

pub(crate) fn flag_byte(on: bool) -> u8
    ensures { byte_bytes result ≡ flag_bytes on }
{
    u8::from(on)
}

pub(crate) fn single_byte(value: Single) -> u8
    ensures { byte_bytes result ≡ single_bytes value }
{
    match value {
        Single::Off => 0,
        Single::On => 1,
        Single::Oneshot => 2,
    }
}

fn put_setting(out: &mut Vec<u8>, value: Setting)
    requires { HasRoom out.old 2 }
    ensures { Appends out.old out.new (setting_bytes value) }
{
    let (kind, byte) = match value {
        Setting::Repeat(on) => (1, flag_byte(on)),
        Setting::Random(on) => (2, flag_byte(on)),
        Setting::Single(value) => (3, single_byte(value)),
        Setting::Consume(value) => (4, single_byte(value)),
    };
    put_byte(out, kind);
    put_byte(out, byte);
}

pub(super) fn put_numbers(out: &mut Vec<u8>, numbers: &[u32])
    requires { HasRoom out.old (length (flat_map u32_bytes numbers.now)) }
    ensures { Appends out.old out.new (flat_map u32_bytes numbers.now) }
{
    for number in numbers {
        put_u32(out, *number);
    }
}

fn row_numbers_len(rows: &RowNumbers) -> usize
    ensures len { result ≡ length (row_numbers_bytes rows.now) }
    ensures within { result < 2 ^ 40 }
{
    4 + 4 * rows.as_slice().len()
}

fn put_row_numbers(out: &mut Vec<u8>, rows: &RowNumbers)
    requires { HasRoom out.old (length (row_numbers_bytes rows.now)) }
    ensures appended { Appends out.old out.new (row_numbers_bytes rows.now) }
    ensures form { AreRowNumbers rows.now }
{
    let numbers = rows.as_slice();
    put_u32(out, numbers.len() as u32);
    put_numbers(out, numbers);
}

fn put_range(out: &mut Vec<u8>, range: &(usize, usize))
    requires numbers { AreNumbers range.now.0 range.now.1 }
    requires room { HasRoom out.old 8 }
    ensures { Appends out.old out.new (pair_bytes range.now) }
{
    put_pair(out, range.0 as u32, range.1 as u32);
}

fn put_pairs(out: &mut Vec<u8>, ranges: &[(usize, usize)])
    requires numbers { All (λ range. AreNumbers range.0 range.1) ranges.now }
    requires room { HasRoom out.old (length (flat_map pair_bytes ranges.now)) }
    ensures { Appends out.old out.new (flat_map pair_bytes ranges.now) }
{
    for range in ranges {
        put_range(out, range);
    }
}

fn ranges_len(ranges: &OpRanges) -> usize
    ensures len { result ≡ length (ranges_bytes ranges.now) }
    ensures within { result < 2 ^ 40 }
{
    4 + 8 * ranges.ranges().as_slice().len()
}

fn put_ranges(out: &mut Vec<u8>, ranges: &OpRanges)
    requires { HasRoom out.old (length (ranges_bytes ranges.now)) }
    ensures appended { Appends out.old out.new (ranges_bytes ranges.now) }
    ensures form { AreOpRanges ranges.now }
{
    let ranges = ranges.ranges().as_slice();
    put_u32(out, ranges.len() as u32);
    put_pairs(out, ranges);
}

fn queue_kind(op: &QueueOp) -> u8
    ensures { result ≡ queue_kind op.now }
{
    match op {
        QueueOp::Add { .. } => 4,
        QueueOp::Delete { .. } => 5,
        QueueOp::Move { .. } => 6,
        QueueOp::Swap { .. } => 7,
        QueueOp::Shuffle { .. } => 8,
        QueueOp::Prio { .. } => 9,
    }
}

fn queue_len(op: &QueueOp) -> usize
    ensures len { result ≡ length (queue_fields op.now) }
    ensures within { result < 2 ^ 41 }
{
    match op {
        QueueOp::Add { rows, .. } => 4 + row_numbers_len(rows),
        QueueOp::Move { .. } => 12,
        QueueOp::Prio { ranges, .. } => 1 + ranges_len(ranges),
        _ => 8,
    }
}

fn put_queue_fields(out: &mut Vec<u8>, op: &QueueOp)
    requires { HasRoom out.old (length (queue_fields op.now)) }
    ensures appended { Appends out.old out.new (queue_fields op.now) }
    ensures form { IsQueueOp op.now }
{
    match op {
        QueueOp::Add { at, rows } => {
            put_u32(out, *at);
            put_row_numbers(out, rows);
        }
        QueueOp::Delete { start, end } => put_pair(out, *start, *end),
        QueueOp::Move { start, end, to } => {
            put_pair(out, *start, *end);
            put_u32(out, *to);
        }
        QueueOp::Swap { one, other } => put_pair(out, *one, *other),
        QueueOp::Shuffle { start, end } => put_pair(out, *start, *end),
        QueueOp::Prio { priority, ranges } => {
            put_byte(out, *priority);
            put_ranges(out, ranges);
        }
    }
}

fn name_len(name: &Text) -> usize
    ensures len { result ≡ length (text_bytes name.now) }
    ensures within { result ≤ 65537 }
{
    text_len(name.as_str())
}

fn put_name(out: &mut Vec<u8>, name: &Text)
    requires { HasRoom out.old (length (text_bytes name.now)) }
    ensures appended { Appends out.old out.new (text_bytes name.now) }
    ensures form { IsText name.now }
{
    put_text(out, name.as_str());
}

fn list_kind(op: &ListOp) -> u8
    ensures { result ≡ list_kind op.now }
{
    match op {
        ListOp::Save { .. } => 10,
        ListOp::Add { .. } => 11,
        ListOp::Remove { .. } => 12,
        ListOp::Move { .. } => 13,
        ListOp::Clear { .. } => 14,
        ListOp::Rename { .. } => 15,
        ListOp::Drop { .. } => 16,
    }
}

fn list_len(op: &ListOp) -> usize
    ensures len { result ≡ length (list_fields op.now) }
    ensures within { result < 2 ^ 41 }
{
    match op {
        ListOp::Save { name } => name_len(name),
        ListOp::Add { name, rows } => name_len(name) + row_numbers_len(rows),
        ListOp::Remove { name, .. } => name_len(name) + 8,
        ListOp::Move { name, .. } => name_len(name) + 8,
        ListOp::Clear { name } => name_len(name),
        ListOp::Rename { from, to } => name_len(from) + name_len(to),
        ListOp::Drop { name } => name_len(name),
    }
}

fn put_list_fields(out: &mut Vec<u8>, op: &ListOp)
    requires { HasRoom out.old (length (list_fields op.now)) }
    ensures appended { Appends out.old out.new (list_fields op.now) }
    ensures form { IsListOp op.now }
{
    match op {
        ListOp::Save { name } => put_name(out, name),
        ListOp::Add { name, rows } => {
            put_name(out, name);
            put_row_numbers(out, rows);
        }
        ListOp::Remove { name, start, end } => {
            put_name(out, name);
            put_pair(out, *start, *end);
        }
        ListOp::Move { name, from, to } => {
            put_name(out, name);
            put_pair(out, *from, *to);
        }
        ListOp::Clear { name } => put_name(out, name),
        ListOp::Rename { from, to } => {
            put_name(out, from);
            put_name(out, to);
        }
        ListOp::Drop { name } => put_name(out, name),
    }
}

fn sticker_kind(op: &StickerOp) -> u8
    ensures { result ≡ sticker_kind op.now }
{
    match op {
        StickerOp::Set { .. } => 17,
        StickerOp::Delete { .. } => 18,
        StickerOp::DeleteAll { .. } => 19,
    }
}

/// How many bytes a URI takes, at most 1,026.
pub(crate) fn uri_len(uri: &Uri) -> usize
    ensures len { result ≡ length (text_bytes uri.now) }
    ensures within { result ≤ 1026 }
{
    text_len(uri.as_str())
}

/// Appends a URI.
pub(crate) fn put_uri(out: &mut Vec<u8>, uri: &Uri)
    requires { HasRoom out.old (length (text_bytes uri.now)) }
    ensures appended { Appends out.old out.new (text_bytes uri.now) }
    ensures form { IsUri uri.now }
{
    put_text(out, uri.as_str());
}

fn value_len(value: &StickerValue) -> usize
    ensures len { result ≡ length (text_bytes value.now) }
    ensures within { result ≤ 4098 }
{
    text_len(value.as_str())
}

fn put_value(out: &mut Vec<u8>, value: &StickerValue)
    requires { HasRoom out.old (length (text_bytes value.now)) }
    ensures appended { Appends out.old out.new (text_bytes value.now) }
    ensures form { IsTrue (is_sticker_text value.now) }
{
    put_text(out, value.as_str());
}

fn sticker_len(op: &StickerOp) -> usize
    ensures len { result ≡ length (sticker_fields op.now) }
    ensures within { result < 2 ^ 41 }
{
    match op {
        StickerOp::Set { uri, name, value } => uri_len(uri) + (name_len(name) + value_len(value)),
        StickerOp::Delete { uri, name } => uri_len(uri) + name_len(name),
        StickerOp::DeleteAll { uri } => uri_len(uri),
    }
}

fn put_sticker_fields(out: &mut Vec<u8>, op: &StickerOp)
    requires { HasRoom out.old (length (sticker_fields op.now)) }
    ensures appended { Appends out.old out.new (sticker_fields op.now) }
    ensures form { IsStickerOp op.now }
{
    match op {
        StickerOp::Set { uri, name, value } => {
            put_uri(out, uri);
            put_name(out, name);
            put_value(out, value);
        }
        StickerOp::Delete { uri, name } => {
            put_uri(out, uri);
            put_name(out, name);
        }
        StickerOp::DeleteAll { uri } => put_uri(out, uri),
    }
}

impl Op {
    /// How many bytes the op takes in the body of a record under a profile.
    pub fn spelled_len(&self, profile: Profile) -> usize
        ensures { result ≡ length (op_bytes profile self.now) }
    {
        match self {
            Op::SetOption(_) => 3,
            Op::SetVolume(_) => 2,
            Op::SetOrder(_) => 9,
            Op::Queue(op) => 1 + queue_len(op),
            Op::List(op) => 1 + list_len(op),
            Op::Sticker(op) => 1 + sticker_len(op),
            Op::Batch(changes) => 1 + changes_len(profile, changes),
            Op::Place(op) => 1 + place_op_len(*op),
            Op::Timed(_) => 9,
        }
    }
}

// Appends the spelling of an op, which has its numbers in range and its texts in their form.
pub(crate) fn put_reserved(out: &mut Vec<u8>, profile: Profile, op: &Op)
    requires { HasRoom out.old (length (op_bytes profile op.now)) }
    ensures appended { Appends out.old out.new (op_bytes profile op.now) }
    ensures form { IsOp op.now }
{
    match op {
        Op::SetOption(value) => {
            put_byte(out, 1);
            put_setting(out, *value);
        }
        Op::SetVolume(volume) => {
            put_byte(out, 2);
            put_byte(out, volume.percent());
        }
        Op::SetOrder(order) => {
            put_byte(out, 3);
            put_u64(out, *order);
        }
        Op::Queue(op) => {
            put_byte(out, queue_kind(op));
            put_queue_fields(out, op);
        }
        Op::List(op) => {
            put_byte(out, list_kind(op));
            put_list_fields(out, op);
        }
        Op::Sticker(op) => {
            put_byte(out, sticker_kind(op));
            put_sticker_fields(out, op);
        }
        Op::Batch(changes) => {
            put_byte(out, 20);
            put_changes(out, profile, changes);
        }
        Op::Place(op) => {
            put_byte(out, place_kind(*op));
            put_place_fields(out, *op);
        }
        Op::Timed(seconds) => {
            put_byte(out, 21);
            put_u64(out, *seconds);
        }
    }
}
