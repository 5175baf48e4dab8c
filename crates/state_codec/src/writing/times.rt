// The times of the playlists' last change, and all fields behind the parts of a snapshot, appended to room that was taken before.
ghost use Rattle.std.specs.Prelude.{◌≡◌, ◌≤◌, length};
ghost use Rattle.std.specs.List.{flat_map};
ghost use Rattle.state_codec.specs.Appended.{HasRoom, Appends};
ghost use Rattle.state_codec.specs.SpellingTimes.{count_of_fields, fields_bytes, has_none, time_bytes, times_front, times_head};

use super::bytes::{put_byte, put_text, put_u32, put_u64, text_len};
use super::place::{field_count, place_len, put_place, told_count};
use player_core::Place;
use stored_lists::{ListTime, ListTimes};

// How many bytes a time takes.
fn time_len(time: &ListTime) -> usize
    ensures len { result ≡ length (time_bytes time.now) }
    ensures within { result ≤ 266 }
{
    text_len(time.name.as_str()) + 8
}

/// Appends a time.
pub(crate) fn put_time(out: &mut Vec<u8>, time: &ListTime)
    requires { HasRoom out.old (length (time_bytes time.now)) }
    ensures appended { Appends out.old out.new (time_bytes time.now) }
    ensures within { length (time_bytes time.now) ≤ 266 }
{
    let _len = time_len(time);
    put_text(out, time.name.as_str());
    put_u64(out, time.seconds);
}

// How many bytes the times take.
fn items_len(times: &[ListTime]) -> usize
    requires { length times.now ≤ 1024 }
    ensures len { result ≡ length (flat_map time_bytes times.now) }
    ensures within { result ≤ 272384 }
{
    let mut len: usize = 0;
    for time in times {
        len += time_len(time);
    }
    len
}

fn put_items(out: &mut Vec<u8>, times: &[ListTime])
    requires { HasRoom out.old (length (flat_map time_bytes times.now)) }
    ensures { Appends out.old out.new (flat_map time_bytes times.now) }
{
    for time in times {
        put_time(out, time);
    }
}

fn has_none(times: &[ListTime]) -> bool
    ensures { result ≡ has_none times.now }
{
    match times {
        [] => true,
        [_, ..] => false,
    }
}

// How many bytes stand in front of the times of field 1.
fn front_len(times: &[ListTime]) -> usize
    ensures len { result ≡ length (times_front times.now) }
    ensures within { result ≤ 9 }
{
    match times {
        [] => 0,
        [_, ..] => 9,
    }
}

fn put_front(out: &mut Vec<u8>, times: &[ListTime])
    requires few { length times.now ≤ 1024 }
    requires room { HasRoom out.old (length (times_front times.now)) }
    ensures { Appends out.old out.new (times_front times.now) }
{
    if has_none(times) {
        return;
    }
    put_byte(out, 1);
    put_u32(out, 4 + items_len(times) as u32);
    put_u32(out, times.len() as u32);
}

fn count_of_fields(times: &ListTimes, place: &Place) -> u8
    ensures { result ≡ count_of_fields times.now place.now }
{
    let first = told_count(has_none(times.as_slice()));
    let others = field_count(place);
    first + others
}

/// Appends the number of fields, and what stands in front of the times of field 1.
pub(crate) fn put_times_head(out: &mut Vec<u8>, times: &ListTimes, place: &Place)
    requires { HasRoom out.old (length (times_head times.now place.now)) }
    ensures appended { Appends out.old out.new (times_head times.now place.now) }
    ensures within { length (times_head times.now place.now) ≤ 10 }
{
    put_byte(out, count_of_fields(times, place));
    put_front(out, times.as_slice());
}

/// How many bytes all fields take.
pub(super) fn all_fields_len(times: &ListTimes, place: &Place) -> usize
    ensures len { result ≡ length (fields_bytes times.now place.now) }
    ensures within { result ≤ 534561 }
{
    let times = times.as_slice();
    1 + front_len(times) + items_len(times) + place_len(place)
}

/// Appends all fields.
pub(super) fn put_all_fields(out: &mut Vec<u8>, times: &ListTimes, place: &Place)
    requires { HasRoom out.old (length (fields_bytes times.now place.now)) }
    ensures { Appends out.old out.new (fields_bytes times.now place.now) }
{
    put_times_head(out, times, place);
    put_items(out, times.as_slice());
    put_place(out, place);
}
