// The look-up of a row that begins where it was last known to stand.
ghost use Rattle.std.specs.Prelude.{◌≡◌, ◌<◌, ◌≤◌, ◌+◌, length, slice_get, option_and_then, IfSome};
ghost use Rattle.std.specs.List.{AllWithin};
ghost use Rattle.std.specs.List.Sorted.{IsPartitionPoint};
ghost use Rattle.song_db.specs.Query.{number_at};
ghost use Rattle.song_db.specs.Replaced.{IsRising, IsBefore, IsNotBefore};
ghost use Rattle.song_db.specs.Row.{row_uri, row_at};

use crate::row::SongRow;
use crate::rows::{own_place, split_point};

// The place of the row of a URI, looked for at a number first, and then on both sides of it.
pub(crate) fn position_near(rows: &[SongRow], uri: &str, number: usize) -> Option<usize>
    requires { IsRising row_uri rows.now }
    ensures number { result ≡ number_at rows.now uri.now }
    ensures bound { IfSome result (λ at. at < length rows.now) }
    ensures row { option_and_then (slice_get rows.now) result ≡ row_at rows.now uri.now }
{
    if number < rows.len() && rows[number].uri() == uri {
        return Some(number);
    }
    let at = split_near(rows, uri, number);
    own_place(rows, uri, at)
}

// The place of the first row whose URI isn't below the given one. The further it is from the number, the longer it takes.
fn split_near(rows: &[SongRow], uri: &str, number: usize) -> usize
    requires { IsRising row_uri rows.now }
    ensures bound { result ≤ length rows.now }
    ensures split { IsPartitionPoint (IsBefore row_uri uri.now) (IsNotBefore row_uri uri.now) rows.now result }
{
    let (low, high) = span_near(rows, uri, number);
    low + split_point(&rows[low..high], uri)
}

// Two places with the first row that isn't below the URI between them, or at the second one.
fn span_near(rows: &[SongRow], uri: &str, number: usize) -> (usize, usize)
    requires { IsRising row_uri rows.now }
    ensures forward { result.0 ≤ result.1 }
    ensures within { result.1 ≤ length rows.now }
    ensures before { AllWithin (IsBefore row_uri uri.now) rows.now 0 result.0 }
    ensures behind { AllWithin (IsNotBefore row_uri uri.now) rows.now result.1 (length rows.now) }
{
    if rows.len() <= number {
        return span_down(rows, uri, rows.len());
    }
    if rows[number].uri() < uri {
        return span_up(rows, uri, number + 1);
    }
    span_down(rows, uri, number)
}

// The same from a place on, in steps that double.
fn span_up(rows: &[SongRow], uri: &str, from: usize) -> (usize, usize)
    requires rising { IsRising row_uri rows.now }
    requires within { from ≤ length rows.now }
    requires before { AllWithin (IsBefore row_uri uri.now) rows.now 0 from }
    ensures forward { result.0 ≤ result.1 }
    ensures within { result.1 ≤ length rows.now }
    ensures before { AllWithin (IsBefore row_uri uri.now) rows.now 0 result.0 }
    ensures behind { AllWithin (IsNotBefore row_uri uri.now) rows.now result.1 (length rows.now) }
{
    let mut low = from;
    let mut step = 1;
    'steps: while step <= rows.len() - low {
        let tried = low + step - 1;
        if rows[tried].uri() >= uri {
            return (low, tried);
        }
        low = tried + 1;
        step *= 2;
    }
    (low, rows.len())
}

// The same from a place downwards.
fn span_down(rows: &[SongRow], uri: &str, from: usize) -> (usize, usize)
    requires rising { IsRising row_uri rows.now }
    requires within { from ≤ length rows.now }
    requires behind { AllWithin (IsNotBefore row_uri uri.now) rows.now from (length rows.now) }
    ensures forward { result.0 ≤ result.1 }
    ensures within { result.1 ≤ length rows.now }
    ensures before { AllWithin (IsBefore row_uri uri.now) rows.now 0 result.0 }
    ensures behind { AllWithin (IsNotBefore row_uri uri.now) rows.now result.1 (length rows.now) }
{
    let mut high = from;
    let mut step = 1;
    'steps: while step <= high {
        let tried = high - step;
        if rows[tried].uri() < uri {
            return (tried + 1, high);
        }
        high = tried;
        step *= 2;
    }
    (0, high)
}
