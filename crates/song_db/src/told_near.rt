// Where a song is told among others, looked for from a place on to both sides.
ghost use Rattle.std.specs.Prelude.{◌≡◌, ◌<◌, ◌≤◌, ◌+◌, List, ℕ, length, IfOk, IfErr};
ghost use Rattle.std.specs.Cmp.Lexicographic.{slice_cmp};
ghost use Rattle.std.specs.List.{AllWithin};
ghost use Rattle.std.specs.List.Sorted.{IsPartitionPoint};
ghost use Rattle.std.specs.Ordering.{nat_cmp, is_lt};
ghost use Rattle.song_db.specs.Lent.{lent_key};
ghost use Rattle.song_db.specs.Replaced.{IsRising, IsBefore, IsNotBefore, IsPlaceOf, IsPlaceFor};
ghost use Rattle.song_db.specs.Told.{told_key};

use crate::row::SongRow;
use crate::told::compare_told;
use std::cmp::Ordering;

// A song among those that are told, or one that is lent.
pub(crate) trait ToldSong {
    // What it is told by.
    ghost key: { Self → List ℕ };

    // Whether it is told before a song, or behind it; `Equal` where it has the song's URI.
    fn compare(&self, row: &SongRow) -> Ordering
        ensures { result ≡ slice_cmp nat_cmp (key self.now) (told_key row.now) };
}

impl ToldSong for SongRow {
    ghost key = { told_key };

    fn compare(&self, row: &SongRow) -> Ordering {
        compare_told(self, row)
    }
}

impl<'a> ToldSong for &'a SongRow {
    ghost key = { lent_key };

    fn compare(&self, row: &SongRow) -> Ordering {
        compare_told(*self, row)
    }
}

// The place of a song, or the place that it would have, looked for at a place first. The further it is from there, the longer it takes.
pub(crate) fn told_place<T: ToldSong>(
    told: &[T],
    row: &SongRow,
    near: usize,
) -> Result<usize, usize>
    requires { IsRising T.key told.now }
    ensures there { IfOk result (IsPlaceOf T.key (told_key row.now) told.now) }
    ensures absent { IfErr result (IsPlaceFor T.key (told_key row.now) told.now) }
{
    let at = told_point(told, row, near);
    if at < told.len() && told[at].compare(row).is_eq() {
        return Ok(at);
    }
    Err(at)
}

// The place of the first song that isn't told before this one.
fn told_point<T: ToldSong>(told: &[T], row: &SongRow, near: usize) -> usize
    requires { IsRising T.key told.now }
    ensures bound { result ≤ length told.now }
    ensures split { IsPartitionPoint (IsBefore T.key (told_key row.now)) (IsNotBefore T.key (told_key row.now)) told.now result }
{
    let (low, high) = span_near(told, row, near);
    low + split_told(&told[low..high], row)
}

// The same by a binary search among all of them.
fn split_told<T: ToldSong>(told: &[T], row: &SongRow) -> usize
    requires { IsRising T.key told.now }
    ensures bound { result ≤ length told.now }
    ensures split { IsPartitionPoint (IsBefore T.key (told_key row.now)) (IsNotBefore T.key (told_key row.now)) told.now result }
{
    told.partition_point(
        |other: &T| -> bool
            ensures { result ≡ is_lt (slice_cmp nat_cmp (T.key other.now) (told_key row.entry.now)) }
        { other.compare(row).is_lt() },
    )
}

// Two places with the first song that isn't told before this one between them, or at the second one.
fn span_near<T: ToldSong>(told: &[T], row: &SongRow, near: usize) -> (usize, usize)
    requires { IsRising T.key told.now }
    ensures forward { result.0 ≤ result.1 }
    ensures within { result.1 ≤ length told.now }
    ensures before { AllWithin (IsBefore T.key (told_key row.now)) told.now 0 result.0 }
    ensures behind { AllWithin (IsNotBefore T.key (told_key row.now)) told.now result.1 (length told.now) }
{
    if told.len() <= near {
        return span_down(told, row, told.len());
    }
    if told[near].compare(row).is_lt() {
        return span_up(told, row, near + 1);
    }
    span_down(told, row, near)
}

// The same from a place on, in steps that double.
fn span_up<T: ToldSong>(told: &[T], row: &SongRow, from: usize) -> (usize, usize)
    requires rising { IsRising T.key told.now }
    requires within { from ≤ length told.now }
    requires before { AllWithin (IsBefore T.key (told_key row.now)) told.now 0 from }
    ensures forward { result.0 ≤ result.1 }
    ensures within { result.1 ≤ length told.now }
    ensures before { AllWithin (IsBefore T.key (told_key row.now)) told.now 0 result.0 }
    ensures behind { AllWithin (IsNotBefore T.key (told_key row.now)) told.now result.1 (length told.now) }
{
    let mut low = from;
    let mut step = 1usize;
    'steps: while step <= told.len() - low {
        let tried = low + step - 1;
        if !told[tried].compare(row).is_lt() {
            return (low, tried);
        }
        low = tried + 1;
        step = step.saturating_mul(2);
    }
    (low, told.len())
}

// The same from a place downwards.
fn span_down<T: ToldSong>(told: &[T], row: &SongRow, from: usize) -> (usize, usize)
    requires rising { IsRising T.key told.now }
    requires within { from ≤ length told.now }
    requires behind { AllWithin (IsNotBefore T.key (told_key row.now)) told.now from (length told.now) }
    ensures forward { result.0 ≤ result.1 }
    ensures within { result.1 ≤ length told.now }
    ensures before { AllWithin (IsBefore T.key (told_key row.now)) told.now 0 result.0 }
    ensures behind { AllWithin (IsNotBefore T.key (told_key row.now)) told.now result.1 (length told.now) }
{
    let mut high = from;
    let mut step = 1usize;
    'steps: while step <= high {
        let tried = high - step;
        if told[tried].compare(row).is_lt() {
            return (tried + 1, high);
        }
        high = tried;
        step = step.saturating_mul(2);
    }
    (0, high)
}
