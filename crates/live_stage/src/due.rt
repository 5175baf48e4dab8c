// When a checkpoint is due.
ghost use Rattle.std.specs.Prelude.{◌≡◌, min, nat_lt, sum_by};
ghost use Rattle.live_stage.specs.Answer.{answer_work};
ghost use Rattle.live_stage.specs.Numbers.{greatest, is_due, most_records, most_work};

use crate::turn::Turn;

/// A turn that finds so many records behind the snapshot makes a checkpoint first, however short that is.
const FEWEST_RECORDS: u64 = 4_096;

/// The layout in which a longer snapshot takes more records, one for each KiB: so that a large state isn't written each hour.
const THIRD_LAYOUT: u32 = 3;

/// So does one that finds more bytes of records than these, 4 MiB, and than the snapshot has.
const MOST_BYTES: u64 = 4_194_304;

/// Behind records whose events looked at more than this in all, one is made once room is looked for: as much as twenty requests may.
pub(crate) const MOST_WORK: u64 = 200_000_000;

/// How many records a file of this layout takes behind a snapshot of this length before a checkpoint is due.
fn most_records(layout: u32, snapshot_len: u64) -> u64
    ensures { result ≡ most_records layout snapshot_len }
{
    if layout == THIRD_LAYOUT {
        FEWEST_RECORDS.max(snapshot_len / 1_024)
    } else {
        FEWEST_RECORDS
    }
}

/// Whether a checkpoint is due where so many records stand behind a snapshot of this length in this layout and take so many bytes, and
/// whether it is put off.
pub(crate) fn is_due_at(
    layout: u32,
    records: u64,
    bytes: u64,
    snapshot_len: u64,
    is_put_off: bool,
) -> bool
    ensures { result ≡ is_due (record {
      layout = layout;
      generation = 0;
      snapshot_len = snapshot_len;
      records = records;
      bytes = bytes;
      is_put_off = is_put_off;
    }) }
{
    let most_records = most_records(layout, snapshot_len);
    let most_bytes = snapshot_len.max(MOST_BYTES);
    !is_put_off && (records >= most_records || bytes > most_bytes)
}

/// Whether the events of the records looked at more than they may, so that a start doesn't take long.
pub(crate) fn is_much(work: u64) -> bool
    ensures { result ≡ nat_lt most_work work }
{
    work > MOST_WORK
}

/// How much the events of these turns add to the work of the records, counted up to 2^64 - 1.
pub(crate) fn work_of<D>(turns: &[Turn<D>]) -> u64
    ensures { result ≡ min (sum_by answer_work turns.now) greatest }
{
    let mut work: u64 = 0;
    for turn in turns {
        work = work.saturating_add(turn.added_work());
    }
    work
}
