// How many rows have a text of each tag.
ghost use Rattle.std.specs.Prelude.{◌≡◌, ◌+◌, ◌-◌, ◌≤◌, ℕ, List, option_copied};
ghost use Rattle.song_files.specs.declared.tag.Tag.{Tag};
ghost use Rattle.song_db.specs.Change.{IsDatabase, after_change};
ghost use Rattle.song_db.specs.Effect.{effect_of};
ghost use Rattle.song_db.specs.Row.{Row};
ghost use Rattle.song_db.specs.Tagged.{AreCounted, AreFew, kept_count, ones_of};
ghost use Rattle.song_db.specs.ValueIndex.{coming};
ghost use Rattle.song_db.specs.declared.change.RowChange.{RowChange};

use crate::effect::Effect;
use crate::row::SongRow;
use song_files::{TAG_COUNT, Tag};

// Follows a change that has been made among the rows, with this effect.
pub(crate) fn follow_counts(counts: &mut [u32; TAG_COUNT], copy: Option<&SongRow>, effect: &Effect)
    requires { AreFew counts.old }
    ensures { (rows : List Row) (change : RowChange) → IsDatabase rows → option_copied copy.entry ≡ coming change →
        effect.now ≡ effect_of rows change → AreCounted rows counts.old → AreCounted (after_change rows change) counts.new }
{
    match effect {
        Effect::Nothing => {}
        Effect::LeftOut(_) => {}
        Effect::Came => exchange(counts, None, copy),
        Effect::Replaced(old) => exchange(counts, Some(old), copy),
        Effect::Went(old) => exchange(counts, Some(old), None),
    }
}

// A row goes, if there is one, and another comes, if there is one.
pub(crate) fn exchange(
    counts: &mut [u32; TAG_COUNT],
    goes: Option<&SongRow>,
    comes: Option<&SongRow>,
)
    requires { AreFew counts.old }
    ensures { (tag : Tag) → kept_count counts.new tag ≡ kept_count counts.old tag - ones_of tag (option_copied goes.entry)
        + ones_of tag (option_copied comes.entry) }
{
    for number in 0..TAG_COUNT {
        let tag = Tag::at(number);
        counts[number] = counts[number].saturating_sub(ones_of(goes, tag)) + ones_of(comes, tag);
    }
}

// One where there is a row with the tag.
fn ones_of(row: Option<&SongRow>, tag: Tag) -> u32
    ensures value { result ≡ ones_of tag (option_copied row.entry) }
    ensures few { result ≤ 1 }
{
    match row {
        Some(row) if row.tag(tag).is_some() => 1,
        _ => 0,
    }
}
