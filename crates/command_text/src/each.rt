// Reads commands' arguments that come as often as one likes: ranges and ids.
ghost use Rattle.std.specs.Prelude.{◌≡◌, ◌+◌, length};
ghost use Rattle.command_text.specs.Arguments.{number_of, range_of};
ghost use Rattle.command_text.specs.Counts.{each};
ghost use Rattle.command_text.specs.Stops.{Reads};

use crate::argument::{argument, number, range};
use crate::range::{EntryIds, PositionRanges};
use crate::stop::Stop;
use filter_expr::LineWord;
use std::alloc::Global;

/// Each of the ranges, of which the first is the second argument.
pub(crate) fn ranges(alloc: Global, words: &[LineWord<'_>]) -> Result<PositionRanges, Stop>
    ensures { Reads result (each range_of 2 words.now) }
{
    let mut ranges = Vec::new(alloc);
    for (place, word) in words.iter().enumerate() {
        ranges.push(argument(place + 2, range(word.bytes()))?)?;
    }
    Ok(PositionRanges { ranges })
}

/// Each of the ids, of which the first is the second argument.
pub(crate) fn ids(alloc: Global, words: &[LineWord<'_>]) -> Result<EntryIds, Stop>
    ensures { Reads result (each number_of 2 words.now) }
{
    let mut ids = Vec::new(alloc);
    for (place, word) in words.iter().enumerate() {
        ids.push(argument(place + 2, number(word.bytes()))?)?;
    }
    Ok(EntryIds { ids })
}
