// The lines of the queue's entries, one after the other.
ghost use Rattle.std.specs.Prelude.{◌≡◌};
ghost use Rattle.std.specs.List.{flat_map};
ghost use Rattle.command_text.specs.Answer.{Adds};
ghost use Rattle.machine_core.specs.Entries.{file_info, place_info, position_info};
ghost use Rattle.machine_core.specs.Spans.{positions_in};

use crate::span::Span;
use command_text::{NoMemory, TagMask, write_entry, write_numbered_file, write_place};
use play_queue::Entries;
use state_codec::Saved;

// Adds the entry at a position, if one stands there.
pub(crate) fn write_position(
    out: &mut Vec<u8>,
    mask: TagMask,
    saved: &Saved,
    position: usize,
) -> Result<(), NoMemory>
    ensures { Adds (position_info mask saved.now position) result out.old out.new }
{
    let Some(entry) = saved.queue().get(position) else {
        return Ok(());
    };
    match saved.songs().row_of(entry.uri) {
        Ok(row) => write_entry(out, mask, row, position, &entry),
        Err(_) => Ok(()),
    }
}

// Adds the entries at the positions of a span.
pub(crate) fn write_span(
    out: &mut Vec<u8>,
    mask: TagMask,
    saved: &Saved,
    span: Span,
) -> Result<(), NoMemory>
    ensures { Adds (flat_map (position_info mask saved.now) (positions_in span)) result out.old out.new }
{
    for position in span.start..span.end {
        write_position(out, mask, saved, position as usize)?;
    }
    Ok(())
}

// Adds the entries at these positions.
pub(crate) fn write_positions(
    out: &mut Vec<u8>,
    mask: TagMask,
    saved: &Saved,
    positions: &[usize],
) -> Result<(), NoMemory>
    ensures { Adds (flat_map (position_info mask saved.now) positions.now) result out.old out.new }
{
    for position in positions {
        write_position(out, mask, saved, *position)?;
    }
    Ok(())
}

// Adds the entry at a position by its position and id alone, if one stands there.
fn write_place_at(out: &mut Vec<u8>, entries: &Entries, position: usize) -> Result<(), NoMemory>
    ensures { Adds (place_info entries.now position) result out.old out.new }
{
    match entries.get(position) {
        Some(entry) => write_place(out, position, entry.id),
        None => Ok(()),
    }
}

// Adds the entries at these positions by their positions and ids alone.
pub(crate) fn write_places(
    out: &mut Vec<u8>,
    entries: &Entries,
    positions: &[usize],
) -> Result<(), NoMemory>
    ensures { Adds (flat_map (place_info entries.now) positions.now) result out.old out.new }
{
    for position in positions {
        write_place_at(out, entries, *position)?;
    }
    Ok(())
}

// Adds the file of the entry at a position, if one stands there.
fn write_file_at(out: &mut Vec<u8>, entries: &Entries, position: usize) -> Result<(), NoMemory>
    ensures { Adds (file_info entries.now position) result out.old out.new }
{
    match entries.get(position) {
        Some(entry) => write_numbered_file(out, position, entry.uri.as_str()),
        None => Ok(()),
    }
}

// Adds the files of the entries at the positions of a span, numbered.
pub(crate) fn write_files(out: &mut Vec<u8>, entries: &Entries, span: Span) -> Result<(), NoMemory>
    ensures { Adds (flat_map (file_info entries.now) (positions_in span)) result out.old out.new }
{
    for position in span.start..span.end {
        write_file_at(out, entries, position as usize)?;
    }
    Ok(())
}
