// The positions that a RANGE names.
ghost use Rattle.std.specs.Prelude.{◌≡◌};
ghost use Rattle.machine_core.specs.Spans.{count_of, holds, span_in, span_or_all, unless_past};

use command_text::{CommandRefusal, PositionRange};

/// Positions from `start` up to, but not including, `end`.
#[derive(Clone, Copy, Debug)]
pub struct Span {
    pub start: u32,
    pub end: u32,
}

impl Span {
    // How many positions they are.
    pub(crate) fn count(self) -> u32
        ensures { result ≡ count_of self }
    {
        self.end.saturating_sub(self.start)
    }

    // Whether a position is one of them.
    pub(crate) fn holds(self, position: usize) -> bool
        ensures { result ≡ holds self position }
    {
        self.start as usize <= position && position < self.end as usize
    }
}

// The positions of a RANGE among so many. Refused by `BadIndex`.
#[tactic(auto, unfolding(crate::specs::Spans::span_in))]
pub(crate) fn span_in(range: PositionRange, length: u32) -> Result<Span, CommandRefusal>
    ensures { result ≡ span_in range length }
{
    match range {
        PositionRange::One(position) => {
            if position >= length {
                return Err(CommandRefusal::BadIndex);
            }
            Ok(Span {
                start: position,
                end: position + 1,
            })
        }
        PositionRange::From(start) => unless_past(start, length, length),
        PositionRange::Between(start, end) => unless_past(start, end, length),
    }
}

// The positions of a RANGE among so many, or all of them.
pub(crate) fn span_or_all(range: Option<PositionRange>, length: u32) -> Result<Span, CommandRefusal>
    ensures { result ≡ span_or_all range length }
{
    match range {
        Some(range) => span_in(range, length),
        None => Ok(Span {
            start: 0,
            end: length,
        }),
    }
}

fn unless_past(start: u32, end: u32, length: u32) -> Result<Span, CommandRefusal>
    ensures { result ≡ unless_past start end length }
{
    if start > length {
        return Err(CommandRefusal::BadIndex);
    }
    Ok(Span {
        start,
        end: end.min(length),
    })
}
