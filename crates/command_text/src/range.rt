// Positions and ranges of a list, and windows into one, as commands give them.
ghost use Rattle.std.specs.Prelude.{◌≡◌};

use std::marker::Model;

/// A RANGE of positions, each from 0 on, as a command's argument writes it (MPD protocol reference 0.23, "Requests"). An end is excluded.
#[derive(Clone, Copy, Debug, PartialEq, Eq)]
pub enum PositionRange {
    /// `POS`: that position alone.
    One(u32),
    /// `START:`: all positions from the start on.
    From(u32),
    /// `START:END`; the start is not above the end.
    Between(u32, u32),
}

/// The part of a result that `window` asks for; the first place is 0.
#[derive(Clone, Copy, Debug, PartialEq, Eq)]
pub struct Window {
    pub start: u32,
    /// The place behind the last; none is the end of the result.
    pub end: Option<u32>,
}

/// The ranges of a command, as they were given. Contracts see them as a list.
#[derive(Debug, Drop)]
pub struct PositionRanges {
    pub(crate) ranges: Vec<PositionRange>,
}

impl Model for PositionRanges {
    ghost use Rattle.std.specs.Prelude.{List};
    ghost use Rattle.command_text.specs.declared.range.PositionRange.{PositionRange};

    ghost Value = { List PositionRange };

    ghost view = { λ r. r.ranges.items };
}

impl PositionRanges {
    pub fn as_slice(&self) -> &[PositionRange]
        ensures { result.now ≡ self.now }
    {
        self.ranges.as_slice()
    }
}

/// The ids of a command, as they were given. Contracts see them as a list.
#[derive(Debug, Drop)]
pub struct EntryIds {
    pub(crate) ids: Vec<u32>,
}

impl Model for EntryIds {
    ghost use Rattle.std.specs.Prelude.{ℕ, List};

    ghost Value = { List ℕ };

    ghost view = { λ i. i.ids.items };
}

impl EntryIds {
    pub fn as_slice(&self) -> &[u32]
        ensures { result.now ≡ self.now }
    {
        self.ids.as_slice()
    }
}
