// The part of a result that a window asks for, as its rows come one after the other.
ghost use Rattle.std.specs.Prelude.{◌≡◌, ◌≤◌, ◌∷◌, [], List, length, MatchBool};
ghost use Rattle.song_db.specs.Row.{Row};
ghost use Rattle.machine_core.specs.Finding.{in_window, part_of};

use command_text::Window;

// How many are passed over still, and how many come up to the end, those that are passed over included.
#[derive(Clone, Copy, Debug)]
pub(crate) struct Part {
    pub skip: usize,
    pub end: usize,
}

impl Part {
    // The part of at most so many rows.
    pub(crate) fn of_window(window: Option<Window>, count: usize) -> Part
        ensures { (rows : List Row) → length rows ≤ count → part_of result rows ≡ in_window window rows }
    {
        match window {
            None => Part {
                skip: 0,
                end: count,
            },
            Some(window) => Part {
                skip: window.start as usize,
                end: match window.end {
                    Some(end) => end as usize,
                    None => count,
                },
            },
        }
    }

    // Whether nothing more belongs to it.
    pub(crate) fn is_over(&self) -> bool
        ensures { MatchBool result ((rows : List Row) → part_of self.now rows ≡ []) (self.now.end ≡ 0 → ⊥) }
    {
        self.end == 0
    }

    // Takes the next row; whether it belongs to the part.
    pub(crate) fn takes(&mut self) -> bool
        ensures { MatchBool result ((row : Row) (rows : List Row) → part_of self.old (row ∷ rows) ≡ row ∷ part_of self.new rows)
            ((row : Row) (rows : List Row) → part_of self.old (row ∷ rows) ≡ part_of self.new rows) }
    {
        if self.end == 0 {
            return false;
        }
        self.end -= 1;
        if self.skip == 0 {
            return true;
        }
        self.skip -= 1;
        false
    }
}
