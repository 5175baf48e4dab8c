// The parts of a pattern, and how they are looked for.
ghost use Rattle.std.specs.Prelude.{◌≡◌, ◌+◌, ◌*◌, ◌≤◌, ◌++◌, drop, length, min};
ghost use Rattle.arrayvec.specs.ArrayVec.{array_vec_len};
ghost use Rattle.regular_expr.specs.Marks.{ends, moved, through, through_some, all_moved, first_mark, takes};
ghost use Rattle.regular_expr.specs.Shape.{bytes_of, shape_of, leaves, visits};

use crate::byte_set::ByteSet;
use crate::place::{Here, Place};
use arrayvec::ArrayVec;

/// How many leaves a pattern may have, where what is repeated counts as often.
pub(crate) const MOST_LEAVES: usize = 512;

/// Of each leaf whether a way through the pattern took the last byte with it.
pub(crate) type Marks = ArrayVec<bool, MOST_LEAVES>;

/// A part of a pattern.
#[derive(Debug, Drop)]
pub(crate) enum Part {
    /// The empty text.
    Nothing,
    /// A byte of a set.
    One(ByteSet),
    At(Place),
    /// One, and behind it another.
    Then(Box<Part>, Box<Part>),
    /// One of two.
    Either(Box<Part>, Box<Part>),
    /// One once or more often.
    Again(Box<Part>),
    /// One so often, and so many more that may be missing.
    Times(u8, u8, Box<Part>),
}

/// Whether a leaf was marked, and the marks behind its own.
fn next_mark(marks: &[bool]) -> (bool, &[bool])
    ensures mark { result.0 ≡ first_mark marks.now }
    ensures behind { result.1.now ≡ drop 1 marks.now }
{
    match marks {
        [] => (false, &[]),
        [mark, behind @ ..] => (*mark, behind),
    }
}

fn takes(set: &ByteSet, here: Here) -> bool
    ensures { result ≡ takes here.fold (bytes_of set.now) here.next }
{
    match here.next {
        None => false,
        Some(byte) => set.has(here.fold, byte),
    }
}

impl Part {
    /// Whether the end is reached at a place: from the beginning, where that is reached there, or from a marked leaf. And the marks behind
    /// its own.
    #[cycle(looking)]
    #[tactic(auto, unfolding(crate::specs::Marks::ends))]
    pub(crate) fn ends<'m>(
        &self,
        here: Here,
        reached: bool,
        marks: &'m [bool],
    ) -> (bool, &'m [bool])
        ensures ends { result.0 ≡ ends here (shape_of self.now) reached marks.now }
        ensures behind { result.1.now ≡ drop (leaves (shape_of self.now)) marks.now }
    {
        match self {
            Part::Nothing => (reached, next_mark(marks).1),
            Part::One(_) => next_mark(marks),
            Part::At(place) => (reached && place.is_at(here), next_mark(marks).1),
            Part::Then(first, second) => {
                let (middle, behind) = first.ends(here, reached, marks);
                second.ends(here, middle, behind)
            }
            Part::Either(one, other) => {
                let (left, behind) = one.ends(here, reached, marks);
                let (right, behind) = other.ends(here, reached, behind);
                (left || right, behind)
            }
            Part::Again(part) => part.ends(here, reached, marks),
            Part::Times(least, more, part) => {
                let (middle, behind) = part.ends_all(here, *least, reached, marks);
                part.ends_some(here, *more, middle, behind)
            }
        }
    }

    // The same through so many, one behind the other.
    #[cycle(looking)]
    fn ends_all<'m>(
        &self,
        here: Here,
        count: u8,
        start: bool,
        marks: &'m [bool],
    ) -> (bool, &'m [bool])
        ensures ends { result.0 ≡ through (ends here (shape_of self.now)) (leaves (shape_of self.now)) count start marks.now }
        ensures behind { result.1.now ≡ drop (count * leaves (shape_of self.now)) marks.now }
    {
        let mut reached = start;
        let mut rest = marks;
        for at in 0..count {
            let (end, behind) = self.ends(here, reached, rest);
            reached = end;
            rest = behind;
        }
        (reached, rest)
    }

    // The same where each may be the last.
    #[cycle(looking)]
    fn ends_some<'m>(
        &self,
        here: Here,
        count: u8,
        start: bool,
        marks: &'m [bool],
    ) -> (bool, &'m [bool])
        ensures ends { result.0 ≡ through_some (ends here (shape_of self.now)) (leaves (shape_of self.now)) count start marks.now }
        ensures behind { result.1.now ≡ drop (count * leaves (shape_of self.now)) marks.now }
    {
        let mut found = false;
        let mut reached = start;
        let mut rest = marks;
        for at in 0..count {
            found = found || reached;
            let (end, behind) = self.ends(here, reached, rest);
            reached = end;
            rest = behind;
        }
        (found || reached, rest)
    }

    /// The same, and adds the marks behind the next byte.
    #[cycle(stepping)]
    #[tactic(auto, using(crate::proofs::Chains::both_often), unfolding(crate::specs::Marks::ends, crate::specs::Marks::moved))]
    pub(crate) fn step<'m>(
        &self,
        here: Here,
        reached: bool,
        marks: &'m [bool],
        next: &mut Marks,
    ) -> (bool, &'m [bool])
        requires { array_vec_len next.old + leaves (shape_of self.now) ≤ 512 }
        ensures ends { result.0 ≡ ends here (shape_of self.now) reached marks.now }
        ensures behind { result.1.now ≡ drop (leaves (shape_of self.now)) marks.now }
        ensures moved { next.new.items ≡ next.old.items ++ moved here (shape_of self.now) reached marks.now }
        ensures length { array_vec_len next.new ≡ array_vec_len next.old + leaves (shape_of self.now) }
    {
        match self {
            Part::Nothing => {
                next.push(false);
                (reached, next_mark(marks).1)
            }
            Part::One(set) => {
                next.push(reached && takes(set, here));
                next_mark(marks)
            }
            Part::At(place) => {
                next.push(false);
                (reached && place.is_at(here), next_mark(marks).1)
            }
            Part::Then(first, second) => {
                let (middle, behind) = first.step(here, reached, marks, next);
                second.step(here, middle, behind, next)
            }
            Part::Either(one, other) => {
                let (left, behind) = one.step(here, reached, marks, next);
                let (right, behind) = other.step(here, reached, behind, next);
                (left || right, behind)
            }
            Part::Again(part) => {
                let (again, behind) = part.ends(here, reached, marks);
                part.step(here, reached || again, marks, next);
                (again, behind)
            }
            Part::Times(least, more, part) => {
                let (middle, behind) = part.step_all(here, *least, reached, marks, next);
                part.step_some(here, *more, middle, behind, next)
            }
        }
    }

    // The same through so many, one behind the other.
    #[cycle(stepping)]
    fn step_all<'m>(
        &self,
        here: Here,
        count: u8,
        start: bool,
        marks: &'m [bool],
        next: &mut Marks,
    ) -> (bool, &'m [bool])
        requires { array_vec_len next.old + count * leaves (shape_of self.now) ≤ 512 }
        ensures ends { result.0 ≡ through (ends here (shape_of self.now)) (leaves (shape_of self.now)) count start marks.now }
        ensures behind { result.1.now ≡ drop (count * leaves (shape_of self.now)) marks.now }
        ensures moved { next.new.items ≡ next.old.items ++ all_moved (ends here (shape_of self.now)) (moved here (shape_of self.now))
            (leaves (shape_of self.now)) count start marks.now }
        ensures length { array_vec_len next.new ≡ array_vec_len next.old + count * leaves (shape_of self.now) }
    {
        let mut reached = start;
        let mut rest = marks;
        for at in 0..count {
            let (end, behind) = self.step(here, reached, rest, next);
            reached = end;
            rest = behind;
        }
        (reached, rest)
    }

    // The same where each may be the last.
    #[cycle(stepping)]
    fn step_some<'m>(
        &self,
        here: Here,
        count: u8,
        start: bool,
        marks: &'m [bool],
        next: &mut Marks,
    ) -> (bool, &'m [bool])
        requires { array_vec_len next.old + count * leaves (shape_of self.now) ≤ 512 }
        ensures ends { result.0 ≡ through_some (ends here (shape_of self.now)) (leaves (shape_of self.now)) count start marks.now }
        ensures behind { result.1.now ≡ drop (count * leaves (shape_of self.now)) marks.now }
        ensures moved { next.new.items ≡ next.old.items ++ all_moved (ends here (shape_of self.now)) (moved here (shape_of self.now))
            (leaves (shape_of self.now)) count start marks.now }
        ensures length { array_vec_len next.new ≡ array_vec_len next.old + count * leaves (shape_of self.now) }
    {
        let mut found = false;
        let mut reached = start;
        let mut rest = marks;
        for at in 0..count {
            found = found || reached;
            let (end, behind) = self.step(here, reached, rest, next);
            reached = end;
            rest = behind;
        }
        (found || reached, rest)
    }

    /// How many leaves it has, where what is repeated counts as often, counted up to 65535.
    pub(crate) fn leaves(&self) -> u32
        ensures { result ≡ min (leaves (shape_of self.now)) 65535 }
    {
        match self {
            Part::Nothing | Part::One(_) | Part::At(_) => 1,
            Part::Then(first, second) => (first.leaves() + second.leaves()).min(65_535),
            Part::Either(one, other) => (one.leaves() + other.leaves()).min(65_535),
            Part::Again(part) => part.leaves(),
            Part::Times(least, more, part) => {
                ((u32::from(*least) + u32::from(*more)) * part.leaves()).min(65_535)
            }
        }
    }

    /// How many leaves are looked at for a byte of a text, each so often and once more for each `+` or `*` around it; of a set each range
    /// is. Counted up to 65535.
    #[tactic(auto, using(crate::proofs::Visits::visits_capped))]
    pub(crate) fn visits(&self, each: u32) -> u32
        requires { each ≤ 65535 }
        ensures { result ≡ min (visits each (shape_of self.now)) 65535 }
    {
        match self {
            Part::Nothing | Part::At(_) => each,
            Part::One(set) => (each * set.count()).min(65_535),
            Part::Then(first, second) => (first.visits(each) + second.visits(each)).min(65_535),
            Part::Either(one, other) => (one.visits(each) + other.visits(each)).min(65_535),
            Part::Again(part) => part.visits((each + 1).min(65_535)),
            Part::Times(least, more, part) => {
                ((u32::from(*least) + u32::from(*more)) * part.visits(each)).min(65_535)
            }
        }
    }
}
