//! The places that a worker's thread passes. At one of them it can be made to stand still, or what it does there fails.
use driver_base::Fault;
use song_output::{Form, Gate, Point};
use stage_workers::Wake;
use std::alloc::Global;
use std::mem;
use std::sync::{Condvar, Mutex, Wait};

#[derive(Clone, Copy)]
pub enum Place {
    /// In a listing of a folder, in the opening of a file, in a read of one.
    List,
    Open,
    Read,
    /// Where its gate is told.
    BeforeRead,
    AfterRead,
    BeforeWrite,
    AfterWrite,
    /// In a write to the output.
    Write,
    /// Behind a report.
    Report,
}

const PLACES: usize = 9;

impl Place {
    pub fn named(word: &str) -> Result<Self, Fault> {
        match word {
            "list" => Ok(Place::List),
            "open" => Ok(Place::Open),
            "read" => Ok(Place::Read),
            "before_read" => Ok(Place::BeforeRead),
            "after_read" => Ok(Place::AfterRead),
            "before_write" => Ok(Place::BeforeWrite),
            "after_write" => Ok(Place::AfterWrite),
            "write" => Ok(Place::Write),
            "report" => Ok(Place::Report),
            _ => Err(Fault::NoDirective),
        }
    }
}

/// What becomes of a thread at a place.
#[derive(Clone, Copy)]
pub enum Passage {
    Free,
    /// It stands still until it may go.
    Stands,
    /// What it does there fails.
    Fails,
    /// What it does there goes well, and gives or takes no byte.
    Empty,
}

/// What is to become of a later passage.
#[derive(Clone, Copy)]
struct Plan {
    place: Place,
    /// The first from then on is 1.
    number: u64,
    passage: Passage,
}

#[derive(Drop)]
struct State {
    counts: [u64; PLACES],
    plan: Option<Plan>,
    is_standing: bool,
    /// The form of an output that is begun.
    form: Form,
    /// How many bytes the output takes with a write at most, and what it took.
    width: usize,
    written: Vec<u8>,
    /// Whether memory was refused to keep it.
    is_short: bool,
}

impl State {
    fn count(&self, place: Place) -> u64 {
        match self.counts.get(place as usize) {
            Some(count) => *count,
            None => 0,
        }
    }

    /// A thread comes to a place.
    fn note(&mut self, place: Place) -> Passage {
        if let Some(count) = self.counts.get_mut(place as usize) {
            *count = count.saturating_add(1);
        }
        let Some(plan) = self.plan else {
            return Passage::Free;
        };
        if plan.place as usize != place as usize {
            return Passage::Free;
        }
        self.plan = None;
        if plan.number > 1 {
            self.plan = Some(Plan {
                place,
                number: plan.number - 1,
                passage: plan.passage,
            });
            return Passage::Free;
        }
        self.is_standing = matches!(plan.passage, Passage::Stands);
        plan.passage
    }

    /// The output takes bytes; how many.
    fn take(&mut self, bytes: &[u8]) -> usize {
        let count = bytes.len().min(self.width);
        if self.written.extend_from_slice(&bytes[..count]).is_err() {
            self.is_short = true;
        }
        count
    }
}

#[derive(Drop)]
pub struct Stand<'a, R> {
    rt: &'a R,
    alloc: Global,
    state: Mutex<State>,
    changed: Condvar,
}

impl<'a, R: Wait> Stand<'a, R> {
    pub fn new(rt: &'a R, alloc: Global) -> Self {
        Stand {
            rt,
            alloc,
            state: Mutex::new(State {
                counts: [0; PLACES],
                plan: None,
                is_standing: false,
                form: Form::Bare,
                width: usize::MAX,
                written: Vec::new(alloc),
                is_short: false,
            }),
            changed: Condvar::new(),
        }
    }

    /// The worker's thread comes to a place, and stands still there if that is planned.
    pub fn pass(&self, place: Place) -> Passage {
        let mut state = self.state.lock(self.rt);
        let passage = state.note(place);
        self.changed.notify_all();
        let _state = self
            .changed
            .wait_while(self.rt, state, |state| state.is_standing);
        passage
    }

    /// The output takes bytes; how many.
    pub fn take(&self, bytes: &[u8]) -> usize {
        self.state.lock(self.rt).take(bytes)
    }

    /// What is to become of the passage of this number from now on.
    pub fn plan(&self, place: Place, number: u64, passage: Passage) {
        self.state.lock(self.rt).plan = Some(Plan {
            place,
            number,
            passage,
        });
    }

    /// Nothing is planned any more, and the thread goes on.
    pub fn free(&self) {
        self.state.lock(self.rt).plan = None;
        self.go();
    }

    /// The thread goes on.
    pub fn go(&self) {
        self.state.lock(self.rt).is_standing = false;
        self.changed.notify_all();
    }

    /// Waits until the thread stands still.
    pub fn wait_standing(&self) {
        let _state = self
            .changed
            .wait_while(self.rt, self.state.lock(self.rt), |state| {
                !state.is_standing
            });
    }

    /// Waits until the place was passed so often, counted from the stand's beginning.
    pub fn wait_passed(&self, place: Place, count: u64) {
        let _state = self
            .changed
            .wait_while(self.rt, self.state.lock(self.rt), |state| {
                state.count(place) < count
            });
    }

    pub fn count(&self, place: Place) -> u64 {
        self.state.lock(self.rt).count(place)
    }

    pub fn form(&self) -> Form {
        self.state.lock(self.rt).form
    }

    pub fn set_form(&self, form: Form) {
        self.state.lock(self.rt).form = form;
    }

    pub fn set_width(&self, width: usize) {
        self.state.lock(self.rt).width = width;
    }

    /// What the output took since this was asked last.
    pub fn take_written(&self) -> Result<Vec<u8>, Fault> {
        let mut state = self.state.lock(self.rt);
        if state.is_short {
            return Err(Fault::NoMemory);
        }
        Ok(mem::replace(&mut state.written, Vec::new(self.alloc)))
    }
}

impl<R: Wait> Gate for Stand<'_, R> {
    fn at(&self, point: Point) {
        let place = match point {
            Point::BeforeRead => Place::BeforeRead,
            Point::AfterRead => Place::AfterRead,
            Point::BeforeWrite => Place::BeforeWrite,
            Point::AfterWrite => Place::AfterWrite,
        };
        self.pass(place);
    }
}

impl<R: Wait> Wake for Stand<'_, R> {
    fn wake(&self) {
        self.pass(Place::Report);
    }
}
