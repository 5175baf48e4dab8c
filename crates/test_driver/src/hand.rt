//! What a script does with a worker: it holds its stand, and ends its thread.
use crate::passes::Passes;
use crate::stand::{Passage, Place, Stand};
use driver_base::words::{first_word, number};
use driver_base::{Fault, Printer};
use song_output::Form;
use stage_workers::Pass;
use std::sync::Wait;
use std::sync::ledger::Ledger;
use std::thread::{JoinHandle, Threads};

#[derive(Drop)]
pub struct Hand<'s, C: Ledger, P: Ledger, S: Ledger, R> {
    pub stand: &'s Stand<'s, R>,
    /// The thread, and the place of the pass that it has.
    thread: Option<(u64, JoinHandle<Pass<C, P, S>>)>,
}

impl<'s, C: Ledger, P: Ledger, S: Ledger, R: Wait> Hand<'s, C, P, S, R> {
    pub fn new(stand: &'s Stand<'s, R>) -> Self {
        Hand {
            stand,
            thread: None,
        }
    }

    /// The thread was started with the pass of a place, if it could be.
    pub fn keep(
        &mut self,
        place: u64,
        started: Result<JoinHandle<Pass<C, P, S>>, Fault>,
    ) -> Result<(), Fault> {
        match started {
            Ok(thread) => {
                self.thread = Some((place, thread));
                Ok(())
            }
            Err(fault) => Err(fault),
        }
    }

    /// Waits for the end of the thread, and puts its pass back.
    pub fn end<H: Threads>(&mut self, rt: &H, passes: &mut Passes<C, P, S>) -> Result<(), Fault> {
        let (place, thread) = self.thread.take().ok_or(Fault::NoThread)?;
        passes.put(place, thread.join(rt));
        Ok(())
    }
}

/// A place and a number.
fn place_and_number(words: &str) -> Result<(Place, u64), Fault> {
    let (word, rest) = first_word(words);
    Ok((Place::named(word)?, number(rest)?))
}

fn plan<R: Wait>(stand: &Stand<'_, R>, words: &str, passage: Passage) -> Result<(), Fault> {
    let (place, number) = place_and_number(words)?;
    stand.plan(place, number, passage);
    Ok(())
}

fn form_of(word: &str) -> Result<Form, Fault> {
    match word {
        "bare" => Ok(Form::Bare),
        "wave" => Ok(Form::Wave),
        _ => Err(Fault::NoDirective),
    }
}

/// Does what a line asks of a worker's stand.
pub fn take_stand<R: Wait>(
    stand: &Stand<'_, R>,
    printer: &mut Printer,
    word: &str,
    rest: &str,
) -> Result<(), Fault> {
    match word {
        "hold" => plan(stand, rest, Passage::Stands)?,
        "fail" => plan(stand, rest, Passage::Fails)?,
        "empty" => plan(stand, rest, Passage::Empty)?,
        "passed" => {
            let (place, number) = place_and_number(rest)?;
            stand.wait_passed(place, number);
        }
        "count" => printer.count("count", stand.count(Place::named(rest)?)),
        "form" => stand.set_form(form_of(rest)?),
        "takes" => stand.set_width(number(rest)?),
        "written" => printer.hex("written", &stand.take_written()?),
        "free" => stand.free(),
        "held" => stand.wait_standing(),
        "go" => stand.go(),
        _ => return Err(Fault::NoDirective),
    }
    Ok(())
}
