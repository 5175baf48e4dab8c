//! The passes of a stage that no thread has.
use crate::calls::Stage;
use crate::kind::{kind_of, name_of};
use driver_base::words::{first_word, number};
use driver_base::{Fault, Printer};
use stage_workers::{Kind, Pass};
use std::alloc::Global;
use std::sync::Wait;
use std::sync::ledger::Ledger;

/// They have places from 0 on.
#[derive(Drop)]
pub struct Passes<C: Ledger, P: Ledger, S: Ledger> {
    passes: Vec<Option<Pass<C, P, S>>>,
}

/// Lets a pass go; whether there was one.
fn spend<C: Ledger, P: Ledger, S: Ledger, R: Wait>(
    rt: &R,
    stage: &Stage<C, P, S>,
    printer: &mut Printer,
    kind: Kind,
) -> bool {
    match stage.pass(rt, kind) {
        Ok(_) => true,
        Err(spent) => {
            printer.refused(spent.number(), spent);
            false
        }
    }
}

/// Takes so many passes of a kind and lets them go, and prints how many there were.
pub fn spend_passes<C: Ledger, P: Ledger, S: Ledger, R: Wait>(
    rt: &R,
    stage: &Stage<C, P, S>,
    printer: &mut Printer,
    words: &str,
) -> Result<(), Fault> {
    let (word, rest) = first_word(words);
    let (kind, count) = (kind_of(word)?, number::<u64>(rest)?);
    let mut spent = 0u64;
    for _ in 0..count {
        if !spend(rt, stage, printer, kind) {
            break;
        }
        spent = spent.saturating_add(1);
    }
    printer.count("spent", spent);
    Ok(())
}

impl<C: Ledger, P: Ledger, S: Ledger> Passes<C, P, S> {
    pub fn new(alloc: Global) -> Self {
        Passes {
            passes: Vec::new(alloc),
        }
    }

    /// Takes the pass out of a place.
    pub fn take(&mut self, place: u64) -> Result<Pass<C, P, S>, Fault> {
        match self.passes.get_mut(place as usize) {
            Some(found) => found.take().ok_or(Fault::NoPass),
            None => Err(Fault::NoPass),
        }
    }

    /// Puts a pass back into its place.
    pub fn put(&mut self, place: u64, pass: Pass<C, P, S>) {
        if let Some(found) = self.passes.get_mut(place as usize) {
            *found = Some(pass);
        }
    }

    /// A new pass of a kind gets the next place.
    pub fn add<R: Wait>(
        &mut self,
        rt: &R,
        stage: &Stage<C, P, S>,
        printer: &mut Printer,
        kind: Kind,
    ) -> Result<(), Fault> {
        match stage.pass(rt, kind) {
            Ok(pass) => {
                if self.passes.push(Some(pass)).is_err() {
                    return Err(Fault::NoMemory);
                }
            }
            Err(spent) => printer.refused(spent.number(), spent),
        }
        Ok(())
    }

    /// Prints what each pass tells.
    pub fn tell(&self, printer: &mut Printer) {
        for place in self.passes.as_slice() {
            match place {
                Some(pass) => tell_pass(printer, pass),
                None => printer.line("none"),
            }
        }
    }

    /// All that are there.
    pub fn into_vec(self, alloc: Global) -> Result<Vec<Pass<C, P, S>>, Fault> {
        let mut all = Vec::new(alloc);
        let mut is_short = false;
        for place in self.passes {
            if let Some(pass) = place {
                is_short = all.push(pass).is_err() || is_short;
            }
        }
        if is_short {
            Err(Fault::NoMemory)
        } else {
            Ok(all)
        }
    }
}

fn tell_pass<C: Ledger, P: Ledger, S: Ledger>(printer: &mut Printer, pass: &Pass<C, P, S>) {
    printer.add(name_of(pass.kind()).as_bytes());
    printer.next(pass.seen());
    printer.next(pass.share());
    printer.add(b"\n");
}
