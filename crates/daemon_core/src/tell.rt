// What clients that wait are told, in memory that was taken before.
ghost use Rattle.std.specs.Prelude.{◌≡◌, ◌+◌, ◌≤◌, ◌++◌, length, vec_len, vec_capacity, map};
ghost use Rattle.std.specs.List.{flat_map};
ghost use Rattle.command_text.specs.AnswerNames.{changed_line};
ghost use Rattle.idle_masks.specs.Subsystems.{contains};
ghost use Rattle.daemon_core.specs.Step.{told, told_to, line_if};

use crate::outcome::{Bytes, Output};
use command_text::{write_changed, write_ok};
use idle_masks::{Report, Subsystem, Subsystems};
use no_memory::NoMemory;
use std::alloc::Global;
use std::marker::Model;

// The longest text: all ten subsystems, and `OK`.
const TELL_ROOM: usize = 184;

// Room for what one client is told.
#[derive(Drop)]
pub struct TellRoom {
    text: Vec<u8>,
}

impl Model for TellRoom {
    ghost use Rattle.std.specs.Prelude.{◌≡◌, ◌≤◌, ℕ, [], vec_capacity};

    ghost Value = { ℕ };

    ghost view = { λ r. vec_capacity r.text };

    ghost invariant = { λ r. (r.text.items ≡ []) × (184 ≤ vec_capacity r.text) };
}

impl TellRoom {
    pub(crate) fn new(alloc: Global) -> Result<Self, NoMemory> {
        Ok(TellRoom {
            text: Vec::with_capacity(alloc, TELL_ROOM)?,
        })
    }

    // The lines that tell a client of these changes.
    fn tell(self, changed: Subsystems) -> Bytes
        ensures { result ≡ told changed }
    {
        let TellRoom { mut text } = self;
        write_each(&mut text, changed, &Subsystem::ALL);
        match write_ok(&mut text) {
            Ok(()) => Bytes::new(text),
            Err(_) => unreachable!(),
        }
    }
}

// Adds the line of a subsystem that changed.
fn write_if(text: &mut Vec<u8>, changed: bool, subsystem: Subsystem)
    requires { vec_len text.old + length (changed_line subsystem) ≤ vec_capacity text.old }
    ensures text { text.new.items ≡ text.old.items ++ line_if changed subsystem }
    ensures room { vec_capacity text.old ≤ vec_capacity text.new }
{
    if changed && write_changed(text, subsystem).is_err() {
        unreachable!();
    }
}

// Adds the lines of those of the subsystems that changed.
fn write_each(text: &mut Vec<u8>, changed: Subsystems, subsystems: &[Subsystem])
    requires { vec_len text.old + length (flat_map changed_line subsystems.now) ≤ vec_capacity text.old }
    ensures text { text.new.items ≡ text.old.items ++ flat_map (λ x. line_if (contains changed x) x) subsystems.now }
    ensures room { vec_capacity text.old ≤ vec_capacity text.new }
{
    let mut rest = subsystems;
    while let Some((subsystem, after)) = rest.split_first() {
        write_if(text, changed.contains(*subsystem), *subsystem);
        rest = after;
    }
}

// Tells each client of its report, by rising number, behind the outputs that are there.
pub(crate) fn tell_all(reports: &[Report], rooms: &mut Vec<TellRoom>, outputs: &mut Vec<Output>)
    requires rooms { length reports.now ≤ vec_len rooms.old }
    requires outputs { vec_len outputs.old + length reports.now ≤ vec_capacity outputs.old }
    ensures told { outputs.new.items ≡ outputs.old.items ++ map told_to reports.now }
    ensures left { vec_len rooms.new + length reports.now ≡ vec_len rooms.old }
{
    let mut rest = reports;
    while let Some((report, after)) = rest.split_first() {
        match rooms.pop() {
            Some(room) => outputs.push_reserved(Output {
                client: report.client,
                bytes: room.tell(report.changed),
            }),
            None => unreachable!(),
        }
        rest = after;
    }
}
