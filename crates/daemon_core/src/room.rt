// Memory for what an event gives out beside its answer, taken before it: enough for each client that is connected, whether it waits or not,
// so that nobody needs to count those that do. It is kept from event to event and grows where clients connect.
ghost use Rattle.std.specs.Prelude.{◌≡◌, ◌≤◌, [], OnOk, unwrap_or, vec_len, vec_capacity};

use crate::outcome::Output;
use crate::tell::TellRoom;
use idle_masks::{ClientId, ReadyRoom};
use no_memory::NoMemory;
use std::alloc::Global;
use std::mem;

#[derive(Drop)]
pub struct Room {
    // For an answer, and for what each client may be told.
    pub(crate) outputs: Vec<Output>,
    // An empty text for each client.
    pub(crate) texts: Vec<TellRoom>,
    pub(crate) reports: Option<ReadyRoom>,
    // For how many clients `reports` is.
    pub(crate) reports_for: usize,
    // For the numbers of all clients, each of which may be closed.
    pub(crate) closes: Vec<ClientId>,
    ghost no_outputs: { outputs.items ≡ [] },
    ghost no_closes: { closes.items ≡ [] },
    ghost counted: { reports_for ≡ unwrap_or reports 0 },
}

impl Room {
    ghost use Rattle.daemon_core.specs.Room.{IsRoomFor, KeepsRoom};

    // Room for nothing; it takes no memory yet.
    pub(crate) fn new(alloc: Global) -> Self {
        Room {
            outputs: Vec::new(alloc),
            texts: Vec::new(alloc),
            reports: None,
            reports_for: 0,
            closes: Vec::new(alloc),
        }
    }

    // Takes what is missing to tell so many clients, and to close them.
    pub(crate) fn take(&mut self, alloc: Global, clients: usize) -> Result<(), NoMemory>
        ensures ok { OnOk result (IsRoomFor clients self.new) }
        ensures kept { KeepsRoom self.old self.new }
        ensures closes { OnOk result (clients ≤ vec_capacity self.new.closes) }
    {
        if clients == 0 {
            return Ok(());
        }
        take_texts(alloc, &mut self.texts, clients)?;
        self.outputs.reserve(clients.saturating_add(1))?;
        self.closes.reserve(clients)?;
        if self.reports_for < clients {
            self.reports = Some(ReadyRoom::new(alloc, clients)?);
            self.reports_for = clients;
        }
        Ok(())
    }

    // Gives away the room for clients that are closed.
    pub(crate) fn give_closes(&mut self, alloc: Global) -> Vec<ClientId>
        ensures empty { result.items ≡ [] }
        ensures room { vec_capacity result ≡ vec_capacity self.old.closes }
        ensures kept { KeepsRoom self.old self.new }
    {
        mem::replace(&mut self.closes, Vec::new(alloc))
    }

    // Gives away the room for outputs.
    pub(crate) fn give_outputs(&mut self, alloc: Global) -> Vec<Output>
        ensures empty { result.items ≡ [] }
        ensures room { vec_capacity result ≡ vec_capacity self.old.outputs }
        ensures texts { self.new.texts ≡ self.old.texts }
    {
        mem::replace(&mut self.outputs, Vec::new(alloc))
    }

    // Gives away the room for reports.
    pub(crate) fn give_reports(&mut self) -> Option<ReadyRoom>
        ensures room { unwrap_or result 0 ≡ self.old.reports_for }
        ensures texts { self.new.texts ≡ self.old.texts }
        ensures outputs { self.new.outputs ≡ self.old.outputs }
    {
        self.reports_for = 0;
        self.reports.take()
    }
}

fn take_texts(alloc: Global, texts: &mut Vec<TellRoom>, count: usize) -> Result<(), NoMemory>
    ensures ok { OnOk result (count ≤ vec_len texts.new) }
    ensures kept { vec_len texts.old ≤ vec_len texts.new }
{
    for index in texts.len()..count {
        texts.push(TellRoom::new(alloc)?)?;
    }
    Ok(())
}
