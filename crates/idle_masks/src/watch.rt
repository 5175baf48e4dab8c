// The clients that are watched, and who is to be told.
ghost use Rattle.std.specs.Prelude.{◌≡◌, ◌≤◌, ◌↔◌, List, [], length, None, Some, IsOk, IsSome, IsOkUnless, IfOk, IfErr, OnOk};
ghost use Rattle.std.specs.Prelude.{OnErr};
ghost use Rattle.idle_masks.specs.Subsystems.{none};
ghost use Rattle.idle_masks.specs.Watched.{IsRising, IsAt, IsGapFor, watched, joined, left, grown, marked, with_waiting, due, report_of};
ghost use Rattle.idle_masks.specs.Watched.{reported, reports_of, after_reports, AreRising, grown_among, marked_some};

use crate::ClientId;
use crate::ready::{ReadyRoom, Report, Reports, take_ready};
use crate::refusal::WatchError;
use crate::subsystem::Subsystems;
use std::alloc::Global;
use std::marker::Model;

/// What is kept for one client.
#[derive(Clone, Copy, Debug, PartialEq, Eq)]
pub struct Watched {
    pub client: ClientId,
    /// The subsystems that changed and were not reported to it yet.
    pub pending: Subsystems,
    /// The subsystems for which it waits, in an `idle` that has no answer yet.
    pub waiting: Option<Subsystems>,
}

impl Watched {
    /// What is pending of the subsystems for which the client waits.
    pub fn due(&self) -> Subsystems
        ensures { result ≡ due self.now }
    {
        match self.waiting {
            Some(mask) => self.pending.intersection(mask),
            None => Subsystems::none(),
        }
    }

    // Takes the report to the client, if there is one: what it says isn't pending any more, and the client waits no longer.
    pub(crate) fn take_report(&mut self) -> Option<Report>
        ensures report { result ≡ report_of self.old }
        ensures taken { self.new ≡ reported self.old }
    {
        let changed = self.due();
        if changed.is_empty() {
            return None;
        }
        self.pending = self.pending.difference(changed);
        self.waiting = None;
        Some(Report {
            client: self.client,
            changed,
        })
    }

    // Makes the subsystems pending.
    fn grow(&mut self, changed: Subsystems)
        ensures { self.new ≡ grown changed self.old }
    {
        self.pending = self.pending.union(changed);
    }

    // The same, if the client is one of these.
    fn grow_among(&mut self, clients: &[ClientId], changed: Subsystems)
        ensures { self.new ≡ grown_among clients.now changed self.old }
    {
        if clients.contains(&self.client) {
            self.grow(changed);
        }
    }
}

/// The clients that are connected, each with what is pending for it, by rising number.
#[derive(Debug, Drop)]
pub struct Watch {
    clients: Vec<Watched>,
}

impl Model for Watch {
    ghost use Rattle.std.specs.Prelude.{List};
    ghost use Rattle.idle_masks.specs.declared.watch.Watched.{Watched};
    ghost use Rattle.idle_masks.specs.Watched.{IsRising};

    ghost Value = { List Watched };

    ghost view = { λ w. w.clients.items };

    ghost invariant = { λ w. IsRising w.clients.items };
}

impl Watch {
    /// A watch over no client. It takes no memory yet.
    pub fn new(alloc: Global) -> Self
        ensures { result ≡ [] }
    {
        Watch {
            clients: Vec::new(alloc),
        }
    }

    /// How many clients are watched.
    pub fn len(&self) -> usize
        ensures { result ≡ length self.now }
    {
        self.clients.len()
    }

    /// The clients by rising number.
    pub fn as_slice(&self) -> &[Watched]
        ensures all { result.now ≡ self.now }
        ensures rising { IsRising self.now }
    {
        self.clients.as_slice()
    }

    /// Forgets every client.
    pub fn clear(&mut self)
        ensures { self.new ≡ [] }
    {
        self.clients.clear();
    }

    /// What is kept for the client; `None` if it isn't watched.
    pub fn get(&self, client: ClientId) -> Option<Watched>
        ensures { result ≡ watched self.now client }
    {
        match search(&self.clients, client) {
            Ok(at) => Some(self.clients[at]),
            Err(_) => None,
        }
    }

    /// Watches the client from now on, with nothing pending and not waiting, whatever was kept for it before.
    pub fn join(&mut self, client: ClientId) -> Result<(), WatchError>
        ensures ok { OnOk result (self.new ≡ joined self.old client) }
        ensures err { OnErr result (self.new ≡ self.old) }
        ensures only_memory { IsOkUnless result WatchError.NoMemory }
        ensures again { IsSome (watched self.old client) → IsOk result }
    {
        let newcomer = Watched {
            client,
            pending: Subsystems::none(),
            waiting: None,
        };
        match search(&self.clients, client) {
            Ok(at) => {
                self.clients[at] = newcomer;
                Ok(())
            }
            Err(at) => {
                self.clients.insert(at, newcomer)?;
                Ok(())
            }
        }
    }

    /// Forgets the client. A client that isn't watched is refused by `NoSuchClient`.
    pub fn leave(&mut self, client: ClientId) -> Result<(), WatchError>
        ensures ok { OnOk result (self.new ≡ left self.old client) }
        ensures err { OnErr result (self.new ≡ self.old) }
        ensures found { IsOk result ↔ IsSome (watched self.old client) }
        ensures only_unknown { IsOkUnless result WatchError.NoSuchClient }
    {
        match search(&self.clients, client) {
            Ok(at) => {
                self.clients.remove(at);
                Ok(())
            }
            Err(_) => Err(WatchError::NoSuchClient),
        }
    }

    /// Makes the subsystems pending for every client.
    pub fn mark(&mut self, changed: Subsystems)
        ensures { self.new ≡ marked self.old changed }
    {
        mark_all(&mut self.clients, changed);
    }

    /// Makes the subsystems pending for those of these clients that are watched.
    pub fn mark_some(&mut self, clients: &[ClientId], changed: Subsystems)
        ensures { self.new ≡ marked_some self.old clients.now changed }
    {
        mark_each(&mut self.clients, clients, changed);
    }

    /// Lets the client wait for these subsystems; they may be none. A mask that it had is replaced. A client that isn't watched is refused
    /// by `NoSuchClient`.
    pub fn wait(&mut self, client: ClientId, mask: Subsystems) -> Result<(), WatchError>
        ensures ok { OnOk result (self.new ≡ with_waiting self.old client (Some mask)) }
        ensures err { OnErr result (self.new ≡ self.old) }
        ensures found { IsOk result ↔ IsSome (watched self.old client) }
        ensures only_unknown { IsOkUnless result WatchError.NoSuchClient }
    {
        set_waiting(&mut self.clients, client, Some(mask))
    }

    /// Ends the client's waiting, if it waits; what is pending stays. A client that isn't watched is refused by `NoSuchClient`.
    pub fn cancel(&mut self, client: ClientId) -> Result<(), WatchError>
        ensures ok { OnOk result (self.new ≡ with_waiting self.old client None) }
        ensures err { OnErr result (self.new ≡ self.old) }
        ensures found { IsOk result ↔ IsSome (watched self.old client) }
        ensures only_unknown { IsOkUnless result WatchError.NoSuchClient }
    {
        set_waiting(&mut self.clients, client, None)
    }

    /// Reports, by rising number, to each waiting client with a pending subsystem of its mask all such subsystems. They are pending no
    /// longer, and the client doesn't wait any more.
    pub fn ready(&mut self, alloc: Global) -> Result<Reports, WatchError>
        ensures reports { IfOk result (λ reports. reports ≡ reports_of self.old) }
        ensures in_order { IfOk result AreRising }
        ensures taken { OnOk result (self.new ≡ after_reports self.old) }
        ensures err { OnErr result (self.new ≡ self.old) }
        ensures only_memory { IsOkUnless result WatchError.NoMemory }
    {
        let room = self.reserve_ready(alloc)?;
        Ok(self.ready_in(room))
    }

    /// Memory for an answer of `ready_in`, enough for the clients that are watched now.
    pub fn reserve_ready(&self, alloc: Global) -> Result<ReadyRoom, WatchError>
        ensures room { IfOk result (λ room. room ≡ length self.now) }
        ensures only_memory { IsOkUnless result WatchError.NoMemory }
    {
        Ok(ReadyRoom::new(alloc, self.clients.len())?)
    }

    /// As `ready`, in memory that was taken before: it can't fail.
    pub fn ready_in(&mut self, room: ReadyRoom) -> Reports
        requires { length self.old ≤ room }
        ensures reports { result ≡ reports_of self.old }
        ensures in_order { AreRising result }
        ensures taken { self.new ≡ after_reports self.old }
    {
        take_ready(&mut self.clients, room)
    }
}

// Where the client is, or where it would go.
fn search(clients: &[Watched], client: ClientId) -> Result<usize, usize>
    requires { IsRising clients.now }
    ensures found { IfOk result (IsAt clients.now client) }
    ensures known { OnOk result (IsSome (watched clients.now client)) }
    ensures absent { IfErr result (IsGapFor clients.now client) }
    ensures unknown { OnErr result (watched clients.now client ≡ None) }
{
    clients.binary_search_by_key(&client, |w| w.client)
}

// Lets the client wait for the subsystems of the mask, or for none.
fn set_waiting(
    clients: &mut [Watched],
    client: ClientId,
    mask: Option<Subsystems>,
) -> Result<(), WatchError>
    requires { IsRising clients.old }
    ensures ok { OnOk result (clients.new ≡ with_waiting clients.old client mask) }
    ensures err { OnErr result (clients.new ≡ clients.old) }
    ensures rising { IsRising clients.new }
    ensures found { IsOk result ↔ IsSome (watched clients.old client) }
    ensures only_unknown { IsOkUnless result WatchError.NoSuchClient }
{
    match search(clients, client) {
        Ok(at) => {
            clients[at].waiting = mask;
            Ok(())
        }
        Err(_) => Err(WatchError::NoSuchClient),
    }
}

// Makes the subsystems pending for every client.
fn mark_all(clients: &mut [Watched], changed: Subsystems)
    ensures marked { clients.new ≡ marked clients.old changed }
    ensures rising { IsRising clients.old → IsRising clients.new }
{
    for watched in clients.iter_mut() {
        watched.grow(changed);
    }
}

// Makes the subsystems pending for these clients.
fn mark_each(watched: &mut [Watched], clients: &[ClientId], changed: Subsystems)
    ensures marked { watched.new ≡ marked_some watched.old clients.now changed }
    ensures rising { IsRising watched.old → IsRising watched.new }
{
    for one in watched.iter_mut() {
        one.grow_among(clients, changed);
    }
}
