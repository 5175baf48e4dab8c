// The clients that are connected, with what is pending for each, and whether it is known that none of them is due to be told anything: then
// an event that changes nothing looks at no client.
ghost use Rattle.std.specs.Prelude.{◌≡◌, ◌≤◌, ◌↔◌, [], length, IsSome, IsOk, OnOk, OnErr, Some, None};
ghost use Rattle.std.specs.List.{list_all};
ghost use Rattle.idle_masks.specs.Subsystems.{is_empty};
ghost use Rattle.idle_masks.specs.Watched.{watched, joined, left, with_waiting, due, reports_of, after_reports};
ghost use Rattle.daemon_core.specs.Pending.{with_news};

use idle_masks::{ClientId, ReadyRoom, Reports, Subsystem, Subsystems, Watch, WatchError, Watched};
use std::alloc::Global;
use std::marker::Model;

#[derive(Drop)]
pub struct Watching {
    watch: Watch,
    is_quiet: bool,
}

impl Model for Watching {
    ghost use Rattle.std.specs.Prelude.{◌≡◌, List, true};
    ghost use Rattle.std.specs.List.{list_all};
    ghost use Rattle.idle_masks.specs.Subsystems.{is_empty};
    ghost use Rattle.idle_masks.specs.Watched.{due};
    ghost use Rattle.idle_masks.specs.declared.watch.Watched.{Watched};

    ghost Value = { List Watched };

    ghost view = { λ c. c.watch };

    ghost invariant = { λ c. c.is_quiet ≡ true → list_all (λ w. is_empty (due w)) c.watch ≡ true };
}

impl Watching {
    // No client.
    pub(crate) fn new(alloc: Global) -> Self
        ensures { result ≡ [] }
    {
        Watching {
            watch: Watch::new(alloc),
            is_quiet: true,
        }
    }

    // How many clients are connected.
    pub(crate) fn len(&self) -> usize
        ensures { result ≡ length self.now }
    {
        self.watch.len()
    }

    // The clients by rising number.
    pub(crate) fn as_slice(&self) -> &[Watched]
        ensures { result.now ≡ self.now }
    {
        self.watch.as_slice()
    }

    // What is kept for the client; `None` if it isn't connected.
    pub(crate) fn get(&self, client: ClientId) -> Option<Watched>
        ensures { result ≡ watched self.now client }
    {
        self.watch.get(client)
    }

    // The client is connected from now on.
    pub(crate) fn join(&mut self, client: ClientId) -> Result<(), WatchError>
        ensures ok { OnOk result (self.new ≡ joined self.old client) }
        ensures err { OnErr result (self.new ≡ self.old) }
    {
        self.is_quiet = false;
        self.watch.join(client)
    }

    // The client isn't connected any more, if it was.
    pub(crate) fn leave(&mut self, client: ClientId) -> Result<(), WatchError>
        ensures ok { OnOk result (self.new ≡ left self.old client) }
        ensures err { OnErr result (self.new ≡ self.old) }
        ensures found { IsOk result ↔ IsSome (watched self.old client) }
    {
        self.is_quiet = false;
        self.watch.leave(client)
    }

    // No client is connected any more.
    pub(crate) fn clear(&mut self)
        ensures { self.new ≡ [] }
    {
        self.is_quiet = false;
        self.watch.clear();
    }

    // The client waits for these subsystems.
    pub(crate) fn wait(&mut self, client: ClientId, mask: Subsystems) -> Result<(), WatchError>
        ensures ok { OnOk result (self.new ≡ with_waiting self.old client (Some mask)) }
        ensures found { IsOk result ↔ IsSome (watched self.old client) }
    {
        self.is_quiet = false;
        self.watch.wait(client, mask)
    }

    // The client doesn't wait any more.
    pub(crate) fn cancel(&mut self, client: ClientId) -> Result<(), WatchError>
        ensures ok { OnOk result (self.new ≡ with_waiting self.old client None) }
        ensures found { IsOk result ↔ IsSome (watched self.old client) }
    {
        self.is_quiet = false;
        self.watch.cancel(client)
    }

    // Makes the subsystems pending for every client, and `message` for these; whether none of them is due to be told anything.
    pub(crate) fn mark(&mut self, changed: Subsystems, notified: &[ClientId]) -> bool
        ensures marked { self.new ≡ with_news changed notified.now self.old }
        ensures value { result ≡ list_all (λ w. is_empty (due w)) (with_news changed notified.now self.old) }
    {
        if self.is_quiet && changed.is_empty() && notified.is_empty() {
            return true;
        }
        self.is_quiet = false;
        self.watch.mark(changed);
        self.watch
            .mark_some(notified, Subsystems::only(Subsystem::Message));
        self.is_quiet = is_none_due(self.watch.as_slice());
        self.is_quiet
    }

    // Reports what is due, in memory that was taken before: it isn't pending any more, and those that are told don't wait any more.
    pub(crate) fn ready_in(&mut self, room: ReadyRoom) -> Reports
        requires { length self.old ≤ room }
        ensures reports { result ≡ reports_of self.old }
        ensures taken { self.new ≡ after_reports self.old }
    {
        self.is_quiet = false;
        self.watch.ready_in(room)
    }
}

// Whether no client is to be told of anything.
fn is_none_due(clients: &[Watched]) -> bool
    ensures { result ≡ list_all (λ w. is_empty (due w)) clients.now }
{
    clients.iter().all(|w| w.due().is_empty())
}
