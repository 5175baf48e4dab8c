// How each client is told: kept of those alone that have said something of it.
ghost use Rattle.std.specs.Prelude.{◌≡◌, ◌<◌, ◌==◌, [], find, OnOk, vec_len, vec_capacity};
ghost use Rattle.daemon_core.specs.Seen.{viewed, view_of, unviewed};

use crate::view::View;
use idle_masks::ClientId;
use no_memory::NoMemory;
use std::alloc::Global;

/// How a client is told.
#[derive(Clone, Copy, Debug)]
pub struct ClientView {
    pub client: ClientId,
    pub view: View,
}

#[derive(Drop)]
pub struct Views {
    pub(crate) list: Vec<ClientView>,
}

impl Views {
    // No client.
    pub(crate) fn new(alloc: Global) -> Self
        ensures { result.list.items ≡ [] }
    {
        Views {
            list: Vec::new(alloc),
        }
    }

    // Takes what is missing to keep how one more client is told.
    pub(crate) fn make_room(&mut self) -> Result<(), NoMemory>
        ensures same { self.new.list.items ≡ self.old.list.items }
        ensures ok { OnOk result (vec_len self.new.list < vec_capacity self.new.list) }
    {
        self.list.reserve(1)?;
        Ok(())
    }

    // What is kept of a client.
    fn kept_of(&self, client: ClientId) -> Option<ClientView>
        ensures { result ≡ find (λ m. m.client == client) self.now.list.items }
    {
        self.list.iter().copied().find(|kept| kept.client == client)
    }

    // How a client is told.
    pub(crate) fn seen_by(&self, client: ClientId) -> View
        ensures { result ≡ view_of self.now.list.items client }
    {
        match self.kept_of(client) {
            Some(kept) => kept.view,
            None => View::fresh(),
        }
    }

    // Forgets a client.
    pub(crate) fn forget(&mut self, client: ClientId)
        ensures items { self.new.list.items ≡ unviewed self.old.list.items client }
        ensures room { vec_len self.old.list < vec_capacity self.old.list → vec_len self.new.list < vec_capacity self.new.list }
    {
        self.list.retain(|kept| kept.client != client);
    }

    // Forgets all.
    pub(crate) fn clear(&mut self)
        ensures { self.new.list.items ≡ [] }
    {
        self.list.clear();
    }

    // The client is told so from now on.
    pub(crate) fn set(&mut self, client: ClientId, view: View)
        requires { vec_len self.old.list < vec_capacity self.old.list }
        ensures { self.new.list.items ≡ viewed self.old.list.items client view }
    {
        if self.seen_by(client).is_same(view) {
            return;
        }
        self.forget(client);
        if !view.is_fresh() {
            self.list.push_reserved(ClientView { client, view });
        }
    }
}
