// The pictures that stay open.
ghost use Rattle.std.specs.Prelude.{◌≡◌, ◌≤◌, [], not, length, IfOk};
ghost use Rattle.std.specs.List.{find, position, position_or_len, remove};
ghost use Rattle.picture_reader.specs.Kept.{is_of, with_last, without};

use crate::kept::KeptPicture;
use crate::limits::MAX_OPEN;
use no_memory::NoMemory;
use std::alloc::Global;
use std::marker::Model;

/// The pictures that stay open for the next question of their clients, at most 16; the one that was used last is the last.
#[derive(Drop)]
pub struct OpenPictures<S> {
    list: Vec<KeptPicture<S>>,
}

impl<S> Model for OpenPictures<S> {
    ghost use Rattle.std.specs.Prelude.{List, ◌≤◌, vec_len, vec_capacity};
    ghost use Rattle.picture_reader.specs.Limits.{MAX_OPEN};
    ghost use Rattle.picture_reader.specs.declared.kept.KeptPicture.{KeptPicture};

    ghost Value = { List (KeptPicture S) };

    ghost view = { λ o. o.list.items };

    ghost invariant = { λ o. (vec_len o.list ≤ MAX_OPEN) × (MAX_OPEN ≤ vec_capacity o.list) };
}

impl<S: Drop> OpenPictures<S> {
    /// None is open. It takes the memory that it will need.
    pub fn new(alloc: Global) -> Result<Self, NoMemory>
        ensures { IfOk result (λ opened. opened ≡ []) }
    {
        let list = Vec::with_capacity(alloc, MAX_OPEN)?;
        Ok(OpenPictures { list })
    }

    /// How many are open.
    pub fn len(&self) -> usize
        ensures len { result ≡ length self.now }
        ensures few { result ≤ MAX_OPEN }
    {
        self.list.len()
    }

    /// Closes what is open for a client.
    pub fn close(&mut self, client: u64)
        ensures { self.new ≡ without client self.old }
    {
        self.list.retain(|kept| kept.client != client);
    }

    // Where that of a client stands.
    fn place_of(&self, client: u64) -> Option<usize>
        ensures { result ≡ position (is_of client) self.now }
    {
        self.list.iter().position(|kept| kept.client == client)
    }

    /// Takes out what is open for a client.
    pub(crate) fn take(&mut self, client: u64) -> Option<KeptPicture<S>>
        ensures taken { result ≡ find (is_of client) self.old }
        ensures rest { self.new ≡ remove self.old (position_or_len (is_of client) self.old) }
    {
        match self.place_of(client) {
            Some(at) => Some(self.list.remove(at)),
            None => None,
        }
    }

    /// Keeps a picture open. The one that was used longest ago gives way.
    pub(crate) fn keep(&mut self, kept: KeptPicture<S>)
        ensures { self.new ≡ with_last kept self.old }
    {
        if self.list.len() >= MAX_OPEN {
            self.list.remove(0);
        }
        self.list.push_reserved(kept);
    }
}
