// The channels that clients have, as one list.
ghost use Rattle.std.specs.Prelude.{◌≡◌, [], map, OnOk, OnErr, IfOk};
ghost use Rattle.client_messages.specs.Names.{with_name, with_names, channels_in};
ghost use Rattle.client_messages.specs.declared.listener.Listener.{Listener};

use crate::channel::ChannelName;
use crate::listener::Listener;
use std::alloc::{AllocError, Global};
use std::collections::{BTreeSet, btree_set};
use std::marker::Model;

/// Names of channels by their bytes, each once.
#[derive(Debug, Drop)]
pub struct ChannelNames<'a> {
    names: BTreeSet<&'a str>,
}

impl<'a> Model for ChannelNames<'a> {
    ghost use Rattle.std.specs.Prelude.{ℕ, List, map};

    ghost Value = { List (List ℕ) };

    ghost view = { λ n. map (λ name. name.now) n.names.keys };
}

impl<'a> ChannelNames<'a> {
    // The channels of these clients.
    pub(crate) fn of(alloc: Global, listeners: &'a [Listener]) -> Result<Self, AllocError>
        ensures { IfOk result (λ names. names ≡ channels_in listeners.now) }
    {
        let mut names = ChannelNames {
            names: BTreeSet::new(alloc),
        };
        for listener in listeners {
            names.add_each(listener.channels.as_slice())?;
        }
        Ok(names)
    }

    fn add_each(&mut self, channels: &'a [ChannelName]) -> Result<(), AllocError>
        ensures { OnOk result (self.new ≡ with_names self.old channels.now) }
    {
        for channel in channels {
            self.add(channel.as_str())?;
        }
        Ok(())
    }

    fn add(&mut self, name: &'a str) -> Result<(), AllocError>
        ensures { OnOk result (self.new ≡ with_name self.old name.now) }
    {
        self.names.insert(name)?;
        Ok(())
    }

    pub fn iter(&self) -> btree_set::Iter<'_, &'a str>
        ensures { map (λ name. name.now) result ≡ self.now }
    {
        self.names.iter()
    }
}
