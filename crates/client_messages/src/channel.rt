// The names of channels, and the channels of one client.
ghost use Rattle.std.specs.Prelude.{◌≡◌, ◌≤◌, ◌<◌, ℕ, List, [], ◌∷◌, ◌++◌, length, IsTrue, IfOk, OnOk, OnErr};
ghost use Rattle.std.specs.List.{list_all};
ghost use Rattle.client_messages.specs.Channel.{is_name_byte, is_channel_name, is_among, without};
ghost use Rattle.client_messages.specs.Refusal.{Answers, AnswersIfMemory, add_refusal, remove_refusal};

use crate::limits::{MAX_CHANNEL_BYTES, MAX_CHANNELS};
use crate::refusal::MessagesError;
use std::alloc::{AllocError, Global};
use std::marker::Model;

/// Whether a channel can have the name: 1 to 256 letters and digits of ASCII, `_`, `-`, `.` and `:`.
pub fn is_channel_name(name: &str) -> bool
    ensures { result ≡ is_channel_name name.now }
{
    !name.is_empty() && name.len() <= MAX_CHANNEL_BYTES && has_name_bytes(name)
}

fn has_name_bytes(name: &str) -> bool
    ensures { result ≡ list_all is_name_byte name.now }
{
    name.bytes().all(|byte| is_name_byte(byte))
}

fn is_name_byte(byte: u8) -> bool
    ensures { result ≡ is_name_byte byte }
{
    byte.is_ascii_alphanumeric() || byte == b'_' || byte == b'-' || byte == b'.' || byte == b':'
}

/// The name of a channel.
#[derive(Debug, Drop)]
pub struct ChannelName {
    name: String,
}

impl Model for ChannelName {
    ghost use Rattle.std.specs.Prelude.{ℕ, List, IsTrue, string_bytes};
    ghost use Rattle.client_messages.specs.Channel.{is_channel_name};

    ghost Value = { List ℕ };

    ghost view = { λ c. string_bytes c.name };

    ghost invariant = { λ c. IsTrue (is_channel_name (string_bytes c.name)) };
}

impl ChannelName {
    // The name, in memory of its own.
    pub(crate) fn new(alloc: Global, name: &str) -> Result<Self, AllocError>
        requires { IsTrue (is_channel_name name.now) }
        ensures { IfOk result (λ copy. copy ≡ name.now) }
    {
        Ok(ChannelName {
            name: String::from_str(alloc, name)?,
        })
    }

    pub fn as_str(&self) -> &str
        ensures name { result.now ≡ self.now }
        ensures form { IsTrue (is_channel_name self.now) }
    {
        self.name.as_str()
    }
}

/// The channels of one client, in the order in which it subscribed to them: at most 16.
#[derive(Debug, Drop)]
pub struct Channels {
    names: Vec<ChannelName>,
}

impl Model for Channels {
    ghost use Rattle.std.specs.Prelude.{ℕ, ◌≤◌, List, length};
    ghost use Rattle.client_messages.specs.Limits.{MAX_CHANNELS};

    ghost Value = { List (List ℕ) };

    ghost view = { λ c. c.names.items };

    ghost invariant = { λ c. length c.names.items ≤ MAX_CHANNELS };
}

impl Channels {
    // No channel. It takes no memory yet.
    pub(crate) fn new(alloc: Global) -> Self
        ensures { result ≡ [] }
    {
        Channels {
            names: Vec::new(alloc),
        }
    }

    pub fn as_slice(&self) -> &[ChannelName]
        ensures names { result.now ≡ self.now }
        ensures few { length self.now ≤ MAX_CHANNELS }
    {
        self.names.as_slice()
    }

    /// Whether the channel is one of them.
    pub fn contains(&self, channel: &str) -> bool
        ensures { result ≡ is_among channel.now self.now }
    {
        self.names.iter().any(|name| name.as_str() == channel)
    }

    // One more channel.
    pub(crate) fn add(&mut self, alloc: Global, channel: &str) -> Result<(), MessagesError>
        ensures ok { OnOk result (self.new ≡ self.old ++ channel.now ∷ []) }
        ensures err { OnErr result (self.new ≡ self.old) }
        ensures answer { AnswersIfMemory (add_refusal self.old channel.now) result }
    {
        self.check_add(channel)?;
        let name = ChannelName::new(alloc, channel)?;
        self.names.push(name)?;
        Ok(())
    }

    // What `add` would be refused for, but for want of memory.
    fn check_add(&self, channel: &str) -> Result<(), MessagesError>
        ensures answer { Answers (add_refusal self.now channel.now) result }
        ensures good { OnOk result (IsTrue (is_channel_name channel.now)) }
        ensures room { OnOk result (length self.now < MAX_CHANNELS) }
    {
        if !is_channel_name(channel) {
            return Err(MessagesError::BadChannelName);
        }
        if MAX_CHANNELS <= self.names.len() {
            return Err(MessagesError::TooManyChannels);
        }
        if self.contains(channel) {
            return Err(MessagesError::AlreadySubscribed);
        }
        Ok(())
    }

    // Without the channel.
    pub(crate) fn remove(&mut self, channel: &str) -> Result<(), MessagesError>
        ensures ok { OnOk result (self.new ≡ without channel.now self.old) }
        ensures err { OnErr result (self.new ≡ self.old) }
        ensures answer { Answers (remove_refusal self.old channel.now) result }
    {
        if !self.contains(channel) {
            return Err(MessagesError::NotSubscribed);
        }
        self.names.retain(|name| name.as_str() != channel);
        Ok(())
    }
}
