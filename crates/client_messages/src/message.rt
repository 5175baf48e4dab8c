// Messages, and what is to become one.
ghost use Rattle.std.specs.Prelude.{◌≡◌, ◌≤◌, length, IsTrue, IfOk};
ghost use Rattle.client_messages.specs.Channel.{is_channel_name};
ghost use Rattle.client_messages.specs.Messages.{message};
ghost use Rattle.client_messages.specs.Refusal.{Answers, draft_refusal};

use crate::channel::{ChannelName, is_channel_name};
use crate::limits::MAX_CHANNEL_BYTES;
use crate::refusal::MessagesError;
use std::alloc::{AllocError, Global};
use std::marker::Model;

/// What a message says: any text, as it was sent.
#[derive(Debug, Drop)]
pub struct MessageText {
    text: String,
}

impl Model for MessageText {
    ghost use Rattle.std.specs.Prelude.{ℕ, List, string_bytes};

    ghost Value = { List ℕ };

    ghost view = { λ t. string_bytes t.text };
}

impl MessageText {
    fn new(alloc: Global, text: &str) -> Result<Self, AllocError>
        ensures { IfOk result (λ copy. copy ≡ text.now) }
    {
        Ok(MessageText {
            text: String::from_str(alloc, text)?,
        })
    }

    pub fn as_str(&self) -> &str
        ensures { result.now ≡ self.now }
    {
        self.text.as_str()
    }
}

/// A message that was sent, with its channel.
#[derive(Debug, Drop)]
pub struct Message {
    pub channel: ChannelName,
    pub text: MessageText,
}

// A message before it is sent.
#[derive(Drop)]
pub(crate) struct Draft<'a> {
    channel: &'a str,
    text: &'a str,
}

impl<'a> Model for Draft<'a> {
    ghost use Rattle.std.specs.Prelude.{IsTrue};
    ghost use Rattle.client_messages.specs.Channel.{is_channel_name};
    ghost use Rattle.client_messages.specs.Messages.{message};
    ghost use Rattle.client_messages.specs.declared.message.Message.{Message};

    ghost Value = { Message };

    ghost view = { λ d. message d.channel.now d.text.now };

    ghost invariant = { λ d. IsTrue (is_channel_name d.channel.now) };
}

impl<'a> Draft<'a> {
    // Refused by `BadChannelName`.
    pub(crate) fn new(channel: &'a str, text: &'a str) -> Result<Self, MessagesError>
        ensures draft { IfOk result (λ draft. draft ≡ message channel.now text.now) }
        ensures answer { Answers (draft_refusal channel.now) result }
    {
        if !is_channel_name(channel) {
            return Err(MessagesError::BadChannelName);
        }
        Ok(Draft { channel, text })
    }

    pub(crate) fn channel(&self) -> &'a str
        ensures channel { result.now ≡ self.now.channel }
        ensures short { length result.now ≤ MAX_CHANNEL_BYTES }
    {
        self.channel
    }

    pub(crate) fn text(&self) -> &'a str
        ensures { result.now ≡ self.now.text }
    {
        self.text
    }

    // A message of it, in memory of its own.
    pub(crate) fn copy(&self, alloc: Global) -> Result<Message, AllocError>
        ensures { IfOk result (λ message. message ≡ self.now) }
    {
        Ok(Message {
            channel: ChannelName::new(alloc, self.channel)?,
            text: MessageText::new(alloc, self.text)?,
        })
    }
}
