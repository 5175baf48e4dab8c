// What clients send one another, and who is to be told of it.
ghost use Rattle.std.specs.Prelude.{◌≡◌, ◌≤◌, ◌+◌, ◌++◌, [], true, length, vec_len, vec_capacity, OnOk, OnErr};
ghost use Rattle.std.specs.List.{flat_map};
ghost use Rattle.client_messages.specs.Listeners.{left};
ghost use Rattle.client_messages.specs.Messages.{message};
ghost use Rattle.client_messages.specs.Names.{channels_in};
ghost use Rattle.command_text.specs.Answer.{Adds};
ghost use Rattle.command_text.specs.AnswerNames.{channel_line};
ghost use Rattle.client_messages.specs.Refusal.{send_refusal};
ghost use Rattle.daemon_core.specs.Talk.{lines_of, talked, unread_lines};
ghost use Rattle.daemon_core.specs.Talking.{FailsAs, IsSame, RunsTalk, Sends, TellsTalk, failure_of};
ghost use Rattle.machine_core.specs.Memory.{messages_take_memory};
ghost use Rattle.machine_core.specs.Work.{HasRoom, command_room};

use client_messages::{ChannelNames, ClientMessages, Message, MessagesError};
use command_text::{
    CommandRefusal, MessagesCommand, MessagesRefusal, write_channel, write_message,
};
use idle_masks::{ClientId, Subsystem, Subsystems};
use machine_core::{Failure, Work};
use no_memory::NoMemory;
use std::alloc::Global;

#[derive(Drop)]
pub struct Talks {
    pub(crate) messages: ClientMessages,
    // The clients for which `message` is pending since the request began. Its memory is kept from event to event.
    pub(crate) notified: Vec<ClientId>,
}

impl Talks {
    // No client has a channel. It takes no memory yet.
    pub(crate) fn new(alloc: Global) -> Self
        ensures messages { result.messages ≡ [] }
        ensures notified { result.notified.items ≡ [] }
    {
        Talks {
            messages: ClientMessages::new(alloc),
            notified: Vec::new(alloc),
        }
    }

    // Nobody is notified yet.
    pub(crate) fn begin(&mut self)
        ensures messages { self.new.messages ≡ self.old.messages }
        ensures notified { self.new.notified.items ≡ [] }
    {
        self.notified.clear();
    }

    // A client is connected no more.
    pub(crate) fn forget(&mut self, client: ClientId)
        ensures messages { self.new.messages ≡ left self.old.messages client }
        ensures notified { self.new.notified ≡ self.old.notified }
    {
        self.messages.leave(client);
    }

    // Nobody is.
    pub(crate) fn forget_all(&mut self)
        ensures messages { self.new.messages ≡ [] }
        ensures notified { self.new.notified ≡ self.old.notified }
    {
        self.messages.clear();
    }

    // Performs a command of messages for a client: the subsystems that are pending for every client.
    #[tactic(auto, unfolding(crate::specs::Talk::talked))]
    pub(crate) fn perform(
        &mut self,
        alloc: Global,
        client: ClientId,
        command: MessagesCommand<'_>,
        work: &mut Work,
    ) -> Result<Subsystems, Failure>
        requires { HasRoom command_room work.old }
        ensures talked { RunsTalk (talked client self.old.messages command.entry) self.old self.new work.old work.new result }
        ensures memory { result ≡ Err Failure.NoMemory → messages_take_memory command.entry ≡ true }
    {
        match command {
            MessagesCommand::Channels => {
                self.tell_channels(alloc, work)?;
                Ok(Subsystems::none())
            }
            MessagesCommand::ReadMessages => {
                self.tell_unread(client, work)?;
                self.messages.set_read(client);
                Ok(Subsystems::none())
            }
            MessagesCommand::SendMessage(channel, text) => {
                self.send(alloc, channel.as_str(), text.as_str())?;
                Ok(Subsystems::none())
            }
            MessagesCommand::Subscribe(channel) => {
                if let Err(error) = self.messages.subscribe(alloc, client, channel.as_str()) {
                    return Err(failure_of(error));
                }
                Ok(Subsystems::only(Subsystem::Subscription))
            }
            MessagesCommand::Unsubscribe(channel) => {
                if let Err(error) = self.messages.unsubscribe(client, channel.as_str()) {
                    return Err(failure_of(error));
                }
                Ok(Subsystems::only(Subsystem::Subscription))
            }
        }
    }

    // A line for each channel.
    fn tell_channels(&self, alloc: Global, work: &mut Work) -> Result<(), Failure>
        ensures { TellsTalk (flat_map channel_line (channels_in self.now.messages)) work.old work.new result }
    {
        if work.is_long() {
            return work.keep_none();
        }
        let channels = self.messages.channels(alloc)?;
        let mark = work.text.len();
        let written = write_channels(&mut work.text, &channels);
        work.keep(mark, written)
    }

    // The lines of what the client hasn't read.
    fn tell_unread(&self, client: ClientId, work: &mut Work) -> Result<(), Failure>
        ensures { TellsTalk (unread_lines self.now.messages client) work.old work.new result }
    {
        let mark = work.text.len();
        let written = write_messages(&mut work.text, self.messages.unread(client));
        work.keep(mark, written)
    }

    // Sends a message, and keeps who is to be told of it. The memory for these is taken first.
    fn send(&mut self, alloc: Global, channel: &str, text: &str) -> Result<(), Failure>
        ensures ok { OnOk result (Sends channel.now text.now self.old self.new) }
        ensures err { OnErr result (IsSame self.old self.new) }
        ensures answer { FailsAs (send_refusal self.old.messages (message channel.now text.now)) result }
    {
        self.notified.reserve(self.messages.as_slice().len())?;
        match self.messages.send(alloc, channel, text) {
            Ok(clients) => {
                note_each(clients.as_slice(), &mut self.notified);
                Ok(())
            }
            Err(error) => Err(failure_of(error)),
        }
    }
}

// How a client is told of a refusal.
fn failure_of(error: MessagesError) -> Failure
    ensures { result ≡ failure_of error }
{
    match error {
        MessagesError::BadChannelName => Failure::Refused(CommandRefusal::Messages(
            MessagesRefusal::BadChannelName,
        )),
        MessagesError::TooManyChannels => Failure::Refused(CommandRefusal::Messages(
            MessagesRefusal::ChannelsFull,
        )),
        MessagesError::AlreadySubscribed => {
            Failure::Refused(CommandRefusal::Messages(MessagesRefusal::AlreadySubscribed))
        }
        MessagesError::NotSubscribed => Failure::Refused(CommandRefusal::Messages(
            MessagesRefusal::NotSubscribed,
        )),
        MessagesError::NobodySubscribed | MessagesError::NobodyHasRoom => {
            Failure::Refused(CommandRefusal::Messages(MessagesRefusal::NobodySubscribed))
        }
        MessagesError::NoMemory => Failure::NoMemory,
    }
}

// Adds the numbers to those that are kept, for which there is room.
fn note_each(clients: &[ClientId], notified: &mut Vec<ClientId>)
    requires { vec_len notified.old + length clients.now ≤ vec_capacity notified.old }
    ensures { notified.new.items ≡ notified.old.items ++ clients.now }
{
    let mut rest = clients;
    while let Some((client, after)) = rest.split_first() {
        notified.push_reserved(*client);
        rest = after;
    }
}

fn write_channels(out: &mut Vec<u8>, channels: &ChannelNames<'_>) -> Result<(), NoMemory>
    ensures { Adds (flat_map channel_line channels.now) result out.old out.new }
{
    for channel in channels.iter() {
        write_channel(out, *channel)?;
    }
    Ok(())
}

fn write_one(out: &mut Vec<u8>, message: &Message) -> Result<(), NoMemory>
    ensures { Adds (lines_of message.now) result out.old out.new }
{
    write_message(out, message.channel.as_str(), message.text.as_str())
}

fn write_messages(out: &mut Vec<u8>, messages: &[Message]) -> Result<(), NoMemory>
    ensures { Adds (flat_map lines_of messages.now) result out.old out.new }
{
    let mut rest = messages;
    while let Some((message, after)) = rest.split_first() {
        write_one(out, message)?;
        rest = after;
    }
    Ok(())
}
