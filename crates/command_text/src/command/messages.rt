// Reads the commands of messages from client to client.
ghost use Rattle.std.specs.Prelude.{◌≡◌};
ghost use Rattle.command_text.specs.Messages.{channel_of, message_of, messages_of};

use crate::argument::{argument, text};
use crate::counts::{no_argument, one, two};
use crate::refusal::CommandRefusal;
use crate::text::Text;
use crate::topic::MessagesName;
use filter_expr::LineWord;

/// A command of the messages that clients send to one another (MPD protocol reference 0.23, "Client to client"). A channel may be any text
/// here: whether one can have the name is for what performs the command.
#[derive(Debug, Drop)]
pub enum MessagesCommand<'w> {
    /// Lists the channels that clients have.
    Channels,
    /// Tells what the client hasn't read.
    ReadMessages,
    /// Sends a text to a channel.
    SendMessage(Text<'w>, Text<'w>),
    Subscribe(Text<'w>),
    Unsubscribe(Text<'w>),
}

/// The command of this name with these arguments.
#[tactic(auto, unfolding(crate::specs::Messages::messages_of))]
pub(crate) fn read<'w>(
    name: MessagesName,
    words: &'w [LineWord<'_>],
) -> Result<MessagesCommand<'w>, CommandRefusal>
    ensures { result ≡ messages_of name words.now }
{
    match name {
        MessagesName::Channels => no_argument(MessagesCommand::Channels, words),
        MessagesName::ReadMessages => no_argument(MessagesCommand::ReadMessages, words),
        MessagesName::SendMessage => message(words),
        MessagesName::Subscribe => Ok(MessagesCommand::Subscribe(channel(words)?)),
        MessagesName::Unsubscribe => Ok(MessagesCommand::Unsubscribe(channel(words)?)),
    }
}

#[tactic(auto, unfolding(crate::specs::Messages::channel_of))]
fn channel<'w>(words: &'w [LineWord<'_>]) -> Result<Text<'w>, CommandRefusal>
    ensures { result ≡ channel_of words.now }
{
    argument(1, text(one(words)?))
}

#[tactic(auto, unfolding(crate::specs::Messages::message_of))]
fn message<'w>(words: &'w [LineWord<'_>]) -> Result<MessagesCommand<'w>, CommandRefusal>
    ensures { result ≡ message_of words.now }
{
    let (channel, said) = two(words)?;
    let channel = argument(1, text(channel))?;
    Ok(MessagesCommand::SendMessage(channel, argument(2, text(said))?))
}
