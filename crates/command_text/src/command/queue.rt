// Reads the commands of the queue.
ghost use Rattle.std.specs.Prelude.{◌≡◌, true, Err};
ghost use Rattle.command_text.specs.Queue.{queue_of, keeps_many, added, two_numbers, changes_since, shown_id, shown_range, move_of};
ghost use Rattle.command_text.specs.Queue.{move_id_of};
ghost use Rattle.command_text.specs.Queue.{priority_of, priority_id_of, shuffled_range};
ghost use Rattle.std.specs.Option.{option_map};
ghost use Rattle.command_text.specs.Arguments.{number_to};
ghost use Rattle.command_text.specs.Stops.{Reads};
ghost use Rattle.command_text.specs.declared.stop.Stop.TheVariants as stops;

use crate::argument::{
    argument, number, number_to, optional_number, optional_range, optional_target, range, target,
    text,
};
use crate::counts::{no_argument, one, one_and_more, one_or_two, optional, two, unless_minus_one};
use crate::each::{ids, ranges};
use crate::range::{EntryIds, PositionRange, PositionRanges};
use crate::refusal::CommandRefusal;
use crate::stop::Stop;
use crate::text::Text;
use crate::topic::QueueName;
use filter_expr::LineWord;
use play_queue::Target;
use profile::Profile;
use std::alloc::Global;

/// A command of the queue. A URI may be any text; a position counts from 0.
#[derive(Debug, Drop)]
pub enum QueueCommand<'w> {
    /// A song, or all songs under a folder, and where they go; the end, if nothing is said.
    Add(Text<'w>, Option<Target>),
    /// One song.
    AddId(Text<'w>, Option<Target>),
    /// The entries that have changed since a version, of a range of positions.
    Changes(u32, Option<PositionRange>),
    /// The same by positions and ids alone.
    ChangesPositions(u32, Option<PositionRange>),
    Clear,
    Delete(PositionRange),
    DeleteId(u32),
    /// The files of all entries, numbered.
    Files,
    Info(Option<PositionRange>),
    InfoId(Option<u32>),
    Move(PositionRange, Target),
    MoveId(u32, Target),
    Priority(u8, PositionRanges),
    PriorityId(u8, EntryIds),
    Shuffle(Option<PositionRange>),
    Swap(u32, u32),
    SwapId(u32, u32),
}

/// The command of this name with these arguments.
#[tactic(auto, unfolding(crate::specs::Queue::queue_of))]
pub(crate) fn read<'w>(
    alloc: Global,
    profile: Profile,
    name: QueueName,
    words: &'w [LineWord<'_>],
) -> Result<QueueCommand<'w>, Stop>
    ensures exact { Reads result (queue_of profile name words.now) }
    ensures memory { result ≡ Err stops.NoMemory → keeps_many name ≡ true }
{
    match name {
        QueueName::Add => {
            let (uri, to) = added(words)?;
            Ok(QueueCommand::Add(uri, to))
        }
        QueueName::AddId => {
            let (uri, to) = added(words)?;
            Ok(QueueCommand::AddId(uri, to))
        }
        QueueName::Clear => Ok(no_argument(QueueCommand::Clear, words)?),
        QueueName::Delete => Ok(QueueCommand::Delete(argument(1, range(one(words)?))?)),
        QueueName::DeleteId => Ok(QueueCommand::DeleteId(argument(1, number(one(words)?))?)),
        QueueName::Move => Ok(move_entries(words)?),
        QueueName::MoveId => Ok(move_id(words)?),
        QueueName::Priority => priority(alloc, words),
        QueueName::PriorityId => priority_id(alloc, words),
        QueueName::QueueChanges => {
            let (version, range) = changes_since(words)?;
            Ok(QueueCommand::Changes(version, range))
        }
        QueueName::QueueChangesPositions => {
            let (version, range) = changes_since(words)?;
            Ok(QueueCommand::ChangesPositions(version, range))
        }
        QueueName::QueueFiles => Ok(no_argument(QueueCommand::Files, words)?),
        QueueName::QueueId => Ok(QueueCommand::InfoId(shown_id(words)?)),
        QueueName::QueueInfo => Ok(QueueCommand::Info(shown_range(words)?)),
        QueueName::Shuffle => {
            Ok(QueueCommand::Shuffle(shuffled_range(profile, optional(words)?)?))
        }
        QueueName::Swap => {
            let (first, second) = two_numbers(words)?;
            Ok(QueueCommand::Swap(first, second))
        }
        QueueName::SwapId => {
            let (first, second) = two_numbers(words)?;
            Ok(QueueCommand::SwapId(first, second))
        }
    }
}

/// A URI, and where its songs go.
#[tactic(auto, unfolding(crate::specs::Queue::added))]
fn added<'w>(words: &'w [LineWord<'_>]) -> Result<(Text<'w>, Option<Target>), CommandRefusal>
    ensures { result ≡ added words.now }
{
    let (uri, to) = one_or_two(words)?;
    Ok((argument(1, text(uri))?, optional_target(2, to)?))
}

#[tactic(auto, unfolding(crate::specs::Queue::two_numbers))]
fn two_numbers(words: &[LineWord<'_>]) -> Result<(u32, u32), CommandRefusal>
    ensures { result ≡ two_numbers words.now }
{
    let (first, second) = two(words)?;
    Ok((argument(1, number(first))?, argument(2, number(second))?))
}

/// A version, and the range of positions that is looked at.
#[tactic(auto, unfolding(crate::specs::Queue::changes_since))]
fn changes_since(words: &[LineWord<'_>]) -> Result<(u32, Option<PositionRange>), CommandRefusal>
    ensures { result ≡ changes_since words.now }
{
    let (version, range) = one_or_two(words)?;
    Ok((argument(1, number(version))?, optional_range(2, range)?))
}

fn shown_id(words: &[LineWord<'_>]) -> Result<Option<u32>, CommandRefusal>
    ensures { result ≡ shown_id words.now }
{
    optional_number(1, unless_minus_one(optional(words)?))
}

fn shown_range(words: &[LineWord<'_>]) -> Result<Option<PositionRange>, CommandRefusal>
    ensures { result ≡ shown_range words.now }
{
    optional_range(1, unless_minus_one(optional(words)?))
}

/// To the wide profile `-1` is all there.
fn shuffled_range(
    profile: Profile,
    word: Option<&[u8]>,
) -> Result<Option<PositionRange>, CommandRefusal>
    ensures { result ≡ shuffled_range profile (option_map (λ word. word.now) word.entry) }
{
    match profile {
        Profile::Named => optional_range(1, word),
        Profile::Wide => optional_range(1, unless_minus_one(word)),
    }
}

#[tactic(auto, unfolding(crate::specs::Queue::move_of))]
fn move_entries<'w>(words: &[LineWord<'_>]) -> Result<QueueCommand<'w>, CommandRefusal>
    ensures { result ≡ move_of words.now }
{
    let (positions, to) = two(words)?;
    let positions = argument(1, range(positions))?;
    Ok(QueueCommand::Move(positions, argument(2, target(to))?))
}

#[tactic(auto, unfolding(crate::specs::Queue::move_id_of))]
fn move_id<'w>(words: &[LineWord<'_>]) -> Result<QueueCommand<'w>, CommandRefusal>
    ensures { result ≡ move_id_of words.now }
{
    let (id, to) = two(words)?;
    let id = argument(1, number(id))?;
    Ok(QueueCommand::MoveId(id, argument(2, target(to))?))
}

/// A priority, and each range from the second argument on.
#[tactic(auto, unfolding(crate::specs::Queue::priority_of))]
fn priority<'w>(alloc: Global, words: &[LineWord<'_>]) -> Result<QueueCommand<'w>, Stop>
    ensures { Reads result (priority_of words.now) }
{
    let (priority, positions) = one_and_more(words)?;
    let priority = argument(1, priority_number(priority))?;
    Ok(QueueCommand::Priority(priority, ranges(alloc, positions)?))
}

/// A priority, and each id from the second argument on.
#[tactic(auto, unfolding(crate::specs::Queue::priority_id_of))]
fn priority_id<'w>(alloc: Global, words: &[LineWord<'_>]) -> Result<QueueCommand<'w>, Stop>
    ensures { Reads result (priority_id_of words.now) }
{
    let (priority, entries) = one_and_more(words)?;
    let priority = argument(1, priority_number(priority))?;
    Ok(QueueCommand::PriorityId(priority, ids(alloc, entries)?))
}

/// A priority, from 0 to 255.
fn priority_number(word: &[u8]) -> Option<u8>
    ensures { result ≡ number_to 255 word.now }
{
    Some(number_to(255, word)? as u8)
}
