// The commands of a request, one after the other, and how it ends.
ghost use Rattle.std.specs.Prelude.{◌≡◌, ◌<◌, ◌^◌, true, length};
ghost use Rattle.daemon_core.specs.Request.{stop_of_reading, looks_at_end, view_at_end, CountsLooks, HasView, RunsLine, RunsLines};
ghost use Rattle.daemon_core.specs.Request.{AnswersStop, RunsCommand, asker_of, is_kill};
ghost use Rattle.daemon_core.specs.Run.{attempted, done_by, ending_of, looks_of_line, performed, separator, spent_of};
ghost use Rattle.daemon_core.specs.Run.{view_of_line};
ghost use Rattle.daemon_core.specs.Step.{is_noidle};
ghost use Rattle.machine_core.specs.Looks.{looked, looks_of};
ghost use Rattle.machine_core.specs.Memory.{takes_memory};
ghost use Rattle.machine_core.specs.Work.{CanKeepBy, AddsText, HasRoom, ack_room, command_room};

use crate::handled::Handled;
use crate::outcome::{Bytes, Ending, Outcome, Output};
use crate::parts::CoreParts;
use crate::picture::PictureTold;
use crate::pictures::show;
use crate::talk::Talks;
use crate::view::View;
use command_text::{
    Command, LinesRef, NamedCommand, Place, ReadError, Refusal, Request, SessionCommand,
    SettingsCommand, read_words,
};
use idle_masks::{ClientId, Subsystems};
use machine_core::{Failure, Looks, MAX_LOOKS, Machine, Work};
use no_memory::NoMemory;
use profile::Profile;
use state_codec::Op;
use std::alloc::Global;

// A request has at most so many commands.
const MOST_COMMANDS: usize = 4_294_967_295;

// Who asks, and how: the client, the picture that was read for it, where its commands stand, and whether each is separated from the next.
#[derive(Clone, Copy)]
struct Asked<'p> {
    client: ClientId,
    told: Option<&'p PictureTold>,
    place: Place,
    separated: bool,
}

// Why a command is the last one of its request.
#[derive(Drop)]
pub enum Stop {
    Ends(Ending),
    Refused(Refusal),
    NoMemory,
}

impl From<NoMemory> for Stop {
    ghost use Rattle.std.specs.Prelude.{◌≡◌};
    ghost use Rattle.daemon_core.specs.declared.request.Stop.TheVariants as stops;

    ghost from_gives = { λ _ stop. stop ≡ stops.NoMemory };

    fn from(_error: NoMemory) -> Stop {
        Stop::NoMemory
    }
}

// How a request ended.
#[derive(Drop)]
pub struct RequestEnd {
    pub(crate) ending: Ending,
    // The subsystems that one of its commands changed.
    pub(crate) changed: Subsystems,
    // The place of the command at which memory was refused.
    pub(crate) refused_at: Option<u32>,
    // How much its commands looked at.
    pub(crate) looks: u64,
    // How its client is told behind it.
    pub(crate) view: View,
}

impl RequestEnd {
    ghost use Rattle.daemon_core.specs.Request.{handled_by};

    // What the request did, with these outputs, clients that are closed and ops.
    fn handled(&self, outputs: Vec<Output>, closes: Vec<ClientId>, ops: Vec<Op>) -> Handled
        ensures { result ≡ handled_by self.now outputs closes ops }
    {
        let outcome = Outcome {
            outputs,
            closes,
            ops,
            refused_at: self.refused_at,
            looks: self.looks,
            ended: is_kill(self.ending),
        };
        Handled {
            outcome,
            changed: self.changed,
        }
    }
}

// Whether the daemon ends.
fn is_kill(ending: Ending) -> bool
    ensures { result ≡ is_kill ending }
{
    match ending {
        Ending::Answered | Ending::Closed | Ending::Waits(_) => false,
        Ending::Killed => true,
    }
}

// Why a line that wasn't read stops its request.
fn stop_of_reading(error: ReadError) -> Stop
    ensures { result ≡ stop_of_reading error }
{
    match error {
        ReadError::Refused(refusal) => Stop::Refused(refusal),
        ReadError::NoMemory => Stop::NoMemory,
    }
}

// How a command ends its request, if it does.
#[tactic(auto, unfolding(crate::specs::Run::ending_of))]
fn ending_of(command: &Command<'_>) -> Option<Ending>
    ensures { result ≡ ending_of command.now }
{
    match command {
        Command::Settings(SettingsCommand::Close) => Some(Ending::Closed),
        Command::Settings(SettingsCommand::Kill) => Some(Ending::Killed),
        Command::Session(SessionCommand::Idle(mask)) => Some(Ending::Waits(*mask)),
        _ => None,
    }
}

// Ends the answer of a request that stops at this line: its ending, and its place where memory was refused.
fn answer_stop(
    profile: Profile,
    index: u32,
    line: &[u8],
    stop: Stop,
    work: &mut Work,
) -> (Ending, Option<u32>)
    requires { HasRoom ack_room work.old }
    ensures { AnswersStop profile stop index line.now result.1 result.0 work.old work.new }
{
    match stop {
        Stop::Ends(ending) => return (ending, None),
        Stop::Refused(refusal) => {
            if work.refuse(index, &refusal) {
                return (Ending::Answered, None);
            }
        }
        Stop::NoMemory => {}
    }
    work.want_memory(profile, index, line);
    (Ending::Answered, Some(index))
}

// How much a request looked at that ended at a command: all that is counted where memory was refused.
fn looks_at_end(refused_at: Option<u32>, looks: &Looks) -> u64
    ensures { result ≡ looks_at_end refused_at looks.now }
{
    match refused_at {
        Some(_) => MAX_LOOKS,
        None => looks.taken(),
    }
}

// How the client is told behind a request that ended at a command: those before it where memory was refused.
fn view_at_end(refused_at: Option<u32>, before: View, behind: View) -> View
    ensures { result ≡ view_at_end refused_at before behind }
{
    match refused_at {
        Some(_) => before,
        None => behind,
    }
}

// Adds what stands behind each command of a list that asks for it.
fn separate(separated: bool, work: &mut Work)
    requires { HasRoom command_room work.old }
    ensures text { AddsText (separator separated) work.old work.new }
    ensures room { HasRoom ack_room work.new }
{
    if separated {
        work.end_command();
    }
}

impl CoreParts {
    ghost use Rattle.std.specs.Prelude.{[], IfErr, IfOk, IfSome, IsSome, OnErr, OnOk, vec_capacity, vec_len};
    ghost use Rattle.idle_masks.specs.Watched.{watched};
    ghost use Rattle.daemon_core.specs.Handled.{Does};
    ghost use Rattle.daemon_core.specs.Outcome.{commands_in};
    ghost use Rattle.daemon_core.specs.Request.{ran_of};
    ghost use Rattle.daemon_core.specs.Session.{of_ran, runs};
    ghost use Rattle.daemon_core.specs.Step.{asking, begun, requested_by, waiting_of};
    ghost use Rattle.daemon_core.specs.Parts.{state_of};
    ghost use Rattle.daemon_core.specs.Room.{CanCloseAll, IsReadyToTell};
    ghost use Rattle.daemon_core.specs.Run.{ran};

    // A client's request.
    pub(crate) fn handle_request(
        &mut self,
        alloc: Global,
        client: ClientId,
        request: Request,
    ) -> Result<Handled, NoMemory>
        requires ready { IsReadyToTell self.old }
        requires closes { CanCloseAll self.old }
        requires fresh { self.old.talks.notified.items ≡ [] }
        ensures ok { IfOk result (λ handled. Does (requested_by client handled.outcome.refused_at (state_of self.old) request
            (waiting_of (watched self.old.watch client))) self.new handled) }
        ensures place { IfOk result (λ handled. IfSome handled.outcome.refused_at (λ k. k < commands_in request)) }
        ensures err { OnErr result (state_of self.new ≡ state_of self.old) }
    {
        let waiting = match self.watch.get(client) {
            Some(watched) => watched.waiting,
            None => return Ok(Handled::nothing(alloc)),
        };
        match waiting {
            Some(_) => return self.end_waiting(alloc, client, is_noidle(&request)),
            None => {}
        }
        match request {
            Request::Single(line) => {
                let line = LinesRef::of_line(line.bytes());
                self.answer_lines(alloc, client, Place::Alone, false, line)
            }
            Request::List(lines) => {
                self.answer_lines(alloc, client, Place::InList, false, lines.as_ref())
            }
            Request::OkList(lines) => {
                self.answer_lines(alloc, client, Place::InList, true, lines.as_ref())
            }
            Request::Noidle => Ok(Handled::nothing(alloc)),
        }
    }

    // A request of a client that does not wait. The room for its answer is taken before its first command.
    fn answer_lines(
        &mut self,
        alloc: Global,
        client: ClientId,
        place: Place,
        separated: bool,
        lines: LinesRef<'_>,
    ) -> Result<Handled, NoMemory>
        requires ready { IsReadyToTell self.old }
        requires closes { CanCloseAll self.old }
        requires known { IsSome (watched self.old.watch client) }
        requires fresh { self.old.talks.notified.items ≡ [] }
        ensures ok { IfOk result (λ handled. Does (runs client (state_of self.old)
            (ran (asking client (state_of self.old)) place (separator separated) handled.outcome.refused_at 0
            (begun client (state_of self.old)) lines.entry self.old.machine)) self.new handled) }
        ensures place { IfOk result (λ handled. IfSome handled.outcome.refused_at (λ k. k < length lines.entry)) }
        ensures err { OnErr result (state_of self.new ≡ state_of self.old) }
    {
        if lines.len() > MOST_COMMANDS {
            return Err(NoMemory);
        }
        let outputs = Vec::with_capacity(alloc, 1)?;
        self.views.make_room()?;
        let view = self.views.seen_by(client);
        let told = self.pictures.told_for(client);
        let asked = Asked {
            client,
            told,
            place,
            separated,
        };
        let profile = self.machine.saved().profile();
        let mut work = Work::new(alloc, profile)?;
        let end = run_lines(
            &mut self.machine,
            &mut self.talks,
            alloc,
            asked,
            view,
            lines,
            &mut work,
        );
        Ok(self.end_request(alloc, client, work, end, outputs))
    }

    // What a request that ran makes of its client, and of all clients.
    fn end_request(
        &mut self,
        alloc: Global,
        client: ClientId,
        work: Work,
        end: RequestEnd,
        mut outputs: Vec<Output>,
    ) -> Handled
        requires ready { IsReadyToTell self.old }
        requires closes { CanCloseAll self.old }
        requires known { IsSome (watched self.old.watch client) }
        requires empty { outputs.items ≡ [] }
        requires one { 0 < vec_capacity outputs }
        requires mask { vec_len self.old.views.list < vec_capacity self.old.views.list }
        ensures { Does (of_ran client (state_of self.old) (ran_of self.old.machine self.old.talks work end) end.ending) self.new result }
    {
        let Work { text, ops, .. } = work;
        match end.ending {
            Ending::Answered => {
                self.views.set(client, end.view);
                self.pictures.forget(client);
                let bytes = Bytes::of_answer(text);
                outputs.push_reserved(Output { client, bytes });
                end.handled(outputs, Vec::new(alloc), ops)
            }
            Ending::Closed => {
                let mut closes = self.room.give_closes(alloc);
                closes.push_reserved(client);
                self.leave(client);
                end.handled(outputs, closes, ops)
            }
            Ending::Killed => {
                let mut closes = self.room.give_closes(alloc);
                self.close_all(&mut closes);
                end.handled(outputs, closes, ops)
            }
            Ending::Waits(mask) => {
                self.wait(client, mask);
                self.views.set(client, end.view);
                self.pictures.forget(client);
                end.handled(outputs, Vec::new(alloc), ops)
            }
        }
    }
}

// The commands of these lines, until one stops the request. A request has fewer than 2^32 commands.
fn run_lines(
    machine: &mut Machine,
    talks: &mut Talks,
    alloc: Global,
    asked: Asked<'_>,
    view: View,
    lines: LinesRef<'_>,
    work: &mut Work,
) -> RequestEnd
    requires room { HasRoom ack_room work.old }
    requires count { length lines < 2 ^ 32 }
    ensures { RunsLines (asker_of asked.entry) asked.entry.place (separator asked.entry.separated) view lines.entry machine.old machine.new
        talks.old talks.new work.old work.new result }
{
    let mut changed = Subsystems::none();
    let mut looks = Looks::new();
    let mut view = view;
    let mut index = 0;
    let mut rest = lines;
    while let Some((line, after)) = rest.split_first() {
        let before = view;
        match run_line(
            machine, talks, alloc, asked, line, work, &mut looks, &mut view,
        ) {
            Ok(set) => changed = changed.union(set),
            Err(stop) => {
                let profile = machine.saved().profile();
                let (ending, refused_at) = answer_stop(profile, index, line, stop, work);
                let looks = looks_at_end(refused_at, &looks);
                let view = view_at_end(refused_at, before, view);
                return RequestEnd {
                    ending,
                    changed,
                    refused_at,
                    looks,
                    view,
                };
            }
        }
        index += 1;
        rest = after;
    }
    work.end();
    RequestEnd {
        ending: Ending::Answered,
        changed,
        refused_at: None,
        looks: looks.taken(),
        view,
    }
}

// One command of a request, from its line.
fn run_line(
    machine: &mut Machine,
    talks: &mut Talks,
    alloc: Global,
    asked: Asked<'_>,
    line: &[u8],
    work: &mut Work,
    looks: &mut Looks,
    view: &mut View,
) -> Result<Subsystems, Stop>
    requires { HasRoom ack_room work.old }
    ensures runs { RunsLine (separator asked.entry.separated)
        (attempted (asker_of asked.entry) asked.entry.place (spent_of work.old.size looks.old view.old talks.old.messages) line.now
        machine.old)
        machine.old machine.new talks.old talks.new work.old work.new result }
    ensures view { HasView (view_of_line asked.entry.place line.now machine.old view.old) view.new result }
    ensures looks { CountsLooks (looked machine.old.saved.profile looks.old (looks_of_line asked.entry.place line.now machine.old))
        looks.new result }
{
    let profile = machine.saved().profile();
    if work.make_room(profile).is_err() {
        return Err(Stop::NoMemory);
    }
    let words = match read_words(alloc, line) {
        Ok(words) => words,
        Err(error) => return Err(stop_of_reading(error)),
    };
    match Command::read(alloc, profile, asked.place, words.as_slice()) {
        Ok(command) => {
            let before = *view;
            *view = before.behind(&command.command);
            run_command(machine, talks, alloc, asked, before, command, work, looks)
        }
        Err(error) => Err(stop_of_reading(error)),
    }
}

// One command of a request. Memory is refused to one that takes some alone.
fn run_command(
    machine: &mut Machine,
    talks: &mut Talks,
    alloc: Global,
    asked: Asked<'_>,
    view: View,
    command: NamedCommand<'_>,
    work: &mut Work,
    looks: &mut Looks,
) -> Result<Subsystems, Stop>
    requires room { HasRoom command_room work.old }
    requires keeps { CanKeepBy machine.old.saved.profile work.old }
    ensures ran { RunsLine (separator asked.entry.separated)
        (performed (asker_of asked.entry) (spent_of work.old.size looks.old view talks.old.messages) command.entry machine.old)
        machine.old machine.new talks.old talks.new work.old work.new result }
    ensures looks { looks.new ≡ looked machine.old.saved.profile looks.old (looks_of command.entry.command machine.old) }
    ensures memory { result ≡ Err Stop.NoMemory → takes_memory command.entry.command machine.old ≡ true }
{
    let NamedCommand { name, command } = command;
    match ending_of(&command) {
        Some(ending) => {
            drop(command);
            return Err(Stop::Ends(ending));
        }
        None => {}
    }
    match perform(machine, talks, alloc, asked, view, command, work, looks) {
        Ok(changed) => {
            separate(asked.separated, work);
            Ok(changed)
        }
        Err(Failure::Refused(refusal)) => { Err(Stop::Refused(Refusal::OfCommand(name, refusal))) }
        Err(Failure::NoMemory) => Err(Stop::NoMemory),
    }
}

// A command that doesn't end its request: the daemon performs those of messages and of pictures, the machine any other.
#[tactic(auto, unfolding(crate::specs::Run::done_by, crate::specs::Run::own_of))]
fn perform(
    machine: &mut Machine,
    talks: &mut Talks,
    alloc: Global,
    asked: Asked<'_>,
    view: View,
    command: Command<'_>,
    work: &mut Work,
    looks: &mut Looks,
) -> Result<Subsystems, Failure>
    requires room { HasRoom command_room work.old }
    requires keeps { CanKeepBy machine.old.saved.profile work.old }
    ensures ran { RunsCommand
        (done_by (asker_of asked.entry) (spent_of work.old.size looks.old view talks.old.messages) command.entry machine.old)
        machine.old machine.new talks.old talks.new work.old work.new result }
    ensures looks { looks.new ≡ looked machine.old.saved.profile looks.old (looks_of command.entry machine.old) }
    ensures memory { result ≡ Err Failure.NoMemory → takes_memory command.entry machine.old ≡ true }
{
    match command {
        Command::Messages(command) => talks.perform(alloc, asked.client, command, work),
        Command::Pictures(command) => {
            match show(
                view.limit,
                asked.told,
                machine.saved().songs(),
                command,
                work,
            ) {
                Ok(()) => Ok(Subsystems::none()),
                Err(failure) => Err(failure),
            }
        }
        command => machine.perform(alloc, view.tags, command, work, looks),
    }
}

// Whether the request ends waiting.
fn is_noidle(request: &Request) -> bool
    ensures { result ≡ is_noidle request.now }
{
    match request {
        Request::Single(_) | Request::List(_) | Request::OkList(_) => false,
        Request::Noidle => true,
    }
}
