// The clients: how they come and go, wait, and are told.
ghost use Rattle.std.specs.Prelude.{◌≡◌, ◌+◌, ◌≤◌, ◌++◌, [], length, map, vec_len, vec_capacity, IfOk, OnErr, IsSome};
ghost use Rattle.std.specs.List.{list_all};
ghost use Rattle.command_text.specs.Answer.{greeting, ok};
ghost use Rattle.idle_masks.specs.Subsystems.{is_empty};
ghost use Rattle.idle_masks.specs.Watched.{due};
ghost use Rattle.daemon_core.specs.Handled.{Does};
ghost use Rattle.daemon_core.specs.Parts.{state_of};
ghost use Rattle.daemon_core.specs.Session.{numbers_of};

use crate::handled::Handled;
use crate::outcome::{Bytes, Output};
use crate::parts::CoreParts;
use crate::picture::PictureTold;
use crate::room::Room;
use crate::tell::tell_all;
use command_text::{write_greeting, write_ok};
use idle_masks::{ClientId, Report, Subsystems, Watched};
use no_memory::NoMemory;
use std::alloc::Global;

// The bytes of the greeting.
fn greeting(alloc: Global) -> Result<Bytes, NoMemory>
    ensures { IfOk result (λ bytes. bytes ≡ greeting) }
{
    let mut text = Vec::new(alloc);
    write_greeting(&mut text)?;
    Ok(Bytes::new(text))
}

// The bytes of the line `OK`.
fn ok(alloc: Global) -> Result<Bytes, NoMemory>
    ensures { IfOk result (λ bytes. bytes ≡ ok) }
{
    let mut text = Vec::new(alloc);
    write_ok(&mut text)?;
    Ok(Bytes::new(text))
}

impl CoreParts {
    ghost use Rattle.idle_masks.specs.Watched.{watched, left, with_waiting, reports_of, after_reports};
    ghost use Rattle.daemon_core.specs.Pending.{with_news};
    ghost use Rattle.std.specs.Prelude.{Some};
    ghost use Rattle.daemon_core.specs.Pictures.{pictures_without};
    ghost use Rattle.daemon_core.specs.Room.{CanCloseAll, IsReadyToTell};
    ghost use Rattle.daemon_core.specs.Seen.{views_without};
    ghost use Rattle.daemon_core.specs.Session.{messages_without, nothing, without};
    ghost use Rattle.daemon_core.specs.Step.{connects_client, reads_picture, told_to, waits_no_more};
    ghost use Rattle.daemon_core.specs.declared.outcome.Ending.TheVariants.{Waits};

    // A client connects: one that was not connected is greeted.
    pub(crate) fn connect(&mut self, alloc: Global, client: ClientId) -> Result<Handled, NoMemory>
        requires ready { IsReadyToTell self.old }
        requires fresh { self.old.talks.notified.items ≡ [] }
        ensures ok { IfOk result (Does (connects_client client (state_of self.old) (watched self.old.watch client)) self.new) }
        ensures err { OnErr result (state_of self.new ≡ state_of self.old) }
    {
        if self.watch.get(client).is_some() {
            return Ok(Handled::nothing(alloc));
        }
        let Some(clients) = self.watch.len().checked_add(1) else {
            return Err(NoMemory);
        };
        self.room.take(alloc, clients)?;
        let handled = Handled::answered(alloc, client, greeting(alloc)?)?;
        if self.watch.join(client).is_err() {
            return Err(NoMemory);
        }
        self.views.forget(client);
        self.talks.forget(client);
        self.pictures.forget(client);
        Ok(handled)
    }

    // A client is connected no more, if it was.
    pub(crate) fn leave(&mut self, client: ClientId)
        ensures watch { self.new.watch ≡ left self.old.watch client }
        ensures views { self.new.views.list.items ≡ views_without (watched self.old.watch client) self.old.views.list.items client }
        ensures messages { self.new.talks.messages
            ≡ messages_without (watched self.old.watch client) self.old.talks.messages client }
        ensures pictures { self.new.pictures.list.items
            ≡ pictures_without (watched self.old.watch client) self.old.pictures.list.items client }
        ensures notified { self.new.talks.notified ≡ self.old.talks.notified }
        ensures machine { self.new.machine ≡ self.old.machine }
        ensures room { self.new.room ≡ self.old.room }
    {
        match self.watch.leave(client) {
            Ok(()) => {
                self.views.forget(client);
                self.talks.forget(client);
                self.pictures.forget(client);
            }
            // It was not connected.
            Err(_) => {}
        }
    }

    // A picture was read for a client. Of one that isn't connected nothing is kept.
    pub(crate) fn read_picture(
        &mut self,
        alloc: Global,
        client: ClientId,
        told: PictureTold,
    ) -> Result<Handled, NoMemory>
        requires ready { IsReadyToTell self.old }
        requires fresh { self.old.talks.notified.items ≡ [] }
        ensures ok { IfOk result (Does (nothing (reads_picture client told (state_of self.old))) self.new) }
        ensures err { OnErr result (state_of self.new ≡ state_of self.old) }
    {
        if self.watch.get(client).is_none() {
            return Ok(Handled::nothing(alloc));
        }
        self.pictures.make_room()?;
        self.pictures.set(client, told);
        Ok(Handled::nothing(alloc))
    }

    // A client's connection has ended.
    pub(crate) fn forget(&mut self, alloc: Global, client: ClientId) -> Handled
        requires ready { IsReadyToTell self.old }
        requires fresh { self.old.talks.notified.items ≡ [] }
        ensures { Does (nothing (without client (state_of self.old))) self.new result }
    {
        self.leave(client);
        Handled::nothing(alloc)
    }

    // A client that waits sends something: `noidle` ends its waiting, and anything else closes it.
    pub(crate) fn end_waiting(
        &mut self,
        alloc: Global,
        client: ClientId,
        is_noidle: bool,
    ) -> Result<Handled, NoMemory>
        requires ready { IsReadyToTell self.old }
        requires closes { CanCloseAll self.old }
        requires known { IsSome (watched self.old.watch client) }
        requires fresh { self.old.talks.notified.items ≡ [] }
        ensures ok { IfOk result (Does (waits_no_more is_noidle client (state_of self.old)) self.new) }
        ensures err { OnErr result (state_of self.new ≡ state_of self.old) }
    {
        if is_noidle {
            let handled = Handled::answered(alloc, client, ok(alloc)?)?;
            if self.watch.cancel(client).is_err() {
                unreachable!();
            }
            Ok(handled)
        } else {
            let closes = self.room.give_closes(alloc);
            self.leave(client);
            Ok(Handled::closing(alloc, client, closes))
        }
    }

    // A client waits for these.
    pub(crate) fn wait(&mut self, client: ClientId, mask: Subsystems)
        requires { IsSome (watched self.old.watch client) }
        ensures watch { self.new.watch ≡ with_waiting self.old.watch client (Some mask) }
        ensures views { self.new.views ≡ self.old.views }
        ensures talks { self.new.talks ≡ self.old.talks }
        ensures pictures { self.new.pictures ≡ self.old.pictures }
        ensures machine { self.new.machine ≡ self.old.machine }
        ensures room { self.new.room ≡ self.old.room }
    {
        if self.watch.wait(client, mask).is_err() {
            unreachable!();
        }
    }

    // No client is connected any more; all that were are closed.
    pub(crate) fn close_all(&mut self, closes: &mut Vec<ClientId>)
        requires empty { closes.old.items ≡ [] }
        requires room { length self.old.watch ≤ vec_capacity closes.old }
        ensures watch { self.new.watch ≡ [] }
        ensures views { self.new.views.list.items ≡ [] }
        ensures messages { self.new.talks.messages ≡ [] }
        ensures pictures { self.new.pictures.list.items ≡ [] }
        ensures notified { self.new.talks.notified ≡ self.old.talks.notified }
        ensures machine { self.new.machine ≡ self.old.machine }
        ensures room { self.new.room ≡ self.old.room }
        ensures closes { closes.new.items ≡ numbers_of self.old.watch }
    {
        close_each(self.watch.as_slice(), closes);
        self.watch.clear();
        self.views.clear();
        self.talks.forget_all();
        self.pictures.clear();
    }

    // What changed is pending for each client, and those that wait for it are told, behind the answer.
    pub(crate) fn tell_waiting(
        &mut self,
        alloc: Global,
        changed: Subsystems,
        answer: Vec<Output>,
    ) -> Vec<Output>
        requires ready { IsReadyToTell self.old }
        requires one { vec_len answer ≤ 1 }
        ensures outputs { result.items
            ≡ answer.items ++ map told_to (reports_of (with_news changed self.old.talks.notified.items self.old.watch)) }
        ensures watch { self.new.watch ≡ after_reports (with_news changed self.old.talks.notified.items self.old.watch) }
        ensures views { self.new.views ≡ self.old.views }
        ensures talks { self.new.talks ≡ self.old.talks }
        ensures pictures { self.new.pictures ≡ self.old.pictures }
        ensures machine { self.new.machine ≡ self.old.machine }
    {
        let notified = self.talks.notified.as_slice();
        if self.watch.mark(changed, notified) {
            return answer;
        }
        let Some(room) = self.room.give_reports() else {
            unreachable!();
        };
        let reports = self.watch.ready_in(room);
        self.room.tell(alloc, reports.as_slice(), answer)
    }
}

impl Room {
    ghost use Rattle.std.specs.Prelude.{◌<◌};
    ghost use Rattle.daemon_core.specs.Step.{told_to};

    // Tells the clients of these reports, behind the answer.
    fn tell(&mut self, alloc: Global, reports: &[Report], mut answer: Vec<Output>) -> Vec<Output>
        requires one { vec_len answer ≤ 1 }
        requires texts { length reports.now ≤ vec_len self.old.texts }
        requires outputs { length reports.now < vec_capacity self.old.outputs }
        ensures { result.items ≡ answer.items ++ map told_to reports.now }
    {
        let mut outputs = self.give_outputs(alloc);
        if let Some(output) = answer.pop() {
            outputs.push_reserved(output);
        }
        tell_all(reports, &mut self.texts, &mut outputs);
        outputs
    }
}

// The numbers of these clients.
fn close_each(clients: &[Watched], closes: &mut Vec<ClientId>)
    requires empty { closes.old.items ≡ [] }
    requires room { length clients.now ≤ vec_capacity closes.old }
    ensures { closes.new.items ≡ numbers_of clients.now }
{
    let mut rest = clients;
    while let Some((watched, after)) = rest.split_first() {
        closes.push_reserved(watched.client);
        rest = after;
    }
}
