// A stage over a journal that was opened, which has the layout that its profile writes from then on.
ghost use Rattle.std.specs.Prelude.{◌≡◌, ◌+◌, ◌≤◌, true, false, length, Err, Some, IfOk, IfErr, OnOk, MatchResult, vec_capacity};
ghost use Rattle.disk_model.specs.Later.{AreLater, HasFailed};
ghost use Rattle.play_journal.specs.Calls.{SameFaults};
ghost use Rattle.state_codec.specs.Layout.{written_layout};
ghost use Rattle.live_stage.specs.Decoding.{GivesState, brought_reading};
ghost use Rattle.live_stage.specs.Errors.{IsRefusalOfMigration};
ghost use Rattle.live_stage.specs.Found.{state_of, stored_reading, brought, is_read, taken_state, AllOpenSince};
ghost use Rattle.live_stage.specs.Turns.{IsBegun, IsOver, is_old, migrated};
ghost use Rattle.live_stage.specs.Writing.{CallsDisks};

use super::Live;
use crate::checkpointing::write_snapshot;
use crate::decoding::take_state;
use crate::{Refused, StartError};
use daemon_core::Core;
use disk_model::Disk;
use play_journal::{Group, Journal, Stored};
use profile::Profile;
use state_codec::{Saved, layout_number};
use std::alloc::Global;

// The state that the files of an opened journal stand for. What was read of them is let go.
fn state_read<D: Disk>(
    alloc: Global,
    journal: &Journal<D>,
    stored: Stored,
) -> Result<Saved, StartError>
    ensures { GivesState result (stored_reading journal.now.layout stored.snapshot stored.records) }
{
    take_state(alloc, journal.layout(), &stored)
}

// A state as the profile takes it.
fn brought(alloc: Global, profile: Profile, saved: Saved) -> Result<Saved, StartError>
    ensures { GivesState result (Ok (brought profile saved)) }
{
    match profile {
        Profile::Named => Ok(saved),
        Profile::Wide => {
            let mut saved = saved;
            match saved.widen(alloc) {
                Ok(()) => Ok(saved),
                Err(_) => Err(StartError::NoMemory),
            }
        }
    }
}

// The state that the files of an opened journal stand for, as the profile takes it.
pub(super) fn state_in<D: Disk>(
    alloc: Global,
    profile: Profile,
    journal: &Journal<D>,
    stored: Stored,
) -> Result<Saved, StartError>
    ensures read { GivesState result (brought_reading profile (stored_reading journal.now.layout stored.snapshot stored.records)) }
    ensures profile { is_read profile journal.now.layout ≡ true → IfOk result (λ saved. saved.profile ≡ profile) }
{
    match state_read(alloc, journal, stored) {
        Ok(saved) => brought(alloc, profile, saved),
        Err(error) => Err(error),
    }
}

// A journal over whose files there is no stage.
pub(super) fn refused_over<D: Disk>(error: StartError, journal: Journal<D>) -> Refused<D>
    ensures error { result.error ≡ error }
    ensures a { result.a ≡ journal.a }
    ensures b { result.b ≡ journal.b }
{
    let (a, b) = journal.into_disks();
    Refused { error, a, b }
}

// Brings a journal to the layout that the profile of its state writes, by a checkpoint of the state, and says whether it did so. A journal
// of that layout stays as it is.
fn migrate<D: Disk>(journal: &mut Journal<D>, saved: &Saved) -> Result<bool, StartError>
    requires usable { journal.old.is_spent ≡ false }
    requires stands { D.honest journal.old.a → D.honest journal.old.b
        → taken_state saved.now.profile journal.old.content ≡ Some saved.now }
    ensures told { IfOk result (λ made. made ≡ is_old saved.now.profile journal.old.layout) }
    ensures layout { OnOk result ((journal.new.layout ≡ written_layout saved.now.profile) × (journal.new.is_spent ≡ false)) }
    ensures content { D.honest journal.old.a → D.honest journal.old.b
        → OnOk result (journal.new.content ≡ migrated journal.old.content saved.now) }
    ensures stands { D.honest journal.old.a → D.honest journal.old.b → OnOk result (state_of (Some journal.new.content) ≡ Some saved.now) }
    ensures last { OnOk result (journal.new.base + journal.new.count ≡ journal.old.base + journal.old.count) }
    ensures same_state { D.honest journal.old.a → D.honest journal.old.b → AllOpenSince saved.now.profile (λ f. f ≡ Some saved.now)
        (D.history journal.new.a) (length (D.history journal.old.a)) (D.history journal.new.b) (length (D.history journal.old.b)) }
    ensures refuses { IfErr result (λ e. IsRefusalOfMigration saved.now.profile journal.old e) }
    ensures disks { CallsDisks D.honest D.history D.faults journal.old journal.new StartError.Broken result }
{
    // As long as the journal isn't spent, the files say its content.
    let _spent = journal.is_spent();
    if journal.layout() == layout_number(saved.profile()) {
        return Ok(false);
    }
    if journal.generation() == u64::MAX {
        return Err(StartError::NumbersSpent);
    }
    match write_snapshot(journal, saved) {
        Ok(()) => Ok(true),
        Err(_fault) => Err(StartError::Broken),
    }
}

impl<D: Disk> Live<D> {
    // A stage over a journal in whose files this state was found. A journal of another layout than the profile of the state writes is
    // brought to that first.
    pub(super) fn over(
        alloc: Global,
        journal: Journal<D>,
        saved: Saved,
        room: Vec<u8>,
        group: Group,
    ) -> Result<Live<D>, Refused<D>>
        requires room { 2097152 ≤ vec_capacity room }
        requires usable { journal.is_spent ≡ false }
        requires stands { D.honest journal.a → D.honest journal.b → taken_state saved.profile journal.content ≡ Some saved }
        ensures begun { IfOk result (λ live. IsBegun saved live) }
        ensures over { D.honest journal.a → D.honest journal.b → IfOk result (λ live. IsOver D.history journal.content live) }
        ensures same_state { D.honest journal.a → D.honest journal.b → MatchResult result
            (λ live. AllOpenSince saved.profile (λ f. f ≡ Some saved)
            (D.history live.a) (length (D.history journal.a)) (D.history live.b) (length (D.history journal.b)))
            (λ e. AllOpenSince saved.profile (λ f. f ≡ Some saved)
            (D.history e.a) (length (D.history journal.a)) (D.history e.b) (length (D.history journal.b))) }
        ensures refuses { IfErr result (λ e. IsRefusalOfMigration saved.profile journal e.error) }
        ensures fault { MatchResult result (λ live. SameFaults D.faults journal.a journal.b live.a live.b)
            (λ e. D.honest journal.a → D.honest journal.b → e.error ≡ StartError.Broken
            → HasFailed D.faults journal.a journal.b e.a e.b) }
        ensures later { MatchResult result (λ live. AreLater D.honest D.history D.faults journal.a journal.b live.a live.b)
            (λ e. AreLater D.honest D.history D.faults journal.a journal.b e.a e.b) }
    {
        // As long as the journal isn't spent, the files say its content, with its numbers.
        let _found = journal.is_spent();
        let mut journal = journal;
        let migrated = match migrate(&mut journal, &saved) {
            Ok(migrated) => migrated,
            Err(error) => return Err(refused_over(error, journal)),
        };
        let _spent = journal.is_spent();
        Ok(Live {
            core: Core::new(alloc, saved),
            journal,
            room,
            group,
            event: 0,
            migrated,
            work: 0,
            put_off: false,
        })
    }
}
