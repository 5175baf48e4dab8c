//! Laws of the definitions, for the layers above: a call brings its clauses into their proofs.
ghost use Rattle.std.specs.Prelude.{◌≡◌, ◌≢◌, ◌⊎◌, ◌≤◌, ◌∷◌, ℕ, Bool, List, [], Option, Some, None, true, false, IfSome, IsSome};
ghost use Rattle.std.specs.List.{AllByRecursion};
ghost use Rattle.daemon_core.specs.Full.{brings_room};
ghost use Rattle.daemon_core.specs.Kill.{ends_daemon};
ghost use Rattle.daemon_core.specs.Leaving.{missing, still_there, there, ClosesNoOther};
ghost use Rattle.daemon_core.specs.Pictures.{told_for};
ghost use Rattle.daemon_core.specs.Quiet.{is_quiet, NobodyIsDue};
ghost use Rattle.daemon_core.specs.Replay.{Entry, stepped, replay, moments, reply};
ghost use Rattle.daemon_core.specs.Running.{has_song, AreConnected};
ghost use Rattle.daemon_core.specs.Session.{numbers_of};
ghost use Rattle.daemon_core.specs.State.{State, clocked};
ghost use Rattle.daemon_core.specs.Step.{Stepped, is_noidle, reads_picture, step};
ghost use Rattle.daemon_core.specs.Stray.{is_stray, stays};
ghost use Rattle.daemon_core.specs.Unchanged.{LeavesSaved};
ghost use Rattle.daemon_core.specs.declared.event.Event.{Event};
ghost use Rattle.daemon_core.specs.declared.event.Event.TheVariants as events;
ghost use Rattle.daemon_core.specs.declared.picture.PictureTold.{PictureTold};
ghost use Rattle.idle_masks.specs.Watched.{watched};
ghost use Rattle.command_text.specs.declared.request.Request.{Request};
ghost use Rattle.machine_core.specs.Keeping.{when_resumed};
ghost use Rattle.machine_core.specs.Looks.{max_looks};
ghost use Rattle.machine_core.specs.Restart.{GoesOnAs, HasSoundPlace};
ghost use Rattle.machine_core.specs.Sound.{IsIn, AreOwn, IsWithinSong};
ghost use Rattle.machine_core.specs.State.{lacks_room, started};
ghost use Rattle.machine_core.specs.declared.clock.ClockTime.{ClockTime};
ghost use Rattle.profile.specs.declared.profile.Profile.TheVariants.{Wide};
ghost use Rattle.state_codec.specs.SavedState.{SavedState, IsSavedState};

/// Along any history the outputs of each event are the reply that the history gives: its own client's answer, and for
/// each waiting client what is pending for it by what happened so far.
pub fn outputs_are_replies()
    ensures { (kept : SavedState) (earlier : List Entry) (entry : Entry)
        → (stepped (replay kept earlier) entry).outputs ≡ reply kept earlier entry }
{}

/// What an event did to pending subsystems by the history, whom it told what among that, is what its step did.
pub fn moments_are_the_steps()
    ensures { (kept : SavedState) (earlier : List Entry) (entry : Entry)
        → moments kept (entry ∷ earlier) ≡ (stepped (replay kept earlier) entry).moment ∷ moments kept earlier }
{}

/// A step names the place of refused memory that it was given where it comes to that command. Where it ends before, the place
/// makes no difference, and it names none.
pub fn refused_place_is_reached()
    ensures reached { (s : State) (event : Event) (refused : Option ℕ)
        → ((step s event refused).refused_at ≡ refused) ⊎ (step s event refused ≡ step s event None) }
    ensures none { (s : State) (event : Event) → (step s event None).refused_at ≡ None }
{}

/// No event counts as looking at more than the wide profile lets one request look at.
pub fn event_looks_within_the_limit()
    ensures { (s : State) (event : Event) (refused : Option ℕ) → (step s event refused).looks ≤ max_looks }
{}

/// After any history no client waits for a subsystem that is pending for it: neither by what the state keeps nor by what happened.
pub fn nobody_waits_for_what_is_pending()
    ensures kept { (kept : SavedState) (history : List Entry) → is_quiet (replay kept history).clients ≡ true }
    ensures told { (kept : SavedState) (history : List Entry)
        → NobodyIsDue (moments kept history) (replay kept history).clients }
{}

/// After any history a second connect, an event of a client that is not connected, a report of the output by another ticket or
/// to a stopped player, and an event of a job that doesn't run leave the state as it is, and give nothing out.
pub fn stray_events_do_nothing()
    ensures { (kept : SavedState) (history : List Entry) (entry : Entry) → is_stray (replay kept history) entry.event ≡ true
        → stepped (replay kept history) entry ≡ stays (replay kept history) }
{}

/// After any history a clock's event gives nothing out, makes no op, and changes nothing but the time.
pub fn a_clock_tells_the_time_alone()
    ensures { (kept : SavedState) (history : List Entry) (time : ClockTime) (refused : Option ℕ)
        → step (replay kept history) (events.Clock time) refused ≡ stays (clocked time (replay kept history)) }
{}

/// What was read of a picture for a connected client is kept for it alone, in the place of what was read before, and nothing else comes of
/// it. The next lines that the client asks use it up, whether they tell it or not.
pub fn a_picture_is_told_once()
    ensures silent { (kept : SavedState) (history : List Entry) (c : ℕ) (told : PictureTold) (refused : Option ℕ)
        → step (replay kept history) (events.Picture c told) refused ≡ stays (reads_picture c told (replay kept history)) }
    ensures read { (s : State) (c : ℕ) (told : PictureTold) → IsSome (watched s.clients c)
        → told_for (reads_picture c told s).pictures c ≡ Some told }
    ensures other { (s : State) (c d : ℕ) (told : PictureTold) → c ≢ d
        → told_for (reads_picture c told s).pictures d ≡ told_for s.pictures d }
    ensures used { (s : State) (c : ℕ) (request : Request) (refused : Option ℕ) → IsSome (watched s.clients c)
        → is_noidle request ≡ false → told_for (step s (events.Request c request) refused).after.pictures c ≡ None }
{}

/// After any history an event closes those that were connected before it, didn't go by themselves and aren't connected after it,
/// by rising number; and those stay that were or have come and are not closed. Where the daemon goes on, none is closed but the one
/// that asks.
pub fn closed_clients_are_those_that_leave()
    ensures closed { (kept : SavedState) (history : List Entry) (entry : Entry)
        → (stepped (replay kept history) entry).closes ≡ missing
        (numbers_of (still_there entry.event (replay kept history).clients))
        (numbers_of (stepped (replay kept history) entry).after.clients) }
    ensures stay { (kept : SavedState) (history : List Entry) (entry : Entry)
        → numbers_of (stepped (replay kept history) entry).after.clients ≡ missing
        (numbers_of (there entry.event (replay kept history).clients))
        (stepped (replay kept history) entry).closes }
    ensures own { (s : State) (event : Event) (refused : Option ℕ) → (step s event refused).ended ≡ false
        → ClosesNoOther event (step s event refused).closes }
{}

/// The daemon ends exactly at a request, of a client that is connected and doesn't wait, that comes to `kill`. Then no client is
/// connected any more.
pub fn daemon_ends_at_kill()
    ensures nobody { (s : State) (event : Event) (refused : Option ℕ) → (step s event refused).ended ≡ true
        → (step s event refused).after.clients ≡ [] }
    ensures kill { (s : State) (event : Event) (refused : Option ℕ) → (step s event refused).ended ≡ ends_daemon s event refused }
{}

/// After any history each client that has channels, or messages that it hasn't read, is connected.
pub fn listeners_are_connected()
    ensures { (kept : SavedState) (history : List Entry)
        → AreConnected (replay kept history).clients (replay kept history).messages }
{}

/// After any history that began with a stopped player, as each does, a song is current in play and in pause.
pub fn playing_player_has_a_song()
    ensures { (kept : SavedState) (history : List Entry) → has_song (replay kept history).machine.player ≡ true }
{}

/// After any history the current song stands in the queue, and so do the played ones, each of which stands once among them; without random
/// none is played.
pub fn player_is_sound()
    ensures current { (kept : SavedState) (history : List Entry) → let m = (replay kept history).machine in
        IfSome m.player.current (IsIn m.saved.queue.entries) }
    ensures played { (kept : SavedState) (history : List Entry) → let m = (replay kept history).machine in
        AllByRecursion (IsIn m.saved.queue.entries) m.player.played }
    ensures once { (kept : SavedState) (history : List Entry) → AreOwn (replay kept history).machine.player.played }
    ensures without_random { (kept : SavedState) (history : List Entry) → let m = (replay kept history).machine in
        m.saved.options.random ≡ false → m.player.played ≡ [] }
{
    machine_core::laws::player_stays_sound();
}

/// After any history of a state that could be saved the frame position is at most the frames of the song that is current.
pub fn frame_is_within_the_song()
    ensures { (kept : SavedState) (history : List Entry) → IsSavedState kept → IsWithinSong (replay kept history).machine }
{
    machine_core::laws::frame_stays_within_the_song();
}

/// After any history of a state of the wide profile whose place was sound, as a fresh one's is, the place is sound; and where a song was
/// started in that history, or gone on with, and the journal's disk has room, the next life goes on with the player's song and round.
pub fn a_restart_goes_on()
    ensures sound { (kept : SavedState) (history : List Entry) → IsSavedState kept → kept.profile ≡ Wide → HasSoundPlace kept
        → HasSoundPlace (replay kept history).machine.saved }
    ensures goes_on { (kept : SavedState) (history : List Entry) (plays : Bool) → IsSavedState kept → kept.profile ≡ Wide
        → HasSoundPlace kept → let m = (replay kept history).machine in lacks_room m ≡ false → m.player.ticket ≢ 0
        → GoesOnAs plays m.player (when_resumed plays (started m.saved)).after.player }
{
    machine_core::laws::kept_place_stays_in_step();
    machine_core::laws::a_restart_goes_on();
}

/// Without room an event makes no op and leaves the saved half as it is; what tells that room is there again makes those that bring the
/// kept place to where the player is.
pub fn without_room_nothing_saved()
    ensures saved { (s : State) (event : Event) (refused : Option ℕ) → lacks_room s.machine ≡ true → brings_room event ≡ false
        → (step s event refused).after.machine.saved ≡ s.machine.saved }
    ensures ops { (s : State) (event : Event) (refused : Option ℕ) → lacks_room s.machine ≡ true → brings_room event ≡ false
        → (step s event refused).ops ≡ [] }
    ensures lasts { (s : State) (event : Event) (refused : Option ℕ) → lacks_room s.machine ≡ true → brings_room event ≡ false
        → lacks_room (step s event refused).after.machine ≡ true }
    ensures told { (s : State) (is_there : Bool) (refused : Option ℕ)
        → (step s (events.Room is_there) refused).after.machine.has_room ≡ is_there }
{
    machine_core::laws::without_room_nothing_saved();
}

/// An event makes no op exactly where nothing that is saved changes at any turn of it: no command of its request that is run changes the
/// saved half, nor does what follows the end of its song, and no change of its batch changes a row.
pub fn no_op_without_a_change()
    ensures none { (s : State) (event : Event) (refused : Option ℕ) → IsSavedState s.machine.saved → LeavesSaved s event refused
        → (step s event refused).ops ≡ [] }
    ensures same { (s : State) (event : Event) (refused : Option ℕ) → (step s event refused).ops ≡ [] → LeavesSaved s event refused }
{
    machine_core::laws::no_op_without_a_change();
    machine_core::laws::no_op_of_an_event_without_a_change();
}
