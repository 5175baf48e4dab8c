//! Laws of the definitions, for the layers above: a call brings its clauses into their proofs.
ghost use Rattle.std.specs.Prelude.{◌≡◌, ◌≢◌, ◌↔◌, ◌+◌, ◌-◌, ◌<◌, ◌≤◌, ℕ, Bool, true, false, List, [], length};
ghost use Rattle.std.specs.Prelude.{min, Ok, Err, Some, IsOk, ◌∷◌, ◌++◌};
ghost use Rattle.std.specs.Prelude.{drop, Option, ◌==◌};
ghost use Rattle.std.specs.List.{list_any};
ghost use Rattle.command_text.specs.declared.command.Command.{Command};
ghost use Rattle.command_text.specs.declared.refusal.CommandRefusal.TheVariants.{BadIndex, DiskFull};
ghost use Rattle.command_text.specs.declared.tag_mask.TagMask.{TagMask};
ghost use Rattle.profile.specs.declared.profile.Profile.TheVariants.{Named};
ghost use Rattle.song_db.specs.declared.change.RowChange.{RowChange};
ghost use Rattle.state_codec.specs.Applied.{all_applied};
ghost use Rattle.state_codec.specs.OpsSongs.{uris_at};
ghost use Rattle.state_codec.specs.SavedState.{IsSavedState};
ghost use Rattle.state_codec.specs.declared.op.Op.TheVariants.{List as OfLists};
ghost use Rattle.state_codec.specs.declared.op.list_op.ListOp.TheVariants.{Add};
ghost use Rattle.stored_lists.specs.Lists.{songs_of};
ghost use Rattle.stored_lists.specs.Name.{is_good_name};
ghost use Rattle.stored_lists.specs.Songs.{Uris};
ghost use Rattle.machine_core.specs.Command.{meaning};
ghost use Rattle.machine_core.specs.Database.{asked, begins_job, next_number};
ghost use Rattle.machine_core.specs.Front.{SameFront, front_of, longest_answer};
ghost use Rattle.machine_core.specs.Keeping.{kept, kept_event, when_kept, when_resumed};
ghost use Rattle.machine_core.specs.ListMoves.{adds_songs_at, moves_songs, puts_in, with_block_at, with_songs_at};
ghost use Rattle.machine_core.specs.Meaning.{Meaning, Meant, edits};
ghost use Rattle.machine_core.specs.Missing.{after_withheld, again_seconds, asked_at, is_withheld, when_missed};
ghost use Rattle.machine_core.specs.Reports.{when_broken, when_ended, when_fed};
ghost use Rattle.machine_core.specs.Restart.{GoesOnAs, IsKeptMachine, IsSoundPlace, IsThere};
ghost use Rattle.machine_core.specs.Room.{SavesNothing, under_room, when_room};
ghost use Rattle.machine_core.specs.Scanning.{hears_in, is_running, jobs_of, kept_changes, spared, telling, when_found, when_scanned};
ghost use Rattle.machine_core.specs.Sound.{IsSound, IsSoundMachine};
ghost use Rattle.machine_core.specs.Spans.{count_of};
ghost use Rattle.machine_core.specs.State.{MachineState, lacks_room, started, told_time};
ghost use Rattle.machine_core.specs.Steps.{current_length};
ghost use Rattle.machine_core.specs.declared.clock.ClockTime.{ClockTime};
ghost use Rattle.machine_core.specs.declared.span.Span.{Span};
ghost use Rattle.player_core.specs.Place.{PlaceState};
ghost use Rattle.player_core.specs.declared.failure.BrokenCause.{BrokenCause};

/// The ops of a command, applied to the saved half before it, give the saved half after it.
pub fn ops_rebuild_the_state()
    ensures { (mask : TagMask) (command : Command) (m : MachineState) (x : Meaning) → kept m (meaning mask command m) ≡ Ok x
        → all_applied x.ops m.saved ≡ Some x.after.saved }
{}

/// A command makes no op exactly where it leaves the saved half as it was.
pub fn no_op_without_a_change()
    ensures none { (mask : TagMask) (command : Command) (m : MachineState) (x : Meaning) → IsSavedState m.saved
        → kept m (meaning mask command m) ≡ Ok x → x.after.saved ≡ m.saved → x.ops ≡ [] }
    ensures same { (mask : TagMask) (command : Command) (m : MachineState) (x : Meaning)
        → kept m (meaning mask command m) ≡ Ok x → x.ops ≡ [] → x.after.saved ≡ m.saved }
{}

/// In a playlist a block stands, behind its move, at its place of the rest, and songs that are added in front of the end at theirs. A block
/// goes to each place where it fits in; what is past the end is refused.
pub fn songs_go_to_their_place()
    ensures block { (name : List ℕ) (block : Span) (to : ℕ) (songs : Uris) (m : MachineState) (x : Meaning) → is_good_name name ≡ true
        → songs_of m.saved.lists name ≡ Some songs → block.start ≤ block.end → block.end ≤ length songs
        → moves_songs name block to (length songs) m ≡ Ok x → songs_of x.after.saved.lists name ≡ Some (with_block_at songs block to) }
    ensures taken { (name : List ℕ) (block : Span) (to : ℕ) (songs : Uris) (m : MachineState) → is_good_name name ≡ true
        → songs_of m.saved.lists name ≡ Some songs → block.end ≤ length songs → to + count_of block ≤ length songs
        → IsOk (moves_songs name block to (length songs) m) }
    ensures refused { (name : List ℕ) (block : Span) (to count : ℕ) (m : MachineState) → count - count_of block < to
        → moves_songs name block to count m ≡ Err BadIndex }
    ensures added { (name : List ℕ) (at : ℕ) (songs : Uris) (m : MachineState) (x : Meaning)
        → songs_of m.saved.lists name ≡ Some songs → at < length songs → (rows : List ℕ) → puts_in name rows at (length songs) m ≡ Ok x
        → songs_of x.after.saved.lists name ≡ Some (with_songs_at songs (uris_at m.saved.songs rows) at) }
    ensures at_the_end { (name rows : List ℕ) (end : ℕ) (m : MachineState)
        → adds_songs_at name rows end end m ≡ edits (OfLists (Add name rows)) [] m }
    ensures past_the_end { (name rows : List ℕ) (at end : ℕ) (m : MachineState) → end < at
        → adds_songs_at name rows at end m ≡ Err BadIndex }
{}

/// The end of a song makes no op exactly where it leaves the saved half as it was, and so does its failure; a batch of the job that runs
/// makes none exactly where no change of it that the profile keeps, beside one that drops the song that is heard, changes a row at its
/// turn.
pub fn no_op_of_an_event_without_a_change()
    ensures none { (ticket : ℕ) (m : MachineState) → IsSavedState m.saved
        → (kept_event m (when_ended ticket m)).after.saved ≡ m.saved → (kept_event m (when_ended ticket m)).ops ≡ [] }
    ensures same { (ticket : ℕ) (m : MachineState) → (kept_event m (when_ended ticket m)).ops ≡ []
        → (kept_event m (when_ended ticket m)).after.saved ≡ m.saved }
    ensures broken_none { (ticket : ℕ) (cause : BrokenCause) (m : MachineState) → IsSavedState m.saved
        → (kept_event m (when_broken ticket cause m)).after.saved ≡ m.saved → (kept_event m (when_broken ticket cause m)).ops ≡ [] }
    ensures broken_same { (ticket : ℕ) (cause : BrokenCause) (m : MachineState) → (kept_event m (when_broken ticket cause m)).ops ≡ []
        → (kept_event m (when_broken ticket cause m)).after.saved ≡ m.saved }
    ensures found { (job : ℕ) (changes : List RowChange) (m : MachineState) → is_running job m ≡ true → lacks_room m ≡ false
        → ((kept_event m (when_found job changes m)).ops ≡ []
        ↔ telling m.saved.songs (kept_changes m.saved.profile (spared m changes)) ≡ []) }
    ensures kept_none { (ticket : ℕ) (m : MachineState) → IsSavedState m.saved
        → (when_kept ticket m).after.saved ≡ m.saved → (when_kept ticket m).ops ≡ [] }
    ensures kept_same { (ticket : ℕ) (m : MachineState) → (when_kept ticket m).ops ≡ [] → (when_kept ticket m).after.saved ≡ m.saved }
    ensures told_none { (is_there : Bool) (m : MachineState) → IsSavedState m.saved
        → (when_room is_there m).after.saved ≡ m.saved → (when_room is_there m).ops ≡ [] }
    ensures told_same { (is_there : Bool) (m : MachineState) → (when_room is_there m).ops ≡ []
        → (when_room is_there m).after.saved ≡ m.saved }
{}

/// Under the wide profile a batch doesn't take the song away that plays or is in pause: the player stays with it. Where none does, each
/// change is made.
pub fn heard_song_stays()
    ensures current { (job : ℕ) (changes : List RowChange) (m : MachineState) → hears_in m.saved.profile m.player.state ≡ true
        → (kept_event m (when_found job changes m)).after.player.current ≡ m.player.current }
    ensures state { (job : ℕ) (changes : List RowChange) (m : MachineState) → hears_in m.saved.profile m.player.state ≡ true
        → (kept_event m (when_found job changes m)).after.player.state ≡ m.player.state }
    ensures ticket { (job : ℕ) (changes : List RowChange) (m : MachineState) → hears_in m.saved.profile m.player.state ≡ true
        → (kept_event m (when_found job changes m)).after.player.ticket ≡ m.player.ticket }
    ensures all { (changes : List RowChange) (m : MachineState) → hears_in m.saved.profile m.player.state ≡ false
        → spared m changes ≡ changes }
{}

/// An answer that a session takes is given out as it is meant, and of a longer one so much that no session takes it.
pub fn answers_that_are_sent_are_whole()
    ensures whole { (text : List ℕ) → length text ≤ longest_answer → front_of text ≡ text }
    ensures same { (text meant : List ℕ) → SameFront text meant → length meant ≤ longest_answer → text ≡ meant }
    ensures too_long { (text : List ℕ) → longest_answer < length text → longest_answer < length (front_of text) }
{}

/// Without room nothing that is saved changes: a command that goes well makes no op, nor does the end of a song, its failure or a batch,
/// and nothing is kept.
pub fn without_room_nothing_saved()
    ensures command { (mask : TagMask) (command : Command) (m : MachineState) (x : Meaning) → lacks_room m ≡ true
        → kept m (under_room m (meaning mask command m)) ≡ Ok x → (x.ops ≡ []) × (x.after.saved ≡ m.saved) }
    ensures refused { (m : MachineState) (x : Meaning) → lacks_room m ≡ true → x.ops ≢ [] → under_room m (Ok x) ≡ Err DiskFull }
    ensures same { (m : MachineState) (meant : Meant) → lacks_room m ≡ false → under_room m meant ≡ meant }
    ensures ended { (ticket : ℕ) (m : MachineState) → lacks_room m ≡ true
        → SavesNothing m (kept_event m (when_ended ticket m)) }
    ensures broken { (ticket : ℕ) (cause : BrokenCause) (m : MachineState) → lacks_room m ≡ true
        → SavesNothing m (kept_event m (when_broken ticket cause m)) }
    ensures found { (job : ℕ) (changes : List RowChange) (m : MachineState) → lacks_room m ≡ true
        → SavesNothing m (kept_event m (when_found job changes m)) }
    ensures kept_at { (ticket : ℕ) (m : MachineState) → lacks_room m ≡ true → SavesNothing m (when_kept ticket m) }
    ensures gone { (m : MachineState) → SavesNothing m (when_room false m) }
    ensures never_named { (m : MachineState) → m.saved.profile ≡ Named → lacks_room m ≡ false }
{}

/// A command, a report of the output and an event of a scan keep the player sound: the current song stands in the queue, and so do the
/// played ones, each of which stands once; without random none is played.
pub fn player_stays_sound()
    ensures command { (mask : TagMask) (command : Command) (m : MachineState) (x : Meaning) → IsSound m
        → kept m (meaning mask command m) ≡ Ok x → IsSound x.after }
    ensures fed { (ticket frames : ℕ) (m : MachineState) → IsSound m → IsSound (when_fed ticket frames m).after }
    ensures ended { (ticket : ℕ) (m : MachineState) → IsSound m → IsSound (kept_event m (when_ended ticket m)).after }
    ensures broken { (ticket : ℕ) (cause : BrokenCause) (m : MachineState) → IsSound m
        → IsSound (kept_event m (when_broken ticket cause m)).after }
    ensures found { (job : ℕ) (changes : List RowChange) (m : MachineState) → IsSound m
        → IsSound (kept_event m (when_found job changes m)).after }
    ensures scanned { (job : ℕ) (m : MachineState) → IsSound m → IsSound (when_scanned job m).after }
    ensures missed { (job missing : ℕ) (m : MachineState) → IsSound m → IsSound (when_missed job missing m).after }
    ensures kept_at { (ticket : ℕ) (m : MachineState) → IsSound m → IsSound (when_kept ticket m).after }
    ensures resumed { (plays : Bool) (m : MachineState) → IsSound m → IsSound (when_resumed plays m).after }
    ensures told { (is_there : Bool) (m : MachineState) → IsSound m → IsSound (when_room is_there m).after }
{}

/// A command, a report of the output and an event of a scan keep the frame position within the song that is current, beside a queue and a
/// sound player.
pub fn frame_stays_within_the_song()
    ensures command { (mask : TagMask) (command : Command) (m : MachineState) (x : Meaning) → IsSoundMachine m
        → kept m (meaning mask command m) ≡ Ok x → IsSoundMachine x.after }
    ensures fed { (ticket frames : ℕ) (m : MachineState) → IsSoundMachine m → IsSoundMachine (when_fed ticket frames m).after }
    ensures ended { (ticket : ℕ) (m : MachineState) → IsSoundMachine m → IsSoundMachine (kept_event m (when_ended ticket m)).after }
    ensures broken { (ticket : ℕ) (cause : BrokenCause) (m : MachineState) → IsSoundMachine m
        → IsSoundMachine (kept_event m (when_broken ticket cause m)).after }
    ensures found { (job : ℕ) (changes : List RowChange) (m : MachineState) → IsSoundMachine m
        → IsSoundMachine (kept_event m (when_found job changes m)).after }
    ensures scanned { (job : ℕ) (m : MachineState) → IsSoundMachine m → IsSoundMachine (when_scanned job m).after }
    ensures missed { (job missing : ℕ) (m : MachineState) → IsSoundMachine m → IsSoundMachine (when_missed job missing m).after }
    ensures kept_at { (ticket : ℕ) (m : MachineState) → IsSoundMachine m → IsSoundMachine (when_kept ticket m).after }
    ensures resumed { (plays : Bool) (m : MachineState) → IsSoundMachine m → IsSoundMachine (when_resumed plays m).after }
    ensures told { (is_there : Bool) (m : MachineState) → IsSoundMachine m → IsSoundMachine (when_room is_there m).after }
{}

/// Under the wide profile a command, a report of the output and an event of a scan leave the kept place sound, and in step with the player
/// where there is room for what changes, beside a queue and a sound player.
pub fn kept_place_stays_in_step()
    ensures command { (mask : TagMask) (command : Command) (m : MachineState) (x : Meaning) → IsKeptMachine m
        → kept m (under_room m (meaning mask command m)) ≡ Ok x → IsKeptMachine x.after }
    ensures fed { (ticket frames : ℕ) (m : MachineState) → IsKeptMachine m → IsKeptMachine (when_fed ticket frames m).after }
    ensures ended { (ticket : ℕ) (m : MachineState) → IsKeptMachine m → IsKeptMachine (kept_event m (when_ended ticket m)).after }
    ensures broken { (ticket : ℕ) (cause : BrokenCause) (m : MachineState) → IsKeptMachine m
        → IsKeptMachine (kept_event m (when_broken ticket cause m)).after }
    ensures found { (job : ℕ) (changes : List RowChange) (m : MachineState) → IsKeptMachine m
        → IsKeptMachine (kept_event m (when_found job changes m)).after }
    ensures scanned { (job : ℕ) (m : MachineState) → IsKeptMachine m
        → IsKeptMachine (when_scanned job m).after × ((missing : ℕ) → IsKeptMachine (when_missed job missing m).after) }
    ensures clocked { (time : ClockTime) (m : MachineState) → IsKeptMachine m → IsKeptMachine (told_time time m) }
    ensures kept_at { (ticket : ℕ) (m : MachineState) → IsKeptMachine m → IsKeptMachine (when_kept ticket m).after }
    ensures resumed { (plays : Bool) (m : MachineState) → IsKeptMachine m → IsKeptMachine (when_resumed plays m).after }
    ensures told { (is_there : Bool) (m : MachineState) → IsKeptMachine m → IsKeptMachine (when_room is_there m).after }
{}

/// Where the player is at the kept place, the next life goes on with the same song and the same round.
pub fn a_restart_goes_on()
    ensures { (plays : Bool) (m : MachineState) (place : PlaceState) → IsSoundMachine m → m.saved.place ≡ Some place
        → IsSoundPlace m.saved.queue.entries m.saved.options.random place → IsThere m.player place
        → GoesOnAs plays m.player (when_resumed plays (started m.saved)).after.player }
{}

/// A restart finds the position that was kept last; where the song is shorter now, its end.
pub fn a_restart_finds_the_position()
    ensures { (plays : Bool) (m : MachineState) (place : PlaceState) (id : ℕ) → IsSoundMachine m → m.saved.place ≡ Some place
        → IsThere m.player place → m.player.current ≡ Some id
        → (when_resumed plays (started m.saved)).after.player.frame ≡ min place.frame (current_length m).frames }
{}

/// Jobs are done in the order in which they were asked for, each once and as it was asked for.
pub fn jobs_are_done_in_turn()
    ensures waits { (place : Option (List ℕ)) (all : Bool) (m : MachineState) (x : Meaning) → m.job.runs ≡ true
        → begins_job place all m ≡ Ok x → jobs_of x.after ≡ jobs_of m ++ asked (next_number m) place all ∷ [] }
    ensures ended { (job : ℕ) (m : MachineState) → is_running job m ≡ true
        → jobs_of (when_scanned job m).after ≡ drop 1 (jobs_of m) }
    ensures found { (job : ℕ) (changes : List RowChange) (m : MachineState)
        → jobs_of (kept_event m (when_found job changes m)).after ≡ jobs_of m }
{}

/// Where songs that a job misses are withheld, nothing that is saved changes, and the job is over, so that no batch of it drops one. The
/// same job, asked for again within ten minutes, goes on; so does one that opens every file.
pub fn too_many_missing_drop_nothing()
    ensures saved { (job missing : ℕ) (m : MachineState) → (when_missed job missing m).after.saved ≡ m.saved }
    ensures no_op { (job missing : ℕ) (m : MachineState) → (when_missed job missing m).ops ≡ [] }
    ensures over { (job missing : ℕ) (m : MachineState) → is_running job m ≡ true → is_withheld missing m ≡ true
        → list_any (λ next. next.number == job) m.waiting ≡ false → is_running job (when_missed job missing m).after ≡ false }
    ensures next { (job missing : ℕ) (m : MachineState) → is_running job m ≡ true → is_withheld missing m ≡ true
        → jobs_of (when_missed job missing m).after ≡ drop 1 (jobs_of m) }
    ensures again { (number missing now : ℕ) (m : MachineState) → now ≤ m.clock.now + again_seconds
        → is_withheld missing (asked_at number now m.job (after_withheld missing m)) ≡ false }
    ensures opens_all { (missing : ℕ) (m : MachineState) → m.job.opens_all ≡ true → is_withheld missing m ≡ false }
    ensures named { (missing : ℕ) (m : MachineState) → m.saved.profile ≡ Named → is_withheld missing m ≡ false }
{}
