// The commands of the player.
ghost use Rattle.std.specs.Prelude.{◌≡◌, true, None};
ghost use Rattle.command_text.specs.Answer.{Adds};
ghost use Rattle.command_text.specs.declared.command.playing.PlayingCommand.TheVariants.{CurrentSong};
ghost use Rattle.player_core.specs.Commands.{halted, paused, previous_one};
ghost use Rattle.player_core.specs.Seek.{sought_here};
ghost use Rattle.machine_core.specs.Entries.{shown_info};
ghost use Rattle.machine_core.specs.Memory.{playing_takes_memory};
ghost use Rattle.machine_core.specs.Playing.{playing_meaning};
ghost use Rattle.machine_core.specs.State.{settings_of, shown_of};
ghost use Rattle.machine_core.specs.Steps.{step_in, moves, puts, named_length, current_length};
ghost use Rattle.machine_core.specs.Work.{HasRoom, Performs, command_room};
ghost use Rattle.machine_core.specs.declared.steps.PlayerStep.TheVariants.{Seek as SeekTo};

use crate::answer_entries::write_position;
use crate::machine::Machine;
use crate::steps::PlayerStep;
use crate::told::failure_of;
use crate::work::{Failure, Work};
use command_text::{NoMemory, PlayingCommand, TagMask};
use player_core::{SeekTime, Selector, Shown};
use std::alloc::Global;

impl Machine {
    #[tactic(auto, unfolding(crate::specs::Playing::playing_meaning))]
    pub(super) fn perform_playing(
        &mut self,
        alloc: Global,
        mask: TagMask,
        command: PlayingCommand,
        work: &mut Work,
    ) -> Result<(), Failure>
        requires { HasRoom command_room work.old }
        ensures performs { Performs (playing_meaning mask command self.old) self.old self.new work.old work.new result }
        ensures memory { result ≡ Err Failure.NoMemory → playing_takes_memory command ≡ true }
    {
        match command {
            PlayingCommand::ClearError => self.clear_error(),
            PlayingCommand::CurrentSong => return self.write_current_song(mask, work),
            PlayingCommand::Next => return self.make_step(alloc, PlayerStep::Next, work),
            PlayingCommand::Pause(switch) => self.pause(switch),
            PlayingCommand::Play(None) => return self.make_step(alloc, PlayerStep::Resume, work),
            PlayingCommand::Play(Some(selector)) => {
                return self.make_step(alloc, PlayerStep::Play(selector), work);
            }
            PlayingCommand::Previous => return self.previous(work),
            PlayingCommand::Seek(selector, milliseconds) => {
                return self.seek(alloc, selector, milliseconds, work);
            }
            PlayingCommand::SeekCurrent(time) => return self.seek_current(time, work),
            PlayingCommand::Stop => self.stop(),
        }
        Ok(())
    }

    fn seek(
        &mut self,
        alloc: Global,
        selector: Selector,
        milliseconds: u32,
        work: &mut Work,
    ) -> Result<(), Failure>
        requires { HasRoom command_room work.old }
        ensures { Performs (moves (step_in (SeekTo selector (named_length selector self.old) milliseconds) self.old) self.old)
            self.old self.new work.old work.new result }
    {
        let song = self.named_length(selector);
        self.make_step(alloc, PlayerStep::Seek(selector, song, milliseconds), work)
    }

    fn previous(&mut self, work: &mut Work) -> Result<(), Failure>
        requires { HasRoom command_room work.old }
        ensures { Performs (puts (previous_one self.old.saved.queue.entries (settings_of self.old.saved) self.old.player) self.old)
            self.old self.new work.old work.new result }
    {
        let settings = self.settings();
        let entries = self.saved.queue().entries();
        if let Err(error) = self.player.previous(entries, &settings) {
            return Err(failure_of(error));
        }
        self.kept.forget();
        Ok(())
    }

    fn seek_current(&mut self, time: SeekTime, work: &mut Work) -> Result<(), Failure>
        requires { HasRoom command_room work.old }
        ensures { Performs (puts (sought_here (settings_of self.old.saved) (current_length self.old) time self.old.player) self.old)
            self.old self.new work.old work.new result }
    {
        let settings = self.settings();
        let song = self.current_length();
        if let Err(error) = self.player.seek_current(&settings, song, time) {
            return Err(failure_of(error));
        }
        self.kept.forget();
        Ok(())
    }

    // In each of these the current song and what was played stay, so what is kept of the next song stays right.

    fn clear_error(&mut self)
        ensures { self.new ≡ record self.old { player = record self.old.player { error = None } } }
    {
        self.player.clear_error();
    }

    fn pause(&mut self, switch: Option<bool>)
        ensures { self.new ≡ record self.old { player = record self.old.player { state = paused switch self.old.player.state } } }
    {
        self.player.pause(switch);
    }

    fn stop(&mut self)
        ensures { self.new ≡ record self.old { player = halted self.old.player.state self.old.player } }
    {
        self.player.stop();
    }

    // `currentsong`: the entry that is current, if one is. What is shown of it is kept.
    fn write_current_song(&mut self, mask: TagMask, work: &mut Work) -> Result<(), Failure>
        ensures { Performs (playing_meaning mask CurrentSong self.old) self.old self.new work.old work.new result }
    {
        let settings = self.settings();
        let entries = self.saved.queue().entries();
        let shown = self.kept.look(&self.player, entries, &settings);
        let mark = work.text.len();
        let written = self.put_current(&mut work.text, mask, shown);
        work.keep(mark, written)
    }

    fn put_current(&self, out: &mut Vec<u8>, mask: TagMask, shown: Shown) -> Result<(), NoMemory>
        requires { shown ≡ shown_of self.now }
        ensures { Adds (shown_info mask self.now.saved (shown_of self.now).current) result out.old out.new }
    {
        match shown.current {
            Some(position) => write_position(out, mask, &self.saved, position),
            None => Ok(()),
        }
    }
}
