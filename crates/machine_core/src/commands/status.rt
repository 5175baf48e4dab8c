// `status`.
ghost use Rattle.std.specs.Prelude.{◌≡◌, ◌++◌, option_and_then};
ghost use Rattle.command_text.specs.Answer.{Adds};
ghost use Rattle.command_text.specs.AnswerSetup.{setup_status};
ghost use Rattle.command_text.specs.AnswerStatus.{current_lines, played_lines, status_lines};
ghost use Rattle.command_text.specs.declared.command.settings.SettingsCommand.TheVariants.{Status};
ghost use Rattle.machine_core.specs.Settings.{running_job, settings_meaning, song_at, status_of};
ghost use Rattle.machine_core.specs.State.{shown_of};
ghost use Rattle.machine_core.specs.Work.{Performs};

use crate::job::Job;
use crate::machine::Machine;
use crate::work::{Failure, Work};
use command_text::{CurrentSong, NoMemory, StatusLines, write_setup_status, write_status};
use player_core::Shown;

fn running_job(job: &Job) -> Option<u32>
    ensures { result ≡ running_job job.now }
{
    if job.runs { Some(job.number) } else { None }
}

impl Machine {
    // What is shown of the current song and the next one is kept, so that the next `status` draws no word for it.
    pub(super) fn write_status_lines(&mut self, work: &mut Work) -> Result<(), Failure>
        ensures { Performs (settings_meaning Status self.old) self.old self.new work.old work.new result }
    {
        let settings = self.settings();
        let entries = self.saved.queue().entries();
        let shown = self.kept.look(&self.player, entries, &settings);
        let mark = work.text.len();
        let written = self.put_all_status(&mut work.text, shown);
        work.keep(mark, written)
    }

    // The lines of the state, and in the wide profile of what the daemon is set up with.
    fn put_all_status(&self, out: &mut Vec<u8>, shown: Shown) -> Result<(), NoMemory>
        requires { shown ≡ shown_of self.now }
        ensures { Adds (status_lines (status_of self.now) ++ setup_status self.now.saved.profile) result out.old out.new }
    {
        self.put_status(out, shown)?;
        write_setup_status(out, self.saved.profile())
    }

    fn put_status(&self, out: &mut Vec<u8>, shown: Shown) -> Result<(), NoMemory>
        requires { shown ≡ shown_of self.now }
        ensures { Adds (status_lines (status_of self.now)) result out.old out.new }
    {
        let saved = &self.saved;
        let status = StatusLines {
            volume: saved.volume(),
            options: saved.options(),
            version: saved.queue().version(),
            length: saved.queue().len(),
            state: self.player.state(),
            current: self.song_shown(shown.current),
            next: shown.next,
            job: running_job(&self.job),
            error: self.player.error(),
            is_unread: self.clock.is_unread,
        };
        write_status(out, &status)
    }

    // The entry at a position, as the current song.
    fn song_shown(&self, position: Option<usize>) -> Option<CurrentSong<'_>>
        ensures place { current_lines result ≡ current_lines (option_and_then (song_at self.now) position) }
        ensures played { played_lines result ≡ played_lines (option_and_then (song_at self.now) position) }
    {
        let position = position?;
        let entry = self.saved.queue().get(position)?;
        let Ok(row) = self.saved.songs().row_of(entry.uri) else {
            return None;
        };
        Some(CurrentSong {
            position,
            id: entry.id,
            frame: self.player.frame(),
            row,
        })
    }
}
