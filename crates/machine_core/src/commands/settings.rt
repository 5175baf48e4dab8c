// The commands of the settings.
ghost use Rattle.std.specs.Prelude.{◌≡◌, true};
ghost use Rattle.machine_core.specs.Memory.{settings_take_memory};
ghost use Rattle.command_text.specs.AnswerStatus.{volume_line};
ghost use Rattle.machine_core.specs.Meaning.{says};
ghost use Rattle.machine_core.specs.Settings.{settings_meaning, stepped_volume};
ghost use Rattle.machine_core.specs.Work.{HasRoom, Performs, command_room};

use crate::machine::Machine;
use crate::work::{Failure, Work};
use command_text::{SettingsCommand, VolumeStep, write_volume};
use player_core::Volume;
use state_codec::{Op, Setting};
use std::alloc::Global;

impl Machine {
    #[tactic(auto, unfolding(crate::specs::Settings::settings_meaning))]
    pub(super) fn perform_settings(
        &mut self,
        alloc: Global,
        command: SettingsCommand,
        work: &mut Work,
    ) -> Result<(), Failure>
        requires { HasRoom command_room work.old }
        ensures performs { Performs (settings_meaning command self.old) self.old self.new work.old work.new result }
        ensures memory { result ≡ Err Failure.NoMemory → settings_take_memory command self.old ≡ true }
    {
        match command {
            SettingsCommand::ChangeVolume(step) => {
                let volume = self.stepped_volume(step);
                self.edit(alloc, Op::SetVolume(volume), work)
            }
            SettingsCommand::Close => Ok(()),
            SettingsCommand::Consume(consume) => {
                self.set_option(alloc, Setting::Consume(consume), work)
            }
            SettingsCommand::GetVolume => self.tell_volume(work),
            SettingsCommand::Kill => Ok(()),
            SettingsCommand::Ping => Ok(()),
            SettingsCommand::Random(on) => self.set_option(alloc, Setting::Random(on), work),
            SettingsCommand::Repeat(on) => self.set_option(alloc, Setting::Repeat(on), work),
            SettingsCommand::SetVolume(volume) => self.edit(alloc, Op::SetVolume(volume), work),
            SettingsCommand::Single(single) => self.set_option(
                alloc,
                Setting::Single(single),
                work,
            ),
            SettingsCommand::Status => self.write_status_lines(work),
        }
    }

    // The volume behind a step.
    fn stepped_volume(&self, step: VolumeStep) -> Volume
        ensures { result ≡ stepped_volume step self.now.saved.volume }
    {
        let percent = u32::from(self.saved.volume().percent());
        let stepped = if step.is_down {
            percent.saturating_sub(step.by)
        } else {
            percent.saturating_add(step.by).min(100)
        };
        match Volume::new(stepped as u8) {
            Some(volume) => volume,
            None => unreachable!(),
        }
    }

    // `getvol`
    fn tell_volume(&self, work: &mut Work) -> Result<(), Failure>
        ensures { Performs (says (volume_line self.now.saved.volume) self.now) self.now self.now work.old work.new result }
    {
        let mark = work.text.len();
        let written = write_volume(&mut work.text, self.saved.volume());
        work.keep(mark, written)
    }
}
