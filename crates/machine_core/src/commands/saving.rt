// `save`: the songs of the queue as a new playlist, or for one that is there.
ghost use Rattle.std.specs.Prelude.{◌≡◌, ℕ, None, Ok, [], IfOk, IfErr, OnOk, OnErr, IsOkUnless, if◌then◌else◌};
ghost use Rattle.command_text.specs.Masks.{all_in_mask};
ghost use Rattle.command_text.specs.declared.command.lists.ListsCommand.TheVariants as commands;
ghost use Rattle.command_text.specs.declared.command.lists.SaveMode.TheVariants.{Create, Append, Replace};
ghost use Rattle.profile.specs.declared.profile.Profile.{Profile};
ghost use Rattle.state_codec.specs.Applied.{after_all};
ghost use Rattle.state_codec.specs.Replacing.{replace_ops};
ghost use Rattle.machine_core.specs.Lists.{lists_meaning, replaces, replaced};
ghost use Rattle.machine_core.specs.Meaning.{stands};
ghost use Rattle.machine_core.specs.Work.{HasRoom, IsRefusalOf, Performs, command_room};

use super::lists::{list_name, songs_named};
use crate::machine::Machine;
use crate::named::numbers_of_entries;
use crate::work::{Failure, Work};
use command_text::SaveMode;
use state_codec::{ListOp, Op, Text};
use std::alloc::Global;

impl Machine {
    pub(super) fn save_queue(
        &mut self,
        alloc: Global,
        name: &str,
        mode: SaveMode,
        work: &mut Work,
    ) -> Result<(), Failure>
        requires { HasRoom command_room work.old }
        ensures { Performs (lists_meaning all_in_mask (commands.Save name.now mode) self.old) self.old self.new work.old work.new result }
    {
        match mode {
            SaveMode::Create => self.create_list(alloc, name, work),
            SaveMode::Append => self.append_to_list(alloc, name, work),
            SaveMode::Replace => self.replace_list(alloc, name, work),
        }
    }

    // A new playlist.
    fn create_list(&mut self, alloc: Global, name: &str, work: &mut Work) -> Result<(), Failure>
        requires { HasRoom command_room work.old }
        ensures { Performs (lists_meaning all_in_mask (commands.Save name.now Create) self.old) self.old self.new work.old work.new result }
    {
        let name = list_name(alloc, name)?;
        self.edit(alloc, Op::List(ListOp::Save { name }), work)
    }

    // The songs of the queue at the end of a playlist that is there.
    fn append_to_list(&mut self, alloc: Global, name: &str, work: &mut Work) -> Result<(), Failure>
        requires { HasRoom command_room work.old }
        ensures { Performs (lists_meaning all_in_mask (commands.Save name.now Append) self.old) self.old self.new work.old work.new result }
    {
        songs_named(self.saved.lists(), name)?;
        let entries = self.saved.queue().entries();
        let rows = numbers_of_entries(alloc, self.saved.songs(), entries)?;
        let name = list_name(alloc, name)?;
        self.edit(alloc, Op::List(ListOp::Add { name, rows }), work)
    }

    // The songs of the queue in place of those of a playlist that is there.
    fn replace_list(&mut self, alloc: Global, name: &str, work: &mut Work) -> Result<(), Failure>
        requires { HasRoom command_room work.old }
        ensures { Performs (lists_meaning all_in_mask (commands.Save name.now Replace) self.old) self.old self.new work.old work.new
            result }
    {
        let name = list_name(alloc, name)?;
        self.replace_songs(alloc, &name, work)
    }

    // One change of two ops: the playlist goes, and is saved anew.
    fn replace_songs(&mut self, alloc: Global, name: &Text, work: &mut Work) -> Result<(), Failure>
        requires { HasRoom command_room work.old }
        ensures { Performs (replaces name.now self.old) self.old self.new work.old work.new result }
    {
        if !self.would_replace(name.as_str())? {
            return Ok(());
        }
        let gone = Op::List(ListOp::Drop {
            name: name.try_clone(alloc)?,
        });
        let saved = Op::List(ListOp::Save {
            name: name.try_clone(alloc)?,
        });
        let profile = self.saved.profile();
        work.admit_both(profile, &gone, &saved)?;
        self.put_songs(alloc, name.as_str())?;
        work.push_both(profile, gone, saved);
        Ok(())
    }

    // Whether a playlist would have other songs than before; it is told where that is refused.
    fn would_replace(&self, name: &str) -> Result<bool, Failure>
        ensures changes { IfOk result (λ changes. replaces name.now self.now
            ≡ Ok (if changes then replaced name.now self.now else stands [] self.now)) }
        ensures refused { (profile : Profile) → (size : ℕ) → IfErr result (IsRefusalOf profile (replaces name.now self.now) size) }
    {
        let _key = self.saved.key();
        self.saved.check_replace(name)?;
        Ok(!self.saved.replaces_nothing(name))
    }

    // Puts the songs of the queue in place of those of a playlist. What is shown of the queue stays.
    fn put_songs(&mut self, alloc: Global, name: &str) -> Result<(), Failure>
        ensures ok { OnOk result (self.new ≡ record self.old { saved = after_all (replace_ops name.now) self.old.saved }) }
        ensures err { OnErr result (self.new ≡ self.old) }
        ensures memory { IsOkUnless result Failure.NoMemory }
    {
        if self.saved.replace_list(alloc, name).is_err() {
            return Err(Failure::NoMemory);
        }
        Ok(())
    }
}
