// The commands that add songs to the queue.
ghost use Rattle.std.specs.Prelude.{◌≡◌, [], ◌∷◌, IfOk, IsOkUnless};
ghost use Rattle.std.specs.Option.{ok_or};
ghost use Rattle.command_text.specs.Masks.{all_in_mask};
ghost use Rattle.command_text.specs.AnswerSongs.{id_line};
ghost use Rattle.command_text.specs.declared.command.queue.QueueCommand.TheVariants as commands;
ghost use Rattle.command_text.specs.declared.refusal.CommandRefusal.TheVariants.{NoSuchUri};
ghost use Rattle.song_db.specs.Query.{number_at};
ghost use Rattle.state_codec.specs.declared.op.Op.TheVariants.{Queue as OfQueue};
ghost use Rattle.state_codec.specs.declared.op.queue_op.QueueOp.TheVariants.{Add};
ghost use Rattle.machine_core.specs.Meaning.{edits};
ghost use Rattle.machine_core.specs.Queue.{queue_meaning};
ghost use Rattle.machine_core.specs.Work.{HasRoom, Performs, command_room};

use crate::machine::Machine;
use crate::work::{Failure, Work};
use command_text::{CommandRefusal, Text, write_id};
use play_queue::Target;
use state_codec::{Op, QueueOp, RowNumbers};
use std::alloc::Global;

impl Machine {
    // `add`: a song, or all songs under a folder.
    #[tactic(auto, unfolding(crate::specs::Queue::queue_meaning))]
    pub(super) fn add_named(
        &mut self,
        alloc: Global,
        uri: Text<'_>,
        to: Option<Target>,
        work: &mut Work,
    ) -> Result<(), Failure>
        requires { HasRoom command_room work.old }
        ensures { Performs (queue_meaning all_in_mask (commands.Add uri.entry to) self.old) self.old self.new work.old work.new result }
    {
        let rows = self.rows_named(alloc, uri.as_str())?;
        self.add_rows(alloc, to, rows, work)
    }

    // `addid`: one song, whose id is answered.
    #[tactic(auto, unfolding(crate::specs::Queue::queue_meaning))]
    pub(super) fn add_song(
        &mut self,
        alloc: Global,
        uri: Text<'_>,
        to: Option<Target>,
        work: &mut Work,
    ) -> Result<(), Failure>
        requires { HasRoom command_room work.old }
        ensures { Performs (queue_meaning all_in_mask (commands.AddId uri.entry to) self.old) self.old self.new work.old work.new result }
    {
        let row = self.row_named(uri.as_str())?;
        let at = self.place_in(to)?;
        self.add_row(alloc, at, row, work)
    }

    // The number of a song's row.
    fn row_named(&self, uri: &str) -> Result<u32, CommandRefusal>
        ensures { result ≡ ok_or (number_at self.now.saved.songs uri.now) NoSuchUri }
    {
        let songs = self.saved.songs();
        match songs.row_number(uri) {
            Ok(number) => Ok(number as u32),
            Err(_) => Err(CommandRefusal::NoSuchUri),
        }
    }

    // Adds the song of a row, and answers its id. The line is written first, and cut off where the song can't be added.
    fn add_row(&mut self, alloc: Global, at: u32, row: u32, work: &mut Work) -> Result<(), Failure>
        requires { HasRoom command_room work.old }
        ensures { Performs (edits (OfQueue (Add at (row ∷ []))) (id_line self.old.saved.queue.next_id) self.old)
            self.old self.new work.old work.new result }
    {
        let rows = one_row(alloc, row)?;
        let mark = work.text.len();
        let written = write_id(&mut work.text, self.saved.queue().next_id());
        work.keep(mark, written)?;
        let added = self.edit(alloc, Op::Queue(QueueOp::Add { at, rows }), work);
        if added.is_err() {
            work.text.truncate(mark);
        }
        added
    }
}

// The number of one row, as an op has it.
fn one_row(alloc: Global, row: u32) -> Result<RowNumbers, Failure>
    ensures rows { IfOk result (λ rows. rows ≡ row ∷ []) }
    ensures memory { IsOkUnless result Failure.NoMemory }
{
    let mut numbers = Vec::with_capacity(alloc, 1)?;
    numbers.push(row)?;
    match RowNumbers::new(numbers) {
        Some(rows) => Ok(rows),
        None => unreachable!(),
    }
}
