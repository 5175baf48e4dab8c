// Songs of a playlist that go to another place, each by an op of its own.
ghost use Rattle.std.specs.Prelude.{◌≡◌, ℕ, ◌+◌, ◌-◌, ◌≤◌, ◌<◌, ◌^◌, List, ◌∷◌, ◌++◌, Some, None, length, take, drop, OnOk, IsOkUnless};
ghost use Rattle.std.specs.Prelude.{Ok};
ghost use Rattle.state_codec.specs.Applied.{after_all};
ghost use Rattle.state_codec.specs.OpsLists.{same_uris};
ghost use Rattle.stored_lists.specs.Lists.{songs_or_none};
ghost use Rattle.stored_lists.specs.Limits.{MAX_ENTRIES};
ghost use Rattle.machine_core.specs.Changed.{same_lists};
ghost use Rattle.machine_core.specs.ListMoves.{adds_songs, adds_songs_at, block_moves, moves_songs, of_lists, puts_in, song_moves};
ghost use Rattle.machine_core.specs.ListMovesLeft.{all_edited, moves_of, rest_of};
ghost use Rattle.machine_core.specs.Lists.{list_name};
ghost use Rattle.state_codec.specs.declared.op.list_op.ListOp.TheVariants.{Move};
ghost use Rattle.machine_core.specs.Meaning.{refusal_of_all};
ghost use Rattle.machine_core.specs.Spans.{count_of};
ghost use Rattle.machine_core.specs.Work.{HasRoom, Performs, command_room};

use crate::machine::Machine;
use crate::span::Span;
use crate::work::{Failure, Work};
use command_text::CommandRefusal;
use song_db::Uri;
use state_codec::{ListOp, Op, RowNumbers, Saved, Text};
use std::alloc::Global;

// So many songs that stand together, each of which goes as far as the first one; the last or the first of them goes first.
#[derive(Clone, Copy)]
struct SongMoves {
    last_first: bool,
    from: u32,
    to: u32,
    count: u32,
}

// A song goes from one place to another.
#[derive(Clone, Copy)]
struct SongMove {
    from: u32,
    to: u32,
}

impl SongMoves {
    // The one that goes first.
    fn first(self) -> SongMove
        requires some { 0 < self.count }
        requires within { (self.from + self.count < 2 ^ 32) × (self.to + self.count < 2 ^ 32) }
        ensures { (name : List ℕ) → moves_of name self ≡ Move name result.from result.to ∷ moves_of name (rest_of self) }
    {
        if self.last_first {
            SongMove {
                from: self.from + (self.count - 1),
                to: self.to + (self.count - 1),
            }
        } else {
            SongMove {
                from: self.from,
                to: self.to,
            }
        }
    }

    // Those that go behind it.
    fn rest(self) -> SongMoves
        requires some { 0 < self.count }
        requires within { (self.from + self.count < 2 ^ 32) × (self.to + self.count < 2 ^ 32) }
        ensures { result ≡ rest_of self }
    {
        let step = if self.last_first { 0 } else { 1 };
        SongMoves {
            last_first: self.last_first,
            from: self.from + step,
            to: self.to + step,
            count: self.count - 1,
        }
    }
}

// How a block goes to a place of the rest: where it passes fewer songs than it has, those go the other way.
fn block_moves(block: Span, to: u32) -> SongMoves
    requires { to + count_of block < 2 ^ 32 }
    ensures moves { (name : List ℕ) → moves_of name result ≡ block_moves name block to }
    ensures few { (result.from + result.count < 2 ^ 32) × (result.to + result.count < 2 ^ 32) }
{
    let count = block.count();
    if block.start < to {
        let passed = to - block.start;
        if passed < count {
            song_moves(false, block.end, block.start, passed)
        } else {
            song_moves(true, block.start, to, count)
        }
    } else {
        let passed = block.start - to;
        if passed < count {
            song_moves(true, to, to + count, passed)
        } else {
            song_moves(false, block.start, to, count)
        }
    }
}

fn song_moves(last_first: bool, from: u32, to: u32, count: u32) -> SongMoves
    ensures moves { (name : List ℕ) → moves_of name result ≡ song_moves last_first name from to count }
    ensures from { result.from + result.count ≡ from + count }
    ensures to { result.to + result.count ≡ to + count }
{
    SongMoves {
        last_first,
        from,
        to,
        count,
    }
}

// Adds the op of each song.
fn push_moves(
    alloc: Global,
    name: &Text,
    moves: SongMoves,
    ops: &mut Vec<Op>,
) -> Result<(), Failure>
    requires { (moves.from + moves.count < 2 ^ 32) × (moves.to + moves.count < 2 ^ 32) }
    ensures ops { OnOk result (ops.new.items ≡ ops.old.items ++ of_lists (moves_of name.now moves)) }
    ensures memory { IsOkUnless result Failure.NoMemory }
{
    let mut left = moves;
    'moves: while left.count > 0 {
        let SongMove { from, to } = left.first();
        let op = ListOp::Move {
            name: name.try_clone(alloc)?,
            from,
            to,
        };
        ops.push(Op::List(op))?;
        left = left.rest();
    }
    Ok(())
}

// Moves each song, but leaves the playlist's time as it is. It takes no memory.
fn move_songs(saved: &mut Saved, name: &Text, moves: SongMoves)
    requires few { (moves.from + moves.count < 2 ^ 32) × (moves.to + moves.count < 2 ^ 32) }
    requires free { refusal_of_all (of_lists (moves_of name.now moves)) saved.old ≡ None }
    ensures { saved.new ≡ all_edited (moves_of name.now moves) saved.old }
{
    let mut left = moves;
    'moves: while left.count > 0 {
        let SongMove { from, to } = left.first();
        saved.move_song(name, from, to);
        left = left.rest();
    }
}

// Whether two runs of songs are the same.
fn are_same(one: &[Uri], other: &[Uri]) -> bool
    ensures { result ≡ same_uris one.now other.now }
{
    if one.len() != other.len() {
        return false;
    }
    for at in 0..one.len() {
        if one[at].as_str() != other[at].as_str() {
            return false;
        }
    }
    true
}

// Whether songs stay as they are where those from a place on come to the front.
fn stay_turned(songs: &[Uri], at: usize) -> bool
    requires { at ≤ length songs.now }
    ensures { result ≡ same_uris (drop at songs.now ++ take at songs.now) songs.now }
{
    let rest = songs.len() - at;
    are_same(&songs[at..], &songs[..rest]) && are_same(&songs[..at], &songs[rest..])
}

impl Machine {
    // Whether a block stays where it is, or songs like it come there.
    fn block_stays(&self, name: &str, block: Span, to: u32) -> bool
        requires good { list_name name.now ≡ Ok name.now }
        requires block { block.end ≤ length (songs_or_none self.now.saved.lists name.now) }
        requires place { to + count_of block ≤ length (songs_or_none self.now.saved.lists name.now) }
        requires few { length (songs_or_none self.now.saved.lists name.now) ≤ MAX_ENTRIES }
        ensures { result ≡ same_lists self.now.saved.lists (after_all (of_lists (block_moves name.now block to)) self.now.saved).lists }
    {
        if block.count() == 0 {
            return true;
        }
        match self.saved.lists().get(name) {
            Ok(songs) => {
                let middle = if block.start < to {
                    block.end
                } else {
                    block.start
                };
                let low = block.start.min(to);
                let high = block.end.max(to + block.count());
                stay_turned(
                    &songs.as_slice()[low as usize..high as usize],
                    (middle - low) as usize,
                )
            }
            Err(_) => true,
        }
    }

    // How many songs a playlist has; none, if it is missing.
    pub(crate) fn song_count(&self, name: &str) -> u32
        ensures count { result ≡ length (songs_or_none self.now.saved.lists name.now) }
        ensures few { result ≤ MAX_ENTRIES }
    {
        let lists = self.saved.lists();
        let _limits = lists.len();
        match lists.get(name) {
            Ok(songs) => songs.len() as u32,
            Err(_) => 0,
        }
    }

    // A block of a playlist with so many songs goes to a place of the rest: one change of an op for each of its songs, or for each that it
    // passes, if those are fewer.
    pub(super) fn move_block_in_list(
        &mut self,
        alloc: Global,
        name: &Text,
        block: Span,
        to: u32,
        count: u32,
        work: &mut Work,
    ) -> Result<(), Failure>
        requires room { HasRoom command_room work.old }
        requires named { list_name name.now ≡ Ok name.now }
        requires count { (length (songs_or_none self.old.saved.lists name.now) ≡ count) × (count ≤ MAX_ENTRIES) }
        requires within { block.end ≤ count }
        ensures { Performs (moves_songs name.now block to count self.old) self.old self.new work.old work.new result }
    {
        if to > count - block.count() {
            return Err(Failure::Refused(CommandRefusal::BadIndex));
        }
        if self.block_stays(name.as_str(), block, to) {
            return Ok(());
        }
        let moves = block_moves(block, to);
        let mut ops = Vec::new(alloc);
        push_moves(alloc, name, moves, &mut ops)?;
        let listed = self.saved.timed_name(alloc, name)?;
        let size = work.admit_all(self.saved.profile(), &ops)?;
        move_songs(&mut self.saved, name, moves);
        self.saved.put_untimed(name, listed);
        work.push_all(ops, size);
        Ok(())
    }

    // The songs of these rows come into a playlist, at its end or at a place of it.
    pub(crate) fn add_songs(
        &mut self,
        alloc: Global,
        name: Text,
        rows: RowNumbers,
        to: Option<u32>,
        work: &mut Work,
    ) -> Result<(), Failure>
        requires { HasRoom command_room work.old }
        ensures { Performs (adds_songs name rows to self.old) self.old self.new work.old work.new result }
    {
        match to {
            None => self.edit(alloc, Op::List(ListOp::Add { name, rows }), work),
            Some(at) => {
                let end = self.song_count(name.as_str());
                self.add_songs_at(alloc, name, rows, at, end, work)
            }
        }
    }

    fn add_songs_at(
        &mut self,
        alloc: Global,
        name: Text,
        rows: RowNumbers,
        at: u32,
        end: u32,
        work: &mut Work,
    ) -> Result<(), Failure>
        requires room { HasRoom command_room work.old }
        requires end { end ≡ length (songs_or_none self.old.saved.lists name) }
        requires few { end ≤ MAX_ENTRIES }
        ensures { Performs (adds_songs_at name rows at end self.old) self.old self.new work.old work.new result }
    {
        if at < end {
            return self.put_in(alloc, &name, rows, at, end, work);
        }
        if at > end {
            return Err(Failure::Refused(CommandRefusal::BadIndex));
        }
        self.edit(alloc, Op::List(ListOp::Add { name, rows }), work)
    }

    // One change of several ops: the songs are added, and go to their place from there.
    fn put_in(
        &mut self,
        alloc: Global,
        name: &Text,
        rows: RowNumbers,
        at: u32,
        end: u32,
        work: &mut Work,
    ) -> Result<(), Failure>
        requires room { HasRoom command_room work.old }
        requires end { end ≡ length (songs_or_none self.old.saved.lists name.now) }
        requires few { end ≤ MAX_ENTRIES }
        requires front { at < end }
        ensures { Performs (puts_in name.now rows at end self.old) self.old self.new work.old work.new result }
    {
        if rows.len() == 0 {
            return Ok(());
        }
        let moves = song_moves(false, end, at, rows.len() as u32);
        let add = Op::List(ListOp::Add {
            name: name.try_clone(alloc)?,
            rows,
        });
        self.saved.check(&add)?;
        let mut ops = Vec::new(alloc);
        ops.push(add)?;
        push_moves(alloc, name, moves, &mut ops)?;
        let size = work.admit_all(self.saved.profile(), &ops)?;
        self.apply(alloc, &ops[0])?;
        move_songs(&mut self.saved, name, moves);
        work.push_all(ops, size);
        Ok(())
    }
}
