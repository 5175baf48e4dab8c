// The reading of ops, a reader for each family.
ghost use Rattle.std.specs.Prelude.{◌≡◌, ◌≤◌, ℕ, List, [], length, IfOk, IsTrue};
ghost use Rattle.std.specs.List.{list_all};
ghost use Rattle.state_codec.specs.Given.{Gives, GivesList};
ghost use Rattle.state_codec.specs.Items.{items_at};
ghost use Rattle.state_codec.specs.Numbers.{is_range};
ghost use Rattle.state_codec.specs.Fields.{made, both, byte_at, u32_at, pair_at, text_at};
ghost use Rattle.state_codec.specs.ReadingRows.{uri_at};
ghost use Rattle.state_codec.specs.declared.op.queue_op.QueueOp.TheVariants as queue;
ghost use Rattle.state_codec.specs.declared.op.list_op.ListOp.TheVariants as lists;
ghost use Rattle.state_codec.specs.declared.op.sticker_op.StickerOp.TheVariants as stickers;
ghost use Rattle.state_codec.specs.ReadingOps.{setting_at, row_numbers_at, ranges_at, queue_op_at};
ghost use Rattle.state_codec.specs.ReadingOps.{list_op_at, value_at, sticker_op_at, op_at};

use crate::fields::{ReadError, Reader};
use crate::layout::Layout;
use crate::op::{ListOp, Op, OpRanges, QueueOp, RowNumbers, Setting, StickerOp, Text};
use crate::reading::place::is_place_kind;
use crate::reading::times::is_time_kind;
use play_queue::Ranges;
use std::alloc::Global;
use stickers::StickerValue;

impl Reader<'_> {
    #[tactic(auto, unfolding(crate::specs::ReadingOps::setting_at))]
    fn setting(&mut self, layout: Layout) -> Result<Setting, ReadError>
        ensures { Gives result self.new.rest.now (setting_at layout self.old.rest.now) }
    {
        let fault = self.fault();
        match self.byte()? {
            1 => Ok(Setting::Repeat(self.flag()?)),
            2 => Ok(Setting::Random(self.flag()?)),
            3 => Ok(Setting::Single(self.single()?)),
            4 => Ok(Setting::Consume(self.consume(layout)?)),
            _ => Err(fault),
        }
    }

    // So many items at most, if each takes so many bytes: room is taken for no more than the bytes that are left can hold.
    fn at_most(&self, count: u32, len: usize) -> usize
        requires { 1 ≤ len }
        ensures { result ≤ count }
    {
        (self.rest.len() / len).min(count as usize)
    }

    fn numbers(&mut self, alloc: Global, count: u32) -> Result<Vec<u32>, ReadError>
        ensures { GivesList result self.new.rest.now (items_at (λ known. u32_at) count [] self.old.rest.now) }
    {
        let mut numbers = Vec::with_capacity(alloc, self.at_most(count, 4))?;
        for _i in 0..count {
            let number = self.u32()?;
            numbers.push(number)?;
        }
        Ok(numbers)
    }

    #[tactic(auto, unfolding(crate::specs::Items::counted_at))]
    fn row_numbers(&mut self, alloc: Global) -> Result<RowNumbers, ReadError>
        ensures { Gives result self.new.rest.now (row_numbers_at self.old.rest.now) }
    {
        let count = self.u32()?;
        let numbers = self.numbers(alloc, count)?;
        match RowNumbers::new(numbers) {
            Some(rows) => Ok(rows),
            None => unreachable!(),
        }
    }

    fn pairs(&mut self, alloc: Global, count: u32) -> Result<Vec<(usize, usize)>, ReadError>
        ensures pairs { GivesList result self.new.rest.now (items_at (λ known. pair_at) count [] self.old.rest.now) }
        ensures within { IfOk result (λ pairs. IsTrue (list_all is_range pairs.items)) }
    {
        let mut pairs = Vec::with_capacity(alloc, self.at_most(count, 8))?;
        for _i in 0..count {
            let pair = self.pair()?;
            pairs.push((pair.0 as usize, pair.1 as usize))?;
        }
        Ok(pairs)
    }

    #[tactic(auto, unfolding(crate::specs::Items::counted_at))]
    fn ranges(&mut self, alloc: Global) -> Result<OpRanges, ReadError>
        ensures { Gives result self.new.rest.now (ranges_at self.old.rest.now) }
    {
        let count = self.u32()?;
        let pairs = self.pairs(alloc, count)?;
        let ranges = Ranges::new(alloc, pairs)?;
        match OpRanges::new(ranges) {
            Some(ranges) => Ok(ranges),
            None => unreachable!(),
        }
    }

    #[tactic(auto, unfolding(crate::specs::Fields::both))]
    fn add(&mut self, alloc: Global) -> Result<QueueOp, ReadError>
        ensures { Gives result self.new.rest.now (made (λ x. queue.Add x.0 x.1) (both u32_at row_numbers_at self.old.rest.now)) }
    {
        let at = self.u32()?;
        let rows = self.row_numbers(alloc)?;
        Ok(QueueOp::Add { at, rows })
    }

    #[tactic(auto, unfolding(crate::specs::Fields::both))]
    fn move_block(&mut self) -> Result<QueueOp, ReadError>
        ensures { Gives result self.new.rest.now (made (λ x. queue.Move x.0.0 x.0.1 x.1) (both pair_at u32_at self.old.rest.now)) }
    {
        let (start, end) = self.pair()?;
        let to = self.u32()?;
        Ok(QueueOp::Move { start, end, to })
    }

    #[tactic(auto, unfolding(crate::specs::Fields::both))]
    fn prio(&mut self, alloc: Global) -> Result<QueueOp, ReadError>
        ensures { Gives result self.new.rest.now (made (λ x. queue.Prio x.0 x.1) (both byte_at ranges_at self.old.rest.now)) }
    {
        let priority = self.byte()?;
        let ranges = self.ranges(alloc)?;
        Ok(QueueOp::Prio { priority, ranges })
    }

    #[tactic(auto, unfolding(crate::specs::ReadingOps::queue_op_at))]
    fn queue_op(&mut self, alloc: Global, kind: u8) -> Result<QueueOp, ReadError>
        ensures { Gives result self.new.rest.now (queue_op_at kind self.old.rest.now) }
    {
        match kind {
            4 => self.add(alloc),
            5 => {
                let (start, end) = self.pair()?;
                Ok(QueueOp::Delete { start, end })
            }
            6 => self.move_block(),
            7 => {
                let (one, other) = self.pair()?;
                Ok(QueueOp::Swap { one, other })
            }
            8 => {
                let (start, end) = self.pair()?;
                Ok(QueueOp::Shuffle { start, end })
            }
            _ => self.prio(alloc),
        }
    }

    fn name(&mut self, alloc: Global) -> Result<Text, ReadError>
        ensures { Gives result self.new.rest.now (text_at self.old.rest.now) }
    {
        let text = self.text()?;
        match Text::read(alloc, text)? {
            Some(name) => Ok(name),
            None => unreachable!(),
        }
    }

    #[tactic(auto, unfolding(crate::specs::Fields::both))]
    fn list_add(&mut self, alloc: Global) -> Result<ListOp, ReadError>
        ensures { Gives result self.new.rest.now (made (λ x. lists.Add x.0 x.1) (both text_at row_numbers_at self.old.rest.now)) }
    {
        let name = self.name(alloc)?;
        let rows = self.row_numbers(alloc)?;
        Ok(ListOp::Add { name, rows })
    }

    #[tactic(auto, unfolding(crate::specs::Fields::both))]
    fn list_remove(&mut self, alloc: Global) -> Result<ListOp, ReadError>
        ensures { Gives result self.new.rest.now (made (λ x. lists.Remove x.0 x.1.0 x.1.1) (both text_at pair_at self.old.rest.now)) }
    {
        let name = self.name(alloc)?;
        let (start, end) = self.pair()?;
        Ok(ListOp::Remove { name, start, end })
    }

    #[tactic(auto, unfolding(crate::specs::Fields::both))]
    fn list_move(&mut self, alloc: Global) -> Result<ListOp, ReadError>
        ensures { Gives result self.new.rest.now (made (λ x. lists.Move x.0 x.1.0 x.1.1) (both text_at pair_at self.old.rest.now)) }
    {
        let name = self.name(alloc)?;
        let (from, to) = self.pair()?;
        Ok(ListOp::Move { name, from, to })
    }

    #[tactic(auto, unfolding(crate::specs::Fields::both))]
    fn list_rename(&mut self, alloc: Global) -> Result<ListOp, ReadError>
        ensures { Gives result self.new.rest.now (made (λ x. lists.Rename x.0 x.1) (both text_at text_at self.old.rest.now)) }
    {
        let from = self.name(alloc)?;
        let to = self.name(alloc)?;
        Ok(ListOp::Rename { from, to })
    }

    #[tactic(auto, unfolding(crate::specs::ReadingOps::list_op_at))]
    fn list_op(&mut self, alloc: Global, kind: u8) -> Result<ListOp, ReadError>
        ensures { Gives result self.new.rest.now (list_op_at kind self.old.rest.now) }
    {
        match kind {
            10 => Ok(ListOp::Save {
                name: self.name(alloc)?,
            }),
            11 => self.list_add(alloc),
            12 => self.list_remove(alloc),
            13 => self.list_move(alloc),
            14 => Ok(ListOp::Clear {
                name: self.name(alloc)?,
            }),
            15 => self.list_rename(alloc),
            _ => Ok(ListOp::Drop {
                name: self.name(alloc)?,
            }),
        }
    }

    #[tactic(auto, unfolding(crate::specs::Fields::such))]
    pub(crate) fn value(&mut self, alloc: Global) -> Result<StickerValue, ReadError>
        ensures { Gives result self.new.rest.now (value_at self.old.rest.now) }
    {
        let fault = self.fault();
        let text = self.text()?;
        match StickerValue::read(alloc, text)? {
            Some(value) => Ok(value),
            None => Err(fault),
        }
    }

    #[tactic(auto, unfolding(crate::specs::Fields::both))]
    fn sticker_set(&mut self, alloc: Global) -> Result<StickerOp, ReadError>
        ensures { Gives result self.new.rest.now (made (λ x. stickers.Set x.0 x.1.0 x.1.1) (both uri_at (both text_at value_at)
            self.old.rest.now)) }
    {
        let uri = self.uri(alloc)?;
        let name = self.name(alloc)?;
        let value = self.value(alloc)?;
        Ok(StickerOp::Set { uri, name, value })
    }

    #[tactic(auto, unfolding(crate::specs::Fields::both))]
    fn sticker_delete(&mut self, alloc: Global) -> Result<StickerOp, ReadError>
        ensures { Gives result self.new.rest.now (made (λ x. stickers.Delete x.0 x.1) (both uri_at text_at self.old.rest.now)) }
    {
        let uri = self.uri(alloc)?;
        let name = self.name(alloc)?;
        Ok(StickerOp::Delete { uri, name })
    }

    #[tactic(auto, unfolding(crate::specs::ReadingOps::sticker_op_at))]
    fn sticker_op(&mut self, alloc: Global, kind: u8) -> Result<StickerOp, ReadError>
        ensures { Gives result self.new.rest.now (sticker_op_at kind self.old.rest.now) }
    {
        match kind {
            17 => self.sticker_set(alloc),
            18 => self.sticker_delete(alloc),
            _ => Ok(StickerOp::DeleteAll {
                uri: self.uri(alloc)?,
            }),
        }
    }

    /// The op at the front, of the values that the layout has.
    #[tactic(auto, unfolding(crate::specs::ReadingOps::op_at))]
    pub(crate) fn op(&mut self, alloc: Global, layout: Layout) -> Result<Op, ReadError>
        ensures { Gives result self.new.rest.now (op_at layout self.old.rest.now) }
    {
        let fault = self.fault();
        let kind = self.byte()?;
        match kind {
            1 => Ok(Op::SetOption(self.setting(layout)?)),
            2 => Ok(Op::SetVolume(self.volume()?)),
            3 => Ok(Op::SetOrder(self.u64()?)),
            4..=9 => Ok(Op::Queue(self.queue_op(alloc, kind)?)),
            10..=16 => Ok(Op::List(self.list_op(alloc, kind)?)),
            17..=19 => Ok(Op::Sticker(self.sticker_op(alloc, kind)?)),
            20 => Ok(Op::Batch(self.changes(alloc, layout.profile)?)),
            kind if is_time_kind(layout.profile, kind) => Ok(Op::Timed(self.u64()?)),
            kind if is_place_kind(layout.profile, kind) => Ok(Op::Place(self.place_op(kind)?)),
            _ => Err(fault),
        }
    }
}
