// `play_queue` beside a plain queue, which is the definition as a program: each edit makes the list anew, and the stamp rule looks at both
// lists whole. Both take the same random edits, and are compared row by row.
use crate::assertions::{equal, uri};
use play_queue::{EntryRef, MAX_VERSION, Queue, QueueBuilder, Ranges, SortedUris};
use song_db::RowUri;
use std::alloc::{AllocError, Global};
use std::process::Abort;
use std::test::Fail;

/// A row of the plain queue; its song is `b.wav` or `a.wav`.
#[derive(Copy, Clone, Debug, PartialEq, Eq)]
struct Row {
    id: u32,
    is_b: bool,
    priority: u8,
    stamp: u32,
}

#[derive(Drop)]
struct Plain {
    rows: Vec<Row>,
    version: u32,
    next_id: u32,
}

fn is_same(one: &Row, other: &Row) -> bool {
    one.id == other.id && one.priority == other.priority && one.is_b == other.is_b
}

impl Plain {
    /// The rows become these, by the stamp rule.
    fn follow(&mut self, mut after: Vec<Row>) {
        let same = after.len() == self.rows.len()
            && after
                .iter()
                .zip(self.rows.iter())
                .all(|pair| is_same(pair.0, pair.1));
        if same {
            return;
        }
        let again = self.version >= MAX_VERSION;
        self.version = if again { 1 } else { self.version + 1 };
        for at in 0..after.len() {
            let stays = !again && at < self.rows.len() && is_same(&after[at], &self.rows[at]);
            after[at].stamp = if stays {
                self.rows[at].stamp
            } else {
                self.version
            };
        }
        self.rows = after;
    }

    /// The rows with the block between two positions put in front of a position of the rest.
    fn moved(
        &self,
        alloc: Global,
        start: usize,
        end: usize,
        to: usize,
    ) -> Result<Vec<Row>, AllocError> {
        let block = copied(alloc, &self.rows, start, end)?;
        let rest = self.without(alloc, start, end)?;
        joined(alloc, &rest, to, &block)
    }

    fn without(&self, alloc: Global, start: usize, end: usize) -> Result<Vec<Row>, AllocError> {
        let back = copied(alloc, &self.rows, end, self.rows.len())?;
        let front = copied(alloc, &self.rows, 0, start)?;
        joined(alloc, &front, start, &back)
    }
}

/// The rows between two positions.
fn copied(alloc: Global, rows: &[Row], start: usize, end: usize) -> Result<Vec<Row>, AllocError> {
    rows.iter()
        .copied()
        .skip(start)
        .take(end.saturating_sub(start))
        .collect(alloc)
}

/// Rows with others in front of a position.
fn joined(alloc: Global, rows: &[Row], at: usize, others: &[Row]) -> Result<Vec<Row>, AllocError> {
    let mut all = copied(alloc, rows, 0, at)?;
    all.extend_from_slice(others)?;
    all.extend_from_slice(&copied(alloc, rows, at, rows.len())?)?;
    Ok(all)
}

/// Numbers that look random.
#[derive(Drop)]
struct Numbers {
    seed: u64,
}

impl Numbers {
    /// The next one, below a bound, or 0.
    fn below(&mut self, bound: usize) -> usize {
        self.seed = self
            .seed
            .wrapping_mul(6_364_136_223_846_793_005)
            .wrapping_add(1_442_695_040_888_963_407);
        (self.seed >> 33) as usize % bound.max(1)
    }
}

/// Both queues, and the numbers by which they are changed.
#[derive(Drop)]
struct Pair {
    queue: Queue,
    plain: Plain,
    numbers: Numbers,
}

impl Pair {
    /// A range of the rows, at most so long.
    fn range(&mut self, most: usize) -> (usize, usize) {
        let len = self.plain.rows.len();
        let start = self.numbers.below(len);
        let end = start.saturating_add(self.numbers.below(most)).min(len);
        (start.min(end), end)
    }

    fn add(&mut self, alloc: Global) -> Result<(), Fail> {
        let at = self.numbers.below(self.plain.rows.len().saturating_add(1));
        let is_b = self.numbers.below(4) == 0;
        let mut uris = Vec::new(alloc);
        let mut rows = Vec::new(alloc);
        for _ in 0..self.numbers.below(40) {
            let text = if is_b { "b.wav" } else { "a.wav" };
            uris.push(RowUri::new(uri(alloc, text)?, 0))?;
            rows.push(Row {
                id: self.plain.next_id,
                is_b,
                priority: 0,
                stamp: 0,
            })?;
            self.plain.next_id = self.plain.next_id.wrapping_add(1);
        }
        let after = joined(alloc, &self.plain.rows, at, &rows)?;
        self.plain.follow(after);
        self.queue
            .add_at(at, uris)
            .ok()
            .ok_or("an addition was refused")?;
        Ok(())
    }

    fn delete(&mut self, alloc: Global) -> Result<(), Fail> {
        let (start, end) = self.range(30);
        let after = self.plain.without(alloc, start, end)?;
        self.plain.follow(after);
        self.queue
            .delete_range(start, end)
            .ok()
            .ok_or("a deletion was refused")?;
        Ok(())
    }

    fn shift(&mut self, alloc: Global) -> Result<(), Fail> {
        let most = if self.numbers.below(4) == 0 { 400 } else { 3 };
        let (start, end) = self.range(most);
        let rest = self
            .plain
            .rows
            .len()
            .saturating_sub(end.saturating_sub(start));
        let to = self.numbers.below(rest.saturating_add(1));
        let after = self.plain.moved(alloc, start, end, to)?;
        self.plain.follow(after);
        self.queue
            .move_range(start, end, to)
            .ok()
            .ok_or("a move was refused")?;
        Ok(())
    }

    fn swap(&mut self, alloc: Global) -> Result<(), Fail> {
        let len = self.plain.rows.len();
        let (one, other) = (self.numbers.below(len), self.numbers.below(len));
        let mut after = copied(alloc, &self.plain.rows, 0, len)?;
        if one >= after.len() || other >= after.len() {
            return Ok(());
        }
        after.swap(one, other);
        self.plain.follow(after);
        self.queue
            .swap(one, other)
            .ok()
            .ok_or("an exchange was refused")?;
        Ok(())
    }

    fn prioritize(&mut self, alloc: Global) -> Result<(), Fail> {
        let (start, end) = self.range(10);
        let priority = [0, 1, 2][self.numbers.below(3).min(2)];
        let mut after = copied(alloc, &self.plain.rows, 0, self.plain.rows.len())?;
        for row in after.iter_mut().skip(start).take(end.saturating_sub(start)) {
            row.priority = priority;
        }
        self.plain.follow(after);
        let mut given = Vec::new(alloc);
        given.push((start, end))?;
        self.queue
            .set_prio(&Ranges::new(alloc, given)?, priority)
            .ok()
            .ok_or("a priority was refused")?;
        Ok(())
    }

    fn shuffle(&mut self, alloc: Global) -> Result<(), Fail> {
        let (start, end) = self.range(300);
        let block = copied(alloc, &self.plain.rows, start, end)?;
        let mut words = Vec::new(alloc);
        let mut drawn: Vec<(u32, Row)> = Vec::new(alloc);
        for row in &block {
            let word = u32::try_from(self.numbers.below(50)).unwrap_or(0);
            words.push(word)?;
            let place = drawn
                .iter()
                .position(|other| (word, row.id) < (other.0, other.1.id))
                .unwrap_or(drawn.len());
            drawn.insert(place, (word, *row)).ok().ok_or("no memory")?;
        }
        let sorted: Vec<Row> = drawn.iter().map(|one| one.1).collect(alloc)?;
        let rest = self.plain.without(alloc, start, end)?;
        let after = joined(alloc, &rest, start, &sorted)?;
        self.plain.follow(after);
        if words.len() != end.saturating_sub(start) {
            return Ok(());
        }
        self.queue
            .shuffle(alloc, start, end, &words)
            .ok()
            .ok_or("a shuffle was refused")?;
        Ok(())
    }

    /// A batch drops `b.wav`.
    fn drop_b(&mut self, alloc: Global) -> Result<(), Fail> {
        let after: Vec<Row> = self
            .plain
            .rows
            .iter()
            .copied()
            .filter(|row| !row.is_b)
            .collect(alloc)?;
        self.plain.follow(after);
        let mut dropped = Vec::new(alloc);
        dropped.push(uri(alloc, "b.wav")?)?;
        self.queue.follow_batch(&SortedUris::new(dropped), &SortedUris::new(Vec::new(alloc)));
        Ok(())
    }

    fn change(&mut self, alloc: Global) -> Result<(), Fail> {
        match self.numbers.below(24) {
            0..=6 => self.add(alloc),
            7..=10 => self.delete(alloc),
            11..=14 => self.shift(alloc),
            15..=17 => self.swap(alloc),
            18..=20 => self.prioritize(alloc),
            21 | 22 => self.shuffle(alloc),
            _ => self.drop_b(alloc),
        }
    }

    /// Both have the same rows, find the same ids and tell the same changes.
    fn compare(&self, rt: &impl Abort, alloc: Global) -> Result<(), Fail> {
        let (queue, plain) = (&self.queue, &self.plain);
        equal(
            rt,
            (queue.version(), queue.next_id(), queue.len()),
            (plain.version, plain.next_id, plain.rows.len()),
        );
        for (at, row) in plain.rows.iter().enumerate() {
            let entry = queue.get(at).ok_or("no entry")?;
            same_row(rt, entry, row);
            equal(rt, queue.pos_of(row.id), Some(at));
        }
        for back in [0, 1, 2, 9, 60] {
            let since = plain.version.saturating_sub(back);
            let want: Vec<usize> = plain
                .rows
                .iter()
                .enumerate()
                .filter(|at| since < at.1.stamp)
                .map(|at| at.0)
                .collect(alloc)?;
            same_positions(rt, &queue.changes_since(alloc, since)?, &want);
        }
        Ok(())
    }
}

fn same_row(rt: &impl Abort, entry: EntryRef<'_>, row: &Row) {
    equal(
        rt,
        (entry.id, entry.priority, entry.stamp),
        (row.id, row.priority, row.stamp),
    );
    equal(rt, entry.uri.as_str() == "b.wav", row.is_b);
}

fn same_positions(rt: &impl Abort, left: &[usize], right: &[usize]) {
    equal(rt, left, right);
}

/// Both without an entry, at this version.
fn two_without_entries(alloc: Global, version: u32, seed: u64) -> Result<Pair, Fail> {
    let builder = QueueBuilder::new(alloc, version, 1)
        .ok()
        .ok_or("a version was refused")?;
    Ok(Pair {
        queue: builder.finish(),
        plain: Plain {
            rows: Vec::new(alloc),
            version,
            next_id: 1,
        },
        numbers: Numbers { seed },
    })
}

#[test]
fn edits_beside_the_plain_queue(rt: HostRuntime) -> Result<(), Fail> {
    // The second pair goes past the greatest version.
    for (version, seed) in [(1, 1), (MAX_VERSION - 200, 2)] {
        let mut both = two_without_entries(rt.alloc(), version, seed)?;
        for _ in 0..500 {
            both.change(rt.alloc())?;
            both.compare(&rt, rt.alloc())?;
        }
    }
    Ok(())
}
