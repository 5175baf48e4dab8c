// The scan of a job, answer after answer.
ghost use Rattle.std.specs.Prelude.{◌≡◌, [], true, false, Ok, None, IfOk, IfSome, OnErr, IsOkUnless};
ghost use Rattle.song_db.specs.Difference.{begun};
ghost use Rattle.song_db.specs.Scan.{IsAnswer, IsEnd, IsHonestAnswer, IsSameOrder, IsWholeAnswer, changes_in};
ghost use Rattle.song_db.specs.declared.refusal.SongDbError.TheVariants.{NoMemory};

mod droppable;
mod found;
mod reader;
mod visit;
mod walk;

use crate::change::RowChange;
use crate::order::ScanOrder;
use crate::refusal::SongDbError;
use crate::scan::droppable::Droppable;
use crate::scan::reader::Reader;
use crate::scan::walk::FolderWalk;
use song_files::Folder;
use std::alloc::Global;
use std::marker::Model;
pub use visit::is_named;

/// The scan of a job: it reads the songs of a folder, or one song, and tells the changes of their rows in batches.
///
/// A song is a file whose name ends as the rules of the order say (in any ASCII case) at most 32 folders deep, counted from
/// the root of the music, whose path has the form of a URI and whose head `song_head::read_song` reads. It is a `Put`,
/// changed or not; where the rules keep stamps and it is known with the stamp that its file had as it was listed, the file isn't
/// opened and its row is kept. Where its file can't be looked at, opened or read, nobody knows, and its row is kept; where a folder
/// can't be listed, the rows below it are. The folders are walked by the bytes of names, files and folders mixed. After
/// the walk each known URI that was neither read nor kept is a `Drop`, rising.
///
/// A scan holds what is left of the listings on the present path, and a mark for each known URI.
#[derive(Debug, Drop)]
pub struct Scan {
    job: u32,
    reader: Reader,
    is_over: bool,
}

impl Model for Scan {
    ghost use Rattle.std.specs.Prelude.{◌≡◌, [], true, false};
    ghost use Rattle.song_db.specs.Pending.{still_pending};
    ghost use Rattle.song_db.specs.Scan.{Progress};

    ghost Value = { Progress };

    ghost view = { λ s. record {
      job = s.job;
      place = s.reader.walk.place;
      rules = s.reader.walk.rules;
      known = s.reader.droppable.known;
      pending = still_pending s.reader.is_begun s.reader.walk;
      listed = s.reader.walk.listed;
      droppable = s.reader.droppable.left;
      is_over = s.is_over;
    } };

    ghost invariant = { λ s. (s.reader.is_begun ≡ false → s.reader.walk.pending ≡ []) × (s.is_over ≡ true →
        (s.reader.droppable.left ≡ []) × (still_pending s.reader.is_begun s.reader.walk ≡ [])) };
}

impl Scan {
    /// The scan of an order, which has read nothing yet. It takes memory for the marks; refused by `NoMemory`.
    pub fn begin(alloc: Global, order: ScanOrder) -> Result<Scan, SongDbError>
        ensures scan { IfOk result (λ scan. scan ≡ begun order) }
        ensures only { IsOkUnless result NoMemory }
    {
        let (job, place, rules, known) = order.into_parts();
        let droppable = Droppable::new(alloc, known)?;
        let walk = FolderWalk::new(alloc, rules, place);
        Ok(Scan {
            job,
            reader: Reader {
                walk,
                droppable,
                is_begun: false,
            },
            is_over: false,
        })
    }

    /// The next changes: 64, or the last ones, 1 to 64 of them; `None` at the end, and from then on. Where nothing is left, it takes no
    /// memory to say so.
    ///
    /// Refused by `NoMemory`, the scan is over: what it hasn't read keeps its row.
    pub fn next<F: Folder>(
        &mut self,
        alloc: Global,
        folder: &mut F,
    ) -> Result<Option<Vec<RowChange>>, SongDbError>
        // The changes, and the end, which stays.
        ensures some { IfOk result (λ answer. IfSome answer (λ changes. IsAnswer self.old self.new changes.items)) }
        ensures none { result ≡ Ok None → IsEnd self.new }
        ensures err { OnErr result (IsEnd self.new) }
        ensures nothing_left { self.old.pending ≡ [] → self.old.droppable ≡ [] → (result ≡ Ok None) × (folder.new ≡ folder.old) }
        ensures over { self.old.is_over ≡ true → (result ≡ Ok None) × (folder.new ≡ folder.old) }
        ensures only { IsOkUnless result NoMemory }
        ensures order { IsSameOrder self.old self.new }

        // The changes are the difference between the rows that are known and the files.
        ensures read { F.honest folder.old →
            IfOk result (λ answer. IsHonestAnswer (F.files folder.old) self.old self.new (changes_in answer)) }
        ensures whole { F.honest folder.old → F.steady folder.old →
            IfOk result (λ answer. IsWholeAnswer (F.files folder.old) self.old self.new (changes_in answer)) }
        ensures honest { F.honest folder.old → F.honest folder.new × (F.files folder.new ≡ F.files folder.old) }
        ensures steady { F.steady folder.old → F.steady folder.new }
    {
        if self.is_over || self.reader.is_at_end() {
            self.is_over = true;
            return Ok(None);
        }
        match self.reader.batch(alloc, folder) {
            Ok(changes) => {
                if changes.is_empty() {
                    self.is_over = true;
                    return Ok(None);
                }
                Ok(Some(changes))
            }
            Err(error) => {
                self.reader.give_up();
                self.is_over = true;
                Err(error)
            }
        }
    }
}
