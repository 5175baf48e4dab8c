//! Laws of scans and of what is asked of the rows, for the layers above: a call brings its clauses into their proofs.
ghost use Rattle.std.specs.Prelude.{◌≡◌, ℕ, Bool, List, count_by};
ghost use Rattle.song_db.specs.Difference.{ScansTellTheDifference, WithoutStampsAllIsRead};
ghost use Rattle.song_db.specs.Distinct.{AreTextsWith, IsValue, IsFolderIn};
ghost use Rattle.song_db.specs.Query.{values_of, folders_in};
ghost use Rattle.song_db.specs.Replaced.{IsRising};
ghost use Rattle.song_db.specs.Row.{Row, row_uri};
ghost use Rattle.song_db.specs.Told.{told_key, told_order};
ghost use Rattle.song_db.specs.declared.place.Place.{Place};
ghost use Rattle.song_files.specs.declared.tag.Tag.{Tag};

/// A scan from its beginning to its end, over an honest folder that never fails, tells the difference: each song is put
/// once, with its row, but those known with the stamp that their file has, and nothing else is; each known URI that is
/// neither is dropped, and nothing else is. Where the rules keep no stamps, all songs are put.
pub fn scans_tell_the_difference()
    ensures difference { ScansTellTheDifference }
    ensures without_stamps { WithoutStampsAllIsRead }
{}

/// The values of a tag are the texts of it that rows have, and no others, rising by bytes, each once. The folders in a place
/// are those directly in it that a row stands below, likewise. No other lists are that.
pub fn each_text_once()
    ensures values { (rows : List Row) (tag : Tag) → AreTextsWith (IsValue rows tag) (values_of rows tag) }
    ensures only_values { (rows : List Row) (tag : Tag) (texts : List (List ℕ)) →
        AreTextsWith (IsValue rows tag) texts → texts ≡ values_of rows tag }
    ensures folders { (rows : List Row) (place : Place) → AreTextsWith (IsFolderIn rows place) (folders_in rows place) }
    ensures only_folders { (rows : List Row) (place : Place) (texts : List (List ℕ)) →
        AreTextsWith (IsFolderIn rows place) texts → texts ≡ folders_in rows place }
{}

/// The songs are told in their order, and of whatever songs are asked for, as many are told as there are: each once, and no others.
pub fn told_whole()
    ensures rising { (rows : List Row) → IsRising told_key (told_order rows) }
    ensures whole { (passes : Row → Bool) (rows : List Row) → IsRising row_uri rows →
        count_by passes (told_order rows) ≡ count_by passes rows }
{}
