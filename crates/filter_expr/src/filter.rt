// A filter: read from the words of a command, and asked of songs.
ghost use Rattle.std.specs.Prelude.{◌≡◌, ◌*◌, ◌≤◌, count_by, IfOk, IsOk};
ghost use Rattle.song_db.specs.Valued.{has_value, numbers_of};
ghost use Rattle.filter_expr.specs.Words.{Gives, filter_of};
ghost use Rattle.filter_expr.specs.AsciiSong.{IsAsciiSong};
ghost use Rattle.filter_expr.specs.Looks.{are_few, asked, looked_up, song_looks, tests_of, told_looks};
ghost use Rattle.filter_expr.specs.Meaning.{song_of, is_match};
ghost use Rattle.filter_expr.specs.declared.case.Case.TheVariants.{Exact, Folded};

use crate::case::Case;
use crate::expression::Expression;
use crate::folded_row::FoldedRow;
use crate::refusal::FilterError;
use crate::select::{select_of_all, select_with};
use crate::value::TestValue;
use crate::word::LineWord;
use crate::words;
use no_memory::NoMemory;
use profile::Profile;
use song_db::{SongDb, SongRow};
use song_files::Tag;
use std::alloc::Global;
use std::marker::Model;

/// Which songs are looked for. Contracts see what it says as a tree.
#[derive(Debug, Drop)]
pub struct Filter {
    root: Expression,
}

impl Model for Filter {
    ghost use Rattle.filter_expr.specs.Tree.{Tree, tree_of};
    ghost use Rattle.filter_expr.specs.TreeCode.{tree_code};

    ghost Value = { Tree };

    ghost coded = { tree_code };

    ghost view = { λ f. tree_of f.root };
}

impl Filter {
    /// The filter that words spell, by the names and forms that the profile has: one word that is an expression, or pairs of a tag and a
    /// value, which hold together; in the wide profile expressions and pairs in any order (MPD protocol reference 0.23, "Filters").
    ///
    /// `BadFilter`, `UnknownTag` or `TooDeep` tells of the leftmost fault of words that spell none.
    pub fn parse<'w>(
        alloc: Global,
        profile: Profile,
        words: &'w [LineWord<'_>],
    ) -> Result<Filter, FilterError<'w>>
        ensures exact { Gives (λ filter. filter) result (filter_of profile words.now) }
    {
        Ok(Filter {
            root: words::filter_of(alloc, profile, words)?,
        })
    }

    /// Whether a song is among those that the filter denotes. Where the case counts, it takes no memory and can't fail,
    /// nor where the song's URI and tags are plain ASCII.
    pub fn matches(&self, alloc: Global, row: &SongRow, case: Case) -> Result<bool, NoMemory>
        ensures member { IfOk result (λ matched. matched ≡ is_match case self.now row.now) }
        ensures exact_never_fails { case ≡ Exact → IsOk result }
        ensures ascii_never_fails { IsAsciiSong (song_of row.now) → IsOk result }
    {
        match case {
            Case::Exact => Ok(self.root.matches_exact(row)),
            Case::Folded => {
                let mut folded = FoldedRow::new(alloc, row);
                Ok(self.root.matches_folded(alloc, &mut folded)?)
            }
        }
    }

    /// The numbers of the songs that the filter denotes, rising; a song's number is its place by URI, from 0 on. Where the case counts,
    /// and the filter or a part of its outermost `AND` says that a tag has a value, only songs with that value are matched, by a look-up.
    pub fn select(&self, alloc: Global, songs: &SongDb, case: Case) -> Result<Vec<u32>, NoMemory>
        ensures numbers { IfOk result (λ numbers. numbers.items ≡ numbers_of (is_match case self.now) songs.now) }
    {
        if case == Case::Exact
            && let Some((tag, value)) = self.root.needed_value()
        {
            return select_with(alloc, songs, &self.root, tag, value);
        }
        select_of_all(alloc, songs.rows(), self, case)
    }

    /// How many tests it has, counted up to 4294967295.
    pub fn tests(&self) -> u32
        ensures { result ≡ tests_of self.now }
    {
        self.root.tests()
    }

    /// How many songs are asked: those with a value by which they are looked up, or all. It takes no memory.
    pub fn candidates(&self, songs: &SongDb, case: Case) -> usize
        ensures { result ≡ asked (looked_up case self.now) songs.now }
    {
        if case == Case::Folded {
            return songs.len();
        }
        match self.root.needed_value() {
            Some((tag, value)) => songs.count_with(tag, value.text()),
            None => songs.len(),
        }
    }

    /// Whether those with the value by which songs are looked up are so few that this is worth it where songs are told in another order
    /// than they are kept in. It takes no memory.
    pub fn are_few(&self, songs: &SongDb, case: Case) -> bool
        ensures { result ≡ are_few (looked_up case self.now) songs.now }
    {
        self.candidates(songs, case) < songs.len() / FEW
    }

    /// How often songs are looked at where they are asked this filter: each once for each test, and so much more. Where the case counts,
    /// and the filter or a part of its outermost `AND` says that a tag has a value, those with that value alone are asked, and not that
    /// test. It takes no memory.
    pub fn looks(&self, songs: &SongDb, case: Case, more: u8) -> u64
        ensures looks { result ≡ song_looks case self.now more songs.now }
        ensures few { result ≤ 4294967550 * 65536 }
    {
        let tests = u64::from(self.root.tests());
        let count = songs.len() as u64;
        if case == Case::Folded {
            return (tests + u64::from(more)) * count;
        }
        match self.root.needed_value() {
            None => (tests + u64::from(more)) * count,
            Some((tag, value)) => looks_with(
                songs,
                tests.saturating_sub(1) + u64::from(more),
                tag,
                value,
            ),
        }
    }

    /// The same where they are told in the profile's order: in the wide one all are asked, unless those with the value are few.
    pub fn told_looks(&self, profile: Profile, songs: &SongDb, case: Case, more: u8) -> u64
        ensures looks { result ≡ told_looks profile case self.now more songs.now }
        ensures few { result ≤ 4294967550 * 65536 }
    {
        match profile {
            Profile::Wide if !self.are_few(songs, case) => {
                (u64::from(self.root.tests()) + u64::from(more)) * songs.len() as u64
            }
            _ => self.looks(songs, case, more),
        }
    }
}

// Where one song of so many may match, each is asked in the order in which they are told.
const FEW: usize = 16;

// So many looks at each song with a value of a tag.
fn looks_with(songs: &SongDb, each: u64, tag: Tag, value: &TestValue) -> u64
    requires { each ≤ 4294967550 }
    ensures looks { result ≡ each * count_by (has_value tag value.now) songs.now }
    ensures few { result ≤ 4294967550 * 65536 }
{
    let _limit = songs.len();
    each * songs.count_with(tag, value.text()) as u64
}
