// Reads the commands that look for songs by a filter.
ghost use Rattle.std.specs.Prelude.{◌≡◌, ◌+◌, ◌<◌, ◌≤◌, ◌^◌, length, IsTrue, IsSome};
ghost use Rattle.std.specs.Option.{option_map};
ghost use Rattle.std.specs.Result.{result_map_both};
ghost use Rattle.command_text.specs.Finding.{is_expression, are_pairs, named_filter_count, named_search_count, begins_part, pairs_length};
ghost use Rattle.command_text.specs.Finding.{ends_filter, pair_length, next_length, mixed_length, first_length, is_begun, has_filter_count};
ghost use Rattle.command_text.specs.Finding.{has_search_count};
ghost use Rattle.filter_expr.specs.Parts.{opening, begins_so};
ghost use Rattle.profile.specs.declared.profile.Profile.TheVariants.{Named, Wide};
ghost use Rattle.command_text.specs.Finding.{filter_length, value_behind, second_place, sort_part, window_part, position_part};
ghost use Rattle.command_text.specs.Finding.{place_part, nothing_left, has_arranged_count, arranged_parts, in_queue_of};
ghost use Rattle.command_text.specs.Finding.{search_parts, find_of, find_add_of, filter_alone, add_to_playlist_of, list_of, finding_of};
ghost use Rattle.command_text.specs.Finding.{files_of, is_artist_alone, is_file, listed_words, values_of};
ghost use Rattle.command_text.specs.Finding.{count_of, filter_if_any, group_counts_of, grouped_tag, groups_of, listing_of};
ghost use Rattle.command_text.specs.Groups.{takes_groups};
ghost use Rattle.command_text.specs.Stops.{Reads, ReadsAs};

use crate::argument::{argument, number, target, window};
use crate::command::groups::{end_tag, last_tag, part_ends, takes_groups};
use crate::named::{filter_argument, playlist_name, sort_order, tag_argument};
use crate::range::Window;
use crate::refusal::CommandRefusal;
use crate::stop::Stop;
use crate::tag_list::TagList;
use crate::tag_mask::TagMask;
use crate::text::Text;
use crate::topic::FindingName;
use filter_expr::{Case, Filter, LineWord, SortOrder, tag_named};
use play_queue::Target;
use profile::Profile;
use song_files::{TAG_COUNT, Tag};
use std::alloc::Global;

/// Which songs are looked for, in which order and which part of them.
#[derive(Debug, Drop)]
pub struct Search {
    pub case: Case,
    pub filter: Filter,
    /// As they are told, or as they stand in the queue, if nothing is said.
    pub sort: Option<SortOrder>,
    pub window: Option<Window>,
}

/// A command that finds songs.
#[derive(Debug, Drop)]
pub enum FindingCommand<'w> {
    /// Adds what is found to the queue.
    Add(Search, Option<Target>),
    /// Adds what is found, the case of letters aside, to a playlist, at a place, or at the end.
    AddToPlaylist(Text<'w>, Search, Option<u32>),
    Count(Filter),
    /// How many songs have each value of a tag, of all songs or of those that match.
    CountGroups(Tag, Option<Filter>),
    Find(Search),
    /// The entries of the queue that match.
    InQueue(Search),
    /// The files of all songs or of those that match.
    ListFiles(Option<Filter>),
    /// The distinct values of tags, each within those of the tag before it, of all songs or of those that match.
    ListGroups(TagList, Option<Filter>),
    /// The distinct values of a tag, of all songs or of those that match.
    ListTag(Tag, Option<Filter>),
}

/// The command of this name with these arguments.
#[tactic(auto, unfolding(crate::specs::Finding::finding_of))]
pub(crate) fn read<'w>(
    alloc: Global,
    profile: Profile,
    name: FindingName,
    words: &'w [LineWord<'_>],
) -> Result<FindingCommand<'w>, Stop>
    ensures { Reads result (finding_of profile name words.now) }
{
    match name {
        FindingName::Count => count(alloc, profile, words),
        FindingName::Find => find(alloc, profile, Case::Exact, words),
        FindingName::FindAdd => find_add(alloc, profile, Case::Exact, words),
        FindingName::ListTag => list(alloc, profile, words),
        FindingName::QueueFind => in_queue(alloc, profile, Case::Exact, words),
        FindingName::QueueSearch => in_queue(alloc, profile, Case::Folded, words),
        FindingName::Search => find(alloc, profile, Case::Folded, words),
        FindingName::SearchAdd => find_add(alloc, profile, Case::Folded, words),
        FindingName::SearchAddPlaylist => add_to_playlist(alloc, profile, words),
    }
}

/// Whether the first word is an expression.
fn is_expression(words: &[LineWord<'_>]) -> bool
    ensures { result ≡ is_expression words.now }
{
    match words {
        [] => false,
        [word, ..] => begins_expression(word.bytes()),
    }
}

fn begins_expression(word: &[u8]) -> bool
    ensures { result ≡ begins_so opening word.now }
{
    match word {
        [] => false,
        [first, ..] => *first == b'(',
    }
}

/// Whether these are pairs by their count.
fn are_pairs(words: &[LineWord<'_>]) -> bool
    ensures { result ≡ are_pairs words.now }
{
    words.len() >= 2 && words.len() % 2 == 0
}

/// Whether these may be a filter of the named subset that stands alone, by their count.
fn named_filter_count(words: &[LineWord<'_>]) -> bool
    ensures { result ≡ named_filter_count words.now }
{
    if is_expression(words) {
        words.len() == 1
    } else {
        are_pairs(words)
    }
}

/// Whether these may be a filter of the named subset and parts behind it, by their count.
fn named_search_count(words: &[LineWord<'_>]) -> bool
    ensures { result ≡ named_search_count words.now }
{
    if is_expression(words) {
        words.len() % 2 != 0
    } else {
        are_pairs(words)
    }
}

/// Whether the word begins a part behind a filter.
fn begins_part(adds: bool, word: &[u8]) -> bool
    ensures { result ≡ begins_part adds word.now }
{
    word == b"sort".as_slice()
        || word == b"window".as_slice()
        || (adds && word == b"position".as_slice())
}

/// How many words the pairs have up to the first part behind them.
fn pairs_length(adds: bool, words: &[LineWord<'_>]) -> usize
    ensures value { result ≡ pairs_length adds words.now }
    ensures bound { result ≤ length words.now }
{
    let mut passed = 0;
    'pairs: while words.len() - passed >= 2 {
        if begins_part(adds, words[passed].bytes()) {
            return passed;
        }
        passed += 2;
    }
    passed
}

/// Whether the word ends a filter: nothing does where nothing stands behind it.
fn ends_filter(parts: Option<bool>, word: &[u8]) -> bool
    ensures { result ≡ ends_filter parts word.now }
{
    match parts {
        None => false,
        Some(adds) => begins_part(adds, word),
    }
}

/// How many words a pair of this tag has with what stands behind it; none where the tag ends the filter or has no value.
fn pair_length(parts: Option<bool>, tag: &[u8], behind: &[LineWord<'_>]) -> usize
    ensures value { result ≡ pair_length parts tag.now behind.now }
    ensures bound { result ≤ length behind.now + 1 }
{
    match behind {
        [] => 0,
        [_, ..] => { if ends_filter(parts, tag) { 0 } else { 2 } }
    }
}

/// How many words the expression or the pair in front has; none where it ends the filter or has no value.
fn next_length(parts: Option<bool>, words: &[LineWord<'_>]) -> usize
    ensures value { result ≡ next_length parts words.now }
    ensures bound { result ≤ length words.now }
{
    match words {
        [] => 0,
        [word, behind @ ..] => {
            if begins_expression(word.bytes()) {
                1
            } else {
                pair_length(parts, word.bytes(), behind)
            }
        }
    }
}

/// How many words expressions and pairs in any order have, up to a word that ends a filter or a tag without a value.
fn mixed_length(parts: Option<bool>, words: &[LineWord<'_>]) -> usize
    ensures value { result ≡ mixed_length parts words.now }
    ensures bound { result ≤ length words.now }
{
    let mut passed = 0;
    'mixed: while passed < words.len() {
        let next = next_length(parts, &words[passed..]);
        if next == 0 {
            return passed;
        }
        passed += next;
    }
    passed
}

/// How many words the expression or the pair in front has.
fn first_length(words: &[LineWord<'_>]) -> usize
    ensures { result ≡ first_length words.now }
{
    if is_expression(words) { 1 } else { 2 }
}

/// Whether an expression or a pair stands in front.
fn is_begun(words: &[LineWord<'_>]) -> bool
    ensures value { result ≡ is_begun words.now }
    ensures within { IsTrue result → first_length words.now ≤ length words.now }
{
    is_expression(words) || words.len() >= 2
}

/// How many words the filter has in the named subset.
fn named_length(adds: bool, words: &[LineWord<'_>]) -> usize
    requires { IsTrue (named_search_count words.now) }
    ensures value { result ≡ filter_length Named adds words.now }
    ensures bound { result ≤ length words.now }
{
    if is_expression(words) {
        1
    } else {
        2 + pairs_length(adds, &words[2..])
    }
}

/// How many words the filter has in the wide profile.
fn wide_length(adds: bool, words: &[LineWord<'_>]) -> usize
    requires { first_length words.now ≤ length words.now }
    ensures value { result ≡ filter_length Wide adds words.now }
    ensures bound { result ≤ length words.now }
{
    let first = first_length(words);
    first + mixed_length(Some(adds), &words[first..])
}

/// How many words the filter has.
fn filter_length(profile: Profile, adds: bool, words: &[LineWord<'_>]) -> usize
    requires { IsTrue (has_search_count profile adds words.now) }
    ensures value { result ≡ filter_length profile adds words.now }
    ensures bound { result ≤ length words.now }
{
    match profile {
        Profile::Named => named_length(adds, words),
        Profile::Wide => wide_length(adds, words),
    }
}

/// Whether these may be a filter that stands alone, by their count.
fn has_filter_count(profile: Profile, words: &[LineWord<'_>]) -> bool
    ensures { result ≡ has_filter_count profile words.now }
{
    match profile {
        Profile::Named => named_filter_count(words),
        Profile::Wide => is_begun(words) && mixed_length(None, words) == words.len(),
    }
}

/// Whether these may be a filter and parts behind it, by their count.
fn has_search_count(profile: Profile, adds: bool, words: &[LineWord<'_>]) -> bool
    ensures { result ≡ has_search_count profile adds words.now }
{
    match profile {
        Profile::Named => named_search_count(words),
        Profile::Wide => { is_begun(words) && words[wide_length(adds, words)..].len() % 2 == 0 }
    }
}

/// What stands behind a name in front of these words.
fn value_behind<'w>(name: &[u8], words: &'w [LineWord<'_>]) -> Option<&'w [u8]>
    ensures value { option_map (λ word. word.now) result ≡ value_behind name.now words.now }
    ensures some { IsSome result → 2 ≤ length words.now }
{
    match words {
        [word, value, ..] if word.bytes() == name => Some(value.bytes()),
        _ => None,
    }
}

/// The place of the second of these last words, where so many arguments are counted from 1.
fn second_place(total: usize, words: &[LineWord<'_>]) -> usize
    requires { total + 2 < 2 ^ 64 }
    ensures { result ≡ second_place total words.now }
{
    total.saturating_sub(words.len()) + 2
}

/// An order, if it is there, and the words behind it.
#[tactic(auto, unfolding(crate::specs::Finding::sort_part))]
fn sort_part<'w, 'a>(
    alloc: Global,
    profile: Profile,
    words: &'w [LineWord<'a>],
) -> Result<(Option<SortOrder>, &'w [LineWord<'a>]), Stop>
    ensures exact { ReadsAs (λ x. (x.0, x.1.now)) result (sort_part profile words.now) }
{
    match value_behind(b"sort", words) {
        None => Ok((None, words)),
        Some(word) => Ok((Some(sort_order(alloc, profile, word)?), &words[2..])),
    }
}

/// A window, if it is there, and the words behind it.
#[tactic(auto, unfolding(crate::specs::Finding::window_part))]
fn window_part<'w, 'a>(
    total: usize,
    words: &'w [LineWord<'a>],
) -> Result<(Option<Window>, &'w [LineWord<'a>]), CommandRefusal>
    requires { total + 2 < 2 ^ 64 }
    ensures { result_map_both (λ x. (x.0, x.1.now)) (λ refusal. refusal) result ≡ window_part total words.now }
{
    match value_behind(b"window", words) {
        None => Ok((None, words)),
        Some(word) => {
            let part = argument(second_place(total, words), window(word))?;
            Ok((Some(part), &words[2..]))
        }
    }
}

/// A place where entries go, if it is there, and the words behind it.
#[tactic(auto, unfolding(crate::specs::Finding::position_part))]
fn position_part<'w, 'a>(
    total: usize,
    words: &'w [LineWord<'a>],
) -> Result<(Option<Target>, &'w [LineWord<'a>]), CommandRefusal>
    requires { total + 2 < 2 ^ 64 }
    ensures { result_map_both (λ x. (x.0, x.1.now)) (λ refusal. refusal) result ≡ position_part total words.now }
{
    match value_behind(b"position", words) {
        None => Ok((None, words)),
        Some(word) => {
            let part = argument(second_place(total, words), target(word))?;
            Ok((Some(part), &words[2..]))
        }
    }
}

/// A place of a playlist, if it is there, and the words behind it.
#[tactic(auto, unfolding(crate::specs::Finding::place_part))]
fn place_part<'w, 'a>(
    total: usize,
    words: &'w [LineWord<'a>],
) -> Result<(Option<u32>, &'w [LineWord<'a>]), CommandRefusal>
    requires { total + 2 < 2 ^ 64 }
    ensures { result_map_both (λ x. (x.0, x.1.now)) (λ refusal. refusal) result ≡ place_part total words.now }
{
    match value_behind(b"position", words) {
        None => Ok((None, words)),
        Some(word) => {
            let part = argument(second_place(total, words), number(word))?;
            Ok((Some(part), &words[2..]))
        }
    }
}

/// The value, where no word is left.
fn nothing_left<T: Drop>(
    total: usize,
    words: &[LineWord<'_>],
    value: T,
) -> Result<T, CommandRefusal>
    ensures { result ≡ nothing_left total words.now value }
{
    match words {
        [] => Ok(value),
        [_, rest @ ..] => Err(CommandRefusal::BadArgument(total.saturating_sub(rest.len()))),
    }
}

/// A filter, an order and a window, and the words behind them, of so many arguments in all.
#[tactic(auto, unfolding(crate::specs::Finding::search_parts))]
fn search_parts<'w, 'a>(
    alloc: Global,
    profile: Profile,
    adds: bool,
    case: Case,
    total: usize,
    words: &'w [LineWord<'a>],
) -> Result<(Search, &'w [LineWord<'a>]), Stop>
    requires count { IsTrue (has_search_count profile adds words.now) }
    requires few { total + 2 < 2 ^ 64 }
    ensures { ReadsAs (λ x. (x.0, x.1.now)) result (search_parts profile adds case total words.now) }
{
    let (of_filter, behind) = words.split_at(filter_length(profile, adds, words));
    let filter = filter_argument(alloc, profile, of_filter)?;
    let (sort, behind) = sort_part(alloc, profile, behind)?;
    let (window, behind) = window_part(total, behind)?;
    let search = Search {
        case,
        filter,
        sort,
        window,
    };
    Ok((search, behind))
}

#[tactic(auto, unfolding(crate::specs::Finding::find_of))]
fn find<'w>(
    alloc: Global,
    profile: Profile,
    case: Case,
    words: &'w [LineWord<'_>],
) -> Result<FindingCommand<'w>, Stop>
    ensures { Reads result (find_of profile case words.now) }
{
    if !has_search_count(profile, false, words) {
        return Err(Stop::Refused(CommandRefusal::WrongCount));
    }
    let (search, behind) = search_parts(alloc, profile, false, case, words.len(), words)?;
    let command = FindingCommand::Find(search);
    Ok(nothing_left(words.len(), behind, command)?)
}

#[tactic(auto, unfolding(crate::specs::Finding::find_add_of))]
fn find_add<'w>(
    alloc: Global,
    profile: Profile,
    case: Case,
    words: &'w [LineWord<'_>],
) -> Result<FindingCommand<'w>, Stop>
    ensures { Reads result (find_add_of profile case words.now) }
{
    if !has_search_count(profile, true, words) {
        return Err(Stop::Refused(CommandRefusal::WrongCount));
    }
    let (search, behind) = search_parts(alloc, profile, true, case, words.len(), words)?;
    let (to, behind) = position_part(words.len(), behind)?;
    let command = FindingCommand::Add(search, to);
    Ok(nothing_left(words.len(), behind, command)?)
}

/// A filter and nothing behind it.
#[tactic(auto, unfolding(crate::specs::Finding::filter_alone))]
fn filter_alone(alloc: Global, profile: Profile, words: &[LineWord<'_>]) -> Result<Filter, Stop>
    ensures { Reads result (filter_alone profile words.now) }
{
    if !has_filter_count(profile, words) {
        return Err(Stop::Refused(CommandRefusal::WrongCount));
    }
    filter_argument(alloc, profile, words)
}

/// Whether these may be a filter by their count, behind which in the wide profile such parts may stand.
fn has_arranged_count(profile: Profile, adds: bool, words: &[LineWord<'_>]) -> bool
    ensures { result ≡ has_arranged_count profile adds words.now }
{
    match profile {
        Profile::Named => has_filter_count(profile, words),
        Profile::Wide => has_search_count(profile, adds, words),
    }
}

/// Such a filter with its order and window, and the words behind them, of so many arguments in all.
#[tactic(auto, unfolding(crate::specs::Finding::arranged_parts))]
fn arranged_parts<'w, 'a>(
    alloc: Global,
    profile: Profile,
    adds: bool,
    case: Case,
    total: usize,
    words: &'w [LineWord<'a>],
) -> Result<(Search, &'w [LineWord<'a>]), Stop>
    requires count { IsTrue (has_arranged_count profile adds words.now) }
    requires few { total + 2 < 2 ^ 64 }
    ensures { ReadsAs (λ x. (x.0, x.1.now)) result (arranged_parts profile adds case total words.now) }
{
    match profile {
        Profile::Named => {
            let filter = filter_argument(alloc, profile, words)?;
            let search = Search {
                case,
                filter,
                sort: None,
                window: None,
            };
            Ok((search, &words[words.len()..]))
        }
        Profile::Wide => search_parts(alloc, profile, adds, case, total, words),
    }
}

#[tactic(auto, unfolding(crate::specs::Finding::add_to_playlist_of))]
fn add_to_playlist<'w>(
    alloc: Global,
    profile: Profile,
    words: &'w [LineWord<'_>],
) -> Result<FindingCommand<'w>, Stop>
    ensures { Reads result (add_to_playlist_of profile words.now) }
{
    match words {
        [] => Err(Stop::Refused(CommandRefusal::WrongCount)),
        [name, rest @ ..] => {
            if !has_arranged_count(profile, true, rest) {
                return Err(Stop::Refused(CommandRefusal::WrongCount));
            }
            let total = words.len();
            let name = playlist_name(name.bytes())?;
            let (search, behind) = arranged_parts(alloc, profile, true, Case::Folded, total, rest)?;
            let (to, behind) = place_part(total, behind)?;
            let command = FindingCommand::AddToPlaylist(name, search, to);
            Ok(nothing_left(total, behind, command)?)
        }
    }
}

#[tactic(auto, unfolding(crate::specs::Finding::in_queue_of))]
fn in_queue<'w>(
    alloc: Global,
    profile: Profile,
    case: Case,
    words: &'w [LineWord<'_>],
) -> Result<FindingCommand<'w>, Stop>
    ensures { Reads result (in_queue_of profile case words.now) }
{
    if !has_arranged_count(profile, false, words) {
        return Err(Stop::Refused(CommandRefusal::WrongCount));
    }
    let (search, behind) = arranged_parts(alloc, profile, false, case, words.len(), words)?;
    let command = FindingCommand::InQueue(search);
    Ok(nothing_left(words.len(), behind, command)?)
}

#[tactic(auto, unfolding(crate::specs::Finding::list_of))]
fn list<'w>(
    alloc: Global,
    profile: Profile,
    words: &'w [LineWord<'_>],
) -> Result<FindingCommand<'w>, Stop>
    ensures { Reads result (list_of profile words.now) }
{
    match words {
        [] => Err(Stop::Refused(CommandRefusal::WrongCount)),
        [name, words @ ..] => {
            if is_file(profile, name.bytes()) {
                return files(alloc, profile, words);
            }
            listing(alloc, profile, name.bytes(), words)
        }
    }
}

/// The values of a tag, or those within the values of others, with these words behind its name.
fn listing<'w>(
    alloc: Global,
    profile: Profile,
    name: &[u8],
    words: &'w [LineWord<'_>],
) -> Result<FindingCommand<'w>, Stop>
    ensures { Reads result (listing_of profile name.now words.now (grouped_tag profile name.now words.now)) }
{
    match grouped_tag(profile, name, words) {
        None => list_behind(alloc, profile, name, words),
        Some(tag) => groups(alloc, profile, tag, words),
    }
}

/// The tag of a `list` that ends in `group TAG`.
fn grouped_tag(profile: Profile, name: &[u8], words: &[LineWord<'_>]) -> Option<Tag>
    ensures { result ≡ grouped_tag profile name.now words.now }
{
    if takes_groups(profile, words) {
        tag_named(profile, name)
    } else {
        None
    }
}

/// A filter and nothing behind it, if there is a word.
fn filter_if_any(
    alloc: Global,
    profile: Profile,
    words: &[LineWord<'_>],
) -> Result<Option<Filter>, Stop>
    ensures { Reads result (filter_if_any profile words.now) }
{
    if words.is_empty() {
        return Ok(None);
    }
    let filter = filter_alone(alloc, profile, words)?;
    Ok(Some(filter))
}

/// The values of a tag within those of others.
fn groups<'w>(
    alloc: Global,
    profile: Profile,
    tag: Tag,
    words: &'w [LineWord<'_>],
) -> Result<FindingCommand<'w>, Stop>
    ensures { Reads result (groups_of profile tag words.now) }
{
    let mut tags = TagList::new(alloc);
    match part_ends(TAG_COUNT, TagMask::only(tag), words, &mut tags)? {
        Err(refusal) => Err(Stop::Refused(refusal)),
        Ok(end) => {
            let filter = filter_if_any(alloc, profile, &words[..end])?;
            tags.push(tag)?;
            Ok(FindingCommand::ListGroups(tags, filter))
        }
    }
}

/// How many songs match, or how many have each value of a tag.
fn count<'w>(
    alloc: Global,
    profile: Profile,
    words: &'w [LineWord<'_>],
) -> Result<FindingCommand<'w>, Stop>
    ensures { Reads result (count_of profile words.now) }
{
    if takes_groups(profile, words) {
        return count_groups(alloc, profile, words);
    }
    let filter = filter_alone(alloc, profile, words)?;
    Ok(FindingCommand::Count(filter))
}

/// The songs of each value of a tag.
#[tactic(auto, unfolding(crate::specs::Finding::group_counts_of))]
fn count_groups<'w>(
    alloc: Global,
    profile: Profile,
    words: &'w [LineWord<'_>],
) -> Result<FindingCommand<'w>, Stop>
    requires { 2 ≤ length words.now }
    ensures { Reads result (group_counts_of profile words.now) }
{
    let tag = end_tag(TagMask::empty(), last_tag(words))?;
    let filter = filter_if_any(alloc, profile, &words[..words.len() - 2])?;
    Ok(FindingCommand::CountGroups(tag, filter))
}

/// Whether songs' files stand in a tag's place of `list`.
fn is_file(profile: Profile, name: &[u8]) -> bool
    ensures { result ≡ is_file profile name.now }
{
    match profile {
        Profile::Named => false,
        Profile::Wide => {
            name.eq_ignore_ascii_case(b"file") || name.eq_ignore_ascii_case(b"filename")
        }
    }
}

/// The files of all songs, or of those of a filter.
fn files<'w>(
    alloc: Global,
    profile: Profile,
    words: &'w [LineWord<'_>],
) -> Result<FindingCommand<'w>, Stop>
    ensures { Reads result (files_of profile words.now) }
{
    if words.is_empty() {
        return Ok(FindingCommand::ListFiles(None));
    }
    let filter = filter_alone(alloc, profile, words)?;
    Ok(FindingCommand::ListFiles(Some(filter)))
}

/// The values of a tag, with these words behind its name.
fn list_behind<'w>(
    alloc: Global,
    profile: Profile,
    name: &[u8],
    words: &'w [LineWord<'_>],
) -> Result<FindingCommand<'w>, Stop>
    ensures { Reads result (values_of profile name.now (listed_words profile name.now words.now)) }
{
    match words {
        [word] => {
            if is_artist_alone(profile, name, word.bytes()) {
                let pair = [
                    LineWord::from_slice(b"Artist"),
                    LineWord::from_slice(word.bytes()),
                ];
                return values(alloc, profile, name, &pair);
            }
            values(alloc, profile, name, words)
        }
        _ => values(alloc, profile, name, words),
    }
}

/// Whether the word behind a tag's name is an artist, of whom the albums are listed.
fn is_artist_alone(profile: Profile, name: &[u8], word: &[u8]) -> bool
    ensures { result ≡ is_artist_alone profile name.now word.now }
{
    match profile {
        Profile::Named => false,
        Profile::Wide => name.eq_ignore_ascii_case(b"Album") && !begins_expression(word),
    }
}

/// The values of a tag, of all songs or of those of a filter.
#[tactic(auto, unfolding(crate::specs::Finding::values_of))]
fn values<'w>(
    alloc: Global,
    profile: Profile,
    name: &[u8],
    words: &[LineWord<'_>],
) -> Result<FindingCommand<'w>, Stop>
    ensures { Reads result (values_of profile name.now words.now) }
{
    if words.is_empty() {
        let tag = tag_argument(alloc, profile, name)?;
        return Ok(FindingCommand::ListTag(tag, None));
    }
    if !has_filter_count(profile, words) {
        return Err(Stop::Refused(CommandRefusal::WrongCount));
    }
    let tag = tag_argument(alloc, profile, name)?;
    let filter = filter_argument(alloc, profile, words)?;
    Ok(FindingCommand::ListTag(tag, Some(filter)))
}
