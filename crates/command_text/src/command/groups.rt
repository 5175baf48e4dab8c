// Reads `group TAG` behind a `list` or a `count`.
ghost use Rattle.std.specs.Prelude.{◌≡◌, ◌≤◌, [], length, take, Ok, Err, IfOk, IsTrue, MatchResult};
ghost use Rattle.filter_expr.specs.Names.{tag_named};
ghost use Rattle.profile.specs.declared.profile.Profile.TheVariants.{Wide};
ghost use Rattle.command_text.specs.Groups.{end_tag, is_grouped, last_word, part_ends, parted, takes_groups};

use crate::refusal::{CommandRefusal, TagsRefusal};
use crate::tag_list::TagList;
use crate::tag_mask::TagMask;
use filter_expr::{LineWord, tag_named};
use profile::Profile;
use song_files::Tag;
use std::alloc::AllocError;

/// Whether the words end in `group TAG`.
#[tactic(auto, unfolding(crate::specs::Groups::is_grouped))]
fn is_grouped(words: &[LineWord<'_>]) -> bool
    ensures value { result ≡ is_grouped words.now }
    ensures some { IsTrue result → 2 ≤ length words.now }
{
    words.len() >= 2 && words[words.len() - 2].bytes() == b"group".as_slice()
}

/// The same where the profile knows it.
#[tactic(auto, unfolding(crate::specs::Groups::is_grouped))]
pub(crate) fn takes_groups(profile: Profile, words: &[LineWord<'_>]) -> bool
    ensures value { result ≡ takes_groups profile words.now }
    ensures some { IsTrue result → 2 ≤ length words.now }
{
    match profile {
        Profile::Named => false,
        Profile::Wide => is_grouped(words),
    }
}

/// The tag of an end, one that was not named before.
pub(crate) fn end_tag(before: TagMask, tag: Option<Tag>) -> Result<Tag, CommandRefusal>
    ensures { result ≡ end_tag before tag }
{
    match tag {
        None => Err(CommandRefusal::Tags(TagsRefusal::UnknownTagType)),
        Some(tag) if before.contains(tag) => {
            Err(CommandRefusal::Tags(TagsRefusal::ConflictingGroup))
        }
        Some(tag) => Ok(tag),
    }
}

/// The tag that the last word names.
pub(crate) fn last_tag(words: &[LineWord<'_>]) -> Option<Tag>
    requires { 2 ≤ length words.now }
    ensures { result ≡ tag_named Wide (last_word words.now) }
{
    tag_named(Profile::Wide, words[words.len() - 1].bytes())
}

/// How many words stand before at most so many ends, whose tags are added, the last one first; or why these are none. No tag stands twice,
/// nor one that was named before.
pub(crate) fn part_ends(
    most: usize,
    before: TagMask,
    words: &[LineWord<'_>],
    tags: &mut TagList,
) -> Result<Result<usize, CommandRefusal>, AllocError>
    requires { tags.old ≡ [] }
    ensures parts { IfOk result (λ parts. MatchResult parts
        (λ end. part_ends most before words.now ≡ Ok (parted (take end words.now) tags.new))
        (λ refusal. part_ends most before words.now ≡ Err refusal)) }
    ensures within { IfOk result (λ parts. IfOk parts (λ end. end ≤ length words.now)) }
{
    let mut before = before;
    let mut end = words.len();
    let mut left = most;
    'ends: while left > 0 {
        let front = &words[..end];
        if !is_grouped(front) {
            return Ok(Ok(end));
        }
        match end_tag(before, last_tag(front)) {
            Err(refusal) => return Ok(Err(refusal)),
            Ok(tag) => {
                tags.push(tag)?;
                before = before.with(TagMask::only(tag));
                end -= 2;
                left -= 1;
            }
        }
    }
    Ok(Ok(end))
}
