// The names of tags and of a filter's other keys, in any case.
ghost use Rattle.std.specs.Prelude.{◌≡◌, codes};
ghost use Rattle.std.specs.Str.{str_eq_ignore_ascii_case};
ghost use Rattle.filter_expr.specs.Names.{tag_named, knows_times, is_file_name, any_of, other_key, key_named};

use crate::subject::Subject;
use profile::Profile;
use song_files::Tag;

/// What a name stands for in a filter.
#[derive(Clone, Copy, Debug)]
pub(crate) enum Key {
    Of(Subject),
    Base,
    /// Since when a song's file was changed.
    Since,
    /// What its sound is.
    Format,
}

/// The tag of a name, if the profile has it; the case of ASCII letters doesn't count.
pub fn tag_named(profile: Profile, name: &[u8]) -> Option<Tag>
    ensures { result ≡ tag_named profile name.now }
{
    let tag = Tag::named(name)?;
    if !profile.tags().contains(tag) {
        return None;
    }
    Some(tag)
}

/// Whether songs are told apart by when their files were changed.
pub(crate) fn knows_times(profile: Profile) -> bool
    ensures { result ≡ knows_times profile }
{
    match profile {
        Profile::Named => false,
        Profile::Wide => true,
    }
}

/// Whether it is the name of a song's file: `file`, in the wide profile `filename` too.
pub(crate) fn is_file_name(profile: Profile, name: &[u8]) -> bool
    ensures { result ≡ is_file_name profile name.now }
{
    match profile {
        Profile::Named => is_named(name, b"file"),
        Profile::Wide => is_named(name, b"file") || is_named(name, b"filename"),
    }
}

/// All tags, as a profile looks at them.
fn any_of(profile: Profile) -> Subject
    ensures { result ≡ any_of profile }
{
    match profile {
        Profile::Named => Subject::Any,
        Profile::Wide => Subject::AnyText,
    }
}

/// What the wide profile alone looks at.
fn other_key(profile: Profile, name: &[u8]) -> Option<Key>
    ensures { result ≡ other_key profile name.now }
{
    match profile {
        Profile::Named => None,
        Profile::Wide => {
            if is_named(name, b"modified-since") {
                Some(Key::Since)
            } else if is_named(name, b"audioformat") {
                Some(Key::Format)
            } else {
                None
            }
        }
    }
}

/// What the name stands for: a tag, `any`, a song's file, `base` or, in the wide profile, `modified-since` or `AudioFormat`.
#[tactic(auto, unfolding(crate::specs::Names::key_named))]
pub(crate) fn key_named(profile: Profile, name: &[u8]) -> Option<Key>
    ensures { result ≡ key_named profile name.now }
{
    if let Some(tag) = tag_named(profile, name) {
        return Some(Key::Of(Subject::OfTag(tag)));
    }
    if is_named(name, b"any") {
        Some(Key::Of(any_of(profile)))
    } else if is_file_name(profile, name) {
        Some(Key::Of(Subject::File))
    } else if is_named(name, b"base") {
        Some(Key::Base)
    } else {
        other_key(profile, name)
    }
}

pub(crate) fn is_named(name: &[u8], wanted: &[u8]) -> bool
    ensures { result ≡ str_eq_ignore_ascii_case name.now wanted.now }
{
    name.eq_ignore_ascii_case(wanted)
}
