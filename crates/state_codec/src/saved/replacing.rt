// A playlist that gets the songs of the queue in place of its own.
ghost use Rattle.std.specs.Prelude.{◌≡◌, None, OnOk, OnErr};
ghost use Rattle.std.specs.Str.{bytes_eq};
ghost use Rattle.play_queue.specs.Shown.{shown};
ghost use Rattle.state_codec.specs.Applied.{after_all};
ghost use Rattle.state_codec.specs.Editing.{AnswersApply, AnswersCheck};
ghost use Rattle.state_codec.specs.OpsLists.{same_uris, uris_of};
ghost use Rattle.state_codec.specs.Replacing.{replace_ops, replace_refusal, replaces_nothing};

use super::Saved;
use super::checking::of_lists;
use crate::refusal::{ApplyError, OpRefusal};
use play_queue::{Entries, EntryRef};
use song_db::Uri;
use std::alloc::Global;

impl Saved {
    /// Gives a playlist the songs of the queue in place of its own: what the two ops do that take it out and save it
    /// anew. All memory is taken before the old songs go, so it is never lost between the two. Refused where
    /// `check_replace` refuses it, and else by want of memory alone; the state then stays as it was.
    pub fn replace_list(&mut self, alloc: Global, name: &str) -> Result<(), ApplyError>
        ensures ok { OnOk result (self.new ≡ after_all (replace_ops name.now) self.old) }
        ensures err { OnErr result (self.new ≡ self.old) }
        ensures answer { AnswersApply (replace_refusal name.now self.old) result }
    {
        self.parts.replace_list(alloc, name)
    }

    /// What `replace_list` would be refused for, but for want of memory: a bad name, a playlist that is missing, or too
    /// many entries of all playlists together after the change.
    pub fn check_replace(&self, name: &str) -> Result<(), OpRefusal>
        ensures { AnswersCheck (replace_refusal name.now self.now) result }
    {
        of_lists(self.parts.lists.check_replace(name, self.parts.queue.len()))
    }

    /// Whether `replace_list`, where it isn't refused, would leave the state as it is: the playlist has just the songs
    /// of the queue. It takes no memory, and looks at the songs up to the first that differs.
    pub fn replaces_nothing(&self, name: &str) -> bool
        ensures { replace_refusal name.now self.now ≡ None → result ≡ replaces_nothing name.now self.now }
    {
        match self.parts.lists.get(name) {
            Ok(songs) => are_uris_of(songs.as_slice(), self.parts.queue.entries()),
            Err(_) => false,
        }
    }
}

// Whether these are the URIs of the entries, in the same order.
fn are_uris_of(uris: &[Uri], entries: &Entries) -> bool
    ensures { result ≡ same_uris uris.now (uris_of entries.now) }
{
    if uris.len() != entries.len() {
        return false;
    }
    for at in 0..uris.len() {
        if !is_uri_of(&uris[at], entries.at(at)) {
            return false;
        }
    }
    true
}

fn is_uri_of(uri: &Uri, entry: EntryRef<'_>) -> bool
    ensures { result ≡ bytes_eq uri.now (shown entry.entry).uri }
{
    uri.as_str() == entry.uri.as_str()
}
