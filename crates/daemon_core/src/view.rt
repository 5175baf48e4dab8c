// How a client is told.
ghost use Rattle.std.specs.Prelude.{◌≡◌};
ghost use Rattle.daemon_core.specs.Views.{fresh_view, is_fresh, same_view, view_behind};

use command_text::{Command, DatabaseCommand, SetupCommand, TagMask};

/// How a client is told: the tags that it sees, and how many bytes of a picture an answer to it may have.
#[derive(Clone, Copy, Debug)]
pub struct View {
    pub tags: TagMask,
    pub limit: u32,
}

// As MPD 0.23.12 has it at first.
const FRESH_LIMIT: u32 = 8_192;

impl View {
    // Of a client that has said nothing of it.
    pub(crate) fn fresh() -> Self
        ensures { result ≡ fresh_view }
    {
        View {
            tags: TagMask::all(),
            limit: FRESH_LIMIT,
        }
    }

    pub(crate) fn is_fresh(self) -> bool
        ensures { result ≡ is_fresh self }
    {
        self.tags.is_all() && self.limit == FRESH_LIMIT
    }

    pub(crate) fn is_same(self, other: View) -> bool
        ensures { result ≡ same_view self other }
    {
        self.tags.bits == other.tags.bits && self.limit == other.limit
    }

    // How it is told behind a command.
    #[tactic(auto, unfolding(crate::specs::Views::view_behind))]
    pub(crate) fn behind(self, command: &Command<'_>) -> Self
        ensures { result ≡ view_behind command.now self }
    {
        match command {
            Command::Database(DatabaseCommand::ChangeMask(change)) => View {
                tags: self.tags.changed(*change),
                limit: self.limit,
            },
            Command::Setup(SetupCommand::BinaryLimit(limit)) => View {
                tags: self.tags,
                limit: *limit,
            },
            _ => self,
        }
    }
}
