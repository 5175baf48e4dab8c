// The song that is open between two orders.
ghost use Rattle.std.specs.Prelude.{◌≡◌};
ghost use Rattle.song_output.specs.OpenSong.{kind_of, kind_by};

use player_core::PlayOrder;
use song_db::Uri;
use wave_pcm::WaveInfo;

/// A song whose file is open and whose head was read, to be played on.
#[derive(Debug, Drop)]
pub struct OpenSong<S> {
    /// The ticket and the URI of the orders that it plays.
    pub ticket: u64,
    pub uri: Uri,
    /// Its file.
    pub source: S,
    /// What the head of the file tells.
    pub info: WaveInfo,
    /// The frame that follows what was played; the first of a file is 0.
    pub next_frame: u64,
}

/// How an order stands to the song that is open.
#[derive(Clone, Copy, Debug, PartialEq, Eq)]
pub enum OrderKind {
    /// It is for the frames that follow what was played.
    Next,
    /// It is of the same ticket and URI, and for frames before those that follow. Such an order comes only where the file
    /// has more frames than its song's row tells of: the position can't pass the row's, so the song is at its end.
    Ended,
    /// It is for another song or place: the file is opened anew.
    Other,
}

impl<S> OpenSong<S> {
    fn kind_of(&self, order: &PlayOrder) -> OrderKind
        ensures { result ≡ kind_of (Some self.now) order.now }
    {
        if self.ticket != order.ticket || self.uri.as_str() != order.uri.as_str() {
            return OrderKind::Other;
        }
        if order.first_frame == self.next_frame {
            return OrderKind::Next;
        }
        if order.first_frame < self.next_frame {
            return OrderKind::Ended;
        }
        OrderKind::Other
    }
}

pub(crate) fn order_kind<S>(song: &Option<OpenSong<S>>, order: &PlayOrder) -> OrderKind
    ensures { result ≡ kind_of song.now order.now }
{
    match song {
        Some(song) => song.kind_of(order),
        None => OrderKind::Other,
    }
}
