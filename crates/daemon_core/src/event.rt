// The events of the one history: what clients, the player's output, the scan and a clock brought, in the order in which they are handled.
use crate::picture::PictureTold;
use command_text::Request;
use idle_masks::ClientId;
use machine_core::ClockTime;
use player_core::BrokenCause;
use state_codec::Changes;

/// What happens to the daemon: each event is handled whole before the next one.
#[derive(Debug, Drop)]
pub enum Event {
    /// A client has connected. Numbers of clients rise and are never used again.
    Connect(ClientId),
    /// A client has sent a request: a line, or a whole command list.
    Request(ClientId, Request),
    /// A client's connection has ended.
    Gone(ClientId),
    /// The output took so many frames of the song that was started with this ticket.
    Fed { ticket: u64, frames: u64 },
    /// The song of this ticket has been played to its end.
    Ended { ticket: u64 },
    /// The song of this ticket can't be played on.
    Broken { ticket: u64, cause: BrokenCause },
    /// What a scan found, for the job of this number.
    Batch { job: u32, changes: Changes },
    /// The scan of this job has read its place, and misses so many songs that were known: it comes before the first change that drops one.
    Missing { job: u32, songs: usize },
    /// The scan of this job is over.
    ScanDone { job: u32 },
    /// A clock tells the time: it comes before what needs it.
    Clock(ClockTime),
    /// The song of this ticket has been played for a while: where the player is now is kept.
    Keep { ticket: u64 },
    /// The player goes on from where it was kept: a song that played plays on, or is paused.
    Resume { plays: bool },
    /// The journal's disk has no room for what changes, or there is room again.
    Room { is_there: bool },
    /// This was read of a picture for a client: it comes right before the request that asks for it.
    Picture(ClientId, PictureTold),
}
