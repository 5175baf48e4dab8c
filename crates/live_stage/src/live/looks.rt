// What the player's and the scan's thread look for.
ghost use Rattle.std.specs.Prelude.{◌≡◌, ◌↔◌, false, IfOk, IsTrue, option_copied, option_map};
ghost use Rattle.player_core.specs.declared.playing.PlayState.{PlayState};
ghost use Rattle.player_core.specs.declared.order.Order.{Order as PlayOrder};
ghost use Rattle.daemon_core.specs.Orders.{play_order, scan_order};
ghost use Rattle.daemon_core.specs.Seen.{view_of};
ghost use Rattle.live_stage.specs.Turns.{RefusesToTell};

use super::Live;
use crate::LiveError;
use disk_model::Disk;
use machine_core::WithheldJob;
use player_core::Order;
use profile::Profile;
use song_db::{ScanOrder, SongDb};
use std::alloc::Global;

impl<D: Disk> Live<D> {
    /// What the output is to do: to play a song from a frame on, or to wait. It refuses `Broken` where a disk failed, and else
    /// want of memory alone.
    pub fn order(&self, alloc: Global) -> Result<Order, LiveError>
        ensures order { IfOk result (λ order. order ≡ play_order self.now.state.machine) }
        ensures refuses { RefusesToTell self.now result }
    {
        if self.is_broken() {
            return Err(LiveError::Broken);
        }
        self.core.order(alloc).map_err(|_| LiveError::NoMemory)
    }

    /// What a scan is to read for the job that runs, if one does. It refuses `Broken` where a disk failed, and else want of
    /// memory alone.
    pub fn scan_order(&self, alloc: Global) -> Result<Option<ScanOrder>, LiveError>
        ensures order { IfOk result (λ order. order ≡ scan_order self.now.state.machine) }
        ensures refuses { RefusesToTell self.now result }
    {
        if self.is_broken() {
            return Err(LiveError::Broken);
        }
        self.core.scan_order(alloc).map_err(|_| LiveError::NoMemory)
    }

    /// Whether a song plays: where none does, `order` is to wait. It takes no memory and refuses nothing; of a broken stage it
    /// tells what was before the fault.
    pub fn is_playing(&self) -> bool
        ensures value { IsTrue result ↔ (self.now.state.machine.player.state ≡ PlayState.Play) }
        ensures waits { result ≡ false → play_order self.now.state.machine ≡ PlayOrder.Wait }
    {
        self.core.is_playing()
    }

    /// The profile with which the stage was made or opened. It takes no memory and refuses nothing.
    pub fn profile(&self) -> Profile
        ensures { result ≡ self.now.state.machine.saved.profile }
    {
        self.core.as_saved().profile()
    }

    /// The songs of the database. It takes no memory and refuses nothing; of a broken stage it tells what was before the fault.
    pub fn songs(&self) -> &SongDb
        ensures { result.now ≡ self.now.state.machine.saved.songs }
    {
        self.core.as_saved().songs()
    }

    /// The last job that dropped nothing because it missed too many songs, until another goes on. It takes no memory and refuses nothing;
    /// of a broken stage it tells what was before the fault.
    pub fn withheld(&self) -> Option<&WithheldJob>
        ensures { option_copied result ≡ self.now.state.machine.withheld }
    {
        self.core.withheld()
    }

    /// The number of the job that runs, if one does: that of `scan_order`. It takes no memory and refuses nothing; of a broken
    /// stage it tells what was before the fault.
    pub fn running_job(&self) -> Option<u32>
        ensures { result ≡ option_map (λ order. order.job) (scan_order self.now.state.machine) }
    {
        self.core.running_job()
    }

    /// How many bytes of a picture an answer to a client may have. It takes no memory and refuses nothing; of a broken stage it
    /// tells what was before the fault.
    pub fn chunk_limit(&self, client: u64) -> u32
        ensures { result ≡ (view_of self.now.state.views client).limit }
    {
        self.core.chunk_limit(client)
    }
}
