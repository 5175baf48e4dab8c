// Where in a song a seek goes.
ghost use Rattle.std.specs.Prelude.{◌≡◌, ◌+◌, ◌^◌, ◌<◌, min};
ghost use Rattle.player_core.specs.Seek.{frame_at, frame_from};

/// What the player must know of a song's file to seek in it.
#[derive(Clone, Copy, Debug)]
pub struct SongLength {
    /// Frames a second.
    pub rate: u32,
    pub frames: u64,
}

/// Where `seekcur` goes, in milliseconds.
#[derive(Clone, Copy, Debug)]
pub enum SeekTime {
    /// From the start of the song.
    To(u32),
    /// On from the present frame, at most to the end.
    Forward(u32),
    /// Back from the present frame, at most to the start.
    Back(u32),
}

impl SongLength {
    /// The frame at a time in milliseconds, rounded down.
    pub fn frame_at(self, milliseconds: u32) -> u64
        ensures { result ≡ frame_at self milliseconds }
    {
        u64::from(milliseconds) * u64::from(self.rate) / 1000
    }

    // The frame that a time names, from the present one, at most the last of the song.
    pub(crate) fn frame_from(self, frame: u64, time: SeekTime) -> u64
        ensures { result ≡ min (frame_from self frame time) self.frames }
    {
        match time {
            SeekTime::To(milliseconds) => self.frame_at(milliseconds).min(self.frames),
            SeekTime::Forward(milliseconds) => {
                frame_after(frame, self.frame_at(milliseconds), self.frames)
            }
            SeekTime::Back(milliseconds) => frame
                .saturating_sub(self.frame_at(milliseconds))
                .min(self.frames),
        }
    }
}

// So many frames on, at most the last of the song.
pub(crate) fn frame_after(frame: u64, more: u64, frames: u64) -> u64
    ensures { result ≡ min (frame + more) frames }
{
    if frames <= frame || frames - frame <= more {
        frames
    } else {
        frame + more
    }
}
