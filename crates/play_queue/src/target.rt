// A position that is named by itself or from the current song on.
ghost use Rattle.std.specs.Prelude.{◌≡◌, ◌+◌};
ghost use Rattle.play_queue.specs.Target.{resolved, up_to};

use crate::refusal::QueueError;

/// Where entries are put: a position, or a place that is counted from the current song.
#[derive(Clone, Copy, Debug, PartialEq, Eq)]
pub enum Target {
    /// A position from 0 up to the length.
    At(u32),
    /// `+N`: N places behind the position after the current song.
    After(u32),
    /// `-N`: N places in front of the current song.
    Before(u32),
}

impl Target {
    /// The position that the place names among so many entries, where the current song, if there is one, stands at
    /// `current`: for an addition in the queue, for a move in the rest without the moved block.
    ///
    /// Refused by `NoCurrentSong` where there is none to count from, and by `BadIndex` below 0 or above the length.
    pub fn resolve(self, current: Option<usize>, length: usize) -> Result<usize, QueueError>
        ensures { result ≡ resolved self current length }
    {
        match (self, current) {
            (Target::At(position), _) => up_to(length, position as usize),
            (Target::After(n), Some(current)) => after(length, current, n as usize),
            (Target::Before(n), Some(current)) => {
                let n = n as usize;
                if current < n {
                    return Err(QueueError::BadIndex);
                }
                up_to(length, current - n)
            }
            (Target::After(_) | Target::Before(_), None) => Err(QueueError::NoCurrentSong),
        }
    }
}

fn up_to(length: usize, position: usize) -> Result<usize, QueueError>
    ensures { result ≡ up_to length position }
{
    if length < position {
        return Err(QueueError::BadIndex);
    }
    Ok(position)
}

fn after(length: usize, current: usize, n: usize) -> Result<usize, QueueError>
    ensures { result ≡ up_to length (current + 1 + n) }
{
    if length <= current || length - current - 1 < n {
        return Err(QueueError::BadIndex);
    }
    Ok(current + 1 + n)
}
