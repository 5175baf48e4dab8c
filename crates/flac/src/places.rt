// Places of frames that are known.
ghost use Rattle.std.specs.Prelude.{◌≡◌, ◌≤◌, ◌+◌, ◌<◌, All, IfSome, IsTrue, ◌↔◌, true, false, List, ℕ};
ghost use Rattle.flac.specs.Reader.{IsPlace};
ghost use Rattle.flac.specs.declared.stream_info.StreamInfo.{StreamInfo};

/// The place of a frame: the number of its first sample in each channel, and that of its first byte in the file.
#[derive(Clone, Copy, Debug)]
pub struct Place {
    pub sample: u64,
    pub offset: u64,
}

/// A frame that was decoded: the number of its first sample in each channel, how many it has there, and the place of the byte behind it.
#[derive(Clone, Copy, Debug)]
pub struct Held {
    pub first: u64,
    pub count: u16,
    pub offset: u64,
}

impl Held {
    /// Whether the frame has this sample.
    pub fn has(self, sample: u64) -> bool
        ensures told { IsTrue result ↔ ((self.first ≤ sample) × (sample < self.first + self.count)) }
        ensures here { result ≡ true → (self.first ≤ sample) × (sample < self.first + self.count) }
        ensures past { self.first ≤ sample → result ≡ false → self.first + self.count ≤ sample }
    {
        self.first <= sample && sample - self.first < u64::from(self.count)
    }

    /// Whether the frame ends at this sample or before it.
    pub fn ends_by(self, sample: u64) -> bool
        ensures { IsTrue result ↔ (self.first + self.count ≤ sample) }
    {
        self.first <= sample && u64::from(self.count) <= sample - self.first
    }
}

/// A known place, or that behind a frame that was held, where it stands nearer before a sample.
pub fn later(held: Held, known: Place, sample: u64) -> Place
    requires { known.sample ≤ sample }
    ensures before { result.sample ≤ sample }
    ensures known { (info : StreamInfo) → (start : ℕ) → (file : List ℕ) → IsPlace info start file known →
        IsPlace info start file (record { sample = held.first + held.count; offset = held.offset }) → IsPlace info start file result }
{
    if held.ends_by(sample) && held.first >= known.sample {
        Place {
            sample: held.first + u64::from(held.count),
            offset: held.offset,
        }
    } else {
        known
    }
}

/// The last of the places that stands at this sample or before it.
pub fn last_before(places: &[Place], sample: u64) -> Option<Place>
    ensures before { IfSome result (λ p. p.sample ≤ sample) }
    ensures known { (info : StreamInfo) → (start : ℕ) → (file : List ℕ) → All (IsPlace info start file) places.now →
        IfSome result (IsPlace info start file) }
{
    places.iter().rev().copied().find(|p| p.sample <= sample)
}

/// How many places of frames are kept.
pub const MAX_PLACES: usize = 1024;

/// Keeps a place that stands `spacing` bytes or more behind the last one, where there is room.
pub fn note(places: &mut Vec<Place>, place: Place, spacing: u64)
    ensures { (info : StreamInfo) → (start : ℕ) → (file : List ℕ) → All (IsPlace info start file) places.old.items →
        IsPlace info start file place → All (IsPlace info start file) places.new.items }
{
    let far = match places.last() {
        Some(last) => place.offset >= last.offset.saturating_add(spacing),
        None => true,
    };
    if far && places.len() < MAX_PLACES {
        let _ = places.push(place);
    }
}
