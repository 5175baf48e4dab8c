// The images that a crash may leave, computed.
ghost use Rattle.std.specs.Prelude.{◌≡◌, ◌⊎◌, ◌≤◌, ◌↔◌, IsTrue, IfOk, OnOk};
ghost use Rattle.disk_model.specs.CallsMade.{change_of, history_of};
ghost use Rattle.disk_model.specs.Images.{settled, window_after, IsOutside, IsUnwritten, IsImage};
ghost use Rattle.disk_model.specs.Moments.{LeftSince};

use crate::call::Call;
use std::alloc::{AllocError, Global};
use std::marker::Model;

/// A range of offsets.
#[derive(Drop)]
pub(crate) struct Extent {
    at: u64,
    count: u64,
}

impl Model for Extent {
    ghost use Rattle.disk_model.specs.Images.{Extent as Range};

    ghost Value = { Range };

    ghost view = { λ extent. record { at = extent.at; count = extent.count } };
}

impl Extent {
    fn is_outside(&self, offset: u64) -> bool
        ensures { IsTrue result ↔ IsOutside self.now offset }
    {
        offset < self.at || self.count <= offset - self.at
    }
}

/// What was done since the last sync.
#[derive(Drop)]
pub(crate) struct Window {
    base: Vec<u8>,
    least: u64,
    greatest: u128,
    written: Vec<Extent>,
}

impl Model for Window {
    ghost use Rattle.std.specs.Prelude.{reverse, ◌≤◌, length};
    ghost use Rattle.disk_model.specs.Images.{Window as Since};

    ghost Value = { Since };

    ghost view = { λ w. record { base = w.base.items; least = w.least; greatest = w.greatest; written = reverse w.written.items } };

    ghost invariant = { λ w. w.least ≤ length w.base.items };
}

impl Window {
    /// Nothing was done since the sync.
    pub(crate) fn settled(alloc: Global, base: Vec<u8>) -> Self
        ensures { result ≡ settled base.items }
    {
        let len = base.len() as u64;
        Window {
            base,
            least: len,
            greatest: u128::from(len),
            written: Vec::new(alloc),
        }
    }

    /// Goes on to the window after a call, which was made while a read gave these bytes.
    pub(crate) fn note(
        &mut self,
        alloc: Global,
        call: &Call,
        content: &[u8],
    ) -> Result<(), AllocError>
        ensures { OnOk result (self.new ≡ window_after (change_of call.now content.now) self.old) }
    {
        match call {
            Call::Write(at, bytes) => {
                let count = bytes.len() as u64;
                self.written.push(Extent { at: *at, count })?;
                let end = u128::from(*at) + u128::from(count);
                self.greatest = self.greatest.max(end);
            }
            Call::Cut(len) => self.least = self.least.min(*len),
            Call::Sync => *self = Window::settled(alloc, Vec::from_slice(alloc, content)?),
        }
        Ok(())
    }

    /// Whether a crash may leave this image.
    pub(crate) fn allows(&self, image: &[u8]) -> bool
        ensures { IsTrue result ↔ IsImage self.now image.now }
    {
        let len = image.len() as u64;
        if len < self.least || self.greatest < u128::from(len) {
            return false;
        }
        for i in 0..self.least as usize {
            if image[i] != self.base[i] && self.is_unwritten(i as u64) {
                return false;
            }
        }
        true
    }

    // Whether nothing was written at this offset.
    fn is_unwritten(&self, offset: u64) -> bool
        ensures { IsTrue result ↔ IsUnwritten self.now.written offset }
    {
        for extent in &self.written {
            if !extent.is_outside(offset) {
                return false;
            }
        }
        true
    }
}

// Whether an image is left now, or was left before, where the moment before is not too early.
fn goes_on(now: bool, before: bool, since: usize, moment: usize) -> bool
    ensures { IsTrue result ↔ (IsTrue now ⊎ ((since ≤ moment) × IsTrue before)) }
{
    now || (before && since <= moment)
}

/// Whether a crash at some moment from this one on might have left this image, on a disk that held these bytes at first
/// and then was given these calls.
pub(crate) fn left_since(
    alloc: Global,
    first: &[u8],
    calls: &[Call],
    moment: usize,
    image: &[u8],
) -> Result<bool, AllocError>
    ensures { IfOk result (λ left. IsTrue left ↔ LeftSince (history_of first.now calls.now) moment image.now) }
{
    let mut content = Vec::from_slice(alloc, first)?;
    let mut window = Window::settled(alloc, Vec::new(alloc));
    let mut left = window.allows(image);
    window.note(alloc, &Call::Sync, first)?;
    left = goes_on(window.allows(image), left, moment, 0);
    for (i, call) in calls.iter().enumerate() {
        window.note(alloc, call, &content)?;
        call.redo(&mut content)?;
        left = goes_on(window.allows(image), left, moment, i + 1);
    }
    Ok(left)
}
