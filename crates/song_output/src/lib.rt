//! The sound of one order: a piece of its song's file, read, scaled to the volume and written to an output, with a head or bare.
#![tactic(auto)]

mod gate;
mod gated;
mod head;
pub mod laws;
mod open_song;
mod opening;
mod output;
mod piece;
mod playing;
mod reading;
mod scaling;
mod writing;

pub use gate::{Gate, OpenGate, Point};
pub use gated::{GatedFolder, GatedSource};
pub use open_song::{OpenSong, OrderKind};
pub use output::{Form, SoundOutput};
pub use piece::{MAX_FRAMES, Piece};
pub use playing::play_piece;
