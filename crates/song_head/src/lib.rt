//! What the head of a song's file tells, with the tags of its ID3v2 tag too where the rules ask for them.
#![tactic(auto)]

mod frame_tags;
mod frame_values;
mod genres;
mod head;
mod laws;
mod manner;
mod merged;
mod numbers;
mod rules;

pub use frame_tags::frame_tag;
pub use head::read_song;
pub use laws::{song_readings, texts_fit};
pub use numbers::{are_digits, digits, digits_in_front, number_in};
pub use rules::ReadingRules;
