//! The pictures of songs, read from a folder: what is asked of one is answered by its bytes.
#![tactic(auto)]

mod finding;
mod folder_path;
mod kept;
mod limits;
mod open_picture;
mod opening;
mod pictures;
mod reading;

pub use kept::KeptPicture;
pub use limits::MAX_OPEN;
pub use pictures::OpenPictures;
pub use reading::answer_picture;
