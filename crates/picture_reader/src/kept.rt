// A picture that stays open for a client.
use crate::open_picture::OpenPicture;
use covers::PictureKind;

/// A picture that stays open for the next question of a client.
#[derive(Drop)]
pub struct KeptPicture<S> {
    pub(crate) client: u64,
    pub(crate) kind: PictureKind,
    pub(crate) uri: String,
    pub(crate) picture: OpenPicture<S>,
}
