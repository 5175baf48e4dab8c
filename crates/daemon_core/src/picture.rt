// What was read of pictures for clients.
use covers::{PictureAnswer, PictureAsk};
use idle_masks::ClientId;

/// What was read of a picture for a client: what was asked, and the answer.
#[derive(Debug, Drop)]
pub struct PictureTold {
    pub ask: PictureAsk,
    pub answer: PictureAnswer,
}

/// The same, with its client.
#[derive(Debug, Drop)]
pub struct ClientPicture {
    pub client: ClientId,
    pub told: PictureTold,
}
