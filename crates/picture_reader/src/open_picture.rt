// A picture that is open.
ghost use Rattle.std.specs.Prelude.{◌+◌, ◌<◌, ◌^◌};

use covers::PicturePlace;

/// A picture that is open: a file, and where the picture stands in it.
#[derive(Drop)]
pub struct OpenPicture<S> {
    /// Its MIME type; empty where that isn't known.
    pub(crate) mime: String,
    pub(crate) place: PicturePlace,
    pub(crate) source: S,
    ghost fits: { place.first + place.len < 2 ^ 64 },
}
