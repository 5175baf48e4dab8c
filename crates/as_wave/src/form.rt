// What a file is that stands for another one.

use crate::flac_layout::FlacForm;
use crate::plan::PcmPlan;

/// A file that is what it is, one of PCM, or a FLAC file.
#[derive(Drop)]
pub enum Form {
    Plain,
    Pcm(PcmPlan),
    Flac(FlacForm),
}
