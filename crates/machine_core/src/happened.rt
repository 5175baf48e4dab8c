// What an event that is no request did to a machine: its ops, and which subsystems it changed.
use idle_masks::Subsystems;
use state_codec::Op;

/// What an event of the player or of a scan did beside changing the machine.
#[derive(Debug, Drop)]
pub struct Happened {
    /// What it did to the saved half, in order.
    pub ops: Vec<Op>,
    /// The subsystems that it changed.
    pub changed: Subsystems,
}
