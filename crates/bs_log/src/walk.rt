//! Where a walk over the lines of a log stands.

/// Behind some lines: the step that is under way, how many blocks the asked step has so far, and the last id of the proof.
#[derive(Clone, Copy)]
pub struct At {
    pub step: u64,
    pub blocks: u64,
    pub last: u64,
}
