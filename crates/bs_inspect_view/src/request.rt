//! What is asked of a waveform.

/// What is asked of a waveform: the time of its first moment, whether nets are drawn whose names nobody gave, the names of those that
/// are drawn alone, where there are any, whole lines that stand in the head, as comments, and the run and the cycle of each state that was
/// recorded.
#[derive(Clone, Copy)]
pub struct ViewRequest<'a> {
    pub from: u64,
    pub all: bool,
    pub only: &'a [&'a str],
    pub remarks: &'a [u8],
    pub recorded: &'a [Option<(u32, u32)>],
}
