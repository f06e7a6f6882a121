//! Limits of what is drawn.

/// The most values of a waveform: nets times moments. A value takes a byte, so the values take 64 MiB.
pub const MAX_WAVE_VALUES: u64 = 67_108_864;
