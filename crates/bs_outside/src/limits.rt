//! The most bytes that each file of a job may have (docs/DEFINITIONS.md, "Limits").

/// 16 times 1,048,576.
pub const MAX_NETLIST_BYTES: u64 = 16_777_216;

/// 1,048,576.
pub const MAX_SIGNATURE_BYTES: u64 = 1_048_576;

/// 64 times 1,048,576.
pub const MAX_STIMULUS_BYTES: u64 = 67_108_864;

/// 1,048,576.
pub const MAX_DUMP_BYTES: u64 = 1_048_576;

/// 512 times 1,048,576.
pub const MAX_REPORT_BYTES: u64 = 536_870_912;

/// 512 times 1,048,576.
pub const MAX_VCD_BYTES: u64 = 536_870_912;

/// 1,048,576.
pub const MAX_MAP_BYTES: u64 = 1_048_576;
