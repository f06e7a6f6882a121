//! How much is told.
ghost use Rattle.std.specs.Prelude.{◌≡◌};
ghost use Rattle.bs_inspect_why_words.specs.Limits.{limits_of};

/// A cause is older where it has not changed in so many cycles.
/// An older cause is likely a setting, and not what happened.
pub const RECENT: u32 = 3;

/// Cycles are joined to one of so many groups.
/// Each cycle is compared with each group.
pub const MAX_APART: usize = 64;

/// How many of a kind are told.
#[derive(Clone, Copy)]
pub struct Limits {
    /// Causes with a line each; where there are more, older single bits share one.
    pub causes: usize,
    /// Names in a shared line.
    pub names: usize,
    /// Lines of what kept the bits, and of what did not matter.
    pub reasons: usize,
    /// Spans of cycles in a line.
    pub spans: usize,
    /// Facts of a cycle that did not matter.
    pub idle: usize,
    /// Facts of a cycle that kept the bits.
    pub held: usize,
}

/// How much is told, by whether all is.
pub fn limits_of(all: bool) -> Limits
    ensures { result ≡ limits_of all }
{
    if all {
        return Limits {
            causes: usize::MAX,
            names: usize::MAX,
            reasons: usize::MAX,
            spans: usize::MAX,
            idle: usize::MAX,
            held: usize::MAX,
        };
    }
    Limits {
        causes: 8,
        names: 4,
        reasons: 5,
        spans: 3,
        idle: 5,
        held: usize::MAX,
    }
}
