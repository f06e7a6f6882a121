//! A window of a trace: which of its states are told.
ghost use Rattle.std.specs.Prelude.{◌≡◌, ◌<◌};
ghost use Rattle.bs_inspect_report.specs.Window.{is_late, is_shown, is_up_to};

/// Which states of a trace are told: those from the one with a number on, up to the one with another, and of these the last so many of
/// the trace. States have numbers from 0.
#[derive(Clone, Copy)]
pub struct Window {
    pub from: u64,
    pub to: Option<u64>,
    pub last: Option<u64>,
}

/// Whether a state is not behind the last one that is told.
fn is_up_to(to: Option<u64>, i: u64) -> bool
    ensures { result ≡ is_up_to to i }
{
    match to {
        Some(to) => i <= to,
        None => true,
    }
}

/// Whether a state is one of the last ones that are told, of so many states.
fn is_late(last: Option<u64>, count: u64, i: u64) -> bool
    requires { i < count }
    ensures { result ≡ is_late last count i }
{
    match last {
        Some(last) => count - i <= last,
        None => true,
    }
}

/// Whether a state is in a window of so many states.
pub(crate) fn is_shown(window: Window, count: usize, i: usize) -> bool
    requires { i < count }
    ensures { result ≡ is_shown window count i }
{
    let up_to = is_up_to(window.to, i as u64);
    let late = is_late(window.last, count as u64, i as u64);
    window.from <= i as u64 && (up_to && late)
}
