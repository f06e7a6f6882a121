//! The signals that are drawn.
ghost use Rattle.std.specs.Prelude.{◌≡◌, ◌==◌, ◌||◌, ◌<◌, ◌^◌, length, map, filter, take, All};
ghost use Rattle.bs_inspect_view.specs.Signals.{signal_in};
ghost use Rattle.bs_inspect_html.specs.Cells.{is_lively};
ghost use Rattle.bs_inspect_html.specs.Figures.{figure_in};
ghost use Rattle.bs_inspect_page.specs.Page.{asked_in, drawn_flops_of, is_on_page};

use crate::options::PageOptions;
use bs_inspect_html::{Figure, is_lively};
use bs_inspect_view::{Signal, is_nameless};

/// Whether a signal with these places is drawn: it is open or changes, or there is but one moment.
fn is_shown(figure: Figure<'_>, places: &[u32]) -> bool
    ensures { result ≡ (length (figure_in figure.entry).moments == 1) || is_lively (figure_in figure.entry) places.now }
{
    figure.moments.len() == 1 || is_lively(figure, places)
}

/// Whether a signal is drawn.
fn is_on_page(asked: &PageOptions<'_>, figure: Figure<'_>, signal: &Signal<'_>) -> bool
    ensures { result ≡ is_on_page (asked_in asked.now) (figure_in figure.entry) (signal_in signal.now) }
{
    !asked.only.is_empty() || (!is_nameless(signal.base) && is_shown(figure, signal.places.slice()))
}

/// Leaves the signals that are drawn.
fn keep_drawn(asked: &PageOptions<'_>, figure: Figure<'_>, signals: &mut Vec<Signal<'_>>)
    requires { All (λ s. length s.places < 2 ^ 32) signals.old.items }
    ensures are { map signal_in signals.new.items ≡ filter (is_on_page (asked_in asked.now) (figure_in figure.entry)) (map signal_in signals.old.items) }
    ensures few { All (λ s. length s.places < 2 ^ 32) signals.new.items }
{
    signals.retain(|signal| is_on_page(asked, figure, signal));
}

/// Leaves the first signals, so many.
#[tactic(auto, using(crate::proofs::DrawnLemmas::take_in, crate::proofs::DrawnLemmas::few_first))]
pub(crate) fn keep_first(most: u64, signals: &mut Vec<Signal<'_>>)
    requires { All (λ s. length s.places < 2 ^ 32) signals.old.items }
    ensures are { map signal_in signals.new.items ≡ take most (map signal_in signals.old.items) }
    ensures few { All (λ s. length s.places < 2 ^ 32) signals.new.items }
{
    signals.truncate(most as usize);
}

/// Leaves the first of the signals that are drawn.
pub(crate) fn keep_first_drawn(
    asked: &PageOptions<'_>,
    figure: Figure<'_>,
    signals: &mut Vec<Signal<'_>>,
)
    requires { All (λ s. length s.places < 2 ^ 32) signals.old.items }
    ensures are { map signal_in signals.new.items ≡ drawn_flops_of (asked_in asked.now) (figure_in figure.entry) (map signal_in signals.old.items) }
    ensures few { All (λ s. length s.places < 2 ^ 32) signals.new.items }
{
    keep_drawn(asked, figure, signals);
    keep_first(asked.most, signals);
}
