//! A span of variables that are known to be false, as those of retired activation literals are.
ghost use Rattle.std.specs.Prelude.{◌≡◌, ◌⊎◌, ◌^◌, ◌<◌, ◌≤◌};
ghost use Rattle.bs_watch.specs.Spans.{IsSpan, no_span};

use crate::trail::Trail;

/// The variables from `first` to before `past`, which are false by the first so many places of a trail.
#[derive(Clone, Copy)]
pub struct FalseSpan {
    pub first: u32,
    pub past: u32,
    pub places: usize,
}

/// The span with the variable of the trail's last literal, if that is the next variable and is false.
pub fn longer(trail: &Trail, span: FalseSpan) -> FalseSpan
    requires small { trail.now.vars < 2 ^ 30 }
    requires span { IsSpan trail.now span }
    ensures { IsSpan trail.now result }
{
    let places = trail.len();
    if places == 0 {
        return span;
    }
    let last = trail.literal(places - 1);
    if last.positive() || last.var().0 != span.past {
        return span;
    }
    FalseSpan {
        first: span.first,
        past: span.past + 1,
        places,
    }
}

/// The span of a trail that goes back to so many places: none where it needs more.
pub fn cut(span: FalseSpan, end: usize) -> FalseSpan
    ensures { ((result ≡ span) × (span.places ≤ end)) ⊎ (result ≡ no_span span) }
{
    if span.places <= end {
        return span;
    }
    FalseSpan {
        first: span.first,
        past: span.first,
        places: 0,
    }
}
