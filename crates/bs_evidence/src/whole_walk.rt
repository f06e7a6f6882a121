//! Where a walk over the lines of a log stands.
ghost use Rattle.std.specs.Prelude.{◌≡◌, ◌+◌, ◌<◌, ◌^◌, []};
ghost use Rattle.bs_evidence.specs.WholeProof.{under_of};
ghost use Rattle.bs_evidence.specs.WholeWalk.{under_behind};

use bs_log::Line;

/// Behind some lines: the step that is under way, counted from 1, and the lemma that finishes it so far.
#[derive(Clone, Copy)]
pub struct Under {
    pub step: u64,
    pub finish: Option<u64>,
}

/// Behind some lines: the step, the last id of a clause before those that the next line gives, and the last id of the proof.
#[derive(Clone, Copy)]
pub struct At {
    pub under: Under,
    pub place: u64,
    pub last: u64,
}

/// Before the first line.
pub fn start() -> Under
    ensures { result ≡ under_of [] }
{
    Under {
        step: 1,
        finish: None,
    }
}

/// Behind a line.
pub fn under_behind(under: Under, line: &Line) -> Under
    requires { under.step + 1 < 2 ^ 64 }
    ensures { result ≡ under_behind line.now under }
{
    match line {
        Line::Finish { id } => Under {
            step: under.step,
            finish: Some(*id),
        },
        Line::Retire { .. } => Under {
            step: under.step + 1,
            finish: None,
        },
        _ => under,
    }
}
