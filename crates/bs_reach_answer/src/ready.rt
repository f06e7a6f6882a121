//! What the files of a request about an answer make ready.
ghost use Rattle.std.specs.Prelude.{◌≡◌};

use bs_reach::Reach;
use bs_top_reach::Target;

/// A netlist with a state of it, and an answer of a search for it. The state and the netlist are those of a search of as many cycles.
#[derive(Drop)]
pub struct AnswerFiles {
    pub target: Target,
    pub answer: Reach,
    ghost cycles: { target.cycles ≡ answer.asked },
}
