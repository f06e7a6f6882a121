//! What the clauses of a length show.
ghost use Rattle.bs_net.specs.Netlist.{circuit};
ghost use Rattle.bs_evidence.specs.LengthLaw.{AnswerProofsAreRight, FinishedIsUnmet, MetIsReached, ReachedMeets, ReachedMeetsAll};

use bs_encode::encodings_are_cycles;
use bs_net::Netlist;
use bs_reach_unrolled::unrolled_clauses_are_executions;

/// The clauses of a length say that the state is reached in it: where it is, an assignment meets them, and what meets them shows that
/// it is. Nothing meets those of a length that an accepted log finishes.
pub fn lengths_are_shown(net: &Netlist)
    ensures reached { ReachedMeets (circuit net.now) }
    ensures met { MetIsReached (circuit net.now) }
    ensures unmet { FinishedIsUnmet (circuit net.now) }
{
    encodings_are_cycles(net);
    unrolled_clauses_are_executions(net);
}

/// The clauses of all refuted lengths: where the state is reached in one of them, an assignment meets the clauses. The proof of an
/// accepted log is right over them, and so no assignment does.
pub fn all_lengths_are_shown(net: &Netlist)
    ensures reached { ReachedMeetsAll (circuit net.now) }
    ensures proofs { AnswerProofsAreRight (circuit net.now) }
{
    encodings_are_cycles(net);
    unrolled_clauses_are_executions(net);
}
