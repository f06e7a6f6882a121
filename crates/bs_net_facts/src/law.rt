//! Laws of the definitions.
ghost use Rattle.bs_net_facts.specs.Facts.{ForcesCompose, MoreForce};
ghost use Rattle.bs_net_facts.specs.Sources.{SourcesForce};

/// Blocks compose: what facts force together with facts that they force, they force alone, and more facts force no less.
pub fn forces_compose()
    ensures compose { ForcesCompose }
    ensures more { MoreForce }
{}

/// All flip-flops and data inputs of a cycle force all nets of the cycle, and all flip-flops of the next one.
pub fn sources_force()
    ensures { SourcesForce }
{}
