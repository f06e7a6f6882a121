//! The laws of flattening, as functions with empty bodies.
ghost use Rattle.bs_flat_meaning.specs.Law.{FlatKeepsMeaning};
ghost use Rattle.bs_flat_meaning.specs.Executions.{FlatKeepsExecutions};
ghost use Rattle.bs_flat_meaning.specs.Names.{FlatNetsAreNamed};
ghost use Rattle.bs_flat_meaning.specs.Wholeness.{ReadModulesAreWhole};
ghost use Rattle.bs_flat_meaning.specs.Counts.{DepthIsHeight, PartsAreSummed};
ghost use Rattle.bs_flat_meaning.specs.Numbers.{NumbersAreRanks};
ghost use Rattle.bs_flat_meaning.specs.Reading.{DesignsAreWhole};
ghost use Rattle.bs_flat_meaning.specs.Rings.{RingsAreFound};

/// Where the flat parts of a design pass the check, exactly one valuation fits the design for each state and input, and the
/// design's next state is that of the flat netlist.
pub fn flat_parts_keep_meaning()
    ensures { FlatKeepsMeaning }
{}

/// Where the flat parts of a design pass the check, the design has as many flip-flops and data inputs as they, the same state at reset,
/// and the same executions from there.
pub fn flat_parts_keep_executions()
    ensures { FlatKeepsExecutions }
{}

/// The design of modules that were read, and whose connections go with their ports, is one of which the law speaks: each net
/// that its parts and joins name is there, and each net of an instance is joined with one net of its parent at most.
pub fn read_designs_are_whole()
    ensures { DesignsAreWhole }
{}

/// The gates, flip-flops and paths of a design, and whether a path is too long, are counted by its modules: by sums and heights
/// that are right for each module's instances, so that no path need be made.
pub fn modules_count_the_design()
    ensures parts { PartsAreSummed }
    ensures depth { DepthIsHeight }
{}

/// The number of a net among the flat nets is the count of those on the paths before, and of those before it on its own path:
/// so the nets are numbered path by path, without a table of nets.
pub fn flat_numbers_are_ranks()
    ensures { NumbersAreRanks }
{}

/// Modules that instance each other in a ring are found by how often instances lead on from one.
pub fn rings_are_found()
    ensures { RingsAreFound }
{}

/// Each flat net of a text that is read has a name of one or more bytes 33 to 126.
pub fn flat_nets_are_named()
    ensures { FlatNetsAreNamed }
{}

/// Of each module of a text that is read, its own parts have names for their nets, its ports stand first among the nets, and a name
/// that is declared has nets: whatever the text, so no reader need test it.
pub fn modules_read_are_whole()
    ensures { ReadModulesAreWhole }
{}
