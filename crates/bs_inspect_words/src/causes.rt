//! What `why` asks.
ghost use Rattle.std.specs.Prelude.{◌≤◌};
ghost use Rattle.bs_inspect_usages.specs.declared.numbers.TheConstants.{MAX_DEPTH};

/// `why`: the names of its files, the name whose bits it accounts for, the cycle of the trace where one is given, how many layers of
/// accounts, whether they end at flip-flops and inputs alone, whether all is told, and whether as a table.
#[derive(Drop)]
pub struct WhyRequest<'a> {
    pub netlist: &'a str,
    pub report: &'a str,
    pub name: &'a str,
    pub at: Option<u64>,
    pub depth: u64,
    pub flops: bool,
    pub all: bool,
    pub csv: bool,
    ghost some: { 1 ≤ depth },
    ghost few: { depth ≤ MAX_DEPTH },
}
