//! What the files made ready.
ghost use Rattle.std.specs.Prelude.{◌≡◌, length};
ghost use Rattle.bs_net.specs.Netlist.{circuit};

use bs_inspect_files::RunFiles;
use bs_scan::Seen;

/// A netlist and recorded runs, and what is seen of a state of the netlist.
#[derive(Drop)]
pub struct NearFiles {
    pub run_files: RunFiles,
    pub seen: Seen,
    ghost size: { length seen.bits ≡ length (circuit run_files.net).flops },
}
