//! What a job may refuse: the word that names it, its limit, and the status of its refusal.
ghost use Rattle.std.specs.Prelude.{◌≡◌};
ghost use Rattle.bs_outside.specs.PlanFiles.{file_word, limit_of, refusal_status};

use crate::limits::{
    MAX_DUMP_BYTES, MAX_MAP_BYTES, MAX_NETLIST_BYTES, MAX_REPORT_BYTES, MAX_SIGNATURE_BYTES,
    MAX_STIMULUS_BYTES, MAX_VCD_BYTES,
};
use crate::status::Status;

/// A file of a job, or what else among its words may be refused, which is no file. A job that has several files fetches them in
/// this order.
#[derive(Clone, Copy, Debug, PartialEq, Eq)]
pub enum File {
    Netlist,
    Signature,
    Stimulus,
    Dump,
    Report,
    /// A state that the words name. No file is fetched for it.
    State,
    /// The values that a simulator dumped.
    Vcd,
    /// The names that inputs have in a simulation.
    Map,
    /// A name that the words give. No file is fetched for it.
    Name,
}

impl File {
    /// The word that names it in a refusal line.
    pub fn word(self) -> &'static str
        ensures { result.now ≡ file_word self }
    {
        match self {
            File::Netlist => "netlist",
            File::Signature => "signature",
            File::Stimulus => "stimulus",
            File::Dump => "dump",
            File::Report => "report",
            File::State => "state",
            File::Vcd => "vcd",
            File::Map => "map",
            File::Name => "name",
        }
    }

    /// The most bytes that the file may have, 0 where there is none.
    pub fn limit(self) -> u64
        ensures { result ≡ limit_of self }
    {
        match self {
            File::Netlist => MAX_NETLIST_BYTES,
            File::Signature => MAX_SIGNATURE_BYTES,
            File::Stimulus => MAX_STIMULUS_BYTES,
            File::Dump => MAX_DUMP_BYTES,
            File::Report => MAX_REPORT_BYTES,
            File::State => 0,
            File::Vcd => MAX_VCD_BYTES,
            File::Map => MAX_MAP_BYTES,
            File::Name => 0,
        }
    }

    /// The status of a call that refuses it.
    pub fn refusal(self) -> Status
        ensures { result ≡ refusal_status self }
    {
        match self {
            File::Netlist => Status::Netlist,
            File::Signature => Status::Signature,
            File::Stimulus => Status::Stimulus,
            File::Dump => Status::Dump,
            File::Report => Status::Report,
            File::State => Status::Target,
            File::Vcd => Status::Vcd,
            File::Map => Status::Map,
            File::Name => Status::Name,
        }
    }
}
