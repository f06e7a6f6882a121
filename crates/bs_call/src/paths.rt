//! The names of the files of a job, for notes on them.
ghost use Rattle.std.specs.Prelude.{◌≡◌};
ghost use Rattle.bs_call.specs.Paths.{path_of, paths_in};

use bs_outside::File;

/// The names of the files of a job; a name that it does not give is empty.
#[derive(Clone, Copy)]
pub struct Paths<'a> {
    pub netlist: &'a str,
    pub signature: &'a str,
    pub stimulus: &'a str,
    pub dump: &'a str,
    pub report: &'a str,
}

/// The name of a file of a job, empty for what no job has.
pub fn path_of<'a>(paths: &Paths<'a>, file: File) -> &'a str
    ensures { result.now ≡ path_of (paths_in paths.now) file }
{
    match file {
        File::Netlist => paths.netlist,
        File::Signature => paths.signature,
        File::Stimulus => paths.stimulus,
        File::Dump => paths.dump,
        File::Report => paths.report,
        File::State | File::Vcd | File::Map | File::Name => "",
    }
}
