//! The generated texts, walked as the files of a job are.
ghost use Rattle.std.specs.Prelude.{◌≡◌, IfOk, string_bytes};
ghost use Rattle.bs_outside.specs.Walks.{WalksAlone};
ghost use Rattle.bs_top_files.specs.Ready.{moment_files_in};
ghost use Rattle.bs_top_files.specs.Causes.{CheckSays, NoteSays};
ghost use Rattle.bs_gen.specs.Job.{netlist_for, signature_text, stimulus_for};
ghost use Rattle.bs_outside.specs.Memory.{sure_files};
ghost use Rattle.bs_outside.specs.Diagnostic.{lined, note_seen};
ghost use Rattle.bs_top.specs.Demo.{demo_of};
ghost use Rattle.bs_top.specs.Texts.{AreTexts};

use crate::budgets::{DEMO_CYCLE, DEMO_RUN};
use bs_gen::{GeneratedJob, make};
use bs_outside::{JobFault, NoMemory, SureShelf, WalkStop};
use bs_top_files::{FileNames, MomentFiles, load_moment_files};
use std::alloc::{AllocError, Global};

/// A text under a name.
fn file(alloc: Global, name: &str, text: &[u8]) -> Result<(String, Vec<u8>), AllocError>
    ensures name { IfOk result (λ file. string_bytes file.0 ≡ name.now) }
    ensures text { IfOk result (λ file. file.1.items ≡ text.now) }
{
    let name = String::from_str(alloc, name)?;
    let text = text.to_vec(alloc)?;
    Ok((name, text))
}

/// The texts of a job under their names.
fn files(alloc: Global, job: &GeneratedJob) -> Result<Vec<(String, Vec<u8>)>, AllocError>
    ensures { IfOk result (λ files. AreTexts files.items job.now.netlist job.now.signature job.now.stimulus) }
{
    let netlist = file(alloc, "netlist", job.netlist.slice())?;
    let signature = file(alloc, "signature", job.signature.slice())?;
    let stimulus = file(alloc, "stimulus", job.stimulus.slice())?;
    let mut files = Vec::new(alloc);
    files.push(netlist)?;
    files.push(signature)?;
    files.push(stimulus)?;
    Ok(files)
}

/// A shelf of the texts of a job.
fn shelf_with(alloc: Global, job: GeneratedJob) -> Result<SureShelf, NoMemory>
    ensures { IfOk result (λ shelf. AreTexts (sure_files shelf) job.netlist job.signature job.stimulus) }
{
    match files(alloc, &job) {
        Ok(files) => {
            let shelf = SureShelf::new(files);
            Ok(shelf)
        }
        Err(_) => Err(NoMemory),
    }
}

/// A shelf of the texts of the number.
fn shelf_of(alloc: Global, number: u64) -> Result<SureShelf, NoMemory>
    ensures { IfOk result (λ shelf. AreTexts (sure_files shelf) (netlist_for number) signature_text (stimulus_for number)) }
{
    match make(alloc, number) {
        Ok(job) => shelf_with(alloc, job),
        Err(want) => Err(want),
    }
}

/// What these texts make ready.
fn load_from(alloc: Global, number: u64, shelf: SureShelf) -> Result<MomentFiles, WalkStop>
    requires { AreTexts (sure_files shelf) (netlist_for number) signature_text (stimulus_for number) }
    ensures line { WalksAlone CheckSays (demo_of number) moment_files_in (lined result) }
    ensures note { WalksAlone NoteSays (demo_of number) moment_files_in (note_seen result) }
{
    let mut shelf = shelf;
    let names = FileNames {
        netlist: "netlist",
        signature: "signature",
        stimulus: "stimulus",
    };
    let moment_files = load_moment_files(alloc, &mut shelf, &names, DEMO_RUN, DEMO_CYCLE);
    moment_files
}

/// What the texts of the number make ready: a setup, and the moment whose dump is traced back. No shelf is asked.
pub fn load_demo(alloc: Global, number: u64) -> Result<MomentFiles, WalkStop>
    ensures line { WalksAlone CheckSays (demo_of number) moment_files_in (lined result) }
    ensures note { WalksAlone NoteSays (demo_of number) moment_files_in (note_seen result) }
{
    match shelf_of(alloc, number) {
        Ok(shelf) => load_from(alloc, number, shelf),
        Err(_) => Err(WalkStop::Plain(JobFault::NoMemory)),
    }
}
