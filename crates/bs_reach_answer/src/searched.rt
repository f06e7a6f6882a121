//! The walk over the files of a request about an answer: the answer first, then what was searched.
ghost use Rattle.std.specs.Prelude.{◌≡◌, IfOk};
ghost use Rattle.bs_reach_answer.specs.ReadingLaw.{HasAnswerText};
ghost use Rattle.bs_top_reach.specs.Shown.{target_in};
ghost use Rattle.bs_top_reach.specs.Target.{target_of};
ghost use Rattle.bs_outside.specs.Telling.{WalksDiagnosed};
ghost use Rattle.bs_top_files.specs.Causes.{CheckSays, NoteSays};
ghost use Rattle.bs_reach_answer.specs.Searched.{answer_files_in, answer_files_of, searched_of};

use crate::loading::load_answer;
use crate::ready::AnswerFiles;
use bs_outside::{Shelf, WalkStop};
use bs_reach::Reach;
use bs_top_reach::{Target, load_target};
use std::alloc::Global;

/// What was searched in so many cycles.
fn load_cycles<S: Shelf>(
    alloc: Global,
    shelf: &mut S,
    netlist: &str,
    state: &str,
    cycles: u64,
) -> Result<Target, WalkStop>
    ensures walks { WalksDiagnosed CheckSays NoteSays S.held S.faults S.leads shelf.old shelf.new
        (target_of netlist.now state.now cycles) target_in result }
    ensures cycles { IfOk result (λ target. target.cycles ≡ cycles) }
{
    match load_target(alloc, shelf, netlist, state, cycles) {
        Ok(target) => Ok(target),
        Err(stop) => Err(stop),
    }
}

/// An answer, and what was searched.
fn load_searched<S: Shelf>(
    alloc: Global,
    shelf: &mut S,
    netlist: &str,
    state: &str,
    answer: Reach,
) -> Result<AnswerFiles, WalkStop>
    requires { HasAnswerText answer }
    ensures walks { WalksDiagnosed CheckSays NoteSays S.held S.faults S.leads shelf.old shelf.new
        (searched_of netlist.now state.now answer) answer_files_in result }
    ensures text { IfOk result (λ files. HasAnswerText files.answer) }
{
    match load_cycles(alloc, shelf, netlist, state, answer.asked) {
        Ok(target) => Ok(AnswerFiles { target, answer }),
        Err(stop) => {
            drop(answer);
            Err(stop)
        }
    }
}

/// The answer of a file, and the netlist of a file with a state of it, of which the answer may tell.
pub fn load_answer_files<S: Shelf>(
    alloc: Global,
    shelf: &mut S,
    netlist: &str,
    state: &str,
    path: &str,
) -> Result<AnswerFiles, WalkStop>
    ensures walks { WalksDiagnosed CheckSays NoteSays S.held S.faults S.leads shelf.old shelf.new
        (answer_files_of netlist.now state.now path.now) answer_files_in result }
    ensures text { IfOk result (λ files. HasAnswerText files.answer) }
{
    match load_answer(alloc, shelf, path) {
        Ok(answer) => load_searched(alloc, shelf, netlist, state, answer),
        Err(stop) => Err(stop),
    }
}
