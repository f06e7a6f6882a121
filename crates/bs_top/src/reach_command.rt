//! The command `reach`: whether a state is reached from reset within a number of cycles, with an execution or a refutation.
ghost use Rattle.std.specs.Prelude.{◌≡◌, ◌≤◌, IfOk, Some};
ghost use Rattle.bs_call.specs.Endings.{miss_text_of};
ghost use Rattle.bs_call.specs.Note.{SureText};
ghost use Rattle.bs_call.specs.Prepared.{PreparedNoted};
ghost use Rattle.bs_net.specs.Netlist.{circuit};
ghost use Rattle.bs_top_files.specs.Causes.{CheckSays};
ghost use Rattle.bs_reach_unrolled.specs.declared.limits.TheConstants.{MAX_FRAMES};
ghost use Rattle.bs_reach.specs.Reach.{IsReach};
ghost use Rattle.bs_reach.specs.Text.{HasStates, reach_text};
ghost use Rattle.bs_top_reach.specs.Shown.{target_in};
ghost use Rattle.bs_top_words.specs.Job.{Reach as ReachWords};
ghost use Rattle.bs_top.specs.Work.{plan_of, to_reach};
ghost use Rattle.bs_top.specs.Words.{reach_job};
ghost use Rattle.bs_top.specs.Finishes.{finishes, reach_status};
ghost use Rattle.bs_top.specs.Said.{JobSaid, miss_of, WorkSaid};

use crate::design::means_design;
use crate::names::reach_paths;
use bs_call::{Response, miss_said, stop_answer};
use bs_note_calls::Miss;
use bs_outside::{NoMemory, Reply, Shelf, Status};
use bs_reach::{Outcome, Reach, bounded};
use bs_top_reach::{Target, load_target};
use bs_top_words::ReachJob;
use std::alloc::Global;

/// The status of an answer by its outcome.
fn reach_status(outcome: Outcome) -> Status
    ensures { result ≡ reach_status outcome }
{
    match outcome {
        Outcome::Reached(_) => Status::Done,
        Outcome::Unreached => Status::Unreached,
        Outcome::Unknown(_) => Status::Spent,
    }
}

/// The search for a state.
fn search(alloc: Global, target: &Target, conflicts: u64) -> Result<Reach, NoMemory>
    requires cycles { target.now.cycles ≤ MAX_FRAMES }
    requires limit { 1 ≤ conflicts }
    ensures { IfOk result (IsReach (circuit target.now.net) target.now.state target.now.cycles conflicts) }
{
    bounded(alloc, &target.net, &target.state, target.cycles, conflicts)
}

/// What is written for what a search gives, which stays.
fn written(alloc: Global, reach: &Reach) -> Result<Reply, NoMemory>
    requires { HasStates reach.now.outcome reach.now }
    ensures status { IfOk result (λ answer. answer.status ≡ reach_status reach.now.outcome) }
    ensures text { IfOk result (λ answer. answer.text.items ≡ reach_text reach.now) }
{
    let mut text = Vec::new(alloc);
    reach.text(&mut text)?;
    Ok(Reply {
        status: reach_status(reach.outcome),
        text,
    })
}

/// What a search misses by its outcome.
fn miss_of(outcome: Outcome) -> Option<Miss>
    ensures { result ≡ miss_of outcome }
{
    match outcome {
        Outcome::Reached(_) => None,
        Outcome::Unreached => Some(Miss::Unreached),
        Outcome::Unknown(_) => Some(Miss::Unknown),
    }
}

/// What is written for what a search gives, which stays, and the note on what it misses.
fn search_answer(alloc: Global, reach: &Reach) -> Result<Response, NoMemory>
    requires { HasStates reach.now.outcome reach.now }
    ensures status { IfOk result (λ answer. answer.reply.status ≡ reach_status reach.now.outcome) }
    ensures text { IfOk result (λ answer. answer.reply.text.items ≡ reach_text reach.now) }
    ensures note { IfOk result (λ answer. SureText (miss_text_of (miss_of reach.now.outcome)) answer.note) }
{
    let reply = written(alloc, reach)?;
    let note = miss_said(miss_of(reach.outcome));
    Ok(Response { reply, note })
}

/// The same for what nobody needs behind it.
fn answer_of(alloc: Global, reach: Reach) -> Result<Response, NoMemory>
    requires { HasStates reach.outcome reach }
    ensures status { IfOk result (λ answer. answer.reply.status ≡ reach_status reach.outcome) }
    ensures text { IfOk result (λ answer. answer.reply.text.items ≡ reach_text reach) }
    ensures note { IfOk result (λ answer. SureText (miss_text_of (miss_of reach.outcome)) answer.note) }
{
    let answer = search_answer(alloc, &reach);
    answer
}

/// The answer for a state that stays.
fn reach_answer(alloc: Global, target: &Target, conflicts: u64) -> Result<Response, NoMemory>
    requires cycles { target.now.cycles ≤ MAX_FRAMES }
    requires limit { 1 ≤ conflicts }
    ensures done { IfOk result (λ answer. finishes (to_reach conflicts (target_in target.now)) answer.reply.status answer.reply.text.items) }
    ensures said { IfOk result (λ answer. WorkSaid (to_reach conflicts (target_in target.now)) answer.reply.text.items answer.note) }
{
    means_design(&target.net);
    match search(alloc, target, conflicts) {
        Ok(reach) => answer_of(alloc, reach),
        Err(want) => Err(want),
    }
}

/// The answer for a state.
fn reached(alloc: Global, target: Target, conflicts: u64) -> Result<Response, NoMemory>
    requires cycles { target.cycles ≤ MAX_FRAMES }
    requires limit { 1 ≤ conflicts }
    ensures done { IfOk result (λ answer. finishes (to_reach conflicts (target_in target)) answer.reply.status answer.reply.text.items) }
    ensures said { IfOk result (λ answer. WorkSaid (to_reach conflicts (target_in target)) answer.reply.text.items answer.note) }
{
    let answer = reach_answer(alloc, &target, conflicts);
    answer
}

/// The answer of the command.
pub fn reach<S: Shelf>(
    alloc: Global,
    shelf: &mut S,
    job: &ReachJob<'_>,
) -> Result<Response, NoMemory>
    requires cycles { job.now.cycles ≤ MAX_FRAMES }
    requires limit { 1 ≤ job.now.conflicts }
    ensures { PreparedNoted CheckSays finishes (JobSaid (ReachWords (reach_job job.now))) S.held S.faults S.leads shelf.old shelf.new
        (Some (plan_of (ReachWords (reach_job job.now)))) result }
{
    match load_target(alloc, shelf, job.netlist, job.state, job.cycles) {
        Ok(target) => reached(alloc, target, job.conflicts),
        Err(stop) => stop_answer(alloc, &reach_paths(job), shelf.reason(), stop),
    }
}
