//! The command `dump`: the dump of a moment of the recorded runs.
ghost use Rattle.std.specs.Prelude.{◌≡◌, IfOk, Some};
ghost use Rattle.bs_call.specs.Prepared.{PreparedNoted};
ghost use Rattle.bs_top_files.specs.Ready.{names_in, moment_files_in};
ghost use Rattle.bs_top_files.specs.Causes.{CheckSays};
ghost use Rattle.bs_top_words.specs.Job.{Dump as DumpWords};
ghost use Rattle.bs_top.specs.Work.{dump_names, plan_of, to_dump};
ghost use Rattle.bs_top.specs.Words.{dump_job};
ghost use Rattle.bs_net.specs.Netlist.{circuit};
ghost use Rattle.bs_scan.specs.Crash.{dump_at, DumpFits};
ghost use Rattle.bs_scan.specs.Moments.{IsMoment, moment};
ghost use Rattle.bs_top_files.specs.Entry.{recording_in};
ghost use Rattle.bs_top.specs.Finishes.{finishes, replies};
ghost use Rattle.bs_top.specs.Said.{JobSaid, WorkSaid};

use crate::design::means_design;
use crate::names::dump_paths;
use bs_call::{Note, Response, stop_answer};
use bs_chip::Chip;
use bs_outside::{NoMemory, Reply, Shelf, Status};
use bs_scan::Dump;
use bs_top_files::{FileNames, MomentFiles, load_moment_files};
use bs_top_words::DumpJob;
use std::alloc::Global;

/// What a chip dumps at a moment.
fn dumped_by(alloc: Global, chip: Chip<'_>, run: u32, cycle: u32) -> Result<Dump, NoMemory>
    requires { IsMoment chip.recording.runs (moment run cycle) }
    ensures { IfOk result (λ dump. dump ≡ dump_at chip.entry.recording (moment run cycle)) }
{
    let mut chip = chip;
    let dump = chip.dump_at(alloc, run, cycle);
    dump
}

/// What a chip with the runs of a job dumps at its moment.
fn dumped_at(alloc: Global, moment_files: &MomentFiles) -> Result<Dump, NoMemory>
    ensures { IfOk result (λ dump. dump ≡ dump_at (recording_in (moment_files_in moment_files.now).setup) (moment_files_in moment_files.now).moment) }
{
    let setup = &moment_files.setup;
    match Chip::new(alloc, &setup.net, &setup.choice, &setup.runs) {
        Ok(chip) => dumped_by(
            alloc,
            chip,
            moment_files.moment.run,
            moment_files.moment.cycle,
        ),
        Err(want) => Err(want),
    }
}

/// The dump of a moment.
pub fn dump_of(alloc: Global, moment_files: &MomentFiles) -> Result<Dump, NoMemory>
    ensures dump { IfOk result (λ dump. dump ≡ dump_at (recording_in (moment_files_in moment_files.now).setup) (moment_files_in moment_files.now).moment) }
    ensures fits { IfOk result (DumpFits (circuit moment_files.now.setup.net) moment_files.now.setup.choice) }
{
    let _depth = moment_files.setup.choice.depth();
    let dump = dumped_at(alloc, moment_files)?;
    Ok(dump)
}

/// The text of that dump.
fn dump_text(alloc: Global, moment_files: &MomentFiles) -> Result<Vec<u8>, NoMemory>
    ensures { IfOk result (λ text. replies (to_dump (moment_files_in moment_files.now)) Status.Done text.items) }
{
    let dump = dump_of(alloc, moment_files)?;
    let mut text = Vec::new(alloc);
    dump.text(&mut text)?;
    Ok(text)
}

/// What is written for a moment that stays.
fn dump_reply(alloc: Global, moment_files: &MomentFiles) -> Result<Reply, NoMemory>
    ensures { IfOk result (λ answer. replies (to_dump (moment_files_in moment_files.now)) answer.status answer.text.items) }
{
    let text = dump_text(alloc, moment_files)?;
    Ok(Reply {
        status: Status::Done,
        text,
    })
}

/// The answer for a moment, on which there is no note.
fn dump_answer(alloc: Global, moment_files: &MomentFiles) -> Result<Response, NoMemory>
    ensures done { IfOk result (λ answer. finishes (to_dump (moment_files_in moment_files.now)) answer.reply.status answer.reply.text.items) }
    ensures said { IfOk result (λ answer. WorkSaid (to_dump (moment_files_in moment_files.now)) answer.reply.text.items answer.note) }
{
    means_design(&moment_files.setup.net);
    let reply = dump_reply(alloc, moment_files)?;
    Ok(Response {
        reply,
        note: Note::Silent,
    })
}

/// The same of a moment that nobody needs behind it.
fn dumped(alloc: Global, moment_files: MomentFiles) -> Result<Response, NoMemory>
    ensures done { IfOk result (λ answer. finishes (to_dump (moment_files_in moment_files)) answer.reply.status answer.reply.text.items) }
    ensures said { IfOk result (λ answer. WorkSaid (to_dump (moment_files_in moment_files)) answer.reply.text.items answer.note) }
{
    let answer = dump_answer(alloc, &moment_files);
    answer
}

/// The answer of the command.
pub fn dump<S: Shelf>(alloc: Global, shelf: &mut S, job: &DumpJob<'_>) -> Result<Response, NoMemory>
    ensures { PreparedNoted CheckSays finishes (JobSaid (DumpWords (dump_job job.now))) S.held S.faults S.leads shelf.old shelf.new
        (Some (plan_of (DumpWords (dump_job job.now)))) result }
{
    let names = FileNames {
        netlist: job.netlist,
        signature: job.signature,
        stimulus: job.stimulus,
    };
    match load_moment_files(alloc, shelf, &names, job.run, job.cycle) {
        Ok(moment_files) => dumped(alloc, moment_files),
        Err(stop) => stop_answer(alloc, &dump_paths(job), shelf.reason(), stop),
    }
}
