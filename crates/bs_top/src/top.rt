//! The program `backspace`: what its words ask for, and the answer to them.
ghost use Rattle.std.specs.Prelude.{map, option_map, string_bytes, IfOk};
ghost use Rattle.bs_note_calls.specs.Words.{IsWordsNote};
ghost use Rattle.bs_outside.specs.Answers.{RefusesWords};
ghost use Rattle.bs_call.specs.Note.{Sure};
ghost use Rattle.bs_call.specs.Prepared.{PreparedNoted};
ghost use Rattle.bs_top_files.specs.Causes.{CheckSays};
ghost use Rattle.bs_top_words.specs.Job.{job_of};
ghost use Rattle.bs_top.specs.Finishes.{finishes};
ghost use Rattle.bs_top.specs.Said.{WordsSaid};
ghost use Rattle.bs_top.specs.Work.{plan_of};

use crate::audit_command::audit;
use crate::demo_command::demo;
use crate::dump_command::dump;
use crate::reach_command::reach;
use crate::run_command::run;
use crate::wave_command::wave;
use bs_call::{Note, Program, Response};
use bs_note_calls::{unread_words_note, words_note};
use bs_outside::{NoMemory, Shelf, refused_words};
use bs_top_words::{Job, read_words};
use std::alloc::Global;

/// The answer to words that are no job, and the note on what is wrong with them.
fn words_answer(alloc: Global, words: &[String]) -> Result<Response, NoMemory>
    ensures reply { IfOk result (λ answer. RefusesWords answer.reply.status answer.reply.text.items) }
    ensures note { IfOk result (λ answer. Sure (IsWordsNote (map string_bytes words.now)) answer.note) }
{
    let reply = refused_words(alloc)?;
    let note = Note::Brief(words_note(words));
    Ok(Response { reply, note })
}

/// What is to be answered and written, and what is to be said.
fn prepare<S: Shelf>(alloc: Global, words: &[String], shelf: &mut S) -> Result<Response, NoMemory>
    ensures { PreparedNoted CheckSays finishes (WordsSaid (map string_bytes words.now) (job_of (map string_bytes words.now)))
        S.held S.faults S.leads shelf.old shelf.new (option_map plan_of (job_of (map string_bytes words.now))) result }
{
    match read_words(alloc, words)? {
        Some(Job::Dump(job)) => dump(alloc, shelf, &job),
        Some(Job::Run(job)) => run(alloc, shelf, &job),
        Some(Job::Audit(job)) => audit(alloc, shelf, &job),
        Some(Job::Demo(number)) => demo(alloc, number),
        Some(Job::Wave(job)) => wave(alloc, shelf, &job),
        Some(Job::Reach(job)) => reach(alloc, shelf, &job),
        None => words_answer(alloc, words),
    }
}

/// The program `backspace`.
#[derive(Drop)]
pub struct Backspace;

impl Program for Backspace {
    ghost use Rattle.bs_top_files.specs.Causes.{Case as RefusalCase};
    ghost use Rattle.bs_top_words.specs.Job.{Job as WordsJob};
    ghost use Rattle.bs_top.specs.Program.{backspace_means};
    ghost use Rattle.bs_top.specs.Work.{Work as JobWork};

    ghost Job = { WordsJob };

    ghost Case = { RefusalCase };

    ghost Work = { JobWork };

    ghost means = { backspace_means };

    #[tactic(auto, using(crate::proofs::WorkLemmas::is_work, crate::proofs::DesignLemmas::netlists_mean_designs))]
    fn prepare<S: Shelf>(
        &self,
        alloc: Global,
        words: &[String],
        shelf: &mut S,
    ) -> Result<Response, NoMemory> {
        let answer = prepare(alloc, words, shelf);
        answer
    }

    fn memory_note(&self) -> &'static str {
        "note: memory ran out, and nothing was written: give the program more, or lower --candidates and --conflicts\n"
    }

    fn unread_note(&self, _alloc: Global) -> Note {
        Note::Brief(unread_words_note())
    }
}
