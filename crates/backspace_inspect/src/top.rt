//! The program `backspace_inspect`: what its words ask for, and the answer to them.
ghost use Rattle.std.specs.Prelude.{◌≡◌, map, option_map, string_bytes, IfOk};
ghost use Rattle.bs_outside.specs.Answers.{RefusesWords};
ghost use Rattle.bs_call.specs.Note.{Due};
ghost use Rattle.bs_call.specs.Prepared.{PreparedNoted};
ghost use Rattle.bs_top_files.specs.Causes.{CheckSays};
ghost use Rattle.bs_inspect_plans.specs.Finishes.{finishes};
ghost use Rattle.bs_inspect_plans.specs.Said.{WordsSaid};
ghost use Rattle.bs_inspect_plans.specs.Work.{plan_of};
ghost use Rattle.bs_inspect_usages.specs.Usages.{words_text};
ghost use Rattle.bs_inspect_words.specs.Asked.{shown_request};
ghost use Rattle.bs_inspect_words.specs.Request.{request_of};

use crate::asking::request_answer;
use bs_call::{Note, Program, Response, note_made};
use bs_inspect_usages::{unread_note, words_note};
use bs_inspect_words::{Request, read_request};
use bs_outside::{NoMemory, Shelf, refused_words};
use std::alloc::Global;

/// The answer to words that are no request, and the note on what is wrong with them.
fn words_answer(alloc: Global, words: &[String]) -> Result<Response, NoMemory>
    ensures reply { IfOk result (λ answer. RefusesWords answer.reply.status answer.reply.text.items) }
    ensures note { IfOk result (λ answer. Due (λ said. said ≡ words_text (map string_bytes words.now)) answer.note) }
{
    let reply = refused_words(alloc)?;
    let note = note_made(words_note(alloc, words));
    Ok(Response { reply, note })
}

/// The answer to words, by the request that they are.
fn asked_answer<S: Shelf>(
    alloc: Global,
    words: &[String],
    asked: Option<Request<'_>>,
    shelf: &mut S,
) -> Result<Response, NoMemory>
    ensures { PreparedNoted CheckSays finishes (WordsSaid (map string_bytes words.now) (shown_request asked.entry)) S.held S.faults S.leads
        shelf.old shelf.new (option_map plan_of (shown_request asked.entry)) result }
{
    match asked {
        Some(request) => {
            let answer = request_answer(alloc, &request, shelf);
            answer
        }
        None => words_answer(alloc, words),
    }
}

/// What is to be answered and written, and what is to be said.
fn prepare<S: Shelf>(alloc: Global, words: &[String], shelf: &mut S) -> Result<Response, NoMemory>
    ensures { PreparedNoted CheckSays finishes (WordsSaid (map string_bytes words.now) (request_of (map string_bytes words.now))) S.held S.faults S.leads
        shelf.old shelf.new (option_map plan_of (request_of (map string_bytes words.now))) result }
{
    match read_request(alloc, words) {
        Ok(asked) => asked_answer(alloc, words, asked, shelf),
        Err(want) => Err(want),
    }
}

/// The program `backspace_inspect`.
#[derive(Drop)]
pub struct Inspect;

impl Program for Inspect {
    ghost use Rattle.bs_top_files.specs.Causes.{Case as RefusalCase};
    ghost use Rattle.bs_inspect_plans.specs.Work.{Work as RequestWork};
    ghost use Rattle.bs_inspect_words.specs.Request.{Request as WordsRequest};
    ghost use Rattle.backspace_inspect.specs.Program.{inspect_means};

    ghost Job = { WordsRequest };

    ghost Case = { RefusalCase };

    ghost Work = { RequestWork };

    ghost means = { inspect_means };

    #[tactic(auto, using(bs_inspect_plans::proofs::WorkLemmas::is_work))]
    fn prepare<S: Shelf>(
        &self,
        alloc: Global,
        words: &[String],
        shelf: &mut S,
    ) -> Result<Response, NoMemory> {
        let answer = prepare(alloc, words, shelf);
        answer
    }

    fn memory_note(&self) -> &'static str {
        "note: memory ran out, and nothing was written: give the program more\n"
    }

    fn unread_note(&self, alloc: Global) -> Note {
        let note = note_made(unread_note(alloc));
        note
    }
}
