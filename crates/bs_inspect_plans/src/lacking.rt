//! What is said of a dump whose simulation does not have all flip-flops.
ghost use Rattle.std.specs.Prelude.{◌≡◌, ◌++◌, IfOk};
ghost use Rattle.bs_call.specs.Note.{Due, DueText};
ghost use Rattle.bs_call.specs.Prepared.{replied};
ghost use Rattle.bs_inspect_plans.specs.Lacking.{lack_sentence, lack_text, lacking_text};

use bs_bits::push_number;
use bs_call::{Note, Response, note_made};
use bs_note_files::pair_note;
use bs_outside::{NoMemory, Reply};
use std::alloc::Global;

/// What is said of so many flip-flops that are not there.
#[tactic(auto, unfolding(crate::specs::Lacking::lack_sentence))]
fn lack_sentence(alloc: Global, count: usize) -> Result<Vec<u8>, NoMemory>
    ensures { IfOk result (λ said. said.items ≡ lack_sentence count) }
{
    let mut said =
        b"so many flip-flops are not in the simulation, and `-` stands for each of them: ".to_vec(
            alloc,
        )?;
    push_number(&mut said, count as u64)?;
    Ok(said)
}

/// A note on them.
fn lack_note(alloc: Global, count: usize) -> Result<Vec<u8>, NoMemory>
    ensures { IfOk result (λ note. note.items ≡ lack_text count) }
{
    let said = lack_sentence(alloc, count)?;
    pair_note(
        alloc,
        &said,
        b"`check` tells their names; where they are there, --scope and --map say where",
    )
}

/// The same, which is due.
fn lack_said(alloc: Global, count: usize) -> Note
    ensures { Due (λ text. text ≡ lack_text count) result }
{
    note_made(lack_note(alloc, count))
}

/// The note on them, where there are some.
#[tactic(auto, using(crate::proofs::LackingLemmas::none_lack, crate::proofs::LackingLemmas::some_lack))]
fn lacking_said(alloc: Global, count: usize) -> Note
    ensures { DueText (lacking_text count) result }
{
    if count == 0 {
        Note::Silent
    } else {
        lack_said(alloc, count)
    }
}

/// The answer that tells a dump, of which so many flip-flops are not there.
pub fn lacking_noted(
    alloc: Global,
    count: usize,
    told: Result<Reply, NoMemory>,
) -> Result<Response, NoMemory>
    ensures reply { replied result ≡ told }
    ensures note { IfOk result (λ answer. DueText (lacking_text count) answer.note) }
{
    match told {
        Ok(reply) => {
            let note = lacking_said(alloc, count);
            Ok(Response { reply, note })
        }
        Err(want) => Err(want),
    }
}
