//! As many VCDs as runs.
ghost use Rattle.std.specs.Prelude.{◌≡◌, length, map, true, IfOk};
ghost use Rattle.bs_outside.specs.Plan.{exactly};
ghost use Rattle.bs_outside.specs.Diagnostic.{note_refusal, noted, word_refusal, worded};
ghost use Rattle.bs_outside.specs.Walks.{Reads};
ghost use Rattle.bs_top_files.specs.Causes.{CheckSays, HasNote, NoteSays};
ghost use Rattle.bs_top_files.specs.Refusals.{HasWords};
ghost use Rattle.bs_inspect_files.specs.VcdReadings.{count_in, count_text, count_words};

use bs_bits::{NoMemory, push_number, push_piece};
use bs_inspect_values::numbered;
use bs_note_files::file_note;
use bs_outside::{Unread, both};
use bs_stim::Runs;
use std::alloc::Global;

/// A note on a number of VCDs that is not that of the runs.
fn count_note(alloc: Global, path: &str, runs: u64, vcds: u64) -> Result<Vec<u8>, NoMemory>
    ensures { IfOk result (λ note. note.items ≡ count_text path.now runs vcds) }
{
    let mut sentence = Vec::new(alloc);
    push_piece(
        &mut sentence,
        b"the stimulus has so many runs, each of which needs its VCD: ",
    )?;
    push_number(&mut sentence, runs)?;
    push_piece(&mut sentence, b"; VCDs that are named: ")?;
    push_number(&mut sentence, vcds)?;
    let note = file_note(alloc, path, sentence.as_slice())?;
    Ok(note)
}

/// The diagnostic of a number of VCDs that is not that of the runs.
#[tactic(auto, using(bs_top_files::proofs::NotingLemmas::both_words, bs_top_files::proofs::NotingLemmas::both_these))]
fn count_diagnostic(alloc: Global, path: &str, runs: u64, vcds: u64) -> Unread
    ensures words { HasWords (count_words runs) (word_refusal result) }
    ensures note { HasNote (exactly (count_text path.now runs vcds)) (note_refusal result) }
{
    let words = numbered(alloc, b"Runs ", runs);
    let note = count_note(alloc, path, runs, vcds);
    both(words, note)
}

/// Whether there is a VCD for each run, or the diagnostic of it.
#[tactic(auto, using(crate::proofs::CountLemmas::same_count, crate::proofs::CountLemmas::same_noted, crate::proofs::CountLemmas::other_count, crate::proofs::CountLemmas::other_noted))]
pub(crate) fn count_or_diagnostic(
    alloc: Global,
    path: &str,
    runs: &Runs,
    vcds: &[&str],
) -> Result<(), Unread>
    ensures words { Reads CheckSays (λ _. true) (count_in runs.now path.now (map (λ s. s.now) vcds.now)) (worded result) }
    ensures note { Reads NoteSays (λ _. true) (count_in runs.now path.now (map (λ s. s.now) vcds.now)) (noted result) }
    ensures same { IfOk result (λ _. length runs.now.runs ≡ length vcds.now) }
{
    let count = u64::from(runs.count());
    let own = vcds.len() as u64;
    if count == own {
        return Ok(());
    }
    Err(count_diagnostic(alloc, path, count, own))
}
