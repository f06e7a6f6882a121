//! Names with values, or the diagnostic of their words.
ghost use Rattle.std.specs.Prelude.{◌≡◌, map};
ghost use Rattle.bs_outside.specs.declared.file_fetch.Refusal.TheVariants.{NoMemory as Want};
ghost use Rattle.bs_outside.specs.Plan.{exactly};
ghost use Rattle.bs_outside.specs.Diagnostic.{note_refusal, noted, word_refusal, worded};
ghost use Rattle.bs_outside.specs.Walks.{Reads};
ghost use Rattle.bs_top_files.specs.Causes.{CheckSays, HasNote, NoteSays};
ghost use Rattle.bs_top_files.specs.Refusals.{HasWords};
ghost use Rattle.bs_inspect_seen.specs.declared.fault.GivenFault.TheVariants.{NoMemory as GivenWant};
ghost use Rattle.bs_inspect_seen.specs.Given.{flop_keys, given_in};
ghost use Rattle.bs_inspect_seen.specs.Readings.{fault_text, given_words, givens_read};

use crate::fault::GivenFault;
use crate::given::{Given, read_givens};
use crate::notes::fault_note;
use crate::refusals::given_refusal;
use bs_net::Netlist;
use bs_outside::{Unread, both};
use std::alloc::Global;

/// The diagnostic of words that give no values.
#[tactic(auto, using(bs_top_files::proofs::NotingLemmas::both_words, bs_top_files::proofs::NotingLemmas::both_these, bs_top_files::proofs::NotingLemmas::both_want))]
fn given_diagnostic(alloc: Global, net: &Netlist, words: &[&str], fault: GivenFault) -> Unread
    ensures words { HasWords (given_words fault) (word_refusal result) }
    ensures want { fault ≡ GivenWant → word_refusal result ≡ Want }
    ensures note { HasNote (exactly (fault_text (flop_keys net.now.raw) (map (λ s. s.now) words.now) fault)) (note_refusal result) }
    ensures none { fault ≡ GivenWant → note_refusal result ≡ Want }
{
    let refusal = given_refusal(alloc, fault);
    let note = fault_note(alloc, net, words, fault);
    both(refusal, note)
}

/// The names of a netlist's flip-flops with their values, or the diagnostic of the words.
pub(crate) fn givens_or_diagnostic<'a>(
    alloc: Global,
    net: &Netlist,
    words: &[&'a str],
) -> Result<Vec<Given<'a>>, Unread>
    ensures words { Reads CheckSays (λ givens. map given_in givens.items) (givens_read net.now.raw (map (λ s. s.now) words.now)) (worded result) }
    ensures note { Reads NoteSays (λ givens. map given_in givens.items) (givens_read net.now.raw (map (λ s. s.now) words.now)) (noted result) }
{
    match read_givens(alloc, net, words) {
        Ok(givens) => Ok(givens),
        Err(fault) => Err(given_diagnostic(alloc, net, words, fault)),
    }
}
