//! How many lemmas each step of a log has.
ghost use Rattle.std.specs.Prelude.{◌≡◌, IfOk};
ghost use Rattle.bs_inspect_report.specs.Lemmas.{lemmas_logged};

use bs_bits::NoMemory;
use bs_log::Line;
use std::alloc::Global;

/// How many lemmas each step of a log has, up to its retire line.
#[tactic(auto, using(crate::proofs::LemmaLemmas::all_counted, crate::proofs::LemmaLemmas::line_counted))]
pub fn lemmas_logged(alloc: Global, log: &[Line]) -> Result<Vec<u64>, NoMemory>
    ensures { IfOk result (λ counts. counts.items ≡ lemmas_logged log.now) }
{
    let mut counts = Vec::new(alloc);
    let mut count = 0u64;
    'lines: for i in 0..log.len() {
        match log[i] {
            Line::Lemma { .. } => count += 1,
            Line::Retire { .. } => {
                counts.push(count)?;
                count = 0;
            }
            _ => {}
        }
    }
    Ok(counts)
}
