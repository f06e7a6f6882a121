//! The text of a block.
ghost use Rattle.std.specs.Prelude.{◌≡◌, ◌<◌, ◌≤◌, length, All, OnOk};
ghost use Rattle.bs_net.specs.Netlist.{circuit};
ghost use Rattle.bs_net_facts.specs.Facts.{IsReal, IsWayOf};
ghost use Rattle.bs_inspect_why_words.specs.Blocks.{Appends, TellsBlock, TellsCauses};
ghost use Rattle.bs_inspect_why_words.specs.Heads.{episode_in};
ghost use Rattle.bs_inspect_why_words.specs.Stretches.{starts as starts_of};

use crate::cause::push_stretch;
use crate::episode::Episode;
use crate::head::push_head;
use crate::limits::Limits;
use crate::span::push_by_cycles;
use crate::stretch::{starts, stretch_back};
use bs_bits::NoMemory;
use bs_net_facts::{Fact, Moments};
use bs_report::Report;

/// Appends the lines of causes, by where their stretches begin.
fn push_stretches(
    text: &mut Vec<u8>,
    moments: &Moments<'_>,
    limits: Limits,
    facts: &[Fact],
    begins: &[usize],
) -> Result<(), NoMemory>
    requires way { IsWayOf (circuit moments.now.net) moments.now.states moments.now.inputs }
    requires real { All (λ f. IsReal (circuit moments.now.net) moments.now.states moments.now.inputs f) facts.now }
    requires begins { begins.now ≡ starts_of facts.now }
    ensures { OnOk result (Appends (TellsCauses moments.now limits facts.now) text.old.items text.new.items) }
{
    'stretches: for j in 0..begins.len() {
        push_stretch(text, moments, limits, stretch_back(facts, begins, j))?;
    }
    Ok(())
}

/// Appends the lines of causes, cycle by cycle from the last one on.
fn push_causes(
    text: &mut Vec<u8>,
    moments: &Moments<'_>,
    limits: Limits,
    facts: &[Fact],
) -> Result<(), NoMemory>
    requires way { IsWayOf (circuit moments.now.net) moments.now.states moments.now.inputs }
    requires real { All (λ f. IsReal (circuit moments.now.net) moments.now.states moments.now.inputs f) facts.now }
    ensures { OnOk result (Appends (TellsCauses moments.now limits facts.now) text.old.items text.new.items) }
{
    let begins = starts(*text.allocator(), facts)?;
    push_stretches(text, moments, limits, facts, begins.as_slice())?;
    Ok(())
}

/// Appends the text of a block, or of a chain of so many, from the one that ends last to the first step.
pub fn push_block(
    text: &mut Vec<u8>,
    moments: &Moments<'_>,
    report: &Report,
    limits: Limits,
    steps: usize,
    first: &Episode<'_>,
    last: &Episode<'_>,
) -> Result<(), NoMemory>
    requires way { IsWayOf (circuit moments.now.net) moments.now.states moments.now.inputs }
    requires real { All (λ f. IsReal (circuit moments.now.net) moments.now.states moments.now.inputs f) (episode_in last.now).causes }
    requires placed { All (λ f. f.net.0 < (circuit moments.now.net).nets) (episode_in last.now).bits }
    requires in_time { last.now.since ≤ length moments.now.inputs }
    ensures { OnOk result (Appends (TellsBlock moments.now report.now limits steps (episode_in first.now) (episode_in last.now)) text.old.items text.new.items) }
{
    push_head(text, moments, report, steps, first, last)?;
    push_causes(text, moments, limits, last.causes)?;
    let raw = moments.net().raw();
    push_by_cycles(text, raw, b"    kept by ", limits, limits.held, first.holds)?;
    push_by_cycles(text, raw, b"    whatever ", limits, limits.idle, last.idle)?;
    Ok(())
}
