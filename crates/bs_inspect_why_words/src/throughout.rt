//! The lines of facts that stand still nearly all through a trace.
ghost use Rattle.std.specs.Prelude.{◌≡◌, ◌++◌, OnOk};
ghost use Rattle.std.specs.List.{flat_map};
ghost use Rattle.bs_net.specs.Netlist.{parts_of};
ghost use Rattle.bs_inspect_why_words.specs.Blocks.{Appends};
ghost use Rattle.bs_inspect_why_words.specs.Throughout.{still_line, TellsStills};

use crate::reason::{Reason, reasons};
use bs_bits::{NoMemory, end_line, push_number, push_piece};
use bs_net::Raw;
use bs_net_facts::Fact;

/// Appends the line of facts that stand since one cycle.
fn push_still(text: &mut Vec<u8>, reason: &Reason) -> Result<(), NoMemory>
    ensures { OnOk result (text.new.items ≡ text.old.items ++ still_line reason.now) }
{
    push_piece(text, b"throughout ")?;
    push_piece(text, reason.words.slice())?;
    push_piece(text, b", since ")?;
    push_number(text, u64::from(reason.cycle))?;
    end_line(text)?;
    Ok(())
}

/// Appends the lines of facts that stand since several cycles.
fn push_all_stills(text: &mut Vec<u8>, reasons: &[Reason]) -> Result<(), NoMemory>
    ensures { OnOk result (text.new.items ≡ text.old.items ++ flat_map still_line reasons.now) }
{
    'reasons: for reason in reasons {
        push_still(text, reason)?;
    }
    Ok(())
}

/// Appends the lines of facts, each at the cycle since which it stands, so many in a line.
#[tactic(auto, using(crate::proofs::ReasonLemmas::stills_told))]
pub fn push_stills(
    text: &mut Vec<u8>,
    raw: &Raw,
    most: usize,
    stills: &[Fact],
) -> Result<(), NoMemory>
    ensures { OnOk result (Appends (TellsStills (parts_of raw.now) most stills.now) text.old.items text.new.items) }
{
    let reasons = reasons(*text.allocator(), raw, stills, most)?;
    push_all_stills(text, reasons.as_slice())?;
    Ok(())
}
