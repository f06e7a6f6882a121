//! What is dumped of a chip: a state, and the signatures that its register holds.
ghost use Rattle.std.specs.Prelude.{◌≡◌, ◌++◌, ◌&&◌, not, is_none, None, length, IfOk, OnOk, OnErr};
ghost use Rattle.bs_scan.specs.Seen.{is_shown, Shows};
ghost use Rattle.bs_net.specs.Netlist.{circuit};
ghost use Rattle.bs_net.specs.Circuit.{reset_state};
ghost use Rattle.bs_scan.specs.Choice.{depth_of, IsDepth};
ghost use Rattle.bs_scan.specs.Dump.{IsDump};
ghost use Rattle.bs_scan.specs.DumpText.{dump_of, dump_text, at_reset as dump_at_reset};
ghost use Rattle.bs_bits.specs.Lines.{lines_of};
ghost use Rattle.bs_bits.specs.Reading.{Answers};
ghost use Rattle.bs_scan.specs.Crash.{DumpFits};

use crate::choice::Choice;
use crate::dump_text::{
    end_line, first_line, held_line, older_line, push_lines, rest_behind_older, seen_line,
};
use crate::fault::DumpFault;
use crate::seen::Seen;
use bs_bits::{Bits, NoMemory};
use bs_net::Netlist;
use std::alloc::Global;

/// A dump: what is known of the state of the flip-flops, in scan order, and the signatures that the register holds, as many as it
/// holds. It keeps that of the last state, and at depth 2 that of the one before, the older one.
#[derive(Drop)]
pub struct Dump {
    pub state: Seen,
    pub stored: Option<Bits>,
    pub older: Option<Bits>,
    pub depth: u8,
}

/// Whether it has no signature, and the reset state does not show what is known of it.
fn is_unrested(alloc: Global, reset: &Bits, dump: &Dump) -> Result<bool, NoMemory>
    ensures { IfOk result (λ wrong. wrong ≡ (is_none dump.now.stored && not (is_shown dump.now.state reset.now))) }
{
    match &dump.stored {
        Some(_) => Ok(false),
        None => {
            let shown = dump.state.is_shown(alloc, reset)?;
            Ok(!shown)
        }
    }
}

/// The dump, where it has a signature or the reset state shows what is known of it.
fn at_reset(alloc: Global, reset: &Bits, dump: Dump) -> Result<Dump, DumpFault>
    ensures { Answers DumpFault.NoMemory (λ dump. dump) result (dump_at_reset reset.now dump) }
{
    if is_unrested(alloc, reset, &dump)? {
        return Err(DumpFault::NotReset);
    }
    Ok(dump)
}

/// The dump that the lines of a text stand for.
#[tactic(auto, unfolding(crate::specs::DumpText::dump_of))]
fn read_lines(
    alloc: Global,
    bytes: &[u8],
    reset: &Bits,
    depth: u8,
    items: usize,
) -> Result<Dump, DumpFault>
    requires { IsDepth depth }
    ensures { Answers DumpFault.NoMemory (λ dump. dump) result (dump_of reset.now depth items (lines_of bytes.now)) }
{
    let (line, rest) = first_line(bytes);
    let state = seen_line(alloc, b"state ", 1, reset.len(), line)?;
    let (line, rest) = first_line(rest);
    let stored = held_line(alloc, b"sig ", 2, items, line)?;
    let (line, behind) = first_line(rest);
    let older = older_line(alloc, depth, items, &stored, line)?;
    let last = rest_behind_older(depth, rest, behind);
    match end_line(depth as u32 + 2, last) {
        Ok(()) => at_reset(
            alloc,
            reset,
            Dump {
                state,
                stored,
                older,
                depth,
            },
        ),
        Err(fault) => Err(fault),
    }
}

/// An equal signature of its own, or none.
fn copy_of(bits: &Option<Bits>) -> Result<Option<Bits>, NoMemory>
    ensures { IfOk result (λ copy. copy ≡ bits.now) }
{
    match bits {
        None => Ok(None),
        Some(bits) => Ok(Some(bits.copy()?)),
    }
}

impl Dump {
    /// An equal dump of its own.
    pub fn copy(&self) -> Result<Dump, NoMemory>
        ensures { IfOk result (λ copy. copy ≡ self.now) }
    {
        let state = self.state.copy()?;
        let stored = copy_of(&self.stored)?;
        let older = copy_of(&self.older)?;
        Ok(Dump {
            state,
            stored,
            older,
            depth: self.depth,
        })
    }

    /// The dump that a text stands for, of a netlist and what its signatures are taken of (docs/FORMATS.md, "Dump").
    /// Where it has no signature, the reset state shows what is known of it.
    pub fn read(
        alloc: Global,
        bytes: &[u8],
        net: &Netlist,
        choice: &Choice,
    ) -> Result<Dump, DumpFault>
        ensures reads { Answers DumpFault.NoMemory (λ dump. dump) result (dump_of (reset_state (circuit net.now)) (depth_of choice.now) (length choice.now.items) (lines_of bytes.now)) }
        ensures fits { IfOk result (DumpFits (circuit net.now) choice.now) }
        ensures reset { IfOk result (λ dump. dump.stored ≡ None → Shows dump.state (reset_state (circuit net.now))) }
    {
        read_lines(alloc, bytes, net.reset(), choice.depth(), choice.items())
    }

    /// Appends the one text of the dump, in the form of its depth.
    pub fn text(&self, into: &mut Vec<u8>) -> Result<(), NoMemory>
        requires { IsDump self.now }
        ensures ok { OnOk result (into.new.items ≡ into.old.items ++ dump_text self.now) }
        ensures err { OnErr result (into.new.items ≡ into.old.items) }
    {
        let mark = into.len();
        match push_lines(self, into) {
            Ok(()) => Ok(()),
            Err(refused) => {
                into.truncate(mark);
                Err(refused)
            }
        }
    }
}
