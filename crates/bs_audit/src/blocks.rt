//! The blocks that a step logs, against its candidates.
ghost use Rattle.std.specs.Prelude.{◌≡◌, ◌↔◌, ◌∷◌, [], false, length, map, not, count_by, All, IfOk, IsTrue, MatchOption, replicate};
ghost use Rattle.std.specs.List.{list_all};
ghost use Rattle.bs_clause.specs.Literal.{negation};
ghost use Rattle.bs_encode.specs.Assuming.{block_for};
ghost use Rattle.bs_scan.specs.Moments.{is_listed};
ghost use Rattle.bs_report.specs.Step.{listed, Ascend};
ghost use Rattle.bs_report.specs.Valid.{are_right_blocks, blocks_due, blocks_in, has_clause};
ghost use Rattle.bs_audit.specs.StepLines.{is_block};
ghost use Rattle.bs_audit.specs.Blocked.{Blocks, BlocksNone, IsAt, IsNotDue, IsDueAt, AreNoted, NotesMore};

use bs_bits::{Bits, List, NoMemory};
use bs_clause::{Lit, is_same};
use bs_encode::Encoding;
use bs_log::Line;
use bs_report::Cand;
use std::alloc::Global;
use std::cmp::Ordering;

/// Whether literals have the variables of the state, in order.
fn are_of_state(encoding: &Encoding, width: usize, literals: &[Lit]) -> bool
    requires { width ≡ length encoding.now.states }
    ensures { IsTrue result ↔ (map (λ l. l.variable) literals.now ≡ map (λ l. l.variable) encoding.now.states) }
{
    if literals.len() != width {
        return false;
    }
    'literals: for i in 0..width {
        if literals[i].var().0 != encoding.state_lit(i).var().0 {
            return false;
        }
    }
    true
}

/// For each literal whether it is a negation.
fn denied(alloc: Global, literals: &[Lit]) -> Result<Bits, NoMemory>
    ensures { IfOk result (λ bits. bits ≡ map (λ l. not l.positive) literals.now) }
{
    let mut bits = Bits::new(alloc);
    'literals: for literal in literals {
        bits.push(!literal.positive())?;
    }
    Ok(bits)
}

/// The state whose block a clause is, if it is one.
fn blocked_state(
    alloc: Global,
    encoding: &Encoding,
    width: usize,
    activation: Lit,
    clause: &[Lit],
) -> Result<Option<Bits>, NoMemory>
    requires { width ≡ length encoding.now.states }
    ensures { IfOk result (λ state. MatchOption state (BlocksNone encoding.now activation clause.now) (Blocks encoding.now activation clause.now)) }
{
    match clause.split_first() {
        None => Ok(None),
        Some((first, rest)) => {
            if !is_same(*first, activation.negate()) {
                return Ok(None);
            }
            if !are_of_state(encoding, width, rest) {
                return Ok(None);
            }
            Ok(Some(denied(alloc, rest)?))
        }
    }
}

/// The place of a state among candidates, which ascend.
fn place_of(cands: &[Cand], state: &Bits) -> Option<usize>
    requires { Ascend (listed cands.now) }
    ensures { MatchOption result (is_listed (listed cands.now) state.now ≡ false) (IsAt (listed cands.now) state.now) }
{
    let mut low = 0;
    let mut high = cands.len();
    'halves: while low < high {
        let middle = low + (high - low) / 2;
        match cands[middle].state.order(state) {
            Ordering::Less => low = middle + 1,
            Ordering::Equal => return Some(middle),
            Ordering::Greater => high = middle,
        }
    }
    None
}

/// The place of the candidate whose block a clause is.
fn blocked_place(
    alloc: Global,
    encoding: &Encoding,
    width: usize,
    activation: Lit,
    cands: &[Cand],
    clause: &[Lit],
) -> Result<Option<usize>, NoMemory>
    requires width { width ≡ length encoding.now.states }
    requires ascend { Ascend (listed cands.now) }
    requires widths { All (λ s. length s ≡ width) (listed cands.now) }
    ensures { IfOk result (λ place. MatchOption place (IsNotDue encoding.now activation (listed cands.now) clause.now) (IsDueAt encoding.now activation (listed cands.now) clause.now)) }
{
    match blocked_state(alloc, encoding, width, activation, clause)? {
        None => Ok(None),
        Some(state) => Ok(place_of(cands, &state)),
    }
}

/// Notes a line's block, if it is one; or `false` where that is no candidate's block.
fn note_line(
    alloc: Global,
    encoding: &Encoding,
    width: usize,
    activation: Lit,
    cands: &[Cand],
    line: &Line,
    noted: &mut Vec<bool>,
) -> Result<bool, NoMemory>
    requires width { width ≡ length encoding.now.states }
    requires ascend { Ascend (listed cands.now) }
    requires widths { All (λ s. length s ≡ width) (listed cands.now) }
    requires room { length noted.old.items ≡ length cands.now }
    ensures known { IfOk result (λ known. known ≡ list_all (has_clause (blocks_due activation (block_for encoding.now) cands.now)) (blocks_in (line.now ∷ []))) }
    ensures noted { IfOk result (λ known. IsTrue known → NotesMore encoding.now activation (listed cands.now) (blocks_in (line.now ∷ [])) noted.old.items noted.new.items) }
{
    match line {
        Line::Block { lits, .. } => {
            match blocked_place(alloc, encoding, width, activation, cands, lits.slice())? {
                None => Ok(false),
                Some(place) => {
                    noted[place] = true;
                    Ok(true)
                }
            }
        }
        _ => Ok(true),
    }
}

/// Notes the blocks of lines; or `false` where one is no candidate's block.
fn note_lines(
    alloc: Global,
    encoding: &Encoding,
    width: usize,
    activation: Lit,
    cands: &[Cand],
    lines: &[Line],
    noted: &mut Vec<bool>,
) -> Result<bool, NoMemory>
    requires width { width ≡ length encoding.now.states }
    requires ascend { Ascend (listed cands.now) }
    requires widths { All (λ s. length s ≡ width) (listed cands.now) }
    requires none { AreNoted encoding.now activation (listed cands.now) [] noted.old.items }
    ensures known { IfOk result (λ known. known ≡ list_all (has_clause (blocks_due activation (block_for encoding.now) cands.now)) (blocks_in lines.now)) }
    ensures noted { IfOk result (λ known. IsTrue known → AreNoted encoding.now activation (listed cands.now) (blocks_in lines.now) noted.new.items) }
{
    'lines: for line in lines {
        if !note_line(alloc, encoding, width, activation, cands, line, noted)? {
            return Ok(false);
        }
    }
    Ok(true)
}

/// Whether a line adds a block.
fn is_block(line: &Line) -> bool
    ensures { result ≡ is_block line.now }
{
    matches!(line, Line::Block { .. })
}

/// How many lines add a block.
fn count_blocks(lines: &[Line]) -> usize
    ensures { result ≡ count_by is_block lines.now }
{
    lines.iter().filter(|line| is_block(line)).count()
}

/// As many places, none of them noted.
fn none_noted(alloc: Global, count: usize) -> Result<Vec<bool>, NoMemory>
    ensures { IfOk result (λ noted. noted.items ≡ replicate count false) }
{
    Ok(vec![in alloc; false; count]?)
}

/// Whether all places are noted.
fn are_noted(noted: &[bool]) -> bool
    ensures { result ≡ list_all (λ b. b) noted.now }
{
    noted.iter().all(|noted| *noted)
}

/// Whether the blocks in the lines of a step are those of its candidates, each once.
pub fn are_right_blocks(
    alloc: Global,
    encoding: &Encoding,
    width: usize,
    activation: Lit,
    cands: &[Cand],
    lines: &[Line],
) -> Result<bool, NoMemory>
    requires width { width ≡ length encoding.now.states }
    requires ascend { Ascend (listed cands.now) }
    requires widths { All (λ s. length s ≡ width) (listed cands.now) }
    ensures { IfOk result (λ right. right ≡ are_right_blocks (blocks_due activation (block_for encoding.now) cands.now) (blocks_in lines.now)) }
{
    if count_blocks(lines) != cands.len() {
        return Ok(false);
    }
    let mut noted = none_noted(alloc, cands.len())?;
    if !note_lines(alloc, encoding, width, activation, cands, lines, &mut noted)? {
        return Ok(false);
    }
    Ok(are_noted(noted.as_slice()))
}
