//! The texts of the lines of a log.
ghost use Rattle.std.specs.Prelude.{◌≡◌, ◌≤◌, ◌++◌, [], cond, codes, drop, OnErr, OnOk};
ghost use Rattle.std.specs.List.{flat_map};
ghost use Rattle.bs_log.specs.Writing.{Keeps};
ghost use Rattle.bs_log.specs.LineText.{id_text, line_text, literal_text};

use crate::line::Line;
use bs_bits::{NoMemory, push_number, push_piece};
use bs_clause::Lit;
use itoa::write_digits;

impl Line {
    #[tactic(auto, using(crate::proofs::Keeping::cut_back))]
    /// Appends the one text of the line (docs/FORMATS.md, "The log"), without a line feed.
    pub fn text(&self, into: &mut Vec<u8>) -> Result<(), NoMemory>
        ensures ok { OnOk result (into.new.items ≡ into.old.items ++ line_text self.now) }
        ensures err { OnErr result (into.new.items ≡ into.old.items) }
    {
        let start = into.len();
        let whole = push_line(into, self);
        if whole.is_err() {
            into.truncate(start);
        }
        whole
    }
}

/// How many bytes the text of a literal has at most: a sign, the ten digits of a variable, a space.
const LITERAL_BYTES: usize = 12;

/// Puts a literal's sign before its text from a place on, and gives where the text then begins.
fn put_sign(bytes: &mut [u8; LITERAL_BYTES], start: usize, positive: bool) -> usize
    requires low { 1 ≤ start }
    requires high { start ≤ 12 }
    ensures within { result ≤ 12 }
    ensures signed { drop result bytes.new ≡ cond positive [] (codes "-") ++ drop start bytes.old }
{
    if positive {
        return start;
    }
    bytes[start - 1] = b'-';
    start - 1
}

/// Writes a literal and a space at the end of some bytes, and gives where they begin.
fn write_literal(bytes: &mut [u8; LITERAL_BYTES], literal: Lit) -> usize
    ensures within { result ≤ 12 }
    ensures written { drop result bytes.new ≡ literal_text literal }
{
    bytes[LITERAL_BYTES - 1] = b' ';
    let start = write_digits(u64::from(literal.var().0), bytes, LITERAL_BYTES - 1);
    put_sign(bytes, start, literal.positive())
}

/// Appends a literal and a space.
#[tactic(auto, using(crate::proofs::Keeping::keeps_same))]
fn push_literal(text: &mut Vec<u8>, literal: Lit) -> Result<(), NoMemory>
    ensures ok { OnOk result (text.new.items ≡ text.old.items ++ literal_text literal) }
    ensures err { OnErr result (Keeps text.old.items text.new.items) }
{
    let mut bytes = [0; LITERAL_BYTES];
    let start = write_literal(&mut bytes, literal);
    push_piece(text, &bytes[start..])
}

/// Appends an id and a space.
#[tactic(auto, using(crate::proofs::Keeping::keeps_after, crate::proofs::Keeping::keeps_same, crate::proofs::Keeping::keeps_piece))]
fn push_id(text: &mut Vec<u8>, id: u64) -> Result<(), NoMemory>
    ensures ok { OnOk result (text.new.items ≡ text.old.items ++ id_text id) }
    ensures err { OnErr result (Keeps text.old.items text.new.items) }
{
    push_number(text, id)?;
    push_piece(text, b" ")
}

/// Appends literals, each with a space.
#[tactic(auto, using(crate::proofs::Keeping::keeps_after, crate::proofs::Keeping::keeps_same, crate::proofs::Keeping::keeps_piece))]
fn push_literals(text: &mut Vec<u8>, literals: &[Lit]) -> Result<(), NoMemory>
    ensures ok { OnOk result (text.new.items ≡ text.old.items ++ flat_map literal_text literals.now) }
    ensures err { OnErr result (Keeps text.old.items text.new.items) }
{
    for literal in literals {
        push_literal(text, *literal)?;
    }
    Ok(())
}

/// Appends ids, each with a space.
#[tactic(auto, using(crate::proofs::Keeping::keeps_after, crate::proofs::Keeping::keeps_same, crate::proofs::Keeping::keeps_piece))]
fn push_ids(text: &mut Vec<u8>, ids: &[u64]) -> Result<(), NoMemory>
    ensures ok { OnOk result (text.new.items ≡ text.old.items ++ flat_map id_text ids.now) }
    ensures err { OnErr result (Keeps text.old.items text.new.items) }
{
    for id in ids {
        push_id(text, *id)?;
    }
    Ok(())
}

/// Appends the text of a line; where memory runs out, a part of it may stand behind the old bytes.
#[tactic(auto, using(crate::proofs::Keeping::keeps_after, crate::proofs::Keeping::keeps_same, crate::proofs::Keeping::keeps_piece))]
fn push_line(text: &mut Vec<u8>, line: &Line) -> Result<(), NoMemory>
    ensures ok { OnOk result (text.new.items ≡ text.old.items ++ line_text line.now) }
    ensures err { OnErr result (Keeps text.old.items text.new.items) }
{
    match line {
        Line::Solve => push_piece(text, b"s"),
        Line::Lemma { id, lits, hints } => {
            push_id(text, *id)?;
            push_literals(text, lits.slice())?;
            push_piece(text, b"0 ")?;
            push_ids(text, hints.slice())?;
            push_piece(text, b"0")
        }
        Line::Block { id, lits } => {
            push_piece(text, b"b ")?;
            push_id(text, *id)?;
            push_literals(text, lits.slice())?;
            push_piece(text, b"0")
        }
        Line::Finish { id } => {
            push_piece(text, b"e ")?;
            push_number(text, *id)
        }
        Line::Retire { id } => {
            push_piece(text, b"r ")?;
            push_number(text, *id)
        }
        Line::Delete { ids } => {
            push_piece(text, b"d ")?;
            push_ids(text, ids.slice())?;
            push_piece(text, b"0")
        }
    }
}
