//! Literals, ids and clauses in a text.
ghost use Rattle.std.specs.Prelude.{◌≡◌, ◌++◌, ◌∷◌, [], OnOk};
ghost use Rattle.std.specs.List.{flat_map};
ghost use Rattle.bs_log.specs.LineText.{id_text, literal_text};
ghost use Rattle.bs_log.specs.Clauses.{clause_text};

use bs_bits::{NoMemory, push_line, push_number, push_piece};
use bs_clause::Lit;

/// Appends a literal and a space.
pub fn push_literal(text: &mut Vec<u8>, literal: Lit) -> Result<(), NoMemory>
    ensures { OnOk result (text.new.items ≡ text.old.items ++ literal_text literal) }
{
    if !literal.positive() {
        push_piece(text, b"-")?;
    }
    push_number(text, u64::from(literal.var().0))?;
    push_piece(text, b" ")
}

/// Appends an id and a space.
pub fn push_id(text: &mut Vec<u8>, id: u64) -> Result<(), NoMemory>
    ensures { OnOk result (text.new.items ≡ text.old.items ++ id_text id) }
{
    push_number(text, id)?;
    push_piece(text, b" ")
}

/// Appends literals, each with a space.
pub fn push_literals(text: &mut Vec<u8>, literals: &[Lit]) -> Result<(), NoMemory>
    ensures { OnOk result (text.new.items ≡ text.old.items ++ flat_map literal_text literals.now) }
{
    'literals: for literal in literals {
        push_literal(text, *literal)?;
    }
    Ok(())
}

/// Appends a clause.
pub fn push_clause(text: &mut Vec<u8>, clause: &[Lit]) -> Result<(), NoMemory>
    ensures { OnOk result (text.new.items ≡ text.old.items ++ clause_text clause.now) }
{
    push_literals(text, clause)?;
    push_line(text, b"0")
}

/// Appends a literal as a clause of its own.
pub fn push_unit(text: &mut Vec<u8>, literal: Lit) -> Result<(), NoMemory>
    ensures { OnOk result (text.new.items ≡ text.old.items ++ clause_text (literal ∷ [])) }
{
    push_literal(text, literal)?;
    push_line(text, b"0")
}
