//! The lines of a proof.
ghost use Rattle.std.specs.Prelude.{◌≡◌, ◌++◌, ◌∷◌, [], OnOk};
ghost use Rattle.bs_log.specs.declared.line.Line.TheVariants.{Lemma};
ghost use Rattle.bs_log.specs.Lines.{proof_line, raised, IdFits};

use crate::id_offsets::Frame;
use crate::words::{push_id, push_literals};
use bs_bits::{NoMemory, push_line, push_piece};
use bs_clause::Lit;

/// Where an id goes.
pub fn raised(f: &Frame, id: u64) -> u64
    requires { IdFits f.now id }
    ensures { result ≡ raised f.now id }
{
    if id <= f.front { id } else { id + f.by }
}

/// Appends a lemma that one clause gives.
pub fn push_copy(text: &mut Vec<u8>, id: u64, lits: &[Lit], hint: u64) -> Result<(), NoMemory>
    ensures { OnOk result (text.new.items ≡ text.old.items ++ proof_line 0 (Lemma id lits.now (hint ∷ []))) }
{
    push_id(text, id)?;
    push_literals(text, lits)?;
    push_piece(text, b"0 ")?;
    push_id(text, hint)?;
    push_line(text, b"0")
}
