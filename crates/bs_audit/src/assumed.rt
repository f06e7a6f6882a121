//! What a step assumes, for look-ups.
ghost use Rattle.std.specs.Prelude.{◌≡◌, length, IfOk};
ghost use Rattle.bs_clause.specs.Literal.{has_literal};
ghost use Rattle.bs_log.specs.Refusal.{denies};
ghost use Rattle.bs_audit.specs.Codes.{HasCodes};

use bs_bits::NoMemory;
use bs_clause::Lit;
use std::alloc::{AllocError, Global};
use std::collections::HashSet;
use std::marker::Model;

/// Literals, and a set of their codes. Contracts see the literals.
#[derive(Drop)]
pub struct Assumed<'a> {
    literals: &'a [Lit],
    codes: HashSet<u32>,
}

impl<'a> Model for Assumed<'a> {
    ghost use Rattle.std.specs.Prelude.{List, length};
    ghost use Rattle.bs_clause.specs.Literal.{Literal};
    ghost use Rattle.bs_audit.specs.Codes.{HasCodes};

    ghost Value = { List Literal };

    ghost view = { λ assumed. assumed.literals.now };

    ghost invariant = { λ assumed. HasCodes assumed.codes assumed.literals.now (length assumed.literals.now) };
}

/// The codes of literals.
fn codes_of(alloc: Global, literals: &[Lit]) -> Result<HashSet<u32>, NoMemory>
    ensures { IfOk result (λ codes. HasCodes codes literals.now (length literals.now)) }
{
    let mut codes = HashSet::new(alloc);
    'literals: for i in 0..literals.len() {
        codes.insert(literals[i].code()).map_err(AllocError::from)?;
    }
    Ok(codes)
}

impl<'a> Assumed<'a> {
    /// The literals, ready for look-ups.
    pub fn new(alloc: Global, literals: &'a [Lit]) -> Result<Assumed<'a>, NoMemory>
        ensures { IfOk result (λ assumed. assumed ≡ literals.now) }
    {
        let codes = codes_of(alloc, literals)?;
        Ok(Assumed { literals, codes })
    }

    /// Whether a literal is assumed.
    fn has(&self, literal: Lit) -> bool
        ensures { result ≡ has_literal self.now literal }
    {
        self.codes.contains(&literal.code())
    }

    /// Whether a lemma holds only negations of what is assumed.
    pub fn denies(&self, lemma: &[Lit]) -> bool
        ensures { result ≡ denies self.now lemma.now }
    {
        lemma.iter().all(|literal| self.has(literal.negate()))
    }
}
