//! Sets of literals by their codes: a mark for each usual one, and a search tree for the others.
ghost use Rattle.std.specs.Prelude.{◌≡◌, ◌<◌, false, ℕ, IfOk, OnOk, OnErr, replicate};
ghost use Rattle.bs_rup.specs.LiteralSet.{is_marked, Adds, IsSameSet, Unmarks, UnmarksAll};

use bs_bits::NoMemory;
use bs_clause::Lit;
use std::alloc::Global;
use std::collections::BTreeSet;

/// A set of literal codes.
#[derive(Drop)]
pub struct LiteralSet {
    pub usual: Vec<bool>,
    pub others: BTreeSet<u32, Global>,
}

/// As many marks, none set.
fn no_marks(alloc: Global, count: usize) -> Result<Vec<bool>, NoMemory>
    ensures { IfOk result (λ v. v.items ≡ replicate count false) }
{
    Ok(vec![in alloc; false; count]?)
}

impl LiteralSet {
    /// The empty set, with room for marks of the codes below this count.
    pub fn new(alloc: Global, count: usize) -> Result<LiteralSet, NoMemory>
        ensures { IfOk result (λ marks. (code : ℕ) → is_marked marks code ≡ false) }
    {
        Ok(LiteralSet {
            usual: no_marks(alloc, count)?,
            others: BTreeSet::new(alloc),
        })
    }

    /// Whether the code is in the set.
    pub fn has(&self, code: u32) -> bool
        ensures { result ≡ is_marked self.now code }
    {
        let place = code as usize;
        if place < self.usual.len() {
            self.usual[place]
        } else {
            self.others.contains(&code)
        }
    }

    /// Adds a code.
    pub fn add(&mut self, code: u32) -> Result<(), NoMemory>
        ensures ok { OnOk result (Adds self.old self.new code) }
        ensures err { OnErr result (IsSameSet self.old self.new) }
    {
        let place = code as usize;
        if place < self.usual.len() {
            self.usual[place] = true;
        } else {
            self.others.insert(code)?;
        }
        Ok(())
    }

    /// Takes a code away.
    fn unmark(&mut self, code: u32)
        ensures { Unmarks self.old self.new code }
    {
        let place = code as usize;
        if place < self.usual.len() {
            self.usual[place] = false;
        } else {
            self.others.remove(&code);
        }
    }

    /// Takes the codes of these literals away.
    pub fn unmark_all(&mut self, literals: &[Lit])
        ensures { UnmarksAll self.old self.new literals.now }
    {
        'literals: for literal in literals {
            self.unmark(literal.code());
        }
    }
}
