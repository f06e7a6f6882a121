//! The modules that none instances.
ghost use Rattle.std.specs.Prelude.{◌≡◌, ◌<◌, ◌^◌, ◌++◌, ◌∷◌, [], if◌then◌else◌, length, All, IfOk, OnOk, replicate, false};
ghost use Rattle.bs_flat_meaning.specs.Rings as rings;
ghost use Rattle.bs_flat_meaning.specs.Marks as spec;

use bs_bits::{List, NoMemory};
use std::alloc::Global;

/// No marks.
fn no_marks(alloc: Global, count: usize) -> Result<Vec<bool>, NoMemory>
    ensures { IfOk result (λ v. v.items ≡ replicate count false) }
{
    let marks = vec![in alloc; false; count]?;
    Ok(marks)
}

/// Marks modules.
fn mark(marks: &mut Vec<bool>, modules: &[u32])
    requires { All (λ n. n < length marks.old.items) modules.now }
    ensures { spec.Marks marks.old.items marks.new.items modules.now }
{
    'modules: for &module in modules {
        marks[module as usize] = true;
    }
}

/// Marks each module that one instances.
fn instanced(alloc: Global, below: &[List<u32>]) -> Result<Vec<bool>, NoMemory>
    requires there { All (λ ns. All (λ n. n < length below.now) ns) below.now }
    ensures { IfOk result (λ v. spec.AreInstanced below.now v.items) }
{
    let mut marks = no_marks(alloc, below.len())?;
    'modules: for modules in below {
        mark(&mut marks, modules.slice());
    }
    Ok(marks)
}

/// Adds a number that has no mark.
fn push_unless(all: &mut List<u32>, number: u32, marked: bool) -> Result<(), NoMemory>
    ensures { OnOk result (all.new ≡ all.old ++ (if marked then [] else number ∷ [])) }
{
    if !marked {
        all.push(number)?;
    }
    Ok(())
}

/// The modules without a mark.
#[tactic(auto, using(crate::proofs::MarkLemmas::unmarked_more))]
fn unmarked(alloc: Global, marks: &[bool]) -> Result<List<u32>, NoMemory>
    requires few { length marks.now < 2 ^ 32 }
    ensures { IfOk result (λ ns. ns ≡ spec.unmarked marks.now) }
{
    let mut all = List::new(alloc);
    'modules: for module in 0..marks.len() {
        push_unless(&mut all, module as u32, marks[module])?;
    }
    Ok(all)
}

/// The modules that none instances, in file order. For each module `below` has the modules that it instances.
pub fn tops(alloc: Global, below: &[List<u32>]) -> Result<List<u32>, NoMemory>
    requires few { length below.now < 2 ^ 32 }
    requires there { All (λ ns. All (λ n. n < length below.now) ns) below.now }
    ensures { IfOk result (λ ns. ns ≡ rings.tops below.now) }
{
    let marks = instanced(alloc, below)?;
    let all = unmarked(alloc, marks.as_slice())?;
    Ok(all)
}
