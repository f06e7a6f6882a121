//! A ring of the modules of a text, or their order.
ghost use Rattle.std.specs.Prelude.{◌≡◌, ◌<◌, ◌^◌, length, All, IfOk};
ghost use Rattle.bs_flat_meaning.specs.Rings as rings;
ghost use Rattle.bs_flat_meaning.specs.Hierarchy as spec;

use crate::children_first::{Levels, module_levels};
use crate::marks::tops;
use crate::numbers::module_numbers;
use crate::statements::Written;
use bs_bits::{List, NoMemory};
use std::alloc::Global;

/// The modules that each instances, by their numbers; all modules, each after those that it instances; and the modules that none
/// instances, in file order.
#[derive(Drop)]
pub struct Ranked {
    pub below: List<List<u32>>,
    pub order: List<u32>,
    pub tops: List<u32>,
}

/// What the modules of a text are to each other, each by its number in file order.
#[derive(Drop)]
pub enum Hierarchy {
    /// Distinct modules, the earliest first, each of which instances the next, and the last one the first.
    Ringed(List<u32>),
    /// There is no ring.
    Ranked(Ranked),
}

/// An order of modules with those that none instances. `below` has the modules that each instances.
fn with_tops(alloc: Global, below: List<List<u32>>, order: List<u32>) -> Result<Ranked, NoMemory>
    requires few { length below < 2 ^ 32 }
    requires there { All (λ ns. All (λ n. n < length below) ns) below }
    ensures { IfOk result (λ r. (r.below ≡ below) × (r.order ≡ order) × (r.tops ≡ rings.tops below)) }
{
    let tops = tops(alloc, below.slice())?;
    Ok(Ranked { below, order, tops })
}

/// Whether modules instance each other in a ring, and else their order: `ids` has the number of each module's name, and
/// `written` the instances that each writes.
pub fn rank_modules(
    alloc: Global,
    ids: &[Option<u32>],
    written: &[List<Written>],
) -> Result<Hierarchy, NoMemory>
    requires few { length ids.now < 2 ^ 32 }
    requires each { length written.now ≡ length ids.now }
    ensures { IfOk result (λ h. spec.IsHierarchy ids.now written.now h) }
{
    let below = module_numbers(alloc, ids, written)?;
    match module_levels(alloc, below.slice())? {
        Levels::Ringed(ring) => Ok(Hierarchy::Ringed(ring)),
        Levels::Ordered(order) => {
            let ranked = with_tops(alloc, below, order)?;
            Ok(Hierarchy::Ranked(ranked))
        }
    }
}
