//! Watchers of killed clauses leave the lists.
ghost use Rattle.std.specs.Prelude.{◌≡◌, ◌<◌, length, All};
ghost use Rattle.bs_clause.specs.Literal.{code_of};
ghost use Rattle.bs_watch.specs.Sweep.{ArePlaced, Thins, AllLive, AreLiveIn};

use crate::lists::WatchLists;
use bs_arena::Arena;
use bs_clause::Lit;

// Takes the watchers of killed clauses out of a literal's list.
fn sweep_list(lists: &mut WatchLists, arena: &Arena, l: Lit)
    requires code { code_of l < length lists.old }
    requires placed { ArePlaced lists.old arena.now.places }
    ensures thins { Thins arena.now.clauses lists.old lists.new }
    ensures live { AllLive arena.now.clauses lists.new l }
{
    let mut at = 0;
    'watchers: while at < lists.len(l) {
        if arena.is_live(lists.get(l, at).clause) {
            at += 1;
        } else {
            lists.remove(l, at);
        }
    }
}

/// Takes the watchers of killed clauses out of the lists of these literals, list by list.
pub fn sweep_lists(lists: &mut WatchLists, arena: &Arena, literals: &[Lit])
    requires codes { All (λ l. code_of l < length lists.old) literals.now }
    requires placed { ArePlaced lists.old arena.now.places }
    ensures thins { Thins arena.now.clauses lists.old lists.new }
    ensures live { AreLiveIn arena.now.clauses lists.new literals.now (length literals.now) }
{
    'literals: for at in 0..literals.len() {
        sweep_list(lists, arena, literals[at]);
    }
}
