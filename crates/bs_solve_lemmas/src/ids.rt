//! Ids in ascending order.
ghost use Rattle.std.specs.Prelude.{◌≡◌, ◌<◌, ◌≤◌, ◌∷◌, ◌++◌, [], length, take, filter, not, false, All, IfOk, vec_len, vec_capacity, slice_set};
ghost use Rattle.std.specs.List.{list_any};
ghost use Rattle.bs_solve_lemmas.specs.Ids.{Rises, is_among};

use bs_bits::List;
use bs_clause::NoMemory;
use std::alloc::Global;

/// The ids, copied.
pub fn copied(alloc: Global, ids: &[u64]) -> Result<List<u64>, NoMemory>
    ensures { IfOk result (λ list. list ≡ ids.now) }
{
    let mut list = List::new(alloc);
    for id in ids {
        if list.push(*id).is_err() {
            return Err(NoMemory);
        }
    }
    Ok(list)
}

/// One more id where there is room.
pub fn push_id(ids: &mut Vec<u64>, id: u64)
    requires { vec_len ids.old < vec_capacity ids.old }
    ensures { ids.new.items ≡ ids.old.items ++ id ∷ [] }
{
    let _ = ids.push(id);
}

// Another id in a place.
fn put_id(ids: &mut Vec<u64>, at: usize, id: u64)
    requires { at < length ids.old.items }
    ensures { ids.new.items ≡ slice_set ids.old.items at id }
{
    ids[at] = id;
}

// Whether the id is one of those that go, the first of which are less than it. It goes on to the first that is not less.
fn is_leaving(gone: &[u64], id: u64, next: &mut usize) -> bool
    requires rises { Rises gone.now }
    requires low { next.old ≤ length gone.now }
    requires less { All (λ d. d < id) (take next.old gone.now) }
    ensures result { result ≡ is_among gone.now id }
    ensures low { next.new ≤ length gone.now }
    ensures less { All (λ d. d < id) (take next.new gone.now) }
{
    while *next < gone.len() && gone[*next] < id {
        *next += 1;
    }
    *next < gone.len() && gone[*next] == id
}

// The place behind the ids that are less than one.
fn place_of_least(ids: &[u64], least: u64) -> usize
    requires { Rises ids.now }
    ensures low { result ≤ length ids.now }
    ensures less { All (λ d. d < least) (take result ids.now) }
{
    let mut from = ids.len();
    while from > 0 && ids[from - 1] >= least {
        from -= 1;
    }
    from
}

// Takes ids out, of which none stands before a place.
fn take_out_from(ids: &mut Vec<u64>, gone: &[u64], from: usize)
    requires ids { Rises ids.old.items }
    requires gone { Rises gone.now }
    requires low { from ≤ length ids.old.items }
    requires stay { All (λ id. is_among gone.now id ≡ false) (take from ids.old.items) }
    ensures { ids.new.items ≡ filter (λ id. not (is_among gone.now id)) ids.old.items }
{
    let mut kept = from;
    let mut next = 0;
    'ids: for place in from..ids.len() {
        let id = ids[place];
        if !is_leaving(gone, id, &mut next) {
            put_id(ids, kept, id);
            kept += 1;
        }
    }
    ids.truncate(kept);
}

/// Takes ids out. Those before the first that goes are not looked at.
pub fn take_out(ids: &mut Vec<u64>, gone: &[u64])
    requires ids { Rises ids.old.items }
    requires gone { Rises gone.now }
    ensures { ids.new.items ≡ filter (λ id. not (is_among gone.now id)) ids.old.items }
{
    let from = if gone.len() == 0 {
        ids.len()
    } else {
        place_of_least(ids.as_slice(), gone[0])
    };
    take_out_from(ids, gone, from);
}
