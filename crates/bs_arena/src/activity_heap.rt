//! A binary heap of variables, the most active one first, and where each of them stands in it.
ghost use Rattle.std.specs.Prelude.{◌≡◌, ◌+◌, ◌-◌, ◌*◌, ◌<◌, ◌≤◌, ◌^◌, [], ◌∷◌, ◌++◌, length, take, true, false, slice_set, slice_index_or};
ghost use Rattle.std.specs.Prelude.{vec_len, vec_capacity, Some, None, IfSome, IfNone};
ghost use Rattle.bs_arena.specs.Open.{HoldsOpen, AreAllAssigned, is_assigned};
ghost use Rattle.bs_arena.specs.Heap.{IsIndexed, IsRearranged, IsSorted, IsSortedBut, IsSortedAbove, IsSortedButOf, place_of, at_place, members};
ghost use Rattle.bs_arena.specs.Heap.{IsChild, IsRising, IsChildAbove, IsBestChild, HasLostFirst, IsMostActive};

use crate::value::has_value;

// Exchanges what stands in two places.
fn exchange(heap: &mut [u32], positions: &mut [Option<u32>], i: usize, j: usize)
    requires fits { IsIndexed heap.old positions.old }
    requires small { length heap.old ≤ 2 ^ 30 }
    requires first { i < length heap.old }
    requires second { j < length heap.old }
    ensures fits { IsRearranged heap.old heap.new positions.old positions.new }
    ensures moved { heap.new ≡ slice_set (slice_set heap.old i (at_place heap.old j)) j (at_place heap.old i) }
{
    let first = heap[i];
    let second = heap[j];
    heap[i] = second;
    heap[j] = first;
    positions[first as usize] = Some(j as u32);
    positions[second as usize] = Some(i as u32);
}

// Whether the first variable is decided before the second one: it is more active, or as active and lower.
fn is_above(activities: &[u64], first: u32, second: u32) -> bool
    requires first { first < length activities.now }
    requires second { second < length activities.now }
    ensures yes { result ≡ true → slice_index_or activities.now second 0 ≤ slice_index_or activities.now first 0 }
    ensures no { result ≡ false → slice_index_or activities.now first 0 ≤ slice_index_or activities.now second 0 }
{
    let one = activities[first as usize];
    let other = activities[second as usize];
    one > other || (one == other && first < second)
}

// Whether what stands in the place is above its parent.
fn rises(heap: &[u32], positions: &[Option<u32>], activities: &[u64], at: usize) -> bool
    requires fits { IsIndexed heap.now positions.now }
    requires within { at < length heap.now }
    requires scored { length activities.now ≡ length positions.now }
    ensures some { result ≡ true → 0 < at }
    ensures rises { IsRising heap.now activities.now at result }
{
    if at == 0 {
        return false;
    }
    is_above(activities, heap[at], heap[(at - 1) / 2])
}

/// Moves what stands in a place up, to below one that is above it.
pub fn sift_up(heap: &mut [u32], positions: &mut [Option<u32>], activities: &[u64], start: usize)
    requires fits { IsIndexed heap.old positions.old }
    requires small { length heap.old ≤ 2 ^ 30 }
    requires within { start < length heap.old }
    requires sorted { IsSortedBut heap.old activities.now start }
    requires scored { length activities.now ≡ length positions.old }
    ensures fits { IsRearranged heap.old heap.new positions.old positions.new }
    ensures sorted { IsSorted heap.new activities.now }
{
    let mut at = start;
    'places: while rises(heap, positions, activities, at) {
        let parent = (at - 1) / 2;
        exchange(heap, positions, at, parent);
        at = parent;
    }
}

// The one of a place's two children that is above the other.
fn higher_child(heap: &[u32], positions: &[Option<u32>], activities: &[u64], at: usize) -> usize
    requires fits { IsIndexed heap.now positions.now }
    requires small { length heap.now ≤ 2 ^ 30 }
    requires within { at + at + 1 < length heap.now }
    requires scored { length activities.now ≡ length positions.now }
    ensures child { IsChild at result }
    ensures best { IsBestChild heap.now activities.now at result }
    ensures high { result < length heap.now }
{
    let left = at + at + 1;
    let right = left + 1;
    if right < heap.len() && is_above(activities, heap[right], heap[left]) {
        right
    } else {
        left
    }
}

// The child that is above what stands in the place.
fn child_above(
    heap: &[u32],
    positions: &[Option<u32>],
    activities: &[u64],
    at: usize,
) -> Option<usize>
    requires fits { IsIndexed heap.now positions.now }
    requires small { length heap.now ≤ 2 ^ 30 }
    requires within { at ≤ length heap.now }
    requires scored { length activities.now ≡ length positions.now }
    ensures { IsChildAbove heap.now activities.now at result }
{
    if at + at + 1 >= heap.len() {
        return None;
    }
    let child = higher_child(heap, positions, activities, at);
    if is_above(activities, heap[child], heap[at]) {
        Some(child)
    } else {
        None
    }
}

/// Moves what stands first down, to above those that are below it.
pub fn sift_down(heap: &mut [u32], positions: &mut [Option<u32>], activities: &[u64])
    requires fits { IsIndexed heap.old positions.old }
    requires small { length heap.old ≤ 2 ^ 30 }
    requires sorted { IsSortedAbove heap.old activities.now 0 }
    requires scored { length activities.now ≡ length positions.old }
    ensures fits { IsRearranged heap.old heap.new positions.old positions.new }
    ensures sorted { IsSorted heap.new activities.now }
{
    let mut at = 0;
    'places: while let Some(child) = child_above(heap, positions, activities, at) {
        exchange(heap, positions, at, child);
        at = child;
    }
}

// One more element where there is room.
fn push_last(heap: &mut Vec<u32>, variable: u32)
    requires { vec_len heap.old < vec_capacity heap.old }
    ensures items { heap.new.items ≡ heap.old.items ++ variable ∷ [] }
    ensures capacity { vec_capacity heap.old ≤ vec_capacity heap.new }
{
    let _ = heap.push(variable);
}

/// A variable comes last. It takes no memory.
pub fn add_last(heap: &mut Vec<u32>, positions: &mut Vec<Option<u32>>, variable: u32)
    requires fits { IsIndexed heap.old.items positions.old.items }
    requires small { length positions.old.items ≤ 2 ^ 30 }
    requires within { variable < length positions.old.items }
    requires is_out { place_of positions.old.items variable ≡ None }
    requires room { vec_len heap.old < vec_capacity heap.old }
    ensures items { heap.new.items ≡ heap.old.items ++ variable ∷ [] }
    ensures fits { IsIndexed heap.new.items positions.new.items }
    ensures more { members positions.new.items ≡ slice_set (members positions.old.items) variable true }
    ensures width { length positions.new.items ≡ length positions.old.items }
    ensures long { length heap.new.items ≡ length heap.old.items + 1 }
    ensures capacity { vec_capacity heap.old ≤ vec_capacity heap.new }
{
    let last = heap.len() as u32;
    positions[variable as usize] = Some(last);
    push_last(heap, variable);
}

// The last variable leaves.
fn drop_last(heap: &mut Vec<u32>, positions: &mut [Option<u32>]) -> u32
    requires fits { IsIndexed heap.old.items positions.old }
    requires some { 0 < length heap.old.items }
    ensures front { heap.new.items ≡ take (length heap.old.items - 1) heap.old.items }
    ensures fits { IsIndexed heap.new.items positions.new }
    ensures last { result ≡ at_place heap.old.items (length heap.new.items) }
    ensures within { result < length positions.old }
    ensures was_in { place_of positions.old result ≡ Some (length heap.new.items) }
    ensures fewer { members positions.new ≡ slice_set (members positions.old) result false }
    ensures long { length heap.new.items + 1 ≡ length heap.old.items }
    ensures capacity { vec_capacity heap.old ≤ vec_capacity heap.new }
{
    let last = heap.len() - 1;
    let variable = heap[last];
    heap.truncate(last);
    positions[variable as usize] = None;
    variable
}

/// The first variable leaves, and the last one takes its place.
pub fn drop_first(heap: &mut Vec<u32>, positions: &mut [Option<u32>]) -> u32
    requires fits { IsIndexed heap.old.items positions.old }
    requires small { length heap.old.items ≤ 2 ^ 30 }
    requires some { 0 < length heap.old.items }
    ensures lost { HasLostFirst heap.old.items heap.new.items }
    ensures fits { IsIndexed heap.new.items positions.new }
    ensures first { result ≡ at_place heap.old.items 0 }
    ensures within { result < length positions.old }
    ensures was_in { slice_index_or (members positions.old) result false ≡ true }
    ensures fewer { members positions.new ≡ slice_set (members positions.old) result false }
    ensures long { length heap.new.items + 1 ≡ length heap.old.items }
    ensures capacity { vec_capacity heap.old ≤ vec_capacity heap.new }
{
    let last = heap.len() - 1;
    exchange(heap.as_mut_slice(), positions, 0, last);
    drop_last(heap, positions)
}

/// A variable moves up, if it stands anywhere.
pub fn raise(heap: &mut [u32], positions: &mut [Option<u32>], activities: &[u64], variable: u32)
    requires fits { IsIndexed heap.old positions.old }
    requires small { length heap.old ≤ 2 ^ 30 }
    requires within { variable < length positions.old }
    requires sorted { IsSortedButOf heap.old activities.now positions.old variable }
    requires scored { length activities.now ≡ length positions.old }
    ensures fits { IsRearranged heap.old heap.new positions.old positions.new }
    ensures sorted { IsSorted heap.new activities.now }
{
    if let Some(place) = positions[variable as usize] {
        sift_up(heap, positions, activities, place as usize);
    }
}

/// The first variable leaves, and the others are in order again.
pub fn remove_first(heap: &mut Vec<u32>, positions: &mut [Option<u32>], activities: &[u64]) -> u32
    requires fits { IsIndexed heap.old.items positions.old }
    requires small { length heap.old.items ≤ 2 ^ 30 }
    requires some { 0 < length heap.old.items }
    requires sorted { IsSorted heap.old.items activities.now }
    requires scored { length activities.now ≡ length positions.old }
    ensures greatest { IsMostActive positions.old activities.now result }
    ensures sorted { IsSorted heap.new.items activities.now }
    ensures fits { IsIndexed heap.new.items positions.new }
    ensures first { result ≡ at_place heap.old.items 0 }
    ensures within { result < length positions.old }
    ensures was_in { slice_index_or (members positions.old) result false ≡ true }
    ensures fewer { members positions.new ≡ slice_set (members positions.old) result false }
    ensures long { length heap.new.items + 1 ≡ length heap.old.items }
    ensures capacity { vec_capacity heap.old ≤ vec_capacity heap.new }
{
    let first = drop_first(heap, positions);
    sift_down(heap.as_mut_slice(), positions, activities);
    first
}

/// The first variable without a value, which stays. Those before it leave.
pub fn first_without(
    heap: &mut Vec<u32>,
    positions: &mut [Option<u32>],
    activities: &[u64],
    values: &[bool],
) -> Option<u32>
    requires fits { IsIndexed heap.old.items positions.old }
    requires small { length heap.old.items ≤ 2 ^ 30 }
    requires sorted { IsSorted heap.old.items activities.now }
    requires scored { length activities.now ≡ length positions.old }
    requires long { length values.now ≡ 2 * length positions.old }
    requires holds { HoldsOpen (members positions.old) values.now }
    requires low { place_of positions.old 0 ≡ None }
    ensures sorted { IsSorted heap.new.items activities.now }
    ensures fits { IsIndexed heap.new.items positions.new }
    ensures holds { HoldsOpen (members positions.new) values.now }
    ensures low { place_of positions.new 0 ≡ None }
    ensures width { length positions.new ≡ length positions.old }
    ensures capacity { vec_capacity heap.old ≤ vec_capacity heap.new }
    ensures some { IfSome result (λ v. (1 ≤ v) × (v < length positions.old) × (is_assigned values.now v ≡ false)) }
    ensures none { IfNone result (AreAllAssigned (length positions.old) values.now) }
{
    'variables: while heap.len() > 0 {
        let first = heap[0];
        if !has_value(values, first) {
            return Some(first);
        }
        remove_first(heap, positions, activities);
    }
    None
}
