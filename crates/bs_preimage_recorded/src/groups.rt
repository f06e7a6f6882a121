//! Groups of a state's bits. A state is told by the hash of their parities, which all lanes give at once.
ghost use Rattle.std.specs.Prelude.{◌≡◌, ◌<◌, ◌≤◌, ◌+◌, ◌*◌, true, false, length, slice_get, slice_index_or, All, IfOk, Some};
ghost use Rattle.bs_lanes.specs.Planes.{lane as lane_in};
ghost use Rattle.bs_scan.specs.Signature.{parity_of};
ghost use Rattle.bs_chip.specs.Parities.{HaveParities, IsParityWord};
ghost use Rattle.bs_chip.specs.Hashes.{hash_of, ListsEach};
ghost use Rattle.bs_preimage_recorded.specs.Groups.{parities_of, IsPicked};

use bs_bits::{Bits, List, NoMemory};
use bs_chip::{hash_more, lane_hashes, zero_planes};
use std::alloc::Global;

/// How many groups there are.
/// As many as five bits number: `belongs` takes the first five of a product.
const GROUPS: u64 = 32;

/// By what a place is multiplied, so that its groups look chosen at random.
/// It is 2^64 divided by the golden ratio, as for multiplicative hashing.
const GROUP_FACTOR: u64 = 11_400_714_819_323_198_485;

/// Whether a place belongs to a group. It belongs to two at most.
fn belongs(place: u32, group: u64) -> bool {
    let mixed = u64::from(place).wrapping_mul(GROUP_FACTOR);
    (mixed >> 59) == group || (mixed >> 40) % GROUPS == group
}

/// Whether a place is flagged and belongs to a group.
fn picks(flags: &Bits, place: u32, group: u64) -> bool
    requires { place < length flags.now }
    ensures { IsPicked flags.now place result }
{
    if flags.get(place as usize) {
        belongs(place, group)
    } else {
        false
    }
}

/// The flagged places of a group.
fn group_of(alloc: Global, flags: &Bits, group: u64) -> Result<List<u32>, NoMemory>
    ensures { IfOk result (All (λ place. slice_index_or flags.now place false ≡ true)) }
{
    let mut places = List::new(alloc);
    'places: for place in 0..flags.len().min(u32::MAX as usize) as u32 {
        if picks(flags, place, group) {
            places.push(place)?;
        }
    }
    Ok(places)
}

/// The groups of the flagged places.
pub fn groups_of(alloc: Global, flags: &Bits) -> Result<List<List<u32>>, NoMemory>
    ensures { IfOk result (All (λ group. All (λ place. slice_index_or flags.now place false ≡ true) group)) }
{
    let mut groups = List::new(alloc);
    'groups: for group in 0..GROUPS {
        groups.push(group_of(alloc, flags, group)?)?;
    }
    Ok(groups)
}

/// A group of places below a count.
fn group_at(groups: &List<List<u32>>, i: usize, count: usize) -> &List<u32>
    requires there { i < length groups.now }
    requires range { All (λ group. All (λ place. place < count) group) groups.now }
    ensures lookup { slice_get groups.now i ≡ Some result.now }
    ensures range { All (λ place. place < count) result.now }
{
    let _count = count;
    groups.get(i)
}

/// The parity of a group's bits.
fn parity(group: &[u32], bits: &Bits) -> bool
    requires { All (λ place. place < length bits.now) group.now }
    ensures { result ≡ parity_of bits.now group.now }
{
    let ones = group.iter().filter(|place| bits.get(**place as usize));
    ones.count() % 2 == 1
}

/// The hash of the groups' parities of a list of bits.
pub fn parity_hash(groups: &List<List<u32>>, bits: &Bits) -> u64
    requires { All (λ group. All (λ place. place < length bits.now) group) groups.now }
    ensures { result ≡ hash_of (parities_of groups.now bits.now) }
{
    let mut hash = 0;
    'groups: for i in 0..groups.len() {
        let group = group_at(groups, i, bits.len());
        hash = hash_more(hash, parity(group.slice(), bits));
    }
    hash
}

/// Of 64 lanes, those in which an odd number of a group's places is 1.
fn group_word(group: &[u32], planes: &[u64], wide: usize, word: usize) -> u64
    requires word { word < wide }
    requires there { All (λ place. place * wide + wide ≤ length planes.now) group.now }
    ensures { IsParityWord group.now planes.now wide word result }
{
    let mut parity = 0;
    'places: for &place in group {
        parity = parity ^ planes[place as usize * wide + word];
    }
    parity
}

/// Writes a plane for each group: the parity of its places' planes, of which there are so many.
fn put_parities(
    groups: &List<List<u32>>,
    planes: &[u64],
    count: usize,
    wide: usize,
    parities: &mut Vec<u64>,
)
    requires some { 1 ≤ wide }
    requires range { All (λ group. All (λ place. place < count) group) groups.now }
    requires planes { length planes.now ≡ count * wide }
    requires size { length parities.old.items ≡ length groups.now * wide }
    ensures size { length parities.new.items ≡ length parities.old.items }
    ensures parities { HaveParities groups.now planes.now wide (length parities.old.items) parities.new.items }
{
    'words: for at in 0..parities.len() {
        let group = group_at(groups, at / wide, count);
        parities[at] = group_word(group.slice(), planes, wide, at % wide);
    }
}

/// The hashes of the groups' parities of so many lanes of so many planes.
pub fn parity_hashes(
    alloc: Global,
    groups: &List<List<u32>>,
    planes: &[u64],
    count: usize,
    wide: usize,
    lanes: u32,
) -> Result<List<u64>, NoMemory>
    requires some { 1 ≤ wide }
    requires lanes { lanes ≤ 64 * wide }
    requires range { All (λ group. All (λ place. place < count) group) groups.now }
    requires size { length planes.now ≡ count * wide }
    ensures { IfOk result (λ hashes. ListsEach (λ lane. hash_of (parities_of groups.now (lane_in wide count planes.now lane))) hashes lanes) }
{
    let mut parities = zero_planes(alloc, groups.len(), wide)?;
    put_parities(groups, planes, count, wide, &mut parities);
    let hashes = lane_hashes(alloc, parities.as_slice(), wide, groups.len(), lanes)?;
    Ok(hashes)
}
