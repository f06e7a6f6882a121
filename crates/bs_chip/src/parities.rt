//! The signatures of all runs at a cycle, as planes: a plane for each item, the parity of its flip-flops' planes.
ghost use Rattle.std.specs.Prelude.{◌≡◌, ◌<◌, ◌≤◌, ◌+◌, ◌*◌, length, All};
ghost use Rattle.bs_chip.specs.Parities.{HaveParities, IsParityWord};

use bs_scan::Choice;

/// Of 64 lanes, those in which an odd number of an item's flip-flops is 1.
pub fn item_word(item: &[u32], planes: &[u64], wide: usize, word: usize) -> u64
    requires word { word < wide }
    requires there { All (λ flop. flop * wide + wide ≤ length planes.now) item.now }
    ensures { IsParityWord item.now planes.now wide word result }
{
    let mut parity = 0;
    'flops: for &flop in item {
        parity = parity ^ planes[flop as usize * wide + word];
    }
    parity
}

/// Writes a plane for each item: the parity of its flip-flops' planes.
pub fn put_parities(choice: &Choice, planes: &[u64], wide: usize, items: &mut Vec<u64>)
    requires some { 1 ≤ wide }
    requires planes { length planes.now ≡ choice.now.width * wide }
    requires items { length items.old.items ≡ length choice.now.items * wide }
    ensures size { length items.new.items ≡ length items.old.items }
    ensures parities { HaveParities choice.now.items planes.now wide (length items.old.items) items.new.items }
{
    'words: for at in 0..items.len() {
        let item = choice.item(at / wide);
        items[at] = item_word(item.slice(), planes, wide, at % wide);
    }
}
