//! A counter for each of 64 lanes. Word j has binary digit j of all counters, so that a bit of each lane is added at once.
ghost use Rattle.std.specs.Prelude.{◌≡◌, ◌<◌, ◌≤◌, length};
ghost use Rattle.bs_break.specs.Masks.{has};
ghost use Rattle.bs_net.specs.declared.limits.TheConstants.{MAX_FLOPS};
ghost use Rattle.bs_inspect_near.specs.Counters.{Adds, AddsFour, CarriesOn, IsFull, IsOther, lane_count, one_if};

/// Adds a bit to each counter.
#[tactic(auto, using(crate::proofs::CounterLemmas::add_begin, crate::proofs::CounterLemmas::add_more, crate::proofs::CounterLemmas::add_early, crate::proofs::CounterLemmas::add_all))]
pub(crate) fn add(digits: &mut Vec<u64>, word: u64)
    ensures { Adds digits.old.items word digits.new.items }
{
    let mut carry = word;
    'digits: for j in 0..digits.len() {
        if carry == 0 {
            return;
        }
        let old = digits[j];
        digits[j] = old ^ carry;
        carry = old & carry;
    }
}

/// The two digits that the bits of three words make in each lane.
#[tactic(auto, using(crate::proofs::CounterLemmas::full_is))]
fn full(a: u64, b: u64, c: u64) -> (u64, u64)
    ensures { IsFull a b c result.0 result.1 }
{
    let half = a ^ b;
    (half ^ c, (a & b) | (half & c))
}

/// Adds a bit to the third digit of each counter.
#[tactic(auto, using(crate::proofs::CounterLemmas::carry_begin))]
fn carry_on(digits: &mut Vec<u64>, word: u64)
    requires { 2 ≤ length digits.old.items }
    ensures { CarriesOn digits.old.items word digits.new.items }
{
    let mut carry = word;
    'digits: for j in 2..digits.len() {
        if carry == 0 {
            return;
        }
        let old = digits[j];
        digits[j] = old ^ carry;
        carry = old & carry;
    }
}

/// Adds a bit of each of four words to each counter: only what goes beyond the second digit is carried on digit by digit.
pub(crate) fn add_four(digits: &mut Vec<u64>, a: u64, b: u64, c: u64, d: u64)
    requires { 2 ≤ length digits.old.items }
    ensures { AddsFour digits.old.items a b c d digits.new.items }
{
    let first = digits[0];
    let (half, one) = full(first, a, b);
    let (low, two) = full(half, c, d);
    digits[0] = low;
    let second = digits[1];
    let (next, over) = full(second, one, two);
    digits[1] = next;
    carry_on(digits, over);
}

/// The lanes of a word that show another bit.
pub(crate) fn others(word: u64, bit: bool) -> u64
    ensures { IsOther word bit result }
{
    if bit { !word } else { word }
}

/// Whether a word has a lane.
fn has_lane(word: u64, lane: u32) -> bool
    requires { lane < 64 }
    ensures { result ≡ has word lane }
{
    (word >> lane) & 1 == 1
}

/// 1 where it is so, and else 0.
pub(crate) fn one_if(is: bool) -> u32
    ensures is { result ≡ one_if is }
    ensures small { result ≤ 1 }
{
    if is { 1 } else { 0 }
}

/// The number that a lane's counter has.
#[tactic(auto, using(crate::proofs::CounterLemmas::read_begin, crate::proofs::CounterLemmas::read_more, crate::proofs::CounterLemmas::read_all, crate::proofs::CounterLemmas::read_small))]
pub(crate) fn lane_count(digits: &[u64], lane: u32) -> u32
    requires lane { lane < 64 }
    requires few { lane_count digits.now lane ≤ MAX_FLOPS }
    ensures { result ≡ lane_count digits.now lane }
{
    let count = digits.len();
    let mut number = 0;
    'digits: for k in 0..count {
        let digit = has_lane(digits[count - 1 - k], lane);
        number = 2 * number + one_if(digit);
    }
    number
}
