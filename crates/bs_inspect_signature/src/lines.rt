//! The lines on lists.
ghost use Rattle.std.specs.Prelude.{◌≡◌, ◌≤◌, ◌*◌, ◌^◌, ◌++◌, length, OnOk};
ghost use Rattle.std.specs.List.{flat_map, sum_by};
ghost use Rattle.bs_inspect_signature.specs.Lines.{count_words, counts_words, decimals, enough_line, list_line, lists_line, lists_text, mean_of, none_at_words};
ghost use Rattle.bs_inspect_signature.specs.MomentCount.{count_cut, number_of};
ghost use Rattle.bs_inspect_signature.specs.declared.enough.EnoughItems.TheVariants.{NoneAt, Number};
ghost use Rattle.bs_inspect_signature.specs.declared.spread.TheConstants.{MAX_MOMENTS};

use crate::counting::{PredecessorCount, is_cut, number_of};
use crate::enough::EnoughItems;
use crate::lists::MomentCount;
use bs_bits::{NoMemory, end_line, push_line, push_number, push_piece};
use bs_scan::Moment;

/// Appends what a list counts.
fn push_count(text: &mut Vec<u8>, count: PredecessorCount) -> Result<(), NoMemory>
    ensures { OnOk result (text.new.items ≡ text.old.items ++ count_words count) }
{
    match count {
        PredecessorCount::Whole(number) => push_number(text, number as u64),
        PredecessorCount::More => push_piece(text, b"more"),
        PredecessorCount::Spent(_) => push_piece(text, b"spent"),
    }
}

/// Appends a moment with its list.
fn push_list(text: &mut Vec<u8>, entry: MomentCount) -> Result<(), NoMemory>
    ensures { OnOk result (text.new.items ≡ text.old.items ++ list_line entry) }
{
    push_piece(text, b"list ")?;
    push_number(text, entry.moment.run as u64)?;
    push_piece(text, b" ")?;
    push_number(text, entry.moment.cycle as u64)?;
    push_piece(text, b" ")?;
    push_count(text, entry.count)?;
    end_line(text)
}

/// The sum of what lists count.
#[tactic(auto, using(crate::proofs::LineLemmas::sum_more))]
fn sum_of(all: &[MomentCount]) -> u64
    requires { length all.now ≤ MAX_MOMENTS }
    ensures sum { result ≡ sum_by (λ entry. number_of entry.count) all.now }
    ensures small { result ≤ length all.now * 2 ^ 32 }
{
    let mut sum = 0u64;
    'lists: for i in 0..all.len() {
        sum += u64::from(number_of(all[i].count));
    }
    sum
}

/// How many lists were cut.
pub(crate) fn count_cut(all: &[MomentCount]) -> usize
    ensures { result ≡ count_cut all.now }
{
    all.iter().filter(|entry| is_cut(entry.count)).count()
}

/// The hundredth parts of the mean.
fn mean_of(all: &[MomentCount]) -> u64
    requires { length all.now ≤ MAX_MOMENTS }
    ensures { result ≡ mean_of all.now }
{
    if all.is_empty() {
        0
    } else {
        sum_of(all) * 100 / (all.len() as u64)
    }
}

/// Appends a number of hundredth parts, with two decimals.
fn push_decimals(text: &mut Vec<u8>, number: u64) -> Result<(), NoMemory>
    ensures { OnOk result (text.new.items ≡ text.old.items ++ decimals number) }
{
    push_number(text, number / 100)?;
    push_piece(text, b".")?;
    text.push(48 + (number % 100 / 10) as u8)?;
    text.push(48 + (number % 10) as u8)?;
    Ok(())
}

/// Appends how many bits the signature has, and how many lists there are.
fn push_counts(text: &mut Vec<u8>, bits: usize, count: usize) -> Result<(), NoMemory>
    ensures { OnOk result (text.new.items ≡ text.old.items ++ counts_words bits count) }
{
    push_piece(text, b"lists ")?;
    push_number(text, bits as u64)?;
    push_piece(text, b" ")?;
    push_number(text, count as u64)?;
    push_piece(text, b" ")
}

/// Appends how many bits the signature has, how many lists there are, their mean, and how many were cut.
fn push_lists(text: &mut Vec<u8>, bits: usize, lists: &[MomentCount]) -> Result<(), NoMemory>
    requires { length lists.now ≤ MAX_MOMENTS }
    ensures { OnOk result (text.new.items ≡ text.old.items ++ lists_line bits lists.now) }
{
    push_counts(text, bits, lists.len())?;
    push_decimals(text, mean_of(lists))?;
    push_piece(text, b" ")?;
    push_number(text, count_cut(lists) as u64)?;
    end_line(text)
}

/// Appends each moment with its list.
#[tactic(auto, using(crate::proofs::LineLemmas::list_more))]
fn push_each(text: &mut Vec<u8>, all: &[MomentCount]) -> Result<(), NoMemory>
    ensures { OnOk result (text.new.items ≡ text.old.items ++ flat_map list_line all.now) }
{
    'lists: for i in 0..all.len() {
        push_list(text, all[i])?;
    }
    Ok(())
}

/// Appends how many lists there are, their mean, how many were cut, and each.
pub(crate) fn push_text(
    text: &mut Vec<u8>,
    bits: usize,
    lists: &[MomentCount],
) -> Result<(), NoMemory>
    requires { length lists.now ≤ MAX_MOMENTS }
    ensures { OnOk result (text.new.items ≡ text.old.items ++ lists_text bits lists.now) }
{
    push_lists(text, bits, lists)?;
    push_each(text, lists)
}

/// Appends a number of items that is enough.
fn push_number_line(text: &mut Vec<u8>, count: usize) -> Result<(), NoMemory>
    ensures { OnOk result (text.new.items ≡ text.old.items ++ enough_line (Number count)) }
{
    push_piece(text, b"enough ")?;
    push_number(text, count as u64)?;
    end_line(text)
}

/// Appends a number of items and a moment.
fn push_none_at(text: &mut Vec<u8>, count: usize, at: Moment) -> Result<(), NoMemory>
    ensures { OnOk result (text.new.items ≡ text.old.items ++ none_at_words count at) }
{
    push_number(text, count as u64)?;
    push_piece(text, b" ")?;
    push_number(text, at.run as u64)?;
    push_piece(text, b" ")?;
    push_number(text, at.cycle as u64)
}

/// Appends that no number is enough, and where the last was given up.
fn push_none_line(text: &mut Vec<u8>, count: usize, at: Moment) -> Result<(), NoMemory>
    ensures { OnOk result (text.new.items ≡ text.old.items ++ enough_line (NoneAt count at)) }
{
    push_piece(text, b"enough none ")?;
    push_none_at(text, count, at)?;
    end_line(text)
}

/// Appends how many items are enough, or that no number is.
pub(crate) fn push_enough(text: &mut Vec<u8>, enough: EnoughItems) -> Result<(), NoMemory>
    ensures { OnOk result (text.new.items ≡ text.old.items ++ enough_line enough) }
{
    match enough {
        EnoughItems::Number(count) => push_number_line(text, count),
        EnoughItems::NoneAt(count, at) => push_none_line(text, count, at),
        EnoughItems::NoneRead => push_line(text, b"enough none"),
    }
}
