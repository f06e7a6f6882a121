//! The lines of groups.
ghost use Rattle.std.specs.Prelude.{◌≡◌, ◌-◌, ◌++◌, [], nat_lt, IfOk, OnOk, if◌then◌else◌};
ghost use Rattle.std.specs.List.{flat_map};
ghost use Rattle.bs_net.specs.Netlist.{parts_of};
ghost use Rattle.bs_inspect_why_words.specs.Blocks.{Appends};
ghost use Rattle.bs_inspect_why_words.specs.Groups.{end_words, group_line, group_spans, groups_lines, rest_line, span_words, spans_words, AreGroups, TellsGroups};

use crate::group::{CycleSpan, Group, fronted, groups_of};
use crate::limits::Limits;
use crate::reason::reasons;
use crate::words::{first_of, push_more};
use bs_bits::{NoMemory, end_line, push_number, push_piece};
use bs_net::Raw;
use bs_net_facts::Fact;
use std::alloc::Global;

/// Appends the last of several cycles.
fn push_end(text: &mut Vec<u8>, span: CycleSpan) -> Result<(), NoMemory>
    ensures { OnOk result (text.new.items ≡ text.old.items ++ end_words span) }
{
    if span.from == span.to {
        Ok(())
    } else {
        push_piece(text, b"..")?;
        push_number(text, u64::from(span.to))
    }
}

/// Appends cycles in a row.
fn push_span(text: &mut Vec<u8>, span: CycleSpan) -> Result<(), NoMemory>
    ensures { OnOk result (text.new.items ≡ text.old.items ++ span_words span) }
{
    push_piece(text, b" ")?;
    push_number(text, u64::from(span.from))?;
    push_end(text, span)
}

/// Appends spans.
fn push_all_spans(text: &mut Vec<u8>, spans: &[CycleSpan]) -> Result<(), NoMemory>
    ensures { OnOk result (text.new.items ≡ text.old.items ++ flat_map span_words spans.now) }
{
    'spans: for span in spans {
        push_span(text, *span)?;
    }
    Ok(())
}

/// Appends the last span of a group behind so many closed ones, unless enough are told.
fn push_last(
    text: &mut Vec<u8>,
    most: usize,
    closed: usize,
    span: CycleSpan,
) -> Result<(), NoMemory>
    ensures { OnOk result (text.new.items ≡ text.old.items ++ (if nat_lt closed most then span_words span else [])) }
{
    if closed < most {
        push_span(text, span)
    } else {
        Ok(())
    }
}

/// Appends the first spans of a group, and how many more there are.
#[tactic(auto, using(crate::proofs::SpanLemmas::spans_told))]
fn push_spans(text: &mut Vec<u8>, most: usize, group: &Group) -> Result<(), NoMemory>
    ensures { OnOk result (text.new.items ≡ text.old.items ++ spans_words most (group_spans group.now)) }
{
    let closed = group.closed.slice();
    let last = CycleSpan {
        from: group.from,
        to: group.to,
    };
    push_all_spans(text, first_of(closed, most))?;
    push_last(text, most, closed.len(), last)?;
    push_more(text, (closed.len() + 1).saturating_sub(most))?;
    Ok(())
}

/// Appends the line of a group.
fn push_group(text: &mut Vec<u8>, lead: &[u8], most: usize, group: &Group) -> Result<(), NoMemory>
    ensures { OnOk result (text.new.items ≡ text.old.items ++ group_line lead.now most group.now) }
{
    push_piece(text, lead)?;
    push_piece(text, group.words.slice())?;
    push_piece(text, b" ")?;
    push_spans(text, most, group)?;
    end_line(text)
}

/// Appends the lines of groups.
fn push_all_groups(
    text: &mut Vec<u8>,
    lead: &[u8],
    spans: usize,
    groups: &[Group],
) -> Result<(), NoMemory>
    ensures { OnOk result (text.new.items ≡ text.old.items ++ flat_map (group_line lead.now spans) groups.now) }
{
    'groups: for group in groups {
        push_group(text, lead, spans, group)?;
    }
    Ok(())
}

/// Appends how many more groups there are.
fn push_rest(text: &mut Vec<u8>, lead: &[u8], count: usize) -> Result<(), NoMemory>
    ensures { OnOk result (text.new.items ≡ text.old.items ++ rest_line lead.now count) }
{
    if count == 0 {
        return Ok(());
    }
    push_piece(text, lead)?;
    push_number(text, count as u64)?;
    push_piece(text, b" more")?;
    end_line(text)
}

/// Appends the lines of the first groups, and how many more there are.
fn push_groups(
    text: &mut Vec<u8>,
    lead: &[u8],
    most: usize,
    spans: usize,
    groups: &[Group],
) -> Result<(), NoMemory>
    ensures { OnOk result (text.new.items ≡ text.old.items ++ groups_lines lead.now most spans groups.now) }
{
    push_all_groups(text, lead, spans, first_of(groups, most))?;
    push_rest(text, lead, groups.len().saturating_sub(most))
}

/// The groups of facts, which are told by cycles: first what is told in the most cycles.
#[tactic(auto, using(crate::proofs::SpanLemmas::groups_are))]
fn fact_groups(
    alloc: Global,
    raw: &Raw,
    facts: &[Fact],
    most: usize,
) -> Result<Vec<Group>, NoMemory>
    ensures { IfOk result (λ groups. AreGroups (parts_of raw.now) most facts.now groups.items) }
{
    let reasons = reasons(alloc, raw, facts, most)?;
    let groups = groups_of(alloc, reasons.as_slice())?;
    let fronts = fronted(reasons.as_slice(), groups)?;
    Ok(fronts)
}

/// Appends the lines of facts, so many of each cycle, which are told by cycles.
#[tactic(auto, using(crate::proofs::SpanLemmas::groups_told))]
pub(crate) fn push_by_cycles(
    text: &mut Vec<u8>,
    raw: &Raw,
    lead: &[u8],
    limits: Limits,
    most: usize,
    facts: &[Fact],
) -> Result<(), NoMemory>
    ensures { OnOk result (Appends (TellsGroups (parts_of raw.now) lead.now most limits.reasons limits.spans facts.now) text.old.items text.new.items) }
{
    let groups = fact_groups(*text.allocator(), raw, facts, most)?;
    push_groups(text, lead, limits.reasons, limits.spans, groups.as_slice())?;
    Ok(())
}
