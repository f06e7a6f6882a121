//! Accounts as a table for scripts.
ghost use Rattle.std.specs.Prelude.{◌≡◌, ◌++◌, codes, IfOk, OnOk};
ghost use Rattle.std.specs.List.{flat_map};
ghost use Rattle.bs_net.specs.Netlist.{parts_of};
ghost use Rattle.bs_net.specs.Parts.{key_at};
ghost use Rattle.bs_net_facts.specs.Blocks.{moved};
ghost use Rattle.bs_net_names.specs.Rtl.{rtl_name};
ghost use Rattle.bs_net_names.specs.Ranges.{range_text};
ghost use Rattle.bs_inspect_report.specs.Table.{field};
ghost use Rattle.bs_inspect_causes.specs.Accounts.{last_bits};
ghost use Rattle.bs_inspect_why.specs.Table.{account_cells, account_rows, accounts_table, fact_cells, fact_row, fact_rows};

use bs_bits::{NoMemory, end_line, push_line, push_number, push_piece};
use bs_inspect_causes::Account;
use bs_inspect_report::push_field;
use bs_inspect_view::push_value;
use bs_inspect_why_words::key_of;
use bs_net::{NetId, Raw};
use bs_net_facts::Fact;
use bs_net_names::{key_parts, plain, push_range};
use std::alloc::Global;

/// Appends the layer of an account, and when its bits stand.
fn push_account(text: &mut Vec<u8>, account: &Account) -> Result<(), NoMemory>
    ensures { OnOk result (text.new.items ≡ text.old.items ++ account_cells account.now) }
{
    push_number(text, u64::from(account.layer))?;
    push_piece(text, b",")?;
    push_number(text, u64::from(account.block.since))?;
    push_piece(text, b",")?;
    push_number(text, u64::from(account.block.at))
}

/// Appends the number of a bit, where there is one.
fn push_bit_number(text: &mut Vec<u8>, bit: Option<u64>) -> Result<(), NoMemory>
    ensures { OnOk result (text.new.items ≡ text.old.items ++ range_text bit 1) }
{
    match bit {
        Some(high) => push_range(text, high, 1),
        None => Ok(()),
    }
}

/// The name of a net as RTL writes it.
#[tactic(auto, using(crate::proofs::TableLemmas::name_is))]
fn net_name(alloc: Global, raw: &Raw, net: NetId) -> Result<Vec<u8>, NoMemory>
    ensures { IfOk result (λ name. name.items ≡ rtl_name (key_at (parts_of raw.now) net.0)) }
{
    let parts = key_parts(key_of(raw, net).as_bytes());
    let mut name = Vec::new(alloc);
    push_piece(&mut name, plain(parts.base))?;
    push_bit_number(&mut name, parts.bit)?;
    Ok(name)
}

/// Appends the name of a net as a field.
fn push_net(text: &mut Vec<u8>, raw: &Raw, net: NetId) -> Result<(), NoMemory>
    ensures { OnOk result (text.new.items ≡ text.old.items ++ field (rtl_name (key_at (parts_of raw.now) net.0))) }
{
    let name = net_name(*text.allocator(), raw, net)?;
    push_field(text, name.as_slice())
}

/// Appends the cycle of a fact, its net's name and its bit.
fn push_cells(text: &mut Vec<u8>, raw: &Raw, fact: Fact) -> Result<(), NoMemory>
    ensures { OnOk result (text.new.items ≡ text.old.items ++ fact_cells (parts_of raw.now) fact) }
{
    push_number(text, u64::from(fact.cycle))?;
    push_piece(text, b",")?;
    push_net(text, raw, fact.net)?;
    push_piece(text, b",")?;
    push_value(text, &[fact.bit])?;
    Ok(())
}

/// Appends the row of a fact.
fn push_fact(
    text: &mut Vec<u8>,
    raw: &Raw,
    account: &Account,
    kind: &[u8],
    fact: Fact,
) -> Result<(), NoMemory>
    ensures { OnOk result (text.new.items ≡ text.old.items ++ fact_row (parts_of raw.now) account.now kind.now fact) }
{
    push_account(text, account)?;
    push_piece(text, kind)?;
    push_cells(text, raw, fact)?;
    end_line(text)
}

/// Appends the rows of facts.
fn push_facts(
    text: &mut Vec<u8>,
    raw: &Raw,
    account: &Account,
    kind: &[u8],
    facts: &[Fact],
) -> Result<(), NoMemory>
    ensures { OnOk result (text.new.items ≡ text.old.items ++ fact_rows (parts_of raw.now) account.now kind.now facts.now) }
{
    'facts: for fact in facts {
        push_fact(text, raw, account, kind, *fact)?;
    }
    Ok(())
}

/// A fact at another cycle.
pub(crate) fn moved(cycle: u32, fact: Fact) -> Fact
    ensures { result ≡ moved cycle fact }
{
    Fact {
        net: fact.net,
        cycle,
        bit: fact.bit,
    }
}

/// Appends the rows of an account's bits.
fn push_bits(text: &mut Vec<u8>, raw: &Raw, account: &Account) -> Result<(), NoMemory>
    ensures { OnOk result (text.new.items ≡ text.old.items ++ fact_rows (parts_of raw.now) account.now (codes ",bit,") (last_bits account.now)) }
{
    let bits = account.block.bits.slice();
    'bits: for bit in bits {
        push_fact(text, raw, account, b",bit,", moved(account.block.at, *bit))?;
    }
    Ok(())
}

/// Appends the rows of an account.
fn push_rows(text: &mut Vec<u8>, raw: &Raw, account: &Account) -> Result<(), NoMemory>
    ensures { OnOk result (text.new.items ≡ text.old.items ++ account_rows (parts_of raw.now) account.now) }
{
    push_bits(text, raw, account)?;
    push_facts(text, raw, account, b",cause,", account.causes.slice())?;
    push_facts(text, raw, account, b",hold,", account.holds.slice())?;
    push_facts(text, raw, account, b",idle,", account.idle.slice())
}

/// Appends the rows of accounts.
fn push_accounts(text: &mut Vec<u8>, raw: &Raw, accounts: &[Account]) -> Result<(), NoMemory>
    ensures { OnOk result (text.new.items ≡ text.old.items ++ flat_map (account_rows (parts_of raw.now)) accounts.now) }
{
    'accounts: for account in accounts {
        push_rows(text, raw, account)?;
    }
    Ok(())
}

/// Accounts as a table.
pub(crate) fn accounts_table(
    alloc: Global,
    raw: &Raw,
    accounts: &[Account],
) -> Result<Vec<u8>, NoMemory>
    ensures { IfOk result (λ text. text.items ≡ accounts_table (parts_of raw.now) accounts.now) }
{
    let mut text = Vec::new(alloc);
    push_line(&mut text, b"layer,since,at,kind,cycle,name,value")?;
    push_accounts(&mut text, raw, accounts)?;
    Ok(text)
}
