//! Which options each command takes.
ghost use Rattle.std.specs.Prelude.{◌≡◌, ◌++◌, ◌&&◌, IfOk};
ghost use Rattle.std.specs.List.{list_any};
ghost use Rattle.std.specs.Str.{bytes_eq};
ghost use Rattle.bs_inspect_usages.specs.Usages.{foreign_text, is_foreign, is_owned, owned_in};

use crate::usage::{is_dashed, option_name};
use bs_bits::{NoMemory, push_piece};
use bs_inspect_notes::push_word;
use bs_vcd_header::is_text;
use std::alloc::Global;

/// The options of each command.
const OWNED: [(&str, &str); 41] = [
    ("trace", "--all"),
    ("trace", "--from"),
    ("trace", "--to"),
    ("trace", "--last"),
    ("trace", "--only"),
    ("trace", "--csv"),
    ("steps", "--csv"),
    ("candidates", "--only"),
    ("wave", "--all"),
    ("wave", "--from"),
    ("wave", "--only"),
    ("gtkw", "--all"),
    ("gtkw", "--from"),
    ("gtkw", "--only"),
    ("page", "--signature"),
    ("page", "--only"),
    ("page", "--most"),
    ("stimulus", "--clock"),
    ("stimulus", "--scope"),
    ("stimulus", "--map"),
    ("check", "--clock"),
    ("check", "--scope"),
    ("check", "--map"),
    ("dump", "--cycle"),
    ("dump", "--time"),
    ("dump", "--clock"),
    ("dump", "--scope"),
    ("dump", "--map"),
    ("dump", "--signature"),
    ("dump", "--partial"),
    ("signature", "--bits"),
    ("cnf", "--step"),
    ("lrat", "--step"),
    ("reach-cnf", "--length"),
    ("reach-lrat", "--length"),
    ("novel", "--most"),
    ("why", "--at"),
    ("why", "--depth"),
    ("why", "--flops"),
    ("why", "--all"),
    ("why", "--csv"),
];

/// Whether these are the names of a command and its option.
fn is_pair(command: &[u8], name: &[u8], pair: (&str, &str)) -> bool
    ensures { result ≡ (bytes_eq command.now pair.entry.0.now && bytes_eq name.now pair.entry.1.now) }
{
    is_text(command, pair.0.as_bytes()) && is_text(name, pair.1.as_bytes())
}

/// Whether a command takes an option with this name, by a table.
fn owned_in(command: &[u8], name: &[u8], table: &[(&str, &str)]) -> bool
    ensures { result ≡ owned_in command.now name.now table.now }
{
    table.iter().any(|pair| is_pair(command, name, *pair))
}

/// Whether a command takes an option with this name.
fn is_owned(command: &[u8], name: &[u8]) -> bool
    ensures { result ≡ is_owned command.now name.now }
{
    owned_in(command, name, &OWNED)
}

/// Whether a word begins as an option, and is none of the command.
pub fn is_foreign(command: &[u8], word: &[u8]) -> bool
    ensures { result ≡ is_foreign command.now word.now }
{
    let dashed = is_dashed(word);
    let owned = is_owned(command, option_name(word));
    dashed && !owned
}

/// What is said of such a word with its number.
#[tactic(auto, unfolding(crate::specs::Usages::foreign_text))]
pub fn foreign_sentence(alloc: Global, number: u64, word: &[u8]) -> Result<Vec<u8>, NoMemory>
    ensures { IfOk result (λ said. said.items ≡ foreign_text number word.now) }
{
    let mut said = Vec::new(alloc);
    push_word(&mut said, number, word)?;
    push_piece(&mut said, b", is no option of this command")?;
    Ok(said)
}
