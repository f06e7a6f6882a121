//! The words behind a command.
ghost use Rattle.std.specs.Prelude.{◌≡◌, map, string_bytes, IfOk};
ghost use Rattle.bs_top_words.specs.Asked.{shown};
ghost use Rattle.bs_top_words.specs.Given.{read_all, start};
ghost use Rattle.bs_inspect_usages.specs.Settings.{all_flags};

use bs_bits::NoMemory;
use bs_top_words::{Flag, Given, read_given};
use std::alloc::Global;

/// The words by position and the options behind a command, where no option is misspelt or lacks its value.
pub fn given_words<'a>(alloc: Global, words: &'a [String]) -> Result<Option<Given<'a>>, NoMemory>
    ensures { IfOk result (λ given. shown given ≡ read_all all_flags (map string_bytes words.now) start) }
{
    let flags = [
        Flag::All,
        Flag::Only,
        Flag::Clock,
        Flag::Scope,
        Flag::Map,
        Flag::Bits,
        Flag::From,
        Flag::To,
        Flag::Last,
        Flag::Time,
        Flag::Cycle,
        Flag::Signature,
        Flag::Csv,
        Flag::Step,
        Flag::Most,
        Flag::At,
        Flag::Depth,
        Flag::Flops,
        Flag::Partial,
    ];
    let given = read_given(alloc, &flags, words)?;
    Ok(given)
}
