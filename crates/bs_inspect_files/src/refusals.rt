//! The words of the refusal of a name (docs/FORMATS.md, "Words of `backspace_inspect`").
ghost use Rattle.std.specs.Prelude.{◌≡◌, IfOk};
ghost use Rattle.bs_top_files.specs.Refusals.{HasWords};
ghost use Rattle.bs_inspect_files.specs.Words.{name_words};

use bs_bits::{NoMemory, push_piece};
use bs_inspect_values::refusal;
use bs_net_names::push_quoted;
use bs_outside::Refusal;
use std::alloc::Global;

/// The words of a name that is none of a netlist.
fn quoted_words(alloc: Global, name: &[u8]) -> Result<Vec<u8>, NoMemory>
    ensures { IfOk result (λ why. why.items ≡ name_words name.now) }
{
    let mut why = Vec::new(alloc);
    push_piece(&mut why, b"Unknown ")?;
    push_quoted(&mut why, name)?;
    Ok(why)
}

/// The refusal of a name that is none of a netlist.
pub fn name_refusal(alloc: Global, name: &str) -> Refusal
    ensures { HasWords (name_words name.now) result }
{
    refusal(quoted_words(alloc, name.as_bytes()))
}
