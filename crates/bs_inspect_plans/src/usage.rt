//! How words stand, and the version.
ghost use Rattle.std.specs.Prelude.{◌≡◌, IfOk};
ghost use Rattle.bs_inspect_plans.specs.Usage.{usage_text, version_text};

use bs_bits::{NoMemory, end_line, push_number};
use bs_inspect_usages::push_usages;
use bs_top_words::VERSION;
use std::alloc::Global;

/// The name of the program and its version.
pub fn version_text(alloc: Global) -> Result<Vec<u8>, NoMemory>
    ensures { IfOk result (λ text. text.items ≡ version_text) }
{
    let mut text = b"backspace_inspect ".to_vec(alloc)?;
    push_number(&mut text, VERSION)?;
    end_line(&mut text)?;
    Ok(text)
}

/// The version, and how the words of each command stand.
pub fn usage_text(alloc: Global) -> Result<Vec<u8>, NoMemory>
    ensures { IfOk result (λ text. text.items ≡ usage_text) }
{
    let mut text = version_text(alloc)?;
    push_usages(&mut text)?;
    Ok(text)
}
