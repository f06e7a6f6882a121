//! How words stand, and the version, as a reply.
ghost use Rattle.std.specs.Prelude.{IfOk};
ghost use Rattle.bs_inspect_plans.specs.Finishes.{finishes};
ghost use Rattle.bs_inspect_plans.specs.Work.{to_help, to_version};

use bs_inspect_plans::{usage_text, version_text};
use bs_outside::{NoMemory, Reply, Status};
use std::alloc::Global;

/// How words stand.
pub(crate) fn tell_usage(alloc: Global) -> Result<Reply, NoMemory>
    ensures { IfOk result (λ answer. finishes to_help answer.status answer.text.items) }
{
    let text = usage_text(alloc)?;
    Ok(Reply {
        status: Status::Done,
        text,
    })
}

/// The version.
pub(crate) fn tell_version(alloc: Global) -> Result<Reply, NoMemory>
    ensures { IfOk result (λ answer. finishes to_version answer.status answer.text.items) }
{
    let text = version_text(alloc)?;
    Ok(Reply {
        status: Status::Done,
        text,
    })
}
