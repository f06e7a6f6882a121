//! Why a report is refused.

use bs_bits::NoMemory;
use std::error::Error;
use std::fmt::Display;
use thiserror::Error;

/// Why a text is no report (docs/FORMATS.md, "Report"). A line counts from 1.
#[derive(Clone, Copy, Debug, Error)]
pub enum ReportFault {
    #[error("line {0} is not of a form that its place allows")]
    Line(u64),
    #[error("the text ends before its `end` line is whole")]
    Short,
    #[error("bytes follow the `end` line")]
    Extra,
    #[error("out of memory")]
    NoMemory,
}

impl From<NoMemory> for ReportFault {
    ghost use Rattle.std.specs.Prelude.{◌≡◌};
    ghost use Rattle.bs_report.specs.declared.fault.ReportFault.TheVariants.{NoMemory as Want};

    ghost from_gives = { λ _ fault. fault ≡ Want };

    fn from(_refused: NoMemory) -> ReportFault {
        ReportFault::NoMemory
    }
}
