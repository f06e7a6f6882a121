//! The words of a command line of the companion: which are a request, and which one they are.
//!
//! Modules: `request` and `proposed` (`Request`), `named`, `report`, `simulation`, `signature`, `novel`, `evidence`, `lengths`, `page`,
//! `why` (the commands; what the last two ask: `paged`, `causes`), `reading` (`read_request`). Words by position and options are parted by
//! bs_top_words, and options are read by bs_inspect_usages. Used above: `read_request` answers `request_of` (`specs/Request`). A command:
//! a record and a variant of `Request` in code and specs, its words in a module, and a line in `command_request` or its kin.
#![tactic(auto)]

mod causes;
mod evidence;
mod lengths;
mod named;
mod novel;
mod page;
mod paged;
mod proposed;
mod reading;
mod report;
mod request;
mod signature;
mod simulation;
mod why;

pub use causes::WhyRequest;
pub use paged::PageRequest;
pub use proposed::{NovelRequest, SignatureRequest};
pub use reading::read_request;
pub use request::{
    BenchRequest, CheckRequest, DumpRequest, EvidenceRequest, GtkwRequest, KeysRequest,
    LengthsRequest, ListsRequest, NearRequest, Request, SeenRequest, StimulusRequest, TraceRequest,
    UnscanRequest, WaveRequest,
};
