//! The signals of a trace.
ghost use Rattle.std.specs.Prelude.{◌<◌, ◌^◌, length, All};

use bs_inspect_view::Signal;

/// The signals of a trace: those of its states and those of its inputs.
#[derive(Drop)]
pub(crate) struct Signals<'a> {
    pub flops: Vec<Signal<'a>>,
    pub inputs: Vec<Signal<'a>>,
    ghost few_flops: { All (λ s. length s.places < 2 ^ 32) flops.items },
    ghost few_inputs: { All (λ s. length s.places < 2 ^ 32) inputs.items },
}
