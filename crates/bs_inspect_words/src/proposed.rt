//! What a request of `signature` and of `novel` asks.
ghost use Rattle.std.specs.Prelude.{◌<◌};

/// `signature`: the names of its files, and how many items the signature is to have.
#[derive(Drop)]
pub struct SignatureRequest<'a> {
    pub netlist: &'a str,
    pub runs: &'a str,
    pub items: u64,
    ghost some: { 0 < items },
}

/// `novel`: the names of its files, the number of a run from 1, and how many lines it tells at most.
#[derive(Clone, Copy)]
pub struct NovelRequest<'a> {
    pub netlist: &'a str,
    pub runs: &'a str,
    pub run: u64,
    pub most: u64,
}
