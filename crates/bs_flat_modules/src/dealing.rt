//! A text dealt out: where its modules stand, and what stands outside them.
ghost use Rattle.std.specs.Prelude.{◌≡◌, IfOk};
ghost use Rattle.bs_flat_modules.specs.Dealing as spec;

use crate::copying::{copy, part};
use crate::pieces::{first_cut, is_design};
use bs_bits::{List, NoMemory};
use bs_lex::Lexeme;
use std::alloc::Global;

/// Where a module that is no cell stands among the lexemes of its text: its attributes begin at `from`, its `module` is at `body`,
/// and `stop` is behind its `endmodule`. `before` counts the lexemes outside all such modules that stand before it.
#[derive(Clone, Copy)]
pub struct ModuleSpan {
    pub before: usize,
    pub from: usize,
    pub body: usize,
    pub stop: usize,
}

/// The modules of a text that are no cells, in file order, and the lexemes outside them.
#[derive(Drop)]
pub struct Dealt {
    pub modules: List<ModuleSpan>,
    pub others: List<Lexeme>,
}

/// Deals the lexemes of a text out.
pub fn deal(alloc: Global, ts: &[Lexeme]) -> Result<Dealt, NoMemory>
    ensures { IfOk result (λ d. spec.IsDealt ts.now d) }
{
    let mut modules = List::new(alloc);
    let mut others = List::new(alloc);
    let mut from = 0;
    'pieces: while from < ts.len() {
        let cut = first_cut(&ts[from..])?;
        let body = from + cut.body;
        let stop = from + cut.stop;
        if is_design(part(ts, body, stop)) {
            let before = others.len();
            modules.push(ModuleSpan {
                before,
                from,
                body,
                stop,
            })?;
        } else {
            copy(&mut others, part(ts, from, stop))?;
        }
        from = stop;
    }
    Ok(Dealt { modules, others })
}
