//! The names of the modules and of their instances, none of which may stand twice.
ghost use Rattle.std.specs.Prelude.{◌≡◌, ◌++◌, map, IfOk, OnOk};
ghost use Rattle.bs_bits.specs.Reading.{Answers};
ghost use Rattle.bs_verilog_syntax.specs.declared.fault.VerilogFault.TheVariants.{NoMemory as want};
ghost use Rattle.bs_flat_modules.specs.Names as spec;

use crate::copying::part;
use crate::dealing::ModuleSpan;
use bs_bits::{List, NoMemory};
use bs_flat_meaning::Written;
use bs_lex::{Lexeme, Name, is_name};
use bs_verilog_scope::header_marks;
use bs_verilog_syntax::{VerilogFault, name_of, place_of, rest_of, sort_of};
use std::alloc::Global;

/// Adds the name of a module with this body, at its `module`, if it has a name.
fn add_head(names: &mut List<Name>, body: &[Lexeme]) -> Result<(), NoMemory>
    ensures { OnOk result (names.new ≡ names.old ++ spec.head_of body.now) }
{
    let inside = rest_of(body);
    if is_name(sort_of(inside)) {
        names.push(Name {
            at: place_of(body),
            id: name_of(inside).id,
        })?;
    }
    Ok(())
}

/// The names of the modules at these places, each at its `module`.
pub fn heads(alloc: Global, ts: &[Lexeme], modules: &[ModuleSpan]) -> Result<List<Name>, NoMemory>
    ensures { IfOk result (λ ns. ns ≡ spec.heads ts.now modules.now) }
{
    let mut names = List::new(alloc);
    'modules: for place in modules {
        add_head(&mut names, part(ts, place.body, place.stop))?;
    }
    Ok(names)
}

/// The names of instances.
fn instance_names(alloc: Global, written: &[Written]) -> Result<List<Name>, NoMemory>
    ensures { IfOk result (λ ns. ns ≡ map (λ w. w.name) written.now) }
{
    let mut names = List::new(alloc);
    'written: for w in written {
        names.push(w.name)?;
    }
    Ok(names)
}

/// The second instance name of a module is refused.
fn names_apart(alloc: Global, written: &[Written]) -> Result<(), VerilogFault>
    ensures { Answers want (λ _. tt) result (spec.apart written.now) }
{
    let names = instance_names(alloc, written)?;
    header_marks(alloc, names.slice())?;
    Ok(())
}

/// The first second instance name of the modules is refused.
pub fn all_apart(alloc: Global, written: &[List<Written>]) -> Result<(), VerilogFault>
    ensures { Answers want (λ _. tt) result (spec.all_apart written.now) }
{
    'modules: for w in written {
        names_apart(alloc, w.slice())?;
    }
    Ok(())
}

/// Whether the `module`s at these places stand one behind another.
pub fn are_rising(ts: &[Lexeme], modules: &[ModuleSpan]) -> bool
    ensures { result ≡ spec.rises 0 (map (spec.begin ts.now) modules.now) }
{
    let mut least: usize = 0;
    'modules: for place in modules {
        let at = place_of(part(ts, place.body, place.stop)) as usize;
        if at < least {
            return false;
        }
        least = at + 1;
    }
    true
}
