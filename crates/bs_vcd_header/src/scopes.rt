//! The scopes and the names that a text declares.
ghost use Rattle.std.specs.Prelude.{◌≡◌, ◌<◌, ◌^◌, drop, length, map, option_map, slice_get, Some, IfOk};
ghost use Rattle.bs_bits.specs.Reading.{Answers};
ghost use Rattle.bs_vcd_header.specs.declared.fault.VcdFault.TheVariants.{NoMemory as Want};
ghost use Rattle.bs_vcd_header.specs.Header.{declared_in, shape_in, variable_in};
ghost use Rattle.bs_vcd_header.specs.Scopes.{declared_of, is_of, names_among, names_of, scopes_of};
ghost use Rattle.bs_vcd_header.specs.Sources.{named_in};

use crate::fault::VcdFault;
use crate::header::{HeaderDeclarations, Variable, nothing, take_words};
use crate::range::named_in;
use crate::sources::path_of;
use crate::words::is_text;
use bs_bits::{List, NoMemory};
use std::alloc::Global;

/// What is declared with which a text begins.
#[tactic(auto, using(crate::proofs::ScopeLemmas::declared_read, crate::proofs::ScopeLemmas::declared_faulty))]
pub fn declared<'a>(alloc: Global, text: &'a [u8]) -> Result<HeaderDeclarations<'a>, VcdFault>
    requires { length text.now < 2 ^ 63 }
    ensures { Answers Want (λ declared. declared_in declared) result (declared_of text.now) }
{
    let mut begun = nothing(alloc)?;
    match take_words(alloc, 1, text, &mut begun) {
        Ok(_) => Ok(begun.declared),
        Err(fault) => Err(fault),
    }
}

/// The path at a place.
fn path_at(paths: &List<List<u8>>, scope: usize) -> &[u8]
    requires { scope < length paths.now }
    ensures { slice_get paths.now scope ≡ Some result.now }
{
    paths.get(scope).slice()
}

/// The paths of all scopes but that of the text as a whole, which is the first.
#[tactic(auto, using(crate::proofs::ScopeLemmas::scopes_none))]
fn scopes_among(alloc: Global, paths: &List<List<u8>>) -> Result<Vec<&[u8]>, NoMemory>
    ensures { IfOk result (λ scopes. map (λ n. n.now) scopes.items ≡ drop 1 paths.now) }
{
    let mut scopes = Vec::new(alloc);
    'paths: for scope in 1..paths.len() {
        scopes.push(path_at(paths, scope))?;
    }
    Ok(scopes)
}

/// The paths of the scopes that are declared, in the order of the text.
pub fn scopes_of<'a>(
    alloc: Global,
    declared: &'a HeaderDeclarations<'_>,
) -> Result<Vec<&'a [u8]>, NoMemory>
    ensures { IfOk result (λ scopes. map (λ n. n.now) scopes.items ≡ scopes_of (declared_in declared.now)) }
{
    let scopes = scopes_among(alloc, &declared.paths)?;
    Ok(scopes)
}

/// Whether a variable is of a scope, where one is asked for.
fn is_of(scope: Option<&[u8]>, paths: &List<List<u8>>, variable: Variable<'_>) -> bool
    ensures { result ≡ is_of (option_map (λ path. path.now) scope.entry) paths.now (variable_in variable.entry) }
{
    match scope {
        Some(path) => is_text(path_of(paths, variable.scope), path),
        None => true,
    }
}

/// The name of a variable, without its bits.
#[tactic(auto, using(crate::proofs::ScopeLemmas::own_name))]
fn own_name<'a>(variable: Variable<'a>) -> &'a [u8]
    ensures { result.now ≡ (named_in (shape_in variable.entry)).name }
{
    named_in(variable).name
}

/// The names of those of these variables that are of a scope.
fn names_among<'a>(
    alloc: Global,
    scope: Option<&[u8]>,
    paths: &List<List<u8>>,
    variables: &[Variable<'a>],
) -> Result<Vec<&'a [u8]>, NoMemory>
    ensures { IfOk result (λ names. map (λ n. n.now) names.items ≡ names_among (option_map (λ path. path.now) scope.entry) paths.now (map variable_in variables.now)) }
{
    let mut names = Vec::new(alloc);
    'variables: for variable in variables {
        if is_of(scope, paths, *variable) {
            names.push(own_name(*variable))?;
        }
    }
    Ok(names)
}

/// The names of the variables of a scope, where one is asked for, or of all, in the order of the text.
pub fn names_of<'a>(
    alloc: Global,
    scope: Option<&[u8]>,
    declared: &HeaderDeclarations<'a>,
) -> Result<Vec<&'a [u8]>, NoMemory>
    ensures { IfOk result (λ names. map (λ n. n.now) names.items ≡ names_of (option_map (λ path. path.now) scope.entry) (declared_in declared.now)) }
{
    let names = names_among(alloc, scope, &declared.paths, declared.variables.as_slice())?;
    Ok(names)
}
