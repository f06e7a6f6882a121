//! The declarations of a text, word by word.
ghost use Rattle.std.specs.Prelude.{◌≡◌, ◌<◌, ◌≤◌, ◌+◌, ◌^◌, true, nat_lt, length, IfOk, OnOk, slice_index_or, ◌++◌, ◌∷◌, []};
ghost use Rattle.bs_bits.specs.Reading.{Answers};
ghost use Rattle.bs_vcd_header.specs.declared.fault.VcdFault.TheVariants.{NoMemory as Want};
ghost use Rattle.bs_vcd_header.specs.Tokens.{token_in, tokens_from};
ghost use Rattle.bs_vcd_header.specs.Header.{begun_in, command_of, declared_in, header_from, header_in, innermost, maybe_command, nothing_begun, path_below, shape_in, turned, with_scope, with_variable, without_scope, worded};

use crate::command::{Command, command_of};
use crate::fault::VcdFault;
use crate::token::{VcdToken, next_token};
use crate::words::is_text;
use bs_bits::{List, NoMemory, push_piece};
use std::alloc::Global;

/// A variable: the number of its scope, how many bits it has, its code, its name, and the word behind that, which is empty
/// where there is none.
#[derive(Clone, Copy)]
pub struct Variable<'a> {
    pub scope: usize,
    pub width: u64,
    pub id: u64,
    pub name: &'a [u8],
    pub range: &'a [u8],
}

/// The paths of all scopes by their numbers, the numbers of those that are open, and the variables.
#[derive(Drop)]
pub struct HeaderDeclarations<'a> {
    pub paths: List<List<u8>>,
    pub open_scopes: Vec<usize>,
    pub variables: Vec<Variable<'a>>,
}

/// The words of the command under way, and what is declared by those before it.
#[derive(Drop)]
pub struct HeaderState<'a> {
    pub words: Vec<&'a [u8]>,
    pub declared: HeaderDeclarations<'a>,
}

/// A place in a text, and the line of it.
#[derive(Clone, Copy)]
pub struct Behind<'a> {
    pub line: u64,
    pub rest: &'a [u8],
}

/// The scope that is open.
fn innermost(scopes: &[usize]) -> usize
    ensures { result ≡ innermost scopes.now }
{
    match scopes.last() {
        Some(scope) => *scope,
        None => 0,
    }
}

/// The path of a scope in another.
fn path_below(alloc: Global, outer: &[u8], name: &[u8]) -> Result<List<u8>, NoMemory>
    ensures { IfOk result (λ path. path ≡ path_below outer.now name.now) }
{
    let mut path = Vec::new(alloc);
    if !outer.is_empty() {
        push_piece(&mut path, outer)?;
        push_piece(&mut path, b".")?;
    }
    push_piece(&mut path, name)?;
    Ok(List::of(path))
}

/// The path of the scope that is open.
fn open_path<'a>(declared: &'a HeaderDeclarations<'_>) -> &'a [u8]
    ensures { result.now ≡ slice_index_or (declared_in declared.now).paths (innermost (declared_in declared.now).open_scopes) [] }
{
    let scope = innermost(declared.open_scopes.as_slice());
    if scope < declared.paths.len() {
        declared.paths.get(scope).slice()
    } else {
        b""
    }
}

/// Opens a scope.
fn open_scope(
    alloc: Global,
    name: &[u8],
    declared: &mut HeaderDeclarations<'_>,
) -> Result<(), NoMemory>
    ensures { OnOk result (declared_in declared.new ≡ with_scope (declared_in declared.old) name.now) }
{
    let path = path_below(alloc, open_path(declared), name)?;
    let scope = declared.paths.len();
    declared.open_scopes.push(scope)?;
    declared.paths.push(path)?;
    Ok(())
}

/// Ends the scope that is open, if there is one.
fn close_scope(declared: &mut HeaderDeclarations<'_>) -> bool
    ensures did { result ≡ nat_lt 1 (length (declared_in declared.old).open_scopes) }
    ensures closed { result ≡ true → declared_in declared.new ≡ without_scope (declared_in declared.old) }
{
    let count = declared.open_scopes.len();
    if count > 1 {
        declared.open_scopes.truncate(count - 1);
        true
    } else {
        false
    }
}

/// Takes a variable into the scope that is open.
fn add_variable<'a>(
    variable: Variable<'a>,
    declared: &mut HeaderDeclarations<'a>,
) -> Result<(), NoMemory>
    ensures { OnOk result (declared_in declared.new ≡ with_variable (declared_in declared.old) (shape_in variable.entry)) }
{
    let scope = innermost(declared.open_scopes.as_slice());
    declared.variables.push(Variable { scope, ..variable })?;
    Ok(())
}

/// Does what a command says whose `$end` stands in this line, and answers whether it is the last.
fn turn<'a>(
    alloc: Global,
    line: u64,
    command: Option<Command<'a>>,
    declared: &mut HeaderDeclarations<'a>,
) -> Result<bool, VcdFault>
    ensures { Answers Want (λ last. (last, declared_in declared.new)) result (turned line (maybe_command command.entry) (declared_in declared.old)) }
{
    match command {
        None => Err(VcdFault::Line(line)),
        Some(Command::Opens(name)) => {
            open_scope(alloc, name, declared)?;
            Ok(false)
        }
        Some(Command::Closes) => {
            if close_scope(declared) {
                Ok(false)
            } else {
                Err(VcdFault::Line(line))
            }
        }
        Some(Command::Declares(variable)) => {
            add_variable(variable, declared)?;
            Ok(false)
        }
        Some(Command::Finishes) => Ok(true),
        Some(Command::Passes) => Ok(false),
    }
}

/// Puts a word behind those of a command.
fn add_word<'a>(word: &'a [u8], words: &mut Vec<&'a [u8]>) -> Result<(), NoMemory>
    ensures { OnOk result (words.new.items ≡ words.old.items ++ word.entry ∷ []) }
{
    words.push(word)?;
    Ok(())
}

/// Takes a word, and answers whether the declarations end with it.
fn take_word<'a>(
    alloc: Global,
    token: VcdToken<'a>,
    begun: &mut HeaderState<'a>,
) -> Result<bool, VcdFault>
    ensures { Answers Want (λ last. (last, begun_in begun.new)) result (worded (begun_in begun.old) (token_in token.entry)) }
{
    if is_text(token.text, b"$end") {
        let last = turn(
            alloc,
            token.line,
            command_of(begun.words.as_slice()),
            &mut begun.declared,
        )?;
        begun.words.clear();
        return Ok(last);
    }
    add_word(token.text, &mut begun.words)?;
    Ok(false)
}

/// Takes the declarations with which a text begins whose first line has this number, and answers where they end.
#[tactic(auto, using(crate::proofs::HeaderLemmas::word_taken, crate::proofs::HeaderLemmas::word_last, crate::proofs::HeaderLemmas::word_faulty, crate::proofs::HeaderLemmas::words_end))]
pub fn take_words<'a>(
    alloc: Global,
    line: u64,
    text: &'a [u8],
    begun: &mut HeaderState<'a>,
) -> Result<Behind<'a>, VcdFault>
    requires { line + length text.now < 2 ^ 64 }
    ensures header { Answers Want (λ behind. header_in behind begun.new.declared) result (header_from (begun_in begun.old) (tokens_from line text.now)) }
    ensures within { IfOk result (λ behind. behind.line + length behind.rest.now ≤ line + length text.now) }
{
    let mut line = line;
    let mut rest = text;
    'words: while let Some((token, behind)) = next_token(line, rest) {
        line = token.line;
        rest = behind;
        if take_word(alloc, token, begun)? {
            return Ok(Behind { line, rest });
        }
    }
    Err(VcdFault::Ended)
}

/// Nothing is declared before the first word.
pub fn nothing<'a>(alloc: Global) -> Result<HeaderState<'a>, NoMemory>
    ensures { IfOk result (λ begun. begun_in begun ≡ nothing_begun) }
{
    let mut paths = List::new(alloc);
    paths.push(List::new(alloc))?;
    let mut open_scopes = Vec::new(alloc);
    open_scopes.push(0)?;
    Ok(HeaderState {
        words: Vec::new(alloc),
        declared: HeaderDeclarations {
            paths,
            open_scopes,
            variables: Vec::new(alloc),
        },
    })
}
