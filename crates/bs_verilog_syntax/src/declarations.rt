//! Ranges, declarations, and the header of a module.
ghost use Rattle.std.specs.Prelude.{◌≡◌, ◌≤◌, ◌<◌, length, map, IfOk, Ok, unwrap_or};
ghost use Rattle.bs_verilog_syntax.specs.Reading as spec;
ghost use Rattle.bs_verilog_syntax.specs.Declarations as declarations;
ghost use Rattle.bs_bits.specs.Reading.{Answers};
ghost use Rattle.bs_verilog_syntax.specs.declared.fault.VerilogFault.TheVariants.{NoMemory as want};

use crate::fault::VerilogFault;
use crate::listing::{Reader, closed, listed};
use crate::reading::{
    Due, attributes, expect, expect_digits, expect_name, is_at, name_of, place_of, refused,
    rest_of, sort_of,
};
use crate::tree::{Declared, Direction, HeaderPort, Net, Ports, Range, Says};
use crate::unsupported::after_direction;
use bs_bits::List;
use bs_lex::{Lexeme, Name, Sort, Word, is_name};
use std::alloc::Global;

/// A range, if there is one.
#[tactic(auto, unfolding(crate::specs::Declarations::range))]
fn range(ts: &[Lexeme]) -> Result<(Option<Range>, &[Lexeme]), VerilogFault>
    ensures reads { spec.Reads (λ r. r) result (declarations.range ts.now) }
    ensures within { IfOk result (λ x. length x.1.now ≤ length ts.now) }
{
    if !is_at(b'[', ts) {
        return Ok((None, ts));
    }
    let (left, rest) = expect_digits(rest_of(ts))?;
    let rest = expect(b':', Due::Nothing, rest)?;
    let (right, rest) = expect_digits(rest)?;
    let rest = expect(b']', Due::Nothing, rest)?;
    let range = Range {
        at: place_of(ts),
        left,
        right,
    };
    Ok((Some(range), rest))
}

/// The direction that a lexeme is.
pub fn direction_of(sort: Sort) -> Option<Direction>
    ensures { result ≡ declarations.direction sort }
{
    match sort {
        Sort::Word(Word::Input) => Some(Direction::Input),
        Sort::Word(Word::Output) => Some(Direction::Output),
        _ => None,
    }
}

/// The net word that a lexeme is.
pub fn net_of(sort: Sort) -> Option<Net>
    ensures { result ≡ declarations.net sort }
{
    match sort {
        Sort::Word(Word::Wire) => Some(Net::Wire),
        Sort::Word(Word::Supply0) => Some(Net::Supply0),
        Sort::Word(Word::Supply1) => Some(Net::Supply1),
        _ => None,
    }
}

/// Whether a lexeme is `wire`.
fn is_wire(sort: Sort) -> bool
    ensures { result ≡ declarations.is_wire sort }
{
    matches!(sort, Sort::Word(Word::Wire))
}

/// A range, if there is one, and what else is said.
fn ranged(
    direction: Option<Direction>,
    net: Option<Net>,
    ts: &[Lexeme],
) -> Result<(Says, &[Lexeme]), VerilogFault>
    ensures reads { spec.Reads (λ s. s) result (declarations.ranged direction net ts.now) }
    ensures within { IfOk result (λ x. length x.1.now ≤ length ts.now) }
{
    let (range, rest) = range(ts)?;
    let says = Says {
        direction,
        net,
        range,
    };
    Ok((says, rest))
}

/// What follows a direction, up to the first name.
#[tactic(auto, unfolding(crate::specs::Declarations::port_says))]
pub fn port_says(direction: Direction, ts: &[Lexeme]) -> Result<(Says, &[Lexeme]), VerilogFault>
    ensures reads { spec.Reads (λ s. s) result (declarations.port_says direction ts.now) }
    ensures within { IfOk result (λ x. length x.1.now ≤ length ts.now) }
{
    if after_direction(sort_of(ts)).is_some() {
        Err(refused(Due::AfterDirection, ts))
    } else if is_wire(sort_of(ts)) {
        ranged(Some(direction), Some(Net::Wire), rest_of(ts))
    } else {
        ranged(Some(direction), None, ts)
    }
}

/// What follows a net word, up to the first name.
#[tactic(auto, unfolding(crate::specs::Declarations::net_says))]
pub fn net_says(net: Net, ts: &[Lexeme]) -> Result<(Says, &[Lexeme]), VerilogFault>
    ensures reads { spec.Reads (λ s. s) result (declarations.net_says net ts.now) }
{
    ranged(None, Some(net), ts)
}

/// Reads the names of a declaration.
#[derive(Drop)]
struct DeclaredReader {
    says: Says,
}

impl Reader<Declared> for DeclaredReader {
    ghost reading = { λ reader. declarations.declared_name reader.says };

    #[tactic(auto, unfolding(crate::specs::Declarations::declared_name))]
    fn read<'a>(
        &self,
        _alloc: Global,
        ts: &'a [Lexeme],
    ) -> Result<(Declared, &'a [Lexeme]), VerilogFault> {
        let (name, rest) = expect_name(ts)?;
        Ok((
            Declared {
                says: self.says,
                name,
            },
            rest,
        ))
    }
}

/// The names of a declaration, and its `;`.
#[tactic(auto, unfolding(crate::specs::Declarations::names))]
pub fn names(
    alloc: Global,
    says: Says,
    ts: &[Lexeme],
) -> Result<(List<Declared>, &[Lexeme]), VerilogFault>
    ensures reads { spec.Reads (λ d. d) result (declarations.names says ts.now) }
{
    let (listing, rest) = listed(alloc, &DeclaredReader { says }, ts)?;
    closed(b';', Due::AfterDeclared, listing, rest)
}

/// Reads the ports of a header that declares nothing.
#[derive(Drop)]
struct PlainPortReader;

impl Reader<Name> for PlainPortReader {
    ghost reading = { λ _. declarations.plain_port };

    #[tactic(auto, unfolding(crate::specs::Declarations::plain_port))]
    fn read<'a>(
        &self,
        _alloc: Global,
        ts: &'a [Lexeme],
    ) -> Result<(Name, &'a [Lexeme]), VerilogFault> {
        let here = attributes(ts)?;
        expect_name(here)
    }
}

/// Reads the ports of a header that declares them.
#[derive(Drop)]
struct HeaderPortReader;

impl Reader<HeaderPort> for HeaderPortReader {
    ghost reading = { λ _. declarations.header_port };

    #[tactic(auto, unfolding(crate::specs::Declarations::header_port))]
    fn read<'a>(
        &self,
        _alloc: Global,
        ts: &'a [Lexeme],
    ) -> Result<(HeaderPort, &'a [Lexeme]), VerilogFault> {
        let here = attributes(ts)?;
        match direction_of(sort_of(here)) {
            Some(direction) => {
                let (says, rest) = port_says(direction, rest_of(here))?;
                let (name, rest) = expect_name(rest)?;
                let port = HeaderPort {
                    says: Some(says),
                    name,
                };
                Ok((port, rest))
            }
            None => {
                if is_name(sort_of(here)) {
                    let port = HeaderPort {
                        says: None,
                        name: name_of(here),
                    };
                    Ok((port, rest_of(here)))
                } else {
                    Err(refused(Due::Port, here))
                }
            }
        }
    }
}

/// What is said of a port, after what was said before it.
fn says_of(port: HeaderPort, before: Says) -> Says
    ensures { result ≡ unwrap_or port.says (declarations.passed_on before) }
{
    match port.says {
        Some(says) => says,
        None => Says {
            direction: before.direction,
            net: None,
            range: before.range,
        },
    }
}

/// What the ports of a header declare.
fn carried(alloc: Global, ports: &[HeaderPort]) -> Result<List<Declared>, VerilogFault>
    ensures { Answers want (λ ds. ds) result (Ok (declarations.carried declarations.nothing_said ports.now)) }
{
    let mut declared = List::new(alloc);
    let mut before = Says {
        direction: None,
        net: None,
        range: None,
    };
    'ports: for port in ports {
        before = says_of(*port, before);
        declared.push(Declared {
            says: before,
            name: port.name,
        })?;
    }
    Ok(declared)
}

/// The names of ports.
fn names_of(alloc: Global, ports: &[HeaderPort]) -> Result<List<Name>, VerilogFault>
    ensures { Answers want (λ ns. ns) result (Ok (map (λ p. p.name) ports.now)) }
{
    let mut names = List::new(alloc);
    'ports: for port in ports {
        names.push(port.name)?;
    }
    Ok(names)
}

/// Ports that a header declares: their names, and what it says of them.
fn ports_of(alloc: Global, ports: &[HeaderPort]) -> Result<Ports, VerilogFault>
    ensures { Answers want (λ p. p) result (Ok (declarations.ports_of ports.now)) }
{
    let header = names_of(alloc, ports)?;
    let declared = carried(alloc, ports)?;
    Ok(Ports { header, declared })
}

/// The ports of a header that declares nothing, up to and with its `)`.
fn plain_ports(alloc: Global, ts: &[Lexeme]) -> Result<(Ports, &[Lexeme]), VerilogFault>
    ensures reads { spec.Reads (λ p. p) result (declarations.plain_ports ts.now) }
{
    let (header, rest) = listed(alloc, &PlainPortReader, ts)?;
    let rest = expect(b')', Due::Nothing, rest)?;
    let ports = Ports {
        header,
        declared: List::new(alloc),
    };
    Ok((ports, rest))
}

/// The ports of a header that declares them, up to and with its `)`.
fn declared_ports(alloc: Global, ts: &[Lexeme]) -> Result<(Ports, &[Lexeme]), VerilogFault>
    ensures reads { spec.Reads (λ p. p) result (declarations.declared_ports ts.now) }
{
    let (listing, rest) = listed(alloc, &HeaderPortReader, ts)?;
    let rest = expect(b')', Due::AfterDeclared, rest)?;
    let ports = ports_of(alloc, listing.slice())?;
    Ok((ports, rest))
}

/// The ports after a header's `(`, up to and with its `)`.
#[tactic(auto, unfolding(crate::specs::Declarations::ports))]
fn ports(alloc: Global, ts: &[Lexeme]) -> Result<(Ports, &[Lexeme]), VerilogFault>
    ensures reads { spec.Reads (λ p. p) result (declarations.ports ts.now) }
{
    if is_at(b')', ts) {
        let none = Ports {
            header: List::new(alloc),
            declared: List::new(alloc),
        };
        return Ok((none, rest_of(ts)));
    }
    let here = attributes(ts)?;
    if is_name(sort_of(here)) {
        plain_ports(alloc, ts)
    } else {
        declared_ports(alloc, ts)
    }
}

/// The header of a module after its name, up to and with its `;`.
#[tactic(auto, unfolding(crate::specs::Declarations::header))]
pub fn header(alloc: Global, ts: &[Lexeme]) -> Result<(Ports, &[Lexeme]), VerilogFault>
    ensures reads { spec.Reads (λ p. p) result (declarations.header ts.now) }
{
    if is_at(b'(', ts) {
        let (listing, rest) = ports(alloc, rest_of(ts))?;
        let rest = expect(b';', Due::Nothing, rest)?;
        return Ok((listing, rest));
    }
    let rest = expect(b';', Due::AfterModule, ts)?;
    let none = Ports {
        header: List::new(alloc),
        declared: List::new(alloc),
    };
    Ok((none, rest))
}
