//! Why a text is no netlist.
ghost use Rattle.std.specs.Prelude.{◌≡◌};
ghost use Rattle.bs_verilog_syntax.specs.Refusals.{what_word};
ghost use Rattle.bs_verilog_syntax.specs.declared.fault.VerilogFault.TheVariants.{NoMemory as OutOfMemory};

use bs_bits::NoMemory;
use std::alloc::{AllocError, AllocFailed};
use std::error::Error;
use std::fmt::Display;
use thiserror::Error;

/// A part of the language that this reader leaves out (docs/FORMATS.md, "What is left out").
#[derive(Clone, Copy, Debug)]
pub enum What {
    /// Procedures, variables, tasks, functions, specify and generate blocks: `always`, `reg` and the like.
    Behaviour,
    /// A parameter's declaration, or `#` behind the name of a module or a cell.
    Parameter,
    /// A net type other than `wire`, `supply0` and `supply1`, or `reg` after a direction.
    NetType,
    /// A switch, a three-state gate or a pull, or a `primitive`.
    Primitive,
    /// `inout`.
    Direction,
    /// A drive strength.
    Strength,
    /// An array of gates or cells.
    Array,
    /// An operator, a concatenation or a bracketed term where a net must stand.
    Expression,
    /// A vector of more than one bit without an index, or a range of its bits.
    Width,
    /// A number that is no constant of one bit.
    Constant,
    /// A compiler directive that is not passed over.
    Directive,
    /// An instance of another module, or a second module that is no cell.
    Hierarchy,
}

impl What {
    /// The word by which a refusal names it.
    pub fn word(self) -> &'static str
        ensures { result.now ≡ what_word self }
    {
        match self {
            What::Behaviour => "Behaviour",
            What::Parameter => "Parameter",
            What::NetType => "NetType",
            What::Primitive => "Primitive",
            What::Direction => "Direction",
            What::Strength => "Strength",
            What::Array => "Array",
            What::Expression => "Expression",
            What::Width => "Width",
            What::Constant => "Constant",
            What::Directive => "Directive",
            What::Hierarchy => "Hierarchy",
        }
    }
}

/// Why a text is no netlist. A place is a byte offset from 0.
#[derive(Clone, Copy, Debug, Error)]
pub enum VerilogFault {
    /// The first token that cannot go on, or the length of a text that ends too early.
    #[error("what begins at byte {0} cannot stand there")]
    Syntax(u32),
    /// The same where the language allows more than this reader.
    #[error("what begins at byte {0} is left out by this reader")]
    Unsupported(u32, What),
    /// A direction for a name that is no port, or a port without a direction.
    #[error("the port at byte {0} is not declared once in the header and once with a direction")]
    Port(u32),
    /// A name that stands twice in the header, or a declaration that does not go with an earlier one.
    #[error("the name at byte {0} is declared before")]
    Redeclared(u32),
    /// The name, term or port by which the count of nets passes 100,000.
    #[error("at byte {0} there are more than 100,000 nets")]
    TooManyNets(u32),
    /// A gate, cell or assignment with other terminals than it takes.
    #[error("the part at byte {0} has other terminals than it takes")]
    Terminals(u32),
    /// A bound above 65,535, or an index that its name has not.
    #[error("the index at byte {0} is out of range")]
    Index(u32),
    /// Out of memory.
    #[error("out of memory")]
    NoMemory,
}

impl From<AllocError> for VerilogFault {
    ghost from_gives = { λ _ e. e ≡ OutOfMemory };

    fn from(_refused: AllocError) -> VerilogFault {
        VerilogFault::NoMemory
    }
}

impl From<NoMemory> for VerilogFault {
    ghost from_gives = { λ _ e. e ≡ OutOfMemory };

    fn from(_refused: NoMemory) -> VerilogFault {
        VerilogFault::NoMemory
    }
}

impl<T: Drop> From<AllocFailed<T>> for VerilogFault {
    ghost from_gives = { λ _ e. e ≡ OutOfMemory };

    fn from(_refused: AllocFailed<T>) -> VerilogFault {
        VerilogFault::NoMemory
    }
}
