//! Why a hierarchical netlist text is refused.

use bs_bits::List;
use bs_verilog_syntax::VerilogFault;

/// Why a text has no flat parts. A place is a byte offset from 0.
#[derive(Drop)]
pub enum FlatFault {
    /// A module's own text, or the form of an instance statement.
    Verilog(VerilogFault),
    /// The `module` of the first module that has an earlier one's name, or the first second instance name within a module.
    Twice(u32),
    /// The `module` of the first module by which the nets of all own texts pass `MAX_OWN_NETS`.
    OwnNets(u32),
    /// Modules that instance each other in a ring, by their names, the earliest first.
    Recursion(List<List<u8>>),
    /// So many modules are instanced by none.
    Tops(u32),
    /// The first term or pin that does not go with its port.
    Connect(u32),
    /// A path of more than `MAX_DEPTH` instance names.
    FlatDepth,
    /// More than `MAX_PARTS` gates, flip-flops and instances.
    FlatParts,
    /// More nets than a netlist may have.
    FlatNets,
    /// Keys of more than `MAX_KEY_BYTES` bytes together.
    FlatKeys,
    /// The key of the lowest net that has another's key.
    NameClash(List<u8>),
    /// More than `MAX_TERMINALS` inputs of gates, constants and ports of the top together.
    FlatTerminals,
    /// Out of memory.
    NoMemory,
}
