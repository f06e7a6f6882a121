//! The laws of the grammar, as functions with empty bodies.
ghost use Rattle.bs_verilog.specs.GrammarLaw.{ReadsWhatIsWritten, ReadsAllThatIsWritten, ReadsExactly};

use bs_lex::Token;

/// A text that is read is in the grammar, and says what it is read as.
pub fn what_is_read_is_written(source: &[u8], tokens: &[Token])
    ensures { ReadsWhatIsWritten source.now tokens.now }
{}

/// A text in the grammar is read, as what it says.
pub fn what_is_written_is_read(source: &[u8], tokens: &[Token])
    ensures { ReadsAllThatIsWritten source.now tokens.now }
{}

/// The netlist that a text is has a value exactly for the texts in the grammar whose names and ports agree.
pub fn netlists_are_in_the_grammar(source: &[u8])
    ensures { ReadsExactly source.now }
{}
