//! What a lexeme is to the modules of a text.
ghost use Rattle.std.specs.Prelude.{◌≡◌};
ghost use Rattle.bs_verilog_syntax.specs.Modules as modules;

use bs_lex::{Sort, Word};

/// Whether a lexeme is `module`.
pub fn is_module(sort: Sort) -> bool
    ensures { result ≡ modules.is_module sort }
{
    matches!(sort, Sort::Word(Word::Module))
}

/// Whether a lexeme is `endmodule`.
pub fn is_endmodule(sort: Sort) -> bool
    ensures { result ≡ modules.is_endmodule sort }
{
    matches!(sort, Sort::Word(Word::Endmodule))
}

/// Whether a lexeme is the name of a cell.
pub fn is_cell(sort: Sort) -> bool
    ensures { result ≡ modules.is_cell sort }
{
    matches!(sort, Sort::Name(Some(_)))
}

/// Whether a lexeme is the end of the text.
pub fn is_end(sort: Sort) -> bool
    ensures { result ≡ modules.is_end sort }
{
    matches!(sort, Sort::End)
}
