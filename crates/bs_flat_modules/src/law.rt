//! The laws of counts, as functions with empty bodies.
ghost use Rattle.bs_flat_modules.specs.Designs.{DesignsHaveFewNets, DesignsHaveFewPaths};
ghost use Rattle.bs_flat_modules.specs.Modules.{ModulesAreCounted, PartsAreCounted};
ghost use Rattle.bs_flat_modules.specs.Texts.{AloneTextsAreOfTheText, LexemesAreCopied, NumbersTakeThreeBytes, OwnTextsAreOfTheText, ReadingIsShort, TextsHaveFewLexemes};

/// The numbers of each connection that is read from lexemes of a text take three bytes.
pub fn connections_take_three_bytes()
    ensures { NumbersTakeThreeBytes }
{}

/// A text has a byte for each lexeme but its end.
pub fn texts_have_few_lexemes()
    ensures { TextsHaveFewLexemes }
{}

/// The number of each lexeme of a text is one that a copy may have.
pub fn lexemes_are_copied()
    ensures { LexemesAreCopied }
{}

/// A module has no more connections, parts and names than there are lexemes from which it is read.
pub fn reading_is_short()
    ensures { ReadingIsShort }
{}

/// The own text of a module, and each of its instance statements, is put together from lexemes of the text, and is no longer. An
/// own text that is read without what stands outside the modules is put together from them too.
pub fn own_texts_are_of_the_text()
    ensures own { OwnTextsAreOfTheText }
    ensures alone { AloneTextsAreOfTheText }
{}

/// The parts that are built from lexemes of a text have no more ports and constants than nets, and no more gates and flip-flops
/// than lexemes.
pub fn parts_are_counted()
    ensures { PartsAreCounted }
{}

/// What each module of a text counts, whose modules are read.
pub fn modules_are_counted()
    ensures { ModulesAreCounted }
{}

/// A design of few parts has few paths.
pub fn designs_have_few_paths()
    ensures { DesignsHaveFewPaths }
{}

/// A design of few names has few flat nets.
pub fn designs_have_few_nets()
    ensures { DesignsHaveFewNets }
{}
