//! What a text of seen bits and its reading have to do with each other.
ghost use Rattle.bs_scan.specs.SeenText.{SeenTextsReadBack, SeenTextsAreExact};

/// Bits that have a text are read back from it, and what is read of a text has that text.
pub fn seen_texts_read_back()
    ensures back { SeenTextsReadBack }
    ensures exact { SeenTextsAreExact }
{}
