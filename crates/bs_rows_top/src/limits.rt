//! Limits that no row comes to are these numbers, so that a change of one is seen here.
ghost use Rattle.std.specs.Prelude.{◌≡◌};
ghost use Rattle.bs_inspect_signature.specs.declared.counting.TheConstants.{MAX_LEMMAS, MAX_LISTED, MAX_TRY_LEMMAS, MAX_TRY_LISTED};
ghost use Rattle.bs_inspect_signature.specs.declared.lists.TheConstants.{MAX_LISTED_BITS, MAX_TRY_WIDTH, OTHERS_PART};
ghost use Rattle.bs_inspect_signature.specs.declared.spread.TheConstants.{FRONT_PART, MAX_MOMENTS, MAX_TRY_MOMENTS};
ghost use Rattle.bs_inspect_signature.specs.declared.deck.TheConstants.{FEW_ITEMS, WEIGHT};
ghost use Rattle.bs_encode.specs.declared.encoding.TheConstants.{MAX_ACTIVATIONS};
ghost use Rattle.bs_solve_lemmas.specs.declared.rule.TheConstants.{SHORT, MOST_LONG};
ghost use Rattle.bs_preimage.specs.declared.probe.TheConstants.{MAX_PROBES};
ghost use Rattle.bs_preimage_recorded.specs.declared.search.TheConstants.{MAX_ASKS};
ghost use Rattle.bs_chip.specs.declared.index.TheConstants.{MAX_HASHES};
ghost use Rattle.bs_chip.specs.declared.first_hit.TheConstants.{MAX_TRACK_BYTES};
ghost use Rattle.bs_preimage_recorded.specs.declared.split.TheConstants.{MAX_TRIED};
ghost use Rattle.bs_flat_meaning.specs.declared.limits.TheConstants.{MAX_DEPTH, MAX_PATHS, MAX_OWN_NETS, MAX_PARTS, MAX_TERMINALS, MAX_KEY_BYTES};
ghost use Rattle.bs_clause.specs.declared.literal.TheConstants.{VARIABLE_LIMIT};

/// Limits of lists and proposals, of the search and the replay, and of designs.
pub fn limits_are()
    // The companion's lists and proposals.
    ensures listed { MAX_LISTED ≡ 256 }
    ensures listed_bits { MAX_LISTED_BITS ≡ 1048576 }
    ensures lemmas { MAX_LEMMAS ≡ 10000 }
    ensures try_lemmas { MAX_TRY_LEMMAS ≡ 1000 }
    ensures try_listed { MAX_TRY_LISTED ≡ 16 }
    ensures moments { MAX_MOMENTS ≡ 64 }
    ensures try_moments { MAX_TRY_MOMENTS ≡ 256 }
    ensures try_width { MAX_TRY_WIDTH ≡ 2048 }
    ensures front { FRONT_PART ≡ 8 }
    ensures others { OTHERS_PART ≡ 64 }
    ensures weight { WEIGHT ≡ 3 }
    ensures few_items { FEW_ITEMS ≡ 6 }

    // The search for states: its clauses, lemmas and questions.
    ensures variables { VARIABLE_LIMIT ≡ 1073741824 }
    ensures activations { MAX_ACTIVATIONS ≡ 65536 }
    ensures short { SHORT ≡ 8 }
    ensures most_long { MOST_LONG ≡ 20000 }
    ensures probes { MAX_PROBES ≡ 1000 }
    ensures asks { MAX_ASKS ≡ 1000 }
    ensures tried { MAX_TRIED ≡ 64 }

    // The replay of the runs.
    ensures hashes { MAX_HASHES ≡ 2097152 }
    ensures track_bytes { MAX_TRACK_BYTES ≡ 536870912 }

    // Designs of several modules.
    ensures depth { MAX_DEPTH ≡ 256 }
    ensures paths { MAX_PATHS ≡ 4294967295 }
    ensures own_nets { MAX_OWN_NETS ≡ 4194304 }
    ensures parts { MAX_PARTS ≡ 400000 }
    ensures terminals { MAX_TERMINALS ≡ 268435456 }
    ensures key_bytes { MAX_KEY_BYTES ≡ 268435456 }
{}
