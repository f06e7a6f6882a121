//! New references after a compaction.
ghost use Rattle.std.specs.Prelude.{◌≡◌, ◌≤◌, map, length, unwrap_or};
ghost use Rattle.bs_arena.specs.Arena.{live_words, meaning};
ghost use Rattle.bs_arena.specs.Renaming.{IsRenaming, new_name};
ghost use Rattle.bs_watch.specs.Watch.{Serves, renamed_watch};
ghost use Rattle.bs_solve_lemmas.specs.Keeping.{renamed_ref, renamed_row};

use crate::row::LoggedClause;
use bs_arena::{Arena, Ref, Renaming};
use bs_watch::Watch;

// The new reference of a clause.
fn rename_ref(names: &Renaming, r: Ref) -> Ref
    ensures { result ≡ renamed_ref names.now.names r }
{
    match names.get(r) {
        Some(new) => new,
        None => r,
    }
}

// The row with its clause's new reference.
fn rename_row(names: &Renaming, row: LoggedClause) -> LoggedClause
    ensures { result ≡ renamed_row names.now.names row }
{
    LoggedClause {
        id: row.id,
        clause: rename_ref(names, row.clause),
        is_lemma: row.is_lemma,
    }
}

// Each row.
fn rename_rows(rows: &mut Vec<LoggedClause>, names: &Renaming)
    ensures { rows.new.items ≡ map (renamed_row names.now.names) rows.old.items }
{
    'rows: for at in 0..rows.len() {
        rows[at] = rename_row(names, rows[at]);
    }
}

// Each reference.
fn rename_refs(refs: &mut Vec<Ref>, names: &Renaming)
    ensures { refs.new.items ≡ map (renamed_ref names.now.names) refs.old.items }
{
    'refs: for at in 0..refs.len() {
        refs[at] = rename_ref(names, refs[at]);
    }
}

/// Moves the live clauses together, and gives the watch lists, the rows and the short clauses their
/// new references. It takes no memory.
pub fn compact_all(
    watch: &mut Watch,
    arena: &mut Arena,
    renaming: &mut Renaming,
    rows: &mut Vec<LoggedClause>,
    shorts: &mut Vec<Ref>,
)
    requires serves { Serves watch.old arena.old.clauses }
    requires room { length arena.old.clauses ≤ renaming.old.spare }
    ensures serves { Serves watch.new arena.new.clauses }
    ensures meaning { map meaning arena.new.clauses ≡ map meaning arena.old.clauses }
    ensures places { arena.new.places ≡ map (λ h. h.ref) arena.new.clauses }
    ensures words { arena.new.words ≡ live_words arena.new.clauses }
    ensures renames { IsRenaming arena.old.clauses arena.new.clauses renaming.new.names }
    ensures watch { watch.new ≡ renamed_watch renaming.new.names watch.old }
    ensures rows { rows.new.items ≡ map (renamed_row renaming.new.names) rows.old.items }
    ensures shorts { shorts.new.items ≡ map (renamed_ref renaming.new.names) shorts.old.items }
{
    arena.compact(renaming);
    watch.rename(renaming);
    rename_rows(rows, renaming);
    rename_refs(shorts, renaming);
}
