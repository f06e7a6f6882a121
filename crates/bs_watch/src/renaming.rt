//! The watchers' clauses have new references.
ghost use Rattle.std.specs.Prelude.{◌≡◌, map, option_map, unwrap_or};
ghost use Rattle.bs_arena.specs.Renaming.{new_name};
ghost use Rattle.bs_watch.specs.Lists.{renamed, renamed_lists};
ghost use Rattle.bs_watch.specs.Tables.{renamed_cause};

use crate::cause::Cause;
use crate::lists::Watcher;
use bs_arena::{Ref, Renaming};

/// The watcher of the clause under its new reference.
pub fn rename_one(watcher: Watcher, names: &Renaming) -> Watcher
    ensures { result ≡ renamed names.now.names watcher }
{
    match names.get(watcher.clause) {
        Some(clause) => Watcher {
            clause,
            blocker: watcher.blocker,
        },
        None => watcher,
    }
}

/// Each watcher of a row.
pub fn rename_row(row: &mut Vec<Watcher>, names: &Renaming)
    ensures { row.new.items ≡ map (renamed names.now.names) row.old.items }
{
    'watchers: for at in 0..row.len() {
        row[at] = rename_one(row[at], names);
    }
}

/// Each watcher of each row.
pub fn rename_rows(rows: &mut Vec<Vec<Watcher>>, names: &Renaming)
    ensures { map (λ v. v.items) rows.new.items
        ≡ renamed_lists names.now.names (map (λ v. v.items) rows.old.items) }
{
    'rows: for code in 0..rows.len() {
        rename_row(&mut rows[code], names);
    }
}

fn rename_reason(reason: Option<Ref>, names: &Renaming) -> Option<Ref>
    ensures { result ≡ option_map (λ r. unwrap_or (new_name names.now.names r) r) reason }
{
    match reason {
        None => None,
        Some(old) => match names.get(old) {
            Some(new) => Some(new),
            None => Some(old),
        },
    }
}

// The cause with its clause under its new reference.
fn rename_cause(cause: Cause, names: &Renaming) -> Cause
    ensures { result ≡ renamed_cause names.now.names cause }
{
    Cause {
        reason: rename_reason(cause.reason, names),
        level: cause.level,
    }
}

/// Each cause of a table.
pub fn rename_causes(causes: &mut Vec<Cause>, names: &Renaming)
    ensures { causes.new.items ≡ map (renamed_cause names.now.names) causes.old.items }
{
    'causes: for at in 0..causes.len() {
        causes[at] = rename_cause(causes[at], names);
    }
}
