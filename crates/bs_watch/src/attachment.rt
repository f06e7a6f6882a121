//! A clause joins the lists of its first two literals.
ghost use Rattle.std.specs.Prelude.{◌≡◌, ◌<◌, length, OnOk, OnErr};
ghost use Rattle.bs_clause.specs.Literal.{code_of};
ghost use Rattle.bs_watch.specs.Lists.{with_two};

use crate::lists::{WatchLists, Watcher};
use bs_arena::Ref;
use bs_clause::{Lit, NoMemory};

/// Each of the two literals has the clause in its list, with the other one as its blocker.
pub fn join_two(
    lists: &mut WatchLists,
    clause: Ref,
    first: Lit,
    second: Lit,
) -> Result<(), NoMemory>
    requires first { code_of first < length lists.old }
    requires second { code_of second < length lists.old }
    ensures ok { OnOk result (lists.new ≡ with_two lists.old clause first second) }
    ensures err { OnErr result (lists.new ≡ lists.old) }
{
    lists.push(
        first,
        Watcher {
            clause,
            blocker: second,
        },
    )?;
    let pushed = lists.push(
        second,
        Watcher {
            clause,
            blocker: first,
        },
    );
    match pushed {
        Ok(()) => Ok(()),
        Err(fault) => {
            let last = lists.len(first) - 1;
            lists.remove(first, last);
            Err(fault)
        }
    }
}
