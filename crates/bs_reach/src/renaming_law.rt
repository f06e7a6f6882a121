//! The law of renamed logs.
ghost use Rattle.bs_reach.specs.Widened.{LogsStayRight, LogsHaveRoom};

/// A log that is accepted on a list of clauses and lean is so, renamed, on each wider list; and where the ids and variables
/// stay small enough, each of its lines can be renamed.
pub fn renamed_logs_stay_right()
    ensures right { LogsStayRight }
    ensures room { LogsHaveRoom }
{}
