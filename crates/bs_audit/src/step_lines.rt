//! The lines of a log, step by step.
ghost use Rattle.std.specs.Prelude.{◌≡◌, option_map};
ghost use Rattle.bs_log.specs.Steps.{last_solve};
ghost use Rattle.bs_audit.specs.StepLines.{is_delete, is_retire, IsSplit};

use bs_log::Line;

/// Whether a line ends a step.
fn is_retire(line: &Line) -> bool
    ensures { result ≡ is_retire line.now }
{
    matches!(line, Line::Retire { .. })
}

/// Whether a line takes clauses away.
pub fn is_delete(line: &Line) -> bool
    ensures { result ≡ is_delete line.now }
{
    matches!(line, Line::Delete { .. })
}

/// The lines up to the first retire line, and those behind it. Where there is none, the step has no lines.
pub fn split_step(lines: &[Line]) -> (&[Line], &[Line])
    ensures { IsSplit lines.now result.0.now result.1.now }
{
    'lines: for i in 0..lines.len() {
        if is_retire(&lines[i]) {
            return (&lines[..i], &lines[i + 1..]);
        }
    }
    (&[], &[])
}

/// The lines behind the last solve line, if there is one.
pub fn last_solve(lines: &[Line]) -> Option<&[Line]>
    ensures { option_map (λ lines. lines.now) result ≡ last_solve lines.now }
{
    let mut found = None;
    'lines: for i in 0..lines.len() {
        if matches!(lines[i], Line::Solve) {
            found = Some(&lines[i + 1..]);
        }
    }
    found
}
