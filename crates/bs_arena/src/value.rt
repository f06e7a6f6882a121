//! A variable's value, in a table by literal code.
ghost use Rattle.std.specs.Prelude.{◌≡◌, ◌+◌, ◌*◌, ◌<◌, length};
ghost use Rattle.bs_arena.specs.Open.{is_assigned};

/// Whether one of a variable's two literals is true.
pub fn has_value(values: &[bool], variable: u32) -> bool
    requires { 2 * variable + 1 < length values.now }
    ensures { result ≡ is_assigned values.now variable }
{
    let code = 2 * variable as usize;
    values[code] || values[code + 1]
}
