//! Names that RTL writes alike.
ghost use Rattle.std.specs.Prelude.{◌≡◌};
ghost use Rattle.bs_net_names.specs.Keys.{parts_in};
ghost use Rattle.bs_net_names.specs.Rtl.{equal_bit, same_name};

use crate::key::KeyParts;
use crate::naming::plain;

/// Whether two numbers of bits are the same, or both are none.
fn equal_bit(one: Option<u64>, other: Option<u64>) -> bool
    ensures { result ≡ equal_bit one other }
{
    match (one, other) {
        (None, None) => true,
        (None, Some(_)) => false,
        (Some(_), None) => false,
        (Some(one), Some(other)) => one == other,
    }
}

/// Whether two keys are one name as RTL writes it: the same bit of the same vector, or the same net. A `\` in front is passed over.
pub fn same_name(one: KeyParts<'_>, other: KeyParts<'_>) -> bool
    ensures { result ≡ same_name (parts_in one.entry) (parts_in other.entry) }
{
    plain(one.base) == plain(other.base) && equal_bit(one.bit, other.bit)
}
